//! Traces and logs that rows name.

/// Two transactions read overlapping spans at one time: the program's stored run.
const READS: &str =
    r#"{"page_first":132,"page_max":132,"min_pages":2,"retention":10,"low_water":[5,0],"threads":[[
{"op":"add","span":{"start":"61","end":"63"},"time":[20,0],"owner":"11111111-1111-4111-8111-111111111111","now":[20,0]},
{"op":"get","span":{"start":"62"}},
{"op":"get","span":{"start":"63"}},
{"op":"add","span":{"start":"62"},"time":[20,0],"owner":"22222222-2222-4222-8222-222222222222","now":[20,0]},
{"op":"get","span":{"start":"62"}},
{"op":"low"}]]}
"#;

const READS_LOG: &str = "0 0 add 0 1 0 0
0 1 get 1 20.0 11111111-1111-4111-8111-111111111111
0 2 get 1 5.0 none
0 3 add 1 1 0 0
0 4 get 2 20.0 none
0 5 low 2 5.0
";

/// Two lists add one key, and a third asks for it.
const RACE: &str =
    r#"[[{"op":"add","span":{"start":"61"},"time":[20,0],"owner":"¹","now":[20,0]}],[{"op":"add","span":{"start":"61"},"time":[30,0],"owner":"²","now":[20,0]}],[{"op":"get","span":{"start":"61"}}]]"#;

/// One list adds two keys together, and the other asks for both.
const BATCH: &str =
    r#"[[{"op":"batch","marks":[{"span":{"start":"61"},"time":[20,0],"owner":"¹"},{"span":{"start":"62"},"time":[30,0],"owner":"²"}],"now":[20,0]}],[{"op":"get","span":{"start":"61","end":"63"}}]]"#;

/// A list adds a key, and another one asks for it.
const ADD: &str =
    r#"[[{"op":"add","span":{"start":"61"},"time":[20,0],"owner":"¹","now":[20,0]}],[{"op":"get","span":{"start":"61"}}]]"#;

/// A bit of each kind.
const SAMPLE: &str =
    r#"[[{"op":"add","span":{"start":"61","end":"6F"},"time":[20,1],"owner":"11111111-1111-4111-8111-11111111111A","now":[21,2]},{"op":"get","span":{"start":"62","end":"61","ends":"(]"}}],[],[{"op":"batch","marks":[{"span":{"start":"","onward":"("},"time":[9,0],"owner":null}],"now":[20,0]},{"op":"low"}]]"#;

/// The text that a name stands for. Any other stands for itself.
pub(crate) fn example<'n>(name: &'n str) -> &'n str {
    match name {
        "reads" => READS,
        "reads log" => READS_LOG,
        "race" => RACE,
        "batch" => BATCH,
        "add" => ADD,
        "sample" => SAMPLE,
        _ => name,
    }
}
