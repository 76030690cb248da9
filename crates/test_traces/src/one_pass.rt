//! What is read in one pass: a reader that never reads so keeps each contract, and takes longer. So
//! does one that goes over a text once more.
use crate::support::*;
use tsc_trace_fast::quick_trace;

/// Reads a text in one pass.
fn reads_once(alloc: Global, [text, ..]: Cells) -> Holds {
    Ok(quick_trace(alloc, &trace_of(alloc, NARROW, text)?).is_some())
}

/// Reads an object in one pass with its members in the order that a number stands for: each is put
/// at a place among those before it, which is a digit of the number.
fn reads_in_order(alloc: Global, [place, members, number, ..]: Cells) -> Holds {
    let (mut order, mut left) = (Vec::new(alloc), number.parse::<usize>()?);
    for member in members.split(';') {
        let places = order.len().saturating_add(1);
        order.insert(left % places, member)?;
        left /= places;
    }
    let members = order.as_slice().join(alloc, ",")?;
    let text = place.replace(alloc, '◊', members.as_str())?;
    reads_once(alloc, words(text.as_str(), '|'))
}

#[test]
fn reads_what_has_no_fault_in_one_pass(rt: HostRuntime) -> Result<(), Fail> {
    all_hold!(rt, '|'; reads_once(rt.alloc()) => r#"
[[],¦[],×62¦[]]
[[¦{"op":"low"},×65535¦{"op":"low"}]]
[[{"op":"get","span":{"start":"¦61×4096¦"}}]]
[[{"op":"add","span":{"start":"¦6F×232¦"},"time":[20,1],"now":[21,2]}]]
[[{"op":"add","span":{"start":"61","end":"63"},"time":[20,0],"owner":null,"now":[20,0]},¦{"op":"get","span":{"start":"63","end":"61"}}],[×3¦{"op":"get","span":{"start":"61","end":""}}]]
[[{"op":"add","span":{"start":"61","end":"63","ends":"(]"},"time":[20,0],"owner":"¹","now":[20,0]}¦,{"op":"get","span":{"start":"63","end":"61","ends":"[]"}}×2¦]]
[[{"op":"add","span":{"start":"61","onward":"("},"time":[20,0],"owner":"00000000-0000-0000-0000-000000000000","now":[20,0]}¦,{"op":"get","span":{"start":"","onward":"["}}×2¦]]
[[{"op":"batch","marks":[¦{"span":{"start":"61"},"time":[20,0],"owner":null},×2¦{"span":{"start":"62","end":"64"},"time":[21,1],"owner":"¹"}],"now":[22,0]}]]
[[{"op":"low","op":"get","span":{"start":"62","start":"61"},"span":{"start":"64"}}]]
[[{"op":"add","span":{"start":"61"},"time":[20,0],"time":[21,0],"owner":"¹","owner":null,"now":[20,0],"now":[22,0]}]]
[[{"\u006fp":"l\u006fw"}]]
[[]],"threads":[[{"op":"low"},{"op":"low"}]]
{"low_water":[5,0],"page_first":4,"page_first":66,"page_max":264,"threads":[[]],"min_pages":2,"retention":18446744073709551615,"retention":10}
{"low_water":[5,0],"page_first":66,"threads":[[{"op":"add","span":{"start":"¦61×232¦"},"time":[20,1],"now":[21,2]}]],"min_pages":2,"retention":10,"page_max":264}
{"low_water":[9223372036854775807,2147483647],"page_first":64,"page_max":1073741824,"min_pages":64,"retention":9223372036854775807,"threads":[[]]}
[[¦{"op":"batch","marks":[],"now":[0,0]},×100¦{"op":"low"}], [ ]]
[[{"op":"batch","now":[20,0],"marks":[¦{"span":{"start":""},"time":[1,0]},×1023¦{"span":{"start":""},"time":[1,0]}]}]]
sample
reads
race"#);
    Ok(())
}

#[test]
fn reads_members_in_each_order_in_one_pass(rt: HostRuntime) -> Result<(), Fail> {
    let table = r#"
№0..720|{◊}|"page_first":66;"page_max":264;"min_pages":2;"retention":10;"low_water":[5,0];"threads":[[{"op":"low"}],[{"op":"batch","marks":[],"now":[1,0]}]]|№
№0..120|[[{◊}]]|"op":"add";"span":{"start":"61"};"time":[20,1];"owner":"¹";"now":[21,2]|№
№0..6|[[{◊}]]|"op":"batch";"marks":[{"span":{"start":"61"},"time":[20,1]},{"span":{"start":"62"},"time":[21,0],"owner":null}];"now":[21,2]|№
№0..6|[[{"op":"batch","marks":[{◊}],"now":[21,2]}]]|"span":{"start":"61","end":"63"};"time":[20,1];"owner":"²"|№
№0..2|[[{◊}]]|"op":"get";"span":{"start":"61","onward":"("}|№
№0..6|[[{"op":"get","span":{◊}}]]|"start":"61";"end":"63";"ends":"(]"|№
№0..2|[[{"op":"add","time":[20,1],"now":[21,2],"span":{◊}}]]|"start":"61";"onward":"["|№"#;
    all_hold!(rt, '|'; reads_in_order(rt.alloc()) => numbered(rt.alloc(), table)?);
    Ok(())
}

/// For `scripts/measure steps`, which finds a reader that goes over a text again for each call.
#[test]
fn reads_a_call(rt: HostRuntime) -> Result<(), Fail> {
    all_hold!(rt, '|'; reads_once(rt.alloc()) => r#"[[{"op":"low"}]]"#);
    Ok(())
}

#[test]
fn reads_512_calls_more(rt: HostRuntime) -> Result<(), Fail> {
    all_hold!(rt, '|'; reads_once(rt.alloc()) => r#"
[[¦{"op":"get","span":{"start":"61"}},×512¦{"op":"low"}]]"#);
    Ok(())
}
