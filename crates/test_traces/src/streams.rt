//! Readers and writers whose calls are counted. This finds a stream that calls the one inside more
//! than once for each call, and a whole input or output that takes more calls than it need.
use crate::support::*;
use std::io::Read;

/// Moves a text whole: its end or the fault, after how many calls, and how its calls go.
fn moves(alloc: Global, [what, end, calls, text, ways, ..]: Cells) -> Holds {
    let (text, end) = (bytes_of(alloc, text)?, bytes_of(alloc, end)?);
    if what == "write" {
        let mut writer = stream(Vec::new(alloc), ways);
        let is_ended = write_output(&mut writer, &text).is_ok() == (text == end);
        let writer = writer.into_inner();
        return Ok(is_ended && writer.inner == end && writer.calls == calls.parse()?);
    }
    let mut reader = stream(text.as_slice(), ways);
    let ended = match read_input(alloc, &mut reader) {
        Ok(input) => input,
        Err(fault) => format!(in alloc; "{fault}")?.into_bytes(),
    };
    Ok(ended == end && reader.into_inner().calls == calls.parse()?)
}

/// Reads `a` or writes `abc`, by three calls. A failure is final, as is the end of what is read.
fn moves_by_calls(alloc: Global, [wanted, what, ways, ..]: Cells) -> Holds {
    let mut reader = stream(&b"a"[..], ways);
    let mut writer = stream(Vec::new(alloc), ways);
    let gave = match what {
        "read" => [(); 3].map(|()| reader.read(&mut [0; 4])),
        _ => [(); 3].map(|()| writer.write(b"abc")),
    };
    let calls = reader.into_inner().calls.max(writer.into_inner().calls);
    Ok(format!(in alloc; "{gave:?} in {calls}")?.as_str() == wanted)
}

#[test]
fn reading_and_writing(rt: HostRuntime) -> Result<(), Fail> {
    all_hold!(rt, '|'; moves(rt.alloc()) => "
read|abc|2|abc|9 never
read|abc|8|abc|1 in turn
read|read failed|4|abc|1 3
read|abc×40000|17145|abc×40000|7 never
read|abc×40000|3|abc×40000|1000000 never
write|abc|1|abc|9 never
write|abc|6|abc|1 in turn
write|ab|3|abc|1 2
write|abc×40000|17143|abc×40000|7 never
write|abc×40000|1|abc×40000|1000000 never", moves_by_calls(rt.alloc()) => "
[Ok(1), Ok(0), Ok(0)] in 2|read|1 never
[Err(Failed), Err(Failed), Err(Failed)] in 1|read|1 0
[Err(Interrupted), Ok(1), Err(Interrupted)] in 3|read|1 in turn
[Ok(1), Ok(1), Ok(1)] in 3|write|1 never
[Ok(1), Err(Failed), Err(Failed)] in 2|write|1 1
[Err(Interrupted), Ok(1), Err(Interrupted)] in 3|write|1 in turn");
    Ok(())
}
