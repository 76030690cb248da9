//! Commands over memory, with a stream that goes wrong at each of its calls in turn. No contract
//! says that a call which fails ends the command, how many calls are made, or that lists run at one
//! time.
use crate::support::*;
use tsc_commands::check_with_progress;

fn way_of<'w>(ways: &'w str, name: &str) -> &'w str {
    let mut ways = ways.split(';');
    ways.find_map(|way| way.strip_prefix(name)).unwrap_or("")
}

/// Calls a command. A row has the status, the output and the line of a fault; the command, its
/// trace and its log; its ways, which name the streams of `trace`, `log`, `output` and `errors`
/// whose calls do not move all bytes, and the watch's `rule`; and what the watch counts.
fn calls<R: Runtime>(rt: &R, row: Cells) -> Holds {
    let [
        status,
        output_of,
        reported,
        command,
        trace,
        log,
        ways,
        counts,
        _,
    ] = row;
    let (alloc, watch) = (rt.alloc(), Watch::new(way_of(ways, "rule:")));
    let (trace, log) = (trace_of(alloc, HEAD, trace)?, bytes_of(alloc, log)?);
    let mut trace = stream(trace.as_slice(), way_of(ways, "trace:"));
    let mut log = stream(log.as_slice(), way_of(ways, "log:"));
    let mut output = stream(Vec::new(alloc), way_of(ways, "output:"));
    let mut errors = stream(Vec::new(alloc), way_of(ways, "errors:"));
    let (out, err) = (&mut output, &mut errors);
    let came = match command {
        "replay" => replay_command(alloc, &mut trace, out, err),
        "watched replay" => replay_with_progress(alloc, &mut trace, out, err, &watch),
        "check" => check_command(alloc, &mut trace, &mut log, out, err),
        "watched check" => check_with_progress(alloc, &mut trace, &mut log, out, err, &watch),
        _ => run_command(rt, alloc, &mut trace, out, err, &watch),
    };
    let is_counted = counts.is_empty() || watch.counts(alloc)?.as_str() == counts;
    let is_written = output.into_inner().inner == bytes_of(alloc, output_of)?;
    let is_reported = errors.into_inner().inner == bytes_of(alloc, reported)?;
    Ok(came == status.parse()? && is_counted && is_written && is_reported)
}

/// Each call of a stream moves a byte, and fails in turn. At last a call fails that is not made.
#[test]
fn each_call_fails_in_turn(rt: HostRuntime) -> Result<(), Fail> {
    let table = "
№0..449|4||read failed¶|replay|reads||trace:1 №
№0..137|4|reads log✂№|write failed¶|replay|reads||output:1 №
№0..23|1||trace refused: fault 1¶✂№|replay|abc||errors:1 №
№0..449|4||read failed¶|check|reads|reads log|trace:1 №
№0..138|4||read failed¶|check|reads|reads log|log:1 №
№0..6|4|right¶✂№|write failed¶|check|reads|reads log|output:1 №
№0..23|1||trace refused: fault 1¶✂№|check|abc||errors:1 №
№0..449|4||read failed¶|run|reads||trace:1 №
№0..137|4|reads log✂№|write failed¶|run|reads||output:1 №
№0..23|1||trace refused: fault 1¶✂№|run|abc||errors:1 №
0|reads log||replay|reads||trace:1 449;output:1 137;errors:1 0
0|reads log||run|reads||trace:1 449;output:1 137;errors:1 0
0|right¶||check|reads|reads log|trace:1 449;output:1 6;errors:1 0";
    all_hold!(rt, '|'; calls(&rt) => numbered(rt.alloc(), table)?);
    Ok(())
}

/// Two lists that have one log in any order run at one time, and no Add is shown before its gate
/// was told.
#[test]
fn lists_of_a_command_run_at_one_time(rt: HostRuntime) -> Result<(), Fail> {
    all_hold!(rt, '|'; calls(&rt) => r#"
0|0 0 get 0 5.0 none¶1 0 low 0 5.0¶||run|[[{"op":"get","span":{"start":"61"}}],[{"op":"low"}]]||rule:2|2 (2, 2, 0) 0
0|0 0 add 0 1 0 0¶1 0 get 0 5.0 none¶||run|add||rule:unseen|2 (2, 2, 0) 1"#);
    Ok(())
}

/// How far a command is: each call of a trace is told once, as it is made.
#[test]
fn each_call_is_reported_once(rt: HostRuntime) -> Result<(), Fail> {
    all_hold!(rt, '|'; calls(&rt) => "
0|reads log||watched replay|reads|||0 (0, 0, 6) 0
0|right¶||watched check|reads|reads log||0 (0, 0, 6) 0
1||trace refused: fault 1¶|watched replay|abc|||0 (0, 0, 0) 0");
    Ok(())
}
