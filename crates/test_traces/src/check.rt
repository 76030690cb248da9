//! Checks of logs against their traces, also where they are refused memory. The verdict is proved.
//! This finds a check that gives up, and one that is refused again though there is memory.
use crate::support::*;

/// Checks a log, and once more if that is refused memory.
fn checks(alloc: Global, [wanted, trace, log, ..]: Cells) -> Holds {
    let trace = read_trace(alloc, &trace_of(alloc, HEAD, trace)?)?;
    let log = read_log(alloc, &bytes_of(alloc, log)?)?;
    let verdict = check(alloc, &trace, &log).or_else(|_| check(alloc, &trace, &log))?;
    Ok(format!(in alloc; "{verdict:?}")?.as_str() == wanted)
}

/// For `scripts/refuse growth`: each verdict, after an Add, a batch and none.
#[test]
fn a_refused_check_can_be_made_again(rt: HostRuntime) -> Result<(), Fail> {
    all_hold!(rt, '|'; checks(rt.alloc()) => "
Right|reads|reads log
WrongAnswer(2)|reads|0 0 add 0 1 0 0¶0 1 get 1 20.0 none¶0 2 get 1 5.0 none¶0 3 add 1 1 0 0¶0 4 get 2 20.0 none¶0 5 low 2 5.0¶
Right|race|0 0 add 1 1 0 0¶1 0 add 0 1 0 0¶2 0 get 1 30.0 ²¶
WrongPlace(2)|race|0 0 add 0 1 0 0¶1 0 add 0 1 0 0¶2 0 get 1 20.0 ¹¶
WrongCall(3)|race|0 0 add 0 1 0 0¶1 0 add 1 1 0 0¶
Right|batch|0 0 batch 0 1 0 0¶1 0 get 1 30.0 ²¶
Right|[[]]|");
    Ok(())
}
