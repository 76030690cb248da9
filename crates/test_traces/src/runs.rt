//! Runs, of which no contract says that their lists run at one time, or when gates are called. This
//! finds lists that wait for one another, a gate that is called late, and memory that is refused
//! without need.
use crate::support::*;
use tsc_run::run_trace;

/// Runs a trace. Each call ends at the gate, also where the run is refused memory. A row has what a
/// watch counts, its rule, the trace, and its log, where `-` is any.
fn runs<R: Runtime>(rt: &R, [counts, rule, trace, logs, ..]: Cells) -> Holds {
    let alloc = rt.alloc();
    let trace = read_trace(alloc, &trace_of(alloc, HEAD, trace)?)?;
    let watch = Watch::new(rule);
    let ran = run_trace(rt, alloc, &trace, &watch);
    if !watch.is_in_order() {
        return Ok(false);
    }
    let text = log_text(alloc, &ran?)?;
    let is_known = logs == "-" || bytes_of(alloc, logs)? == text;
    Ok(is_known && watch.counts(alloc)?.as_str() == counts)
}

#[test]
fn lists_run_while_others_are_held_up(rt: HostRuntime) -> Result<(), Fail> {
    all_hold!(rt, '|'; runs(&rt) => r#"
2 (2, 2, 0) 0|2|[[{"op":"get","span":{"start":"61"}}],[{"op":"get","span":{"start":"61"}}]]|0 0 get 0 5.0 none¶1 0 get 0 5.0 none¶
3 (2, 2, 2) 2|in turn|race|0 0 add 0 1 0 0¶1 0 add 1 1 0 0¶2 0 get 2 30.0 ²¶"#);
    Ok(())
}

#[test]
fn an_add_is_not_seen_before_its_gate_was_notified(rt: HostRuntime) -> Result<(), Fail> {
    all_hold!(rt, '|'; runs(&rt) => r#"
2 (2, 2, 0) 1|unseen|add|0 0 add 0 1 0 0¶1 0 get 0 5.0 none¶
2 (2, 2, 0) 1|unseen|batch|0 0 batch 0 1 0 0¶1 0 get 0 5.0 none¶"#);
    Ok(())
}

/// For `scripts/refuse growth`: a call that is refused memory is done too, and ends its list.
#[test]
fn a_gate_is_notified_of_each_call_in_its_order(rt: HostRuntime) -> Result<(), Fail> {
    all_hold!(rt, '|'; runs(&rt) => r#"
0 (6, 6, 0) 3||[[{"op":"low"},{"op":"batch","marks":[{"span":{"start":"61"},"time":[20,0]},{"span":{"start":"64"},"time":[20,0]}],"now":[20,0]},{"op":"get","span":{"start":"61"}}],[{"op":"add","span":{"start":"62"},"time":[20,0],"now":[20,0]},{"op":"get","span":{"start":"62"}},{"op":"add","span":{"start":"63"},"time":[4,0],"now":[20,0]}]]|-"#);
    Ok(())
}

/// The greatest number of lists.
#[test]
fn all_of_64_lists_run_at_one_time(rt: HostRuntime) -> Result<(), Fail> {
    all_hold!(rt, '|'; runs(&rt) => r#"
64 (2, 2, 124) 0|64|[[{"op":"low"}],¦[{"op":"low"}],×62¦[{"op":"low"}]]|-"#);
    Ok(())
}
