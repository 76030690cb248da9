//! Replays that are refused memory: nothing is written then, and the next call writes all. What
//! they write is proved. This finds a replay that gives up, and one that is refused again though
//! there is memory.
use crate::support::*;

/// Writes the log of a trace's replay by one of three calls, and tells whether that was done.
fn is_written(what: &str, alloc: Global, text: &[u8], writer: &mut Writer) -> bool {
    if what == "reader" {
        return replay_stream(alloc, &mut Limited::new(text), writer).is_ok();
    }
    let Ok(trace) = read_trace(alloc, text) else {
        return false;
    };
    if what == "trace" {
        return replay(alloc, &trace, writer).is_ok();
    }
    play(alloc, &trace).is_ok_and(|log| write_log(alloc, &log, writer).is_ok())
}

/// Whether each call writes the log of a trace, also where it is called once more.
fn gives(alloc: Global, [trace, log, ..]: Cells) -> Holds {
    let (text, log) = (trace_of(alloc, HEAD, trace)?, bytes_of(alloc, log)?);
    let mut holds = true;
    for what in ["reader", "trace", "log"] {
        let mut writer = stream(Vec::new(alloc), "");
        if !is_written(what, alloc, &text, &mut writer) {
            // A writer that has failed takes nothing more.
            writer = Limited::new(writer.into_inner());
            holds &= is_written(what, alloc, &text, &mut writer);
        }
        holds &= writer.into_inner().inner.as_slice() == log.as_slice();
    }
    Ok(holds)
}

/// For `scripts/refuse growth`.
#[test]
fn a_refused_growth_writes_nothing(rt: HostRuntime) -> Result<(), Fail> {
    all_hold!(rt, '|'; gives(rt.alloc()) => "
reads|reads log
batch|0 0 batch 0 1 0 0¶1 0 get 1 30.0 ²¶");
    Ok(())
}
