//! Replays of the bytes of a trace.
ghost use Rattle.std.specs.Prelude.{◌≡◌, ◌≢◌, ◌≤◌, IfOk, IfErr, length};
ghost use Rattle.tsc_check.specs.TextLimit.{longest_text};
ghost use Rattle.tsc_trace.specs.Replay.{fault_text};
ghost use Rattle.tsc_trace.specs.declared.stream_replays.ReplayFault.TheVariants as replay_fault;
ghost use Rattle.tsc_check.specs.Bytes.{IsTrace, IsNoTrace, SaysOfReplay};

use crate::bytes::Outcome;
use std::alloc::Global;
use tsc_time::NoMemory;
use tsc_trace::{ReplayFault, Trace, log_text, play, read_trace};

/// How many bytes a trace or a log has at the most.
pub(crate) const LONGEST_TEXT: usize = 16_777_216;

/// Replays a trace on one thread, and gives the text of its log; or why the bytes are no trace.
///
/// The replay takes the memory of the trace, of a cache and of the log, of which the trace is freed
/// when the call returns.
pub fn replay_bytes(alloc: Global, trace: &[u8]) -> Result<Outcome, NoMemory>
    ensures { IfOk result (λ outcome. SaysOfReplay trace.now outcome) }
{
    match trace_of(alloc, trace) {
        Ok(trace) => Ok(Outcome::Text(log_text(alloc, &play(alloc, &trace)?)?)),
        Err(ReplayFault::NoMemory) => Err(NoMemory),
        Err(fault) => Ok(Outcome::Refused(text_of(alloc, fault)?)),
    }
}

/// The trace that bytes are.
pub(crate) fn trace_of(alloc: Global, bytes: &[u8]) -> Result<Trace, ReplayFault>
    ensures trace { IfOk result (λ trace. IsTrace bytes.now trace) }
    ensures refused { IfErr result (λ fault. IsNoTrace bytes.now fault) }
{
    if bytes.len() > LONGEST_TEXT {
        return Err(ReplayFault::TooLong);
    }
    Ok(read_trace(alloc, bytes)?)
}

/// The text of a fault.
fn text_of(alloc: Global, fault: ReplayFault) -> Result<Vec<u8>, NoMemory>
    ensures { IfOk result (λ text. text.items ≡ fault_text fault) }
{
    Ok(String::format(alloc, fault)?.into_bytes())
}
