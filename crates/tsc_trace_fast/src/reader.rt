//! Reading, quickly where there is no fault.
ghost use Rattle.std.specs.Prelude.{◌≡◌, ◌⊎◌, Ok, Err, IfOk, IfErr};
ghost use Rattle.tsc_trace_format.specs.TraceText.{trace_of_bytes};

use crate::quick::quick_trace;
use std::alloc::Global;
use tsc_trace_format::{Trace, TraceFault};

/// The trace that bytes are, or the fault that decides why they are none.
///
/// A trace without a fault is read in one pass, in memory for what it holds and for as many bytes
/// as the text has. Bytes that are no trace are read once more, as a JSON value, which tells why.
pub fn read_trace(alloc: Global, bytes: &[u8]) -> Result<Trace, TraceFault>
    ensures ok { IfOk result (λ trace. trace_of_bytes bytes.now ≡ Ok trace) }
    ensures err { IfErr result (λ fault. (fault ≡ TraceFault.NoMemory)
        ⊎ (trace_of_bytes bytes.now ≡ Err fault)) }
{
    match quick_trace(alloc, bytes) {
        Some(trace) => Ok(trace),
        None => tsc_trace_format::read_trace(alloc, bytes),
    }
}
