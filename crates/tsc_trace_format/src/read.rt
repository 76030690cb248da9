//! Reads a trace from the values of a JSON text, and tells the first fault of several.
ghost use Rattle.std.specs.Prelude.{◌≡◌, ◌⊎◌, Ok, Err, IfOk, IfErr};
ghost use Rattle.serde_json.specs.View.{view};
ghost use Rattle.tsc_trace_format.specs.TraceText.{trace_of_bytes, json_of};
ghost use Rattle.tsc_trace_format.specs.declared.read.TraceFault.TheVariants.{NoMemory};

mod batch;
mod call;
mod head;
mod json;
mod part;
mod span;

use crate::trace::Trace;
use head::trace;
use serde_json::Value;
pub use span::SpanForm;
use std::alloc::{AllocError, AllocFailed, Global};
use thiserror::Error;

/// Why bytes are not a trace.
///
/// The number is that of the call that has the fault, counted from 1 on through all lists, or 0 for
/// the head. The head comes before all calls, and then the first call that has a fault decides. In
/// the head, or in a call, the fault that stands first here is told, and [`TraceFault::TooLarge`]
/// last.
#[derive(Clone, Copy, Debug, PartialEq, Eq, Error)]
pub enum TraceFault {
    /// The bytes are not one JSON text, or one that `serde_json` does not read, as where it nests
    /// too deep.
    #[error("not JSON")]
    NotJson,
    /// A JSON value of another kind than is wanted, a member that is missing or unknown, an unknown
    /// word, or members that are no form of a span, or more than 1,024 marks in a batch.
    #[error("a wrong shape at call {0}")]
    Shape(u64),
    /// A number that is no unsigned integer, or out of its range.
    #[error("a number out of range at call {0}")]
    Number(u64),
    /// A key that is no text of hexadecimal digits in pairs.
    #[error("wrong hexadecimal digits at call {0}")]
    Hex(u64),
    /// An owner that is no UUID.
    #[error("a wrong UUID at call {0}")]
    Uuid(u64),
    /// A key of more than 4096 bytes, or an inverted span of an Add or a batch.
    #[error("a wrong span at call {0}")]
    Span(u64),
    /// Values that `Config::new` refuses, no list, more than 64 lists, or more than 65,536 calls.
    /// It comes after the faults of the head, and before those of the calls.
    #[error("a wrong configuration")]
    Config,
    /// A growth was refused. It may come in place of any other fault.
    #[error("out of memory")]
    NoMemory,
    /// An Add whose span costs more than `page_max`, also one that would not be kept, or a batch
    /// with such a span.
    #[error("a span too large for a page at call {0}")]
    TooLarge(u64),
}

impl From<AllocError> for TraceFault {
    ghost from_gives = { λ _ fault. fault ≡ NoMemory };

    fn from(_refused: AllocError) -> TraceFault {
        TraceFault::NoMemory
    }
}

impl<T: Drop> From<AllocFailed<T>> for TraceFault {
    ghost from_gives = { λ _ fault. fault ≡ NoMemory };

    fn from(_refused: AllocFailed<T>) -> TraceFault {
        TraceFault::NoMemory
    }
}

/// The trace that bytes are, or the fault that decides why they are none.
///
/// The time is linear in the bytes, but that an object's members are sorted. Most of the memory is
/// the JSON value's, which is freed before the trace is given.
pub fn read_trace(alloc: Global, bytes: &[u8]) -> Result<Trace, TraceFault>
    ensures ok { IfOk result (λ trace. trace_of_bytes bytes.now ≡ Ok trace) }
    ensures err { IfErr result (λ fault. (fault ≡ TraceFault.NoMemory)
        ⊎ (trace_of_bytes bytes.now ≡ Err fault)) }
{
    let value = json_value(alloc, bytes)?;
    trace(alloc, &value)
}

/// The JSON value that bytes are.
fn json_value(alloc: Global, bytes: &[u8]) -> Result<Value, TraceFault>
    ensures ok { IfOk result (λ value. json_of bytes.now ≡ Some (view value)) }
    ensures err { IfErr result (λ fault. (fault ≡ TraceFault.NoMemory)
        ⊎ ((fault ≡ TraceFault.NotJson) × (json_of bytes.now ≡ None))) }
{
    match Value::from_slice(alloc, bytes) {
        Ok(value) => Ok(value),
        Err(fault) => {
            if fault.is_memory() {
                return Err(TraceFault::NoMemory);
            }
            Err(TraceFault::NotJson)
        }
    }
}
