//! A trace read from its text in one pass, with no JSON value in between, where it has no fault.
//!
//! What has a fault, or asks for more memory than there is, gives none: the reader of JSON values
//! tells why.

ghost use Rattle.std.specs.Prelude.{◌≡◌, Ok, IfSome};
ghost use Rattle.tsc_trace_format.specs.TraceText.{trace_of_bytes};

mod call;
mod digits;
mod head;
mod mark;
mod span;
mod token;

use head::trace;
use json::{Reader, Scratch};
use std::alloc::Global;
use tsc_trace_format::Trace;

/// The trace that bytes are, where they have no fault and there is memory for it.
pub fn quick_trace(alloc: Global, bytes: &[u8]) -> Option<Trace>
    ensures { IfSome result (λ trace. trace_of_bytes bytes.now ≡ Ok trace) }
{
    let Ok(text) = std::str::from_utf8(bytes) else {
        return None;
    };
    let mut scratch = Scratch::new(alloc);
    let mut reader = Reader::new(text, &mut scratch).ok()?;
    let trace = trace(alloc, &mut reader)?;
    if reader.next().is_some() {
        return None;
    }
    Some(trace)
}
