//! What a part of a trace is read as, or why it is refused.

ghost use Rattle.std.specs.Prelude.{◌≡◌};
ghost use Rattle.tsc_trace_format.specs.Reading.{joined, lesser_refusal, reported_at};
ghost use Rattle.tsc_trace_format.specs.TraceParts.{fault_at, fault_number};
ghost use Rattle.tsc_trace_format.specs.declared.read.part.Refusal.TheVariants.{Memory};

use super::TraceFault;
use std::alloc::{AllocError, AllocFailed};

/// The kinds of fault that a part of a trace can have, in the order in which they count.
#[derive(Clone, Copy, Debug, PartialEq, Eq)]
pub(crate) enum PartFault {
    /// A JSON value of another kind, a member that is missing or unknown, or an unknown word.
    Shape,
    /// A number out of its range.
    Number,
    /// A text that is no hexadecimal digits in pairs.
    Hex,
    /// A text that is no UUID.
    Uuid,
    /// A key that is too long, or an inverted span of an Add.
    Span,
    /// A span of an Add that no page is large enough for.
    TooLarge,
}

impl PartFault {
    /// The number of the fault, which is the greater the later it counts.
    fn number(self) -> u8
        ensures { result ≡ fault_number self }
    {
        match self {
            PartFault::Shape => 2,
            PartFault::Number => 3,
            PartFault::Hex => 4,
            PartFault::Uuid => 5,
            PartFault::Span => 6,
            PartFault::TooLarge => 9,
        }
    }

    /// The fault of the call with this number.
    fn at(self, call: u64) -> TraceFault
        ensures { result ≡ fault_at call self }
    {
        match self {
            PartFault::Shape => TraceFault::Shape(call),
            PartFault::Number => TraceFault::Number(call),
            PartFault::Hex => TraceFault::Hex(call),
            PartFault::Uuid => TraceFault::Uuid(call),
            PartFault::Span => TraceFault::Span(call),
            PartFault::TooLarge => TraceFault::TooLarge(call),
        }
    }
}

/// Why a part was not read.
#[derive(Clone, Copy, Debug, PartialEq, Eq)]
pub(crate) enum Refusal {
    /// A growth was refused.
    Memory,
    /// The part has a fault, and this is the least that it has.
    Fault(PartFault),
}

/// The part has another shape.
pub(crate) const SHAPE: Refusal = Refusal::Fault(PartFault::Shape);

/// The part has a number out of its range.
pub(crate) const NUMBER: Refusal = Refusal::Fault(PartFault::Number);

impl From<AllocError> for Refusal {
    ghost from_gives = { λ _ e. e ≡ Memory };

    fn from(_refused: AllocError) -> Refusal {
        Refusal::Memory
    }
}

impl<T: Drop> From<AllocFailed<T>> for Refusal {
    ghost from_gives = { λ _ e. e ≡ Memory };

    fn from(_refused: AllocFailed<T>) -> Refusal {
        Refusal::Memory
    }
}

/// Want of memory where one of two is that, and else the lesser fault.
fn lesser(first: Refusal, second: Refusal) -> Refusal
    ensures { result ≡ lesser_refusal first second }
{
    match (first, second) {
        (Refusal::Fault(f), Refusal::Fault(g)) if g.number() < f.number() => second,
        (Refusal::Fault(_), Refusal::Fault(_)) | (Refusal::Memory, _) => first,
        (_, Refusal::Memory) => second,
    }
}

/// Two parts side by side. So it makes no difference which of them was read first.
pub(crate) fn both<A: Drop, B: Drop>(
    first: Result<A, Refusal>,
    second: Result<B, Refusal>,
) -> Result<(A, B), Refusal>
    ensures { result ≡ joined first second }
{
    match (first, second) {
        (Ok(a), Ok(b)) => Ok((a, b)),
        (Ok(_), Err(refusal)) | (Err(refusal), Ok(_)) => Err(refusal),
        (Err(first), Err(second)) => Err(lesser(first, second)),
    }
}

/// A part of the call with this number.
pub(crate) fn at_call<T: Drop>(call: u64, part: Result<T, Refusal>) -> Result<T, TraceFault>
    ensures { result ≡ reported_at call part }
{
    match part {
        Ok(value) => Ok(value),
        Err(Refusal::Memory) => Err(TraceFault::NoMemory),
        Err(Refusal::Fault(fault)) => Err(fault.at(call)),
    }
}
