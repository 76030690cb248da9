//! Why a call from C is refused, and the number that C knows the reason by.
ghost use Rattle.std.specs.Prelude.{◌≡◌, ◌≢◌};
ghost use Rattle.tsc_ffi_store.specs.Codes.{code_of, code_for};

/// What a call answers that was done.
pub const OK: u32 = 0;

/// Why a call was refused.
#[derive(Clone, Copy, Debug, PartialEq, Eq)]
pub enum Refusal {
    /// The handle names nothing, or nothing of this kind.
    Closed = 1,
    /// A time is out of range.
    Time = 2,
    /// There are no such ends of a span.
    Ends = 3,
    /// A key has more than 4096 bytes.
    KeyTooLong = 4,
    /// The first key of a span to be added, written or summarized is greater than the second.
    Inverted = 5,
    /// A span to be added costs more than the largest page may have.
    TooLarge = 6,
    /// A key of a mark or a span does not lie among the bytes that came with it.
    Outside = 7,
    /// There may be no pages of these sizes: in stripes none into which some span does not fit.
    PageSize = 8,
    /// The least number of pages is out of range.
    MinPages = 9,
    /// The time for which reads are retained is out of range.
    Retention = 10,
    /// Memory was refused.
    NoMemory = 11,
    /// The number of seats of a shared cache is not from 1 to 64, or one in stripes has none.
    Seats = 12,
    /// A seat of the shared cache is still out.
    StillOut = 13,
    /// Others were in the way at each try.
    Busy = 14,
    /// The history of the shared cache has as many Adds as it may have, or a seat in stripes has
    /// made 2^64 - 1, or a store has given as many handles as there are.
    Full = 15,
    /// A read of somebody else stands at the last time, so a write is clear at none.
    NoTime = 18,
    /// The bytes are a summary of another version.
    SummaryVersion = 19,
    /// A summary has other bytes than it tells of, fewer or more.
    SummaryLength = 20,
    /// A summary was changed: its digest is another one.
    SummaryChecksum = 21,
    /// The digest is right, and what it is of is no summary.
    SummaryForm = 22,
    /// An Add at a seat may try 0 times, so it is never made.
    Tries = 23,
    /// A cache may not have so many stripes.
    Stripes = 24,
    /// A bound of stripes is not above the one before it, or the first one is the empty key.
    Bounds = 25,
}

impl Refusal {
    /// The number by which C knows it. No number is given to another meaning later.
    pub fn code(self) -> u32
        ensures value { result ≡ code_of self }
        ensures not_ok { result ≢ OK }
    {
        self as u32
    }
}

/// The number that tells C what became of a call.
pub fn code(did: Result<(), Refusal>) -> u32
    ensures { result ≡ code_for did }
{
    match did {
        Ok(()) => OK,
        Err(why) => why.code(),
    }
}
