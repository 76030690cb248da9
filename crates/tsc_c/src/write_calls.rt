//! The calls of writes: whether and from when on they may be made.

ghost use Rattle.std.specs.Prelude.{◌≡◌};
ghost use Rattle.tsc_ffi_store.specs.Codes.{Reports};
ghost use Rattle.tsc_ffi_store.specs.Decode.{time_of};
ghost use Rattle.tsc_ffi_store.specs.Counts.{CountsLookup, CountsSeatLookup};
ghost use Rattle.tsc_ffi_store.specs.Store.{slots_of, DoesToCache, DoesToSeat};
ghost use Rattle.tsc_ffi_store.specs.Writes.{write_asked, AnswersWrite, AnswersSeatWrite};
ghost use Rattle.tsc_ffi_store.specs.Kinds.{ByKind};
ghost use Rattle.tsc_ffi_store.specs.StripedCalls.{AnswersStripedWrite, AnswersStripedMayWrite};
ghost use Rattle.tsc_ffi_store.specs.Writes.{AnswersMayWrite, AnswersSeatMayWrite};

use crate::store_ptr::StorePtr;
use tsc_ffi_store::{
    Refusal, TscSpan, TscTime, TscValue, WriteArgs, code, may_at, may_in, write_at, write_in,
};

/// The earliest time, from that of a write on, at which its transaction may write some spans.
#[unsafe(no_mangle)]
pub extern "C" fn tsc_earliest_write(
    store: &mut StorePtr,
    handle: u64,
    keys: &[u8],
    spans: &[TscSpan],
    write: &TscValue,
    out: &mut TscTime,
) -> u32
    ensures answers { Reports (DoesToCache (CountsLookup
        (AnswersWrite (write_asked keys.now spans.now write.now) (time_of out.new)))
        (slots_of store.old.owned) (slots_of store.new.owned) handle) (out.new ≡ out.old) result }
{
    let args = WriteArgs { keys, spans, write };
    match store.store_mut() {
        Some(held) => match held.cache_mut(handle) {
            Some(cache) => code(write_in(cache, &args, out)),
            None => Refusal::Closed.code(),
        },
        None => Refusal::Closed.code(),
    }
}

/// Whether the transaction of a write may write some spans at its time.
#[unsafe(no_mangle)]
pub extern "C" fn tsc_may_write(
    store: &mut StorePtr,
    handle: u64,
    keys: &[u8],
    spans: &[TscSpan],
    write: &TscValue,
    out: &mut bool,
) -> u32
    ensures answers { Reports (DoesToCache (CountsLookup
        (AnswersMayWrite (write_asked keys.now spans.now write.now) out.new))
        (slots_of store.old.owned) (slots_of store.new.owned) handle) (out.new ≡ out.old) result }
{
    let args = WriteArgs { keys, spans, write };
    match store.store_mut() {
        Some(held) => match held.cache_mut(handle) {
            Some(cache) => code(may_in(cache, &args, out)),
            None => Refusal::Closed.code(),
        },
        None => Refusal::Closed.code(),
    }
}

/// The earliest time, by what a seat answers, and how many Adds the seat has seen then.
#[unsafe(no_mangle)]
pub extern "C" fn tsc_seat_earliest_write(
    store: &mut StorePtr,
    handle: u64,
    keys: &[u8],
    spans: &[TscSpan],
    write: &TscValue,
    seen: &mut u64,
    out: &mut TscTime,
) -> u32
    ensures answers { Reports (DoesToSeat (CountsSeatLookup (ByKind
        (AnswersSeatWrite (write_asked keys.now spans.now write.now) seen.new (time_of out.new))
        (AnswersStripedWrite (write_asked keys.now spans.now write.now) seen.new
        (time_of out.new))))
        (slots_of store.old.owned) (slots_of store.new.owned) handle)
        ((seen.new ≡ seen.old) × (out.new ≡ out.old)) result }
{
    let args = WriteArgs { keys, spans, write };
    match store.store_mut() {
        Some(held) => match held.seat_mut(handle) {
            Some(seat) => code(write_at(seat, &args, seen, out)),
            None => Refusal::Closed.code(),
        },
        None => Refusal::Closed.code(),
    }
}

/// Whether a write may be made, by what a seat answers, and how many Adds the seat has seen then.
#[unsafe(no_mangle)]
pub extern "C" fn tsc_seat_may_write(
    store: &mut StorePtr,
    handle: u64,
    keys: &[u8],
    spans: &[TscSpan],
    write: &TscValue,
    seen: &mut u64,
    out: &mut bool,
) -> u32
    ensures answers { Reports (DoesToSeat (CountsSeatLookup (ByKind
        (AnswersSeatMayWrite (write_asked keys.now spans.now write.now) seen.new out.new)
        (AnswersStripedMayWrite (write_asked keys.now spans.now write.now) seen.new out.new)))
        (slots_of store.old.owned) (slots_of store.new.owned) handle)
        ((seen.new ≡ seen.old) × (out.new ≡ out.old)) result }
{
    let args = WriteArgs { keys, spans, write };
    match store.store_mut() {
        Some(held) => match held.seat_mut(handle) {
            Some(seat) => code(may_at(seat, &args, seen, out)),
            None => Refusal::Closed.code(),
        },
        None => Refusal::Closed.code(),
    }
}
