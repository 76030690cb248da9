//! The calls for a lease that goes on: what was read of a span, as bytes to be sent, and its way
//! into the cache of the next holder.

ghost use Rattle.std.specs.Prelude.{◌≡◌};
ghost use Rattle.tsc_ffi_store.specs.Codes.{Reports};
ghost use Rattle.tsc_ffi_store.specs.Counts.{CountsAdd, CountsNothing};
ghost use Rattle.tsc_ffi_store.specs.Decode.{span_asked, added_of};
ghost use Rattle.tsc_ffi_store.specs.Kinds.{ByKind};
ghost use Rattle.tsc_ffi_store.specs.StripedCalls.{AnswersStripedSummary};
ghost use Rattle.tsc_ffi_store.specs.Store.{slots_of, AnswersOfCache, DoesToCache, DoesToSeat};
ghost use Rattle.tsc_ffi_store.specs.Summaries.{summary_asked, AnswersSummary, AnswersSeatSummary, PutsOr, PutsOrKeeps};
ghost use Rattle.tsc_ffi_store.specs.Summaries.{apply_asked, AnswersApply};

use crate::store_ptr::StorePtr;
use std::alloc::Global;
use tsc_ffi_store::{
    ApplyArgs, Refusal, SpanArgs, SummaryArgs, TscAdded, TscTime, apply_in, code, put_at, put_in,
};

/// Puts what was read of a span into a buffer, as bytes, in at most `most` marks.
#[unsafe(no_mangle)]
pub extern "C" fn tsc_summary(
    store: &mut StorePtr,
    handle: u64,
    from: &[u8],
    to: &[u8],
    ends: u32,
    most: usize,
    out: &mut [u8],
    len: &mut usize,
) -> u32
    ensures answers { PutsOr (AnswersOfCache
        (λ held. AnswersSummary (summary_asked (span_asked from.now to.now ends) most) held.cache)
        (slots_of store.old.owned) handle) result out.old out.new len.old len.new }
    ensures unchanged { store.new.owned ≡ store.old.owned }
{
    let span = SpanArgs { from, to, ends };
    let args = SummaryArgs { span, most };
    match store.store_mut() {
        Some(held) => {
            let alloc = held.alloc();
            match held.cache(handle) {
                Some(cache) => put_in(cache, alloc, &args, out, len),
                None => Refusal::Closed.code(),
            }
        }
        None => Refusal::Closed.code(),
    }
}

/// Puts what was read of a span of a shared cache into a buffer, as bytes, in at most `most` marks,
/// and tells how many Adds the seat has seen then.
#[unsafe(no_mangle)]
pub extern "C" fn tsc_seat_summary(
    store: &mut StorePtr,
    handle: u64,
    from: &[u8],
    to: &[u8],
    ends: u32,
    most: usize,
    seen: &mut u64,
    out: &mut [u8],
    len: &mut usize,
) -> u32
    ensures { PutsOrKeeps (DoesToSeat
        (CountsNothing (ByKind
        (AnswersSeatSummary (summary_asked (span_asked from.now to.now ends) most) seen.new)
        (AnswersStripedSummary (summary_asked (span_asked from.now to.now ends) most) seen.new)))
        (slots_of store.old.owned) (slots_of store.new.owned) handle)
        (seen.new ≡ seen.old) result out.old out.new len.old len.new }
{
    let span = SpanArgs { from, to, ends };
    let args = SummaryArgs { span, most };
    match store.store_mut() {
        Some(held) => {
            let alloc = held.alloc();
            match held.seat_mut(handle) {
                Some(seat) => put_at(seat, alloc, &args, seen, out, len),
                None => Refusal::Closed.code(),
            }
        }
        None => Refusal::Closed.code(),
    }
}

/// Adds what the bytes of a summary tell to a cache, at a moment, all of it or nothing.
#[unsafe(no_mangle)]
pub extern "C" fn tsc_apply(
    store: &mut StorePtr,
    handle: u64,
    summary: &[u8],
    moment: &TscTime,
    out: &mut TscAdded,
) -> u32
    ensures answers { Reports (DoesToCache (CountsAdd
        (AnswersApply (apply_asked summary.now moment.now) (added_of out.new)) out.new.evicted)
        (slots_of store.old.owned) (slots_of store.new.owned) handle) (out.new ≡ out.old) result }
{
    let args = ApplyArgs { summary, moment };
    match store.store_mut() {
        Some(held) => {
            let alloc = held.alloc();
            match held.cache_mut(handle) {
                Some(cache) => code(apply_in(alloc, cache, &args, out)),
                None => Refusal::Closed.code(),
            }
        }
        None => Refusal::Closed.code(),
    }
}
