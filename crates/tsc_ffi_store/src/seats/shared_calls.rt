//! What a seat of a shared cache answers.
ghost use Rattle.std.specs.Prelude.{◌≡◌, ◌<◌, length, true, false};
ghost use Rattle.tsc_shared.specs.Answers.{ReadsFigures, HasLookedOn};
ghost use Rattle.tsc_ffi_store.specs.Asking.{SumsUpShared, IsPlaced};
ghost use Rattle.tsc_ffi_store.specs.SeatCalls.{RefusesTried, IsSpared};

use crate::refusal::Refusal;
use crate::seats::placed::{Counted, Placed};
use std::alloc::Global;
use timestamp_cache::{SeatSummary, summary_at};
use tsc_shared::{AddFault, Receipt, Seat, SeatFigures, SharedCache, TryAddFault};
use tsc_span::Span;

/// The figures of the cache of a seat, and how much memory the copy takes that the seat reads. That
/// is 0 where there are so many handles of the copy that the seat gets none.
pub(crate) fn figures(cache: &SharedCache, seat: &mut Seat) -> Counted
    requires cache { seat.old.cache ≡ cache.now }
    ensures { ReadsFigures seat.old seat.new result.figures }
{
    match cache.snapshot(seat) {
        Ok(snapshot) => Counted {
            figures: SeatFigures {
                figures: snapshot.cache.figures(),
                front: snapshot.front,
            },
            memory: snapshot.cache.memory(),
        },
        Err(_) => Counted {
            figures: cache.figures(seat),
            memory: 0,
        },
    }
}

/// What was read of a span.
pub(crate) fn summary(
    alloc: Global,
    cache: &SharedCache,
    seat: &mut Seat,
    span: &Span,
    most: usize,
) -> Result<SeatSummary, Refusal>
    requires cache { seat.old.cache ≡ cache.now }
    ensures { SumsUpShared span.now most seat.old seat.new result }
{
    match summary_at(alloc, cache, seat, span, most) {
        Ok(reported) => Ok(reported),
        Err(_) => Err(Refusal::NoMemory),
    }
}

/// What became of an Add.
pub(crate) fn placed(did: Result<Receipt, TryAddFault>) -> Result<Placed, Refusal>
    ensures { IsPlaced did result }
{
    match did {
        Ok(receipt) => Ok(Placed {
            place: receipt.place,
            added: receipt.added,
        }),
        Err(TryAddFault::DeskBusy | TryAddFault::SeatInside) => Err(Refusal::Busy),
        Err(TryAddFault::Refused(AddFault::HistoryFull(_))) => Err(Refusal::Full),
        Err(TryAddFault::Refused(AddFault::NoMemory)) => Err(Refusal::NoMemory),
        Err(TryAddFault::Refused(AddFault::TooLarge)) => Err(Refusal::TooLarge),
    }
}

/// Why an Add is refused that fits, and for which there is no memory: the history is full, or there
/// is no memory.
pub(crate) fn without_memory(cache: &SharedCache, seat: &mut Seat) -> Refusal
    requires cache { seat.old.cache ≡ cache.now }
    ensures tried { RefusesTried result seat.old seat.new }
    ensures spared { IsSpared seat.old seat.new }
{
    if is_full(cache, seat) {
        Refusal::Full
    } else {
        Refusal::NoMemory
    }
}

/// Whether the history has as many Adds as it may have. The seat sees all of it then.
fn is_full(cache: &SharedCache, seat: &mut Seat) -> bool
    requires cache { seat.old.cache ≡ cache.now }
    ensures full { result ≡ true → length seat.new.seen ≡ seat.old.cache.limit }
    ensures below { result ≡ false → length seat.new.seen < seat.old.cache.limit }
    ensures looked { HasLookedOn seat.old seat.new }
{
    let floor = cache.floor(seat);
    floor.front >= cache.history_limit()
}
