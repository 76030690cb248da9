//! What a seat of a cache in stripes answers. No call waits: each tries so often, and then tells
//! that others were in the way.
ghost use Rattle.std.specs.Prelude.{◌≡◌, ◌⊎◌};
ghost use Rattle.tsc_striped_leases.specs.Merging.{earlier};
ghost use Rattle.tsc_ffi_store.specs.Asking.{LooksStriped, ReportsFloorStriped, CountsStriped, SumsUpStriped, IsPlacedInStripes};
ghost use Rattle.tsc_ffi_store.specs.declared.refusal.Refusal.TheVariants as refusal;
ghost use Rattle.tsc_ffi_store.specs.StripedCalls.{both_figures, no_figures, LooksOn, RefusesInStripes};

use crate::refusal::Refusal;
use crate::seats::placed::{Counted, Placed};
use std::alloc::Global;
use timestamp_cache::SeatSummary;
use tsc_cache::Figures;
use tsc_shared::{Answer, LowWater, SeatFigures};
use tsc_span::{Key, Span, SpanRef};
use tsc_striped::{AddFault, Receipt, Seat, SnapshotFault, StripedCache, TryAddFault};
use tsc_striped_leases::{merged, try_summary_in_stripes};
use tsc_time::Timestamp;

/// How often a call tries to acquire the locks that it needs.
const TRIES: u32 = 64;

/// The latest time on a span, and how many Adds of its own the seat has made.
pub(crate) fn look(
    cache: &StripedCache,
    seat: &mut Seat,
    span: &SpanRef<'_>,
) -> Result<Answer, Refusal>
    requires cache { seat.old.cache ≡ cache.now }
    ensures { LooksStriped span.now seat.old seat.new result }
{
    match cache.try_get_max_ref(seat, span, TRIES) {
        Ok(value) => Ok(Answer {
            value,
            front: seat.count(),
        }),
        Err(_) => Err(Refusal::Busy),
    }
}

/// The earliest floor of all stripes, which are read one after another.
pub(crate) fn floor(cache: &StripedCache, seat: &mut Seat) -> Result<LowWater, Refusal>
    requires cache { seat.old.cache ≡ cache.now }
    ensures { ReportsFloorStriped seat.old seat.new result }
{
    let _number = seat.number();
    let mut time = Timestamp::MAX;
    for stripe in 0..cache.stripes() {
        let Ok(floor) = cache.try_low_water(seat, stripe, TRIES) else {
            return Err(Refusal::Busy);
        };
        time = earlier(time, floor);
    }
    Ok(LowWater {
        time,
        front: seat.count(),
    })
}

/// The earlier one of two times.
fn earlier(one: Timestamp, other: Timestamp) -> Timestamp
    ensures { result ≡ earlier one other }
{
    if other < one { other } else { one }
}

/// What can be counted of all stripes together, which are read one after another, and how much
/// memory their pages take. That is 0 where no copies of them can be taken.
pub(crate) fn figures(
    alloc: Global,
    cache: &StripedCache,
    seat: &mut Seat,
) -> Result<Counted, Refusal>
    requires cache { seat.old.cache ≡ cache.now }
    ensures { CountsStriped seat.old seat.new result }
{
    let _number = seat.number();
    let mut figures = no_figures();
    for stripe in 0..cache.stripes() {
        let Ok(more) = cache.try_figures(seat, stripe, TRIES) else {
            return Err(Refusal::Busy);
        };
        figures = both(figures, more);
    }
    let memory = memory_of(alloc, cache, seat);
    let front = seat.count();
    Ok(Counted {
        figures: SeatFigures { figures, front },
        memory,
    })
}

/// How much memory the pages of all stripes take, of one moment.
fn memory_of(alloc: Global, cache: &StripedCache, seat: &mut Seat) -> u64
    requires cache { seat.old.cache ≡ cache.now }
    ensures { LooksOn seat.old seat.new }
{
    let whole = Span::onward(Key::empty(alloc), false);
    let Ok(snapshot) = cache.try_snapshot(seat, &whole, TRIES) else {
        return 0;
    };
    let mut memory: u64 = 0;
    for copy in &snapshot.caches {
        memory = memory.saturating_add(copy.memory());
    }
    memory
}

/// The figures of nothing.
fn no_figures() -> Figures
    ensures { result ≡ no_figures }
{
    Figures {
        pages: 0,
        rotations: 0,
        nodes: 0,
        bytes: 0,
        floor: Timestamp::ZERO,
    }
}

/// The figures of two parts together, with the floor of the first.
fn both(one: Figures, other: Figures) -> Figures
    ensures { result ≡ both_figures one other }
{
    Figures {
        pages: one.pages.saturating_add(other.pages),
        rotations: one.rotations.saturating_add(other.rotations),
        nodes: one.nodes.saturating_add(other.nodes),
        bytes: one.bytes.saturating_add(other.bytes),
        floor: one.floor,
    }
}

/// What was read of a span, of all stripes together.
pub(crate) fn summary(
    alloc: Global,
    cache: &StripedCache,
    seat: &mut Seat,
    span: &Span,
    most: usize,
) -> Result<SeatSummary, Refusal>
    requires cache { seat.old.cache ≡ cache.now }
    ensures { SumsUpStriped span.now most seat.old seat.new result }
{
    let parts = match try_summary_in_stripes(alloc, cache, seat, span, most, TRIES) {
        Ok(parts) => parts,
        Err(fault) => return Err(of_snapshot_fault(fault)),
    };
    match merged(alloc, span, parts) {
        Ok(summary) => Ok(SeatSummary {
            summary,
            front: seat.count(),
        }),
        Err(_) => Err(Refusal::NoMemory),
    }
}

/// Why no copies were taken.
fn of_snapshot_fault(fault: SnapshotFault) -> Refusal
    ensures { (result ≡ refusal.Busy) ⊎ (result ≡ refusal.NoMemory) }
{
    match fault {
        SnapshotFault::Busy => Refusal::Busy,
        SnapshotFault::NoMemory => Refusal::NoMemory,
    }
}

/// What became of an Add.
pub(crate) fn placed(did: Result<Receipt, TryAddFault>) -> Result<Placed, Refusal>
    ensures { IsPlacedInStripes did result }
{
    match did {
        Ok(receipt) => Ok(Placed {
            place: receipt.number,
            added: receipt.added,
        }),
        Err(TryAddFault::Busy) => Err(Refusal::Busy),
        Err(TryAddFault::Refused(AddFault::SeatFull)) => Err(Refusal::Full),
        Err(TryAddFault::Refused(AddFault::NoMemory)) => Err(Refusal::NoMemory),
    }
}

/// Why an Add is refused that fits, and for which there is no memory: the seat counts as many Adds
/// as it can, or there is no memory.
pub(crate) fn without_memory(seat: &Seat) -> Refusal
    ensures { RefusesInStripes result seat.now }
{
    if seat.count() == u64::MAX {
        Refusal::Full
    } else {
        Refusal::NoMemory
    }
}
