//! A seat whose holder needs to know no other.
use crate::refusal::Refusal;
use crate::seats::kinds::{AnyCache, AnySeat};
use crate::seats::owner::SharedHandle;
use crate::seats::placed::{Counted, Placed};
use crate::seats::return_slots::{SlotToken, return_seat};
use crate::seats::{shared_calls, striped_calls};
use std::alloc::Global;
use std::marker::Model;
use std::sync::Arc;
use timestamp_cache::SeatSummary;
use tsc_cache::{Config, Mark};
use tsc_shared::{Answer, LowWater};
use tsc_span::{Span, SpanRef};
use tsc_time::{Timestamp, Value};

/// A seat of a cache that threads share, with all that it takes to add and to look there. It may go
/// to another thread. [`close`](SeatHandle::close) returns it.
#[derive(Drop)]
pub struct SeatHandle {
    pub(crate) shared: Arc<SharedHandle>,
    pub(crate) seat: AnySeat,
    pub(crate) slot: SlotToken,
}

impl Model for SeatHandle {
    ghost use Rattle.std.specs.Arc.{arc_value};
    ghost use Rattle.tsc_ffi_store.specs.Owners.{HandleView, handle_of};
    ghost use Rattle.tsc_ffi_store.specs.Seating.{Sits};

    ghost Value = { HandleView };

    ghost view = { λ c. handle_of (arc_value c.shared).table c.seat };

    ghost invariant = { λ c. Sits (arc_value c.shared) c.seat c.slot.table_id c.slot.me };
}

impl SeatHandle {
    ghost use Rattle.std.specs.Prelude.{◌≡◌, []};
    ghost use Rattle.tsc_cache.specs.ConfigView.{fits};
    ghost use Rattle.tsc_cache.specs.Batch.{all_fit};
    ghost use Rattle.tsc_ffi_store.specs.Kinds.{ByKind, config_of, front_of, IsAnySeat};
    ghost use Rattle.tsc_ffi_store.specs.ReturnSlots.{came};
    ghost use Rattle.tsc_ffi_store.specs.Asking.{LooksShared, LooksStriped, ReportsFloor, ReportsFloorStriped, CountsShared, CountsStriped, SumsUpShared, SumsUpStriped, AddsShared, AddsStriped, LacksShared, LacksStriped, one_mark};

    /// How the cache was set up.
    pub fn config(&self) -> Config
        ensures { result ≡ config_of self.now.seat }
    {
        match &self.shared.cache {
            AnyCache::Shared(cache) => cache.config(),
            AnyCache::Striped(cache) => cache.config(),
        }
    }

    /// Why an Add is refused that fits, and for which there is no memory: there is no place left
    /// for it, or there is none for want of memory alone.
    pub fn without_memory(&mut self) -> Refusal
        ensures lacks { ByKind LacksShared LacksStriped self.old.seat self.new.seat result }
        ensures same { self.new.returns ≡ self.old.returns }
    {
        match &mut self.seat {
            AnySeat::Shared(seat) => {
                let AnyCache::Shared(cache) = &self.shared.cache else {
                    unreachable!()
                };
                shared_calls::without_memory(cache, seat)
            }
            AnySeat::Striped(seat) => striped_calls::without_memory(seat),
        }
    }

    /// How many Adds the seat counts: at a shared cache all that it has seen, of whichever seats,
    /// and in stripes its own.
    pub fn seen(&self) -> u64
        ensures value { result ≡ front_of self.now.seat }
        ensures seat { IsAnySeat self.now.seat }
    {
        match &self.seat {
            AnySeat::Shared(seat) => seat.seen(),
            AnySeat::Striped(seat) => {
                let _number = seat.number();
                seat.count()
            }
        }
    }

    /// The latest time on a span over keys that lie elsewhere, as
    /// [`SharedCache::get_max_ref`](tsc_shared::SharedCache::get_max_ref) answers, or
    /// [`StripedCache::try_get_max_ref`](tsc_striped::StripedCache::try_get_max_ref).
    pub fn get_max_ref(&mut self, span: &SpanRef<'_>) -> Result<Answer, Refusal>
        ensures looked { ByKind (LooksShared span.now) (LooksStriped span.now) self.old.seat
            self.new.seat result }
        ensures same { self.new.returns ≡ self.old.returns }
    {
        match &mut self.seat {
            AnySeat::Shared(seat) => {
                let AnyCache::Shared(cache) = &self.shared.cache else {
                    unreachable!()
                };
                Ok(cache.get_max_ref(seat, span))
            }
            AnySeat::Striped(seat) => {
                let AnyCache::Striped(cache) = &self.shared.cache else {
                    unreachable!()
                };
                striped_calls::look(cache, seat, span)
            }
        }
    }

    /// Where the floor stands, and in stripes the earliest floor.
    pub fn low_water(&mut self) -> Result<LowWater, Refusal>
        ensures floor { ByKind ReportsFloor ReportsFloorStriped self.old.seat self.new.seat result }
        ensures same { self.new.returns ≡ self.old.returns }
    {
        match &mut self.seat {
            AnySeat::Shared(seat) => {
                let AnyCache::Shared(cache) = &self.shared.cache else {
                    unreachable!()
                };
                Ok(cache.floor(seat))
            }
            AnySeat::Striped(seat) => {
                let AnyCache::Striped(cache) = &self.shared.cache else {
                    unreachable!()
                };
                striped_calls::floor(cache, seat)
            }
        }
    }

    /// What can be counted of the cache, and how much memory the copy takes that the seat reads;
    /// in stripes of all of them together.
    pub fn figures(&mut self, alloc: Global) -> Result<Counted, Refusal>
        ensures figures { ByKind CountsShared CountsStriped self.old.seat self.new.seat result }
        ensures same { self.new.returns ≡ self.old.returns }
    {
        match &mut self.seat {
            AnySeat::Shared(seat) => {
                let AnyCache::Shared(cache) = &self.shared.cache else {
                    unreachable!()
                };
                Ok(shared_calls::figures(cache, seat))
            }
            AnySeat::Striped(seat) => {
                let AnyCache::Striped(cache) = &self.shared.cache else {
                    unreachable!()
                };
                striped_calls::figures(alloc, cache, seat)
            }
        }
    }

    /// What was read of a span, as [`summary_at`](timestamp_cache::summary_at) tells it, or
    /// [`try_summary_in_stripes`](tsc_striped_leases::try_summary_in_stripes) of all stripes as
    /// one.
    pub fn summary(
        &mut self,
        alloc: Global,
        span: &Span,
        most: usize,
    ) -> Result<SeatSummary, Refusal>
        ensures reported { ByKind (SumsUpShared span.now most) (SumsUpStriped span.now most)
            self.old.seat self.new.seat result }
        ensures same { self.new.returns ≡ self.old.returns }
    {
        match &mut self.seat {
            AnySeat::Shared(seat) => {
                let AnyCache::Shared(cache) = &self.shared.cache else {
                    unreachable!()
                };
                shared_calls::summary(alloc, cache, seat, span, most)
            }
            AnySeat::Striped(seat) => {
                let AnyCache::Striped(cache) = &self.shared.cache else {
                    unreachable!()
                };
                striped_calls::summary(alloc, cache, seat, span, most)
            }
        }
    }

    /// Adds a span with its value, as [`SharedCache::try_add`](tsc_shared::SharedCache::try_add)
    /// does, or [`StripedCache::try_add`](tsc_striped::StripedCache::try_add).
    pub fn try_add(
        &mut self,
        span: &Span,
        value: Value,
        now: Timestamp,
        tries: u32,
    ) -> Result<Placed, Refusal>
        ensures answers { ByKind
            (λ old new did. AddsShared (one_mark span.now value) now
            (fits old.cache.config span.now) tries old new did)
            (AddsStriped (one_mark span.now value) now tries) self.old.seat self.new.seat result }
        ensures same { self.new.returns ≡ self.old.returns }
    {
        match &mut self.seat {
            AnySeat::Shared(seat) => {
                let AnyCache::Shared(cache) = &self.shared.cache else {
                    unreachable!()
                };
                shared_calls::placed(cache.try_add(seat, span, value, now, tries))
            }
            AnySeat::Striped(seat) => {
                let AnyCache::Striped(cache) = &self.shared.cache else {
                    unreachable!()
                };
                striped_calls::placed(cache.try_add(seat, span, value, now, tries))
            }
        }
    }

    /// Adds several marks as one Add, as
    /// [`SharedCache::try_add_all`](tsc_shared::SharedCache::try_add_all) does, or
    /// [`StripedCache::try_add_all`](tsc_striped::StripedCache::try_add_all).
    pub fn try_add_all(
        &mut self,
        marks: &[Mark],
        now: Timestamp,
        tries: u32,
    ) -> Result<Placed, Refusal>
        ensures answers { ByKind
            (λ old new did. AddsShared marks.now now (all_fit old.cache.config marks.now) tries old
            new did) (AddsStriped marks.now now tries) self.old.seat self.new.seat result }
        ensures same { self.new.returns ≡ self.old.returns }
    {
        match &mut self.seat {
            AnySeat::Shared(seat) => {
                let AnyCache::Shared(cache) = &self.shared.cache else {
                    unreachable!()
                };
                shared_calls::placed(cache.try_add_all(seat, marks, now, tries))
            }
            AnySeat::Striped(seat) => {
                let AnyCache::Striped(cache) = &self.shared.cache else {
                    unreachable!()
                };
                striped_calls::placed(cache.try_add_all(seat, marks, now, tries))
            }
        }
    }

    /// Returns the seat, and gives the token that knows of it. The cache can be closed once all its
    /// seats are returned.
    ///
    /// The return takes no memory, and does not wait.
    pub(crate) fn close(self) -> SlotToken
        ensures table { result.table_id ≡ self.returns }
        ensures came { result.me ≡ (came self.seat, []) }
    {
        let SeatHandle { shared, seat, slot } = self;
        return_seat(&shared.slots.shared, slot, seat)
    }
}
