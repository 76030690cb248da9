//! A seat at its shared cache, and the calls that are made there.
ghost use Rattle.std.specs.Prelude.{◌≡◌, All};

use crate::watch::Watch;
use std::alloc::Global;
use std::sync::Wait;
use test_support::rows::{Refusal, Reported, of_no_memory};
use timestamp_cache::{SeatSummary, earliest_write_at, may_write_at, summary_at};
use tsc_cache::{Added, Figures, Mark};
use tsc_shared::TryAddFault::Refused;
use tsc_shared::{AddFault, Receipt, Seat, SharedCache, Snapshot, TryAddFault};
use tsc_span::{Span, SpanRef};
use tsc_time::{NoMemory, Timestamp, Value};
use uuid::Uuid;

/// By which call an Add is made.
#[derive(Clone, Copy, PartialEq, Eq)]
pub enum By {
    Gate,
    /// By the call without a gate.
    Plain,
    /// By the call that gives up after some tries.
    Tries(u32),
}

impl By {
    /// The call of a word.
    pub fn of(word: &str) -> Reported<By> {
        match word {
            "gate" => Ok(By::Gate),
            "plain" => Ok(By::Plain),
            tries => Ok(By::Tries(tries.parse()?)),
        }
    }
}

/// A seat at its shared cache.
#[derive(Drop)]
pub struct Guest<'a> {
    cache: &'a SharedCache,
    seat: Seat,
    ghost is: { seat.cache ≡ cache.now },
}

/// All seats at their cache.
pub fn guests_of<'a>(
    alloc: Global,
    cache: &'a SharedCache,
    seats: Vec<Seat>,
) -> Result<Vec<Guest<'a>>, NoMemory>
    requires { All (λ seat. seat.cache ≡ cache.now) seats.items }
{
    let mut guests = Vec::with_capacity(alloc, seats.len())?;
    for seat in seats {
        guests.push(Guest { cache, seat })?;
    }
    Ok(guests)
}

/// The place of an Add, and what it did.
fn reported_of(made: Result<Receipt, TryAddFault>) -> Reported<(u64, Added)> {
    match made {
        Ok(receipt) => Ok((receipt.place, receipt.added)),
        Err(TryAddFault::DeskBusy | TryAddFault::SeatInside) => Err(Refusal::Busy),
        Err(Refused(AddFault::HistoryFull(_))) => Err(Refusal::Full),
        Err(Refused(AddFault::NoMemory)) => Err(Refusal::Memory),
        Err(Refused(AddFault::TooLarge)) => Err(Refusal::TooLarge),
    }
}

impl Guest<'_> {
    pub fn number(&self) -> u32 {
        self.seat.number()
    }

    /// How many Adds it has seen.
    pub fn seen(&self) -> u64 {
        self.seat.seen()
    }

    /// An Add of one mark.
    pub fn add_mark<R: Wait>(
        &mut self,
        rt: &R,
        Mark { span, value }: &Mark,
        now: Timestamp,
        (by, gate): (By, &Watch),
    ) -> Reported<(u64, Added)> {
        let (cache, seat) = (self.cache, &mut self.seat);
        reported_of(match by {
            By::Gate => cache
                .add_gated(rt, seat, span, *value, now, gate)
                .map_err(Refused),
            By::Plain => cache.add(rt, seat, span, *value, now).map_err(Refused),
            By::Tries(tries) => cache.try_add(seat, span, *value, now, tries),
        })
    }

    /// An Add of several marks.
    pub fn add_marks<R: Wait>(
        &mut self,
        rt: &R,
        marks: &[Mark],
        now: Timestamp,
        (by, gate): (By, &Watch),
    ) -> Reported<(u64, Added)> {
        let (cache, seat) = (self.cache, &mut self.seat);
        reported_of(match by {
            By::Gate => cache
                .add_all_gated(rt, seat, marks, now, gate)
                .map_err(Refused),
            By::Plain => cache.add_all(rt, seat, marks, now).map_err(Refused),
            By::Tries(tries) => cache.try_add_all(seat, marks, now, tries),
        })
    }

    pub fn get(&mut self, span: &SpanRef<'_>) -> Reported<Value> {
        Ok(self.cache.get_max_ref(&mut self.seat, span).value)
    }

    pub fn low(&mut self) -> Reported<Timestamp> {
        Ok(self.cache.floor(&mut self.seat).time)
    }

    pub fn figures(&mut self) -> Reported<Figures> {
        Ok(self.cache.figures(&mut self.seat).figures)
    }

    pub fn snapshot(&mut self) -> Reported<Snapshot> {
        self.cache.snapshot(&mut self.seat).map_err(of_no_memory)
    }

    /// What it tells of a span in so many marks.
    pub fn report(&mut self, alloc: Global, span: &Span, most: usize) -> Reported<SeatSummary> {
        summary_at(alloc, self.cache, &mut self.seat, span, most).map_err(of_no_memory)
    }

    pub fn earliest(
        &mut self,
        spans: &[Span],
        at: Timestamp,
        by: Uuid,
    ) -> Reported<Option<Timestamp>> {
        match earliest_write_at(self.cache, &mut self.seat, spans, at, by) {
            Ok(free) => Ok(free),
            Err(none) => match none {},
        }
    }

    pub fn may(&mut self, span: &Span, at: Timestamp, by: Uuid) -> Reported<bool> {
        match may_write_at(self.cache, &mut self.seat, span, at, by) {
            Ok(may) => Ok(may),
            Err(none) => match none {},
        }
    }
}
