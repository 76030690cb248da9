//! The calls of one seat of a shared cache, or of one thread to a cache of its own.
ghost use Rattle.std.specs.Prelude.{◌≡◌};

use crate::figure::Figure;
use crate::keys::{Keys, PLACES};
use crate::subject::{Subject, value_at};
use std::sync::Wait;
use std::time::Instant;
use tsc_shared::{Seat, SharedCache};
use tsc_span::Span;
use tsc_time::{Timestamp, Value, ratchet};

/// Multiplied by this, the numbers of 100 calls in a row spread the lookups among them.
const SPREAD: u64 = 37;

/// How many calls are made between two looks at the clock.
const CHUNK: u64 = 256;

/// For how many nanoseconds a thread makes calls whose rate is measured.
const LONG_ENOUGH: u64 = 60_000_000;

/// What is measured of the calls of a thread.
#[derive(Clone, Copy)]
pub enum Measures {
    /// What each Add takes by itself.
    EachAdd,
    /// How many calls it makes in a second.
    Rate,
}

/// What is measured: seats that make calls at one full page that they share, each in a thread of
/// its own.
#[derive(Clone, Copy)]
pub struct Trial {
    /// How many nodes the page has.
    pub nodes: u32,
    /// How many seats make calls.
    pub seats: u32,
    /// How many further seats the cache has, which make none.
    pub idle: u32,
    /// How many of 100 calls are lookups.
    pub lookups: u64,
    /// How many calls each seat makes.
    pub number: u64,
    pub measures: Measures,
}

/// How many seats make calls, and how many further ones make none; how many of 100 calls are
/// lookups, the others are Adds; and how often each seat goes over the places.
pub type Row = (u32, u32, u64, u32);

impl Trial {
    /// The trial of a row.
    pub fn new(nodes: u32, (seats, idle, lookups, turns): Row, measures: Measures) -> Trial {
        Trial {
            nodes,
            seats,
            idle,
            lookups,
            number: u64::from(PLACES) * u64::from(turns),
            measures,
        }
    }

    /// The keys of the page.
    pub fn keys(self) -> Keys {
        Keys::new(self.nodes, 0)
    }

    /// Whether the call of a number is a lookup.
    fn looks_up(self, number: u64) -> bool {
        number.wrapping_mul(SPREAD) % 100 < self.lookups
    }

    /// Makes the call of a number, and gives the value that was found or added. Each Add is a
    /// nanosecond later than the one before it.
    fn make<S: Subject>(self, subject: &mut S, spans: &[Span], number: u64) -> Option<Value> {
        let span = spans.get((number % u64::from(PLACES)) as usize)?;
        if self.looks_up(number) {
            return Some(subject.look_up(span));
        }
        let value = value_at(number.saturating_add(1));
        subject
            .make_add(span, value, Timestamp::ZERO)
            .then_some(value)
    }

    /// Makes the calls of a thread, and gives what is measured of them: the nanoseconds of each
    /// Add, or the rate. Seats begin at different places, so that they do not go over them side by
    /// side.
    pub fn measure<S: Subject>(
        self,
        rt: &HostRuntime,
        subject: &mut S,
        spans: &[Span],
        seat: u32,
    ) -> Option<Vec<u64>> {
        let first = u64::from(seat).wrapping_mul(u64::from(PLACES) / 8);
        let Measures::Rate = self.measures else {
            return self.time_all(rt, subject, spans, first);
        };
        let mut reported = Vec::new(rt.alloc());
        reported.push(self.rate(rt, subject, spans, first)?).ok()?;
        Some(reported)
    }

    /// Makes calls from the one of number `first` on until it was long enough, and gives how many
    /// that were in a second.
    fn rate<S: Subject>(
        self,
        rt: &HostRuntime,
        subject: &mut S,
        spans: &[Span],
        first: u64,
    ) -> Option<u64> {
        let mut latest = Value::unowned(Timestamp::ZERO);
        let mut made: u64 = 0;
        let mut figure = Figure::NONE;
        let start = Instant::now(rt).ok()?;
        for _ in 0..u64::MAX {
            for i in 0..CHUNK {
                let number = first.wrapping_add(made).wrapping_add(i);
                latest = ratchet(latest, self.make(subject, spans, number)?).0;
            }
            made = made.saturating_add(CHUNK);
            figure = Figure::since(rt, start, made)?;
            if LONG_ENOUGH <= figure.nanoseconds {
                break;
            }
        }
        (Timestamp::ZERO < latest.time()).then_some(figure.per_second())
    }

    /// Makes the calls one after the other, and tells the nanoseconds of each Add.
    fn time_all<S: Subject>(
        self,
        rt: &HostRuntime,
        subject: &mut S,
        spans: &[Span],
        first: u64,
    ) -> Option<Vec<u64>> {
        let mut times = Vec::with_capacity(rt.alloc(), self.number as usize).ok()?;
        for i in 0..self.number {
            let number = first.wrapping_add(i);
            let start = Instant::now(rt).ok()?;
            self.make(subject, spans, number)?;
            let figure = Figure::since(rt, start, 1)?;
            if !self.looks_up(number) {
                times.push(figure.nanoseconds).ok()?;
            }
        }
        Some(times)
    }
}

/// A seat at its shared cache.
#[derive(Drop)]
pub struct Seated<'a, R> {
    pub rt: &'a R,
    pub shared: &'a SharedCache,
    pub seat: Seat,
    ghost is: { seat.cache ≡ shared.now },
}

impl<'a, R: Wait> Subject for Seated<'a, R> {
    fn look_up(&mut self, span: &Span) -> Value {
        let answer = self.shared.get_max_ref(&mut self.seat, &span.borrowed());
        answer.value
    }

    fn make_add(&mut self, span: &Span, value: Value, now: Timestamp) -> bool {
        self.shared
            .add(self.rt, &mut self.seat, span, value, now)
            .is_ok()
    }
}
