//! The cache in which the reads of a range are remembered: of whichever form a store chooses.
//!
//! What a lease needs of a cache is here, for both forms that threads share. A cache with two
//! copies answers without waiting. In one with stripes, who adds in one of them waits for nobody in
//! another.
ghost use Rattle.std.specs.Prelude.{◌≡◌, All, IfOk};
ghost use Rattle.timestamp_cache.specs.Words.{BeginsWith};
ghost use Rattle.timestamp_cache.specs.SeatKinds.{LooksUp};
ghost use Rattle.example_lease_holder.specs.ReadSeats.{seen_by, cache_of, shown_by, shown_of};
ghost use Rattle.example_lease_holder.specs.ReadSeats.{GoesOn, AddsRead, Meets, read_seat};
ghost use Rattle.example_lease_holder.specs.ReadSeatLaws.{read_seat_laws, read_seat_stays};

use anyhow::{Context, Result};
use std::alloc::Global;
use std::convert::Infallible;
use std::sync::Wait;
use timestamp_cache::{
    Config, Front, Key, Lookup, NoMemory, Seat, SharedCache, Span, Timestamp, Value,
};
use tsc_striped::{Dealer, StripedCache};

/// A cache of reads.
#[derive(Drop)]
pub enum ReadCache {
    /// One with two copies.
    Copies(SharedCache),
    /// One in stripes.
    Stripes(StripedCache),
}

/// A seat at a cache of reads.
#[derive(Drop)]
pub enum ReadSeat {
    Copies(Seat),
    Stripes(tsc_striped::Seat),
}

/// What a seat has seen, to be shown to others.
#[derive(Drop)]
pub enum ReadFront {
    Copies(Front),
    Stripes(tsc_striped::Front),
}

/// The seats of a cache with two copies, as those of a cache of reads.
fn seats_of_copies(
    alloc: Global,
    cache: &SharedCache,
    opened: Vec<Seat>,
) -> Result<Vec<ReadSeat>, NoMemory>
    requires { All (λ seat. seat.cache ≡ cache.now) opened.items }
    ensures { IfOk result
        (λ seats. All (λ seat. cache_of seat ≡ ReadCache.Copies cache.now) seats.items) }
{
    let mut seats = Vec::new(alloc);
    for seat in opened {
        seats.push(ReadSeat::Copies(seat))?;
    }
    Ok(seats)
}

/// The next seats of a cache in stripes, so many.
fn seats_of_stripes(
    alloc: Global,
    cache: &StripedCache,
    dealer: &mut Dealer,
    count: u32,
) -> Result<Vec<ReadSeat>>
    requires { dealer.old.cache ≡ cache.now }
    ensures { IfOk result
        (λ seats. All (λ seat. cache_of seat ≡ ReadCache.Stripes cache.now) seats.items) }
{
    let mut seats = Vec::new(alloc);
    for _ in 0..count {
        let seat = cache.deal(dealer).context("no seat")?;
        seats.push(ReadSeat::Stripes(seat))?;
    }
    Ok(seats)
}

impl ReadCache {
    /// A cache with two copies, and so many seats.
    pub fn open_copies(
        alloc: Global,
        config: Config,
        count: u32,
    ) -> Result<(ReadCache, Vec<ReadSeat>)>
        ensures { IfOk result (λ opened. All (λ seat. cache_of seat ≡ opened.0) opened.1.items) }
    {
        let (cache, seats) = SharedCache::open(alloc, config, count, u64::MAX)?;
        let seats = seats_of_copies(alloc, &cache, seats)?;
        Ok((ReadCache::Copies(cache), seats))
    }

    /// A cache in stripes that begin at these bounds, and so many seats.
    pub fn open_stripes(
        alloc: Global,
        config: Config,
        bounds: Vec<Key>,
        count: u32,
    ) -> Result<(ReadCache, Vec<ReadSeat>)>
        ensures { IfOk result (λ opened. All (λ seat. cache_of seat ≡ opened.0) opened.1.items) }
    {
        let (cache, mut dealer) = StripedCache::open(alloc, config, bounds, count)?;
        let seats = seats_of_stripes(alloc, &cache, &mut dealer, count)?;
        Ok((ReadCache::Stripes(cache), seats))
    }

    /// Adds a read of a span, at the time of that read. What the seat has seen then is shown.
    pub fn add<R: Wait>(
        &self,
        rt: &R,
        seat: &mut ReadSeat,
        span: &Span,
        read: Value,
        at: Timestamp,
    ) -> Result<ReadFront>
        requires { cache_of seat.old ≡ self.now }
        ensures seat { GoesOn seat.old seat.new }
        ensures added { IfOk result (λ front. AddsRead seat.old seat.new span.now read front) }
    {
        match self {
            ReadCache::Copies(cache) => {
                let ReadSeat::Copies(seat) = seat else {
                    unreachable!()
                };
                let receipt = cache.add(rt, seat, span, read, at)?;
                Ok(ReadFront::Copies(receipt.front))
            }
            ReadCache::Stripes(cache) => {
                let ReadSeat::Stripes(seat) = seat else {
                    unreachable!()
                };
                let receipt = cache.add(rt, seat, span, read, at)?;
                Ok(ReadFront::Stripes(receipt.front))
            }
        }
    }

    /// What the cache answers to a span, after all that the seat has seen then.
    pub fn answer<R: Wait>(&self, rt: &R, seat: &mut ReadSeat, span: &Span) -> Value
        requires { cache_of seat.old ≡ self.now }
        ensures { LooksUp read_seat seat.old seat.new span.now result }
    {
        match self {
            ReadCache::Copies(cache) => {
                let ReadSeat::Copies(seat) = seat else {
                    unreachable!()
                };
                let answer = cache.get_max_ref(seat, &span.borrowed());
                answer.value
            }
            ReadCache::Stripes(cache) => {
                let ReadSeat::Stripes(seat) = seat else {
                    unreachable!()
                };
                cache.get_max(rt, seat, span)
            }
        }
    }

    /// Takes in a front.
    pub fn learn(&self, seat: &mut ReadSeat, front: ReadFront)
        requires seat { cache_of seat.old ≡ self.now }
        requires front { shown_of front ≡ self.now }
        ensures seat { GoesOn seat.old seat.new }
        ensures learned { BeginsWith (seen_by seat.new) (shown_by front) }
    {
        match self {
            ReadCache::Copies(cache) => {
                let ReadSeat::Copies(seat) = seat else {
                    unreachable!()
                };
                let ReadFront::Copies(front) = front else {
                    unreachable!()
                };
                cache.catch_up(seat, front);
            }
            ReadCache::Stripes(cache) => {
                let ReadSeat::Stripes(seat) = seat else {
                    unreachable!()
                };
                let ReadFront::Stripes(front) = front else {
                    unreachable!()
                };
                cache.learn(seat, front);
            }
        }
    }

    /// Has two seats meet: both have then seen one history.
    pub fn meet<R: Wait>(&self, rt: &R, first: &mut ReadSeat, second: &mut ReadSeat)
        requires first { cache_of first.old ≡ self.now }
        requires second { cache_of second.old ≡ self.now }
        ensures { Meets first.old second.old first.new second.new }
    {
        match self {
            ReadCache::Copies(cache) => {
                let ReadSeat::Copies(first) = first else {
                    unreachable!()
                };
                let ReadSeat::Copies(second) = second else {
                    unreachable!()
                };
                cache.catch_up_both(first, second);
            }
            ReadCache::Stripes(cache) => {
                let ReadSeat::Stripes(first) = first else {
                    unreachable!()
                };
                let ReadSeat::Stripes(second) = second else {
                    unreachable!()
                };
                cache.meet(first, second);
            }
        }
    }
}

/// A cache of reads at which a lookup may wait for locks, and is never refused.
#[derive(Drop)]
pub struct Asked<'a, R> {
    pub cache: &'a ReadCache,
    pub rt: &'a R,
}

impl<R: Wait> Lookup for Asked<'_, R> {
    type Seat = ReadSeat;

    type Fault = Infallible;

    ghost kind = { read_seat };

    ghost IsAt = { λ asked seat. cache_of seat ≡ asked.cache.now };

    ghost MayRefuse = { ⊥ };

    fn number(&self, seat: &ReadSeat) -> u32 {
        match seat {
            ReadSeat::Copies(seat) => seat.number(),
            ReadSeat::Stripes(seat) => seat.number(),
        }
    }

    fn look_up(&self, seat: &mut ReadSeat, span: &Span) -> Result<Value, Infallible> {
        Ok(self.cache.answer(self.rt, seat, span))
    }

    ghost laws = { read_seat_laws };

    ghost stays = { λ asked. read_seat_stays asked.cache.now };
}
