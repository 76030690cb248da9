//! Lookups at seats of a cache in stripes, for the calls that ask at a [`Lookup`].
ghost use Rattle.std.specs.Prelude.{◌≡◌};
ghost use Rattle.tsc_striped_leases.specs.StripedSeats.{striped_seat, striped_seat_laws};
ghost use Rattle.tsc_striped_leases.specs.StripedSeats.{striped_seat_stays};

use std::convert::Infallible;
use std::sync::Wait;
use timestamp_cache::Lookup;
use tsc_span::Span;
use tsc_striped::{Busy, Seat, StripedCache};
use tsc_time::Value;

/// A cache in stripes at which a lookup waits for locks, and is never refused.
///
/// ```
/// let bounds = vec![in alloc; Key::new(alloc, b"m")?]?;
/// let (cache, mut dealer) = StripedCache::open(alloc, config()?, bounds, 1)?;
/// let mut seat = cache.deal(&mut dealer).ok_or("a seat")?;
/// let key = keys(alloc, "b", "")?;
/// cache.add(&rt, &mut seat, &key, Value::of(at(20), id('A')), at(20))?;
/// let waiting = Waiting { cache: &cache, rt: &rt };
/// let Ok(clear) = may_write_at(&waiting, &mut seat, &key, at(20), id('B')) else {
///     return Err("it is never refused")?;
/// };
/// assert!(rt; !clear);
/// ```
#[derive(Drop)]
pub struct Waiting<'a, R> {
    pub cache: &'a StripedCache,
    pub rt: &'a R,
}

impl<R: Wait> Lookup for Waiting<'_, R> {
    type Seat = Seat;

    type Fault = Infallible;

    ghost kind = { striped_seat };

    ghost IsAt = { λ waiting seat. seat.cache ≡ waiting.cache.now };

    ghost MayRefuse = { ⊥ };

    fn number(&self, seat: &Seat) -> u32 {
        seat.number()
    }

    /// A lookup waits as [`StripedCache::get_max`] does.
    fn look_up(&self, seat: &mut Seat, span: &Span) -> Result<Value, Infallible> {
        Ok(self.cache.get_max(self.rt, seat, span))
    }

    ghost laws = { striped_seat_laws };

    ghost stays = { λ waiting. striped_seat_stays waiting.cache.now };
}

/// A cache in stripes at which a lookup waits for nobody: it tries so many times to acquire the
/// locks that it needs, and is then refused.
///
/// ```
/// let (cache, mut dealer) = StripedCache::open(alloc, config()?, Vec::new(alloc), 1)?;
/// let mut seat = cache.deal(&mut dealer).ok_or("a seat")?;
/// let spans = [keys(alloc, "b", "")?, keys(alloc, "c", "")?];
/// cache.try_add(&mut seat, &spans[0], Value::of(at(20), id('A')), at(20), 64)?;
/// let trying = Trying { cache: &cache, tries: 64 };
/// let told = earliest_write_at(&trying, &mut seat, &spans, at(15), id('B'))?;
/// assert_eq!(rt; told, Timestamp::new(20, 1));
/// ```
#[derive(Clone, Copy)]
pub struct Trying<'a> {
    pub cache: &'a StripedCache,
    pub tries: u32,
}

impl Lookup for Trying<'_> {
    type Seat = Seat;

    type Fault = Busy;

    ghost kind = { striped_seat };

    ghost IsAt = { λ trying seat. seat.cache ≡ trying.cache.now };

    ghost MayRefuse = { Unit {0} };

    fn number(&self, seat: &Seat) -> u32 {
        seat.number()
    }

    /// A lookup gives up as [`StripedCache::try_get_max`] does.
    fn look_up(&self, seat: &mut Seat, span: &Span) -> Result<Value, Busy> {
        self.cache.try_get_max(seat, span, self.tries)
    }

    ghost laws = { striped_seat_laws };

    ghost stays = { λ trying. striped_seat_stays trying.cache.now };
}
