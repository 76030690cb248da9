//! Lookups at seats of any kind.
ghost use Rattle.std.specs.Prelude.{◌≡◌, IfOk, OnErr};
ghost use Rattle.timestamp_cache.specs.SeatKinds.{SeatKind, LooksUp, shared_seat};
ghost use Rattle.timestamp_cache.specs.SeatLaws.{SeatLaws, shared_seat_laws, shared_seat_stays};

use std::convert::Infallible;
use tsc_shared::{Seat, SharedCache};
use tsc_span::Span;
use tsc_time::Value;

/// A cache that answers lookups at its seats. [`may_write_at`](crate::may_write_at) and
/// [`earliest_write_at`](crate::earliest_write_at) ask at any such cache.
///
/// A [`SharedCache`] is one by itself. A cache in stripes waits for locks, so there a value of
/// `tsc_striped_leases` says how: `Waiting` waits for them, and `Trying` gives up.
pub trait Lookup {
    /// The seats.
    type Seat;

    /// Why a lookup is refused.
    type Fault: Drop;

    /// What the seats are.
    ghost kind: { SeatKind Self.Seat };

    /// The seat is one of the cache's.
    ghost IsAt: { Self → Self.Seat → Type 0 };

    /// Some lookup may be refused.
    ghost MayRefuse: { Type 0 };

    /// The number of a seat, counted from 0. Whoever has a seat also learns here what a seat always
    /// is.
    fn number(&self, seat: &Self::Seat) -> u32
        ensures { kind.GoesOn seat.now seat.now };

    /// What the cache answers to a span after a history that begins with all that the seat has
    /// seen. The seat has then seen all of it. Where the lookup is refused, the seat is as it was.
    ///
    /// Each cache says in its own comment for whom a lookup waits. Neither a [`SharedCache`] nor a
    /// cache in stripes takes memory for it.
    fn look_up(&self, seat: &mut Self::Seat, span: &Span) -> Result<Value, Self::Fault>
        requires at { IsAt self.now seat.old }
        ensures looked { IfOk result (λ value. LooksUp kind seat.old seat.new span.now value) }
        ensures refused { OnErr result (MayRefuse × (seat.new ≡ seat.old)) };

    ghost laws: { SeatLaws kind };

    ghost stays: { (cache : Self) (old new : Self.Seat) → IsAt cache old → kind.GoesOn old new →
        IsAt cache new };
}

impl Lookup for SharedCache {
    type Seat = Seat;

    type Fault = Infallible;

    ghost kind = { shared_seat };

    ghost IsAt = { λ cache seat. seat.cache ≡ cache };

    ghost MayRefuse = { ⊥ };

    fn number(&self, seat: &Seat) -> u32 {
        seat.number()
    }

    /// A lookup waits for nobody, takes no memory, and is never refused.
    fn look_up(&self, seat: &mut Seat, span: &Span) -> Result<Value, Infallible> {
        let answer = self.get_max_ref(seat, &span.borrowed());
        Ok(answer.value)
    }

    ghost laws = { shared_seat_laws };

    ghost stays = { shared_seat_stays };
}
