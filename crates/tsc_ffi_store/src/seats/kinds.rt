//! The kinds of caches that threads share, and of their seats.

ghost use Rattle.std.specs.Prelude.{◌≡◌};
ghost use Rattle.tsc_ffi_store.specs.Kinds.{number_of, IsAnySeat};

use tsc_shared::{Seat, SharedCache};
use tsc_striped::{Seat as StripedSeat, StripedCache};

/// A cache that threads share.
#[derive(Drop)]
pub enum AnyCache {
    /// Two copies of one cache. Lookups wait for nobody.
    Shared(SharedCache),
    /// Stripes, each a cache under a lock of its own.
    Striped(StripedCache),
}

/// A seat of one.
#[derive(Drop)]
pub enum AnySeat {
    /// Of a shared cache.
    Shared(Seat),
    /// Of a cache in stripes.
    Striped(StripedSeat),
}

impl AnySeat {
    /// The number of the seat, counted from 0. Whoever has a seat also learns here what a seat
    /// always is.
    pub(crate) fn number(&self) -> u32
        ensures value { result ≡ number_of self.now }
        ensures seat { IsAnySeat self.now }
    {
        match self {
            AnySeat::Shared(seat) => seat.number(),
            AnySeat::Striped(seat) => seat.number(),
        }
    }
}
