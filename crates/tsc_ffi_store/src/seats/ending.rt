//! How a cache ends, whose seats are all there.

use crate::seats::kinds::{AnyCache, AnySeat};
use std::alloc::Global;
use tsc_shared::Seat;
use tsc_striped::{Dealer, Seat as StripedSeat};
use tsc_time::NoMemory;

/// What it takes to end a cache without taking memory: room for its seats, and the dealer of those
/// in stripes.
#[derive(Drop)]
pub(crate) enum Ending {
    Shared(Vec<Seat>),
    Striped(Dealer, Vec<StripedSeat>),
}

impl Ending {
    ghost use Rattle.std.specs.Prelude.{IfOk};
    ghost use Rattle.tsc_ffi_store.specs.Endings.{EndsShared, EndsStriped};

    /// What it takes for a shared cache of so many seats.
    pub(crate) fn of_shared(alloc: Global, seats: u32) -> Result<Ending, NoMemory>
        ensures { IfOk result (λ ending. EndsShared seats ending) }
    {
        let room = Vec::with_capacity(alloc, seats as usize)?;
        Ok(Ending::Shared(room))
    }

    /// What it takes for a cache in stripes of so many seats, all of which were dealt.
    pub(crate) fn of_striped(alloc: Global, dealer: Dealer, seats: u32) -> Result<Ending, NoMemory>
        ensures { IfOk result (λ ending. EndsStriped dealer seats ending) }
    {
        let room = Vec::with_capacity(alloc, seats as usize)?;
        Ok(Ending::Striped(dealer, room))
    }
}
