//! Seats, fronts, and the dealer from which seats come.
ghost use Rattle.std.specs.Prelude.{◌≡◌};
ghost use Rattle.tsc_cache.specs.History.{own_count};
ghost use Rattle.tsc_striped.specs.Seats.{IsSeat};

use std::marker::Model;
use tsc_stripe_table::Participant;

/// A caller's token at a striped cache, by which it adds and looks.
///
/// A seat carries its number, how many of its Adds were accepted, and the history that it has seen.
/// The history has the seat's own Adds, all that its answers came after, and what it met. A seat
/// cannot be copied, and one that is dropped makes closing impossible.
#[derive(Drop)]
pub struct Seat {
    pub(crate) participant: Participant,
    pub(crate) number: u32,
    pub(crate) count: u64,
}

impl Model for Seat {
    ghost use Rattle.tsc_striped.specs.Seats.{SeatView};

    ghost Value = { SeatView };

    ghost use Rattle.tsc_striped.specs.Keeping.{seat_view, KeepsSeat};

    ghost view = { λ s. seat_view s.participant };

    ghost invariant = { λ s. KeepsSeat s.participant s.number s.count };
}

impl Seat {
    /// The number of the seat, counted from 0. Whoever has a seat also learns here what a seat
    /// always is.
    pub fn number(&self) -> u32
        ensures value { result ≡ self.now.number }
        ensures seat { IsSeat self.now }
    {
        self.number
    }

    /// How many of the seat's Adds were accepted.
    pub fn count(&self) -> u64
        ensures value { result ≡ self.now.count }
        ensures own { result ≡ own_count self.now.number self.now.seen }
    {
        self.count
    }
}

/// A seat is as seats always are, also where a call leaves it alone. It does nothing.
pub(crate) fn is_as_always(seat: &Seat)
    ensures { IsSeat seat.now }
{
    let _number = seat.number;
}

/// A history that was seen, to be shown to others. A seat can learn it. It cannot be copied.
#[derive(Drop)]
pub struct Front {
    pub(crate) participant: Participant,
}

impl Model for Front {
    ghost use Rattle.tsc_striped.specs.Seats.{FrontView};

    ghost Value = { FrontView };

    ghost use Rattle.tsc_striped.specs.Seats.{IsFront};
    ghost use Rattle.tsc_stripe_table.specs.Participating.{IsFront as IsFrontAt};
    ghost use Rattle.tsc_striped.specs.Keeping.{front_view};

    ghost view = { λ f. front_view f.participant };

    ghost invariant = { λ f. IsFrontAt f.participant.me × IsFront (front_view f.participant) };
}

/// It deals the seats of a striped cache, one after another, and is there at its closing.
#[derive(Drop)]
pub struct Dealer {
    pub(crate) participant: Participant,
    pub(crate) dealt: u32,
}

impl Model for Dealer {
    ghost use Rattle.tsc_striped.specs.Seats.{DealerView};

    ghost Value = { DealerView };

    ghost use Rattle.tsc_striped.specs.Keeping.{dealer_view, KeepsOthers};

    ghost view = { λ d. dealer_view d.participant d.dealt };

    ghost invariant = { λ d. KeepsOthers d.participant d.dealt };
}

impl Dealer {
    /// How many seats were dealt.
    pub fn dealt(&self) -> u32
        ensures { result ≡ self.now.dealt }
    {
        self.dealt
    }
}
