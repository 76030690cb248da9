//! The tokens of a shared range: clients, fronts and the dealer.
use crate::table::Participant;
use std::marker::Model;

/// A caller's token at a shared range, by which it reads and commits.
///
/// A client carries its number and the part of the range's history that it has seen: its own calls,
/// all that these came after, and what it learned. A client cannot be copied, and one that is
/// dropped makes closing impossible.
#[derive(Drop)]
pub struct Client {
    pub(crate) participant: Participant,
}

impl Model for Client {
    ghost use Rattle.mvcc_shared.specs.Clients.{ClientView};

    ghost Value = { ClientView };

    ghost use Rattle.mvcc_shared.specs.Keeping.{client_view, KeepsClient};

    ghost view = { λ c. client_view c.participant };

    ghost invariant = { λ c. KeepsClient c.participant };
}

/// A history that was seen, to be shown to others. A client can learn it. It cannot be copied.
#[derive(Drop)]
pub struct Front {
    pub(crate) participant: Participant,
}

impl Model for Front {
    ghost use Rattle.mvcc_shared.specs.Clients.{FrontView};

    ghost Value = { FrontView };

    ghost use Rattle.mvcc_shared.specs.Clients.{IsFront};
    ghost use Rattle.mvcc_shared.specs.Participating.{IsFront as IsFrontAt};
    ghost use Rattle.mvcc_shared.specs.Keeping.{front_view};

    ghost view = { λ f. front_view f.participant };

    ghost invariant = { λ f. IsFrontAt f.participant.me × IsFront (front_view f.participant) };
}

/// It deals the clients of a shared range, one after another, and is there at its closing.
#[derive(Drop)]
pub struct Dealer {
    pub(crate) participant: Participant,
    pub(crate) dealt: u32,
}

impl Model for Dealer {
    ghost use Rattle.mvcc_shared.specs.Clients.{DealerView};

    ghost Value = { DealerView };

    ghost use Rattle.mvcc_shared.specs.Keeping.{dealer_view, KeepsOthers};

    ghost view = { λ d. dealer_view d.participant d.dealt };

    ghost invariant = { λ d. KeepsOthers d.participant d.dealt };
}
