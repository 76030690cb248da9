//! The table that the threads share, and what each of them knows of it.
use crate::served::{PendingCall, Served};
use atomic_table::{Seat as TableSeat, Shared, Table, TableRule};
use mvcc_range::Range;
use std::alloc::Global;
use std::collections::LinkedList;
use std::marker::Model;
use std::snapshot::Snapshot;
use timestamp_cache::Config;

/// What was settled when a range was opened.
#[derive(Drop)]
pub struct Setup {
    pub config: Config,
    /// How many clients there are.
    pub clients: u32,
    /// What the range was then.
    pub opened: Snapshot<Range>,
}

impl Model for Setup {
    ghost use Rattle.mvcc_shared.specs.History.{Terms};

    ghost Value = { Terms };

    ghost view = { λ s. record {
      config = s.config;
      clients = s.clients;
      opened = s.opened.value;
    } };
}

/// A call of the history, and the range after it. No value of it is made.
pub struct Event {
    client: u32,
    call: PendingCall,
    range: Range,
}

impl Model for Event {
    ghost use Rattle.mvcc_shared.specs.History.{Event};

    ghost Value = { Event };

    ghost use Rattle.mvcc_shared.specs.Pending.{call_of};

    ghost view = { λ e. record {
      client = e.client;
      call = call_of e.call;
      range = e.range;
    } };
}

/// What is known of a client. No value of it is made.
pub struct ClientState {
    pub number: u32,
    /// What the client has seen. It is all of the history while the client holds the lock.
    pub seen: LinkedList<Event>,
    pub holds: bool,
}

/// What a participant knows: the states of the clients that it keeps, and the history that its
/// front says. No value of it is made.
pub struct Knowledge {
    /// Whether the participant was joined to no other.
    pub live: bool,
    pub setup: Setup,
    pub states: LinkedList<ClientState>,
    pub front: LinkedList<Event>,
}

/// The range has one history, and each client has seen a beginning of it.
pub struct OneHistory;

impl TableRule<Box<Served>, Knowledge, Setup> for OneHistory {
    ghost use Rattle.mvcc_shared.specs.Rule.{RangeRule, first_knowledge};

    ghost holds = { RangeRule };

    ghost first = { first_knowledge };
}

/// The lock, which is word 0, and the range under it, in slot 0. The word is 0 where the lock is
/// free, and else 1.
pub type RangeTable = Table<Box<Served>, Knowledge, Setup, OneHistory, Global>;

/// The lock and the range as threads share them.
pub type SharedLock = Shared<Box<Served>, Knowledge, Setup, OneHistory>;

/// One that takes part: a seat of the table.
pub type Participant = TableSeat<Box<Served>, Knowledge>;
