//! The table that the threads share, and what each of them knows of it.
use crate::stripe::Stripe;
use atomic_table::{Seat as TableSeat, Shared, Table, TableRule};
use std::alloc::Global;
use std::collections::LinkedList;
use std::marker::Model;
use std::snapshot::Snapshot;
use tsc_cache::{Config, Entry};
use tsc_span::Key;

/// What was settled when a cache was opened.
#[derive(Drop)]
pub struct Setup {
    /// How the cache of each stripe is set up.
    pub config: Config,
    /// How many seats there are.
    pub seats: u32,
    /// The keys at which the stripes begin, but for the first one, which begins at the empty key.
    pub bounds: Snapshot<Vec<Key>>,
}

impl Model for Setup {
    ghost use Rattle.tsc_stripe_table.specs.Stripes.{Terms};

    ghost Value = { Terms };

    ghost view = { λ s. record {
      config = s.config;
      seats = s.seats;
      bounds = s.bounds.value.items;
    } };
}

/// What is known of a seat. No value of it is made.
pub struct SeatState {
    pub number: u32,
    /// What the seat has seen, and how many of its own Adds are there.
    pub seen: LinkedList<Entry>,
    pub count: u64,
    /// The stripes whose locks the seat holds, of which it acquired the first one last.
    pub holds: LinkedList<u32>,
    /// The history when the seat acquired the last lock. None of these stripes had an Add since.
    pub reached: LinkedList<Entry>,
}

/// What a participant knows: the states of the seats that it keeps, and the history that its front
/// says. No value of it is made.
pub struct Knowledge {
    /// Whether the participant was joined to no other.
    pub live: bool,
    pub setup: Setup,
    pub states: LinkedList<SeatState>,
    pub front: LinkedList<Entry>,
}

/// All stripes have one history, and who holds none of them has seen a beginning of it.
pub struct OneHistory;

impl TableRule<Box<Stripe>, Knowledge, Setup> for OneHistory {
    ghost use Rattle.tsc_stripe_table.specs.Rule.{StripesRule, first_knowledge};

    ghost holds = { StripesRule };

    ghost first = { first_knowledge };
}

/// All stripes, with the words and slots by which seats reach them.
///
/// Word 16 * i + 16 is the lock of stripe i: 0 where it is free, and else 1. Sixteen words are 128
/// bytes. Nothing writes word 0, which each split and each join of participants loads. Slot i is
/// that of stripe i.
pub type StripeTable = Table<Box<Stripe>, Knowledge, Setup, OneHistory, Global>;

/// The stripes as threads share them.
pub type SharedStripes = Shared<Box<Stripe>, Knowledge, Setup, OneHistory>;

/// One that takes part: a seat of the table.
pub type Participant = TableSeat<Box<Stripe>, Knowledge>;
