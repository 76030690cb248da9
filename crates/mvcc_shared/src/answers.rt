//! What the calls of a shared range answer.
use crate::{Client, Dealer, SharedRange};
use mvcc_range::{Range, RangeFault, Transaction};

/// A range that no thread shares any more, and the transactions that committed there, in the order
/// in which they did, each at the time at which it committed.
#[derive(Drop)]
pub struct Closed {
    pub range: Range,
    pub log: Vec<Transaction>,
}

/// A commit that was refused, and the transaction, which may be tried again.
#[derive(Drop)]
pub struct NotCommitted {
    pub fault: RangeFault,
    pub transaction: Transaction,
}

/// Some clients are missing, so the range stays open.
#[derive(Drop)]
pub struct StillOut {
    pub range: SharedRange,
    pub dealer: Dealer,
    pub clients: Vec<Client>,
}
