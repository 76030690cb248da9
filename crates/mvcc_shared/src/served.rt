//! What lies under the lock.
ghost use Rattle.std.specs.Prelude.{◌≡◌, ◌+◌, ◌≤◌, ◌++◌, vec_len, vec_capacity};
ghost use Rattle.mvcc_shared.specs.Answers.{ReadsAt, EndsAt, HandsOnAt, CollectsAt};
ghost use Rattle.mvcc_shared.specs.History.{entries_ended};
ghost use Rattle.mvcc_shared.specs.Pending.{call_of};
ghost use Rattle.mvcc_shared.specs.Serving.{HasMade};

use crate::answers::NotCommitted;
use mvcc_range::{Outcome, Range, RangeFault, Row, Transaction};
use std::snapshot::Snapshot;
use timestamp_cache::{CacheFault, Config, Span, Timestamp};

/// The call that was made last. Only the proof reads what it did.
#[derive(Drop)]
pub enum PendingCall {
    Read(Snapshot<Transaction>, Snapshot<Transaction>, Snapshot<Span>, Timestamp),
    End(Snapshot<Transaction>, Timestamp, Outcome),
    HandOn(Config),
    Collect(Timestamp),
    Refuse,
}

/// A range, and the transactions that committed, in the order in which they did.
#[derive(Drop)]
pub struct Served {
    pub(crate) range: Range,
    pub(crate) log: Vec<Transaction>,
    pub(crate) pending: PendingCall,
}

impl Served {
    pub(crate) fn read(
        &mut self,
        transaction: &mut Transaction,
        span: &Span,
        now: Timestamp,
    ) -> Result<Vec<Row>, RangeFault>
        ensures made { HasMade self.old self.new }
        ensures reads { ReadsAt self.old.range (call_of self.new.pending) self.new.range
            transaction.old transaction.new span.now now result }
    {
        let before = Snapshot::of(transaction);
        match self.range.read(transaction, span, now) {
            Ok(rows) => {
                let after = Snapshot::of(transaction);
                self.pending = PendingCall::Read(before, after, Snapshot::of(span), now);
                Ok(rows)
            }
            Err(fault) => {
                self.pending = PendingCall::Refuse;
                Err(fault)
            }
        }
    }

    /// A transaction that commits is the last of the log.
    pub(crate) fn commit(
        &mut self,
        transaction: Transaction,
        now: Timestamp,
    ) -> Result<Outcome, NotCommitted>
        ensures made { HasMade self.old self.new }
        ensures ends { EndsAt self.old.range (call_of self.new.pending) self.new.range transaction
            now result }
    {
        if let Err(fault) = self.range.check_commit(&transaction) {
            self.pending = PendingCall::Refuse;
            return Err(NotCommitted { fault, transaction });
        }
        if self.log.reserve(1).is_err() {
            self.pending = PendingCall::Refuse;
            return Err(NotCommitted {
                fault: RangeFault::NoMemory,
                transaction,
            });
        }
        let ended = Snapshot::of(&transaction);
        match self.range.commit(&transaction, now) {
            Ok(outcome) => {
                self.pending = PendingCall::End(ended, now, outcome);
                record_end(&mut self.log, transaction, &outcome);
                Ok(outcome)
            }
            Err(fault) => {
                self.pending = PendingCall::Refuse;
                Err(NotCommitted { fault, transaction })
            }
        }
    }

    pub(crate) fn hand_on(
        &mut self,
        config: Config,
        most: usize,
        now: Timestamp,
    ) -> Result<(), CacheFault>
        ensures made { HasMade self.old self.new }
        ensures hands_on { HandsOnAt self.old.range (call_of self.new.pending) self.new.range config
            most now result }
    {
        match self.range.hand_on(config, most, now) {
            Ok(()) => {
                self.pending = PendingCall::HandOn(config);
                Ok(())
            }
            Err(fault) => {
                self.pending = PendingCall::Refuse;
                Err(fault)
            }
        }
    }

    pub(crate) fn collect_garbage(&mut self, before: Timestamp)
        ensures made { HasMade self.old self.new }
        ensures collects { CollectsAt self.old.range (call_of self.new.pending) self.new.range
            before }
    {
        self.range.collect_garbage(before);
        self.pending = PendingCall::Collect(before);
    }
}

/// Puts a transaction that has committed behind a log that has room for it.
fn record_end(log: &mut Vec<Transaction>, transaction: Transaction, outcome: &Outcome)
    requires { vec_len log.old + 1 ≤ vec_capacity log.old }
    ensures { log.new.items ≡ log.old.items ++ entries_ended transaction outcome.now }
{
    match outcome {
        Outcome::Committed(at) => log.push_reserved(transaction.moved_to(*at)),
        Outcome::Restart(_) => {}
    }
}
