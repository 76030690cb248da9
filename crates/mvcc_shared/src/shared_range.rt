//! The calls that threads make.
ghost use Rattle.std.specs.Prelude.{◌≡◌, ◌↔◌, IsOk, IfOk, IfErr, IfSome, IfNone, All, length};
ghost use Rattle.mvcc_shared.specs.Answers.{Opens, Deals, DealsNone, Calls, ReadsAt, EndsAt};
ghost use Rattle.mvcc_shared.specs.Answers.{HandsOnAt, CollectsAt, Shows, Learns, Closes};

use crate::answers::{Closed, NotCommitted, StillOut};
use crate::calls;
use crate::client::{Client, Dealer, Front};
use crate::closing::{close, gather};
use crate::fronts::{new_front, see_front};
use crate::opening::{deal, new_table};
use crate::served::Served;
use crate::table::{RangeTable, Setup};
use mvcc_range::{Outcome, Range, RangeFault, Row, Transaction};
use std::alloc::Global;
use std::marker::Model;
use std::snapshot::Snapshot;
use std::sync::Wait;
use timestamp_cache::{CacheFault, Config, NoMemory, Span, Timestamp};

/// A range under a lock, for any number of threads, with the log of the transactions that
/// committed.
///
/// Each call of a client waits for the lock, and holds it until it answers: it pauses for longer
/// and longer, and then leaves the processor to others between its tries. Nothing bounds how often
/// others acquire the lock before. The log keeps each transaction that committed, with what it
/// read and wrote, so its memory grows with each.
#[derive(Drop)]
pub struct SharedRange {
    table: RangeTable,
    setup: Setup,
}

impl Model for SharedRange {
    ghost use Rattle.std.specs.Prelude.{◌≡◌};
    ghost use Rattle.mvcc_shared.specs.Clients.{SharedView};

    ghost Value = { SharedView };

    ghost use Rattle.mvcc_range.specs.Steps.{IsOpened};
    ghost use Rattle.mvcc_shared.specs.Participating.{IsSized};

    ghost view = { λ r. record { table = r.table.shared.table_id; terms = r.setup } };

    ghost invariant = { λ r. IsSized r.table.shared.table_id × (r.table.shared.key ≡ r.setup) };
}

impl SharedRange {
    /// A range of keys that have nothing yet, an empty log, and the dealer of `clients` clients.
    /// The call takes the memory of a range and of the table that the clients share. A client
    /// takes none.
    pub fn open(
        alloc: Global,
        span: Span,
        config: Config,
        clients: u32,
    ) -> Result<(SharedRange, Dealer), NoMemory>
        ensures { IfOk result (λ opened. Opens span config clients opened.0 opened.1) }
    {
        let range = Range::open(alloc, span, config)?;
        let setup = Setup {
            config,
            clients,
            opened: Snapshot::of(&range),
        };
        let (table, all) = new_table(alloc, &setup, range)?;
        let dealer = Dealer {
            participant: all,
            dealt: 0,
        };
        Ok((SharedRange { table, setup }, dealer))
    }

    /// The next client, with the least number that was not dealt yet, or `None` where all were
    /// dealt. It takes no memory and waits for nobody.
    pub fn deal(&self, dealer: &mut Dealer) -> Option<Client>
        requires range { dealer.old.range ≡ self.now }
        ensures dealt { IfSome result (λ client. Deals dealer.old dealer.new client) }
        ensures none { IfNone result (DealsNone dealer.old dealer.new) }
    {
        let number = dealer.dealt;
        if number >= self.setup.clients {
            return None;
        }
        let participant = deal(&self.table.shared, &mut dealer.participant);
        dealer.dealt = number + 1;
        Some(Client { participant })
    }

    /// Answers a read of a transaction, as [`Range::read`] does. All other calls wait while the
    /// rows are searched for and copied.
    pub fn read<R: Wait>(
        &self,
        rt: &R,
        client: &mut Client,
        transaction: &mut Transaction,
        span: &Span,
        now: Timestamp,
    ) -> Result<Vec<Row>, RangeFault>
        requires range { client.old.range ≡ self.now }
        ensures { Calls client.old client.new (λ old call new. ReadsAt old call new transaction.old
            transaction.new span.now now result) }
    {
        let shared = &self.table.shared;
        calls::read(rt, shared, &mut client.participant, transaction, span, now)
    }

    /// Commits a transaction, as [`Range::commit`] does. If it commits, it is the last of the log
    /// then. One that has to restart is gone, and one whose commit is refused comes back. The call
    /// takes the memory of that call, and of one more place in the log.
    pub fn commit<R: Wait>(
        &self,
        rt: &R,
        client: &mut Client,
        transaction: Transaction,
        now: Timestamp,
    ) -> Result<Outcome, NotCommitted>
        requires range { client.old.range ≡ self.now }
        ensures { Calls client.old client.new (λ old call new. EndsAt old call new transaction now
            result) }
    {
        let shared = &self.table.shared;
        calls::commit(rt, shared, &mut client.participant, transaction, now)
    }

    /// Hands the range on to a new lease, as [`Range::hand_on`] does. All other calls wait for as
    /// long as that takes.
    pub fn hand_on<R: Wait>(
        &self,
        rt: &R,
        client: &mut Client,
        config: Config,
        most: usize,
        now: Timestamp,
    ) -> Result<(), CacheFault>
        requires range { client.old.range ≡ self.now }
        ensures { Calls client.old client.new (λ old call new. HandsOnAt old call new config most
            now result) }
    {
        let shared = &self.table.shared;
        calls::hand_on(rt, shared, &mut client.participant, config, most, now)
    }

    /// Drops old versions, as [`Range::collect_garbage`] does. All other calls wait while it goes
    /// over the versions.
    pub fn collect_garbage<R: Wait>(&self, rt: &R, client: &mut Client, before: Timestamp)
        requires range { client.old.range ≡ self.now }
        ensures { Calls client.old client.new (λ old call new. CollectsAt old call new before) }
    {
        calls::collect_garbage(rt, &self.table.shared, &mut client.participant, before);
    }

    /// A front of all that a client has seen, for others to learn. The call costs one atomic step.
    /// It acquires no lock, waits for nobody, and takes no memory.
    pub fn front(&self, client: &mut Client) -> Front
        requires range { client.old.range ≡ self.now }
        ensures same { client.new ≡ client.old }
        ensures front { Shows client.old result }
    {
        Front {
            participant: new_front(&self.table.shared, &mut client.participant),
        }
    }

    /// Takes in a front. The client has then seen a history that begins with both its own and the
    /// front's, so its next calls come after those that the front shows. The call costs two atomic
    /// steps. It acquires no lock, waits for nobody, and takes no memory.
    pub fn learn(&self, client: &mut Client, front: Front)
        requires range { client.old.range ≡ self.now }
        requires front { front.range ≡ self.now }
        ensures { Learns client.old client.new front }
    {
        see_front(
            &self.table.shared,
            &mut client.participant,
            front.participant,
        );
    }

    /// Ends the range where all its clients are handed in that were dealt, and gives it with its
    /// log. Where some are missing it hands all back. A client that was dropped is missing for
    /// good.
    ///
    /// The call takes no memory, waits for nobody, and costs two steps for each client.
    pub fn close(self, dealer: Dealer, clients: Vec<Client>) -> Result<Closed, StillOut>
        requires dealer { dealer.range ≡ self }
        requires clients { All (λ client. client.range ≡ self) clients.items }
        ensures closed { IfOk result (λ closed. Closes dealer clients.items closed) }
        ensures exactly { IsOk result ↔ (length clients.items ≡ dealer.dealt) }
        ensures still_out { IfErr result (λ out. (out.range ≡ self) × (out.dealer ≡ dealer)
            × (out.clients.items ≡ clients.items)) }
    {
        let is_missing = clients.len() != dealer.dealt as usize;
        if is_missing {
            return Err(StillOut {
                range: self,
                dealer,
                clients,
            });
        }
        let SharedRange { table, setup: _ } = self;
        let all = gather(&table.shared, dealer.participant, clients);
        let Served {
            range,
            log,
            pending: _,
        } = close(table, all);
        Ok(Closed { range, log })
    }
}
