//! The bank: a range that threads share, a clock, and desks at which clients are served.
ghost use Rattle.std.specs.Prelude.{◌≡◌, All, IfOk};
ghost use Rattle.example_bank.specs.Replays.{CanBeReplayed};

use crate::accounts::{self, TELLERS};
use anyhow::{Context, Result, bail};
use mvcc_range::{Outcome, RangeFault, Row, Transaction, Write};
use mvcc_shared::{Client, Closed, Dealer, NotCommitted, SharedRange, laws};
use std::alloc::Global;
use std::marker::Model;
use std::sync::Wait;
use std::sync::atomic::{AtomicU64, Ordering};
use timestamp_cache::{Config, Key, Span, Timestamp, Uuid};

/// How many clients the bank has: one for each teller, and one that opens the accounts.
const CLIENTS: u32 = TELLERS as u32 + 1;

#[derive(Drop)]
pub struct Bank {
    pub alloc: Global,
    range: SharedRange,
    clock: AtomicU64,
}

impl Model for Bank {
    ghost use Rattle.mvcc_shared.specs.Clients.{SharedView};

    ghost Value = { SharedView };

    ghost view = { λ b. b.range };
}

/// Where a client of the bank is served.
#[derive(Drop)]
pub struct Desk<'a, R> {
    pub rt: &'a R,
    pub bank: &'a Bank,
    pub client: Client,
    ghost is: { client.range ≡ bank.now },
}

/// Small pages that are kept for some ticks of the clock, so that many are filled and dropped.
pub fn config() -> Result<Config> {
    Ok(Config::new(512, 1024, 2, 100, Timestamp::ZERO)?)
}

impl Bank {
    /// A bank without accounts, and the dealer of its clients.
    pub fn open(alloc: Global) -> Result<(Bank, Dealer)>
        ensures { IfOk result (λ opened. opened.1.range ≡ opened.0) }
    {
        let (range, dealer) = SharedRange::open(alloc, accounts::all(alloc), config()?, CLIENTS)?;
        let bank = Bank {
            alloc,
            range,
            clock: AtomicU64::new(1),
        };
        Ok((bank, dealer))
    }

    /// The next client.
    pub fn deal(&self, dealer: &mut Dealer) -> Result<Client>
        requires { dealer.old.range ≡ self.now }
        ensures dealer { dealer.new.range ≡ dealer.old.range }
        ensures client { IfOk result (λ client. client.range ≡ self.now) }
    {
        self.range.deal(dealer).context("all clients are dealt")
    }

    /// A time that no other call is given.
    pub fn now(&self) -> Timestamp {
        let tick = self.clock.fetch_add(1, Ordering::SeqCst);
        Timestamp::new(tick, 0).unwrap_or(Timestamp::MAX)
    }

    pub fn begin(&self) -> Transaction {
        let now = self.now();
        Transaction::new(self.alloc, now, Uuid::from_u128(u128::from(now.wall())))
    }

    /// An account is to have so much, or to be there no more.
    pub fn put(&self, transaction: &mut Transaction, key: Key, amount: Option<i64>) -> Result<()> {
        let content = match amount {
            Some(amount) => Some(Vec::from_slice(self.alloc, &amount.to_le_bytes())?),
            None => None,
        };
        transaction.write(Write { key, content })?;
        Ok(())
    }

    /// The range and its log, once all its clients are handed in. The transactions of the log are
    /// serializable as textbooks have it.
    pub fn close(self, dealer: Dealer, clients: Vec<Client>) -> Result<Closed>
        requires dealer { dealer.range ≡ self }
        requires clients { All (λ client. client.range ≡ self) clients.items }
        ensures { IfOk result CanBeReplayed }
    {
        let Bank {
            alloc: _,
            range,
            clock: _,
        } = self;
        laws::histories_run();
        laws::textbook_serializable();
        match range.close(dealer, clients) {
            Ok(closed) => Ok(closed),
            Err(_still_out) => bail!("a client is missing"),
        }
    }
}

impl<'a, R: Wait> Desk<'a, R> {
    /// The rows of a span, or none where the transaction has to begin again.
    pub fn rows(&mut self, transaction: &mut Transaction, span: &Span) -> Result<Option<Vec<Row>>>
        ensures { self.new.bank ≡ self.old.bank }
    {
        let bank = self.bank;
        let now = bank.now();
        match bank
            .range
            .read(self.rt, &mut self.client, transaction, span, now)
        {
            Ok(rows) => Ok(Some(rows)),
            Err(RangeFault::TooEarly) => Ok(None),
            Err(fault) => Err(fault.into()),
        }
    }

    /// What an account has, which is nothing where there is none, or none where the transaction has
    /// to begin again.
    pub fn amount(&mut self, transaction: &mut Transaction, key: Key) -> Result<Option<i64>>
        ensures { self.new.bank ≡ self.old.bank }
    {
        match self.rows(transaction, &Span::point(key))? {
            Some(rows) => Ok(Some(accounts::sum_of(&rows)?)),
            None => Ok(None),
        }
    }

    /// Whether a transaction commits, and need not begin again.
    pub fn commit(&mut self, transaction: Transaction) -> Result<bool>
        ensures { self.new.bank ≡ self.old.bank }
    {
        let bank = self.bank;
        let now = bank.now();
        match bank
            .range
            .commit(self.rt, &mut self.client, transaction, now)
        {
            Ok(outcome) => Ok(matches!(outcome, Outcome::Committed(_))),
            Err(refused) => is_over(refused),
        }
    }

    /// A new lease takes over what a summary of a few marks tells.
    pub fn hand_on(&mut self) -> Result<()>
        ensures { self.new.bank ≡ self.old.bank }
    {
        let bank = self.bank;
        let now = bank.now();
        bank.range
            .hand_on(self.rt, &mut self.client, config()?, 8, now)?;
        Ok(())
    }

    /// Drops versions that no transaction which begins now can see.
    pub fn collect_garbage(&mut self)
        ensures { self.new.bank ≡ self.old.bank }
    {
        let bank = self.bank;
        let now = bank.now();
        bank.range.collect_garbage(self.rt, &mut self.client, now);
    }
}

/// A transaction that comes too early has to begin again, and another refusal ends all.
fn is_over(refused: NotCommitted) -> Result<bool> {
    match refused.fault {
        RangeFault::TooEarly => Ok(false),
        fault => Err(fault.into()),
    }
}
