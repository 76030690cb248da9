//! What a teller does.
ghost use Rattle.std.specs.Prelude.{◌≡◌, IfOk};

use crate::accounts::{self, ALL, CASH, CURRENT, TELLERS};
use crate::bank::{Bank, Desk};
use anyhow::{Result, ensure};
use mvcc_range::Transaction;
use mvcc_shared::Client;
use std::sync::Wait;
use std::thread;

/// How many transactions a teller makes.
pub const OPERATIONS: usize = 60;

/// What tellers did.
#[derive(Clone, Copy)]
pub struct Tally {
    pub committed: u64,
    pub audits: u64,
    /// Audits that found money missing, or too much of it, or a pair that has less than nothing.
    pub wrong: u64,
    pub leases: u64,
    pub collections: u64,
}

impl Tally {
    pub const NOTHING: Tally = Tally {
        committed: 0,
        audits: 0,
        wrong: 0,
        leases: 0,
        collections: 0,
    };

    pub fn plus(self, other: Tally) -> Tally {
        Tally {
            committed: self.committed.saturating_add(other.committed),
            audits: self.audits.saturating_add(other.audits),
            wrong: self.wrong.saturating_add(other.wrong),
            leases: self.leases.saturating_add(other.leases),
            collections: self.collections.saturating_add(other.collections),
        }
    }
}

/// One transaction of a teller.
#[derive(Clone, Copy)]
enum Operation {
    Transfer,
    Audit,
    Withdraw,
    Open,
}

/// A teller: its number, its client, and what it did.
#[derive(Drop)]
pub struct Teller {
    pub number: usize,
    pub client: Client,
    pub tally: Tally,
}

/// A client opens the accounts, with what they have at first.
pub fn open_accounts<R: Wait>(rt: &R, bank: &Bank, client: Client) -> Result<Client>
    requires { client.range ≡ bank.now }
    ensures { IfOk result (λ client. client.range ≡ bank.now) }
{
    let mut desk = Desk { rt, bank, client };
    let mut first = bank.begin();
    for teller in 0..TELLERS {
        bank.put(&mut first, accounts::cash(bank.alloc, teller)?, Some(CASH))?;
        bank.put(
            &mut first,
            accounts::current(bank.alloc, teller)?,
            Some(CURRENT),
        )?;
    }
    ensure!(desk.commit(first)?, "the bank is not opened");
    Ok(desk.client)
}

/// A teller makes its transactions, each until it commits. The first teller hands the lease on in
/// the middle, and the second one has old versions dropped.
pub fn serve<R: Wait>(rt: &R, bank: &Bank, teller: Teller) -> Result<Teller>
    requires { teller.client.range ≡ bank.now }
    ensures { IfOk result (λ teller. teller.client.range ≡ bank.now) }
{
    let Teller {
        number,
        client,
        mut tally,
    } = teller;
    let mut desk = Desk { rt, bank, client };
    for turn in 0..OPERATIONS {
        if turn == OPERATIONS / 2 {
            tally = tally.plus(manage(&mut desk, number)?);
        }
        tally = tally.plus(make(&mut desk, number, turn)?);
    }
    let client = desk.client;
    Ok(Teller {
        number,
        client,
        tally,
    })
}

fn manage<R: Wait>(desk: &mut Desk<'_, R>, teller: usize) -> Result<Tally>
    ensures { desk.new.bank ≡ desk.old.bank }
{
    let mut tally = Tally::NOTHING;
    if teller == 0 {
        desk.hand_on()?;
        tally.leases = 1;
    } else if teller == 1 {
        desk.collect_garbage();
        tally.collections = 1;
    }
    Ok(tally)
}

/// Makes a transaction until it commits.
fn make<R: Wait>(desk: &mut Desk<'_, R>, teller: usize, number: usize) -> Result<Tally>
    ensures { desk.new.bank ≡ desk.old.bank }
{
    let operation = match number % 4 {
        0 => Operation::Transfer,
        1 => Operation::Audit,
        2 => Operation::Withdraw,
        _ => Operation::Open,
    };
    let rt = desk.rt;
    for _ in rt.forever() {
        if let Some(tally) = try_once(desk, teller, operation)? {
            return Ok(tally);
        }
        thread::yield_now();
    }
    unreachable!()
}

/// What came of a transaction that committed.
fn try_once<R: Wait>(
    desk: &mut Desk<'_, R>,
    teller: usize,
    operation: Operation,
) -> Result<Option<Tally>>
    ensures { desk.new.bank ≡ desk.old.bank }
{
    let mut transaction = desk.bank.begin();
    let Some(tally) = operate(desk, teller, operation, &mut transaction)? else {
        return Ok(None);
    };
    thread::yield_now();
    if !desk.commit(transaction)? {
        return Ok(None);
    }
    Ok(Some(Tally {
        committed: 1,
        ..tally
    }))
}

/// What a transaction reads and is to write, or none where it has to begin again.
fn operate<R: Wait>(
    desk: &mut Desk<'_, R>,
    teller: usize,
    operation: Operation,
    transaction: &mut Transaction,
) -> Result<Option<Tally>>
    ensures { desk.new.bank ≡ desk.old.bank }
{
    match operation {
        Operation::Transfer => transfer(desk, teller, transaction),
        Operation::Audit => audit(desk, transaction),
        Operation::Withdraw => withdraw(desk, teller, transaction),
        Operation::Open => open(desk, teller, transaction),
    }
}

/// Moves 10 from a teller's cash to that of the next one.
fn transfer<R: Wait>(
    desk: &mut Desk<'_, R>,
    teller: usize,
    transaction: &mut Transaction,
) -> Result<Option<Tally>>
    ensures { desk.new.bank ≡ desk.old.bank }
{
    let bank = desk.bank;
    let next = teller.wrapping_add(1) % TELLERS;
    let own = desk.amount(transaction, accounts::cash(bank.alloc, teller)?)?;
    thread::yield_now();
    let other = desk.amount(transaction, accounts::cash(bank.alloc, next)?)?;
    let (Some(own), Some(other)) = (own, other) else {
        return Ok(None);
    };
    let (own, other) = (own.saturating_sub(10), other.saturating_add(10));
    bank.put(transaction, accounts::cash(bank.alloc, teller)?, Some(own))?;
    bank.put(transaction, accounts::cash(bank.alloc, next)?, Some(other))?;
    Ok(Some(Tally::NOTHING))
}

/// Adds up all accounts, among them those that others open meanwhile.
fn audit<R: Wait>(desk: &mut Desk<'_, R>, transaction: &mut Transaction) -> Result<Option<Tally>>
    ensures { desk.new.bank ≡ desk.old.bank }
{
    let bank = desk.bank;
    let Some(all) = desk.rows(transaction, &accounts::all(bank.alloc))? else {
        return Ok(None);
    };
    thread::yield_now();
    let first = desk.rows(transaction, &accounts::pair(bank.alloc, 0)?)?;
    let second = desk.rows(transaction, &accounts::pair(bank.alloc, 2)?)?;
    let (Some(first), Some(second)) = (first, second) else {
        return Ok(None);
    };
    let right = accounts::sum_of(&all)? == ALL
        && accounts::sum_of(&first)? >= 0
        && accounts::sum_of(&second)? >= 0;
    Ok(Some(Tally {
        audits: 1,
        wrong: u64::from(!right),
        ..Tally::NOTHING
    }))
}

/// Takes 60 from a teller's current account, where its pair has so much together, or else puts 60
/// there. Two tellers of a pair who both take, each from its own account, would leave less than
/// nothing.
fn withdraw<R: Wait>(
    desk: &mut Desk<'_, R>,
    teller: usize,
    transaction: &mut Transaction,
) -> Result<Option<Tally>>
    ensures { desk.new.bank ≡ desk.old.bank }
{
    let bank = desk.bank;
    let both = desk.rows(transaction, &accounts::pair(bank.alloc, teller)?)?;
    thread::yield_now();
    let own = desk.amount(transaction, accounts::current(bank.alloc, teller)?)?;
    let cash = desk.amount(transaction, accounts::cash(bank.alloc, teller)?)?;
    let (Some(both), Some(own), Some(cash)) = (both, own, cash) else {
        return Ok(None);
    };
    let taken: i64 = if accounts::sum_of(&both)? >= 60 {
        60
    } else {
        -60
    };
    let (own, cash) = (own.saturating_sub(taken), cash.saturating_add(taken));
    bank.put(
        transaction,
        accounts::current(bank.alloc, teller)?,
        Some(own),
    )?;
    bank.put(transaction, accounts::cash(bank.alloc, teller)?, Some(cash))?;
    Ok(Some(Tally::NOTHING))
}

/// Opens an account with 5 from a teller's cash, under a number that tells how many there are; or
/// where there are 5, closes the last one. Two tellers with equal counts would both open under that
/// number.
fn open<R: Wait>(
    desk: &mut Desk<'_, R>,
    teller: usize,
    transaction: &mut Transaction,
) -> Result<Option<Tally>>
    ensures { desk.new.bank ≡ desk.old.bank }
{
    let bank = desk.bank;
    let opened = desk.rows(transaction, &accounts::all_opened(bank.alloc)?)?;
    thread::yield_now();
    let cash = desk.amount(transaction, accounts::cash(bank.alloc, teller)?)?;
    let (Some(opened), Some(cash)) = (opened, cash) else {
        return Ok(None);
    };
    let count = opened.len();
    if count < 5 {
        bank.put(transaction, accounts::opened(bank.alloc, count)?, Some(5))?;
        let cash = cash.saturating_sub(5);
        bank.put(transaction, accounts::cash(bank.alloc, teller)?, Some(cash))?;
    } else {
        bank.put(transaction, accounts::opened(bank.alloc, 4)?, None)?;
        let cash = cash.saturating_add(5);
        bank.put(transaction, accounts::cash(bank.alloc, teller)?, Some(cash))?;
    }
    Ok(Some(Tally::NOTHING))
}
