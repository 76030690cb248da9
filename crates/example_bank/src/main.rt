//! A bank on a range that threads share. Four tellers move money, and audit the accounts, while the
//! lease is handed on and old versions are dropped. In the end the log of all transactions that
//! committed is executed once more, one after another in the order of their times.
#![tactic(auto)]

ghost use Rattle.std.specs.Prelude.{◌≡◌, All, IfOk};

mod accounts;
mod bank;
mod claims;
mod replay;
mod tellers;

use crate::accounts::{ALL, TELLERS};
use crate::bank::Bank;
use crate::claims::{Claim, claim_both};
use crate::replay::{Replayed, replay};
use crate::tellers::{OPERATIONS, Tally, Teller, open_accounts, serve};
use anyhow::{Context, Result, ensure};
use mvcc_shared::{Client, Closed, Dealer};
use std::alloc::{AllocError, Global};
use std::sync::Wait;
use std::thread;
use std::thread::Threads;
use timestamp_cache::{Key, Span, Timestamp, Uuid};

/// A teller for each number, who has done nothing yet.
fn hire_all(alloc: Global, bank: &Bank, dealer: &mut Dealer) -> Result<Vec<Teller>>
    requires { dealer.old.range ≡ bank.now }
    ensures dealer { dealer.new.range ≡ dealer.old.range }
    ensures tellers { IfOk result (λ tellers. All (λ teller. teller.client.range ≡ bank.now)
        tellers.items) }
{
    let mut tellers = Vec::new(alloc);
    for number in 0..TELLERS {
        tellers.push(Teller {
            number,
            client: bank.deal(dealer)?,
            tally: Tally::NOTHING,
        })?;
    }
    Ok(tellers)
}

/// Has each teller serve on a thread of its own.
fn serve_all<R: Threads + Wait + Sync>(
    rt: &R,
    bank: &Bank,
    tellers: Vec<Teller>,
) -> Result<Vec<Result<Teller>>, AllocError>
    requires { All (λ teller. teller.client.range ≡ bank.now) tellers.items }
    ensures { IfOk result (λ ended. All (λ end. IfOk end (λ teller. teller.client.range ≡ bank.now))
        ended.items) }
{
    thread::map_vec(
        rt,
        tellers,
        &|teller: Teller| -> Result<Teller>
            requires { teller.client.range ≡ bank.now }
            ensures { IfOk result (λ teller. teller.client.range ≡ bank.entry.now) }
        { serve(rt, bank, teller) },
    )
}

/// What all tellers did, and their clients.
fn gather(alloc: Global, bank: &Bank, ended: Vec<Result<Teller>>) -> Result<(Tally, Vec<Client>)>
    requires { All (λ end. IfOk end (λ teller. teller.client.range ≡ bank.now)) ended.items }
    ensures { IfOk result (λ gathered. All (λ client. client.range ≡ bank.now)
        gathered.1.items) }
{
    let (mut all, mut clients) = (Tally::NOTHING, Vec::new(alloc));
    for end in ended {
        let teller = end?;
        all = all.plus(teller.tally);
        clients.push(teller.client)?;
    }
    Ok((all, clients))
}

/// Opens the bank, has all tellers serve, and closes it.
fn run<R: Threads + Wait + Sync>(rt: &R, alloc: Global) -> Result<(Tally, Closed)> {
    let (bank, mut dealer) = Bank::open(alloc)?;
    let clerk = open_accounts(rt, &bank, bank.deal(&mut dealer)?)?;
    let tellers = hire_all(alloc, &bank, &mut dealer)?;
    let ended = serve_all(rt, &bank, tellers)?;
    let (tally, mut clients) = gather(alloc, &bank, ended)?;
    clients.push(clerk)?;
    Ok((tally, bank.close(dealer, clients)?))
}

/// The key of whoever keeps watch, which is to be put at one time by each of them.
fn watch_of(alloc: Global, name: &[u8], id: u128) -> Result<Claim> {
    Ok(Claim {
        key: Key::new(alloc, name)?,
        value: Vec::from_slice(alloc, b"on watch")?,
        at: Timestamp::new(20, 0).context("no such time")?,
        by: Uuid::from_u128(id),
    })
}

/// Two tellers who both find that nobody keeps watch put themselves down, and which of them
/// commits.
fn keep_watch<R: Wait>(rt: &R, alloc: Global) -> Result<(bool, bool)> {
    let watch = Span::of(Key::new(alloc, b"watch/")?, Key::new(alloc, b"watch0")?)?;
    let first = watch_of(alloc, b"watch/alice", 1)?;
    let second = watch_of(alloc, b"watch/bob", 2)?;
    claim_both(rt, alloc, &watch, first, second)
}

fn main(rt: HostRuntime) -> Result<()> {
    let (tally, closed) = run(&rt, rt.alloc())?;
    println!(rt;
        "{TELLERS} tellers made {OPERATIONS} transactions each: {}",
        tally.committed
    )?;
    println!(rt;
        "{} audits, of which {} did not find {ALL}",
        tally.audits, tally.wrong
    )?;
    println!(rt;
        "leases handed on: {}, collections: {}",
        tally.leases, tally.collections
    )?;

    let Replayed { serial, left } = replay(rt.alloc(), &closed.log)?;
    ensure!(
        serial,
        "a transaction did not read what is there when its turn comes"
    );
    println!(rt;
        "executed in the order of their times, {} read what they read",
        closed.log.len()
    )?;
    let without = replay(rt.alloc(), closed.log.get(1..).unwrap_or_default())?;
    println!(rt; "without the first of them they would: {}", without.serial)?;
    ensure!(
        left.is_in(closed.range)?,
        "the range has other rows than they leave"
    );
    println!(rt;
        "they leave what the range has, which is {} in all",
        left.sum()
    )?;
    let (alice, bob) = keep_watch(&rt, rt.alloc())?;
    println!(rt; "of two who found nobody on watch, Alice is: {alice}, and Bob: {bob}")?;
    Ok(())
}
