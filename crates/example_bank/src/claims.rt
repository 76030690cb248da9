//! Clients that scan one span, and of which each then puts a key of it if it found nothing there.
//! Two of them never both commit.
ghost use Rattle.std.specs.Prelude.{◌≡◌, ◌&&◌, [], false, IfOk};
ghost use Rattle.example_bank.specs.Claims.{committed, has_committed, IsForTwo, StaysAt};
ghost use Rattle.example_bank.specs.Claims.{MayClaim, HasClaimed};

use crate::bank::config;
use anyhow::{Context, Result, bail};
use mvcc_range::{Outcome, Transaction, Write};
use mvcc_shared::{Client, Dealer, SharedRange, laws};
use std::alloc::Global;
use std::sync::Wait;
use timestamp_cache::{Key, Span, Timestamp, Uuid};

/// A key that is to be put, and when and by which transaction.
#[derive(Drop)]
pub struct Claim {
    pub key: Key,
    pub value: Vec<u8>,
    pub at: Timestamp,
    pub by: Uuid,
}

/// A new range, its dealer, and two clients, which are all that it has.
#[derive(Drop)]
pub struct ForTwo {
    pub range: SharedRange,
    pub dealer: Dealer,
    pub one: Client,
    pub two: Client,
}

/// A client that has scanned a span, and whether nothing is there.
#[derive(Drop)]
pub struct Claimant {
    pub client: Client,
    pub transaction: Transaction,
    pub free: bool,
}

/// A client whose claim has ended, and whether it committed.
#[derive(Drop)]
pub struct Claimed {
    pub client: Client,
    pub done: bool,
}

impl ForTwo {
    /// A range of all keys.
    fn open(alloc: Global) -> Result<ForTwo>
        ensures { IfOk result IsForTwo }
    {
        let (range, mut dealer) = SharedRange::open(alloc, Span::all(alloc), config()?, 2)?;
        let one = range.deal(&mut dealer).context("no client")?;
        let two = range.deal(&mut dealer).context("no client")?;
        Ok(ForTwo {
            range,
            dealer,
            one,
            two,
        })
    }
}

fn has_committed(outcome: &Outcome) -> bool
    ensures { result ≡ has_committed outcome.now }
{
    matches!(outcome, Outcome::Committed(_))
}

/// Scans a span, and tells whether nothing is there.
fn look<R: Wait>(
    rt: &R,
    range: &SharedRange,
    span: &Span,
    mut client: Client,
    mut transaction: Transaction,
) -> Result<Claimant>
    requires range { client.range ≡ range.now }
    requires none { committed client ≡ [] }
    requires new { transaction.writes ≡ [] }
    ensures { IfOk result (λ who. StaysAt client who.client × MayClaim span.now who) }
{
    let now = transaction.time();
    let rows = range.read(rt, &mut client, &mut transaction, span, now)?;
    let free = rows.is_empty();
    Ok(Claimant {
        client,
        transaction,
        free,
    })
}

/// Puts a key of a span where nothing was found there, and tells whether that committed.
fn put<R: Wait>(
    rt: &R,
    range: &SharedRange,
    span: &Span,
    who: Claimant,
    key: Key,
    value: Vec<u8>,
) -> Result<Claimed>
    requires range { who.client.range ≡ range.now }
    requires may { MayClaim span.now who }
    ensures { IfOk result (λ claimed. StaysAt who.client claimed.client
        × HasClaimed span.now claimed.client claimed.done) }
{
    let Claimant {
        mut client,
        mut transaction,
        free,
    } = who;
    if !free || !span.covers(key.bytes()) {
        let done = false;
        return Ok(Claimed { client, done });
    }
    let content = Some(value);
    transaction.write(Write { key, content })?;
    let now = transaction.time();
    match range.commit(rt, &mut client, transaction, now) {
        Ok(outcome) => {
            let done = has_committed(&outcome);
            Ok(Claimed { client, done })
        }
        Err(refused) => Err(refused.fault.into()),
    }
}

/// Two clients of a new range scan a span, and then each puts a key of it if it found nothing
/// there. Whatever the keys, the times and the ids are, they never both commit.
pub fn claim_both<R: Wait>(
    rt: &R,
    alloc: Global,
    span: &Span,
    first: Claim,
    second: Claim,
) -> Result<(bool, bool)>
    ensures { IfOk result (λ done. (done.0 && done.1) ≡ false) }
{
    let ForTwo {
        range,
        dealer,
        one,
        two,
    } = ForTwo::open(alloc)?;
    let transaction = Transaction::new(alloc, first.at, first.by);
    let alice = look(rt, &range, span, one, transaction)?;
    let transaction = Transaction::new(alloc, second.at, second.by);
    let bob = look(rt, &range, span, two, transaction)?;
    let alice = put(rt, &range, span, alice, first.key, first.value)?;
    let bob = put(rt, &range, span, bob, second.key, second.value)?;
    let clients = vec![in alloc; alice.client, bob.client]?;
    laws::no_write_skew();
    match range.close(dealer, clients) {
        Ok(_closed) => Ok((alice.done, bob.done)),
        Err(_still_out) => bail!("a client is missing"),
    }
}
