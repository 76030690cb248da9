//! Two clients of a shared range, whose calls succeed with ample memory. No contract says that they
//! do: a body that always answers that it has no memory keeps each of them.
ghost use Rattle.std.specs.Prelude.{◌≡◌, IfOk};

use crate::scenarios::{Text, config, span, time};
use anyhow::{Context, Result, bail, ensure};
use mvcc_range::{Outcome, Transaction, Write};
use mvcc_shared::{Client, Dealer, SharedRange};
use std::alloc::AllocGlobal;
use std::sync::Wait;
use std::test::Fail;
use test_support::{at, words};
use timestamp_cache::{Key, Uuid};

/// The next client, where there is one.
fn deal(range: &SharedRange, dealer: &mut Dealer) -> Result<Client>
    requires { dealer.old.range ≡ range.now }
    ensures dealer { dealer.new.range ≡ dealer.old.range }
    ensures client { IfOk result (λ client. client.range ≡ range.now) }
{
    range.deal(dealer).context("no more clients")
}

/// Reads a key at a time, and tells whether that is refused as the row says.
fn answers<R: Wait + AllocGlobal>(
    rt: &R,
    range: &SharedRange,
    client: &mut Client,
    row: &str,
) -> Result<bool>
    requires { client.old.range ≡ range.now }
    ensures { client.new.range ≡ client.old.range }
{
    let [time_of, key, wanted, ..] = words(row, ' ');
    let mut reader = Transaction::new(rt.alloc(), time(time_of)?, Uuid::from_bytes([1; 16]));
    let span = span(rt.alloc(), key)?;
    let refusal = range.read(rt, client, &mut reader, &span, at(30, 0)).err();
    Ok(Text::of(format_args!("{refusal:?}")).as_str() == wanted)
}

/// Writes a key at a time, and tells whether that commits then.
fn commits<R: Wait + AllocGlobal>(
    rt: &R,
    range: &SharedRange,
    client: &mut Client,
    row: &str,
) -> Result<bool>
    requires { client.old.range ≡ range.now }
    ensures { client.new.range ≡ client.old.range }
{
    let [time_of, key, ..] = words(row, ' ');
    let wanted = time(time_of)?;
    let mut writer = Transaction::new(rt.alloc(), wanted, Uuid::from_bytes([2; 16]));
    let key = Key::new(rt.alloc(), key.as_bytes())?;
    let content = Some(Vec::from_slice(rt.alloc(), b"new")?);
    writer.write(Write { key, content })?;
    match range.commit(rt, client, writer, at(30, 0)) {
        Ok(outcome) => Ok(outcome == Outcome::Committed(wanted)),
        Err(refused) => Err(refused.fault.into()),
    }
}

/// Two clients make each call, and the second one learns what the first one has seen.
fn make_each_call<R: Wait + AllocGlobal>(
    rt: &R,
    range: &SharedRange,
    one: &mut Client,
    two: &mut Client,
) -> Result<()>
    requires one { one.old.range ≡ range.now }
    requires two { two.old.range ≡ range.now }
    ensures one { one.new.range ≡ one.old.range }
    ensures two { two.new.range ≡ two.old.range }
{
    ensure!(answers(rt, range, one, "10 c None")?, "an early read");
    ensure!(
        answers(rt, range, one, "10 z Some(OutOfRange)")?,
        "a read outside"
    );
    ensure!(commits(rt, range, one, "11 c")?, "a commit");
    let front = range.front(one);
    range.learn(two, front);
    ensure!(commits(rt, range, two, "12 d")?, "a commit behind another");
    range.collect_garbage(rt, two, time("20")?);
    ensure!(
        answers(rt, range, one, "19 c Some(TooEarly)")?,
        "a read too early"
    );
    ensure!(answers(rt, range, one, "20 c None")?, "a read in time");
    range.hand_on(rt, one, config("narrow")?, 4, time("30")?)?;
    let long = "30 c-with-more-letters-than-a-narrow-page-takes Some(TooLarge)";
    ensure!(answers(rt, range, two, long)?, "a long key");
    Ok(())
}

/// Two clients are served by a range that has no others, and it is closed.
fn serve_two<R: Wait + AllocGlobal>(rt: &R, range: SharedRange, mut dealer: Dealer) -> Result<()>
    requires { dealer.range ≡ range }
{
    let mut one = deal(&range, &mut dealer)?;
    let mut two = deal(&range, &mut dealer)?;
    ensure!(range.deal(&mut dealer).is_none(), "a third client");
    make_each_call(rt, &range, &mut one, &mut two)?;
    let clients = vec![in rt.alloc(); one, two]?;
    match range.close(dealer, clients) {
        Ok(closed) => ensure!(closed.log.len() == 2, "another log"),
        Err(_still_out) => bail!("a client is missing"),
    }
    Ok(())
}

#[test]
fn two_clients_make_each_call(rt: HostRuntime) -> Result<(), Fail> {
    let span = span(rt.alloc(), "a..g")?;
    let (range, dealer) = SharedRange::open(rt.alloc(), span, config("small")?, 2)?;
    Ok(serve_two(&rt, range, dealer)?)
}
