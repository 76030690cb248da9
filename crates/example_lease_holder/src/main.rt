//! How a store uses the cache: four threads serve a range under a lease. Each runs a transaction
//! that reads some keys, writes one, and reads these keys again. No write of another transaction
//! has come to a time at which it would have changed an answer. It is served twice: over a cache
//! with two copies, and over one in stripes.
#![tactic(auto)]

ghost use Rattle.std.specs.Prelude.{◌≡◌, ℕ, ◌+◌, ◌^◌, ◌<◌, length, All, [], Some, IfOk, OnOk, OnErr, string_bytes, option_map, map};
ghost use Rattle.std.specs.List.{AllZip};
ghost use Rattle.timestamp_cache.specs.Words.{point, BeginsWith};
ghost use Rattle.example_lease_holder.specs.Reads.{HasRead, read_of, since};
ghost use Rattle.example_lease_holder.specs.ReadSeats.{seen_by, cache_of};
ghost use Rattle.example_lease_holder.specs.Plans.{time_at, id_of, HasReadsOf, MayWriteAt};
ghost use Rattle.example_lease_holder.specs.Texts.{time_text, is_owner, reader, reason_text, read_text, wanted_text, pushed_text, write_text};
ghost use Rattle.example_lease_holder.specs.Turns.{IsNew, HasTaken, HasSpoken, HasReported, HasServed, IsLeftOf, WasServed};

mod lease;
mod reads;

use crate::lease::{Held, Latch, Lease, Range, RangeSeat, Wanted, Written};
use crate::reads::{ReadCache, ReadSeat};
use anyhow::{Context, Result};
use std::alloc::{AllocError, Global};
use std::marker::{Brand, PhantomData};
use std::sync::{Mutex, Wait};
use std::thread::Threads;
use std::{fmt, thread};
use timestamp_cache::{Config, Key, NoMemory, Timestamp, Uuid, Value};

/// A key with a time, or with a value.
type Row = (&'static str, u64);

/// A transaction: its name, which keys it reads and when, and which one it wants to write, when and
/// what.
struct Plan {
    name: char,
    reads: &'static [Row],
    write: (&'static str, u64, u64),
}

/// The keys of the range, with what they are at first.
static KEYS: [Row; 4] = [("k", 1), ("m", 2), ("n", 3), ("z", 4)];

/// One for each thread. No key is written by two of them, so that it makes no difference which
/// thread comes first.
static PLANS: [Plan; 4] = [
    Plan {
        name: 'A',
        reads: &[("k", 20), ("m", 12)],
        write: ("n", 30, 31),
    },
    Plan {
        name: 'B',
        reads: &[("k", 18), ("m", 30)],
        write: ("m", 30, 32),
    },
    Plan {
        name: 'C',
        reads: &[("m", 25), ("k", 16)],
        write: ("k", 15, 33),
    },
    Plan {
        name: 'D',
        reads: &[("n", 14), ("k", 12)],
        write: ("z", 5, 34),
    },
];

/// A thread: its seat, its transaction, when that wrote, and what is to be printed.
#[derive(Drop)]
struct Worker<G: Range> {
    me: RangeSeat<G>,
    plan: &'static Plan,
    wrote: Option<Timestamp>,
    reported: Vec<String>,
}

/// What is left of a thread: its seat, its transaction, and when that wrote.
#[derive(Drop)]
struct Served {
    seat: ReadSeat,
    plan: &'static Plan,
    wrote: Option<Timestamp>,
}

/// What all threads do at once.
#[derive(Clone, Copy)]
enum Turn {
    Read,
    Write,
}

/// The time of this wall time and no logical count, or the latest one where that is out of range.
fn at(wall: u64) -> Timestamp
    ensures { result ≡ time_at wall }
{
    Timestamp::new(wall, 0).unwrap_or(Timestamp::MAX)
}

/// A time as it is printed.
#[derive(Clone, Copy)]
struct Shown(Timestamp);

impl fmt::Display for Shown {
    ghost output = { λ shown. Some (time_text shown.0) };

    fn fmt<W: fmt::Write>(&self, f: &mut fmt::Formatter<W>) -> fmt::Result {
        let (wall, logical) = (self.0.wall(), self.0.logical());
        write!(f, "{wall}.{logical}")
    }
}

/// The id of a transaction. Those of other names are other ids.
fn id_of(name: char) -> Uuid
    ensures value { result ≡ id_of name }
    ensures own { (other : ℕ) → other < 2 ^ 32 → id_of other ≡ result → other ≡ name }
{
    Uuid::from_u128(u128::from(u32::from(name)))
}

/// Whether a read is by the transaction of this id.
fn is_by(read: Value, id: Uuid) -> bool
    ensures { result ≡ is_owner read.owner id }
{
    read.owner() == Some(id)
}

/// The transaction that a read is by: the first one that has its id.
fn reader(plans: &[Plan], read: Value) -> Option<&Plan>
    ensures { option_map (λ plan. plan.now) result ≡ reader read.owner plans.now }
{
    for plan in plans {
        if is_by(read, id_of(plan.name)) {
            return Some(plan);
        }
    }
    None
}

/// What a key was read by, as the cache answers.
fn because(alloc: Global, key: &str, read: Value, plans: &[Plan]) -> Result<String, AllocError>
    ensures { IfOk result (λ text. string_bytes text ≡ reason_text key.now read
        (reader read.owner plans.now)) }
{
    let time = Shown(read.time());
    match reader(plans, read) {
        Some(plan) => {
            let name = plan.name;
            format!(in alloc; "\"{key}\" was read at {time} by {name}")
        }
        None => format!(in alloc; "\"{key}\" may have been read up to {time}"),
    }
}

/// The line that tells of a read.
fn read_line(
    alloc: Global,
    name: char,
    key: &str,
    time: Timestamp,
    value: u64,
) -> Result<String, AllocError>
    ensures { IfOk result (λ text. string_bytes text ≡ read_text name key.now time value) }
{
    let time = Shown(time);
    format!(in alloc; "{name} read \"{key}\" at {time}: {value}")
}

/// The line that tells of a write, and of one that was pushed also by what: which of these
/// transactions.
fn write_line(
    alloc: Global,
    plan: &Plan,
    written: Written,
    plans: &[Plan],
) -> Result<String, AllocError>
    ensures { IfOk result (λ text. string_bytes text ≡ write_text plan.now written plans.now) }
{
    if at(plan.write.1) < written.at {
        let why = because(alloc, plan.write.0, written.reason, plans)?;
        pushed(alloc, plan, written.at, &why)
    } else {
        as_wanted(alloc, plan.name, plan.write.0, written.at)
    }
}

/// The line that tells of a write at the time that it wanted.
fn as_wanted(alloc: Global, name: char, key: &str, time: Timestamp) -> Result<String, AllocError>
    ensures { IfOk result (λ text. string_bytes text ≡ wanted_text name key.now time) }
{
    let time = Shown(time);
    format!(in alloc; "{name} wrote \"{key}\" at {time}, as it wanted")
}

/// The line that tells of a write that was pushed to a later time.
fn pushed(alloc: Global, plan: &Plan, to: Timestamp, why: &str) -> Result<String, AllocError>
    ensures { IfOk result (λ text. string_bytes text ≡ pushed_text plan.now to why.now) }
{
    let (from, to) = (Shown(at(plan.write.1)), Shown(to));
    let (name, key) = (plan.name, plan.write.0);
    format!(in alloc; "{name} wanted to write \"{key}\" at {from}, was pushed to {to}: {why}")
}

/// Keeps a line that is to be printed, where there was memory for it.
fn keep(lines: &mut Vec<String>, line: Result<String, AllocError>) -> Result<()>
    ensures kept { OnOk result (length lines.new.items ≡ length lines.old.items + 1) }
    ensures refused { OnErr result (lines.new.items ≡ lines.old.items) }
{
    lines.push(line?)?;
    Ok(())
}

/// Writes the key of a plan, by its transaction, under the latch of that key.
fn write_plan<G: Range, R: Wait>(
    rt: &R,
    lease: &Lease<G>,
    me: &mut RangeSeat<G>,
    plan: &Plan,
) -> Result<Written>
    ensures clear { IfOk result (λ written. MayWriteAt plan.now (seen_by me.new.seat) written.at) }
    ensures seat { BeginsWith (seen_by me.new.seat) (seen_by me.old.seat) }
{
    let (key, wall, value) = plan.write;
    let wanted = Wanted {
        at: at(wall),
        by: id_of(plan.name),
        value,
    };
    lease.write_key(rt, me, key, wanted)
}

impl<G: Range> Worker<G> {
    /// Reads the keys of its transaction, one after another. Each of these reads is then in what
    /// its seat has seen since.
    fn read<R: Wait>(&mut self, rt: &R, alloc: Global, lease: &Lease<G>) -> Result<()>
        ensures added { OnOk result
            (HasReadsOf self.old.plan.now
            (since (seen_by self.old.me.seat) (seen_by self.new.me.seat))) }
        ensures reported { OnOk result
            (length self.new.reported.items ≡ length self.old.reported.items + length
            self.old.plan.now.reads.now) }
        ensures seat { BeginsWith (seen_by self.new.me.seat) (seen_by self.old.me.seat) }
        ensures plan { self.new.plan ≡ self.old.plan }
        ensures wrote { self.new.wrote ≡ self.old.wrote }
    {
        let plan = self.plan;
        for row in plan.reads {
            self.read_key(rt, alloc, lease, plan.name, row)?;
        }
        Ok(())
    }

    /// Reads the key of a row at its time, and tells what it is then. It is told once the read was
    /// added, and not where that was refused.
    fn read_key<R: Wait>(
        &mut self,
        rt: &R,
        alloc: Global,
        lease: &Lease<G>,
        name: char,
        row: &Row,
    ) -> Result<()>
        ensures added { OnOk result
            (HasRead (point row.now.0.now)
            (since (seen_by self.old.me.seat) (seen_by self.new.me.seat))
            (read_of (time_at row.now.1) (id_of name))) }
        ensures reported { OnOk result (length self.new.reported.items ≡ length
            self.old.reported.items + 1) }
        ensures refused { OnErr result (self.new.reported.items ≡ self.old.reported.items) }
        ensures seat { BeginsWith (seen_by self.new.me.seat) (seen_by self.old.me.seat) }
        ensures plan { self.new.plan ≡ self.old.plan }
        ensures wrote { self.new.wrote ≡ self.old.wrote }
    {
        let (key, wall) = *row;
        let time = at(wall);
        let value = lease.read_key(rt, &mut self.me, key, time, id_of(name))?;
        keep(&mut self.reported, read_line(alloc, name, key, time, value))
    }

    /// Writes the key of its transaction, and tells at which time: not before the wanted one, and
    /// clear of each read of that key that its seat has seen then, among them all that were
    /// answered under the latch (`Lease::write`).
    fn write<R: Wait>(&mut self, rt: &R, alloc: Global, lease: &Lease<G>) -> Result<Timestamp>
        ensures clear { IfOk result
            (λ time. MayWriteAt self.old.plan.now (seen_by self.new.me.seat) time) }
        ensures reported { OnOk result (length self.new.reported.items ≡ length
            self.old.reported.items + 1) }
        ensures seat { BeginsWith (seen_by self.new.me.seat) (seen_by self.old.me.seat) }
        ensures plan { self.new.plan ≡ self.old.plan }
        ensures wrote { IfOk result (λ time. self.new.wrote ≡ Some time) }
    {
        let plan = self.plan;
        let written = write_plan(rt, lease, &mut self.me, plan)?;
        let time = written.at;
        keep(&mut self.reported, write_line(alloc, plan, written, &PLANS))?;
        self.wrote = Some(time);
        Ok(time)
    }

    /// Prints what it has to tell.
    fn report<R: Print>(&mut self, rt: &R) -> Result<()>
        ensures reported { OnOk result (self.new.reported.items ≡ []) }
        ensures same { (self.new.me ≡ self.old.me) × (self.new.plan ≡ self.old.plan) ×
            (self.new.wrote ≡ self.old.wrote) }
    {
        for line in &self.reported {
            println!(rt; "{line}")?;
        }
        self.reported.clear();
        Ok(())
    }
}

/// Has a thread take its turn.
fn take<G: Range, R: Wait>(
    rt: &R,
    alloc: Global,
    lease: &Lease<G>,
    mut worker: Worker<G>,
    turn: Turn,
) -> Result<Worker<G>>
    ensures { IfOk result (λ after. HasTaken turn worker after) }
{
    match turn {
        Turn::Read => worker.read(rt, alloc, lease)?,
        Turn::Write => {
            worker.write(rt, alloc, lease)?;
        }
    }
    Ok(worker)
}

/// Has all threads take a turn at once.
fn all_take<G: Range + Send + Sync, R: Threads + Wait + Sync>(
    rt: &R,
    alloc: Global,
    lease: &Lease<G>,
    workers: Vec<Worker<G>>,
    turn: Turn,
) -> Result<Vec<Result<Worker<G>>>, AllocError>
    ensures { IfOk result (λ ended. AllZip (λ worker end. IfOk end (HasTaken turn worker))
        workers.items ended.items) }
{
    thread::map_vec(
        rt,
        workers,
        &|worker: Worker<G>| take(rt, alloc, lease, worker, turn),
    )
}

/// Has all threads print what they have to tell, in their order, where each came through its turn.
fn all_report<G: Range, R: Print>(
    rt: &R,
    alloc: Global,
    ended: Vec<Result<Worker<G>>>,
) -> Result<Vec<Worker<G>>>
    ensures { IfOk result (λ after. AllZip HasSpoken ended.items after.items) }
{
    let mut after = Vec::new(alloc);
    for worker in ended {
        let mut worker = worker?;
        worker.report(rt)?;
        after.push(worker)?;
    }
    Ok(after)
}

/// Has all threads take a turn at once, and prints what they tell, in their order.
fn all_do<G: Range + Send + Sync, R: Threads + Wait + Sync + Print>(
    rt: &R,
    alloc: Global,
    lease: &Lease<G>,
    workers: Vec<Worker<G>>,
    turn: Turn,
) -> Result<Vec<Worker<G>>>
    ensures { IfOk result (λ after. AllZip (HasReported turn) workers.items after.items) }
{
    let ended = all_take(rt, alloc, lease, workers, turn)?;
    all_report(rt, alloc, ended)
}

/// The seats in their order, by a type that shows whose they are.
fn seats_of<G: Range>(alloc: Global, seats: Vec<ReadSeat>) -> Result<Vec<RangeSeat<G>>, NoMemory>
    requires { All (λ seat. cache_of seat ≡ G.cache) seats.items }
    ensures { IfOk result (λ own. map (λ one. one.seat) own.items ≡ seats.items) }
{
    let mut own = Vec::new(alloc);
    for seat in seats {
        own.push(RangeSeat {
            seat,
            of: PhantomData,
        })?;
    }
    Ok(own)
}

/// A key with its value from the beginning of time on, under a latch that has a seat of these.
fn latch_of<G: Range>(alloc: Global, row: &Row, seats: &mut Vec<RangeSeat<G>>) -> Result<Latch<G>>
    ensures { IfOk result (λ latch. latch.key.now ≡ row.now.0.now) }
{
    let (key, value) = *row;
    let handed = seats.pop().context("no seat")?;
    let held = Mutex::new(Held::new(alloc, key, value, handed)?);
    Ok(Latch { key, held })
}

/// A latch for each key, in their order.
fn latches_of<G: Range>(
    alloc: Global,
    keys: &[Row],
    seats: &mut Vec<RangeSeat<G>>,
) -> Result<Vec<Latch<G>>>
    ensures { IfOk result (λ latches. AllZip (λ row latch. latch.key.now ≡ row.0.now) keys.now
        latches.items) }
{
    let mut latches = Vec::new(alloc);
    for row in keys {
        let latch = latch_of(alloc, row, seats)?;
        latches.push(latch)?;
    }
    Ok(latches)
}

/// A thread for a plan, with a seat of these. It has written nothing yet, and has nothing to tell.
fn worker_of<G: Range>(
    alloc: Global,
    plan: &'static Plan,
    seats: &mut Vec<RangeSeat<G>>,
) -> Result<Worker<G>>
    ensures { IfOk result (λ worker. IsNew plan.now worker) }
{
    let (me, reported) = (seats.pop().context("no seat")?, Vec::new(alloc));
    Ok(Worker {
        me,
        plan,
        wrote: None,
        reported,
    })
}

/// A thread for each plan, in their order.
fn workers_of<G: Range>(
    alloc: Global,
    plans: &'static [Plan],
    seats: &mut Vec<RangeSeat<G>>,
) -> Result<Vec<Worker<G>>>
    ensures { IfOk result (λ workers. AllZip IsNew plans.now workers.items) }
{
    let mut workers = Vec::new(alloc);
    for plan in plans {
        let worker = worker_of(alloc, plan, seats)?;
        workers.push(worker)?;
    }
    Ok(workers)
}

/// Has all threads read, write, and read again.
fn take_turns<G: Range + Send + Sync, R: Threads + Wait + Sync + Print>(
    rt: &R,
    alloc: Global,
    lease: &Lease<G>,
    workers: Vec<Worker<G>>,
) -> Result<Vec<Worker<G>>>
    ensures { IfOk result (λ after. AllZip HasServed workers.items after.items) }
{
    let first = all_do(rt, alloc, lease, workers, Turn::Read)?;
    let then = all_do(rt, alloc, lease, first, Turn::Write)?;
    all_do(rt, alloc, lease, then, Turn::Read)
}

/// The threads are over: what is left of each.
fn left_of<G: Range>(alloc: Global, workers: Vec<Worker<G>>) -> Result<Vec<Served>>
    ensures { IfOk result (λ left. AllZip IsLeftOf workers.items left.items) }
{
    let mut left = Vec::new(alloc);
    for worker in workers {
        let Worker {
            me,
            plan,
            wrote,
            reported: _,
        } = worker;
        let seat = me.seat;
        left.push(Served { seat, plan, wrote })?;
    }
    Ok(left)
}

/// Serves the range: a latch for each key, and a thread for each plan, which reads, writes, and
/// reads again.
fn serve<G: Range + Send + Sync, R: Threads + Wait + Sync + Print>(
    rt: &R,
    alloc: Global,
    cache: ReadCache,
    seats: Vec<ReadSeat>,
    plans: &'static [Plan],
) -> Result<Vec<Served>>
    requires cache { cache ≡ G.cache }
    requires seats { All (λ seat. cache_of seat ≡ G.cache) seats.items }
    ensures { IfOk result (λ left. AllZip WasServed plans.now left.items) }
{
    let mut seats = seats_of::<G>(alloc, seats)?;
    let latches = latches_of(alloc, &KEYS, &mut seats)?;
    let lease = Lease { cache, latches };
    serve_under(rt, alloc, &lease, plans, &mut seats)
}

/// Serves a range under its lease: a thread for each plan, with a seat of these, which reads,
/// writes, and reads again.
fn serve_under<G: Range + Send + Sync, R: Threads + Wait + Sync + Print>(
    rt: &R,
    alloc: Global,
    lease: &Lease<G>,
    plans: &'static [Plan],
    seats: &mut Vec<RangeSeat<G>>,
) -> Result<Vec<Served>>
    ensures { IfOk result (λ left. AllZip WasServed plans.now left.items) }
{
    let workers = workers_of(alloc, plans, seats)?;
    let again = take_turns(rt, alloc, lease, workers)?;
    left_of(alloc, again)
}

/// How the range's cache is set up: the lease begins at 10, and nothing is known of reads before.
fn config() -> Result<Config>
    ensures { IfOk result (λ config. config.low_water ≡ time_at 10) }
{
    Ok(Config::new(1 << 17, 1 << 25, 2, 10_000_000_000, at(10))?)
}

/// Which form of cache a range has.
#[derive(Clone, Copy)]
enum Form {
    Copies,
    Stripes,
}

/// A cache of a form, with so many seats. In stripes each key of the range has one of its own.
fn open(alloc: Global, form: Form, seats: u32) -> Result<(ReadCache, Vec<ReadSeat>)>
    ensures { IfOk result (λ opened. All (λ seat. cache_of seat ≡ opened.0) opened.1.items) }
{
    match form {
        Form::Copies => ReadCache::open_copies(alloc, config()?, seats),
        Form::Stripes => {
            let mut bounds = Vec::new(alloc);
            for (key, _) in &KEYS[1..] {
                bounds.push(Key::new(alloc, key.as_bytes())?)?;
            }
            ReadCache::open_stripes(alloc, config()?, bounds, seats)
        }
    }
}

/// Opens a cache for the range, with a seat for each key and for each plan, and has each plan
/// served.
fn run<R: Threads + Wait + Sync + Print>(
    rt: &R,
    alloc: Global,
    form: Form,
    plans: &'static [Plan],
) -> Result<Vec<Served>>
    ensures { IfOk result (λ left. AllZip WasServed plans.now left.items) }
{
    let count = u32::try_from(plans.len().saturating_add(KEYS.len()))?;
    let (cache, seats) = open(alloc, form, count)?;
    serve::<Brand, R>(rt, alloc, cache, seats, plans)
}

/// A `main` can have no clause: `run` says what comes of the plans.
fn main(rt: HostRuntime) -> Result<()> {
    println!(rt; "Over two copies:")?;
    let _copies = run(&rt, rt.alloc(), Form::Copies, &PLANS)?;
    println!(rt; "In stripes:")?;
    let _stripes = run(&rt, rt.alloc(), Form::Stripes, &PLANS)?;
    Ok(())
}
