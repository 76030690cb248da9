//! Seats of a shared cache as a table of rows, in the language of `test_support`.
//!
//! A row of the second seat begins with `seat 1`, and one that names no seat is of the first. A
//! case begins with `open`. Beside the calls of all tables there are:
//!
//! | Row | What is done, or shown |
//! |---|---|
//! | `by gate = done` | Later Adds have a gate; `by plain`, or `by 7`, which tries 7 times. |
//! | `once = done` | Later calls are made once alone, also where memory is refused. |
//! | `see = 1` | How many Adds a lookup has seen. |
//! | `gated = 1` | The gate was told of one Add. |
//! | `fill 9 = 1 0 0`, `often [a] 40 = 1 0 0` | A batch of numbers; 40 Adds of a key. |
//! | `report [a,z) 9 = 3` | A seat tells of a span in 9 marks, which a new cache takes over. |
//! | `next [a] = 20.0 A` | What that cache answers. |
//! | `keep = 3`, `kept [a] = 20.0 A` | A seat keeps a snapshot, and what that answers then. |
//! | `held 9 20.0 [a] 20.0 A = done` | The scenes of `scenes.rt`, with their rounds. |
ghost use Rattle.std.specs.Prelude.{◌≡◌, All, IfOk};
ghost use Rattle.tsc_shared.specs.Answers.{Opens};

use crate::guest::{By, Guest, guests_of};
use crate::scenes::{self, Scene};
use crate::watch::Watch;
use std::alloc::{AllocError, Global};
use std::mem;
use std::process::Abort;
use std::sync::Wait;
use std::sync::atomic::AtomicU64;
use std::sync::atomic::Ordering::SeqCst;
use std::test::Fail;
use std::thread::Threads;
use test_support::rows::{Refusal, Reported, SpanBytes, of_config, span, span_bytes, time};
use test_support::{
    Table, again_reported, at, marks, opening, reported, reported_added, reported_value, written,
};
use timestamp_cache::apply;
use tsc_cache::{Added, Cache, Config, Figures, Mark, TimestampCache};
use tsc_shared::{OpenFault, Seat, SharedCache, Snapshot};
use tsc_span::{Key, Span, SpanRef};
use tsc_time::{Timestamp, Value};
use uuid::Uuid;

/// Seats at their cache.
#[derive(Drop)]
struct Stage<'a, R> {
    rt: &'a R,
    alloc: Global,
    guests: Vec<Guest<'a>>,
    gate: Watch,
    by: By,
    is_once: bool,
    /// The seat that makes the next call.
    seat: usize,
    /// The cache that took over what a seat told.
    next: Option<Cache>,
    kept: Option<Snapshot>,
}

impl<'a, R> Stage<'a, R> {
    fn guest(&mut self) -> Reported<&mut Guest<'a>> {
        self.guests.get_mut(self.seat).ok_or(Refusal::NoRow)
    }

    /// What a call gives, which is made again where it is refused memory.
    fn once<T: Drop>(&self, reported: Reported<T>) -> Reported<T> {
        match reported {
            Err(Refusal::Memory) if self.is_once => Err(Refusal::NoMemory),
            reported => reported,
        }
    }

    /// A seat tells of a span, and a new cache takes that over.
    fn report(&mut self, text: &str, most: usize) -> Reported<u64> {
        let alloc = self.alloc;
        let span = span(alloc, text)?;
        let reported = self.guest()?.report(alloc, &span, most)?;
        let config = Config::new(132, 132, 2, 10, at(5, 0)).map_err(of_config)?;
        let mut next = Cache::new(alloc, config).map_err(|_| Refusal::NoMemory)?;
        apply(&mut next, &reported.summary, at(50, 0)).map_err(|_| Refusal::NoMemory)?;
        self.next = Some(next);
        Ok(reported.front)
    }

    /// A seat keeps the cache as it sees it.
    fn keep(&mut self) -> Reported<u64> {
        let snapshot = self.guest()?.snapshot()?;
        let front = snapshot.front;
        self.kept = Some(snapshot);
        Ok(front)
    }

    /// How many Adds a lookup of the floor has seen.
    fn see(&mut self) -> Reported<u64> {
        let guest = self.guest()?;
        guest.low()?;
        Ok(guest.seen())
    }
}

impl<R: Wait> Stage<'_, R> {
    /// A batch of the numbers below an end.
    fn fill(&mut self, end: u32) -> Reported<Added> {
        let mut marks = Vec::new(self.alloc);
        for number in 0..end {
            let key = Key::new(self.alloc, &number.to_be_bytes()).map_err(|_| Refusal::NoMemory)?;
            marks.push(Mark {
                span: Span::point(key),
                value: Value::unowned(at(20, number % 7)),
            })?;
        }
        self.add_all(&marks, at(20, 0))
    }

    /// Adds of a key, and what came of the last one.
    fn add_often(&mut self, text: &str, count: u64) -> Reported<Added> {
        let bytes = span_bytes(self.alloc, text)?;
        let mut mark = Mark {
            span: bytes.span(self.alloc)?,
            value: Value::unowned(at(20, 0)),
        };
        let mut added = Err(Refusal::NoRow);
        for round in 0..count {
            mark.value = Value::unowned(at(round.saturating_add(21), 0));
            added = Ok(self.add(&bytes, &mark, at(20, 0))?);
        }
        added
    }
}

impl<R: Threads + Wait + Abort + Sync> Stage<'_, R> {
    /// Plays a row that is a scene.
    fn play_row(&mut self, row: &str) -> Result<(), Fail> {
        let (call, _done) = row.split_once(" = done").ok_or("a scene is done")?;
        let mut words = Vec::new(self.alloc);
        for word in call.split(' ') {
            words.push(word)?;
        }
        self.play_words(&words)?;
        Ok(())
    }

    /// Plays the scene that some words name.
    fn play_words(&mut self, words: &[&str]) -> Reported<()> {
        match *words {
            [name @ ("held" | "stopped"), rounds, now, ref words @ ..] => {
                let marks = marks(self.alloc, words)?;
                self.play_scene(name, rounds.parse()?, time(now)?, marks)
            }
            [name @ ("crowd" | "returned"), rounds] => {
                let none = Vec::new(self.alloc);
                self.play_scene(name, rounds.parse()?, Timestamp::ZERO, none)
            }
            _ => Err(Refusal::NoRow),
        }
    }

    /// All seats play a scene. Want of a thread ends all.
    fn play_scene(
        &mut self,
        name: &str,
        rounds: u64,
        now: Timestamp,
        marks: Vec<Mark>,
    ) -> Reported<()> {
        let (seats, is_held) = (self.guests.len() as u64, !marks.is_empty());
        let mut places = Vec::new(self.alloc);
        for _ in 0..if is_held {
            0
        } else {
            seats.saturating_mul(rounds)
        } {
            places.push(AtomicU64::new(0))?;
        }
        let guest = self.guest()?;
        let scene = Scene {
            name,
            rounds,
            seats,
            marks,
            now,
            before: (guest.get(&SpanRef::point(b"a"))?, guest.low()?),
            gate: Watch::new(if is_held { seats.saturating_sub(1) } else { 0 }),
            count: AtomicU64::new(0),
            places,
        };
        let guests = mem::replace(&mut self.guests, Vec::new(self.alloc));
        self.guests = scenes::play(self.rt, self.alloc, &scene, guests)?;
        if is_held && !scene.gate.met.load(SeqCst) {
            return Err(Refusal::NoThread);
        }
        let is_reported = |place: &AtomicU64| place.load(SeqCst) != 0;
        let count = scene
            .places
            .iter()
            .filter(|place| is_reported(place))
            .count();
        let has_gap = !scene.places.iter().take(count).all(is_reported);
        if has_gap { Err(Refusal::NoRow) } else { Ok(()) }
    }
}

impl<R: Wait> Table for Stage<'_, R> {
    fn plays(&self, _kind: &str) -> bool {
        true
    }

    fn sit(&mut self, seat: &str) -> Reported<()> {
        self.seat = if seat.is_empty() { 0 } else { seat.parse()? };
        Ok(())
    }

    fn open(&mut self, _config: Config, _limit: u64) -> Reported<()> {
        Err(Refusal::NoRow)
    }

    fn add(&mut self, _bytes: &SpanBytes, mark: &Mark, now: Timestamp) -> Reported<Added> {
        let guest = self.guests.get_mut(self.seat).ok_or(Refusal::NoRow)?;
        let made = guest.add_mark(self.rt, mark, now, (self.by, &self.gate));
        Ok(self.once(made)?.1)
    }

    fn add_all(&mut self, marks: &[Mark], now: Timestamp) -> Reported<Added> {
        let guest = self.guests.get_mut(self.seat).ok_or(Refusal::NoRow)?;
        let made = guest.add_marks(self.rt, marks, now, (self.by, &self.gate));
        Ok(self.once(made)?.1)
    }

    fn get(&mut self, bytes: &SpanBytes) -> Reported<Value> {
        self.guest()?.get(&bytes.looked_up())
    }

    fn low(&mut self) -> Reported<Timestamp> {
        self.guest()?.low()
    }

    fn figures(&mut self) -> Reported<Figures> {
        self.guest()?.figures()
    }

    fn earliest(&mut self, spans: &[Span], at: Timestamp, by: Uuid) -> Reported<Option<Timestamp>> {
        self.guest()?.earliest(spans, at, by)
    }

    fn may(&mut self, spans: &[Span], at: Timestamp, by: Uuid) -> Reported<bool> {
        let mut all = true;
        for span in spans {
            all &= self.guest()?.may(span, at, by)?;
        }
        Ok(all)
    }

    fn call(&mut self, words: &[&str]) -> Reported<String> {
        let alloc = self.alloc;
        match *words {
            ["by", how] => self.by = By::of(how)?,
            ["once"] => self.is_once = true,
            ["fill", end] => return reported_added(alloc, self.fill(end.parse()?)?),
            ["often", text, count] => {
                return reported_added(alloc, self.add_often(text, count.parse()?)?);
            }
            ["see"] => return written(alloc, self.see()?),
            ["gated"] => return written(alloc, self.gate.reported()),
            ["tell", text, most] => {
                let most = most.parse()?;
                return written(alloc, again_reported!(self.report(text, most))?);
            }
            ["keep"] => return written(alloc, again_reported!(self.keep())?),
            ["next", text] => {
                let next = self.next.as_ref().ok_or(Refusal::NoRow)?;
                return reported_value(alloc, next.get_max(&span(alloc, text)?));
            }
            ["kept", text] => {
                let kept = self.kept.as_ref().ok_or(Refusal::NoRow)?;
                return reported_value(alloc, kept.cache.get_max(&span(alloc, text)?));
            }
            _ => return Err(Refusal::NoRow),
        }
        reported(alloc, "done")
    }
}

/// Whether a row is a scene, which all seats play at one time.
fn is_scene(row: &str) -> bool {
    matches!(
        row.split(' ').next(),
        Some("held" | "stopped" | "crowd" | "returned")
    )
}

/// Opens a cache, once more where it is refused memory.
fn open(
    alloc: Global,
    config: Config,
    seats: u32,
    limit: u64,
) -> Result<(SharedCache, Vec<Seat>), OpenFault>
    ensures { IfOk result (λ opened. Opens config seats limit opened.0 opened.1.items) }
{
    match SharedCache::open(alloc, config, seats, limit) {
        Err(OpenFault::NoMemory) => SharedCache::open(alloc, config, seats, limit),
        opened => opened,
    }
}

/// Plays the rows of a case behind its opening, on the cache that was opened.
fn play_case<R: Threads + Wait + Abort + Sync>(
    rt: &R,
    alloc: Global,
    cache: &SharedCache,
    seats: Vec<Seat>,
    rows: &str,
) -> Result<(), Fail>
    requires { All (λ seat. seat.cache ≡ cache.now) seats.items }
{
    let mut stage = Stage {
        rt,
        alloc,
        guests: guests_of(alloc, cache, seats)?,
        gate: Watch::new(0),
        by: By::Plain,
        is_once: false,
        seat: 0,
        next: None,
        kept: None,
    };
    for row in rows.lines() {
        if is_scene(row) {
            stage.play_row(row)?;
        } else {
            test_support::play(alloc, &mut stage, row)?;
        }
    }
    Ok(())
}

/// Plays all cases of a table with so many seats. A blank line ends a case.
pub fn play<R: Threads + Wait + Abort + Sync>(
    rt: &R,
    alloc: Global,
    seats: u32,
    cases: &str,
) -> Result<(), Fail> {
    for case in cases.split("\n\n") {
        let (_name, rows) = case.split_once("open ").ok_or("no opening")?;
        let (first, rows) = rows.split_once(" = done\n").ok_or("no rows")?;
        let (config, limit) = opening(first)?;
        let (cache, seats) = open(alloc, config, seats, limit)?;
        play_case(rt, alloc, &cache, seats, rows)?;
    }
    Ok(())
}
