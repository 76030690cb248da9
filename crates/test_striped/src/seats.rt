//! Two seats of a cache in stripes, which take turns, as a table of rows in the language of
//! `test_support`.
//!
//! After each Add the other seat learns what it leads to, and makes the next call. A refused
//! Add, and a refused call of the table below, has to leave all that is seen as it was.
//!
//! | Row | What is done, or shown |
//! |---|---|
//! | `stripes ..` | As in `bindings/rows.txt`; a refused opening has the text of its fault. |
//! | `tries 9 = done` | Later calls try 9 times. They wait before, and after `tries all`. |
//! | `by gate = done` | Later Adds have a gate, which is told once of each; or `by plain`. |
//! | `once = done` | Later calls are made once alone, also where memory is refused. |
//! | `stripe 2 = done` | Later `low` and `figures` are of this stripe. |
//! | `number = 0`, `meet = 13` | Which of its seat's Adds the last one was; how many both count. |
//! | `snapshot [b,d] = 2` | A snapshot has so many copies. |
//! | `sum_up [b,z) = 2`, `take_over 0 = 1 0 0` | So many summaries; one of them is applied. |
ghost use Rattle.std.specs.Prelude.{◌≡◌};

use crate::held::Hold;
use std::alloc::Global;
use std::mem;
use std::sync::Wait;
use test_support::rows::{Refusal, Reported, SpanBytes, of_no_memory, span, span_bytes};
use test_support::{Table, again_reported, at, opening, reported, reported_added, written};
use timestamp_cache::{ReadSummary, Uuid, earliest_write_at, may_write_at};
use tsc_cache::{Added, Config, Figures, Mark};
use tsc_span::{Key, Span, SpanRef};
use tsc_striped::TryAddFault::Refused;
use tsc_striped::{Dealer, OpenFault, Receipt, Seat, SnapshotFault, StripedCache, TryAddFault};
use tsc_striped_leases::{
    Trying, Waiting, apply_in_stripes, summary_in_stripes, try_apply_in_stripes,
};
use tsc_time::{Timestamp, Value};

/// A lookup that tries so often, or one that waits.
macro_rules! looked_up {
    ($seats:ident, $tried:ident, $waited:ident; $($given:expr),+) => {{
        let (striped, seat) = (&$seats.striped, &mut $seats.seat);
        match $seats.tries {
            Some(tries) => striped.$tried(seat, $($given,)+ tries).map_err(|_| Refusal::Busy),
            None => Ok(striped.$waited($seats.rt, seat, $($given),+)),
        }
    }};
}

/// An Add that tries so often, or one that waits, and each of them with a gate or without.
macro_rules! added {
    ($seats:ident, $try_gated:ident, $tried:ident, $gated:ident, $waited:ident;
     $($given:expr),+) => {{
        let (before, is_gated, gate) = ($seats.seen(), $seats.is_gated, Hold::open());
        let (striped, rt, seat) = (&$seats.striped, $seats.rt, &mut $seats.seat);
        let made = match ($seats.tries, is_gated) {
            (Some(tries), true) => striped.$try_gated(seat, $($given,)+ tries, &gate),
            (Some(tries), false) => striped.$tried(seat, $($given,)+ tries),
            (None, true) => striped.$gated(rt, seat, $($given,)+ &gate).map_err(Refused),
            (None, false) => striped.$waited(rt, seat, $($given),+).map_err(Refused),
        };
        if gate.reported() != u32::from(is_gated && made.is_ok()) {
            return Err(Refusal::NoRow);
        }
        let added = match made {
            Ok(receipt) => Ok($seats.turn(receipt)),
            Err(fault) => Err(of_try(fault)),
        };
        $seats.settled(before, added)
    }};
}

/// What can be seen of a cache: how many Adds the seat counts, and what all stripes, two of them,
/// and a single key answer.
type Seen = (u64, [Value; 3]);

/// A cache in stripes, its dealer, and its two seats, of which the first one makes the next call.
#[derive(Drop)]
pub struct Seats<'a, R> {
    rt: &'a R,
    alloc: Global,
    /// How often a call tries, or `None` where it waits.
    tries: Option<u32>,
    is_gated: bool,
    is_once: bool,
    stripe: u32,
    /// What the last `sum_up` told.
    summaries: Vec<ReadSummary>,
    /// Which of its seat's own Adds the last Add was.
    number: Option<u64>,
    striped: StripedCache,
    dealer: Dealer,
    seat: Seat,
    other: Seat,
    ghost is: { (dealer.cache ≡ striped) × (seat.cache ≡ striped) × (other.cache ≡ striped) },
}

/// Pages of so many bytes, with a floor at 5.
pub fn config(size: u32) -> Reported<Config> {
    Config::new(size, size, 2, 10, at(5, 0)).map_err(|_| Refusal::PageSize)
}

/// The keys of these spans.
pub fn keys(alloc: Global, texts: &[&str]) -> Reported<Vec<Key>> {
    let mut keys = Vec::new(alloc);
    for text in texts {
        let bytes = span_bytes(alloc, text)?.from;
        keys.push(Key::new(alloc, &bytes).map_err(|_| Refusal::NoMemory)?)?;
    }
    Ok(keys)
}

fn of_try(fault: TryAddFault) -> Refusal {
    match fault {
        TryAddFault::Busy => Refusal::Busy,
        Refused(_) => Refusal::Memory,
    }
}

impl<'a, R: Wait> Seats<'a, R> {
    /// Seats of a cache in one stripe.
    pub fn new(rt: &'a R, alloc: Global) -> Reported<Seats<'a, R>> {
        let opened = StripedCache::open(alloc, config(8256)?, Vec::new(alloc), 2);
        Seats::seated(rt, alloc, opened.map_err(|_| Refusal::NoMemory)?)
    }

    /// The two seats of a cache, which are all that it has.
    fn seated(rt: &'a R, alloc: Global, opened: (StripedCache, Dealer)) -> Reported<Seats<'a, R>>
        requires { opened.1.cache ≡ opened.0 }
    {
        let (striped, mut dealer) = opened;
        let seat = striped.deal(&mut dealer).ok_or(Refusal::NoRow)?;
        let other = striped.deal(&mut dealer).ok_or(Refusal::NoRow)?;
        if striped.deal(&mut dealer).is_some() {
            return Err(Refusal::NoRow);
        }
        Ok(Seats {
            rt,
            alloc,
            tries: None,
            is_gated: false,
            is_once: false,
            stripe: 0,
            summaries: Vec::new(alloc),
            number: None,
            striped,
            dealer,
            seat,
            other,
        })
    }

    /// Opens another cache, or tells why there is none.
    fn reopen(&mut self, config: Config, bounds: Vec<Key>) -> Reported<String> {
        match StripedCache::open(self.alloc, config, bounds, 2) {
            Ok(opened) => *self = Seats::seated(self.rt, self.alloc, opened)?,
            Err(OpenFault::NoMemory) => return Err(Refusal::NoMemory),
            Err(fault) => return written(self.alloc, fault),
        }
        reported(self.alloc, "done")
    }

    /// The other seat learns what an Add leads to, and makes the next call.
    fn turn(&mut self, receipt: Receipt) -> Added
        requires { receipt.front.cache ≡ self.old.striped }
    {
        self.striped.learn(&mut self.other, receipt.front);
        mem::swap(&mut self.seat, &mut self.other);
        self.number = Some(receipt.number);
        receipt.added
    }

    /// How many copies a snapshot of a span has.
    fn snapshot(&mut self, span: &Span) -> Reported<usize> {
        let (striped, seat) = (&self.striped, &mut self.seat);
        let Some(tries) = self.tries else {
            let snapshot = striped.snapshot(self.rt, seat, span).map_err(of_no_memory)?;
            return Ok(snapshot.caches.len());
        };
        match striped.try_snapshot(seat, span, tries) {
            Ok(snapshot) => Ok(snapshot.caches.len()),
            Err(SnapshotFault::Busy) => Err(Refusal::Busy),
            Err(SnapshotFault::NoMemory) => Err(Refusal::Memory),
        }
    }

    /// Keeps a summary of each stripe that a span touches, and tells how many there are.
    fn sum_up(&mut self, span: &Span) -> Reported<usize> {
        let (rt, alloc, seat) = (self.rt, self.alloc, &mut self.seat);
        self.summaries = summary_in_stripes(rt, alloc, &self.striped, seat, span, 9).map_err(
            of_no_memory,
        )?;
        Ok(self.summaries.len())
    }

    /// Applies one of the summaries to the same cache.
    fn take_over(&mut self, number: usize) -> Reported<Added> {
        let (striped, seat, now) = (&self.striped, &mut self.seat, at(20, 0));
        let one = self.summaries.get(number).ok_or(Refusal::NoRow)?;
        let made = match self.tries {
            Some(tries) => try_apply_in_stripes(striped, seat, one, now, tries),
            None => apply_in_stripes(self.rt, striped, seat, one, now).map_err(Refused),
        };
        Ok(self.turn(made.map_err(of_try)?))
    }

    fn seen(&mut self) -> Seen {
        let (rt, striped, seat) = (self.rt, &self.striped, &mut self.seat);
        let all = striped.get_max_ref(rt, seat, &SpanRef::onward(b"a", false));
        let two = striped.get_max_ref(rt, seat, &SpanRef::onward(b"c", false));
        let one = striped.get_max_ref(rt, seat, &SpanRef::point(b"c"));
        (seat.count(), [all, two, one])
    }

    /// What a call gives, which has changed nothing where it is refused.
    fn settled<T: Drop>(&mut self, before: Seen, made: Reported<T>) -> Reported<T> {
        let is_refused = matches!(made, Err(Refusal::Memory | Refusal::Busy));
        if is_refused && self.seen() != before {
            return Err(Refusal::NoRow);
        }
        match made {
            Err(Refusal::Memory) if self.is_once => Err(Refusal::NoMemory),
            made => made,
        }
    }

    /// Whether a transaction may write a span at a time.
    fn may_write(&mut self, span: &Span, at: Timestamp, by: Uuid) -> Reported<bool> {
        let (rt, cache, seat) = (self.rt, &self.striped, &mut self.seat);
        match self.tries {
            Some(tries) => may_write_at(&Trying { cache, tries }, seat, span, at, by).map_err(
                |_| Refusal::Busy,
            ),
            None => match may_write_at(&Waiting { cache, rt }, seat, span, at, by) {
                Ok(may) => Ok(may),
                Err(none) => match none {},
            },
        }
    }

    /// The seats meet, and tell how many Adds they count.
    fn meet(&mut self) -> u64 {
        self.striped.meet(&mut self.seat, &mut self.other);
        self.seat.count().saturating_add(self.other.count())
    }

    /// How many stripes the cache had.
    pub fn close(self) -> Reported<usize> {
        let mut seats = Vec::with_capacity(self.alloc, 2)?;
        seats.push(self.seat)?;
        seats.push(self.other)?;
        match self.striped.close(self.dealer, seats) {
            Ok(closed) => Ok(closed.caches.len()),
            Err(_) => Err(Refusal::NoRow),
        }
    }

    /// What a call of this table alone answers.
    fn answer(&mut self, words: &[&str]) -> Reported<String> {
        let alloc = self.alloc;
        match *words {
            ["stripes", first, max, pages, kept, low, ref bounds @ ..] => {
                let row = format_args!("{first} {max} {pages} {kept} {low} 0");
                let (config, _) = opening(&written(alloc, row)?)?;
                return self.reopen(config, keys(alloc, bounds)?);
            }
            ["tries", count] => self.tries = count.parse().ok(),
            ["by", how] => self.is_gated = how == "gate",
            ["once"] => self.is_once = true,
            ["stripe", number] => self.stripe = number.parse()?,
            ["number"] => return written(alloc, self.number.ok_or(Refusal::NoRow)?),
            ["snapshot", text] => return written(alloc, self.snapshot(&span(alloc, text)?)?),
            ["sum_up", text] => return written(alloc, self.sum_up(&span(alloc, text)?)?),
            ["take_over", number] => return reported_added(alloc, self.take_over(number.parse()?)?),
            ["meet"] => return written(alloc, self.meet()),
            _ => return Err(Refusal::NoRow),
        }
        reported(alloc, "done")
    }

    fn answer_settled(&mut self, words: &[&str]) -> Reported<String> {
        let (before, made) = (self.seen(), self.answer(words));
        self.settled(before, made)
    }
}

impl<R: Wait> Table for Seats<'_, R> {
    fn plays(&self, _kind: &str) -> bool {
        true
    }

    fn sit(&mut self, seat: &str) -> Reported<()> {
        if !seat.is_empty() && seat.parse::<u32>()? % 2 != self.seat.number() {
            mem::swap(&mut self.seat, &mut self.other);
        }
        Ok(())
    }

    fn open(&mut self, _config: Config, _limit: u64) -> Reported<()> {
        Err(Refusal::NoRow)
    }

    fn add(&mut self, _bytes: &SpanBytes, mark: &Mark, now: Timestamp) -> Reported<Added> {
        added!(self, try_add_gated, try_add, add_gated, add; &mark.span, mark.value, now)
    }

    fn add_all(&mut self, marks: &[Mark], now: Timestamp) -> Reported<Added> {
        added!(self, try_add_all_gated, try_add_all, add_all_gated, add_all; marks, now)
    }

    /// Looks up a single key by a span of its own, and another span by the bytes of its keys.
    fn get(&mut self, bytes: &SpanBytes) -> Reported<Value> {
        if bytes.to.is_none() && !bytes.is_onward {
            let span = bytes.span(self.alloc)?;
            return looked_up!(self, try_get_max, get_max; &span);
        }
        let end = bytes.to.as_ref().map(|to| to.as_slice());
        looked_up!(self, try_get_max_between, get_max_between; &bytes.from, end, bytes.ends)
    }

    fn low(&mut self) -> Reported<Timestamp> {
        if self.stripe >= self.striped.stripes() {
            return Err(Refusal::NoRow);
        }
        looked_up!(self, try_low_water, low_water; self.stripe)
    }

    fn figures(&mut self) -> Reported<Figures> {
        if self.stripe >= self.striped.stripes() {
            return Err(Refusal::NoRow);
        }
        looked_up!(self, try_figures, figures; self.stripe)
    }

    fn earliest(&mut self, spans: &[Span], at: Timestamp, by: Uuid) -> Reported<Option<Timestamp>> {
        let (rt, cache, seat) = (self.rt, &self.striped, &mut self.seat);
        match self.tries {
            Some(tries) => earliest_write_at(&Trying { cache, tries }, seat, spans, at, by).map_err(
                |_| Refusal::Busy,
            ),
            None => match earliest_write_at(&Waiting { cache, rt }, seat, spans, at, by) {
                Ok(free) => Ok(free),
                Err(none) => match none {},
            },
        }
    }

    fn may(&mut self, spans: &[Span], at: Timestamp, by: Uuid) -> Reported<bool> {
        let mut all = true;
        for span in spans {
            all &= self.may_write(span, at, by)?;
        }
        Ok(all)
    }

    fn call(&mut self, words: &[&str]) -> Reported<String> {
        again_reported!(self.answer_settled(words))
    }
}
