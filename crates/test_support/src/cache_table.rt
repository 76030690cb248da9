//! A cache as a table of rows, with calls that no other table has.
//!
//! Those of summaries are told in `bindings/rows.txt`. Beside them:
//!
//! | Row | What is done |
//! |---|---|
//! | `by next = done` | Later Adds are made by this call, as `key`, `between`, `each` or `add`. |
//! | `fill 0 9 2 20.0 A = done` | The keys of 0, 2, .. below 9 are added, each in place. |
//! | `share = done` | A version of the cache is kept, so that it shares its pages. |
//! | `drop = done` | All such versions are let go. |
//! | `memory = 436` | So many bytes have the blocks of memory that hold the pages. |
use crate::again_reported;
use crate::player::{Table, play, reported, reported_added, written};
use crate::rows::{
    Refusal, Reported, SpanBytes, of_bytes, of_cache, of_no_memory, span, time, value,
};
use std::alloc::Global;
use std::mem;
use std::test::Fail;
use timestamp_cache::{ReadSummary, SummaryFault, apply, earliest_write, may_write, summary};
use tsc_cache::{AddBetweenFault, Added, Cache, CacheFault, Config, Figures, Mark, TimestampCache};
use tsc_span::{Ends, Key, KeyRef, Span};
use tsc_time::{Timestamp, Value};
use uuid::Uuid;

/// By which call marks are added.
#[derive(Clone, Copy, PartialEq, Eq)]
enum By {
    Add,
    Key,
    Between,
    Next,
    Each,
}

#[derive(Drop)]
pub struct CacheTable {
    alloc: Global,
    cache: Cache,
    by: By,
    /// Versions of the cache, which share pages with it.
    versions: Vec<Cache>,
    /// Summaries by their names, which are one letter.
    summaries: Vec<(u8, Vec<u8>)>,
}

fn of_summary(fault: SummaryFault) -> Refusal {
    match fault {
        SummaryFault::Version => Refusal::SummaryVersion,
        SummaryFault::Length => Refusal::SummaryLength,
        SummaryFault::Checksum => Refusal::SummaryChecksum,
        SummaryFault::Form => Refusal::SummaryForm,
        SummaryFault::NoMemory => Refusal::Memory,
    }
}

/// Adds by the bytes of a start and an end: a single key is a range up to itself.
fn add_between(
    cache: &mut Cache,
    bytes: &SpanBytes,
    value: Value,
    now: Timestamp,
) -> Result<Added, AddBetweenFault> {
    let point = Ends {
        exclude_from: false,
        exclude_to: false,
    };
    match &bytes.to {
        None if !bytes.is_onward => cache.add_between(
            &bytes.from,
            Some(bytes.from.as_slice()),
            point,
            value,
            now,
        ),
        to => cache.add_between(
            &bytes.from,
            to.as_ref().map(|to| to.as_slice()),
            bytes.ends,
            value,
            now,
        ),
    }
}

/// SpanBytes of digits in hexadecimal, two each.
fn from_hex(alloc: Global, digits: &str) -> Reported<Vec<u8>> {
    let mut bytes = Vec::new(alloc);
    for place in (0..digits.len()).step_by(2) {
        let two = digits
            .get(place..place.saturating_add(2))
            .ok_or(Refusal::NoRow)?;
        bytes.push(u8::from_str_radix(two, 16)?)?;
    }
    Ok(bytes)
}

/// What bytes are refused as, a few times over, if that is one answer.
fn alike(first: &mut Option<Refusal>, answer: Reported<Added>) -> Reported<()> {
    let refusal = answer.err().ok_or(Refusal::NoRow)?;
    match *first.get_or_insert(refusal) {
        one if one == refusal => Ok(()),
        _ => Err(Refusal::NoRow),
    }
}

impl CacheTable {
    pub fn new(alloc: Global) -> Result<CacheTable, Fail> {
        let config = Config::new(64, 64, 1, 0, Timestamp::ZERO)?;
        Ok(CacheTable {
            alloc,
            cache: Cache::new(alloc, config)?,
            by: By::Add,
            versions: Vec::new(alloc),
            summaries: Vec::new(alloc),
        })
    }

    /// Goes on with the next version, and keeps the one before. Room for that is there before, so
    /// that nothing is done where memory is refused.
    fn go_on(&mut self, made: Result<(Cache, Added), CacheFault>) -> Reported<Added> {
        let (next, added) = made.map_err(of_cache)?;
        self.versions.reserve(1).map_err(|_| Refusal::Memory)?;
        self.versions
            .push(mem::replace(&mut self.cache, next))
            .map_err(|_| Refusal::Memory)?;
        Ok(added)
    }

    /// Adds keys of numbers in place.
    fn fill(&mut self, first: u32, end: u32, step: u32, value: Value) -> Reported<()> {
        for number in (first..end).step_by(step.max(1) as usize) {
            let bytes = number.to_be_bytes();
            let key = KeyRef::new(&bytes).map_err(|_| Refusal::NoRow)?;
            let added = self.cache.add_key(&key, value, value.time());
            added.map_err(|_| Refusal::NoMemory)?;
        }
        Ok(())
    }

    fn summary(&self, name: &str) -> Reported<&[u8]> {
        let has_name = |it: &&(u8, Vec<u8>)| [it.0].as_slice() == name.as_bytes();
        let (_, bytes) = self.summaries.iter().find(has_name).ok_or(Refusal::NoRow)?;
        Ok(bytes.as_slice())
    }

    /// Keeps bytes by a name, in place of those that had it.
    fn name(&mut self, name: &str, bytes: Vec<u8>) -> Reported<String> {
        let [name] = name.as_bytes() else {
            return Err(Refusal::NoRow)
        };
        let len = bytes.len();
        match self.summaries.iter_mut().find(|it| it.0 == *name) {
            Some(it) => it.1 = bytes,
            None => self.summaries.push((*name, bytes))?,
        }
        written(self.alloc, len)
    }

    fn apply_bytes(&mut self, bytes: &[u8], now: &str) -> Reported<Added> {
        let reported = ReadSummary::from_bytes(self.alloc, bytes).map_err(of_summary)?;
        apply(&mut self.cache, &reported, time(now)?).map_err(of_cache)
    }

    /// How each beginning of a summary is refused, and the whole with a byte behind it.
    fn cuts(&mut self, name: &str, now: &str) -> Reported<String> {
        let mut bytes = self.summary(name)?.to_vec(self.alloc)?;
        let whole = bytes.len();
        bytes.push(0)?;
        let mut first = None;
        for len in (0..=bytes.len()).filter(|len| *len != whole) {
            let reported = self.apply_bytes(bytes.get(..len).unwrap_or(&bytes), now);
            alike(&mut first, reported)?;
        }
        Err(first.unwrap_or(Refusal::NoRow))
    }

    /// How a summary with another byte at one of some places is refused.
    fn changes(&mut self, name: &str, (first, last): (&str, &str), now: &str) -> Reported<String> {
        let mut bytes = self.summary(name)?.to_vec(self.alloc)?;
        let last = match last {
            "-" => bytes.len().saturating_sub(1),
            last => last.parse()?,
        };
        let mut one = None;
        for place in first.parse()?..=last {
            for by in [0x01, 0x10, 0x80, 0xff] {
                bytes.get_mut(place).map(|byte| *byte ^= by);
                let reported = self.apply_bytes(&bytes, now);
                bytes.get_mut(place).map(|byte| *byte ^= by);
                alike(&mut one, reported)?;
            }
        }
        Err(one.unwrap_or(Refusal::NoRow))
    }

    fn report(&mut self, name: &str, text: &str, most: &str) -> Reported<String> {
        let (alloc, span) = (self.alloc, span(self.alloc, text)?);
        let most = if most == "all" {
            usize::MAX
        } else {
            most.parse()?
        };
        let reported = again_reported!(summary(alloc, &self.cache, &span, most).map_err(
            of_no_memory
        ))?;
        let bytes = again_reported!(reported.to_bytes().map_err(of_no_memory))?;
        self.name(name, bytes)
    }
}

impl Table for CacheTable {
    fn plays(&self, kind: &str) -> bool {
        kind != "seats"
    }

    fn sit(&mut self, seat: &str) -> Reported<()> {
        if seat.is_empty() {
            Ok(())
        } else {
            Err(Refusal::NoRow)
        }
    }

    fn open(&mut self, config: Config, _limit: u64) -> Reported<()> {
        self.cache = Cache::new(self.alloc, config).map_err(|_| Refusal::NoMemory)?;
        self.versions.clear();
        Ok(())
    }

    fn add(&mut self, bytes: &SpanBytes, mark: &Mark, now: Timestamp) -> Reported<Added> {
        let cache = &mut self.cache;
        match (self.by, mark.span.borrowed().key()) {
            (By::Key, Some(_)) => {
                let key = KeyRef::new(&bytes.from).map_err(|_| Refusal::NoRow)?;
                cache.add_key(&key, mark.value, now).map_err(of_cache)
            }
            (By::Between, _) => add_between(cache, bytes, mark.value, now).map_err(of_bytes),
            (By::Next, _) => {
                let made = cache.next(&mark.span, mark.value, now);
                self.go_on(made)
            }
            _ => cache.add(&mark.span, mark.value, now).map_err(of_cache),
        }
    }

    fn add_all(&mut self, marks: &[Mark], now: Timestamp) -> Reported<Added> {
        match self.by {
            By::Next => {
                let made = self.cache.next_all(marks, now);
                self.go_on(made)
            }
            By::Each if !self.cache.fits_all(marks) => Err(Refusal::TooLarge),
            By::Each => self.cache.add_fitting(marks, now).map_err(of_no_memory),
            _ => self.cache.add_all(marks, now).map_err(of_cache),
        }
    }

    fn get(&mut self, bytes: &SpanBytes) -> Reported<Value> {
        Ok(self.cache.get_max_ref(&bytes.looked_up()))
    }

    fn low(&mut self) -> Reported<Timestamp> {
        Ok(self.cache.low_water())
    }

    fn figures(&mut self) -> Reported<Figures> {
        Ok(self.cache.figures())
    }

    fn earliest(&mut self, spans: &[Span], at: Timestamp, by: Uuid) -> Reported<Option<Timestamp>> {
        Ok(earliest_write(&self.cache, spans, at, by))
    }

    fn may(&mut self, spans: &[Span], at: Timestamp, by: Uuid) -> Reported<bool> {
        Ok(
            spans
                .iter()
                .all(|span| may_write(&self.cache, span, at, by)),
        )
    }

    fn call(&mut self, words: &[&str]) -> Reported<String> {
        let alloc = self.alloc;
        match *words {
            ["by", name] => {
                self.by = match name {
                    "key" => By::Key,
                    "between" => By::Between,
                    "next" => By::Next,
                    "each" => By::Each,
                    _ => By::Add,
                };
            }
            ["fill", first, end, step, at, by] => {
                self.fill(first.parse()?, end.parse()?, step.parse()?, value(at, by)?)?;
            }
            ["share"] => {
                let made = self.cache.next_all(&[], Timestamp::ZERO);
                self.go_on(made).map_err(|_| Refusal::NoMemory)?;
            }
            ["drop"] => self.versions.clear(),
            ["memory"] => return written(alloc, self.cache.memory()),
            ["summary", name, text, most] => return self.report(name, text, most),
            ["take", name, digits] => drop(self.name(name, from_hex(alloc, digits)?)?),
            ["same", one, other] => {
                let is_same = self.summary(one)? == self.summary(other)?;
                return reported(alloc, if is_same { "yes" } else { "no" });
            }
            ["apply", name, now] => {
                let bytes = self.summary(name)?.to_vec(alloc)?;
                return reported_added(alloc, again_reported!(self.apply_bytes(&bytes, now))?);
            }
            ["cuts", name, now] => return self.cuts(name, now),
            ["changes", name, first, last, now] => return self.changes(name, (first, last), now),
            _ => return Err(Refusal::NoRow),
        }
        reported(alloc, "done")
    }
}

/// Plays rows on caches, and tells how many there were.
pub fn play_on_caches(alloc: Global, rows: &str) -> Result<u32, Fail> {
    play(alloc, &mut CacheTable::new(alloc)?, rows)
}

/// Plays rows on caches by the call that a row before them names, if there is one.
pub fn play_by(alloc: Global, by: &str, rows: &str) -> Result<(), Fail> {
    let mut table = CacheTable::new(alloc)?;
    play(alloc, &mut table, by)?;
    play(alloc, &mut table, rows)?;
    Ok(())
}
