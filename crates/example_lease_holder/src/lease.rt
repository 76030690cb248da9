//! The lease of a range: the cache of its reads, and its keys, each of them under a latch.
//!
//! Who holds the latch of a key reads or writes it at a seat of his own. What was read is handed on
//! with the latch, so that a write is clear of it.
ghost use Rattle.std.specs.Prelude.{◌≡◌, ◌↔◌, ◌++◌, ◌∷◌, [], true, false, All, Some, option_map, IsTrue, IfOk, IfSome, OnOk, OnErr};
ghost use Rattle.std.specs.List.{find};
ghost use Rattle.std.specs.Str.{bytes_eq};
ghost use Rattle.std.specs.Sync.Mutex.{mutex_guard_value};
ghost use Rattle.timestamp_cache.specs.Words.{zero_time, is_before, point, overlaps, BeginsWith};
ghost use Rattle.timestamp_cache.specs.Clear.{IsClearOf, IsClearOfReads, AsksEarliestAt};
ghost use Rattle.timestamp_cache.specs.Earliest.{ReportsEarliest};
ghost use Rattle.example_lease_holder.specs.Reads.{HasRead, IsClearFor, read_of, since};
ghost use Rattle.example_lease_holder.specs.ReadSeats.{seen_by, cache_of, shown_by, shown_of};
ghost use Rattle.example_lease_holder.specs.ReadSeats.{answer_of, read_seat};
ghost use Rattle.example_lease_holder.specs.Versions.{value_at, written};

use crate::reads::{Asked, ReadCache, ReadFront, ReadSeat};
use anyhow::{Context, Result, ensure};
use std::alloc::Global;
use std::marker::{Brand, PhantomData};
use std::slice;
use std::sync::{Mutex, MutexGuard, Wait};
use timestamp_cache::{Cut, Key, NoMemory, Span, Timestamp, Uuid, Value, earliest_write_at};

/// Which range it is. By it a lease, its seats and its latches show in their types that they belong
/// together.
pub trait Range {
    ghost use Rattle.example_lease_holder.specs.declared.reads.ReadCache.{ReadCache};

    ghost cache: { ReadCache };
}

impl Range for Brand {
    ghost use Rattle.example_lease_holder.specs.Ranges.{any_cache};

    ghost cache = { any_cache };
}

/// A seat at the range's cache.
#[derive(Drop)]
pub struct RangeSeat<G: Range> {
    pub seat: ReadSeat,
    pub of: PhantomData<G>,
    ghost is: { cache_of seat ≡ G.cache },
}

/// What a key is from a time on.
#[derive(Clone, Copy)]
pub struct Version {
    pub at: Timestamp,
    pub value: u64,
}

/// A write that a transaction wants to make: not before which time, by whom, and what.
#[derive(Clone, Copy)]
pub struct Wanted {
    pub at: Timestamp,
    pub by: Uuid,
    pub value: u64,
}

/// A write that was laid down: when, and what the cache answered of its key then.
#[derive(Clone, Copy)]
pub struct Written {
    pub at: Timestamp,
    pub reason: Value,
}

/// What lies under the latch of a key.
#[derive(Drop)]
pub struct Held<G: Range> {
    span: Span,
    versions: Vec<Version>,
    /// The reads that were answered.
    answered: Vec<Value>,
    /// What is handed on with the latch: a seat that learns the front of each read, and that a
    /// writer's seat meets. It is a seat and no front, since a writer has no front to leave: only
    /// an Add gives one.
    handed: RangeSeat<G>,
    ghost whole: { overlaps span span ≡ true },
    ghost added: { All (HasRead span (seen_by handed.seat)) answered.items },
}

/// A key and its latch.
#[derive(Drop)]
pub struct Latch<G: Range> {
    pub key: &'static str,
    pub held: Mutex<Held<G>>,
}

/// A range that is served under a lease.
#[derive(Drop)]
pub struct Lease<G: Range> {
    pub cache: ReadCache,
    pub latches: Vec<Latch<G>>,
    ghost is: { cache ≡ G.cache },
}

impl<G: Range> Held<G> {
    /// A key that nobody has read yet, with its value from the beginning of time on.
    pub fn new(alloc: Global, key: &str, value: u64, handed: RangeSeat<G>) -> Result<Held<G>>
        ensures key { IfOk result (λ held. held.span ≡ point key.now) }
        ensures versions { IfOk result
            (λ held. held.versions.items ≡ written (Some zero_time) value) }
        ensures answered { IfOk result (λ held. held.answered.items ≡ []) }
    {
        let at = Timestamp::ZERO;
        let versions = vec![in alloc; Version { at, value }]?;
        let key = Key::new(alloc, key.as_bytes())?;
        Ok(Held {
            span: Span::point(key),
            versions,
            answered: Vec::new(alloc),
            handed,
        })
    }

    /// Whether the held key is this one.
    fn is_of(&self, key: &str) -> bool
        ensures { IsTrue result ↔ (self.now.span ≡ point key.now) }
    {
        let key = key.as_bytes();
        match self.span.cuts() {
            Some((Cut::Before(from), Cut::After(to))) => from == key && to == key,
            _ => false,
        }
    }

    /// What the key is at a time.
    fn value_at(&self, at: Timestamp) -> Option<u64>
        ensures { result ≡ value_at self.now.versions.items at }
    {
        let (mut since, mut value) = (Timestamp::ZERO, None);
        for version in &self.versions {
            if at < version.at || version.at < since {
                continue;
            }
            since = version.at;
            value = Some(version.value);
        }
        value
    }
}

impl<G: Range> Lease<G> {
    /// Waits for the latch of a key, and holds it. A latch says nothing of what lies under it, so
    /// this is looked at: what is held is of that key.
    pub fn hold<R: Wait>(&self, rt: &R, key: &str) -> Result<MutexGuard<'_, Held<G>>>
        ensures { IfOk result (λ held. (mutex_guard_value held).span ≡ point key.now) }
    {
        let held = self.latch(key).context("no such key")?.lock(rt);
        ensure!(held.is_of(key), "a latch of another key");
        Ok(held)
    }

    /// The latch of a key of the range: the first one that has this key.
    fn latch(&self, key: &str) -> Option<&Mutex<Held<G>>>
        ensures { option_map (λ held. held.now) result ≡ option_map (λ latch. latch.held)
            (find (λ latch. bytes_eq latch.key.now key.now) self.now.latches.items) }
    {
        for latch in &self.latches {
            if latch.key == key {
                return Some(&latch.held);
            }
        }
        None
    }

    /// Reads a key at a time, as `read` does, and holds its latch meanwhile.
    pub fn read_key<R: Wait>(
        &self,
        rt: &R,
        me: &mut RangeSeat<G>,
        key: &str,
        at: Timestamp,
        by: Uuid,
    ) -> Result<u64>
        ensures added { OnOk result (HasRead (point key.now)
            (since (seen_by me.old.seat) (seen_by me.new.seat)) (read_of at by)) }
        ensures seat { BeginsWith (seen_by me.new.seat) (seen_by me.old.seat) }
    {
        let mut held = self.hold(rt, key)?;
        let reported = self.read(rt, me, &mut held, at, by)?;
        reported.context("no version")
    }

    /// Reads a key at a time, while its latch is held. The read is added before it is answered, and
    /// is then in what the seat has seen since, and in what the latch hands on. One that is refused
    /// is not answered.
    pub fn read<R: Wait>(
        &self,
        rt: &R,
        me: &mut RangeSeat<G>,
        held: &mut Held<G>,
        at: Timestamp,
        by: Uuid,
    ) -> Result<Option<u64>>
        ensures added { OnOk result (HasRead held.old.span
            (since (seen_by me.old.seat) (seen_by me.new.seat)) (read_of at by)) }
        ensures answered { OnOk result
            (held.new.answered.items ≡ held.old.answered.items ++ read_of at by ∷ []) }
        ensures refused { OnErr result (held.new.answered.items ≡ held.old.answered.items) }
        ensures value { IfOk result (λ value. value ≡ value_at held.old.versions.items at) }
        ensures seat { BeginsWith (seen_by me.new.seat) (seen_by me.old.seat) }
        ensures key { (held.new.span ≡ held.old.span) × (held.new.versions ≡ held.old.versions) }
    {
        let value = held.value_at(at);
        let read = Value::of(at, by);
        let front = self.cache.add(rt, &mut me.seat, &held.span, read, at)?;
        self.leave(held, front);
        match held.answered.push(read) {
            Ok(()) => Ok(value),
            Err(_refused) => Err(NoMemory.into()),
        }
    }

    /// The latch hands on what is in this front.
    fn leave(&self, held: &mut Held<G>, front: ReadFront)
        requires { shown_of front ≡ G.cache }
        ensures learned { BeginsWith (seen_by held.new.handed.seat) (shown_by front) }
        ensures same { (held.new.span ≡ held.old.span) × (held.new.versions ≡ held.old.versions) ×
            (held.new.answered.items ≡ held.old.answered.items) }
    {
        self.cache.learn(&mut held.handed.seat, front);
    }

    /// Writes a key, as `write` does, and holds its latch meanwhile: not before the wanted time,
    /// and clear of each read of the key that the seat has seen then.
    pub fn write_key<R: Wait>(
        &self,
        rt: &R,
        me: &mut RangeSeat<G>,
        key: &str,
        wanted: Wanted,
    ) -> Result<Written>
        ensures from_on { IfOk result (λ written. is_before written.at wanted.at ≡ false) }
        ensures clear { IfOk result
            (λ written. IsClearOfReads (seen_by me.new.seat) (point key.now) wanted.by written.at) }
        ensures seat { BeginsWith (seen_by me.new.seat) (seen_by me.old.seat) }
    {
        let mut held = self.hold(rt, key)?;
        let reported = self.write(rt, me, &mut held, wanted)?;
        let at = reported.context("no time is late enough")?;
        let reason = self.reason(rt, &mut held);
        Ok(Written { at, reason })
    }

    /// Writes a key, while its latch is held, at the earliest time from the wanted one on that is
    /// clear of what the cache answers. The write is clear of each read that the seat has seen,
    /// among them each that was answered before, on whichever thread. Where no time is clear,
    /// nothing is written.
    pub fn write<R: Wait>(
        &self,
        rt: &R,
        me: &mut RangeSeat<G>,
        held: &mut Held<G>,
        wanted: Wanted,
    ) -> Result<Option<Timestamp>, NoMemory>
        ensures clear { IfOk result
            (λ reported. IfSome reported (λ at. IsClearFor held.old.answered.items
            (seen_by me.new.seat) held.old.span wanted.by at)) }
        ensures pushed { IfOk result
            (λ reported. ReportsEarliest
            (λ t. IsClearOf (answer_of G.cache (seen_by me.new.seat) held.old.span)
            wanted.by t) wanted.at reported) }
        ensures written { IfOk result
            (λ reported. held.new.versions.items ≡
            held.old.versions.items ++ written reported wanted.value) }
        ensures refused { OnErr result (held.new.versions.items ≡ held.old.versions.items) }
        ensures seat { BeginsWith (seen_by me.new.seat) (seen_by me.old.seat) }
        ensures key { (held.new.span ≡ held.old.span) ×
            (held.new.answered.items ≡ held.old.answered.items) }
    {
        self.take_over(rt, me, held);
        let (from, by, value) = (wanted.at, wanted.by, wanted.value);
        let reported = self.earliest(rt, me, held, from, by);
        if let Some(at) = reported {
            held.versions.push(Version { at, value })?;
        }
        Ok(reported)
    }

    /// The earliest time from the wanted one on at which a write of the key is clear of what the
    /// seat is answered.
    fn earliest<R: Wait>(
        &self,
        rt: &R,
        me: &mut RangeSeat<G>,
        held: &Held<G>,
        wanted: Timestamp,
        by: Uuid,
    ) -> Option<Timestamp>
        ensures { AsksEarliestAt read_seat me.old.seat me.new.seat held.now.span by wanted
            result }
    {
        let asked = Asked {
            cache: &self.cache,
            rt,
        };
        let spans = slice::from_ref(&held.span);
        let Ok(reported) = earliest_write_at(&asked, &mut me.seat, spans, wanted, by) else {
            unreachable!()
        };
        reported
    }

    /// The seat takes in all that the latch hands on.
    fn take_over<R: Wait>(&self, rt: &R, me: &mut RangeSeat<G>, held: &mut Held<G>)
        ensures seen { BeginsWith (seen_by me.new.seat) (seen_by held.old.handed.seat) }
        ensures kept { BeginsWith (seen_by me.new.seat) (seen_by me.old.seat) }
        ensures same { (held.new.span ≡ held.old.span) × (held.new.versions ≡ held.old.versions) ×
            (held.new.answered.items ≡ held.old.answered.items) }
    {
        self.cache.meet(rt, &mut me.seat, &mut held.handed.seat);
    }

    /// What the cache answers of a key to the seat that is handed on with its latch. Where a write
    /// was pushed, it is what it was pushed by: a read, or the floor. The writer's own seat is not
    /// asked again, so what that one has seen is what the write is clear of.
    pub fn reason<R: Wait>(&self, rt: &R, held: &mut Held<G>) -> Value
        ensures value { result ≡ answer_of G.cache (seen_by held.new.handed.seat) held.old.span }
        ensures key { (held.new.span ≡ held.old.span) × (held.new.versions ≡ held.old.versions) ×
            (held.new.answered.items ≡ held.old.answered.items) }
    {
        self.cache.answer(rt, &mut held.handed.seat, &held.span)
    }
}
