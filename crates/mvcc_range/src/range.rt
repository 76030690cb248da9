//! A range, and the calls on it.
ghost use Rattle.std.specs.Prelude.{
  ◌≡◌,
  ◌↔◌,
  ◌⊎◌,
  ◌≤◌,
  ◌+◌,
  ◌∷◌,
  [],
  ◌++◌,
  ◌&&◌,
  not,
  map,
  true,
  false,
  IsTrue,
  IfOk,
  IsErrOf,
  OnOk,
  OnErr,
  vec_len,
  vec_capacity,
};
ghost use Rattle.std.specs.List.{All};
ghost use Rattle.tsc_cache.specs.ConfigView.{fits};
ghost use Rattle.tsc_cache.specs.Batch.{all_fit};
ghost use Rattle.tsc_cache.specs.CacheView.{StandsAfter, StandsAfterAll};
ghost use Rattle.timestamp_cache.specs.Words.{KeyBytes, is_before, point, cache_answer};
ghost use Rattle.timestamp_cache.specs.Clear.{IsClearOf};
ghost use Rattle.timestamp_cache.specs.Earliest.{ReportsEarliest};
ghost use Rattle.mvcc_versions.specs.Versions.{chain_of, as_of, stored, Matches, is_within, are_within};
ghost use Rattle.mvcc_range.specs.Steps.{
  mark_of,
  reads_fit,
  IsOpened,
  IsSame,
  Answers,
  IsFree,
  IsFreeOf,
  Collects,
  StoresVersions,
  TakesOver,
};
ghost use Rattle.mvcc_versions.specs.Maps.{nodes_of};
ghost use Rattle.mvcc_range.specs.Calls.{Reads, SeesOwn, ReportsTooLarge, HandsOnBy, AddsSummary, Ends};

use crate::{RangeFault, Read, Row, Transaction, Write};
use mvcc_versions::{Version, VersionMap, rows_after};
use std::alloc::Global;
use std::collections::LinkedList;
use std::marker::Model;
use timestamp_cache::{
    Cache, CacheFault, Config, Key, Mark, NoMemory, Span, SpanRef, Timestamp, TimestampCache, Uuid,
    Value, apply, earliest_clear_of, summary,
};

/// One range of a store, under a lease: the versions of its keys, and the reads that were answered.
#[derive(Drop)]
pub struct Range {
    alloc: Global,
    span: Span,
    cache: Cache,
    threshold: Timestamp,
    versions: VersionMap,
}

impl Model for Range {
    ghost use Rattle.mvcc_range.specs.Steps.{RangeView};

    ghost Value = { RangeView };

    ghost view = { λ r. record {
      span = r.span;
      cache = r.cache;
      threshold = r.threshold;
      chains = r.versions;
    } };
}

/// What becomes of a transaction that is to commit.
#[derive(Clone, Copy, Debug, PartialEq, Eq)]
pub enum Outcome {
    /// The transaction committed at this time.
    Committed(Timestamp),
    /// The transaction did not commit, and has to begin again at a later time.
    Restart(Reason),
}

/// Why a transaction has to restart.
#[derive(Clone, Copy, Debug, PartialEq, Eq)]
pub enum Reason {
    /// The transaction was pushed to this time, at which something it read has changed.
    Changed(Timestamp),
    /// No time is free for its writes, since the last one of all is taken.
    NoTime,
}

impl Range {
    /// A range of keys that have nothing yet. The call takes the memory of an empty page of the
    /// cache.
    ///
    /// ```
    /// let config = Config::new(1 << 10, 1 << 20, 2, 10_000_000_000, Timestamp::ZERO)?;
    /// let range = Range::open(alloc, keys(alloc, "a", "z")?, config)?;
    /// assert_eq!(rt; range.threshold(), Timestamp::ZERO);
    /// ```
    pub fn open(alloc: Global, span: Span, config: Config) -> Result<Range, NoMemory>
        ensures opened { IfOk result (λ range. IsOpened config range) }
        ensures span { IfOk result (λ range. range.span ≡ span) }
    {
        Ok(Range {
            alloc,
            span,
            cache: Cache::new(alloc, config)?,
            threshold: Timestamp::ZERO,
            versions: VersionMap::new(alloc),
        })
    }

    /// Answers a read of a transaction as of its time, and remembers that. The answer is the rows
    /// of the span with the transaction's own writes put over them; without these, the rows are the
    /// last of its reads.
    ///
    /// The call costs a search for the first key, and a step for each further key of the span and
    /// for each version there that is later. Each own write within the span costs up to a step for
    /// each row. The rows take memory twice, for the answer and for the transaction, and the cache
    /// takes that of an Add.
    ///
    /// ```
    /// let (mut range, mut one) = (new_range(alloc)?, begin(alloc, 20, 'A'));
    /// one.write(put(alloc, "k", "mine")?)?;
    /// let rows = range.read(&mut one, &keys(alloc, "j", "m")?, at(20))?;
    /// assert_eq!(rt; rows[0].value.as_slice(), "mine".as_bytes());
    /// assert_eq!(rt; (rows.len(), one.reads()[0].rows.len()), (1, 0));
    /// let outside = range.read(&mut one, &keys(alloc, "z", "")?, at(20)).err();
    /// assert_eq!(rt; outside, Some(RangeFault::OutOfRange));
    /// ```
    pub fn read(
        &mut self,
        transaction: &mut Transaction,
        span: &Span,
        now: Timestamp,
    ) -> Result<Vec<Row>, RangeFault>
        ensures ok { OnOk result (Reads self.old self.new transaction.old transaction.new span.now
            now) }
        ensures own { IfOk result (λ rows. SeesOwn self.old transaction.old span.now rows.items) }
        ensures err { OnErr result ((self.new ≡ self.old) × (transaction.new ≡ transaction.old)) }
        ensures out_of_range { IsErrOf result RangeFault.OutOfRange
            ↔ (is_within span.now self.old.span ≡ false) }
        ensures too_early { IsErrOf result RangeFault.TooEarly ↔ ((is_within span.now self.old.span
            && is_before transaction.old.at self.old.threshold) ≡ true) }
        ensures too_large { IsErrOf result RangeFault.TooLarge ↔ ((is_within span.now self.old.span
            && not (is_before transaction.old.at self.old.threshold)
            && not (fits self.old.cache.config span.now)) ≡ true) }
    {
        self.check_read(span, transaction.at)?;
        let read = self.look(span, transaction.at)?;
        let rows = rows_after(self.alloc, &read, &transaction.writes)?;
        self.answer(transaction, read, now)?;
        Ok(rows)
    }

    /// Commits a transaction at the earliest time, from the one on at which it reads, that is free
    /// for its writes. If what it read isn't so any more as of then, it has to restart.
    ///
    /// The call costs a search among the keys and a lookup in the cache for each write. It makes
    /// each read of several keys once more, whose rows take memory until they are compared. A
    /// commit then takes the memory of a copy of each write and of each read's span, and of one
    /// `add_all` to the cache.
    ///
    /// ```
    /// let mut range = new_range(alloc)?;
    /// let (mut one, mut two) = (begin(alloc, 20, 'A'), begin(alloc, 15, 'B'));
    /// range.read(&mut two, &keys(alloc, "k", "")?, at(15))?;
    /// for transaction in [&mut one, &mut two] {
    ///     transaction.write(put(alloc, "k", "new")?)?;
    /// }
    /// assert_eq!(rt; range.commit(&one, at(20))?, Outcome::Committed(at(20)));
    /// assert!(rt; matches!(range.commit(&two, at(21))?, Outcome::Restart(Reason::Changed(_))));
    /// ```
    pub fn commit(
        &mut self,
        transaction: &Transaction,
        now: Timestamp,
    ) -> Result<Outcome, RangeFault>
        ensures ok { IfOk result (λ outcome. Ends self.old self.new transaction.now now outcome) }
        ensures err { OnErr result (IsSame self.old self.new) }
        ensures out_of_range { IsErrOf result RangeFault.OutOfRange
            ↔ (are_within transaction.now.writes self.old.span ≡ false) }
        ensures too_early { IsErrOf result RangeFault.TooEarly
            ↔ ((are_within transaction.now.writes self.old.span
            && is_before transaction.now.at self.old.threshold) ≡ true) }
        ensures too_large { IsErrOf result RangeFault.TooLarge
            ↔ ((are_within transaction.now.writes self.old.span
            && not (is_before transaction.now.at self.old.threshold)
            && not (reads_fit self.old.cache.config transaction.now.reads)) ≡ true) }
    {
        self.check_commit(transaction)?;
        let Some(at) = self.free_time(transaction) else {
            return Ok(Outcome::Restart(Reason::NoTime));
        };
        let so = self.are_still_so(&transaction.reads, at)?;
        if !so {
            return Ok(Outcome::Restart(Reason::Changed(at)));
        }
        self.store_versions(transaction, at, now)?;
        Ok(Outcome::Committed(at))
    }

    /// Hands the range on to a new lease. A new cache takes over what a summary of the old one
    /// tells of the range's span, in at most `most` marks.
    ///
    /// The call costs a `summary` of the range's span and its `apply`. It takes the memory of both
    /// and of a new cache, and then frees the old one.
    ///
    /// ```
    /// let (mut range, mut one) = (new_range(alloc)?, begin(alloc, 20, 'A'));
    /// range.read(&mut one, &keys(alloc, "k", "")?, at(20))?;
    /// let config = Config::new(1 << 10, 1 << 20, 2, 10_000_000_000, Timestamp::ZERO)?;
    /// range.hand_on(config, 8, at(30))?;
    /// let mut two = begin(alloc, 15, 'B');
    /// two.write(put(alloc, "k", "new")?)?;
    /// assert!(rt; range.commit(&two, at(31))? != Outcome::Committed(at(15)));
    /// ```
    pub fn hand_on(&mut self, config: Config, most: usize, now: Timestamp) -> Result<(), CacheFault>
        ensures ok { OnOk result (HandsOnBy config most now self.old self.new) }
        ensures err { OnErr result (self.new ≡ self.old) }
        ensures too_large { IsErrOf result CacheFault.NoMemory
            ⊎ ReportsTooLarge self.old.cache self.old.span config most
            (IsErrOf result CacheFault.TooLarge) }
    {
        self.cache = taken_over(self.alloc, &self.cache, &self.span, config, most, now)?;
        Ok(())
    }

    /// Drops the versions that no read at a time, or later, can see. From then on reads and commits
    /// before that time are refused. It costs a step for each version, and takes no memory.
    ///
    /// ```
    /// let mut range = new_range(alloc)?;
    /// range.collect_garbage(at(50));
    /// let early = range.commit(&begin(alloc, 49, 'A'), at(51)).err();
    /// assert_eq!(rt; early, Some(RangeFault::TooEarly));
    /// ```
    pub fn collect_garbage(&mut self, before: Timestamp)
        ensures { Collects self.old self.new before }
    {
        if self.threshold < before {
            self.threshold = before;
        }
        self.versions.drop_before(self.threshold);
    }

    /// The time before which reads and commits are refused.
    ///
    /// ```
    /// let mut range = new_range(alloc)?;
    /// range.collect_garbage(at(50));
    /// range.collect_garbage(at(40));
    /// assert_eq!(rt; range.threshold(), at(50));
    /// ```
    pub fn threshold(&self) -> Timestamp
        ensures { result ≡ self.now.threshold }
    {
        self.threshold
    }

    /// Whether a span may be read as of a time.
    fn check_read(&self, span: &Span, at: Timestamp) -> Result<(), RangeFault>
        ensures ok { OnOk result ((is_within span.now self.now.span ≡ true)
            × (is_before at self.now.threshold ≡ false)
            × (fits self.now.cache.config span.now ≡ true)) }
        ensures out_of_range { IsErrOf result RangeFault.OutOfRange
            ↔ (is_within span.now self.now.span ≡ false) }
        ensures too_early { IsErrOf result RangeFault.TooEarly ↔ ((is_within span.now self.now.span
            && is_before at self.now.threshold) ≡ true) }
        ensures too_large { IsErrOf result RangeFault.TooLarge ↔ ((is_within span.now self.now.span
            && not (is_before at self.now.threshold)
            && not (fits self.now.cache.config span.now)) ≡ true) }
        ensures memory { IsErrOf result RangeFault.NoMemory → ⊥ }
    {
        if !is_within(span, &self.span) {
            return Err(RangeFault::OutOfRange);
        }
        if at < self.threshold {
            return Err(RangeFault::TooEarly);
        }
        if !self.cache.fits(span) {
            return Err(RangeFault::TooLarge);
        }
        Ok(())
    }

    /// Whether a transaction's writes are the range's, its time is not too early, and its reads
    /// can be remembered. A commit is refused for the same reason, or for want of memory. The call
    /// costs a step for each write and each read, and takes no memory.
    ///
    /// ```
    /// let mut range = new_range(alloc)?;
    /// range.collect_garbage(at(50));
    /// let early = range.check_commit(&begin(alloc, 49, 'A')).err();
    /// assert_eq!(rt; early, Some(RangeFault::TooEarly));
    /// ```
    pub fn check_commit(&self, transaction: &Transaction) -> Result<(), RangeFault>
        ensures ok { OnOk result ((are_within transaction.now.writes self.now.span ≡ true)
            × (is_before transaction.now.at self.now.threshold ≡ false)
            × (reads_fit self.now.cache.config transaction.now.reads ≡ true)) }
        ensures out_of_range { IsErrOf result RangeFault.OutOfRange
            ↔ (are_within transaction.now.writes self.now.span ≡ false) }
        ensures too_early { IsErrOf result RangeFault.TooEarly
            ↔ ((are_within transaction.now.writes self.now.span
            && is_before transaction.now.at self.now.threshold) ≡ true) }
        ensures too_large { IsErrOf result RangeFault.TooLarge
            ↔ ((are_within transaction.now.writes self.now.span
            && not (is_before transaction.now.at self.now.threshold)
            && not (reads_fit self.now.cache.config transaction.now.reads)) ≡ true) }
        ensures memory { IsErrOf result RangeFault.NoMemory → ⊥ }
    {
        if !are_within(&transaction.writes, &self.span) {
            return Err(RangeFault::OutOfRange);
        }
        if transaction.at < self.threshold {
            return Err(RangeFault::TooEarly);
        }
        if !reads_fit(&self.cache, &transaction.reads) {
            return Err(RangeFault::TooLarge);
        }
        Ok(())
    }

    /// What a span has as of a time.
    fn look(&self, span: &Span, at: Timestamp) -> Result<Read, NoMemory>
        ensures { IfOk result (λ read. (read.span ≡ span.now)
            × Matches read (as_of at self.now.chains)) }
    {
        Ok(Read {
            span: span.try_copy()?,
            rows: self.versions.rows_as_of(self.alloc, span, at)?,
        })
    }

    /// Remembers a read that was answered, and gives it to its transaction.
    fn answer(
        &mut self,
        transaction: &mut Transaction,
        read: Read,
        now: Timestamp,
    ) -> Result<(), NoMemory>
        requires matches { Matches read (as_of transaction.old.at self.old.chains) }
        requires in_time { is_before transaction.old.at self.old.threshold ≡ false }
        requires fits { fits self.old.cache.config read.span ≡ true }
        ensures ok { OnOk result (Answers self.old self.new transaction.old.by transaction.old.at
            now read) }
        ensures has { OnOk result (transaction.new
            ≡ record transaction.old { reads = transaction.old.reads ++ read ∷ [] }) }
        ensures err { OnErr result ((self.new ≡ self.old) × (transaction.new ≡ transaction.old)) }
    {
        let value = Value::of(transaction.at, transaction.by);
        reserve(&mut transaction.reads, 1)?;
        add(&mut self.cache, &read.span, value, now)?;
        transaction.reads.push_reserved(read);
        Ok(())
    }

    /// The earliest time, from the one on at which a transaction reads, that is free for its
    /// writes.
    fn free_time(&self, transaction: &Transaction) -> Option<Timestamp>
        ensures { ReportsEarliest
            (IsFree self.now.cache self.now.chains transaction.now.by transaction.now.writes)
            transaction.now.at result }
    {
        free_time(
            &self.cache,
            &self.versions,
            &transaction.writes,
            transaction.at,
            transaction.by,
        )
    }

    /// Whether some reads are still what is there as of a time.
    fn are_still_so(&self, reads: &[Read], at: Timestamp) -> Result<bool, NoMemory>
        ensures { IfOk result (λ so. IsTrue so ↔ All (λ r. Matches r (as_of at self.now.chains))
            reads.now) }
    {
        are_still_so(self.alloc, &self.versions, reads, at)
    }

    /// Remembers the reads of a transaction at a time, and lays down its writes as versions of it.
    fn store_versions(
        &mut self,
        transaction: &Transaction,
        at: Timestamp,
        now: Timestamp,
    ) -> Result<(), NoMemory>
        requires { reads_fit self.old.cache.config transaction.now.reads ≡ true }
        ensures ok { OnOk result (StoresVersions self.old self.new
            (record transaction.now { at = at }) now) }
        ensures err { OnErr result (IsSame self.old self.new) }
    {
        let by = transaction.by;
        let marks = marks_of(self.alloc, &transaction.reads, at, by)?;
        let nodes = VersionMap::prepare(self.alloc, &transaction.writes, at, by)?;
        let prepared = Prepared {
            marks: &marks,
            writes: transaction.writes.as_slice(),
            nodes,
            at,
            by,
        };
        store_versions(
            self.alloc,
            &mut self.cache,
            &mut self.versions,
            prepared,
            now,
        )
    }
}

/// What a commit lays down: the marks of its reads, and its writes with a node for each of them.
#[derive(Drop)]
struct Prepared<'a> {
    marks: &'a [Mark],
    writes: &'a [Write],
    nodes: LinkedList<LinkedList<Version>>,
    at: Timestamp,
    by: Uuid,
    ghost whole: { nodes ≡ nodes_of at by writes.now },
}

/// Adds reads to a cache, and versions to those that are there, or leaves both as they are.
fn store_versions(
    alloc: Global,
    cache: &mut Cache,
    versions: &mut VersionMap,
    prepared: Prepared<'_>,
    now: Timestamp,
) -> Result<(), NoMemory>
    requires { all_fit cache.old.config prepared.marks.now ≡ true }
    ensures done { OnOk result (StandsAfterAll cache.old cache.new prepared.entry.marks.now now
        × ((k : KeyBytes) → chain_of versions.new k ≡ stored k prepared.entry.at prepared.entry.by
        prepared.entry.writes.now (chain_of versions.old k))) }
    ensures cache { OnErr result (cache.new ≡ cache.old) }
    ensures versions { OnErr result ((k : KeyBytes) → chain_of versions.new k
        ≡ chain_of versions.old k) }
{
    let Prepared {
        marks,
        writes,
        nodes,
        at,
        by,
    } = prepared;
    versions.make_room(alloc, writes)?;
    add_all(cache, marks, now)?;
    versions.store_versions(writes, nodes, at, by);
    Ok(())
}

/// The earliest time, from one on, that is free for writes.
fn free_time(
    cache: &Cache,
    versions: &VersionMap,
    writes: &[Write],
    from: Timestamp,
    by: Uuid,
) -> Option<Timestamp>
    ensures { ReportsEarliest (IsFree cache.now versions.now by writes.now) from result }
{
    let mut at = from;
    for write in writes {
        match free_time_of(cache, versions, write, at, by) {
            Some(next) => at = next,
            None => return None,
        }
    }
    Some(at)
}

/// The earliest time, from one on, that is free of a key that is written.
fn free_time_of(
    cache: &Cache,
    versions: &VersionMap,
    write: &Write,
    from: Timestamp,
    by: Uuid,
) -> Option<Timestamp>
    ensures { ReportsEarliest (IsFreeOf cache.now versions.now by write.now) from result }
{
    match versions.time_after(&write.key, from) {
        Some(after) => clear_time(cache, &write.key, after, by),
        None => None,
    }
}

/// The earliest time, from one on, at which a write of a key is clear of what a cache answers.
fn clear_time(cache: &Cache, key: &Key, from: Timestamp, by: Uuid) -> Option<Timestamp>
    ensures { ReportsEarliest (λ t. IsClearOf (cache_answer cache.now (point key.now)) by t) from
        result }
{
    let read = cache.get_max_ref(&SpanRef::point(key.bytes()));
    earliest_clear_of(read, from, by)
}

/// Whether some reads are still what is there as of a time.
fn are_still_so(
    alloc: Global,
    versions: &VersionMap,
    reads: &[Read],
    at: Timestamp,
) -> Result<bool, NoMemory>
    ensures { IfOk result (λ so. IsTrue so ↔ All (λ r. Matches r (as_of at versions.now))
        reads.now) }
{
    for read in reads {
        let so = versions.is_still_so(alloc, read, at)?;
        if !so {
            return Ok(false);
        }
    }
    Ok(true)
}

/// A new cache that takes over what a summary of another one tells of a span, in at most `most`
/// marks.
fn taken_over(
    alloc: Global,
    cache: &Cache,
    span: &Span,
    config: Config,
    most: usize,
    now: Timestamp,
) -> Result<Cache, CacheFault>
    ensures ok { IfOk result (λ next. TakesOver config span.now cache.now next) }
    ensures summed { IfOk result (λ next. AddsSummary config most now span.now cache.now next) }
    ensures too_large { IsErrOf result CacheFault.NoMemory
        ⊎ ReportsTooLarge cache.now span.now config most (IsErrOf result CacheFault.TooLarge) }
{
    let reported = summary(alloc, cache, span, most)?;
    let mut next = Cache::new(alloc, config)?;
    apply(&mut next, &reported, now)?;
    Ok(next)
}

/// Whether a span lies within another.
fn is_within(span: &Span, outer: &Span) -> bool
    ensures { result ≡ is_within span.now outer.now }
{
    match (span.cuts(), outer.cuts()) {
        (Some((first, end)), Some((from, to))) => !first.is_below(from) && !to.is_below(end),
        (Some(_), None) => false,
        (None, _) => true,
    }
}

/// Whether each key that is written lies in a span.
fn are_within(writes: &[Write], outer: &Span) -> bool
    ensures { result ≡ are_within writes.now outer.now }
{
    for write in writes {
        if !outer.covers(write.key.bytes()) {
            return false;
        }
    }
    true
}

/// Whether a cache has room for each of some reads.
fn reads_fit(cache: &Cache, reads: &[Read]) -> bool
    ensures { result ≡ reads_fit cache.now.config reads.now }
{
    for read in reads {
        if !cache.fits(&read.span) {
            return false;
        }
    }
    true
}

/// Adds a read that fits.
fn add(cache: &mut Cache, span: &Span, value: Value, now: Timestamp) -> Result<(), NoMemory>
    requires { fits cache.old.config span.now ≡ true }
    ensures stands { OnOk result (StandsAfter cache.old cache.new (record {
      span = span.now;
      value = value;
    }) now) }
    ensures unchanged { OnErr result (cache.new ≡ cache.old) }
{
    cache.add_one_fitting(span, value, now)?;
    Ok(())
}

/// Adds reads that fit, all of them or none.
fn add_all(cache: &mut Cache, marks: &[Mark], now: Timestamp) -> Result<(), NoMemory>
    requires { all_fit cache.old.config marks.now ≡ true }
    ensures stands { OnOk result (StandsAfterAll cache.old cache.new marks.now now) }
    ensures unchanged { OnErr result (cache.new ≡ cache.old) }
{
    cache.add_all_fitting(marks, now)?;
    Ok(())
}

/// Makes room for some more of a list.
fn reserve<T>(all: &mut Vec<T>, more: usize) -> Result<(), NoMemory>
    ensures items { all.new.items ≡ all.old.items }
    ensures room { OnOk result (vec_len all.new + more ≤ vec_capacity all.new) }
{
    all.reserve(more)?;
    Ok(())
}

/// What the cache remembers of reads.
fn marks_of(alloc: Global, reads: &[Read], at: Timestamp, by: Uuid) -> Result<Vec<Mark>, NoMemory>
    ensures { IfOk result (λ marks. marks.items ≡ map (mark_of at by) reads.now) }
{
    let mut marks = Vec::new(alloc);
    for read in reads {
        marks.push(Mark {
            span: read.span.try_copy()?,
            value: Value::of(at, by),
        })?;
    }
    Ok(marks)
}
