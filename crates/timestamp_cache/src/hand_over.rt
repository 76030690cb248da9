//! Summaries: a lease holder hands on what it knows of reads, and the next one applies it.
ghost use Rattle.std.specs.Prelude.{◌≡◌, [], ◌&&◌, not, option_map, true, false, IfOk, OnOk, OnErr};
ghost use Rattle.tsc_time.specs.Time.{is_before};
ghost use Rattle.tsc_span.specs.Span.{is_below, is_empty_span, key_of_cut, between};
ghost use Rattle.tsc_span.specs.Cuts.{cut_of};
ghost use Rattle.tsc_cache.specs.ConfigView.{ConfigView, fits};
ghost use Rattle.tsc_cache.specs.State.{CacheState, step_all};
ghost use Rattle.tsc_cache.specs.Batch.{all_fit, is_any_kept, AddsAll};
ghost use Rattle.tsc_cache.specs.CacheView.{RepresentsState};
ghost use Rattle.tsc_cache.specs.Keys.{keys_seen};
ghost use Rattle.timestamp_cache.specs.HandOver.{marks_reported, RefusesOnlyFor, Summarizes, TakesOver};
ghost use Rattle.tsc_shared.specs.Answers.{HasLookedOn};
ghost use Rattle.timestamp_cache.specs.SeatSummaries.{SummarizesAt};
ghost use Rattle.timestamp_cache.specs.Stretches.{is_after, stretch_end, IsStretch, reported_more};

use std::alloc::Global;
use std::marker::Model;
use tsc_cache::{Added, Cache, CacheFault, Mark, TimestampCache};
use tsc_shared::{Seat, SharedCache};
use tsc_span::{Cut, Ends, Key, Span, SpanRef};
use tsc_time::{NoMemory, Timestamp, Value};

/// A summary of the reads of a span, for whoever takes its lease over. How it is sent is up to the
/// caller.
#[derive(Debug, Drop)]
pub struct ReadSummary {
    /// The span whose reads are summarized.
    pub span: Span,
    /// No read on the span that no mark tells of was later.
    pub floor: Timestamp,
    /// Parts of the span that were read later, each with what the cache answers there.
    pub marks: Vec<Mark>,
}

impl Model for ReadSummary {
    ghost use Rattle.timestamp_cache.specs.HandOver.{Summary};

    ghost Value = { Summary };

    ghost view = { λ s. record { span = s.span; floor = s.floor; marks = s.marks.items } };
}

/// What a seat of a shared cache is told of the reads of a span.
#[derive(Debug, Drop)]
pub struct SeatSummary {
    pub summary: ReadSummary,
    /// The length of the history that is summarized, which the seat has seen then.
    pub front: u64,
}

/// Summarizes what a cache answers on a span, in at most `most` marks.
///
/// The function goes over the span from one end key of a mark to the next. For each key, and each
/// gap between two keys, it tells what [`get_max`](Cache::get_max) answers, where that is above the
/// cache's floor. Where there are more of these than `most`, the first ones are told, and the floor
/// is raised to the latest of the others. It costs a lookup for each of them, and a search in each
/// page for each end key. It takes the memory of the span's keys and of the marks.
///
/// The function restates `tscache.Cache.Serialize` of CockroachDB's `pkg/kv/kvserver/tscache`.
///
/// ```
/// let mut cache = Cache::new(alloc, config()?)?;
/// cache.add(&keys(alloc, "b", "")?, Value::of(at(20), id('A')), at(20))?;
/// let whole = summary(alloc, &cache, &keys(alloc, "a", "z")?, 8)?;
/// assert_eq!(rt; (whole.floor, whole.marks.len()), (at(5), 1));
/// let short = summary(alloc, &cache, &keys(alloc, "a", "z")?, 0)?;
/// assert_eq!(rt; (short.floor, short.marks.len()), (at(20), 0));
/// ```
pub fn summary(
    alloc: Global,
    cache: &Cache,
    span: &Span,
    most: usize,
) -> Result<ReadSummary, NoMemory>
    ensures { IfOk result (λ reported. Summarizes cache.now span.now most reported) }
{
    let reported = ReadSummary {
        span: span.try_copy()?,
        floor: cache.low_water(),
        marks: Vec::new(alloc),
    };
    match span.cuts() {
        Some(cuts) => reported.over(alloc, cache, cuts, most),
        None => Ok(reported),
    }
}

/// As [`summary`], at a seat of a shared cache, which goes on: of the cache after a history that
/// begins with all that the seat has seen, and that has each Add that returned before, as in
/// [`get_max`](SharedCache::get_max). The seat has then seen all of it.
///
/// The summary tells no less than each read of that history on the span. So a lease moves in this
/// order: the old holder answers no further read of the span, its threads' Adds return, and a seat
/// then summarizes.
///
/// The call waits for nobody. It is made over a [`snapshot`](SharedCache::snapshot), so an Add
/// meanwhile waits for no more than a lookup, and finds the pages shared. Where memory is refused,
/// the seat has seen as much as after a lookup.
///
/// ```
/// let (cache, mut seats) = SharedCache::open(alloc, config()?, 1, u64::MAX)?;
/// let mut seat = seats.pop().ok_or("a seat")?;
/// cache.try_add(&mut seat, &keys(alloc, "b", "")?, Value::of(at(20), id('A')), at(20), 64)?;
/// let told = summary_at(alloc, &cache, &mut seat, &keys(alloc, "a", "z")?, 8)?;
/// assert_eq!(rt; (told.front, told.summary.marks.len()), (1, 1));
/// ```
pub fn summary_at(
    alloc: Global,
    cache: &SharedCache,
    seat: &mut Seat,
    span: &Span,
    most: usize,
) -> Result<SeatSummary, NoMemory>
    requires cache { seat.old.cache ≡ cache.now }
    ensures reported { IfOk result (λ reported. SummarizesAt seat.old seat.new span.now most
        reported) }
    ensures looked { HasLookedOn seat.old seat.new }
{
    let snapshot = cache.snapshot(seat)?;
    let reported = summary(alloc, &snapshot.cache, span, most)?;
    Ok(SeatSummary {
        summary: reported,
        front: snapshot.front,
    })
}

impl ReadSummary {
    /// Tells of each stretch between two cuts.
    fn over(
        self,
        alloc: Global,
        cache: &Cache,
        cuts: (Cut<'_>, Cut<'_>),
        most: usize,
    ) -> Result<ReadSummary, NoMemory>
        requires order { is_below (cut_of cuts.0) (cut_of cuts.1) ≡ true }
        requires span { self.span ≡ between (cut_of cuts.0) (cut_of cuts.1) }
        requires floor { self.floor ≡ cache.now.floor }
        requires none { self.marks ≡ [] }
        ensures { IfOk result (λ reported. Summarizes cache.now self.span most reported) }
    {
        let mut reported = self;
        let (mut at, to) = cuts;
        while at.is_below(to) {
            let end = stretch_end(cache, at, to);
            let value = cache.get_max_ref(&stretch(at, end));
            reported = reported.with(alloc, (at, end), value, most)?;
            at = end;
        }
        Ok(reported)
    }

    /// Tells of one stretch more.
    fn with(
        mut self,
        alloc: Global,
        cuts: (Cut<'_>, Cut<'_>),
        value: Value,
        most: usize,
    ) -> Result<ReadSummary, NoMemory>
        requires order { is_below (cut_of cuts.0) (cut_of cuts.1) ≡ true }
        ensures { IfOk result (λ reported. reported ≡ reported_more most self
            (between (cut_of cuts.entry.0) (cut_of cuts.entry.1)) value) }
    {
        if self.floor < value.time() {
            if self.marks.len() < most {
                let span = owned(alloc, cuts.0, cuts.1)?;
                self.marks.push(Mark { span, value })?;
            } else {
                self.floor = value.time();
            }
        }
        Ok(self)
    }

    /// The marks that are added where the summary is applied.
    fn to_marks(&self) -> Result<Vec<Mark>, NoMemory>
        ensures { IfOk result (λ marks. marks.items ≡ marks_reported self.now) }
    {
        let mut marks = Vec::new(*self.marks.allocator());
        marks.push(mark_of(&self.span, Value::unowned(self.floor))?)?;
        for mark in &self.marks {
            marks.push(mark_of(&mark.span, mark.value)?)?;
        }
        Ok(marks)
    }
}

/// Adds what a summary tells to a cache, at the moment `now`: all of it or nothing. From then on no
/// answer on the summary's span is below what the summary tells there, so a write that is clear of
/// an answer is clear of each read that the summary was made of.
///
/// The call is one [`add_all`](Cache::add_all) of the whole span at the summary's floor, without an
/// owner, and of the summary's marks, and is refused where that is. Where none of them is kept
/// nothing changes, and no memory is taken; else it takes that of the marks once more.
///
/// The function restates `applyReadSummaryToTimestampCache` of CockroachDB's
/// `pkg/kv/kvserver/replica_tscache.go`.
///
/// ```
/// let (mut old, mut new) = (Cache::new(alloc, config()?)?, Cache::new(alloc, config()?)?);
/// old.add(&keys(alloc, "b", "")?, Value::of(at(20), id('A')), at(20))?;
/// apply(&mut new, &summary(alloc, &old, &keys(alloc, "a", "z")?, 8)?, at(30))?;
/// assert_eq!(rt; new.get_max(&keys(alloc, "b", "")?), Value::of(at(20), id('A')));
/// ```
pub fn apply(cache: &mut Cache, summary: &ReadSummary, now: Timestamp) -> Result<Added, CacheFault>
    ensures stands { OnOk result ((config : ConfigView) (s : CacheState) →
        RepresentsState cache.old config s
        → RepresentsState cache.new config
        (step_all config s (marks_reported summary.now) now).state) }
    ensures takes_over { OnOk result
        ((config : ConfigView) (s : CacheState) → RepresentsState cache.old config s
        → TakesOver s (step_all config s (marks_reported summary.now) now).state summary.now) }
    ensures added { IfOk result (λ added. (config : ConfigView) (s : CacheState) →
        RepresentsState cache.old config s
        → added ≡ (step_all config s (marks_reported summary.now) now).added) }
    ensures seen { IfOk result (λ added. AddsAll cache.old cache.new (marks_reported summary.now)
        now added) }
    ensures refused { RefusesOnlyFor cache.old summary.now result }
    ensures unchanged { OnErr result (cache.new ≡ cache.old) }
{
    if !fits_all(cache, summary) {
        return Err(CacheFault::TooLarge);
    }
    if !is_any_kept(cache.low_water(), summary) {
        return Ok(Added {
            kept: false,
            rotated: false,
            evicted: 0,
        });
    }
    let marks = summary.to_marks()?;
    cache.add_all(&marks, now)
}

/// Where the stretch from a cut on stops: at the next side of an end key, or at a third cut if that
/// is lower.
fn stretch_end<'a>(cache: &'a Cache, at: Cut<'a>, to: Cut<'a>) -> Cut<'a>
    requires { is_below (cut_of at) (cut_of to) ≡ true }
    ensures { IsStretch (keys_seen cache.now.pages) (cut_of at.entry) (cut_of to.entry)
        (cut_of result) }
{
    let end = end_of(at, cache.key_above(at));
    if end.is_below(to) { end } else { to }
}

/// Where the stretch from a cut on stops by the least key above it: at the first side of the key
/// that is above the cut.
fn end_of<'a>(at: Cut<'a>, key: Option<&'a Key>) -> Cut<'a>
    ensures { cut_of result ≡ stretch_end (cut_of at.entry) (option_map (λ k. k.now) key.entry) }
{
    match key {
        Some(key) if at.is_below(Cut::Before(key.bytes())) => Cut::Before(key.bytes()),
        Some(key) => Cut::After(key.bytes()),
        None => Cut::Last,
    }
}

/// The span between two cuts.
fn stretch<'a>(from: Cut<'a>, to: Cut<'a>) -> SpanRef<'a>
    requires { is_below (cut_of from) (cut_of to) ≡ true }
    ensures { result ≡ between (cut_of from.entry) (cut_of to.entry) }
{
    SpanRef::between(start_of(from, to), key_of(to), ends_of(from, to))
}

/// The span between two cuts, with keys of its own.
pub(crate) fn owned(alloc: Global, from: Cut<'_>, to: Cut<'_>) -> Result<Span, NoMemory>
    requires { is_below (cut_of from) (cut_of to) ≡ true }
    ensures { IfOk result (λ span. span ≡ between (cut_of from.entry) (cut_of to.entry)) }
{
    let start = own_key(alloc, start_of(from, to))?;
    let ends = ends_of(from, to);
    match key_of(to) {
        Some(end) => Ok(Span::for_lookup(start, own_key(alloc, end)?, ends)),
        None => Ok(Span::onward(start, ends.exclude_from)),
    }
}

/// A key of these bytes, which are those of a key.
pub(crate) fn own_key(alloc: Global, bytes: &[u8]) -> Result<Key, NoMemory>
    ensures { IfOk result (λ key. key ≡ bytes.now) }
{
    match Key::new(alloc, bytes) {
        Ok(key) => Ok(key),
        Err(_) => Err(NoMemory),
    }
}

/// The key of a cut; the last one has none.
fn key_of(cut: Cut<'_>) -> Option<&[u8]>
    ensures { option_map (λ k. k.now) result ≡ key_of_cut (cut_of cut.entry) }
{
    match cut {
        Cut::Before(key) | Cut::After(key) => Some(key),
        Cut::Last => None,
    }
}

/// The key of a cut below another one.
fn start_of<'a>(from: Cut<'a>, to: Cut<'_>) -> &'a [u8]
    requires { is_below (cut_of from) (cut_of to) ≡ true }
    ensures { key_of_cut (cut_of from.entry) ≡ Some result.now }
{
    match from {
        Cut::Before(key) | Cut::After(key) => key,
        Cut::Last => unreachable!(),
    }
}

/// Which of the keys of two cuts lie outside of what is between them.
fn ends_of(from: Cut<'_>, to: Cut<'_>) -> Ends
    ensures from { result.exclude_from ≡ is_after (cut_of from.entry) }
    ensures to { result.exclude_to ≡ not (is_after (cut_of to.entry)) }
{
    Ends {
        exclude_from: is_after(from),
        exclude_to: !is_after(to),
    }
}

/// Whether a cut is the place after a key.
fn is_after(cut: Cut<'_>) -> bool
    ensures { result ≡ is_after (cut_of cut.entry) }
{
    matches!(cut, Cut::After(_))
}

/// A mark of a copy of a span.
fn mark_of(span: &Span, value: Value) -> Result<Mark, NoMemory>
    ensures { IfOk result (λ mark. mark ≡ record { span = span.now; value = value }) }
{
    Ok(Mark {
        span: span.try_copy()?,
        value,
    })
}

/// Whether each span that a summary adds fits a cache.
fn fits_all(cache: &Cache, summary: &ReadSummary) -> bool
    ensures { result ≡ all_fit cache.now.config (marks_reported summary.now) }
{
    if !cache.fits(&summary.span) {
        return false;
    }
    for mark in &summary.marks {
        if !cache.fits(&mark.span) {
            return false;
        }
    }
    true
}

/// Whether any of the marks that a summary adds is kept above a floor.
fn is_any_kept(floor: Timestamp, summary: &ReadSummary) -> bool
    ensures { result ≡ is_any_kept floor (marks_reported summary.now) }
{
    if is_kept(floor, &summary.span, summary.floor) {
        return true;
    }
    for mark in &summary.marks {
        if is_kept(floor, &mark.span, mark.value.time()) {
            return true;
        }
    }
    false
}

/// Whether an Add of this span and time is kept above a floor.
fn is_kept(floor: Timestamp, span: &Span, time: Timestamp) -> bool
    ensures { result ≡ (not (is_empty_span span.now) && is_before floor time) }
{
    !span.is_empty() && floor < time
}
