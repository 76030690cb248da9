//! What a lease holder asks at a cache in stripes, which goes on: [`summary_in_stripes`] tells what
//! was read of a span, and [`apply_in_stripes`] adds it to the cache of the new holder.
//!
//! `may_write_at` and `earliest_write_at` of `timestamp_cache` ask at a seat here by a [`Waiting`],
//! whose lookups wait for locks, or a [`Trying`], whose lookups give up.
//!
//! # Examples
//!
//! These lines stand before all examples of this crate:
//!
//! ```
//! use std::alloc::Global;
//! use std::test::Fail;
//! use timestamp_cache::{
//!     Config, ConfigFault, Key, Span, SpanFault, Timestamp, Uuid, Value, earliest_write_at,
//!     may_write_at,
//! };
//! use tsc_striped::StripedCache;
//! use tsc_striped_leases::*;
//!
//! fn at(wall: u64) -> Timestamp {
//!     Timestamp::new(wall, 0).unwrap_or(Timestamp::MAX)
//! }
//!
//! fn id(name: char) -> Uuid {
//!     Uuid::from_u128(u128::from(u32::from(name)))
//! }
//!
//! fn keys(alloc: Global, from: &str, to: &str) -> Result<Span, SpanFault> {
//!     Span::of(Key::new(alloc, from.as_bytes())?, Key::new(alloc, to.as_bytes())?)
//! }
//!
//! fn config() -> Result<Config, ConfigFault> {
//!     Config::new(1 << 10, 1 << 20, 2, 10_000_000_000, at(5))
//! }
//! ```
#![tactic(auto)]

ghost use Rattle.std.specs.Prelude.{◌≡◌, ◌+◌, ◌≤◌, length, IfOk, OnOk, IsErrOf, Some};
ghost use Rattle.tsc_striped.specs.Answers.{AnswersAdd, AnswersTriedAdd};
ghost use Rattle.tsc_stripe_table.specs.Stripes.{stripe_count};
ghost use Rattle.timestamp_cache.specs.HandOver.{marks_reported};
ghost use Rattle.tsc_striped_leases.specs.Leases.{HasLookedOn, SummarizeFrom, SummarizesInStripes};
ghost use Rattle.tsc_striped_leases.specs.Leases.{TakesOverInStripes};

pub mod laws;
mod lookups;
mod merging;

pub use lookups::{Trying, Waiting};
pub use merging::merged;
use std::alloc::Global;
use std::sync::Wait;
use timestamp_cache::{ReadSummary, summary};
use tsc_cache::Mark;
use tsc_span::Span;
use tsc_striped::{AddFault, Receipt, Seat, Snapshot, SnapshotFault, StripedCache, TryAddFault};
use tsc_time::{NoMemory, Timestamp, Value};

/// A summary for each stripe that the span touches, of what lies of the span there, each in at most
/// `most` marks, as [`summary`] makes it of a cache. All are of one moment: of the stripes after
/// one history that begins with all that the seat has seen. The seat has then seen all of it.
///
/// Together the summaries tell no less than each read of that history on the span. So each of them
/// is to be applied, in any order. The floor of a stripe stands in its own summary alone, so a
/// stripe that is read much lifts no other.
///
/// The history has what the seat has seen, and each Add in these stripes whose locks were released
/// before. So who hands a lease on first stops its readers, and then makes this call. No clause
/// says that an Add which has returned is seen, since no contract speaks of time. A seat that has
/// learned each reader's last [`Front`](tsc_striped::Front) has seen them all by contract.
///
/// The call is made over a [`snapshot`](StripedCache::snapshot), and waits as that does. Where
/// memory is refused, the seat has seen as much as before, or as after a lookup.
///
/// ```
/// let bounds = vec![in alloc; Key::new(alloc, b"m")?]?;
/// let (cache, mut dealer) = StripedCache::open(alloc, config()?, bounds, 1)?;
/// let mut seat = cache.deal(&mut dealer).ok_or("a seat")?;
/// cache.add(&rt, &mut seat, &keys(alloc, "b", "")?, Value::of(at(20), id('A')), at(20))?;
/// let told = summary_in_stripes(&rt, alloc, &cache, &mut seat, &keys(alloc, "a", "z")?, 8)?;
/// assert_eq!(rt; (told.len(), told[0].marks.len(), told[1].marks.len()), (2, 1, 0));
/// ```
pub fn summary_in_stripes<R: Wait>(
    rt: &R,
    alloc: Global,
    cache: &StripedCache,
    seat: &mut Seat,
    span: &Span,
    most: usize,
) -> Result<Vec<ReadSummary>, NoMemory>
    requires cache { seat.old.cache ≡ cache.now }
    ensures reported { IfOk result
        (λ reported. SummarizesInStripes seat.old seat.new span.now most reported.items) }
    ensures looked { HasLookedOn seat.old seat.new }
{
    let _number = seat.number();
    let snapshot = cache.snapshot(rt, seat, span)?;
    let reported = summaries(alloc, cache, &snapshot, span, most)?;
    Ok(reported)
}

/// As [`summary_in_stripes`], where the caller has no leave to wait: it tries `tries` times to
/// acquire all locks that it needs. Where another seat held one of them at each try, the answer is
/// `Busy`, and the seat is as it was. With no tries that is always so.
///
/// ```
/// let (cache, mut dealer) = StripedCache::open(alloc, config()?, Vec::new(alloc), 1)?;
/// let mut seat = cache.deal(&mut dealer).ok_or("a seat")?;
/// cache.try_add(&mut seat, &keys(alloc, "b", "")?, Value::of(at(20), id('A')), at(20), 64)?;
/// let span = keys(alloc, "a", "z")?;
/// let told = try_summary_in_stripes(alloc, &cache, &mut seat, &span, 8, 64)?;
/// assert_eq!(rt; (told.len(), told[0].marks.len()), (1, 1));
/// ```
pub fn try_summary_in_stripes(
    alloc: Global,
    cache: &StripedCache,
    seat: &mut Seat,
    span: &Span,
    most: usize,
    tries: u32,
) -> Result<Vec<ReadSummary>, SnapshotFault>
    requires cache { seat.old.cache ≡ cache.now }
    ensures reported { IfOk result
        (λ reported. SummarizesInStripes seat.old seat.new span.now most reported.items) }
    ensures looked { HasLookedOn seat.old seat.new }
    ensures busy { IsErrOf result SnapshotFault.Busy → seat.new ≡ seat.old }
    ensures no_tries { tries ≡ 0 → IsErrOf result SnapshotFault.Busy }
{
    let _number = seat.number();
    let snapshot = cache.try_snapshot(seat, span, tries)?;
    match summaries(alloc, cache, &snapshot, span, most) {
        Ok(reported) => Ok(reported),
        Err(_) => Err(SnapshotFault::NoMemory),
    }
}

/// A summary of each cache of a snapshot, in their order.
fn summaries(
    alloc: Global,
    cache: &StripedCache,
    snapshot: &Snapshot,
    span: &Span,
    most: usize,
) -> Result<Vec<ReadSummary>, NoMemory>
    requires { snapshot.now.first + length snapshot.now.caches.items
        ≤ stripe_count cache.now.terms.bounds }
    ensures { IfOk result (λ reported. SummarizeFrom cache.now.terms.bounds span.now most
        snapshot.now.first snapshot.now.caches.items reported.items) }
{
    let _stripes = cache.stripes();
    let mut reported = Vec::new(alloc);
    let mut stripe = snapshot.first;
    for copy in &snapshot.caches {
        let piece = cache.piece_of(alloc, stripe, span)?;
        let one = summary(alloc, copy, &piece, most)?;
        reported.push(one)?;
        stripe += 1;
    }
    Ok(reported)
}

/// Adds what a summary tells at a seat of a cache in stripes, at the moment `now`: all of it as one
/// entry of the history, or nothing. From then on no answer on the summary's span is below what the
/// summary tells there.
///
/// The call is one [`add_all`](StripedCache::add_all) of the whole span at the summary's floor,
/// without an owner, and of the summary's marks. It waits, and is refused, as that is.
///
/// ```
/// let (cache, mut dealer) = StripedCache::open(alloc, config()?, Vec::new(alloc), 1)?;
/// let mut seat = cache.deal(&mut dealer).ok_or("a seat")?;
/// let (key, span) = (keys(alloc, "b", "")?, keys(alloc, "a", "z")?);
/// cache.add(&rt, &mut seat, &key, Value::of(at(20), id('A')), at(20))?;
/// let told = summary_in_stripes(&rt, alloc, &cache, &mut seat, &span, 8)?;
/// let (next, mut next_dealer) = StripedCache::open(alloc, config()?, Vec::new(alloc), 1)?;
/// let mut next_seat = next.deal(&mut next_dealer).ok_or("a seat")?;
/// for one in &told {
///     apply_in_stripes(&rt, &next, &mut next_seat, one, at(30))?;
/// }
/// assert_eq!(rt; next.get_max(&rt, &mut next_seat, &key), Value::of(at(20), id('A')));
/// ```
pub fn apply_in_stripes<R: Wait>(
    rt: &R,
    cache: &StripedCache,
    seat: &mut Seat,
    summary: &ReadSummary,
    now: Timestamp,
) -> Result<Receipt, AddFault>
    requires cache { seat.old.cache ≡ cache.now }
    ensures answers { AnswersAdd seat.old seat.new (marks_reported summary.now) now result }
    ensures takes_over { OnOk result (TakesOverInStripes seat.new summary.now) }
{
    let _number = seat.number();
    if seat.count() == u64::MAX {
        return Err(AddFault::SeatFull);
    }
    let Ok(marks) = marks_of(summary) else {
        return Err(AddFault::NoMemory);
    };
    cache.add_all(rt, seat, &marks, now)
}

/// As [`apply_in_stripes`], where the caller has no leave to wait: it tries `tries` times to
/// acquire all locks that it needs. Where another seat held one of them at each try, nothing is
/// applied, and the answer is `Busy`. With no tries that is always so, before any memory is asked
/// for. `SeatFull` comes before.
///
/// ```
/// let (cache, mut dealer) = StripedCache::open(alloc, config()?, Vec::new(alloc), 1)?;
/// let mut seat = cache.deal(&mut dealer).ok_or("a seat")?;
/// let (key, span) = (keys(alloc, "b", "")?, keys(alloc, "a", "z")?);
/// cache.try_add(&mut seat, &key, Value::of(at(20), id('A')), at(20), 64)?;
/// let told = try_summary_in_stripes(alloc, &cache, &mut seat, &span, 8, 64)?;
/// let (next, mut next_dealer) = StripedCache::open(alloc, config()?, Vec::new(alloc), 1)?;
/// let mut next_seat = next.deal(&mut next_dealer).ok_or("a seat")?;
/// for one in &told {
///     try_apply_in_stripes(&next, &mut next_seat, one, at(30), 64)?;
/// }
/// assert_eq!(rt; next.try_get_max(&mut next_seat, &key, 64)?, Value::of(at(20), id('A')));
/// ```
pub fn try_apply_in_stripes(
    cache: &StripedCache,
    seat: &mut Seat,
    summary: &ReadSummary,
    now: Timestamp,
    tries: u32,
) -> Result<Receipt, TryAddFault>
    requires cache { seat.old.cache ≡ cache.now }
    ensures answers { AnswersTriedAdd seat.old seat.new (marks_reported summary.now) now
        (Some tries) result }
    ensures takes_over { OnOk result (TakesOverInStripes seat.new summary.now) }
{
    let _number = seat.number();
    if seat.count() == u64::MAX {
        return Err(TryAddFault::Refused(AddFault::SeatFull));
    }
    if tries == 0 {
        return Err(TryAddFault::Busy);
    }
    let Ok(marks) = marks_of(summary) else {
        return Err(TryAddFault::Refused(AddFault::NoMemory));
    };
    cache.try_add_all(seat, &marks, now, tries)
}

/// The marks that are added where a summary is applied.
fn marks_of(summary: &ReadSummary) -> Result<Vec<Mark>, NoMemory>
    ensures { IfOk result (λ marks. marks.items ≡ marks_reported summary.now) }
{
    let mut marks = Vec::new(*summary.marks.allocator());
    marks.push(mark_of(&summary.span, Value::unowned(summary.floor))?)?;
    for mark in &summary.marks {
        marks.push(mark_of(&mark.span, mark.value)?)?;
    }
    Ok(marks)
}

/// A mark of a copy of a span.
fn mark_of(span: &Span, value: Value) -> Result<Mark, NoMemory>
    ensures { IfOk result (λ mark. mark ≡ record { span = span.now; value = value }) }
{
    Ok(Mark {
        span: span.try_copy()?,
        value,
    })
}
