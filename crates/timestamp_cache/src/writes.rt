//! Whether and from when on a write may be made, over a cache or a seat of a shared one.
ghost use Rattle.std.specs.Prelude.{◌≡◌, ◌↔◌, IsTrue, IfOk, IfSome, OnErr};
ghost use Rattle.tsc_cache.specs.ConfigView.{ConfigView};
ghost use Rattle.tsc_cache.specs.History.{History, state_of};
ghost use Rattle.tsc_cache.specs.CacheView.{RepresentsState, cache_answer};
ghost use Rattle.timestamp_cache.specs.Clear.{IsClearOf, IsClearOfReads, IsClearOfAnswers};
ghost use Rattle.timestamp_cache.specs.Clear.{IsClearOfAllReads, AsksAt, AsksEarliestAt};
ghost use Rattle.timestamp_cache.specs.Clear.{AsksOfAllAt};
ghost use Rattle.timestamp_cache.specs.Earliest.{ReportsEarliest};
ghost use Rattle.timestamp_cache.specs.SeatKinds.{HasLookedOn};

use crate::{Lookup, earliest_clear_of, is_clear_of};
use tsc_cache::{Cache, TimestampCache};
use tsc_span::Span;
use tsc_time::Timestamp;
use uuid::Uuid;

/// Whether a transaction may write a span at some time: whether that is clear of what a lookup of
/// the span answers.
///
/// A write that may be made is clear of each read on the span that was added so far, also of one
/// whose page is gone. Where it may not, the transaction may still be pushed, to the time that
/// [`earliest_write`] tells. It costs a lookup, and takes no memory.
///
/// ```
/// let mut cache = Cache::new(alloc, config()?)?;
/// cache.add(&keys(alloc, "a", "c")?, Value::of(at(20), id('A')), at(20))?;
/// let key = keys(alloc, "b", "")?;
/// assert!(rt; may_write(&cache, &key, at(20), id('A')));
/// assert!(rt; !may_write(&cache, &key, at(20), id('B')));
/// ```
pub fn may_write(cache: &Cache, span: &Span, at: Timestamp, by: Uuid) -> bool
    ensures value { IsTrue result ↔ IsClearOf (cache_answer cache.now span.now) by at }
    ensures reads { IsTrue result → (config : ConfigView) (h : History) →
        RepresentsState cache.now config (state_of config h) → IsClearOfReads h span.now by at }
{
    is_clear_of(cache.get_max(span), at, by)
}

/// As [`may_write`], for a seat: whether the write is clear of what a lookup by the seat answers.
/// The seat has then seen the history that is answered from, and the write is clear of each read on
/// the span in it.
///
/// The call is one [`look_up`](Lookup::look_up), and is refused where that is; the seat is then as
/// it was. At a [`SharedCache`](crate::SharedCache) it waits for nobody, takes no memory, and is
/// never refused.
///
/// ```
/// let (cache, mut seats) = SharedCache::open(alloc, config()?, 1, u64::MAX)?;
/// let mut seat = seats.pop().ok_or("a seat")?;
/// let key = keys(alloc, "b", "")?;
/// cache.try_add(&mut seat, &key, Value::of(at(20), id('A')), at(20), 64)?;
/// assert!(rt; may_write_at(&cache, &mut seat, &key, at(20), id('A'))?);
/// assert!(rt; !may_write_at(&cache, &mut seat, &key, at(20), id('B'))?);
/// ```
pub fn may_write_at<C: Lookup>(
    cache: &C,
    seat: &mut C::Seat,
    span: &Span,
    at: Timestamp,
    by: Uuid,
) -> Result<bool, C::Fault>
    requires at { C.IsAt cache.now seat.old }
    ensures asked { IfOk result
        (λ clear. AsksAt C.kind seat.old seat.new span.now by at clear) }
    ensures refused { OnErr result (C.MayRefuse × (seat.new ≡ seat.old)) }
{
    let value = cache.look_up(seat, span)?;
    Ok(is_clear_of(value, at, by))
}

/// The earliest time, not before `at`, at which a transaction may write all of these spans: at
/// which it is clear of what a lookup of each answers. It is `None` where no timestamp is.
///
/// A write at that time is clear of each read on one of the spans that was added so far. The call
/// costs a lookup for each span, and takes no memory.
///
/// ```
/// let mut cache = Cache::new(alloc, config()?)?;
/// cache.add(&keys(alloc, "a", "c")?, Value::of(at(20), id('A')), at(20))?;
/// let spans = [keys(alloc, "b", "")?, keys(alloc, "x", "")?];
/// assert_eq!(rt; earliest_write(&cache, &spans, at(15), id('A')), Some(at(20)));
/// assert_eq!(rt; earliest_write(&cache, &spans, at(15), id('B')), Timestamp::new(20, 1));
/// ```
pub fn earliest_write(cache: &Cache, spans: &[Span], at: Timestamp, by: Uuid) -> Option<Timestamp>
    ensures earliest { ReportsEarliest (λ t. IsClearOfAnswers cache.now spans.now by t) at result }
    ensures reads { IfSome result (λ t. (config : ConfigView) (h : History) →
        RepresentsState cache.now config (state_of config h) →
        IsClearOfAllReads h spans.now by t) }
{
    let mut time = at;
    for span in spans {
        time = earliest_clear_of(cache.get_max(span), time, by)?;
    }
    Some(time)
}

/// As [`earliest_write`], for a seat: the earliest time, not before `at`, at which the write is
/// clear of what lookups of the spans by the seat answer, one after another.
///
/// Each lookup may see more than the one before it. So what is told is the time from the one
/// lookup's on that is clear of the next: it is exact for each of them, and `None` where one of
/// them tells none.
///
/// A write at that time is clear of each read on a span that the seat had seen when that span was
/// looked up. On the last span these are all reads that the seat has seen in the end. On each other
/// span they are all that it had seen before the call, or more.
///
/// The call is a [`look_up`](Lookup::look_up) of each span, and is refused where one of them is.
/// The seat has then looked at the spans before that one. At a [`SharedCache`](crate::SharedCache)
/// it waits for nobody, takes no memory, and is never refused.
///
/// ```
/// let (cache, mut seats) = SharedCache::open(alloc, config()?, 1, u64::MAX)?;
/// let mut seat = seats.pop().ok_or("a seat")?;
/// let key = keys(alloc, "b", "")?;
/// cache.try_add(&mut seat, &key, Value::of(at(20), id('A')), at(20), 64)?;
/// let told = earliest_write_at(&cache, &mut seat, slice::from_ref(&key), at(15), id('B'))?;
/// assert_eq!(rt; told, Timestamp::new(20, 1));
/// ```
pub fn earliest_write_at<C: Lookup>(
    cache: &C,
    seat: &mut C::Seat,
    spans: &[Span],
    at: Timestamp,
    by: Uuid,
) -> Result<Option<Timestamp>, C::Fault>
    requires at { C.IsAt cache.now seat.old }
    ensures asked { IfOk result
        (λ reported. AsksOfAllAt C.kind seat.old seat.new spans.now by at reported) }
    ensures reads { IfOk result (λ reported. IfSome reported
        (λ t. IsClearOfAllReads (C.kind.seen seat.old) spans.now by t)) }
    ensures refused { OnErr result (C.MayRefuse × HasLookedOn C.kind seat.old seat.new) }
{
    let _number = cache.number(seat);
    let mut time = at;
    for span in spans {
        match earliest_of_one(cache, seat, span, time, by)? {
            Some(next) => time = next,
            None => return Ok(None),
        }
    }
    Ok(Some(time))
}

/// The earliest time, not before `at`, at which a write of one span is clear of what a lookup by
/// the seat answers.
fn earliest_of_one<C: Lookup>(
    cache: &C,
    seat: &mut C::Seat,
    span: &Span,
    at: Timestamp,
    by: Uuid,
) -> Result<Option<Timestamp>, C::Fault>
    requires at { C.IsAt cache.now seat.old }
    ensures asked { IfOk result
        (λ reported. AsksEarliestAt C.kind seat.old seat.new span.now by at reported) }
    ensures refused { OnErr result (C.MayRefuse × (seat.new ≡ seat.old)) }
{
    let value = cache.look_up(seat, span)?;
    Ok(earliest_clear_of(value, at, by))
}
