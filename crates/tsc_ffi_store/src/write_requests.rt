//! The requests of writes: whether and from when on they may be made.

ghost use Rattle.std.specs.Prelude.{◌≡◌, ◌↔◌, IfOk, IfErr, OnErr, IsTrue, Some};
ghost use Rattle.tsc_ffi_store.specs.Decode.{time_of};
ghost use Rattle.tsc_ffi_store.specs.Counts.{CountsLookup, CountsSeatLookup};
ghost use Rattle.tsc_ffi_store.specs.Writes.{asked_write, IsSpan, AllSpans, RefusesSpan, RefusesSpans, RefusesWrite, ReportsWrite, AnswersWrite, AnswersSeatWrite, AnswersMayWrite, AnswersSeatMayWrite};
ghost use Rattle.tsc_ffi_store.specs.WriteSteps.{ReportsLater, AsksLater, AsksLaterStriped, AsksOfWrite, AsksOfWriteStriped};
ghost use Rattle.tsc_ffi_store.specs.Kinds.{ByKind};
ghost use Rattle.tsc_ffi_store.specs.StripedCalls.{AnswersStripedWrite, AnswersStripedMayWrite};

use crate::counts::{CountedCache, CountedSeat};
use crate::ctypes::{SpanArgs, TscSpan, TscTime, WriteArgs};
use crate::decode::{value_time, words_of_time, written_span};
use crate::marks::part;
use crate::refusal::Refusal;
use crate::seats::SeatHandle;
use timestamp_cache::earliest_clear_of;
use tsc_cache::{Cache, TimestampCache};
use tsc_span::SpanRef;
use tsc_time::Timestamp;
use uuid::Uuid;

/// Writes the earliest time, from that of a write on, at which the write is clear of what a cache
/// answers to each of its spans.
pub fn write_in(
    held: &mut CountedCache,
    args: &WriteArgs<'_>,
    out: &mut TscTime,
) -> Result<(), Refusal>
    ensures answers { CountsLookup (AnswersWrite (asked_write args.now) (time_of out.new)) held.old
        held.new result }
    ensures kept { OnErr result (out.new ≡ out.old) }
{
    let Some(time) = earliest_in(&held.cache, args)? else {
        return Err(Refusal::NoTime);
    };
    *out = words_of_time(time);
    held.counts.answer();
    Ok(())
}

/// Writes the earliest time, from that of a write on, at which the write is clear of what a seat
/// answers to each of its spans. `seen` gets how many Adds the seat has seen then.
pub fn write_at(
    held: &mut CountedSeat,
    args: &WriteArgs<'_>,
    seen: &mut u64,
    out: &mut TscTime,
) -> Result<(), Refusal>
    ensures answers { CountsSeatLookup
        (ByKind (AnswersSeatWrite (asked_write args.now) seen.new (time_of out.new))
        (AnswersStripedWrite (asked_write args.now) seen.new (time_of out.new))) held.old held.new
        result }
    ensures kept { OnErr result ((seen.new ≡ seen.old) × (out.new ≡ out.old)) }
{
    let Some(time) = earliest_at(&mut held.seat, args)? else {
        return Err(Refusal::NoTime);
    };
    *seen = held.seat.seen();
    *out = words_of_time(time);
    held.counts.answer();
    Ok(())
}

/// Writes whether a write is clear, at its time, of what a cache answers to each of its spans.
pub fn may_in(held: &mut CountedCache, args: &WriteArgs<'_>, out: &mut bool) -> Result<(), Refusal>
    ensures answers { CountsLookup (AnswersMayWrite (asked_write args.now) out.new) held.old
        held.new result }
    ensures kept { OnErr result (out.new ≡ out.old) }
{
    let at = value_time(args.write)?;
    let earliest = earliest_in(&held.cache, args)?;
    *out = is_at(earliest, at);
    held.counts.answer();
    Ok(())
}

/// Writes whether a write is clear, at its time, of what a seat answers to each of its spans.
/// `seen` gets how many Adds the seat has seen then.
pub fn may_at(
    held: &mut CountedSeat,
    args: &WriteArgs<'_>,
    seen: &mut u64,
    out: &mut bool,
) -> Result<(), Refusal>
    ensures answers { CountsSeatLookup
        (ByKind (AnswersSeatMayWrite (asked_write args.now) seen.new out.new)
        (AnswersStripedMayWrite (asked_write args.now) seen.new out.new)) held.old held.new
        result }
    ensures kept { OnErr result ((seen.new ≡ seen.old) × (out.new ≡ out.old)) }
{
    let at = value_time(args.write)?;
    let earliest = earliest_at(&mut held.seat, args)?;
    *seen = held.seat.seen();
    *out = is_at(earliest, at);
    held.counts.answer();
    Ok(())
}

/// Whether the earliest time is this one.
fn is_at(earliest: Option<Timestamp>, at: Timestamp) -> bool
    ensures { IsTrue result ↔ (earliest ≡ Some at) }
{
    match earliest {
        Some(earliest) => earliest == at,
        None => false,
    }
}

/// The earliest time at which a write is clear of what a cache answers to each of some spans.
fn earliest_in(cache: &Cache, args: &WriteArgs<'_>) -> Result<Option<Timestamp>, Refusal>
    ensures reported { IfOk result (λ reported. ReportsWrite cache.now (asked_write args.now)
        reported) }
    ensures refused { IfErr result (λ why. RefusesWrite why (asked_write args.now)) }
{
    let mut time = Some(value_time(args.write)?);
    let by = Uuid::from_bytes(args.write.owner);
    for words in args.spans {
        let span = span(args.keys, words)?;
        time = later_in(cache, &span, time, by);
    }
    Ok(time)
}

/// The earliest time at which a write is clear of what a seat answers to some spans, one after
/// another. All of them are read before the first lookup, so that a refused write has seen nothing.
fn earliest_at(seat: &mut SeatHandle, args: &WriteArgs<'_>) -> Result<Option<Timestamp>, Refusal>
    ensures answers { ByKind (AsksOfWrite (asked_write args.now))
        (AsksOfWriteStriped (asked_write args.now)) seat.old.seat seat.new.seat result }
    ensures same { seat.new.returns ≡ seat.old.returns }
{
    let _seen = seat.seen();
    let mut time = Some(value_time(args.write)?);
    check_spans(args.keys, args.spans)?;
    let by = Uuid::from_bytes(args.write.owner);
    for words in args.spans {
        let Ok(span) = span(args.keys, words) else {
            unreachable!()
        };
        time = later_at(seat, &span, time, by)?;
    }
    Ok(time)
}

/// Whether each of some words is a span that may be written.
fn check_spans(keys: &[u8], spans: &[TscSpan]) -> Result<(), Refusal>
    ensures reported { IfOk result (λ _. AllSpans keys.now spans.now) }
    ensures refused { IfErr result (λ why. RefusesSpans why keys.now spans.now) }
{
    for words in spans {
        let _span = span(keys, words)?;
    }
    Ok(())
}

/// The earliest time from one on that is clear of what a cache answers to a span, if there is one.
fn later_in(
    cache: &Cache,
    span: &SpanRef<'_>,
    time: Option<Timestamp>,
    by: Uuid,
) -> Option<Timestamp>
    ensures { ReportsLater cache.now span.now by time result }
{
    match time {
        Some(time) => earliest_clear_of(cache.get_max_ref(span), time, by),
        None => None,
    }
}

/// The earliest time from one on that is clear of what a seat answers to a span, if there is one.
fn later_at(
    seat: &mut SeatHandle,
    span: &SpanRef<'_>,
    time: Option<Timestamp>,
    by: Uuid,
) -> Result<Option<Timestamp>, Refusal>
    ensures reported { ByKind (AsksLater span.now by time) (AsksLaterStriped span.now by time)
        seat.old.seat seat.new.seat result }
    ensures same { seat.new.returns ≡ seat.old.returns }
{
    match time {
        Some(time) => {
            let answer = seat.get_max_ref(span)?;
            Ok(earliest_clear_of(answer.value, time, by))
        }
        None => Ok(None),
    }
}

/// The span of these words, over the keys where they lie.
fn span<'a>(keys: &'a [u8], words: &TscSpan) -> Result<SpanRef<'a>, Refusal>
    ensures value { IfOk result (λ span. IsSpan keys.now words.now span) }
    ensures refused { IfErr result (λ why. RefusesSpan why keys.now words.now) }
{
    let from = part(keys, words.from_at, words.from_len)?;
    let to = part(keys, words.to_at, words.to_len)?;
    let ends = words.ends;
    written_span(&SpanArgs { from, to, ends })
}
