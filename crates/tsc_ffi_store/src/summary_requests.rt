//! The requests for a lease that goes on: what was read of a span, as bytes, and its way into the
//! cache of the next holder.

ghost use Rattle.std.specs.Prelude.{◌≡◌, ◌⊎◌, IfOk, IfErr, OnErr, Ok};
ghost use Rattle.tsc_ffi_store.specs.Decode.{added_of};
ghost use Rattle.timestamp_cache.specs.SummaryReading.{summary_of};
ghost use Rattle.tsc_ffi_store.specs.Summaries.{asked_summary, asked_apply, ReportsSummary, RefusesSummary, AnswersSummary, PutsOr, PutsOrKeeps, AnswersSeatSummary, RefusesBytes, AnswersApply};
ghost use Rattle.tsc_ffi_store.specs.Counts.{CountsAdd, CountsNothing};
ghost use Rattle.tsc_ffi_store.specs.Kinds.{ByKind};
ghost use Rattle.tsc_ffi_store.specs.StripedCalls.{AnswersStripedSummary};
ghost use Rattle.tsc_ffi_store.specs.SummarySteps.{ReportsBytes, ReportsStripedBytes};

use crate::buffer::put;
use crate::cache_requests::{count, of_cache_fault};
use crate::counts::{CountedCache, CountedSeat};
use crate::ctypes::{ApplyArgs, SummaryArgs, TscAdded};
use crate::decode::{copied_span, time, words_of_added};
use crate::refusal::{OK, Refusal};
use crate::seats::SeatHandle;
use std::alloc::Global;
use timestamp_cache::{ReadSummary, SummaryFault, apply, summary};
use tsc_cache::Cache;

/// Puts the bytes of a summary of a cache into a buffer that has room for them, and tells how many
/// there are.
pub fn put_in(
    held: &CountedCache,
    alloc: Global,
    args: &SummaryArgs<'_>,
    out: &mut [u8],
    len: &mut usize,
) -> u32
    ensures { PutsOr (AnswersSummary (asked_summary args.now) held.now.cache)
        result out.old out.new len.old len.new }
{
    match bytes_in(&held.cache, alloc, args) {
        Ok(bytes) => put(OK, bytes.as_slice(), out, len),
        Err(why) => why.code(),
    }
}

/// Puts the bytes of a summary at a seat into a buffer that has room for them, and tells how many
/// there are, and how many Adds the seat has seen then.
pub fn put_at(
    held: &mut CountedSeat,
    alloc: Global,
    args: &SummaryArgs<'_>,
    seen: &mut u64,
    out: &mut [u8],
    len: &mut usize,
) -> u32
    ensures { PutsOrKeeps (CountsNothing
        (ByKind (AnswersSeatSummary (asked_summary args.now) seen.new)
        (AnswersStripedSummary (asked_summary args.now) seen.new)) held.old held.new)
        (seen.new ≡ seen.old) result out.old out.new len.old len.new }
{
    match bytes_at(&mut held.seat, alloc, args) {
        Ok(reported) => {
            *seen = reported.front;
            put(OK, reported.bytes.as_slice(), out, len)
        }
        Err(why) => why.code(),
    }
}

/// The bytes of a summary at a seat, and how many Adds the seat has seen then.
#[derive(Drop)]
pub(crate) struct SeatBytes {
    pub(crate) bytes: Vec<u8>,
    pub(crate) front: u64,
}

/// The bytes of a summary at a seat.
fn bytes_at(
    seat: &mut SeatHandle,
    alloc: Global,
    args: &SummaryArgs<'_>,
) -> Result<SeatBytes, Refusal>
    ensures answers { ByKind (ReportsBytes (asked_summary args.now))
        (ReportsStripedBytes (asked_summary args.now)) seat.old.seat seat.new.seat result }
    ensures same { seat.new.returns ≡ seat.old.returns }
{
    let span = copied_span(alloc, &args.span)?;
    let reported = seat.summary(alloc, &span, args.most)?;
    match reported.summary.to_bytes() {
        Ok(bytes) => Ok(SeatBytes {
            bytes,
            front: reported.front,
        }),
        Err(_) => Err(Refusal::NoMemory),
    }
}

/// The bytes of a summary of a cache.
fn bytes_in(cache: &Cache, alloc: Global, args: &SummaryArgs<'_>) -> Result<Vec<u8>, Refusal>
    ensures reported { IfOk result (λ bytes. ReportsSummary cache.now (asked_summary args.now)
        bytes.items) }
    ensures refused { IfErr result (λ why. RefusesSummary why (asked_summary args.now)) }
{
    let span = copied_span(alloc, &args.span)?;
    let Ok(reported) = summary(alloc, cache, &span, args.most) else {
        return Err(Refusal::NoMemory);
    };
    match reported.to_bytes() {
        Ok(bytes) => Ok(bytes),
        Err(_) => Err(Refusal::NoMemory),
    }
}

/// Adds what the bytes of a summary tell to a cache, and writes what that did.
pub fn apply_in(
    alloc: Global,
    held: &mut CountedCache,
    args: &ApplyArgs<'_>,
    out: &mut TscAdded,
) -> Result<(), Refusal>
    ensures answers { CountsAdd (AnswersApply (asked_apply args.now) (added_of out.new))
        out.new.evicted held.old held.new result }
    ensures kept { OnErr result (out.new ≡ out.old) }
{
    let did = apply_to(alloc, &mut held.cache, args, out);
    count(&mut held.counts, &did, out);
    did
}

/// Adds what the bytes of a summary tell, uncounted.
fn apply_to(
    alloc: Global,
    cache: &mut Cache,
    args: &ApplyArgs<'_>,
    out: &mut TscAdded,
) -> Result<(), Refusal>
    ensures answers { AnswersApply (asked_apply args.now) (added_of out.new) cache.old cache.new
        result }
    ensures kept { OnErr result (out.new ≡ out.old) }
{
    let reported = reported_by(alloc, args)?;
    let moment = time(args.moment)?;
    match apply(cache, &reported, moment) {
        Ok(added) => {
            *out = words_of_added(added);
            Ok(())
        }
        Err(fault) => Err(of_cache_fault(fault)),
    }
}

/// The summary that the bytes of a call are. Where there is no memory for it, the moment is looked
/// at first.
fn reported_by(alloc: Global, args: &ApplyArgs<'_>) -> Result<ReadSummary, Refusal>
    ensures reported { IfOk result (λ reported. summary_of args.now.summary.now ≡ Ok reported) }
    ensures refused { IfErr result (λ why. RefusesBytes why (asked_apply args.now)) }
{
    match ReadSummary::from_bytes(alloc, args.summary) {
        Ok(reported) => Ok(reported),
        Err(SummaryFault::Version) => Err(Refusal::SummaryVersion),
        Err(SummaryFault::Length) => Err(Refusal::SummaryLength),
        Err(SummaryFault::Checksum) => Err(Refusal::SummaryChecksum),
        Err(SummaryFault::Form) => Err(Refusal::SummaryForm),
        Err(SummaryFault::NoMemory) => {
            let _moment = time(args.moment)?;
            Err(Refusal::NoMemory)
        }
    }
}
