//! Snapshots: copies of caches, from one moment.
ghost use Rattle.std.specs.Prelude.{◌≡◌, Some, IfOk, OnErr, IsErrOf};
ghost use Rattle.tsc_striped.specs.Waiting.{HasEnd};
ghost use Rattle.tsc_striped.specs.Answers.{TakesSnapshot};

use crate::answers::{Snapshot, SnapshotFault};
use crate::bounds::find_touched;
use crate::fault::StripeFault;
use crate::seat::Seat;
use crate::striped::StripedCache;
use crate::waiting::{Blocking, Bounded, WaitPolicy};
use std::sync::Wait;
use tsc_span::Span;
use tsc_time::NoMemory;

impl StripedCache {
    /// Copies of the caches of all stripes that a span touches, after one history that begins with
    /// all that the seat has seen. The seat has then seen all of it.
    ///
    /// The copies are made under the locks of these stripes, as a lookup of the span is, and other
    /// calls there wait. A copy costs a step for each of the newest pages, 256 at the most. Each
    /// shares its pages with the cache, whose next Add there finds the pages shared. The call
    /// takes the memory of a list of pages for each stripe. Where that is refused, the seat is as
    /// it was.
    ///
    /// The call waits as [`get_max`](StripedCache::get_max) does, and makes the copies anew each
    /// time that it begins anew.
    pub fn snapshot<R: Wait>(
        &self,
        rt: &R,
        seat: &mut Seat,
        span: &Span,
    ) -> Result<Snapshot, NoMemory>
        requires cache { seat.old.cache ≡ self.now }
        ensures taken { IfOk result
            (λ snapshot. TakesSnapshot seat.old seat.new span.now snapshot) }
        ensures refused { OnErr result (seat.new ≡ seat.old) }
    {
        match self.take(&Blocking(rt), seat, span) {
            Ok(snapshot) => Ok(snapshot),
            Err(StripeFault::NoMemory) => Err(NoMemory),
            Err(StripeFault::Busy) => unreachable!(),
        }
    }

    /// As [`snapshot`](StripedCache::snapshot), where the caller has no leave to wait, as in
    /// [`try_get_max`](StripedCache::try_get_max). Each try makes the copies anew. With no tries
    /// it takes no memory.
    pub fn try_snapshot(
        &self,
        seat: &mut Seat,
        span: &Span,
        tries: u32,
    ) -> Result<Snapshot, SnapshotFault>
        requires cache { seat.old.cache ≡ self.now }
        ensures taken { IfOk result
            (λ snapshot. TakesSnapshot seat.old seat.new span.now snapshot) }
        ensures refused { OnErr result (seat.new ≡ seat.old) }
        ensures no_tries { tries ≡ 0 → IsErrOf result SnapshotFault.Busy }
    {
        match self.take(&Bounded(tries), seat, span) {
            Ok(snapshot) => Ok(snapshot),
            Err(StripeFault::NoMemory) => Err(SnapshotFault::NoMemory),
            Err(StripeFault::Busy) => Err(SnapshotFault::Busy),
        }
    }

    /// A snapshot, which is given up where `policy` comes to its end.
    fn take<P: WaitPolicy>(
        &self,
        policy: &P,
        seat: &mut Seat,
        span: &Span,
    ) -> Result<Snapshot, StripeFault>
        requires cache { seat.old.cache ≡ self.now }
        ensures taken { IfOk result
            (λ snapshot. TakesSnapshot seat.old seat.new span.now snapshot) }
        ensures refused { OnErr result (seat.new ≡ seat.old) }
        ensures ended { IsErrOf result StripeFault.Busy → HasEnd (P.tries policy.now) }
        ensures no_try { P.tries policy.now ≡ Some 0 → IsErrOf result StripeFault.Busy }
    {
        let touched = find_touched(self.bounds.as_slice(), &self.prefixes, &span.borrowed());
        let first = touched.first;
        let last = touched.last.max(first);
        let caches = policy.share_over(
            self.alloc,
            &self.table.shared,
            &mut seat.participant,
            first,
            last,
        )?;
        Ok(Snapshot { first, caches })
    }
}
