//! How a seat waits for locks: for ever, or for a number of tries.
//!
//! A seat that needs several locks tries each of them once, in ascending order. Where one is held,
//! it releases those that it has, waits for that one, and begins anew. So it holds up nobody while
//! it waits.
ghost use Rattle.std.specs.Prelude.{◌≡◌, ◌∷◌, ◌-◌, ◌<◌, ◌≤◌, ℕ, Option, Some, None, true, false};
ghost use Rattle.std.specs.Prelude.{IfOk, IfErr, IfSome, IfNone, IsNone, IsErrOf, OnErr};
ghost use Rattle.tsc_stripe_table.specs.Rule.{StoredStripe, lock_word};
ghost use Rattle.tsc_stripe_table.specs.Steps.{Acquires};
ghost use Rattle.tsc_stripe_table.specs.Participating.{IsOf, IsAtRest, IsStripe, CanAcquire};
ghost use Rattle.tsc_striped.specs.Waiting.{HasEnd};
ghost use Rattle.tsc_striped.specs.Looks.{look_from};
ghost use Rattle.tsc_striped.specs.Moves.{HasLooked, IsStripeFault};
ghost use Rattle.tsc_striped.specs.Cutting.{CanAddBatch};
ghost use Rattle.tsc_striped.specs.Batches.{AddsAll};
ghost use Rattle.tsc_striped.specs.Sharing.{AreCopies};

use crate::batch::Batch;
use crate::fault::StripeFault;
use crate::gating::Publication;
use crate::sharing::share_under_all;
use crate::wide::look_under_all;
use crate::wide_adds::{Stop, add_under_all};
use crossbeam_utils::Backoff;
use std::alloc::Global;
use std::sync::Wait;
use tsc_cache::{Added, Cache};
use tsc_left_right::Gate;
use tsc_span::SpanRef;
use tsc_stripe_table::{Participant, SharedStripes, is_free, try_acquire};
use tsc_time::Value;

/// How often one tries to acquire a lock.
pub(crate) trait WaitPolicy {
    /// The number of tries, or none for a policy without an end.
    ghost tries: { Self → Option ℕ };

    /// Acquires the lock of a stripe, once it is free: `false` if it was held at each try.
    fn acquire(&self, shared: &SharedStripes, who: &mut Participant, stripe: u32) -> bool
        requires of { IsOf who.old shared.now.table_id }
        requires can { CanAcquire who.old.me.0 stripe }
        ensures table { who.new.table_id ≡ who.old.table_id }
        ensures acquired { result ≡ true → (x : StoredStripe)
            × Acquires who.old.me.0 who.new.me.0 stripe x.value.cache
            × (who.new.me.1 ≡ (stripe, x) ∷ who.old.me.1) }
        ensures busy { result ≡ false → (who.new.me ≡ who.old.me) × HasEnd (tries self.now) }
        ensures no_try { tries self.now ≡ Some 0 → result ≡ false };

    /// What a lookup answers in the stripes from the first to the last, under all of their locks;
    /// or `None` where one of them was held at each try.
    fn look_over(
        &self,
        shared: &SharedStripes,
        who: &mut Participant,
        span: &SpanRef<'_>,
        first: u32,
        last: u32,
    ) -> Option<Value>
        requires rest { IsOf who.old shared.now.table_id × IsAtRest who.old.me }
        requires several { (first < last) × IsStripe who.old.me.0 last }
        ensures table { who.new.table_id ≡ who.old.table_id }
        ensures looked { IfSome result (λ value. HasLooked who.old.me who.new.me
            (λ h. value ≡ look_from who.old.me.0.setup h span.now first (last - first))) }
        ensures busy { IfNone result ((who.new.me ≡ who.old.me) × HasEnd (tries self.now)) }
        ensures no_try { tries self.now ≡ Some 0 → IsNone result };

    /// Adds a batch under the locks of all stripes on which it lies. Where it is refused, nothing
    /// changes.
    fn add_batch<G: Gate>(
        &self,
        alloc: Global,
        shared: &SharedStripes,
        who: &mut Participant,
        batch: &Batch,
        notice: &mut Publication<'_, G>,
    ) -> Result<Added, StripeFault>
        requires rest { IsOf who.old shared.now.table_id × IsAtRest who.old.me }
        requires can { CanAddBatch who.old.me.0.setup batch.now × (notice.old.reported ≡ false) }
        ensures table { who.new.table_id ≡ who.old.table_id }
        ensures added { IfOk result
            (λ added. AddsAll who.old.me who.new.me batch.now.marks.items batch.now.moment added
            × G.HasReported notice.old.gate.now notice.old.seat) }
        ensures refused { OnErr result (who.new.me ≡ who.old.me) }
        ensures why { IfErr result (λ fault. IsStripeFault (tries self.now) fault) };

    /// Copies the caches of the stripes from the first to the last, under all of their locks. Where
    /// it is refused, the seat is as it was.
    fn share_over(
        &self,
        alloc: Global,
        shared: &SharedStripes,
        who: &mut Participant,
        first: u32,
        last: u32,
    ) -> Result<Vec<Cache>, StripeFault>
        requires rest { IsOf who.old shared.now.table_id × IsAtRest who.old.me }
        requires onward { (first ≤ last) × IsStripe who.old.me.0 last }
        ensures table { who.new.table_id ≡ who.old.table_id }
        ensures shared { IfOk result (λ copies. HasLooked who.old.me who.new.me
            (λ h. AreCopies who.old.me.0.setup h first last copies.items)) }
        ensures refused { OnErr result (who.new.me ≡ who.old.me) }
        ensures why { IfErr result (λ fault. IsStripeFault (tries self.now) fault)
            × (tries self.now ≡ Some 0 → IsErrOf result StripeFault.Busy) };

    /// Whether there is not even one try.
    fn has_no_try(&self) -> bool
        ensures end { result ≡ true → HasEnd (tries self.now) }
        ensures some { result ≡ false → tries self.now ≡ Some 0 → ⊥ };
}

/// A policy of waiting for ever: it pauses, and then leaves the processor to others.
#[derive(Drop)]
pub(crate) struct Blocking<'r, R>(pub(crate) &'r R);

impl<'r, R: Wait> WaitPolicy for Blocking<'r, R> {
    ghost tries = { λ _. None };

    fn acquire(&self, shared: &SharedStripes, who: &mut Participant, stripe: u32) -> bool {
        let backoff = Backoff::new();
        for _ in self.0.forever() {
            if try_acquire(shared, who, stripe) {
                return true;
            }
            backoff.snooze();
        }
        unreachable!()
    }

    fn look_over(
        &self,
        shared: &SharedStripes,
        who: &mut Participant,
        span: &SpanRef<'_>,
        first: u32,
        last: u32,
    ) -> Option<Value> {
        for _ in self.0.forever() {
            match look_under_all(shared, who, span, first, last) {
                Ok(value) => return Some(value),
                Err(busy) => wait_until_free(self.0, shared, busy),
            }
        }
        unreachable!()
    }

    fn add_batch<G: Gate>(
        &self,
        alloc: Global,
        shared: &SharedStripes,
        who: &mut Participant,
        batch: &Batch,
        notice: &mut Publication<'_, G>,
    ) -> Result<Added, StripeFault> {
        for _ in self.0.forever() {
            match add_under_all(alloc, shared, who, batch, notice) {
                Ok(added) => return Ok(added),
                Err(Stop::NoMemory) => return Err(StripeFault::NoMemory),
                Err(Stop::Busy(busy)) => wait_until_free(self.0, shared, busy),
            }
        }
        unreachable!()
    }

    fn share_over(
        &self,
        alloc: Global,
        shared: &SharedStripes,
        who: &mut Participant,
        first: u32,
        last: u32,
    ) -> Result<Vec<Cache>, StripeFault> {
        for _ in self.0.forever() {
            match share_under_all(alloc, shared, who, first, last) {
                Ok(copies) => return Ok(copies),
                Err(Stop::NoMemory) => return Err(StripeFault::NoMemory),
                Err(Stop::Busy(busy)) => wait_until_free(self.0, shared, busy),
            }
        }
        unreachable!()
    }

    fn has_no_try(&self) -> bool {
        false
    }
}

/// A policy of a number of tries, with a few idle steps between them.
#[derive(Clone, Copy)]
pub(crate) struct Bounded(pub(crate) u32);

impl WaitPolicy for Bounded {
    ghost tries = { λ t. Some t.0 };

    fn acquire(&self, shared: &SharedStripes, who: &mut Participant, stripe: u32) -> bool {
        let backoff = Backoff::new();
        for _ in 0..self.0 {
            if try_acquire(shared, who, stripe) {
                return true;
            }
            backoff.spin();
        }
        false
    }

    fn look_over(
        &self,
        shared: &SharedStripes,
        who: &mut Participant,
        span: &SpanRef<'_>,
        first: u32,
        last: u32,
    ) -> Option<Value> {
        let backoff = Backoff::new();
        for _ in 0..self.0 {
            if let Ok(value) = look_under_all(shared, who, span, first, last) {
                return Some(value);
            }
            backoff.spin();
        }
        None
    }

    fn add_batch<G: Gate>(
        &self,
        alloc: Global,
        shared: &SharedStripes,
        who: &mut Participant,
        batch: &Batch,
        notice: &mut Publication<'_, G>,
    ) -> Result<Added, StripeFault> {
        let backoff = Backoff::new();
        for _ in 0..self.0 {
            match add_under_all(alloc, shared, who, batch, notice) {
                Ok(added) => return Ok(added),
                Err(Stop::NoMemory) => return Err(StripeFault::NoMemory),
                Err(Stop::Busy(_)) => backoff.spin(),
            }
        }
        Err(StripeFault::Busy)
    }

    fn share_over(
        &self,
        alloc: Global,
        shared: &SharedStripes,
        who: &mut Participant,
        first: u32,
        last: u32,
    ) -> Result<Vec<Cache>, StripeFault> {
        let backoff = Backoff::new();
        for _ in 0..self.0 {
            match share_under_all(alloc, shared, who, first, last) {
                Ok(copies) => return Ok(copies),
                Err(Stop::NoMemory) => return Err(StripeFault::NoMemory),
                Err(Stop::Busy(_)) => backoff.spin(),
            }
        }
        Err(StripeFault::Busy)
    }

    fn has_no_try(&self) -> bool {
        self.0 == 0
    }
}

/// Waits until the lock of a stripe is free. It may be held again by then.
pub(crate) fn wait_until_free<R: Wait>(rt: &R, shared: &SharedStripes, stripe: u32)
    requires { lock_word stripe < shared.now.table_id.words }
{
    let backoff = Backoff::new();
    for _ in rt.forever() {
        if is_free(shared, stripe) {
            return;
        }
        backoff.snooze();
    }
}
