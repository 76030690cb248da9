//! How a writer waits: for ever, or for a number of tries.
ghost use Rattle.std.specs.Prelude.{◌≡◌, ◌+◌, ℕ, Option, Some, None, IfSome, IfNone, IsNone, true};
ghost use Rattle.std.specs.Prelude.{false};
ghost use Rattle.tsc_left_right.specs.Steps.{number_of};
ghost use Rattle.tsc_left_right.specs.Waiting.{HasEnd, StillWrites};
ghost use Rattle.tsc_left_right.specs.Participating.{IsOf, IsFree, IsNext, AreSides, IsWriting};
ghost use Rattle.tsc_left_right.specs.Participating.{HasAcquired};

use crate::lock::{acquire, clear, first_in_line, pass, set_first};
use crate::replicated::Replicated;
use crate::table::{Participant, SharedReplicas, WriterState};
use crossbeam_utils::Backoff;
use std::sync::Wait;

/// How often one tries to acquire the writer lock, and then looks whether a seat has left the
/// standby side.
pub trait WaitPolicy {
    /// The number of tries, or none for a policy without an end.
    ghost tries: { Self → Option ℕ };

    /// Acquires the writer lock, once it is free: `None` if it was held at each try.
    fn acquire<P: Replicated>(
        &self,
        shared: &SharedReplicas<P>,
        who: &mut Participant<P>,
        number: u32,
    ) -> Option<Box<WriterState<P::Value, P::Operation>>>
        requires of { IsOf who.old shared.now.table_id }
        requires free { IsFree who.old.me × (number ≡ number_of who.old.me.0) }
        ensures table { who.new.table_id ≡ who.old.table_id }
        ensures acquired { IfSome result (λ state. HasAcquired P.Replicated who.old.me.0
            who.new.me state.value) }
        ensures busy { IfNone result ((who.new.me ≡ who.old.me) × HasEnd (tries self.now)) }
        ensures no_try { tries self.now ≡ Some 0 → IsNone result };

    /// Takes the slot of the next seat, whose epoch was noted so, on the standby side, once that
    /// seat has left it. It tells whether the seat left it.
    fn clear<P: Replicated>(
        &self,
        shared: &SharedReplicas<P>,
        who: &mut Participant<P>,
        seat: u32,
        standby: u64,
        noted: u64,
    ) -> bool
        requires of { IsOf who.old shared.now.table_id }
        requires next { IsNext who.old.me.0 seat standby noted }
        requires writing { IsWriting who.old.me.0 who.old.me seat }
        ensures table { who.new.table_id ≡ who.old.table_id }
        ensures cleared { result ≡ true → IsWriting who.old.me.0 who.new.me (seat + 1) }
        ensures pinned { result ≡ false → (who.new.me ≡ who.old.me) × HasEnd (tries self.now) };
}

/// After how many tries a seat goes first.
const PATIENCE: u32 = 24;

/// How often a seat lets another one go first, which may have been stopped.
const COURTESY: u32 = 64;

/// Tries once to acquire the writer lock, after so many tries. Another seat that has waited long
/// goes first for a while, and this one does when it has. Who acquires the lock ends that: the
/// thread of a seat that was to go first may have been stopped.
fn try_in_turn<P: Replicated>(
    shared: &SharedReplicas<P>,
    who: &mut Participant<P>,
    number: u32,
    tries: u32,
) -> Option<Box<WriterState<P::Value, P::Operation>>>
    requires of { IsOf who.old shared.now.table_id }
    requires free { IsFree who.old.me × (number ≡ number_of who.old.me.0) }
    ensures table { who.new.table_id ≡ who.old.table_id }
    ensures acquired { IfSome result (λ state. HasAcquired P.Replicated who.old.me.0 who.new.me
        state.value) }
    ensures busy { IfNone result (who.new.me ≡ who.old.me) }
{
    let own = u64::from(number) + 1;
    let first = first_in_line(shared, who);
    let other_first = first != 0 && first != own;
    if other_first && tries < COURTESY {
        return None;
    }
    let acquired = acquire(shared, who, number);
    if acquired.is_some() {
        if first != 0 {
            set_first(shared, who, 0);
        }
    } else if tries >= PATIENCE {
        set_first(shared, who, own);
    }
    acquired
}

/// A policy of waiting for ever. Between two tries a seat pauses, each time for longer, and then
/// lets other threads run. A seat that has waited long goes before all others that wait so.
#[derive(Drop)]
pub struct Blocking<'r, R>(pub &'r R);

impl<'r, R: Wait> WaitPolicy for Blocking<'r, R> {
    ghost tries = { λ _. None };

    fn acquire<P: Replicated>(
        &self,
        shared: &SharedReplicas<P>,
        who: &mut Participant<P>,
        number: u32,
    ) -> Option<Box<WriterState<P::Value, P::Operation>>> {
        let backoff = Backoff::new();
        let mut tries: u32 = 0;
        for _ in self.0.forever() {
            if let Some(state) = try_in_turn(shared, who, number, tries) {
                return Some(state);
            }
            tries = tries.saturating_add(1);
            backoff.snooze();
        }
        unreachable!()
    }

    fn clear<P: Replicated>(
        &self,
        shared: &SharedReplicas<P>,
        who: &mut Participant<P>,
        seat: u32,
        standby: u64,
        noted: u64,
    ) -> bool {
        let backoff = Backoff::new();
        for _ in self.0.forever() {
            if clear(shared, who, seat, standby, noted) {
                return true;
            }
            backoff.snooze();
        }
        unreachable!()
    }
}

/// A policy of a number of tries, with a few pauses between them. Until a seat has the lock, or has
/// given up, it takes one atomic step for each try, whatever other threads do.
#[derive(Clone, Copy)]
pub struct Bounded(pub u32);

impl WaitPolicy for Bounded {
    ghost tries = { λ t. Some t.0 };

    fn acquire<P: Replicated>(
        &self,
        shared: &SharedReplicas<P>,
        who: &mut Participant<P>,
        number: u32,
    ) -> Option<Box<WriterState<P::Value, P::Operation>>> {
        let backoff = Backoff::new();
        for _ in 0..self.0 {
            if let Some(state) = acquire(shared, who, number) {
                return Some(state);
            }
            backoff.spin();
        }
        None
    }

    fn clear<P: Replicated>(
        &self,
        shared: &SharedReplicas<P>,
        who: &mut Participant<P>,
        seat: u32,
        standby: u64,
        noted: u64,
    ) -> bool {
        let backoff = Backoff::new();
        for _ in 0..self.0 {
            if clear(shared, who, seat, standby, noted) {
                return true;
            }
            backoff.spin();
        }
        false
    }
}

/// Takes the slots of all seats on the standby side, whose epochs were noted so. The result says
/// whether each seat left that side before the policy gave up.
pub(crate) fn wait_for_readers<P: Replicated, W: WaitPolicy>(
    policy: &W,
    shared: &SharedReplicas<P>,
    who: &mut Participant<P>,
    seats: u32,
    standby: u64,
    noted: &[u64],
) -> bool
    requires of { IsOf who.old shared.now.table_id }
    requires sides { AreSides who.old.me.0 seats standby noted.now }
    requires writing { IsWriting who.old.me.0 who.old.me 0 }
    ensures table { who.new.table_id ≡ who.old.table_id }
    ensures cleared { result ≡ true → IsWriting who.old.me.0 who.new.me seats }
    ensures pinned { result ≡ false → StillWrites who.old.me.0 who.new.me
        × HasEnd (W.tries policy.now) }
{
    for seat in 0..seats {
        let epoch = noted[seat as usize];
        if epoch % 2 == 0 {
            pass(shared, who, seat, standby, epoch);
        } else if !policy.clear(shared, who, seat, standby, epoch) {
            return false;
        }
    }
    true
}
