//! What a reader does: it is pinned, takes its slot of the active side, reads, and is unpinned. It
//! waits for nobody.
ghost use Rattle.std.specs.Prelude.{◌≡◌, ◌<◌, ◌∷◌, [], ℕ};
ghost use Rattle.std.specs.Arc.{arc_value};
ghost use Rattle.tsc_left_right.specs.Rule.{active_side, side_slot};
ghost use Rattle.tsc_left_right.specs.Steps.{SeesAll};
ghost use Rattle.tsc_left_right.specs.Participating.{IsOf, IsAtRest, IsNumber, IsPinned, HasLooked};
ghost use Rattle.tsc_left_right.specs.Participating.{HasHandle, IsHandle, unpinned_in};

use crate::places::{HEAD, epoch_word, side_slot};
use crate::replicated::Replicated;
use crate::steps::{Pin, ReadHead, Unpin};
use crate::table::{Participant, SharedReplicas, Slot};
use std::sync::Arc;

/// A look at a copy, which finds an `F`.
pub trait Look<C, F> {
    /// This is found in a copy.
    ghost finds: { Self → C → F → Type 0 };

    fn look(&self, copy: &Arc<C>) -> F
        ensures { finds self.now (arc_value copy.now) result };
}

/// A look that finds nothing.
pub(crate) struct Nothing;

impl<C> Look<C, ()> for Nothing {
    ghost finds = { λ _ _ _. Unit {0} };

    fn look(&self, _copy: &Arc<C>) {}
}

/// The seat is pinned, and has its slot of the active side in hand. The result is that side.
fn pin<P: Replicated>(shared: &SharedReplicas<P>, who: &mut Participant<P>, number: u32) -> u64
    requires of { IsOf who.old shared.now.table_id }
    requires rest { IsAtRest who.old.me }
    requires number { IsNumber who.old.me.0 number }
    ensures table { who.new.table_id ≡ who.old.table_id }
    ensures small { result < 2 }
    ensures sees { (x : _) × (head : ℕ) × (result ≡ active_side head)
        × (who.new.me.1 ≡ (side_slot number result, x) ∷ [])
        × SeesAll P.Replicated who.old.me.0 who.new.me.0 head x }
{
    shared.fetch_add::<Pin>(who, epoch_word(number), 1);
    shared.load::<ReadHead<P>>(who, HEAD) % 2
}

/// The seat lays its slot back as it was, and is unpinned.
fn unpin<P: Replicated>(shared: &SharedReplicas<P>, who: &mut Participant<P>, number: u32)
    requires of { IsOf who.old shared.now.table_id }
    requires number { IsNumber who.old.me.0 number }
    requires pinned { (side : ℕ) × (x : _) × IsPinned P.Replicated who.old.me side x }
    ensures table { who.new.table_id ≡ who.old.table_id }
    ensures unpinned { who.new.me ≡ (unpinned_in who.old.me.0, []) }
{
    shared.fetch_add::<Unpin>(who, epoch_word(number), 1);
}

/// What is found in the copy on which a slot has a handle, and how many operations it has had.
fn look_at<C, O, F, L: Look<C, F>>(slot: &Slot<C, O>, look: &L) -> (F, u64)
    requires { IsHandle slot.now }
    ensures { HasHandle slot.now (λ copy length. (result.1 ≡ length)
        × L.finds look.now copy result.0) }
{
    match slot {
        Slot::Handle(handle) => (look.look(&handle.copy), handle.length),
        _ => unreachable!(),
    }
}

/// What is found in the active copy, and after how long a history that is. A handle that is found
/// stays as it is, whoever applies operations meanwhile: while it lives, a writer that comes to
/// this copy makes a new one in its place.
pub fn read<P: Replicated, F, L: Look<P::Value, F>>(
    shared: &SharedReplicas<P>,
    who: &mut Participant<P>,
    number: u32,
    look: &L,
) -> (F, u64)
    requires of { IsOf who.old shared.now.table_id }
    requires rest { IsAtRest who.old.me }
    requires number { IsNumber who.old.me.0 number }
    ensures table { who.new.table_id ≡ who.old.table_id }
    ensures looked { (copy : _) × HasLooked P.Replicated who.old.me.0 who.new.me result.1 copy
        × L.finds look.now copy result.0 }
{
    let side = pin(shared, who, number);
    let slot = who.slot_mut(shared, side_slot(number, side));
    let found = look_at(slot, look);
    unpin(shared, who, number);
    found
}
