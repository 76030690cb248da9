//! What a writer does: it acquires the writer lock, waits until each reader has left the standby
//! copy, installs handles on that copy, publishes, notes the epochs, and releases the lock.
ghost use Rattle.std.specs.Prelude.{◌≡◌, [], ◌+◌, ◌%◌, length, IfSome, IfNone, true, false};
ghost use Rattle.std.specs.Arc.{arc_value};
ghost use Rattle.tsc_left_right.specs.Rule.{standby_side};
ghost use Rattle.tsc_left_right.specs.Steps.{state_in, number_of, seen_of};
ghost use Rattle.tsc_left_right.specs.Writing.{IsHandleIf};
ghost use Rattle.tsc_left_right.specs.Participating.{IsOf, IsFree, IsNext, IsWriting};
ghost use Rattle.tsc_left_right.specs.Participating.{HasAcquired, HasInstalled, IsReady};
ghost use Rattle.tsc_left_right.specs.Participating.{HasFlipped, MayNote, MayRelease};
ghost use Rattle.tsc_left_right.specs.Participating.{noted_in, published_in, released_in};

use crate::places::{FIRST, HEAD, epoch_word, has_left, side_slot};
use crate::replicated::Replicated;
use crate::steps::{Acquire, Clear, Line, Note, Pass, Publish, Release};
use crate::table::{Participant, ReadHandle, SharedReplicas, Slot, WriterState};
use std::sync::Arc;

/// The side of the standby copy, by HEAD.
pub(crate) fn standby_side(head: u64) -> u64
    ensures { result ≡ standby_side head }
{
    1 - head % 2
}

/// Tries once to acquire the writer lock: `None` if somebody holds it.
pub(crate) fn acquire<P: Replicated>(
    shared: &SharedReplicas<P>,
    who: &mut Participant<P>,
    number: u32,
) -> Option<Box<WriterState<P::Value, P::Operation>>>
    requires of { IsOf who.old shared.now.table_id }
    requires free { IsFree who.old.me × (number ≡ number_of who.old.me.0) }
    ensures table { who.new.table_id ≡ who.old.table_id }
    ensures acquired { IfSome result (λ state. HasAcquired P.Replicated who.old.me.0 who.new.me
        state.value) }
    ensures busy { IfNone result (who.new.me ≡ who.old.me) }
{
    if shared.compare_exchange::<Acquire<P>>(who, 0, 0, u64::from(number) + 1) != 0 {
        return None;
    }
    let Slot::Writer(state) = shared.exchange(who, 0, Slot::Empty) else {
        unreachable!()
    };
    Some(state)
}

/// What stands in the word of the seat that goes first.
pub(crate) fn first_in_line<P: Replicated>(
    shared: &SharedReplicas<P>,
    who: &mut Participant<P>,
) -> u64
    requires of { IsOf who.old shared.now.table_id }
    ensures same { (who.new.table_id ≡ who.old.table_id) × (who.new.me ≡ who.old.me) }
{
    shared.load::<Line>(who, FIRST)
}

/// Writes the word of the seat that goes first.
pub(crate) fn set_first<P: Replicated>(
    shared: &SharedReplicas<P>,
    who: &mut Participant<P>,
    first: u64,
)
    requires of { IsOf who.old shared.now.table_id }
    ensures same { (who.new.table_id ≡ who.old.table_id) × (who.new.me ≡ who.old.me) }
{
    shared.store::<Line>(who, FIRST, first);
}

/// Looks once whether the next seat, whose epoch was noted so, has left the standby side. If so its
/// slot there is taken, and is empty then. Else nothing changes.
pub(crate) fn clear<P: Replicated>(
    shared: &SharedReplicas<P>,
    who: &mut Participant<P>,
    seat: u32,
    standby: u64,
    noted: u64,
) -> bool
    requires of { IsOf who.old shared.now.table_id }
    requires next { IsNext who.old.me.0 seat standby noted }
    requires writing { IsWriting who.old.me.0 who.old.me seat }
    ensures table { who.new.table_id ≡ who.old.table_id }
    ensures cleared { result ≡ true → IsWriting who.old.me.0 who.new.me (seat + 1) }
    ensures pinned { result ≡ false → who.new.me ≡ who.old.me }
{
    let epoch = shared.load::<Clear>(who, epoch_word(seat));
    if !has_left(noted, epoch) {
        return false;
    }
    shared.exchange(who, side_slot(seat, standby), Slot::Empty);
    who.turn();
    true
}

/// Takes the slot of the next seat, whose epoch was noted as even, on the standby side, and leaves
/// it empty. That seat was outside at the note, so it has not been on that side since. The step is
/// made at HEAD, and looks at no word of the seat.
pub(crate) fn pass<P: Replicated>(
    shared: &SharedReplicas<P>,
    who: &mut Participant<P>,
    seat: u32,
    standby: u64,
    noted: u64,
)
    requires of { IsOf who.old shared.now.table_id }
    requires next { IsNext who.old.me.0 seat standby noted × (noted % 2 ≡ 0) }
    requires writing { IsWriting who.old.me.0 who.old.me seat }
    ensures table { who.new.table_id ≡ who.old.table_id }
    ensures cleared { IsWriting who.old.me.0 who.new.me (seat + 1) }
{
    shared.load::<Pass>(who, HEAD);
    shared.exchange(who, side_slot(seat, standby), Slot::Empty);
    who.turn();
}

/// Whether there is memory for one more handle on this copy, which has had `length` operations,
/// and that handle.
fn handle_on<C, O>(active: &Arc<C>, length: u64) -> (bool, Slot<C, O>)
    ensures { IsHandleIf result.0 (arc_value active.now) length result.1 }
{
    match Arc::try_clone(active) {
        Ok(copy) => (true, Slot::Handle(ReadHandle { copy, length })),
        Err(_full) => (false, Slot::Empty),
    }
}

/// Lays a handle on this copy, which has had `length` operations, into each slot that was cleared.
/// The result says whether there was memory for all of them.
pub(crate) fn install_handles<P: Replicated>(
    shared: &SharedReplicas<P>,
    who: &mut Participant<P>,
    active: &Arc<P::Value>,
    length: u64,
    seats: u32,
    standby: u64,
) -> bool
    requires of { IsOf who.old shared.now.table_id }
    requires cleared { IsWriting who.old.me.0 who.old.me seats }
    requires side { standby ≡ standby_side (state_in who.old.me.0).head }
    ensures table { who.new.table_id ≡ who.old.table_id }
    ensures cleared { IsWriting who.old.me.0 who.new.me seats }
    ensures installed { result ≡ true → HasInstalled who.old.me.0 who.new.me (arc_value active.now)
        length seats }
{
    who.turn();
    let mut all = true;
    for seat in 0..seats {
        let (made, handle) = handle_on(active, length);
        shared.exchange(who, side_slot(seat, standby), handle);
        who.turn();
        all &= made;
    }
    all
}

/// Makes the copy active on which the handles are: lookups read it then. The result is what the
/// writer works with from there on.
fn flip<P: Replicated>(
    shared: &SharedReplicas<P>,
    who: &mut Participant<P>,
    state: Box<WriterState<P::Value, P::Operation>>,
) -> Box<WriterState<P::Value, P::Operation>>
    requires of { IsOf who.old shared.now.table_id }
    requires installed { HasInstalled who.old.me.0 who.old.me (arc_value state.value.copies.active)
        state.value.length who.old.me.0.setup.seats }
    requires ready { IsReady P.Replicated who.old.me.0 state.value }
    ensures table { who.new.table_id ≡ who.old.table_id }
    ensures flipped { HasFlipped P.Replicated who.old.me.0 state.value who.new.me result.value }
{
    let mut state = state;
    let head = standby_side(state.head);
    state.head = head;
    shared.exchange(who, 0, Slot::Writer(state));
    who.turn();
    shared.store::<Publish<P>>(who, HEAD, head);
    let Slot::Writer(state) = shared.exchange(who, 0, Slot::Empty) else {
        unreachable!()
    };
    state
}

/// Notes the epoch of each seat. Who is pinned on the side that HEAD says no more was pinned before
/// that, so its epoch is the one that is noted here.
fn note_epochs<P: Replicated>(
    shared: &SharedReplicas<P>,
    who: &mut Participant<P>,
    noted: &mut [u64],
    seats: u32,
)
    requires of { IsOf who.old shared.now.table_id }
    requires may { MayNote who.old.me }
    requires seats { (seats ≡ who.old.me.0.setup.seats) × (length noted.old ≡ seats) }
    ensures table { who.new.table_id ≡ who.old.table_id }
    ensures noted { who.new.me ≡ (noted_in who.old.me.0 noted.new, who.old.me.1) }
    ensures long { length noted.new ≡ length noted.old }
{
    for seat in 0..seats {
        noted[seat as usize] = shared.load::<Note>(who, epoch_word(seat));
    }
}

/// Publishes what the writer has prepared, notes the epoch of each seat, and releases the writer
/// lock: lookups read the copy on which the handles are.
pub(crate) fn publish<P: Replicated>(
    shared: &SharedReplicas<P>,
    who: &mut Participant<P>,
    state: Box<WriterState<P::Value, P::Operation>>,
    seats: u32,
)
    requires of { IsOf who.old shared.now.table_id }
    requires installed { HasInstalled who.old.me.0 who.old.me (arc_value state.value.copies.active)
        state.value.length who.old.me.0.setup.seats }
    requires ready { IsReady P.Replicated who.old.me.0 state.value }
    requires seats { (seats ≡ who.old.me.0.setup.seats)
        × (length state.value.noted.items ≡ seats) }
    ensures table { who.new.table_id ≡ who.old.table_id }
    ensures published { who.new.me
        ≡ (released_in (published_in P.Replicated who.old.me.0 state.value.copies.lagging), []) }
{
    let mut state = flip(shared, who, state);
    note_epochs(shared, who, &mut state.noted, seats);
    release(shared, who, state);
}

/// Releases the writer lock. The result is how many operations there are.
pub(crate) fn release<P: Replicated>(
    shared: &SharedReplicas<P>,
    who: &mut Participant<P>,
    state: Box<WriterState<P::Value, P::Operation>>,
) -> u64
    requires of { IsOf who.old shared.now.table_id }
    requires may { MayRelease P.Replicated who.old.me state.value }
    ensures table { who.new.table_id ≡ who.old.table_id }
    ensures released { who.new.me ≡ (released_in who.old.me.0, []) }
    ensures length { result ≡ length (seen_of who.old.me.0) }
{
    let length = state.length;
    shared.exchange(who, 0, Slot::Writer(state));
    who.turn();
    shared.store::<Release>(who, 0, 0);
    length
}
