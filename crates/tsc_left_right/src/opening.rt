//! Making the table, and those who take part in it.
ghost use Rattle.std.specs.Prelude.{◌≡◌, [], ◌++◌, ◌<◌, IfOk, OnOk, length};
ghost use Rattle.std.specs.Prelude.{replicate};
ghost use Rattle.std.specs.Arc.{arc_value};
ghost use Rattle.tsc_left_right.specs.Rule.{first_knowledge, keeping, word_count};
ghost use Rattle.tsc_left_right.specs.Steps.{other_states};
ghost use Rattle.tsc_left_right.specs.Opening.{HasFirstSlots, IsFirst, line_of};
ghost use Rattle.tsc_left_right.specs.Participating.{IsOf, IsSized, KeepsStates, IsFirstOf};

use crate::places::{slot_count, word_count};
use crate::replicated::Replicated;
use crate::steps::SplitOff;
use crate::table::{
    Copies, Participant, ReadHandle, Replicas, Setup, SharedReplicas, Slot, WriterState,
};
use atomic_table::Table;
use std::alloc::{AllocError, Global};
use std::sync::Arc;

/// The words: that of the writer lock, HEAD, and the epoch of each seat.
fn blank_words(alloc: Global, seats: u32) -> Result<Vec<u64>, AllocError>
    ensures { IfOk result (λ words. words.items ≡ replicate (word_count seats) 0) }
{
    vec![in alloc; 0; word_count(seats)]
}

/// Lays one more, and seven empty slots behind it: what is laid next lies 128 bytes above.
fn push_line<C: Drop, O: Drop>(
    slots: &mut Vec<Slot<C, O>>,
    slot: Slot<C, O>,
) -> Result<(), AllocError>
    ensures { OnOk result (slots.new.items ≡ slots.old.items ++ line_of slot) }
{
    slots.push(slot)?;
    for _beside in 0..7_usize {
        slots.push(Slot::Empty)?;
    }
    Ok(())
}

/// What lies in the slots at the opening: the writer's state, and a handle on the active copy for
/// each of `seats` seats.
fn first_slots<C: Drop, O: Drop>(
    alloc: Global,
    state: Box<WriterState<C, O>>,
    seats: u32,
) -> Result<Vec<Slot<C, O>>, AllocError>
    ensures { IfOk result (λ slots. HasFirstSlots state seats slots.items) }
{
    let active = Arc::try_clone(&state.copies.active)?;
    let mut slots = Vec::with_capacity(alloc, slot_count(seats))?;
    push_line(&mut slots, Slot::Writer(state))?;
    for seat in 0..seats {
        let copy = Arc::try_clone(&active)?;
        push_line(&mut slots, Slot::Handle(ReadHandle { copy, length: 0 }))?;
        push_line(&mut slots, Slot::Empty)?;
    }
    Ok(slots)
}

/// What the writer works with at the opening: two copies to which nothing was applied.
fn new_state<P: Replicated>(
    alloc: Global,
    setup: &Setup<P::ConfigView>,
    active: Arc<P::Value>,
    standby: Arc<P::Value>,
) -> Result<Box<WriterState<P::Value, P::Operation>>, AllocError>
    requires active { P.stands setup.now.config [] (arc_value active) }
    requires standby { P.stands setup.now.config [] (arc_value standby) }
    ensures { IfOk result (λ state. IsFirst P.Replicated setup.now state.value) }
{
    let copies = Copies {
        active,
        standby: Some(standby),
        lagging: None,
    };
    let state = WriterState {
        copies,
        length: 0,
        head: 0,
        noted: vec![in alloc; 0; setup.seats as usize]?,
    };
    Ok(Box::new(alloc, state)?)
}

/// A table with two copies, to which nothing was applied, and its first participant, which keeps
/// the states of all seats.
pub fn new_replicas<P: Replicated>(
    alloc: Global,
    setup: &Setup<P::ConfigView>,
    active: Arc<P::Value>,
    standby: Arc<P::Value>,
) -> Result<(Replicas<P>, Participant<P>), AllocError>
    requires active { P.stands setup.now.config [] (arc_value active) }
    requires standby { P.stands setup.now.config [] (arc_value standby) }
    ensures replicas { IfOk result (λ made. IsSized made.0.shared.table_id setup.now.seats
        × (made.0.shared.key ≡ setup.now)) }
    ensures all { IfOk result (λ made. (made.1.table_id ≡ made.0.shared.table_id)
        × (made.1.me ≡ (first_knowledge setup.now, []))) }
{
    let words = blank_words(alloc, setup.seats)?;
    let state = new_state::<P>(alloc, setup, active, standby)?;
    let slots = first_slots(alloc, state, setup.seats)?;
    match Table::new(alloc, words.as_slice(), slots, setup) {
        Ok(made) => Ok(made),
        Err(_refused) => Err(AllocError),
    }
}

/// The first of the states that a participant keeps goes to a participant of its own.
pub fn split_off<P: Replicated>(
    shared: &SharedReplicas<P>,
    all: &mut Participant<P>,
) -> Participant<P>
    requires of { IsOf all.old shared.now.table_id }
    requires states { KeepsStates all.old.me.0 }
    requires some { 0 < length all.old.me.0.states }
    ensures table { all.new.table_id ≡ all.old.table_id }
    ensures others { all.new.me ≡ (
      keeping all.old.me.0.setup (other_states all.old.me.0.states),
      all.old.me.1,
    ) }
    ensures first { IsFirstOf all.old.me.0 result.me × (result.table_id ≡ all.old.table_id) }
{
    shared.split_seat::<SplitOff>(all)
}
