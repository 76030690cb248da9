//! The steps of the protocol.
use crate::replicated::Replicated;
use crate::table::{Knowledge, Slot};
use atomic_table::{Join, Play, Split};
use std::marker::PhantomData;

/// Acquires the writer lock where it is free.
pub(crate) struct Acquire<P> {
    replicated: PhantomData<P>,
}

impl<P: Replicated> Play<Slot<P::Value, P::Operation>, Knowledge<P::ConfigView, P::Entry>>
    for Acquire<P> {
    ghost use Rattle.tsc_left_right.specs.Steps.{acquires};

    ghost then = { acquires P.Replicated };
}

/// Releases the writer lock.
pub(crate) struct Release;

impl<C, O, S, E> Play<Slot<C, O>, Knowledge<S, E>> for Release {
    ghost use Rattle.tsc_left_right.specs.Steps.{releases};

    ghost then = { releases };
}

/// Looks which seat goes first, or says so: nobody knows more or less then.
pub(crate) struct Line;

impl<C, O, S, E> Play<Slot<C, O>, Knowledge<S, E>> for Line {
    ghost use Rattle.tsc_left_right.specs.Steps.{stays};

    ghost then = { stays };
}

/// The writer finds out whether the next seat has left the standby side, and then takes its slot.
pub(crate) struct Clear;

impl<C, O, S, E> Play<Slot<C, O>, Knowledge<S, E>> for Clear {
    ghost use Rattle.tsc_left_right.specs.Steps.{clears};

    ghost then = { clears };
}

/// The writer takes the slot of the next seat, which was outside when its epoch was noted.
pub(crate) struct Pass;

impl<C, O, S, E> Play<Slot<C, O>, Knowledge<S, E>> for Pass {
    ghost use Rattle.tsc_left_right.specs.Steps.{passes};

    ghost then = { passes };
}

/// The writer notes the epoch of the next seat.
pub(crate) struct Note;

impl<C, O, S, E> Play<Slot<C, O>, Knowledge<S, E>> for Note {
    ghost use Rattle.tsc_left_right.specs.Steps.{notes};

    ghost then = { notes };
}

/// The writer's operation comes into the history, and the copies are swapped.
pub(crate) struct Publish<P> {
    replicated: PhantomData<P>,
}

impl<P: Replicated> Play<Slot<P::Value, P::Operation>, Knowledge<P::ConfigView, P::Entry>>
    for Publish<P> {
    ghost use Rattle.tsc_left_right.specs.Steps.{publishes};

    ghost then = { publishes P.Replicated };
}

/// A seat is pinned.
pub(crate) struct Pin;

impl<C, O, S, E> Play<Slot<C, O>, Knowledge<S, E>> for Pin {
    ghost use Rattle.tsc_left_right.specs.Steps.{pins};

    ghost then = { pins };
}

/// A seat takes its slot of the active side.
pub(crate) struct ReadHead<P> {
    replicated: PhantomData<P>,
}

impl<P: Replicated> Play<Slot<P::Value, P::Operation>, Knowledge<P::ConfigView, P::Entry>>
    for ReadHead<P> {
    ghost use Rattle.tsc_left_right.specs.Steps.{reads_head};

    ghost then = { reads_head P.Replicated };
}

/// A seat lays its slot back, and is unpinned.
pub(crate) struct Unpin;

impl<C, O, S, E> Play<Slot<C, O>, Knowledge<S, E>> for Unpin {
    ghost use Rattle.tsc_left_right.specs.Steps.{unpins};

    ghost then = { unpins };
}

/// A seat has seen what its front says, where that is longer.
pub(crate) struct CatchUp<P> {
    replicated: PhantomData<P>,
}

impl<P: Replicated> Play<Slot<P::Value, P::Operation>, Knowledge<P::ConfigView, P::Entry>>
    for CatchUp<P> {
    ghost use Rattle.tsc_left_right.specs.Steps.{catches_up};

    ghost then = { catches_up P.Replicated };
}

/// The first state goes to a participant of its own.
pub(crate) struct SplitOff;

impl<S, E> Split<Knowledge<S, E>> for SplitOff {
    ghost use Rattle.std.specs.Prelude.{◌∷◌, []};
    ghost use Rattle.tsc_left_right.specs.Rule.{keeping};
    ghost use Rattle.tsc_left_right.specs.Steps.{first_state, other_states};

    ghost left = { λ v. keeping v.setup (other_states v.states) };

    ghost right = { λ v. keeping v.setup (first_state v.states ∷ []) };
}

/// What a seat has seen goes to a front.
pub(crate) struct SplitFront;

impl<S, E> Split<Knowledge<S, E>> for SplitFront {
    ghost use Rattle.tsc_left_right.specs.Steps.{front_of, state_in};

    ghost left = { λ v. v };

    ghost right = { λ v. front_of v.setup (state_in v).seen };
}

/// The states of two participants come together.
pub(crate) struct Merge<P> {
    replicated: PhantomData<P>,
}

impl<P: Replicated> Join<Knowledge<P::ConfigView, P::Entry>> for Merge<P> {
    ghost use Rattle.std.specs.Prelude.{◌++◌};
    ghost use Rattle.tsc_left_right.specs.Rule.{keeping};
    ghost use Rattle.tsc_left_right.specs.Steps.{spent};

    ghost both = { λ v w. keeping v.setup (v.states ++ w.states) };

    ghost spent = { spent P.unsettled };
}

/// What a front says goes to another participant.
pub(crate) struct JoinFront<P> {
    replicated: PhantomData<P>,
}

impl<P: Replicated> Join<Knowledge<P::ConfigView, P::Entry>> for JoinFront<P> {
    ghost use Rattle.tsc_left_right.specs.Steps.{spent};

    ghost both = { λ v w. record v { front = w.front } };

    ghost spent = { spent P.unsettled };
}
