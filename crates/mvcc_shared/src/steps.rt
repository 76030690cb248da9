//! The steps on the table.
use crate::served::Served;
use crate::table::Knowledge;
use atomic_table::{Join, Play, Split};

/// Acquires the lock where it is free.
pub(crate) struct Acquire;

impl Play<Box<Served>, Knowledge> for Acquire {
    ghost use Rattle.mvcc_shared.specs.Steps.{acquires};

    ghost then = { acquires };
}

/// Releases the lock, and the call that was made is the last of the history.
pub(crate) struct Release;

impl Play<Box<Served>, Knowledge> for Release {
    ghost use Rattle.mvcc_shared.specs.Steps.{releases};

    ghost then = { releases };
}

/// A client has seen what its front says, where that is longer.
pub(crate) struct CatchUp;

impl Play<Box<Served>, Knowledge> for CatchUp {
    ghost use Rattle.mvcc_shared.specs.Steps.{catches_up};

    ghost then = { catches_up };
}

/// The first state goes to a participant of its own.
pub(crate) struct SplitOff;

impl Split<Knowledge> for SplitOff {
    ghost use Rattle.std.specs.Prelude.{◌∷◌, []};
    ghost use Rattle.mvcc_shared.specs.Rule.{keeping};
    ghost use Rattle.mvcc_shared.specs.Steps.{first_state, other_states};

    ghost left = { λ v. keeping v.setup (other_states v.states) };

    ghost right = { λ v. keeping v.setup (first_state v.states ∷ []) };
}

/// What a client has seen goes to a front.
pub(crate) struct SplitFront;

impl Split<Knowledge> for SplitFront {
    ghost use Rattle.mvcc_shared.specs.Steps.{front_of, seen_of};

    ghost left = { λ v. v };

    ghost right = { λ v. front_of v.setup (seen_of v) };
}

/// The states of two participants come together.
pub(crate) struct Merge;

impl Join<Knowledge> for Merge {
    ghost use Rattle.std.specs.Prelude.{◌++◌};
    ghost use Rattle.mvcc_shared.specs.Rule.{keeping};
    ghost use Rattle.mvcc_shared.specs.Steps.{spent};

    ghost both = { λ v w. keeping v.setup (v.states ++ w.states) };

    ghost spent = { spent };
}

/// What a front says goes to another participant.
pub(crate) struct JoinFront;

impl Join<Knowledge> for JoinFront {
    ghost use Rattle.mvcc_shared.specs.Steps.{spent};

    ghost both = { λ v w. record v { front = w.front } };

    ghost spent = { spent };
}
