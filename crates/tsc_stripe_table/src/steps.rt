//! The steps on the table.
use crate::stripe::Stripe;
use crate::table::Knowledge;
use atomic_table::{Join, Play, Split};

/// Acquires the lock of a stripe where it is free.
pub(crate) struct Acquire;

impl Play<Box<Stripe>, Knowledge> for Acquire {
    ghost use Rattle.tsc_stripe_table.specs.Steps.{acquires};

    ghost then = { acquires };
}

/// Releases the lock that was acquired last.
pub(crate) struct Release;

impl Play<Box<Stripe>, Knowledge> for Release {
    ghost use Rattle.tsc_stripe_table.specs.Steps.{releases};

    ghost then = { releases };
}

/// Releases it, and the seat has seen what it had reached.
pub(crate) struct ReleaseSeen;

impl Play<Box<Stripe>, Knowledge> for ReleaseSeen {
    ghost use Rattle.tsc_stripe_table.specs.Steps.{releases_seen};

    ghost then = { releases_seen };
}

/// Releases it, and the Add on what is in hand is the last entry of the history.
pub(crate) struct Commit;

impl Play<Box<Stripe>, Knowledge> for Commit {
    ghost use Rattle.tsc_stripe_table.specs.Steps.{commits};

    ghost then = { commits };
}

/// The same, for a batch.
pub(crate) struct CommitBatch;

impl Play<Box<Stripe>, Knowledge> for CommitBatch {
    ghost use Rattle.tsc_stripe_table.specs.Steps.{commits_batch};

    ghost then = { commits_batch };
}

/// A seat has seen what its front says, where that is longer.
pub(crate) struct CatchUp;

impl Play<Box<Stripe>, Knowledge> for CatchUp {
    ghost use Rattle.tsc_stripe_table.specs.Steps.{catches_up};

    ghost then = { catches_up };
}

/// The first state goes to a participant of its own.
pub(crate) struct SplitOff;

impl Split<Knowledge> for SplitOff {
    ghost use Rattle.std.specs.Prelude.{◌∷◌, []};
    ghost use Rattle.tsc_stripe_table.specs.Rule.{keeping};
    ghost use Rattle.tsc_stripe_table.specs.Steps.{first_state, other_states};

    ghost left = { λ v. keeping v.setup (other_states v.states) };

    ghost right = { λ v. keeping v.setup (first_state v.states ∷ []) };
}

/// What a seat has seen goes to a front.
pub(crate) struct SplitFront;

impl Split<Knowledge> for SplitFront {
    ghost use Rattle.tsc_stripe_table.specs.Steps.{front_of, seen_of};

    ghost left = { λ v. v };

    ghost right = { λ v. front_of v.setup (seen_of v) };
}

/// The states of two participants come together.
pub(crate) struct Merge;

impl Join<Knowledge> for Merge {
    ghost use Rattle.std.specs.Prelude.{◌++◌};
    ghost use Rattle.tsc_stripe_table.specs.Rule.{keeping};
    ghost use Rattle.tsc_stripe_table.specs.Steps.{spent};

    ghost both = { λ v w. keeping v.setup (v.states ++ w.states) };

    ghost spent = { spent };
}

/// What a front says goes to another participant.
pub(crate) struct JoinFront;

impl Join<Knowledge> for JoinFront {
    ghost use Rattle.tsc_stripe_table.specs.Steps.{spent};

    ghost both = { λ v w. record v { front = w.front } };

    ghost spent = { spent };
}
