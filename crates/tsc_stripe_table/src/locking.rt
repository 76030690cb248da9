//! Acquiring the locks of stripes, and releasing them.
ghost use Rattle.std.specs.Prelude.{◌≡◌, ◌∷◌, ◌<◌, true, false};
ghost use Rattle.atomic_table.specs.Table.{rest};
ghost use Rattle.tsc_stripe_table.specs.Rule.{StoredStripe, lock_word};
ghost use Rattle.tsc_stripe_table.specs.Steps.{Acquires, Commits, state_in, with_state};
ghost use Rattle.tsc_stripe_table.specs.Steps.{released, released_seen, made_in, batch_in};
ghost use Rattle.tsc_stripe_table.specs.Participating.{IsOf, CanAcquire, CanRelease, CanCommit};
ghost use Rattle.tsc_stripe_table.specs.Participating.{CanCommitBatch};

use crate::places::lock_word;
use crate::steps::{Acquire, Commit, CommitBatch, Release, ReleaseSeen};
use crate::table::{Participant, SharedStripes};

/// Acquires the lock of a stripe if it is free: the stripe is then in hand. Else nothing changes.
/// The stripe is above all that the seat holds.
#[inline]
pub fn try_acquire(shared: &SharedStripes, who: &mut Participant, stripe: u32) -> bool
    requires of { IsOf who.old shared.now.table_id }
    requires can { CanAcquire who.old.me.0 stripe }
    ensures table { who.new.table_id ≡ who.old.table_id }
    ensures acquired { result ≡ true → (x : StoredStripe)
        × Acquires who.old.me.0 who.new.me.0 stripe x.value.cache
        × (who.new.me.1 ≡ (stripe, x) ∷ who.old.me.1) }
    ensures busy { result ≡ false → who.new.me ≡ who.old.me }
{
    shared.compare_exchange::<Acquire>(who, lock_word(stripe), 0, 1) == 0
}

/// Whether the lock of a stripe is free, for a caller who waits. It promises nothing, since the
/// lock may be held again by now: only [`try_acquire`] says that it was free.
pub fn is_free(shared: &SharedStripes, stripe: u32) -> bool
    requires { lock_word stripe < shared.now.table_id.words }
{
    shared.peek(lock_word(stripe)) == 0
}

/// Releases the lock that was acquired last, and leaves its stripe as it was.
#[inline]
pub fn release(shared: &SharedStripes, who: &mut Participant, stripe: u32)
    requires of { IsOf who.old shared.now.table_id }
    requires can { (x : StoredStripe) × CanRelease who.old.me stripe x }
    ensures table { who.new.table_id ≡ who.old.table_id }
    ensures released { who.new.me
        ≡ (with_state who.old.me.0 (released (state_in who.old.me.0)), rest who.old.me.1) }
{
    shared.store::<Release>(who, lock_word(stripe), 0);
}

/// The same, and the seat has then seen the history that it had reached.
#[inline]
pub fn release_seen(shared: &SharedStripes, who: &mut Participant, stripe: u32)
    requires of { IsOf who.old shared.now.table_id }
    requires can { (x : StoredStripe) × CanRelease who.old.me stripe x }
    ensures table { who.new.table_id ≡ who.old.table_id }
    ensures released { who.new.me
        ≡ (with_state who.old.me.0 (released_seen (state_in who.old.me.0)), rest who.old.me.1) }
{
    shared.store::<ReleaseSeen>(who, lock_word(stripe), 0);
}

/// Releases the lock that was acquired last. The Add that was made on its stripe becomes the last
/// entry of the history, and the seat has seen it all.
#[inline]
pub fn commit(shared: &SharedStripes, who: &mut Participant, stripe: u32)
    requires of { IsOf who.old shared.now.table_id }
    requires can { (x : StoredStripe) × CanCommit who.old.me stripe x }
    ensures table { who.new.table_id ≡ who.old.table_id }
    ensures committed { Commits who.old.me.0 who.new.me.0
        (made_in (state_in who.old.me.0) who.old.me.1) }
    ensures hand { who.new.me.1 ≡ rest who.old.me.1 }
{
    shared.store::<Commit>(who, lock_word(stripe), 0);
}

/// The same, for the batch that was made on its stripe: it becomes one entry.
pub fn commit_batch(shared: &SharedStripes, who: &mut Participant, stripe: u32)
    requires of { IsOf who.old shared.now.table_id }
    requires can { (x : StoredStripe) × CanCommitBatch who.old.me stripe x }
    ensures table { who.new.table_id ≡ who.old.table_id }
    ensures committed { Commits who.old.me.0 who.new.me.0
        (batch_in (state_in who.old.me.0) who.old.me.1) }
    ensures hand { who.new.me.1 ≡ rest who.old.me.1 }
{
    shared.store::<CommitBatch>(who, lock_word(stripe), 0);
}
