//! Acquiring the lock, and releasing it.
ghost use Rattle.std.specs.Prelude.{◌≡◌, [], true, false};
ghost use Rattle.mvcc_shared.specs.Rule.{StoredRange};
ghost use Rattle.mvcc_shared.specs.Steps.{Acquires, number_of, seen_after, resting};
ghost use Rattle.mvcc_shared.specs.Participating.{IsOf, IsAtRest, CanRelease};

use crate::steps::{Acquire, Release};
use crate::table::{Participant, SharedLock};
use crossbeam_utils::Backoff;
use std::sync::Wait;

/// Acquires the lock if it is free: the range is then in hand. Else nothing changes.
fn try_acquire(shared: &SharedLock, who: &mut Participant) -> bool
    requires of { IsOf who.old shared.now.table_id }
    requires rest { IsAtRest who.old.me }
    ensures table { who.new.table_id ≡ who.old.table_id }
    ensures acquired { result ≡ true → (x : StoredRange) × Acquires who.old.me who.new.me x }
    ensures busy { result ≡ false → who.new.me ≡ who.old.me }
{
    shared.compare_exchange::<Acquire>(who, 0, 0, 1) == 0
}

/// Acquires the lock once it is free: it pauses, and then leaves the processor to others.
pub(crate) fn acquire<R: Wait>(rt: &R, shared: &SharedLock, who: &mut Participant)
    requires of { IsOf who.old shared.now.table_id }
    requires rest { IsAtRest who.old.me }
    ensures table { who.new.table_id ≡ who.old.table_id }
    ensures acquired { (x : StoredRange) × Acquires who.old.me who.new.me x }
{
    let backoff = Backoff::new();
    for _ in rt.forever() {
        if try_acquire(shared, who) {
            return;
        }
        backoff.snooze();
    }
    unreachable!()
}

/// Releases the lock. The call that was made on what is in hand is the last of the history.
pub(crate) fn release(shared: &SharedLock, who: &mut Participant)
    requires of { IsOf who.old shared.now.table_id }
    requires can { (x : StoredRange) × CanRelease who.old.me x }
    ensures table { who.new.table_id ≡ who.old.table_id }
    ensures released { who.new.me ≡ (
      resting who.old.me.0.setup (number_of who.old.me.0)
          (seen_after who.old.me.0 who.old.me.1),
      [],
    ) }
{
    shared.store::<Release>(who, 0, 0);
}
