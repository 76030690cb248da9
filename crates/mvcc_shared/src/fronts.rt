//! Fronts, by which clients show one another what they have seen.
ghost use Rattle.std.specs.Prelude.{◌≡◌, []};
ghost use Rattle.mvcc_shared.specs.Steps.{CatchesUp, front_of, seen_of};
ghost use Rattle.mvcc_shared.specs.Participating.{IsOf, IsAtRest, IsFront};

use crate::steps::{CatchUp, JoinFront, SplitFront};
use crate::table::{Participant, SharedLock};

/// A front of all that the client of this participant has seen.
pub(crate) fn new_front(shared: &SharedLock, who: &mut Participant) -> Participant
    requires of { IsOf who.old shared.now.table_id }
    requires rest { IsAtRest who.old.me }
    ensures same { (who.new.table_id ≡ who.old.table_id) × (who.new.me ≡ who.old.me) }
    ensures table { result.table_id ≡ who.old.table_id }
    ensures front { result.me ≡ (front_of who.old.me.0.setup (seen_of who.old.me.0), []) }
{
    shared.split_seat::<SplitFront>(who)
}

/// The client has then seen what a front says, if that is longer than what it had seen. It takes no
/// lock.
pub(crate) fn see_front(shared: &SharedLock, who: &mut Participant, front: Participant)
    requires of { IsOf who.old shared.now.table_id }
    requires rest { IsAtRest who.old.me }
    requires table { front.table_id ≡ shared.now.table_id }
    requires front { IsFront front.me }
    ensures table { who.new.table_id ≡ who.old.table_id }
    ensures seen { CatchesUp who.old.me who.new.me front.me.0.front }
{
    shared.join_seat::<JoinFront>(who, front);
    shared.load::<CatchUp>(who, 0);
}
