//! Fronts, by which seats show one another what they have seen.
ghost use Rattle.std.specs.Prelude.{◌≡◌, []};
ghost use Rattle.tsc_left_right.specs.Steps.{CatchesUp, front_of, seen_of};
ghost use Rattle.tsc_left_right.specs.Participating.{IsOf, IsAtRest, IsNumber, IsFront, SeesNewest};

use crate::reader::{Nothing, read};
use crate::replicated::Replicated;
use crate::steps::{CatchUp, JoinFront, SplitFront};
use crate::table::{Participant, SharedReplicas};

/// A front of all that the seat of this participant has seen.
pub fn new_front<P: Replicated>(
    shared: &SharedReplicas<P>,
    who: &mut Participant<P>,
) -> Participant<P>
    requires of { IsOf who.old shared.now.table_id }
    requires rest { IsAtRest who.old.me }
    ensures same { (who.new.table_id ≡ who.old.table_id) × (who.new.me ≡ who.old.me) }
    ensures table { result.table_id ≡ who.old.table_id }
    ensures front { result.me ≡ (front_of who.old.me.0.setup (seen_of who.old.me.0), []) }
{
    shared.split_seat::<SplitFront>(who)
}

/// The seat has then seen what a front says, if that is longer than what it had seen.
fn see_front<P: Replicated>(
    shared: &SharedReplicas<P>,
    who: &mut Participant<P>,
    front: Participant<P>,
)
    requires of { IsOf who.old shared.now.table_id }
    requires rest { IsAtRest who.old.me }
    requires table { front.table_id ≡ shared.now.table_id }
    requires front { IsFront front.me }
    ensures table { who.new.table_id ≡ who.old.table_id }
    ensures seen { CatchesUp P.Replicated who.old.me who.new.me front.me.0.front }
{
    shared.join_seat::<JoinFront<P>>(who, front);
    shared.load::<CatchUp<P>>(who, 0);
}

/// The seat has then seen the whole history, which begins with what a front says. The result is how
/// many operations it has.
pub fn see_newest<P: Replicated>(
    shared: &SharedReplicas<P>,
    who: &mut Participant<P>,
    number: u32,
    front: Participant<P>,
) -> u64
    requires of { IsOf who.old shared.now.table_id }
    requires rest { IsAtRest who.old.me }
    requires number { IsNumber who.old.me.0 number }
    requires front { (front.table_id ≡ shared.now.table_id) × IsFront front.me }
    ensures table { who.new.table_id ≡ who.old.table_id }
    ensures seen { SeesNewest P.Replicated who.old.me who.new.me front.me.0.front result }
{
    see_front(shared, who, front);
    read(shared, who, number, &Nothing).1
}

/// The seat of one participant has then seen what that of the other has seen, if that is longer.
pub fn catch_up<P: Replicated>(
    shared: &SharedReplicas<P>,
    who: &mut Participant<P>,
    other: &mut Participant<P>,
)
    requires of { IsOf who.old shared.now.table_id }
    requires other { IsOf other.old shared.now.table_id }
    requires rest { IsAtRest who.old.me × IsAtRest other.old.me }
    ensures table { who.new.table_id ≡ who.old.table_id }
    ensures other_same { (other.new.table_id ≡ other.old.table_id) × (other.new.me ≡ other.old.me) }
    ensures caught_up { CatchesUp P.Replicated who.old.me who.new.me (seen_of other.old.me.0) }
{
    let front = new_front(shared, other);
    see_front(shared, who, front);
}
