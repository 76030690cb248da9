//! The end of the table.
ghost use Rattle.std.specs.Prelude.{◌≡◌, [], ◌<◌, ◌++◌, length};
ghost use Rattle.tsc_left_right.specs.Rule.{keeping, holders};
ghost use Rattle.tsc_left_right.specs.Participating.{KeepsStates};
ghost use Rattle.tsc_left_right.specs.Closing.{IsEnd};

use crate::replicated::Replicated;
use crate::steps::Merge;
use crate::table::{Participant, Replicas, SharedReplicas, Slot, WriterState};

/// The states of another participant come to this one, behind its own.
pub fn merge<P: Replicated>(
    shared: &SharedReplicas<P>,
    who: &mut Participant<P>,
    other: Participant<P>,
)
    requires table { (who.old.table_id ≡ shared.now.table_id)
        × (other.table_id ≡ shared.now.table_id) }
    requires words { 0 < shared.now.table_id.words }
    requires states { KeepsStates who.old.me.0 × KeepsStates other.me.0 }
    requires free { other.me.1 ≡ [] }
    ensures table { who.new.table_id ≡ who.old.table_id }
    ensures both { who.new.me
        ≡ (keeping who.old.me.0.setup (who.old.me.0.states ++ other.me.0.states), who.old.me.1) }
{
    shared.join_seat::<Merge<P>>(who, other);
}

/// Closes the table when one participant keeps the states of all seats, and gives what lay there.
pub fn close<P: Replicated>(
    replicas: Replicas<P>,
    all: Participant<P>,
) -> WriterState<P::Value, P::Operation>
    requires table { all.table_id ≡ replicas.shared.table_id }
    requires slots { 0 < replicas.shared.table_id.slots }
    requires none { holders all.me.0 ≡ 0 }
    requires states { length all.me.0.states ≡ replicas.shared.key.seats }
    ensures { IsEnd P.Replicated replicas.shared.key all.me.0.states result }
{
    let mut closed = replicas.close_with(all);
    let state = closed.take(0);
    let mut slot = 1;
    while slot < closed.slot_count() {
        drop(closed.take(slot));
        slot += 1;
    }
    closed.free();
    let Slot::Writer(state) = state else {
        unreachable!()
    };
    Box::into_inner(state)
}
