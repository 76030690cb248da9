//! The end of the table.
ghost use Rattle.std.specs.Prelude.{◌≡◌, [], ◌<◌, ◌++◌, All, length, map};
ghost use Rattle.mvcc_shared.specs.Rule.{keeping, holders};
ghost use Rattle.mvcc_shared.specs.Participating.{IsSized, KeepsStates, IsEnd};
ghost use Rattle.mvcc_shared.specs.Clients.{SharedView};
ghost use Rattle.mvcc_shared.specs.Keeping.{state_of_client};

use crate::client::Client;
use crate::served::Served;
use crate::steps::Merge;
use crate::table::{Participant, RangeTable, SharedLock};

/// The states of another participant come to this one, behind its own.
fn merge(shared: &SharedLock, who: &mut Participant, other: Participant)
    requires table { (who.old.table_id ≡ shared.now.table_id)
        × (other.table_id ≡ shared.now.table_id) }
    requires words { 0 < shared.now.table_id.words }
    requires states { KeepsStates who.old.me.0 × KeepsStates other.me.0 }
    requires free { other.me.1 ≡ [] }
    ensures table { who.new.table_id ≡ who.old.table_id }
    ensures both { who.new.me
        ≡ (keeping who.old.me.0.setup (who.old.me.0.states ++ other.me.0.states), who.old.me.1) }
{
    shared.join_seat::<Merge>(who, other);
}

/// The states of all clients come to a participant.
pub(crate) fn gather(
    shared: &SharedLock,
    others: Participant,
    mut clients: Vec<Client>,
) -> Participant
    requires table { (others.table_id ≡ shared.now.table_id) × (0 < shared.now.table_id.words) }
    requires others { KeepsStates others.me.0 × (others.me.1 ≡ []) }
    requires clients { (range : SharedView) × (range.table ≡ shared.now.table_id)
        × All (λ client. client.range ≡ range) clients.items }
    ensures table { result.table_id ≡ shared.now.table_id }
    ensures all { (result.me.1 ≡ []) × (result.me.0 ≡ keeping result.me.0.setup
        (map state_of_client clients.items ++ others.me.0.states)) }
{
    let mut all = others;
    while let Some(client) = clients.pop() {
        let mut participant = client.participant;
        merge(shared, &mut participant, all);
        all = participant;
    }
    all
}

/// Closes the table when one participant keeps the states of all clients, and gives the range and
/// its log. It takes no memory.
pub(crate) fn close(table: RangeTable, all: Participant) -> Served
    requires table { (all.table_id ≡ table.shared.table_id) × IsSized table.shared.table_id }
    requires none { holders all.me.0 ≡ 0 }
    requires states { length all.me.0.states ≡ table.shared.key.clients }
    ensures { IsEnd table.shared.key all.me.0.states result }
{
    let mut closed = table.close_with(all);
    let served = Box::into_inner(closed.take(0));
    closed.free();
    served
}
