//! Making the table, and those who take part in it.
ghost use Rattle.std.specs.Prelude.{◌≡◌, [], ◌∷◌, ◌<◌, IfOk, length};
ghost use Rattle.mvcc_range.specs.Steps.{IsOpened};
ghost use Rattle.mvcc_shared.specs.Rule.{first_knowledge, keeping};
ghost use Rattle.mvcc_shared.specs.Steps.{first_state, other_states};
ghost use Rattle.mvcc_shared.specs.Participating.{IsOf, IsSized, KeepsStates};

use crate::served::{PendingCall, Served};
use crate::steps::SplitOff;
use crate::table::{Participant, RangeTable, Setup, SharedLock};
use atomic_table::Table;
use mvcc_range::Range;
use std::alloc::Global;
use timestamp_cache::NoMemory;

/// A table with a range and an empty log, and its first participant, which keeps the states of all
/// clients.
pub(crate) fn new_table(
    alloc: Global,
    setup: &Setup,
    range: Range,
) -> Result<(RangeTable, Participant), NoMemory>
    requires range { range ≡ setup.now.opened }
    requires opened { IsOpened setup.now.config setup.now.opened }
    ensures table { IfOk result (λ made. IsSized made.0.shared.table_id
        × (made.0.shared.key ≡ setup.now)) }
    ensures all { IfOk result (λ made. (made.1.table_id ≡ made.0.shared.table_id)
        × (made.1.me ≡ (first_knowledge setup.now, []))) }
{
    let served = Served {
        range,
        log: Vec::new(alloc),
        pending: PendingCall::Refuse,
    };
    let mut slots = Vec::new(alloc);
    slots.push(Box::new(alloc, served)?)?;
    match Table::new(alloc, &[0], slots, setup) {
        Ok(made) => Ok(made),
        Err(_refused) => Err(NoMemory),
    }
}

/// The first of the states that a participant keeps goes to a participant of its own.
pub(crate) fn deal(shared: &SharedLock, all: &mut Participant) -> Participant
    requires of { IsOf all.old shared.now.table_id }
    requires states { KeepsStates all.old.me.0 }
    requires some { 0 < length all.old.me.0.states }
    ensures table { all.new.table_id ≡ all.old.table_id }
    ensures others { all.new.me ≡ (
      keeping all.old.me.0.setup (other_states all.old.me.0.states),
      all.old.me.1,
    ) }
    ensures first { (result.me
        ≡ (keeping all.old.me.0.setup (first_state all.old.me.0.states ∷ []), []))
        × (result.table_id ≡ all.old.table_id) }
{
    shared.split_seat::<SplitOff>(all)
}
