//! The end of the table.
ghost use Rattle.std.specs.Prelude.{◌≡◌, ℕ, [], ◌<◌, ◌≤◌, ◌++◌, length, vec_capacity};
ghost use Rattle.tsc_stripe_table.specs.Stripes.{stripe_count};
ghost use Rattle.tsc_stripe_table.specs.Rule.{keeping, holders};
ghost use Rattle.tsc_stripe_table.specs.Participating.{IsSized, KeepsStates};
ghost use Rattle.tsc_stripe_table.specs.Closing.{IsEnd};

use crate::steps::Merge;
use crate::table::{Participant, SharedStripes, StripeTable};
use tsc_cache::Cache;

/// The states of another participant come to this one, behind its own.
pub fn merge(shared: &SharedStripes, who: &mut Participant, other: Participant)
    requires table { (who.old.table_id ≡ shared.now.table_id)
        × (other.table_id ≡ shared.now.table_id) }
    requires words { 0 < shared.now.table_id.words }
    requires states { KeepsStates who.old.me.0 × KeepsStates other.me.0 }
    requires free { other.me.1 ≡ [] }
    ensures table { who.new.table_id ≡ who.old.table_id }
    ensures both { who.new.me
        ≡ (keeping who.old.me.0.setup (who.old.me.0.states ++ other.me.0.states), who.old.me.1) }
{
    shared.join_seat::<Merge>(who, other);
}

/// Closes the table when one participant keeps the states of all seats, and gives the caches of all
/// stripes, in a vector that has room for them. It takes no memory.
pub fn close(table: StripeTable, all: Participant, mut caches: Vec<Cache>) -> Vec<Cache>
    requires table { (all.table_id ≡ table.shared.table_id)
        × IsSized table.shared.table_id table.shared.key.bounds }
    requires none { (stripe : ℕ) → holders stripe all.me.0 ≡ 0 }
    requires states { length all.me.0.states ≡ table.shared.key.seats }
    requires room { (caches.items ≡ []) × (stripe_count table.shared.key.bounds
        ≤ vec_capacity caches) }
    ensures { IsEnd table.shared.key all.me.0.states result.items }
{
    let mut closed = table.close_with(all);
    let mut stripe = 0;
    while stripe < closed.slot_count() {
        let stored = Box::into_inner(closed.take(stripe));
        caches.push_reserved(stored.cache);
        stripe += 1;
    }
    closed.free();
    caches
}
