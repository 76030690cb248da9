//! Adds of batches, under the locks of all stripes on which they lie.
//!
//! Each stripe makes the next version of its cache first, so a refusal changes nothing. The
//! versions take their places once the last stripe has one. What they replace is dropped when all
//! locks are released, as are the versions of an Add that stops.
ghost use Rattle.std.specs.Prelude.{◌≡◌, [], ◌∷◌, ◌++◌, ◌+◌, ◌-◌, ◌<◌, ◌≤◌, IfOk, IfErr, OnErr, false};
ghost use Rattle.std.specs.Prelude.{length, vec_capacity, vec_len};
ghost use Rattle.atomic_table.specs.Table.{rest};
ghost use Rattle.tsc_cache.specs.State.{added_with};
ghost use Rattle.tsc_cache.specs.History.{CanAllBeAdded};
ghost use Rattle.tsc_stripe_table.specs.Stripes.{IsStateOn, marks_in};
ghost use Rattle.tsc_stripe_table.specs.Rule.{StoredStripe};
ghost use Rattle.tsc_stripe_table.specs.Steps.{Commits, IsCovered, state_in, with_state, released};
ghost use Rattle.tsc_stripe_table.specs.Steps.{reached_of, holds_of};
ghost use Rattle.tsc_stripe_table.specs.Participating.{IsOf, IsAtRest, HasStripe};
ghost use Rattle.tsc_striped.specs.Looks.{counted};
ghost use Rattle.tsc_striped.specs.Limits.{least_page_max};
ghost use Rattle.tsc_striped.specs.Cutting.{HasPieces, IsAmong, IsCut, CanAddBatch};
ghost use Rattle.tsc_striped.specs.Batches.{CanAddFrom, AddsFrom, StaysOn, AddsAll, IsStop, IsVersion};
ghost use Rattle.tsc_striped.specs.Batches.{entry_for};

use crate::batch::Batch;
use crate::gating::Publication;
use std::alloc::Global;
use tsc_cache::{Added, Cache};
use tsc_left_right::Gate;
use tsc_stripe_table::{Participant, SharedStripes, Version, commit_batch, release, try_acquire};
use tsc_time::NoMemory;

/// Why an Add of a batch stopped.
#[derive(Clone, Copy)]
pub(crate) enum Stop {
    /// The lock of this stripe was held.
    Busy(u32),
    /// A growth was refused.
    NoMemory,
}

/// What an Add did in one stripe and in others together. A count of dropped pages stays at its end.
fn join(own: Added, others: Added) -> Added
    ensures { result ≡ counted (added_with own others) }
{
    Added {
        kept: own.kept || others.kept,
        rotated: own.rotated || others.rotated,
        evicted: own.evicted.saturating_add(others.evicted),
    }
}

/// A count of dropped pages has not reached its end. It does nothing.
pub(crate) fn is_counted(added: &Added)
    ensures { added.now ≡ counted added.now }
{
    let _evicted = added.evicted;
}

/// The cache in hand after what lies of a batch there, and what was added. The stripe stays as it
/// is.
fn next_version(
    shared: &SharedStripes,
    who: &mut Participant,
    batch: &Batch,
    stripe: u32,
) -> Result<Version, NoMemory>
    requires of { IsOf who.old shared.now.table_id }
    requires has { (x : StoredStripe) × HasStripe who.old.me stripe x }
    requires pieces { HasPieces batch.now × IsAmong batch.now stripe }
    requires room { (x : StoredStripe) → HasStripe who.old.me stripe x
        → least_page_max ≤ x.value.cache.config.page_max }
    ensures same { (who.new.table_id ≡ who.old.table_id) × (who.new.me ≡ who.old.me) }
    ensures made { (x : StoredStripe) → HasStripe who.old.me stripe x
        → IsCut who.old.me.0.setup.bounds batch.now → IfOk result (λ made. IsVersion x.value.cache
        made.cache (marks_in who.old.me.0.setup.bounds stripe batch.now.marks.items)
        batch.now.moment made.added) }
{
    let stored = who.slot_mut(shared, stripe as usize);
    stored.next_all(batch.pieces_in(stripe), batch.moment)
}

/// The next version takes the place of the cache in hand, and the lock is released.
fn put(shared: &SharedStripes, who: &mut Participant, stripe: u32, next: Cache) -> Cache
    requires of { IsOf who.old shared.now.table_id }
    requires has { (x : StoredStripe) × HasStripe who.old.me stripe x }
    requires stands { IsStateOn who.old.me.0.setup stripe (reached_of who.old.me.0) next }
    ensures table { who.new.table_id ≡ who.old.table_id }
    ensures released { who.new.me
        ≡ (with_state who.old.me.0 (released (state_in who.old.me.0)), rest who.old.me.1) }
{
    let stored = who.slot_mut(shared, stripe as usize);
    let before = stored.replace(next);
    release(shared, who, stripe);
    before
}

/// The same, for the last stripe of a batch: the batch is then an entry of the history.
fn put_last(
    shared: &SharedStripes,
    who: &mut Participant,
    batch: &Batch,
    stripe: u32,
    next: Cache,
) -> Cache
    requires of { IsOf who.old shared.now.table_id }
    requires has { (x : StoredStripe) × HasStripe who.old.me stripe x }
    requires can { CanAllBeAdded who.old.me.0.setup.config batch.now.marks.items batch.now.moment
        × IsCovered who.old.me.0.setup.bounds (holds_of who.old.me.0)
        (entry_for who.old.me batch.now) }
    requires stands { IsStateOn who.old.me.0.setup stripe
        (reached_of who.old.me.0 ++ entry_for who.old.me batch.now ∷ []) next }
    ensures table { who.new.table_id ≡ who.old.table_id }
    ensures committed { Commits who.old.me.0 who.new.me.0 (entry_for who.old.me batch.now ∷ [])
        × (who.new.me.1 ≡ rest who.old.me.1) }
{
    let stored = who.slot_mut(shared, stripe as usize);
    let before = stored.replace_by_batch(next, &batch.marks, batch.moment);
    commit_batch(shared, who, stripe);
    before
}

/// Adds a batch in the stripes from one on, which lie above all that the seat holds. The gate is
/// called once all of them have their next version. Where the Add stops, no stripe has changed.
/// What it replaces, or made in vain, comes to `dropped`, which has room for that.
fn add_from<G: Gate>(
    shared: &SharedStripes,
    who: &mut Participant,
    batch: &Batch,
    from: u32,
    dropped: &mut Vec<Cache>,
    notice: &mut Publication<'_, G>,
) -> Result<Added, Stop>
    requires of { IsOf who.old shared.now.table_id }
    requires can { CanAddFrom who.old.me batch.now from
        × (vec_len dropped.old + (batch.now.last - from) < vec_capacity dropped.old)
        × (notice.old.reported ≡ false) }
    ensures table { (who.new.table_id ≡ who.old.table_id)
        × (vec_capacity dropped.new ≡ vec_capacity dropped.old)
        × (vec_len dropped.new ≤ vec_len dropped.old + (batch.now.last - from) + 1) }
    ensures added { IfOk result (λ added. AddsFrom who.old.me who.new.me batch.now from added
        × G.HasReported notice.old.gate.now notice.old.seat) }
    ensures stopped { OnErr result (StaysOn who.old.me who.new.me × (notice.new ≡ notice.old)) }
    ensures why { IfErr result (λ stop. IsStop who.old.me.0.setup stop) }
{
    let stripe = batch.next_stripe(from);
    if !try_acquire(shared, who, stripe) {
        return Err(Stop::Busy(stripe));
    }
    let Ok(version) = next_version(shared, who, batch, stripe) else {
        release(shared, who, stripe);
        return Err(Stop::NoMemory);
    };
    let own = version.added;
    if stripe == batch.last {
        is_counted(&own);
        notice.give();
        let before = put_last(shared, who, batch, stripe, version.cache);
        dropped.push_reserved(before);
        return Ok(own);
    }
    match add_from(shared, who, batch, stripe + 1, dropped, notice) {
        Ok(others) => {
            let before = put(shared, who, stripe, version.cache);
            dropped.push_reserved(before);
            Ok(join(own, others))
        }
        Err(stop) => {
            release(shared, who, stripe);
            dropped.push_reserved(version.cache);
            Err(stop)
        }
    }
}

/// Room for what an Add of a batch replaces.
fn room_for(alloc: Global, batch: &Batch) -> Result<Vec<Cache>, NoMemory>
    requires { batch.now.first ≤ batch.now.last }
    ensures { IfOk result (λ room. (room.items ≡ [])
        × ((batch.now.last - batch.now.first) + 1 ≤ vec_capacity room)) }
{
    Ok(Vec::with_capacity(alloc, (batch.last - batch.first) as usize + 1)?)
}

/// Adds a batch under the locks of all stripes on which it lies, each of which is tried once. Where
/// it stops, nothing has changed.
pub(crate) fn add_under_all<G: Gate>(
    alloc: Global,
    shared: &SharedStripes,
    who: &mut Participant,
    batch: &Batch,
    notice: &mut Publication<'_, G>,
) -> Result<Added, Stop>
    requires rest { IsOf who.old shared.now.table_id × IsAtRest who.old.me }
    requires can { CanAddBatch who.old.me.0.setup batch.now × (notice.old.reported ≡ false) }
    ensures table { who.new.table_id ≡ who.old.table_id }
    ensures added { IfOk result
        (λ added. AddsAll who.old.me who.new.me batch.now.marks.items batch.now.moment added
        × G.HasReported notice.old.gate.now notice.old.seat) }
    ensures stopped { OnErr result ((who.new.me ≡ who.old.me) × (notice.new ≡ notice.old)) }
    ensures why { IfErr result (λ stop. IsStop who.old.me.0.setup stop) }
{
    let Ok(mut dropped) = room_for(alloc, batch) else {
        return Err(Stop::NoMemory);
    };
    add_from(shared, who, batch, batch.first, &mut dropped, notice)
}
