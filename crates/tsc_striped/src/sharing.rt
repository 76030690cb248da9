//! Copies of the caches of several stripes, from one moment. Each shares the pages of its stripe.
ghost use Rattle.std.specs.Prelude.{◌≡◌, [], ◌+◌, ◌-◌, ◌<◌, ◌≤◌, IfOk, IfErr, OnErr};
ghost use Rattle.std.specs.Prelude.{vec_capacity, vec_len};
ghost use Rattle.tsc_stripe_table.specs.Rule.{StoredStripe};
ghost use Rattle.tsc_stripe_table.specs.Participating.{IsOf, IsAtRest, IsStripe, HasStripe};
ghost use Rattle.tsc_striped.specs.Moves.{HasLooked};
ghost use Rattle.tsc_striped.specs.Batches.{StaysOn, IsStop};
ghost use Rattle.tsc_striped.specs.Sharing.{IsCopy, CanShareFrom, SharesFrom, AreCopies};

use crate::wide_adds::Stop;
use std::alloc::Global;
use tsc_cache::Cache;
use tsc_stripe_table::{Participant, SharedStripes, release, release_seen, try_acquire};
use tsc_time::{NoMemory, Timestamp};

/// A copy of the cache in hand. The stripe stays as it is.
fn copy_in_hand(
    shared: &SharedStripes,
    who: &mut Participant,
    stripe: u32,
) -> Result<Cache, NoMemory>
    requires of { IsOf who.old shared.now.table_id }
    requires has { (x : StoredStripe) × HasStripe who.old.me stripe x }
    ensures same { (who.new.table_id ≡ who.old.table_id) × (who.new.me ≡ who.old.me) }
    ensures copied { (x : StoredStripe) → HasStripe who.old.me stripe x
        → IfOk result (λ copy. IsCopy x.value.cache copy) }
{
    let stored = who.slot_mut(shared, stripe as usize);
    let made = stored.next_all(&[], Timestamp::ZERO)?;
    Ok(made.cache)
}

/// Copies the caches of the stripes from one to the last, which lie above all that the seat holds.
/// They come to `copies`, which has room for them. The locks are then released again.
fn share_from(
    shared: &SharedStripes,
    who: &mut Participant,
    stripe: u32,
    last: u32,
    copies: &mut Vec<Cache>,
) -> Result<(), Stop>
    requires of { IsOf who.old shared.now.table_id }
    requires can { CanShareFrom who.old.me stripe last
        × (vec_len copies.old + (last - stripe) < vec_capacity copies.old) }
    ensures table { who.new.table_id ≡ who.old.table_id }
    ensures shared { IfOk result (λ _. SharesFrom who.old.me who.new.me stripe last
        copies.old.items copies.new.items) }
    ensures stopped { OnErr result (StaysOn who.old.me who.new.me) }
    ensures why { IfErr result (λ stop. IsStop who.old.me.0.setup stop) }
{
    if !try_acquire(shared, who, stripe) {
        return Err(Stop::Busy(stripe));
    }
    let Ok(copy) = copy_in_hand(shared, who, stripe) else {
        release(shared, who, stripe);
        return Err(Stop::NoMemory);
    };
    copies.push_reserved(copy);
    if stripe == last {
        release_seen(shared, who, stripe);
        return Ok(());
    }
    match share_from(shared, who, stripe + 1, last, copies) {
        Ok(()) => {
            release(shared, who, stripe);
            Ok(())
        }
        Err(stop) => {
            release(shared, who, stripe);
            Err(stop)
        }
    }
}

/// Room for the copies of so many stripes and one more.
fn room_for(alloc: Global, others: u32) -> Result<Vec<Cache>, NoMemory>
    ensures { IfOk result (λ room. (room.items ≡ []) × (others + 1 ≤ vec_capacity room)) }
{
    Ok(Vec::with_capacity(alloc, others as usize + 1)?)
}

/// Copies the caches of the stripes from the first to the last, under all of their locks, each of
/// which is tried once. Where it stops, the seat is as it was.
pub(crate) fn share_under_all(
    alloc: Global,
    shared: &SharedStripes,
    who: &mut Participant,
    first: u32,
    last: u32,
) -> Result<Vec<Cache>, Stop>
    requires rest { IsOf who.old shared.now.table_id × IsAtRest who.old.me }
    requires onward { (first ≤ last) × IsStripe who.old.me.0 last }
    ensures table { who.new.table_id ≡ who.old.table_id }
    ensures shared { IfOk result (λ copies. HasLooked who.old.me who.new.me
        (λ h. AreCopies who.old.me.0.setup h first last copies.items)) }
    ensures stopped { OnErr result (who.new.me ≡ who.old.me) }
    ensures why { IfErr result (λ stop. IsStop who.old.me.0.setup stop) }
{
    let Ok(mut copies) = room_for(alloc, last - first) else {
        return Err(Stop::NoMemory);
    };
    match share_from(shared, who, first, last, &mut copies) {
        Ok(()) => Ok(copies),
        Err(stop) => Err(stop),
    }
}
