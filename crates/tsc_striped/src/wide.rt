//! Lookups over several stripes, under all of their locks.
ghost use Rattle.std.specs.Prelude.{◌≡◌, ◌<◌, ◌≤◌, ◌-◌, IfOk, IfErr, OnErr, length};
ghost use Rattle.tsc_stripe_table.specs.Stripes.{stripe_count};
ghost use Rattle.tsc_stripe_table.specs.Steps.{holds_of};
ghost use Rattle.tsc_stripe_table.specs.Participating.{IsOf, IsAtRest, IsStripe, CanAcquire};
ghost use Rattle.tsc_striped.specs.Looks.{look_from};
ghost use Rattle.tsc_striped.specs.Moves.{HasLooked, HasReached, ReachesOn};

use tsc_span::SpanRef;
use tsc_stripe_table::{Participant, SharedStripes, release, release_seen, try_acquire};
use tsc_time::{Value, ratchet};

/// What a lookup answers in the stripes from one to the last, which lie above all that the seat
/// holds; or the stripe whose lock was held. The locks are then released again.
fn look_above(
    shared: &SharedStripes,
    who: &mut Participant,
    span: &SpanRef<'_>,
    stripe: u32,
    last: u32,
) -> Result<Value, u32>
    requires of { IsOf who.old shared.now.table_id }
    requires can { CanAcquire who.old.me.0 stripe × (0 < length (holds_of who.old.me.0))
        × HasReached who.old.me.0 }
    requires last { (stripe ≤ last) × IsStripe who.old.me.0 last }
    ensures table { who.new.table_id ≡ who.old.table_id }
    ensures looked { ReachesOn who.old.me who.new.me (λ h. IfOk result
        (λ value. value ≡ look_from who.old.me.0.setup h span.now stripe (last - stripe))) }
    ensures busy { IfErr result (λ busy. busy < stripe_count who.old.me.0.setup.bounds) }
{
    if !try_acquire(shared, who, stripe) {
        return Err(stripe);
    }
    let stored = who.slot_mut(shared, stripe as usize);
    let own = stored.cache.get_max_ref(span);
    if stripe == last {
        release(shared, who, stripe);
        return Ok(own);
    }
    match look_above(shared, who, span, stripe + 1, last) {
        Ok(others) => {
            release(shared, who, stripe);
            Ok(ratchet(own, others).0)
        }
        Err(busy) => {
            release(shared, who, stripe);
            Err(busy)
        }
    }
}

/// What a lookup answers in the stripes from the first to the last, under all of their locks, each
/// of which is tried once; or the stripe whose lock was held. The seat is then as it was.
pub(crate) fn look_under_all(
    shared: &SharedStripes,
    who: &mut Participant,
    span: &SpanRef<'_>,
    first: u32,
    last: u32,
) -> Result<Value, u32>
    requires rest { IsOf who.old shared.now.table_id × IsAtRest who.old.me }
    requires several { (first < last) × IsStripe who.old.me.0 last }
    ensures table { who.new.table_id ≡ who.old.table_id }
    ensures looked { IfOk result (λ value. HasLooked who.old.me who.new.me
        (λ h. value ≡ look_from who.old.me.0.setup h span.now first (last - first))) }
    ensures unchanged { OnErr result (who.new.me ≡ who.old.me) }
    ensures busy { IfErr result (λ busy. busy < stripe_count who.old.me.0.setup.bounds) }
{
    if !try_acquire(shared, who, first) {
        return Err(first);
    }
    let stored = who.slot_mut(shared, first as usize);
    let own = stored.cache.get_max_ref(span);
    match look_above(shared, who, span, first + 1, last) {
        Ok(others) => {
            release_seen(shared, who, first);
            Ok(ratchet(own, others).0)
        }
        Err(busy) => {
            release(shared, who, first);
            Err(busy)
        }
    }
}
