//! The seats of a cache, and fronts, by the participants that they keep.
ghost use Rattle.std.specs.Prelude.{◌≡◌, [], ◌<◌, length, map, All, IfOk, IfSome, IfNone};
ghost use Rattle.tsc_left_right.specs.Rule.{first_knowledge, keeping};
ghost use Rattle.tsc_left_right.specs.Steps.{seen_of};
ghost use Rattle.tsc_left_right.specs.Participating.{IsOf, IsAtRest, IsSized};
ghost use Rattle.std.specs.Arc.{arc_value};
ghost use Rattle.tsc_cache.specs.History.{state_of};
ghost use Rattle.tsc_cache.specs.CacheView.{RepresentsState};
ghost use Rattle.tsc_shared.specs.Seats.{SharedView, IsFront, new_seats};
ghost use Rattle.tsc_shared.specs.Keeping.{cache_of, shared_view, state_of_seat};

use crate::caches::{Participant, Replicas, Setup, SharedReplicas};
use crate::seat::{Front, Seat};
use std::alloc::Global;
use std::sync::Arc;
use tsc_cache::{Cache, TimestampCache};
use tsc_left_right::{merge, new_front, new_replicas, split_off};
use tsc_time::NoMemory;

/// A cache to which nothing was added, and a handle on it.
fn empty_cache(alloc: Global, setup: &Setup) -> Result<Arc<Cache>, NoMemory>
    ensures { IfOk result (λ cache. RepresentsState (arc_value cache) setup.now.config
        (state_of setup.now.config [])) }
{
    let cache = Cache::new(alloc, setup.config)?;
    Ok(Arc::new(alloc, cache)?)
}

/// A table with two copies of a cache to which nothing was added, and its first participant, which
/// keeps the states of all seats.
pub(crate) fn open_table(alloc: Global, setup: &Setup) -> Result<(Replicas, Participant), NoMemory>
    ensures replicas { IfOk result (λ made. IsSized made.0.shared.table_id setup.now.seats
        × (made.0.shared.key ≡ setup.now)) }
    ensures all { IfOk result (λ made. (made.1.table_id ≡ made.0.shared.table_id)
        × (made.1.me ≡ (first_knowledge setup.now, []))) }
{
    let active = empty_cache(alloc, setup)?;
    let standby = empty_cache(alloc, setup)?;
    Ok(new_replicas(alloc, setup, active, standby)?)
}

/// A seat for each state that this participant keeps, in the order of their numbers.
pub(crate) fn seat_all(
    alloc: Global,
    shared: &SharedReplicas,
    mut all: Participant,
    setup: &Setup,
) -> Result<Vec<Seat>, NoMemory>
    requires participant { IsOf all shared.now.table_id }
    requires all { all.me ≡ (first_knowledge setup.now, []) }
    ensures { IfOk result (λ seats. seats.items ≡
        new_seats (shared_view shared.now.table_id setup.now) 0 setup.now.seats) }
{
    let count = setup.seats;
    let _first = setup.config.page_first();
    let mut seats = Vec::with_capacity(alloc, count as usize)?;
    for number in 0..count {
        let participant = split_off(shared, &mut all);
        seats.push(Seat {
            participant,
            number,
            count: 0,
            seen: 0,
        })?;
    }
    Ok(seats)
}

/// A front of all that the seat of this participant has seen, which is so long.
pub(crate) fn front_of(shared: &SharedReplicas, participant: &mut Participant, seen: u64) -> Front
    requires participant { IsOf participant.old shared.now.table_id }
    requires rest { IsAtRest participant.old.me }
    requires front { IsFront (record {
      cache = cache_of participant.old;
      seen = seen_of participant.old.me.0;
    }) }
    requires length { seen ≡ length (seen_of participant.old.me.0) }
    ensures same { (participant.new.table_id ≡ participant.old.table_id) ×
        (participant.new.me ≡ participant.old.me) }
    ensures front { result ≡ record {
      cache = cache_of participant.old;
      seen = seen_of participant.old.me.0;
    } }
{
    let front = new_front(shared, participant);
    Front {
        participant: front,
        seen,
    }
}

/// All seats at one shared seat, or `None` where there are none.
pub(crate) fn gather_all(shared: &SharedReplicas, mut seats: Vec<Seat>) -> Option<Participant>
    requires seats { (cache : SharedView) × (cache.table ≡ shared.now.table_id) ×
        All (λ seat. seat.cache ≡ cache) seats.items }
    requires shared { 0 < shared.now.table_id.words }
    ensures all { IfSome result (λ all. (all.table_id ≡ shared.now.table_id) × (all.me.1 ≡ []) ×
        (all.me.0 ≡ keeping all.me.0.setup (map state_of_seat seats.items))) }
    ensures own { IfSome result (λ all. (cache : SharedView) → All (λ seat. seat.cache ≡ cache)
        seats.items → cache_of all ≡ cache) }
    ensures none { IfNone result (seats.items ≡ []) }
{
    let mut all = seats.pop()?.participant;
    while let Some(seat) = seats.pop() {
        let mut participant = seat.participant;
        merge(shared, &mut participant, all);
        all = participant;
    }
    Some(all)
}
