//! The end of a cache that others may still refer to.
ghost use Rattle.std.specs.Prelude.{◌≡◌, ◌<◌};
ghost use Rattle.std.specs.List.{sum_by};
ghost use Rattle.tsc_cache.specs.Counts.{up_to_end};
ghost use Rattle.tsc_shared.specs.Retiring.{KeepsAll, EndsAs};

use crate::adds::UnappliedAdd;
use crate::caches::{Participant, SharedReplicas};
use crate::seat::Seat;
use atomic_table::Play;
use tsc_cache::{Cache, Config, Entry};
use tsc_left_right::{Knowledge, Slot};

/// Who keeps the states of all seats sees the end.
struct SeeEnd;

impl Play<Slot<Cache, UnappliedAdd>, Knowledge<Config, Entry>> for SeeEnd {
    ghost use Rattle.tsc_shared.specs.Retiring.{sees_end};

    ghost then = { sees_end };
}

/// The participant that keeps the states of all seats sees the end of the cache.
pub(crate) fn see_end(shared: &SharedReplicas, mut all: Participant)
    requires table { (all.table_id ≡ shared.now.table_id) × (0 < shared.now.table_id.words) }
    requires all { KeepsAll all.me.0 }
    ensures { EndsAs all.me.0.setup all.me.0.states }
{
    shared.load::<SeeEnd>(&mut all, 0);
}

/// How many Adds some seats count together. The count stays at 2^64 - 1 once it is there.
pub(crate) fn count_adds(seats: &[Seat]) -> u64
    ensures { result ≡ up_to_end (sum_by (λ seat. seat.count) seats.now) }
{
    let mut adds: u64 = 0;
    for seat in seats {
        adds = adds.saturating_add(seat.count());
    }
    adds
}
