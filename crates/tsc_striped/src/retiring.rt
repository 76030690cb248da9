//! The end of a cache that others may still refer to.
ghost use Rattle.std.specs.Prelude.{◌≡◌, ◌↔◌, ◌<◌, List, IsOk, IfOk, IfErr, All, length};
ghost use Rattle.tsc_cache.specs.CacheView.{CacheView};
ghost use Rattle.tsc_striped.specs.Answers.{Retires};
ghost use Rattle.tsc_striped.specs.Retiring.{KeepsAll, EndsAs};

use crate::gathering::gather;
use crate::seat::{Dealer, Seat};
use crate::striped::StripedCache;
use atomic_table::Play;
use tsc_stripe_table::{Knowledge, Participant, SharedStripes, Stripe};

/// Who keeps the states of all seats sees the end.
struct SeeEnd;

impl Play<Box<Stripe>, Knowledge> for SeeEnd {
    ghost use Rattle.tsc_striped.specs.Retiring.{sees_end};

    ghost then = { sees_end };
}

/// The participant that keeps the states of all seats sees the end of the cache.
fn see_end(shared: &SharedStripes, mut all: Participant)
    requires table { (all.table_id ≡ shared.now.table_id) × (0 < shared.now.table_id.words) }
    requires all { KeepsAll all.me.0 }
    ensures { EndsAs all.me.0.setup all.me.0.states }
{
    shared.load::<SeeEnd>(&mut all, 0);
}

impl StripedCache {
    /// Retires all seats that were dealt, of a cache that others may still refer to. Nobody can add
    /// or look any more. What the cache holds is given back once it is dropped. Where some seats
    /// are missing it hands all back. A seat that was dropped is missing for good.
    ///
    /// The call takes no memory, waits for nobody, and takes two steps for each seat.
    pub fn retire(&self, dealer: Dealer, seats: Vec<Seat>) -> Result<(), (Dealer, Vec<Seat>)>
        requires dealer { dealer.cache ≡ self.now }
        requires seats { All (λ seat. seat.cache ≡ self.now) seats.items }
        ensures retired { IfOk result (λ _. (caches : List CacheView) ×
            Retires dealer seats.items caches) }
        ensures exactly { IsOk result ↔ (length seats.items ≡ dealer.dealt) }
        ensures still_out { IfErr result
            (λ out. (out.0 ≡ dealer) × (out.1.items ≡ seats.items)) }
    {
        let is_missing = seats.len() != dealer.dealt as usize;
        if is_missing {
            return Err((dealer, seats));
        }
        let shared = &self.table.shared;
        let all = gather(shared, dealer.participant, seats);
        see_end(shared, all);
        Ok(())
    }
}
