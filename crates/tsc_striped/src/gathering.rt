//! All seats at one participant, for the closing.
ghost use Rattle.std.specs.Prelude.{◌≡◌, ◌<◌, ◌++◌, [], All, map};
ghost use Rattle.tsc_stripe_table.specs.Rule.{keeping};
ghost use Rattle.tsc_stripe_table.specs.Participating.{KeepsStates};
ghost use Rattle.tsc_striped.specs.Seats.{StripedView};
ghost use Rattle.tsc_striped.specs.Keeping.{cache_of, state_of_seat};

use crate::seat::Seat;
use tsc_stripe_table::{Participant, SharedStripes, merge};

/// The states of all seats come to a participant.
pub(crate) fn gather(
    shared: &SharedStripes,
    others: Participant,
    mut seats: Vec<Seat>,
) -> Participant
    requires table { (others.table_id ≡ shared.now.table_id) × (0 < shared.now.table_id.words) }
    requires others { KeepsStates others.me.0 × (others.me.1 ≡ []) }
    requires seats { (cache : StripedView) × (cache.table ≡ shared.now.table_id)
        × All (λ seat. seat.cache ≡ cache) seats.items }
    ensures table { result.table_id ≡ shared.now.table_id }
    ensures all { (result.me.1 ≡ []) × (result.me.0 ≡ keeping result.me.0.setup
        (map state_of_seat seats.items ++ others.me.0.states)) }
    ensures own { All (λ seat. seat.cache ≡ cache_of others) seats.items
        → cache_of result ≡ cache_of others }
{
    let mut all = others;
    while let Some(seat) = seats.pop() {
        let mut participant = seat.participant;
        merge(shared, &mut participant, all);
        all = participant;
    }
    all
}
