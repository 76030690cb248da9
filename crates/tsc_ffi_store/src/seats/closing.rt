//! The end of a cache with all its seats.
ghost use Rattle.std.specs.Prelude.{◌≡◌, ◌≤◌, List, [], length, All, map};
ghost use Rattle.std.specs.Vec.{vec_capacity};
ghost use Rattle.tsc_shared.specs.Seats.{SeatView};
ghost use Rattle.tsc_striped.specs.Seats.{SeatView as StripedView};
ghost use Rattle.tsc_ffi_store.specs.Kinds.{cache_of, seats_of};
ghost use Rattle.tsc_ffi_store.specs.Owners.{adds_of};
ghost use Rattle.tsc_ffi_store.specs.Endings.{CanEnd, EndsWithSeats, AreShared, AreStriped};

use crate::seats::ending::Ending;
use crate::seats::kinds::{AnyCache, AnySeat};
use tsc_shared::Seat;
use tsc_striped::Seat as StripedSeat;

/// Ends a cache with all its seats, and tells how many Adds it had.
pub(crate) fn end(cache: &AnyCache, ending: Ending, seats: Vec<AnySeat>) -> u64
    requires ending { CanEnd cache.now ending }
    requires seats { All (λ seat. cache_of seat ≡ cache.now) seats.items }
    requires all { length seats.items ≡ seats_of cache.now }
    ensures { EndsWithSeats cache.now seats.items result }
{
    match cache {
        AnyCache::Shared(cache) => {
            let Ending::Shared(room) = ending else {
                unreachable!()
            };
            match cache.retire(shared_seats(seats, room)) {
                Ok(adds) => adds,
                Err(_) => unreachable!(),
            }
        }
        AnyCache::Striped(cache) => {
            let Ending::Striped(dealer, room) = ending else {
                unreachable!()
            };
            let seats = striped_seats(seats, room);
            let adds = count_adds(&seats);
            match cache.retire(dealer, seats) {
                Ok(()) => adds,
                Err(_) => unreachable!(),
            }
        }
    }
}

/// Seats of a shared cache, in a list that has room for them.
fn shared_seats(seats: Vec<AnySeat>, mut room: Vec<Seat>) -> Vec<Seat>
    requires shared { (own : List SeatView) × AreShared seats.items own }
    requires none { room.items ≡ [] }
    requires room { length seats.items ≤ vec_capacity room }
    ensures { AreShared seats.items result.items }
{
    for seat in seats {
        let AnySeat::Shared(seat) = seat else {
            unreachable!()
        };
        let Ok(()) = room.push(seat) else {
            unreachable!()
        };
    }
    room
}

/// Seats of a cache in stripes, in a list that has room for them.
fn striped_seats(seats: Vec<AnySeat>, mut room: Vec<StripedSeat>) -> Vec<StripedSeat>
    requires striped { (own : List StripedView) × AreStriped seats.items own }
    requires none { room.items ≡ [] }
    requires room { length seats.items ≤ vec_capacity room }
    ensures { AreStriped seats.items result.items }
{
    for seat in seats {
        let AnySeat::Striped(seat) = seat else {
            unreachable!()
        };
        let Ok(()) = room.push(seat) else {
            unreachable!()
        };
    }
    room
}

/// How many Adds some seats count together. The count stays at 2^64 - 1 once it is there.
fn count_adds(seats: &[StripedSeat]) -> u64
    ensures { result ≡ adds_of seats.now }
{
    let mut adds: u64 = 0;
    for seat in seats {
        adds = adds.saturating_add(seat.count());
    }
    adds
}
