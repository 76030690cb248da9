//! The seats of a new cache.
ghost use Rattle.std.specs.Prelude.{◌≡◌, ◌<◌, ◌+◌, [], IfOk, map};
ghost use Rattle.std.specs.Arc.{arc_value};
ghost use Rattle.tsc_shared.specs.Seats.{new_seats};
ghost use Rattle.tsc_ffi_store.specs.Kinds.{seats_of, cache_of, number_of, new_any_seats};
ghost use Rattle.tsc_ffi_store.specs.declared.seats.kinds.AnyCache.TheVariants as kind;
ghost use Rattle.tsc_ffi_store.specs.declared.seats.kinds.AnySeat.TheVariants as any;
ghost use Rattle.tsc_ffi_store.specs.Owners.{handle_of};
ghost use Rattle.tsc_ffi_store.specs.Seating.{Deals, IsKeeper};

use crate::seats::handle::SeatHandle;
use crate::seats::kinds::AnySeat;
use crate::seats::owner::SharedHandle;
use crate::seats::return_slots::{SlotToken, next_token};
use std::alloc::Global;
use std::sync::Arc;
use tsc_shared::Seat;
use tsc_striped::{Dealer, StripedCache};
use tsc_time::NoMemory;

/// The seats of a shared cache, as seats of either kind.
pub(crate) fn any_seats(alloc: Global, seats: Vec<Seat>) -> Result<Vec<AnySeat>, NoMemory>
    ensures { IfOk result (λ all. all.items ≡ map any.Shared seats.items) }
{
    let mut all = Vec::with_capacity(alloc, seats.len())?;
    for seat in seats {
        all.push(AnySeat::Shared(seat))?;
    }
    Ok(all)
}

/// All seats of a cache in stripes, of which none was dealt, in the order of their numbers.
pub(crate) fn deal_all(
    alloc: Global,
    cache: &StripedCache,
    dealer: &mut Dealer,
    seats: u32,
) -> Result<Vec<AnySeat>, NoMemory>
    requires dealer { dealer.old ≡ record { cache = cache.now; dealt = 0 } }
    requires seats { seats ≡ cache.now.terms.seats }
    ensures dealt { IfOk result
        (λ all. all.items ≡ new_any_seats (kind.Striped cache.now) 0 seats) }
    ensures dealer { IfOk result
        (λ _. dealer.new ≡ record { cache = cache.now; dealt = seats }) }
{
    let mut all = Vec::with_capacity(alloc, seats as usize)?;
    for _ in 0..seats {
        let Some(seat) = cache.deal(dealer) else {
            unreachable!()
        };
        all.push(AnySeat::Striped(seat))?;
    }
    Ok(all)
}

/// A handle for a seat, whose token is the next one.
fn seat_one(
    shared: &Arc<SharedHandle>,
    dealer: &mut SlotToken,
    seat: AnySeat,
) -> Result<SeatHandle, NoMemory>
    requires cache { cache_of seat ≡ (arc_value shared.now).cache }
    requires dealer { Deals (arc_value shared.now) dealer.old.table_id dealer.old.me
        (number_of seat) }
    requires low { number_of seat < seats_of (arc_value shared.now).cache }
    ensures dealt { IfOk result (λ _. Deals (arc_value shared.now) dealer.new.table_id dealer.new.me
        (number_of seat + 1)) }
    ensures handle { IfOk result (λ handle. handle ≡ handle_of (arc_value shared.now).table seat) }
{
    let clone = Arc::try_clone(shared)?;
    let slot = next_token(&shared.slots.shared, dealer);
    Ok(SeatHandle {
        shared: clone,
        seat,
        slot,
    })
}

/// A handle for each of the seats of a cache, in their order.
pub(crate) fn seat_all(
    alloc: Global,
    shared: &Arc<SharedHandle>,
    dealer: &mut SlotToken,
    all: Vec<AnySeat>,
    seats: u32,
) -> Result<Vec<SeatHandle>, NoMemory>
    requires seats { seats ≡ seats_of (arc_value shared.now).cache }
    requires any { 0 < seats }
    requires all { all.items ≡ new_any_seats (arc_value shared.now).cache 0 seats }
    requires dealer { Deals (arc_value shared.now) dealer.old.table_id dealer.old.me 0 }
    ensures keeper { IfOk result
        (λ _. IsKeeper (arc_value shared.now) dealer.new.table_id dealer.new.me seats 0 [] ×
        (dealer.new.me.0.missed ≡ [])) }
    ensures handles { IfOk result
        (λ handles. handles.items ≡ map (handle_of (arc_value shared.now).table)
        (new_any_seats (arc_value shared.now).cache 0 seats)) }
{
    let mut handles = Vec::with_capacity(alloc, seats as usize)?;
    for seat in all {
        let handle = seat_one(shared, dealer, seat)?;
        handles.push(handle)?;
    }
    Ok(handles)
}
