//! A cache as its seats share it, and its owner.
ghost use Rattle.std.specs.Prelude.{◌≡◌, [], IfOk, IfErr, ◌<◌};
ghost use Rattle.std.specs.Vec.{vec_capacity};
ghost use Rattle.tsc_shared.specs.Answers.{open_fault};
ghost use Rattle.tsc_striped.specs.Answers.{open_fault as striped_fault};
ghost use Rattle.tsc_ffi_store.specs.Owners.{OpensAt, OpensInStripes, LearnsOf, MissesSeat, EndsSo};
ghost use Rattle.tsc_ffi_store.specs.Seating.{IsKeeper, IsRoomFor};
ghost use Rattle.tsc_ffi_store.specs.Endings.{CanEnd};

use crate::seats::closing::end;
use crate::seats::ending::Ending;
use crate::seats::handle::SeatHandle;
use crate::seats::kinds::{AnyCache, AnySeat};
use crate::seats::opening::{any_seats, deal_all, seat_all};
use crate::seats::return_slots::{
    ReturnSlots, SlotToken, are_all_returned, collect_seats, learn_back, new_return_slots,
};
use std::alloc::Global;
use std::marker::Model;
use std::sync::Arc;
use tsc_cache::Config;
use tsc_shared::{OpenFault, SharedCache};
use tsc_span::Key;
use tsc_striped::{OpenFault as StripedFault, StripedCache};
use tsc_time::NoMemory;

/// A cache that threads share, and the slots in which its seats are returned.
#[derive(Drop)]
pub(crate) struct SharedHandle {
    pub(crate) cache: AnyCache,
    pub(crate) slots: ReturnSlots,
}

impl Model for SharedHandle {
    ghost use Rattle.std.specs.Prelude.{◌≡◌};
    ghost use Rattle.tsc_ffi_store.specs.Kinds.{seats_of};
    ghost use Rattle.tsc_ffi_store.specs.Seating.{SharedHandleView, IsSized};

    ghost Value = { SharedHandleView };

    ghost view = { λ h. record { cache = h.cache; table = h.slots.shared.table_id } };

    ghost invariant = { λ h. (h.slots.shared.key ≡ h.cache) ×
        IsSized h.slots.shared.table_id (seats_of h.cache) };
}

/// A cache that threads share for who opened it, and may close it.
#[derive(Drop)]
pub struct Owner {
    shared: Arc<SharedHandle>,
    keeper: SlotToken,
    seats: u32,
    returned: u32,
    room: Vec<AnySeat>,
    ending: Ending,
}

impl Model for Owner {
    ghost use Rattle.std.specs.Arc.{arc_value};
    ghost use Rattle.std.specs.Vec.{vec_capacity};
    ghost use Rattle.tsc_ffi_store.specs.Owners.{OwnerView};
    ghost use Rattle.tsc_ffi_store.specs.Seating.{IsKeeper, IsRoomFor};
    ghost use Rattle.tsc_ffi_store.specs.Endings.{CanEnd};

    ghost Value = { OwnerView };

    ghost view = { λ h. record {
      cache = (arc_value h.shared).cache;
      returns = (arc_value h.shared).table;
      back = h.keeper.me.0.back;
      missed = h.keeper.me.0.missed;
    } };

    ghost invariant = { λ h. IsKeeper (arc_value h.shared) h.keeper.table_id h.keeper.me h.seats
        h.returned h.keeper.me.0.back × IsRoomFor h.room.items (vec_capacity h.room) h.seats ×
        CanEnd (arc_value h.shared).cache h.ending };
}

impl Owner {
    /// A cache to which nothing was added, and a handle for each of its seats, in the order of
    /// their numbers, as [`SharedCache::open`] opens one.
    pub fn open(
        alloc: Global,
        config: Config,
        seats: u32,
        history_limit: u64,
    ) -> Result<(Owner, Vec<SeatHandle>), OpenFault>
        ensures opened { IfOk result
            (λ opened. OpensAt config seats history_limit opened.0 opened.1.items) }
        ensures refused { IfErr result (λ fault. fault ≡ open_fault seats) }
    {
        let (cache, all) = SharedCache::open(alloc, config, seats, history_limit)?;
        let cache = AnyCache::Shared(cache);
        let all = any_seats(alloc, all)?;
        let (slots, mut dealer) = new_return_slots(alloc, &cache, seats)?;
        let ending = Ending::of_shared(alloc, seats)?;
        let room = Vec::with_capacity(alloc, seats as usize).map_err(|_| NoMemory)?;
        let shared = Arc::new(alloc, SharedHandle { cache, slots }).map_err(|_| NoMemory)?;
        let handles = seat_all(alloc, &shared, &mut dealer, all, seats)?;
        let owner = Owner {
            shared,
            keeper: dealer,
            seats,
            returned: 0,
            room,
            ending,
        };
        Ok((owner, handles))
    }

    /// A cache in stripes to which nothing was added, and a handle for each of its seats, in the
    /// order of their numbers, as [`StripedCache::open`] opens one.
    pub fn open_striped(
        alloc: Global,
        config: Config,
        bounds: Vec<Key>,
        seats: u32,
    ) -> Result<(Owner, Vec<SeatHandle>), StripedFault>
        requires some { 0 < seats }
        ensures opened { IfOk result
            (λ opened. OpensInStripes config seats bounds.items opened.0 opened.1.items) }
        ensures refused { IfErr result (λ fault. fault ≡ striped_fault config bounds.items) }
    {
        let (cache, mut seat_dealer) = StripedCache::open(alloc, config, bounds, seats)?;
        let all = deal_all(alloc, &cache, &mut seat_dealer, seats)?;
        let cache = AnyCache::Striped(cache);
        let (slots, mut dealer) = new_return_slots(alloc, &cache, seats)?;
        let ending = Ending::of_striped(alloc, seat_dealer, seats)?;
        let room = Vec::with_capacity(alloc, seats as usize).map_err(|_| NoMemory)?;
        let shared = Arc::new(alloc, SharedHandle { cache, slots }).map_err(|_| NoMemory)?;
        let handles = seat_all(alloc, &shared, &mut dealer, all, seats)?;
        let owner = Owner {
            shared,
            keeper: dealer,
            seats,
            returned: 0,
            room,
            ending,
        };
        Ok((owner, handles))
    }

    /// Learns what a token knows of seats that came back, if it is one of this cache.
    pub(crate) fn learn(&mut self, token: SlotToken)
        requires free { token.me.1 ≡ [] }
        ensures { LearnsOf token.table_id token.me.0.back self.old self.new }
    {
        learn_back(&self.shared.slots.shared, &mut self.keeper, token);
    }

    /// Ends the cache if all its seats are returned, and tells how many Adds it had. Otherwise it
    /// hands itself back, which it may only where it looked for a seat and saw that it was not
    /// returned. A handle that was dropped, and not [closed](SeatHandle::close), is missing for
    /// good.
    ///
    /// The call takes no memory, and does not wait.
    pub fn close(mut self) -> Result<u64, Owner>
        ensures closed { IfOk result (λ adds. EndsSo self.cache self.back adds) }
        ensures still_out { IfErr result (λ owner. MissesSeat self owner) }
    {
        let slots = &self.shared.slots.shared;
        if !are_all_returned(slots, &mut self.keeper, self.seats, &mut self.returned) {
            return Err(self);
        }
        let Owner {
            shared,
            keeper,
            seats,
            returned: _,
            room,
            ending,
        } = self;
        Ok(shared.end(keeper, seats, room, ending))
    }
}

impl SharedHandle {
    /// Ends the cache with all its seats, which are returned, and tells how many Adds it had.
    fn end(&self, keeper: SlotToken, seats: u32, room: Vec<AnySeat>, ending: Ending) -> u64
        requires known { IsKeeper self.now keeper.table_id keeper.me seats seats
            keeper.me.0.back }
        requires room { IsRoomFor room.items (vec_capacity room) seats }
        requires ending { CanEnd self.now.cache ending }
        ensures { EndsSo self.now.cache keeper.me.0.back result }
    {
        let all = collect_seats(&self.slots.shared, keeper, seats, room);
        end(&self.cache, ending, all)
    }
}
