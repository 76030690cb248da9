//! A store: caches, shared caches and seats by their handles.

ghost use Rattle.std.specs.Borrow.{sem};
ghost use Rattle.std.specs.Prelude.{◌≡◌, ◌≢◌, ◌⊎◌, IfSome, IfNone, None, [], option_map, slice_get, slice_set, Some, true, false};
ghost use Rattle.tsc_ffi_store.specs.declared.store.Slot.TheVariants as kinds;

use crate::counts::{CountedCache, CountedSeat};
use crate::open_handles::place_of;
use crate::seats::Owner;
use std::alloc::Global;
use std::marker::Model;
use std::mem::replace;

/// What a handle that was given names.
#[derive(Drop)]
pub enum Slot {
    /// Nothing any more: a cache or a seat was closed, or moved.
    Closed,
    /// A cache for calls of one thread at a time.
    Own(CountedCache),
    /// A cache that threads share, for who opened it.
    Shared(Owner),
    /// A seat of one.
    Seat(CountedSeat),
}

impl Slot {
    ghost use Rattle.tsc_ffi_store.specs.Lending.{LendsCache, LendsSeat};
    ghost use Rattle.tsc_ffi_store.specs.Store.{cache_of, seat_of};

    /// The cache that is held.
    pub(crate) fn cache(&self) -> Option<&CountedCache>
        ensures { option_map (λ c. c.now) result ≡ cache_of self.now }
    {
        match self {
            Slot::Own(cache) => Some(cache),
            Slot::Closed | Slot::Shared(_) | Slot::Seat(_) => None,
        }
    }

    /// The cache that is held, to be changed.
    pub(crate) fn cache_mut(&mut self) -> Option<&mut CountedCache>
        ensures* writes_back { sem 𝓛 (LendsCache self.entry result) }
        ensures value { option_map (λ c. c.now) result ≡ cache_of self.old }
    {
        match self {
            Slot::Own(cache) => Some(cache),
            Slot::Closed | Slot::Shared(_) | Slot::Seat(_) => None,
        }
    }

    /// Whether something is held.
    fn is_open(&self) -> bool
        ensures some { result ≡ true → self.now ≢ kinds.Closed }
        ensures none { result ≡ false → self.now ≡ kinds.Closed }
    {
        !matches!(self, Slot::Closed)
    }

    /// The seat that is held.
    pub(crate) fn seat_mut(&mut self) -> Option<&mut CountedSeat>
        ensures* writes_back { sem 𝓛 (LendsSeat self.entry result) }
        ensures value { option_map (λ s. s.now) result ≡ seat_of self.old }
    {
        match self {
            Slot::Seat(seat) => Some(seat),
            Slot::Closed | Slot::Own(_) | Slot::Shared(_) => None,
        }
    }

    /// What is held, in whose stead nothing is left.
    fn take(&mut self) -> Option<Slot>
        ensures taken { IfSome result
            (λ s. (s ≡ self.old) × (s ≢ kinds.Closed) × (self.new ≡ kinds.Closed)) }
        ensures none { IfNone result ((self.old ≡ kinds.Closed) × (self.new ≡ self.old)) }
    {
        match replace(self, Slot::Closed) {
            Slot::Closed => None,
            slot @ (Slot::Own(_) | Slot::Shared(_) | Slot::Seat(_)) => Some(slot),
        }
    }
}

/// What handles name. They count on from 0, and none is given twice.
///
/// The store keeps what is open alone: each handle that names something, and what it names at the
/// same place of the other list. So its memory is that of as many as were open at once.
#[derive(Drop)]
pub struct Store {
    pub(crate) handles: Vec<u64>,
    pub(crate) slots: Vec<Slot>,
    pub(crate) next: u64,
}

impl Model for Store {
    ghost use Rattle.std.specs.Prelude.{List};
    ghost use Rattle.tsc_ffi_store.specs.declared.store.Slot.{Slot as Named};
    ghost use Rattle.tsc_ffi_store.specs.OpenHandles.{named_by, AreOpen};

    ghost Value = { List Named };

    ghost view = { λ s. named_by s.handles.items s.slots.items s.next };

    ghost invariant = { λ s. AreOpen s.handles.items s.slots.items s.next };
}

impl Store {
    ghost use Rattle.tsc_ffi_store.specs.Lending.{LendsCacheAt, LendsSeatAt};
    ghost use Rattle.tsc_ffi_store.specs.Store.{cache_at, shared_at, seat_at};
    ghost use Rattle.tsc_ffi_store.specs.SeatCalls.{NamesSome, NamesNone};

    /// A store that has given no handle.
    pub fn new(alloc: Global) -> Store
        ensures { result ≡ [] }
    {
        Store {
            handles: Vec::new(alloc),
            slots: Vec::new(alloc),
            next: 0,
        }
    }

    /// Where the memory of what the store holds comes from.
    pub fn alloc(&self) -> Global {
        *self.slots.allocator()
    }

    /// The cache that a handle names.
    pub fn cache(&self, handle: u64) -> Option<&CountedCache>
        ensures { option_map (λ c. c.now) result ≡ cache_at self.now handle }
    {
        let place = place_of(&self.handles, handle);
        match self.slots.get(place) {
            Some(slot) => slot.cache(),
            None => None,
        }
    }

    /// The cache that a handle names, to be changed.
    pub fn cache_mut(&mut self, handle: u64) -> Option<&mut CountedCache>
        ensures* writes_back { sem 𝓛 (LendsCacheAt self.entry handle result) }
        ensures value { option_map (λ c. c.now) result ≡ cache_at self.old handle }
    {
        let place = place_of(&self.handles, handle);
        match self.slots.get_mut(place) {
            Some(slot) => slot.cache_mut(),
            None => None,
        }
    }

    /// The seat that a handle names.
    pub fn seat_mut(&mut self, handle: u64) -> Option<&mut CountedSeat>
        ensures* writes_back { sem 𝓛 (LendsSeatAt self.entry handle result) }
        ensures value { option_map (λ s. s.now) result ≡ seat_at self.old handle }
    {
        let place = place_of(&self.handles, handle);
        match self.slots.get_mut(place) {
            Some(slot) => slot.seat_mut(),
            None => None,
        }
    }

    /// Whether a handle names something.
    pub fn names(&self, handle: u64) -> bool
        ensures some { result ≡ true → NamesSome self.now handle }
        ensures none { result ≡ false → NamesNone self.now handle }
    {
        let place = place_of(&self.handles, handle);
        match self.slots.get(place) {
            Some(slot) => slot.is_open(),
            None => false,
        }
    }

    /// What a handle names, which names nothing from then on.
    pub(crate) fn take(&mut self, handle: u64) -> Option<Slot>
        ensures taken { IfSome result
            (λ s. (slice_get self.old handle ≡ Some s) × (s ≢ kinds.Closed) ×
            (self.new ≡ slice_set self.old handle kinds.Closed)) }
        ensures no_cache { IfNone result (cache_at self.old handle ≡ None) }
        ensures no_shared { IfNone result (shared_at self.old handle ≡ None) }
        ensures no_seat { IfNone result (seat_at self.old handle ≡ None) }
        ensures unchanged { IfNone result (self.new ≡ self.old) }
    {
        let place = place_of(&self.handles, handle);
        match self.slots.get_mut(place) {
            Some(slot) => slot.take(),
            None => None,
        }
    }

    /// Keeps no place for a handle that names nothing any more.
    pub(crate) fn forget(&mut self, handle: u64)
        ensures { self.new ≡ self.old }
    {
        let place = place_of(&self.handles, handle);
        if let Some(Slot::Closed) = self.slots.get(place) {
            self.handles.remove(place);
            self.slots.remove(place);
        }
    }
}
