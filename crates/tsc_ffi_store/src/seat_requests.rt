//! The requests for caches that threads share, and for their seats.

ghost use Rattle.std.specs.Prelude.{◌≡◌, ◌⊎◌, ◌++◌, ◌∷◌, ◌+◌, ◌-◌, ◌^◌, ◌<◌, ◌≤◌, IfOk, IfErr, OnErr, IfSome, IfNone, None, Some, [], map, length, slice_get, slice_set};
ghost use Rattle.std.specs.Vec.{vec_len, vec_capacity};
ghost use Rattle.tsc_shared.specs.Seats.{is_seat_count};
ghost use Rattle.tsc_ffi_store.specs.Decode.{time_of, value_of, added_of, asked_span, asked_add, asked_batch};
ghost use Rattle.tsc_ffi_store.specs.Store.{seat_of, seat_at, RefusesHandles};
ghost use Rattle.tsc_ffi_store.specs.SeatCalls.{unasked, OpensShared, RefusesSeats, LacksMemoryForSeats, AnswersSeatLookup, AnswersSeatLowWater, AnswersSeatAdd, AnswersSeatAddAll, AnswersTriedAdd, AnswersTriedAddAll, AnswersMove, Learns, LearnsAt, AnswersCloseSeat, EndsShared, AnswersCloseShared};
ghost use Rattle.tsc_ffi_store.specs.Counts.{CountsSeatLookup, CountsSeatAdd, CountsNothing};
ghost use Rattle.tsc_ffi_store.specs.Kinds.{ByKind};
ghost use Rattle.tsc_ffi_store.specs.StripedCalls.{OpensStriped, RefusesOpenStriped, AnswersStripedLookup, AnswersStripedLowWater, AnswersFigures, AnswersStripedAdd, AnswersStripedAddAll, AnswersStripedTriedAdd, AnswersStripedTriedAll};
ghost use Rattle.tsc_ffi_store.specs.OpenHandles.{AreOpen, named_by};
ghost use Rattle.tsc_ffi_store.specs.declared.store.Slot.TheVariants as kinds;

use crate::cache_requests::count;
use crate::counts::CountedSeat;
use crate::ctypes::{
    AddArgs, BatchArgs, BoundsArgs, SpanArgs, TscAdded, TscFigures, TscTime, TscValue,
};
use crate::decode::{
    added_span, copied_span, looked_up_span, time, value, words_of, words_of_added,
    words_of_figures, words_of_time,
};
use crate::marks::{check_marks, marks};
use crate::named_bounds::{bounds, check_bounds, of_open_fault};
use crate::open_handles::{place_of, push_slot};
use crate::refusal::Refusal;
use crate::seats::{Owner, SeatHandle, SlotToken};
use crate::store::{Slot, Store};
use std::alloc::Global;
use std::mem::replace;
use tsc_cache::Config;

/// Whether a shared cache may have `seats` seats.
pub fn may_seat(seats: u32) -> bool
    ensures { result ≡ is_seat_count seats }
{
    1 <= seats && seats <= 64
}

impl Slot {
    /// The seat that is held, in whose stead nothing is left.
    fn take_seat(&mut self) -> Option<CountedSeat>
        ensures taken { IfSome result
            (λ seat. (self.old ≡ kinds.Seat seat) × (self.new ≡ kinds.Closed)) }
        ensures none { IfNone result (seat_of self.old ≡ None) }
        ensures unchanged { IfNone result (self.new ≡ self.old) }
    {
        match replace(self, Slot::Closed) {
            Slot::Seat(held) => Some(held),
            slot @ (Slot::Closed | Slot::Own(_) | Slot::Shared(_)) => {
                *self = slot;
                None
            }
        }
    }

    /// Learns what a token knows of seats that came back, if that is of the shared cache that is
    /// held.
    fn learn(&mut self, token: SlotToken)
        requires free { token.me.1 ≡ [] }
        ensures { Learns token.table_id token.me.0.back self.old self.new }
    {
        match self {
            Slot::Shared(owner) => owner.learn(token),
            Slot::Closed | Slot::Own(_) | Slot::Seat(_) => {}
        }
    }

    /// Closes the shared cache that is held, and writes how many Adds its history has.
    fn close_shared(&mut self, length: &mut u64) -> Result<(), Refusal>
        ensures ended { EndsShared length.new self.old self.new result }
        ensures kept { OnErr result (length.new ≡ length.old) }
    {
        match replace(self, Slot::Closed) {
            Slot::Shared(owner) => match owner.close() {
                Ok(adds) => {
                    *length = adds;
                    Ok(())
                }
                Err(owner) => {
                    *self = Slot::Shared(owner);
                    Err(Refusal::StillOut)
                }
            },
            slot @ (Slot::Closed | Slot::Own(_) | Slot::Seat(_)) => {
                *self = slot;
                Err(Refusal::Closed)
            }
        }
    }
}

impl Store {
    /// Opens a shared cache, and gives its handle. Its seats have the handles behind that.
    pub fn open_shared(
        &mut self,
        alloc: Global,
        config: Config,
        seats: u32,
        limit: u64,
    ) -> Result<u64, Refusal>
        ensures opened { IfOk result
            (λ handle. OpensShared self.old self.new handle config seats limit) }
        ensures refused { IfErr result (λ why. RefusesSeats why seats ⊎
            RefusesHandles why self.old (seats + 1) ⊎ LacksMemoryForSeats why seats self.old) }
        ensures unchanged { OnErr result (self.new ≡ self.old) }
    {
        if !may_seat(seats) {
            return Err(Refusal::Seats);
        }
        if u64::MAX - self.next <= seats as u64 {
            return Err(Refusal::Full);
        }
        let many = seats as usize + 1;
        if self.handles.reserve(many).is_err() || self.slots.reserve(many).is_err() {
            return Err(Refusal::NoMemory);
        }
        match Owner::open(alloc, config, seats, limit) {
            Ok((owner, seats)) => {
                let handle = self.next;
                put(
                    &mut self.handles,
                    &mut self.slots,
                    &mut self.next,
                    owner,
                    seats,
                );
                Ok(handle)
            }
            Err(_) => Err(Refusal::NoMemory),
        }
    }

    /// Opens a cache in stripes, and gives its handle. Its seats have the handles behind that.
    pub fn open_striped(
        &mut self,
        alloc: Global,
        config: Config,
        args: &BoundsArgs<'_>,
        seats: u32,
    ) -> Result<u64, Refusal>
        ensures opened { IfOk result (λ handle. OpensStriped self.old self.new handle config seats
            args.now.keys.now args.now.lens.now) }
        ensures refused { IfErr result (λ why. RefusesOpenStriped why self.old config seats
            args.now.keys.now args.now.lens.now) }
        ensures unchanged { OnErr result (self.new ≡ self.old) }
    {
        check_bounds(args, seats)?;
        if u64::MAX - self.next <= seats as u64 {
            return Err(Refusal::Full);
        }
        let bounds = bounds(alloc, args)?;
        match Owner::open_striped(alloc, config, bounds, seats) {
            Ok((owner, handles)) => {
                let many = handles.len() + 1;
                if self.handles.reserve(many).is_err() || self.slots.reserve(many).is_err() {
                    return Err(Refusal::NoMemory);
                }
                let handle = self.next;
                put(
                    &mut self.handles,
                    &mut self.slots,
                    &mut self.next,
                    owner,
                    handles,
                );
                Ok(handle)
            }
            Err(fault) => Err(of_open_fault(fault)),
        }
    }

    /// Returns a seat. The owner of its cache learns of it, if it lies where both were opened.
    pub fn close_seat(&mut self, handle: u64) -> Result<(), Refusal>
        ensures answers { AnswersCloseSeat handle self.old self.new result }
        ensures kept { OnErr result (self.new ≡ self.old) }
    {
        let Some(held) = self.take_seat(handle) else {
            return Err(Refusal::Closed);
        };
        self.forget(handle);
        let opened_at = held.opened_at;
        self.learn(opened_at, held.seat.close());
        Ok(())
    }

    /// The seat that a handle names, which names nothing from then on.
    fn take_seat(&mut self, handle: u64) -> Option<CountedSeat>
        ensures taken { IfSome result
            (λ seat. (slice_get self.old handle ≡ Some (kinds.Seat seat)) ×
            (self.new ≡ slice_set self.old handle kinds.Closed)) }
        ensures none { IfNone result (seat_at self.old handle ≡ None) }
        ensures unchanged { IfNone result (self.new ≡ self.old) }
    {
        let place = place_of(&self.handles, handle);
        match self.slots.get_mut(place) {
            Some(slot) => slot.take_seat(),
            None => None,
        }
    }

    /// What a handle names learns what a token knows of seats that came back.
    fn learn(&mut self, handle: u64, token: SlotToken)
        requires free { token.me.1 ≡ [] }
        ensures { LearnsAt token.table_id token.me.0.back self.old self.new handle }
    {
        let place = place_of(&self.handles, handle);
        match self.slots.get_mut(place) {
            Some(slot) => slot.learn(token),
            None => {}
        }
    }

    /// Closes a shared cache, and writes how many Adds its history has.
    pub fn close_shared(&mut self, handle: u64, length: &mut u64) -> Result<(), Refusal>
        ensures answers { AnswersCloseShared length.new handle self.old self.new result }
        ensures kept { OnErr result (length.new ≡ length.old) }
    {
        let did = self.close_shared_there(handle, length);
        self.forget(handle);
        did
    }

    /// Closes a shared cache, and keeps the place of its handle.
    fn close_shared_there(&mut self, handle: u64, length: &mut u64) -> Result<(), Refusal>
        ensures answers { AnswersCloseShared length.new handle self.old self.new result }
        ensures kept { OnErr result (length.new ≡ length.old) }
    {
        let place = place_of(&self.handles, handle);
        match self.slots.get_mut(place) {
            Some(slot) => slot.close_shared(length),
            None => Err(Refusal::Closed),
        }
    }

    /// Hands in all seats, and lets all else go.
    pub fn close_seats(&mut self) {
        self.handles.clear();
        let alloc = *self.slots.allocator();
        for slot in replace(&mut self.slots, Vec::new(alloc)) {
            if let Slot::Seat(held) = slot {
                let _token = held.seat.close();
            }
        }
    }

    /// What a handle names goes to the next handle of another store, which is written.
    pub fn move_to(
        &mut self,
        handle: u64,
        other: &mut Store,
        other_handle: &mut u64,
    ) -> Result<(), Refusal>
        ensures answers { AnswersMove handle other_handle.new self.old other.old self.new other.new
            result }
        ensures kept { OnErr result ((self.new ≡ self.old) × (other.new ≡ other.old) ×
            (other_handle.new ≡ other_handle.old)) }
    {
        if !self.names(handle) {
            return Err(Refusal::Closed);
        }
        if other.next == u64::MAX {
            return Err(Refusal::Full);
        }
        if other.handles.reserve(1).is_err() || other.slots.reserve(1).is_err() {
            return Err(Refusal::NoMemory);
        }
        let Some(slot) = self.take(handle) else {
            return Err(Refusal::Closed);
        };
        *other_handle = other.next;
        push_slot(&mut other.handles, &mut other.slots, &mut other.next, slot);
        self.forget(handle);
        Ok(())
    }
}

/// Lays a shared cache and its seats behind what there is, for which there is room, at the next
/// handles.
fn put(
    handles: &mut Vec<u64>,
    slots: &mut Vec<Slot>,
    next: &mut u64,
    owner: Owner,
    seats: Vec<SeatHandle>,
)
    requires are_open { AreOpen handles.old.items slots.old.items next.old }
    requires room { vec_len handles.old + 1 + length seats.items ≤ vec_capacity handles.old }
    requires slots { vec_len slots.old + 1 + length seats.items ≤ vec_capacity slots.old }
    requires left { next.old + 1 + length seats.items ≤ 2 ^ 64 - 1 }
    ensures are_open { AreOpen handles.new.items slots.new.items next.new }
    ensures named { named_by handles.new.items slots.new.items next.new ≡
        named_by handles.old.items slots.old.items next.old ++ kinds.Shared owner ∷
        map (λ s. kinds.Seat (unasked next.old s)) seats.items }
{
    let opened_at = *next;
    push_slot(handles, slots, next, Slot::Shared(owner));
    for seat in seats {
        let held = CountedSeat::new(seat, opened_at);
        push_slot(handles, slots, next, Slot::Seat(held));
    }
}

/// Writes the latest time on a span, and how many Adds the seat has seen then.
pub fn look_at(
    held: &mut CountedSeat,
    span: &SpanArgs<'_>,
    seen: &mut u64,
    out: &mut TscValue,
) -> Result<(), Refusal>
    ensures answers { CountsSeatLookup
        (ByKind (AnswersSeatLookup (asked_span span.now) seen.new (value_of out.new))
        (AnswersStripedLookup (asked_span span.now) seen.new (value_of out.new))) held.old
        held.new result }
    ensures kept { OnErr result ((seen.new ≡ seen.old) × (out.new ≡ out.old)) }
{
    let span = looked_up_span(span)?;
    let answer = held.seat.get_max_ref(&span)?;
    *seen = answer.front;
    *out = words_of(answer.value);
    held.counts.answer();
    Ok(())
}

/// Writes where the floor of the cache of a seat stands, and how many Adds the seat has seen then.
pub fn floor_at(held: &mut CountedSeat, seen: &mut u64, out: &mut TscTime) -> Result<(), Refusal>
    ensures answers { CountsNothing (ByKind (AnswersSeatLowWater seen.new (time_of out.new))
        (AnswersStripedLowWater seen.new (time_of out.new))) held.old held.new result }
    ensures kept { OnErr result ((seen.new ≡ seen.old) × (out.new ≡ out.old)) }
{
    let answer = held.seat.low_water()?;
    *seen = answer.front;
    *out = words_of_time(answer.time);
    Ok(())
}

/// Writes what can be counted of the cache of a seat, and how many Adds the seat has seen then.
pub fn figures_at(
    alloc: Global,
    held: &mut CountedSeat,
    seen: &mut u64,
    out: &mut TscFigures,
) -> Result<(), Refusal>
    ensures answers { AnswersFigures seen.new out.new held.old held.new result }
    ensures kept { OnErr result ((seen.new ≡ seen.old) × (out.new ≡ out.old)) }
{
    let answer = held.seat.figures(alloc)?;
    *seen = answer.figures.front;
    *out = words_of_figures(answer.figures.figures, answer.memory, held.counts);
    Ok(())
}

/// Adds a span at a seat, and writes the place of that among all Adds, and what it did.
pub fn add_at(
    alloc: Global,
    held: &mut CountedSeat,
    args: &AddArgs<'_>,
    tries: u32,
    place: &mut u64,
    out: &mut TscAdded,
) -> Result<(), Refusal>
    ensures answers { CountsSeatAdd
        (ByKind (AnswersSeatAdd (asked_add args.now) tries place.new (added_of out.new))
        (AnswersStripedAdd (asked_add args.now) tries place.new (added_of out.new)))
        out.new.evicted held.old held.new result }
    ensures kept { OnErr result ((place.new ≡ place.old) × (out.new ≡ out.old)) }
{
    let did = add_to_seat(alloc, &mut held.seat, args, tries, place, out);
    count(&mut held.counts, &did, out);
    did
}

/// Adds a span at a seat, uncounted.
fn add_to_seat(
    alloc: Global,
    seat: &mut SeatHandle,
    args: &AddArgs<'_>,
    tries: u32,
    place: &mut u64,
    out: &mut TscAdded,
) -> Result<(), Refusal>
    ensures answers { ByKind
        (AnswersSeatAdd (asked_add args.now) tries place.new (added_of out.new))
        (AnswersStripedAdd (asked_add args.now) tries place.new (added_of out.new)) seat.old.seat
        seat.new.seat result }
    ensures same { seat.new.returns ≡ seat.old.returns }
    ensures kept { OnErr result ((place.new ≡ place.old) × (out.new ≡ out.old)) }
{
    if tries == 0 {
        return Err(Refusal::Tries);
    }
    try_add_to_seat(alloc, seat, args, tries, place, out)
}

/// Adds a span at a seat within so many tries, uncounted.
fn try_add_to_seat(
    alloc: Global,
    seat: &mut SeatHandle,
    args: &AddArgs<'_>,
    tries: u32,
    place: &mut u64,
    out: &mut TscAdded,
) -> Result<(), Refusal>
    ensures answers { ByKind (AnswersTriedAdd (asked_add args.now) place.new (added_of out.new))
        (AnswersStripedTriedAdd (asked_add args.now) place.new (added_of out.new)) seat.old.seat
        seat.new.seat result }
    ensures same { seat.new.returns ≡ seat.old.returns }
    ensures kept { OnErr result ((place.new ≡ place.old) × (out.new ≡ out.old)) }
{
    let value = value(args.value)?;
    let moment = time(args.moment)?;
    if !seat.config().fits_ref(&added_span(&args.span)?) {
        return Err(Refusal::TooLarge);
    }
    let Ok(span) = copied_span(alloc, &args.span) else {
        return Err(seat.without_memory());
    };
    let placed = seat.try_add(&span, value, moment, tries)?;
    *place = placed.place;
    *out = words_of_added(placed.added);
    Ok(())
}

/// Adds several marks at a seat, all of them or none, and writes the place of that among all Adds,
/// and what it did.
pub fn add_all_at(
    alloc: Global,
    held: &mut CountedSeat,
    args: &BatchArgs<'_>,
    tries: u32,
    place: &mut u64,
    out: &mut TscAdded,
) -> Result<(), Refusal>
    ensures answers { CountsSeatAdd
        (ByKind (AnswersSeatAddAll (asked_batch args.now) tries place.new (added_of out.new))
        (AnswersStripedAddAll (asked_batch args.now) tries place.new (added_of out.new)))
        out.new.evicted held.old held.new result }
    ensures kept { OnErr result ((place.new ≡ place.old) × (out.new ≡ out.old)) }
{
    let did = add_all_to_seat(alloc, &mut held.seat, args, tries, place, out);
    count(&mut held.counts, &did, out);
    did
}

/// Adds several marks at a seat, uncounted.
fn add_all_to_seat(
    alloc: Global,
    seat: &mut SeatHandle,
    args: &BatchArgs<'_>,
    tries: u32,
    place: &mut u64,
    out: &mut TscAdded,
) -> Result<(), Refusal>
    ensures answers { ByKind
        (AnswersSeatAddAll (asked_batch args.now) tries place.new (added_of out.new))
        (AnswersStripedAddAll (asked_batch args.now) tries place.new (added_of out.new))
        seat.old.seat seat.new.seat result }
    ensures same { seat.new.returns ≡ seat.old.returns }
    ensures kept { OnErr result ((place.new ≡ place.old) × (out.new ≡ out.old)) }
{
    if tries == 0 {
        return Err(Refusal::Tries);
    }
    try_add_all_to_seat(alloc, seat, args, tries, place, out)
}

/// Adds several marks at a seat within so many tries, uncounted.
fn try_add_all_to_seat(
    alloc: Global,
    seat: &mut SeatHandle,
    args: &BatchArgs<'_>,
    tries: u32,
    place: &mut u64,
    out: &mut TscAdded,
) -> Result<(), Refusal>
    ensures answers { ByKind
        (AnswersTriedAddAll (asked_batch args.now) place.new (added_of out.new))
        (AnswersStripedTriedAll (asked_batch args.now) place.new (added_of out.new)) seat.old.seat
        seat.new.seat result }
    ensures same { seat.new.returns ≡ seat.old.returns }
    ensures kept { OnErr result ((place.new ≡ place.old) × (out.new ≡ out.old)) }
{
    let moment = time(args.moment)?;
    check_marks(&seat.config(), args.keys, args.marks)?;
    let Ok(marks) = marks(alloc, args.keys, args.marks) else {
        return Err(seat.without_memory());
    };
    let placed = seat.try_add_all(&marks, moment, tries)?;
    *place = placed.place;
    *out = words_of_added(placed.added);
    Ok(())
}
