//! The calls for caches that threads share, and for their seats.

ghost use Rattle.std.specs.Prelude.{◌≡◌, OnErr};
ghost use Rattle.tsc_ffi_store.specs.Codes.{Reports};
ghost use Rattle.tsc_ffi_store.specs.Counts.{CountsSeatLookup, CountsSeatAdd, CountsNothing};
ghost use Rattle.tsc_ffi_store.specs.Decode.{time_of, value_of, added_of, span_asked, add_asked, batch_asked, config_asked, asked_config};
ghost use Rattle.tsc_ffi_store.specs.SeatCalls.{AnswersOpenShared, AnswersSeatLookup, AnswersSeatLowWater, AnswersSeatAdd, AnswersSeatAddAll, AnswersMove, AnswersCloseSeat, AnswersCloseShared};
ghost use Rattle.tsc_ffi_store.specs.Kinds.{ByKind};
ghost use Rattle.tsc_ffi_store.specs.StripedCalls.{AnswersOpenStriped, AnswersStripedLookup, AnswersStripedLowWater, AnswersStripedAdd, AnswersStripedAddAll, AnswersFigures};
ghost use Rattle.tsc_ffi_store.specs.Store.{slots_of, DoesToSeat};

use crate::store_ptr::{StorePtr, store_in};
use std::alloc::Global;
use tsc_ffi_store::{
    AddArgs, BatchArgs, BoundsArgs, ConfigArgs, Refusal, SpanArgs, Store, TscAdded, TscFigures,
    TscMark, TscTime, TscValue, add_all_at, add_at, check_bounds, code, config, figures_at,
    floor_at, look_at, may_seat,
};

/// Opens a cache that threads share, and writes its handle. Its seats have the handles behind that,
/// in their order.
#[unsafe(no_mangle)]
pub extern "C" fn tsc_open_shared(
    alloc: Global,
    store: &mut StorePtr,
    page_first: u32,
    page_max: u32,
    min_pages: u32,
    retention: u64,
    low_water: &TscTime,
    seats: u32,
    limit: u64,
    handle: &mut u64,
) -> u32
    ensures answers { Reports
        (AnswersOpenShared (config_asked page_first page_max min_pages retention low_water.now)
        seats limit handle.new (slots_of store.old.owned) (slots_of store.new.owned))
        (handle.new ≡ handle.old) result }
{
    let args = ConfigArgs {
        page_first,
        page_max,
        min_pages,
        retention,
        low_water,
    };
    code(open_shared(alloc, store, &args, seats, limit, handle))
}

/// Opens a shared cache in the store that is owned, or in a new one.
fn open_shared(
    alloc: Global,
    store: &mut StorePtr,
    args: &ConfigArgs<'_>,
    seats: u32,
    limit: u64,
    handle: &mut u64,
) -> Result<(), Refusal>
    ensures answers { AnswersOpenShared (asked_config args.now) seats limit handle.new
        (slots_of store.old.owned) (slots_of store.new.owned) result }
    ensures kept { OnErr result (handle.new ≡ handle.old) }
{
    let config = config(args)?;
    if !may_seat(seats) {
        return Err(Refusal::Seats);
    }
    let mut held = store_in(alloc, store)?;
    let opened = held.open_shared(alloc, config, seats, limit);
    store.put_back(held);
    *handle = opened?;
    Ok(())
}

/// Opens a cache in stripes, and writes its handle. Its seats have the handles behind that, in
/// their order. The bounds of the stripes are so many bytes of `keys` each, one behind another.
#[unsafe(no_mangle)]
pub extern "C" fn tsc_open_striped(
    alloc: Global,
    store: &mut StorePtr,
    page_first: u32,
    page_max: u32,
    min_pages: u32,
    retention: u64,
    low_water: &TscTime,
    keys: &[u8],
    lens: &[usize],
    seats: u32,
    handle: &mut u64,
) -> u32
    ensures answers { Reports
        (AnswersOpenStriped (config_asked page_first page_max min_pages retention low_water.now)
        seats keys.now lens.now handle.new (slots_of store.old.owned) (slots_of store.new.owned))
        (handle.new ≡ handle.old) result }
{
    let args = ConfigArgs {
        page_first,
        page_max,
        min_pages,
        retention,
        low_water,
    };
    let bounds = BoundsArgs { keys, lens };
    code(open_striped(alloc, store, &args, &bounds, seats, handle))
}

/// Opens a cache in stripes in the store that is owned, or in a new one.
fn open_striped(
    alloc: Global,
    store: &mut StorePtr,
    args: &ConfigArgs<'_>,
    bounds: &BoundsArgs<'_>,
    seats: u32,
    handle: &mut u64,
) -> Result<(), Refusal>
    ensures answers { AnswersOpenStriped (asked_config args.now) seats bounds.now.keys.now
        bounds.now.lens.now handle.new (slots_of store.old.owned) (slots_of store.new.owned)
        result }
    ensures kept { OnErr result (handle.new ≡ handle.old) }
{
    let asked = config(args)?;
    check_bounds(bounds, seats)?;
    let mut taken = store_in(alloc, store)?;
    let opened = taken.open_striped(alloc, asked, bounds, seats);
    store.put_back(taken);
    *handle = opened?;
    Ok(())
}

/// Adds a span with its value, at a moment, at a seat. The call waits for nobody: it tries `tries`
/// times to come to its turn.
#[unsafe(no_mangle)]
pub extern "C" fn tsc_seat_add(
    store: &mut StorePtr,
    handle: u64,
    from: &[u8],
    to: &[u8],
    ends: u32,
    value: &TscValue,
    moment: &TscTime,
    tries: u32,
    place: &mut u64,
    out: &mut TscAdded,
) -> u32
    ensures answers { Reports
        (DoesToSeat
        (CountsSeatAdd (ByKind
        (AnswersSeatAdd (add_asked (span_asked from.now to.now ends) value.now moment.now) tries
        place.new (added_of out.new))
        (AnswersStripedAdd (add_asked (span_asked from.now to.now ends) value.now moment.now) tries
        place.new (added_of out.new))) out.new.evicted) (slots_of store.old.owned)
        (slots_of store.new.owned) handle)
        ((place.new ≡ place.old) × (out.new ≡ out.old)) result }
{
    let span = SpanArgs { from, to, ends };
    let args = AddArgs {
        span,
        value,
        moment,
    };
    match store.store_mut() {
        Some(held) => {
            let alloc = held.alloc();
            match held.seat_mut(handle) {
                Some(seat) => code(add_at(alloc, seat, &args, tries, place, out)),
                None => Refusal::Closed.code(),
            }
        }
        None => Refusal::Closed.code(),
    }
}

/// Adds several marks at a moment, as one Add, at a seat. It waits for nobody.
#[unsafe(no_mangle)]
pub extern "C" fn tsc_seat_add_all(
    store: &mut StorePtr,
    handle: u64,
    keys: &[u8],
    marks: &[TscMark],
    moment: &TscTime,
    tries: u32,
    place: &mut u64,
    out: &mut TscAdded,
) -> u32
    ensures answers { Reports
        (DoesToSeat
        (CountsSeatAdd (ByKind (AnswersSeatAddAll (batch_asked keys.now marks.now moment.now) tries
        place.new (added_of out.new))
        (AnswersStripedAddAll (batch_asked keys.now marks.now moment.now) tries place.new
        (added_of out.new))) out.new.evicted) (slots_of store.old.owned)
        (slots_of store.new.owned) handle)
        ((place.new ≡ place.old) × (out.new ≡ out.old)) result }
{
    let args = BatchArgs {
        keys,
        marks,
        moment,
    };
    match store.store_mut() {
        Some(held) => {
            let alloc = held.alloc();
            match held.seat_mut(handle) {
                Some(seat) => code(add_all_at(alloc, seat, &args, tries, place, out)),
                None => Refusal::Closed.code(),
            }
        }
        None => Refusal::Closed.code(),
    }
}

/// The latest time on a span, at a seat, and how many Adds the seat has seen then.
#[unsafe(no_mangle)]
pub extern "C" fn tsc_seat_get_max(
    store: &mut StorePtr,
    handle: u64,
    from: &[u8],
    to: &[u8],
    ends: u32,
    seen: &mut u64,
    out: &mut TscValue,
) -> u32
    ensures answers { Reports
        (DoesToSeat
        (CountsSeatLookup (ByKind
        (AnswersSeatLookup (span_asked from.now to.now ends) seen.new (value_of out.new))
        (AnswersStripedLookup (span_asked from.now to.now ends) seen.new (value_of out.new))))
        (slots_of store.old.owned) (slots_of store.new.owned) handle)
        ((seen.new ≡ seen.old) × (out.new ≡ out.old)) result }
{
    let span = SpanArgs { from, to, ends };
    match store.store_mut() {
        Some(held) => match held.seat_mut(handle) {
            Some(seat) => code(look_at(seat, &span, seen, out)),
            None => Refusal::Closed.code(),
        },
        None => Refusal::Closed.code(),
    }
}

/// Where the floor of the cache of a seat stands, and how many Adds the seat has seen then.
#[unsafe(no_mangle)]
pub extern "C" fn tsc_seat_low_water(
    store: &mut StorePtr,
    handle: u64,
    seen: &mut u64,
    out: &mut TscTime,
) -> u32
    ensures answers { Reports
        (DoesToSeat (CountsNothing (ByKind (AnswersSeatLowWater seen.new (time_of out.new))
        (AnswersStripedLowWater seen.new (time_of out.new))))
        (slots_of store.old.owned) (slots_of store.new.owned) handle)
        ((seen.new ≡ seen.old) × (out.new ≡ out.old)) result }
{
    match store.store_mut() {
        Some(held) => match held.seat_mut(handle) {
            Some(seat) => code(floor_at(seat, seen, out)),
            None => Refusal::Closed.code(),
        },
        None => Refusal::Closed.code(),
    }
}

/// What can be counted of the cache of a seat, and how many Adds the seat has seen then.
#[unsafe(no_mangle)]
pub extern "C" fn tsc_seat_figures_of(
    store: &mut StorePtr,
    handle: u64,
    seen: &mut u64,
    out: &mut TscFigures,
) -> u32
    ensures answers { Reports
        (DoesToSeat (AnswersFigures seen.new out.new) (slots_of store.old.owned)
        (slots_of store.new.owned) handle) ((seen.new ≡ seen.old) × (out.new ≡ out.old)) result }
{
    match store.store_mut() {
        Some(held) => {
            let alloc = held.alloc();
            match held.seat_mut(handle) {
                Some(seat) => code(figures_at(alloc, seat, seen, out)),
                None => Refusal::Closed.code(),
            }
        }
        None => Refusal::Closed.code(),
    }
}

/// Hands in the seat of a handle, which then names none for good. Its cache's handle, in the store
/// where both were opened, knows of it.
#[unsafe(no_mangle)]
pub extern "C" fn tsc_seat_close(store: &mut StorePtr, handle: u64) -> u32
    ensures answers { Reports
        (AnswersCloseSeat handle (slots_of store.old.owned) (slots_of store.new.owned))
        (slots_of store.new.owned ≡ slots_of store.old.owned) result }
{
    match store.store_mut() {
        Some(held) => code(held.close_seat(handle)),
        None => Refusal::Closed.code(),
    }
}

/// Closes the shared cache of a handle if all its seats were handed in, and writes how many Adds
/// its history has. It is refused only where it looked for a seat, and saw that it was not handed
/// in.
#[unsafe(no_mangle)]
pub extern "C" fn tsc_close_shared(store: &mut StorePtr, handle: u64, length: &mut u64) -> u32
    ensures answers { Reports
        (AnswersCloseShared length.new handle (slots_of store.old.owned)
        (slots_of store.new.owned)) (length.new ≡ length.old) result }
{
    match store.store_mut() {
        Some(held) => code(held.close_shared(handle, length)),
        None => Refusal::Closed.code(),
    }
}

/// What a handle names goes to another store, where it gets the next handle, which is written.
#[unsafe(no_mangle)]
pub extern "C" fn tsc_move(
    alloc: Global,
    store: &mut StorePtr,
    handle: u64,
    other: &mut StorePtr,
    other_handle: &mut u64,
) -> u32
    ensures answers { Reports
        (AnswersMove handle other_handle.new (slots_of store.old.owned) (slots_of other.old.owned)
        (slots_of store.new.owned) (slots_of other.new.owned))
        ((slots_of store.new.owned ≡ slots_of store.old.owned) ×
        (slots_of other.new.owned ≡ slots_of other.old.owned) ×
        (other_handle.new ≡ other_handle.old)) result }
{
    match store.store_mut() {
        Some(held) => code(move_from(alloc, held, handle, other, other_handle)),
        None => Refusal::Closed.code(),
    }
}

/// What a handle names in a store goes to another one.
fn move_from(
    alloc: Global,
    held: &mut Store,
    handle: u64,
    other: &mut StorePtr,
    other_handle: &mut u64,
) -> Result<(), Refusal>
    ensures answers { AnswersMove handle other_handle.new held.old
        (slots_of other.old.owned) held.new (slots_of other.new.owned) result }
    ensures kept { OnErr result ((held.new ≡ held.old) ×
        (slots_of other.new.owned ≡ slots_of other.old.owned) ×
        (other_handle.new ≡ other_handle.old)) }
{
    if !held.names(handle) {
        return Err(Refusal::Closed);
    }
    let mut to = store_in(alloc, other)?;
    let did = held.move_to(handle, &mut to, other_handle);
    other.put_back(to);
    did
}
