//! Where handles stand among those that are open, in their order, and how the next one is given.

ghost use Rattle.std.specs.Prelude.{◌≡◌, ◌++◌, ◌∷◌, [], ◌<◌, ◌-◌, ◌+◌, ◌^◌};
ghost use Rattle.std.specs.Vec.{vec_len, vec_capacity};
ghost use Rattle.tsc_ffi_store.specs.OpenHandles.{Rises, IsPlaceOf, IsRoomLess, PushesSlot};

use crate::store::Slot;

/// The place of a handle among those that are open, in their order, or how many there are.
pub(crate) fn place_of(handles: &[u64], handle: u64) -> usize
    requires rises { Rises handles.now }
    ensures { IsPlaceOf handles.now handle result }
{
    match handles.get(handle as usize) {
        Some(at_its_number) if *at_its_number == handle => handle as usize,
        _ => place_among(handles, handle),
    }
}

/// The place of a handle as [`place_of`] tells it, where some below it were closed.
fn place_among(handles: &[u64], handle: u64) -> usize
    requires rises { Rises handles.now }
    ensures { IsPlaceOf handles.now handle result }
{
    match handles.binary_search(&handle) {
        Ok(place) => place,
        Err(_) => handles.len(),
    }
}

/// Gives the next handle, for which there is room.
fn give_next(handles: &mut Vec<u64>, next: &mut u64) -> u64
    requires room { vec_len handles.old < vec_capacity handles.old }
    requires left { next.old < 2 ^ 64 - 1 }
    ensures given { result ≡ next.old }
    ensures pushed { handles.new.items ≡ handles.old.items ++ next.old ∷ [] }
    ensures next { next.new ≡ next.old + 1 }
    ensures room { IsRoomLess (vec_len handles.old) (vec_capacity handles.old)
        (vec_len handles.new) (vec_capacity handles.new) }
{
    let handle = *next;
    let Ok(()) = handles.push(handle) else {
        unreachable!()
    };
    *next += 1;
    handle
}

/// Lays what the next handle names behind what there is, for which there is room.
pub(crate) fn push_slot(handles: &mut Vec<u64>, slots: &mut Vec<Slot>, next: &mut u64, slot: Slot)
    requires room { vec_len handles.old < vec_capacity handles.old }
    requires slots { vec_len slots.old < vec_capacity slots.old }
    requires left { next.old < 2 ^ 64 - 1 }
    ensures pushed { PushesSlot slot handles.old.items slots.old.items next.old handles.new.items
        slots.new.items next.new }
    ensures room { IsRoomLess (vec_len handles.old) (vec_capacity handles.old)
        (vec_len handles.new) (vec_capacity handles.new) }
    ensures slots { IsRoomLess (vec_len slots.old) (vec_capacity slots.old) (vec_len slots.new)
        (vec_capacity slots.new) }
{
    let Ok(()) = slots.push(slot) else {
        unreachable!()
    };
    give_next(handles, next);
}
