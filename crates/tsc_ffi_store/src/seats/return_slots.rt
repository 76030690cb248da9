//! The slots in which the seats of a cache are returned.
//!
//! The slots are in a table with a word and a slot for each seat of the cache. Each seat has a
//! *slot token*, which alone may take the slot of that number. A return has three steps: the token
//! takes the slot, lays the seat there, and gives the slot back as the word becomes 1. The keeper
//! reads the words one after another, and counts the seats that are returned. It notes each slot
//! whose word is still 0. Once all are returned, it collects them: it takes each slot as the word
//! becomes 2.
//!
//! A token has no bytes. That of a returned seat knows what lies in the slot, and the keeper learns
//! it where it gets the token.
ghost use Rattle.std.specs.Prelude.{◌≡◌, [], ◌<◌, ◌+◌, length, All, IfOk, Some, slice_get, true, false};
ghost use Rattle.std.specs.Vec.{vec_capacity};
ghost use Rattle.tsc_ffi_store.specs.Kinds.{cache_of, number_of, seats_of};
ghost use Rattle.tsc_ffi_store.specs.ReturnSlots.{IsKept, first_known, dealing, token, spare, came, also_back};
ghost use Rattle.tsc_ffi_store.specs.ReturnSteps.{others, first, takes_slot, returns_seat, sees_returned, collects, LearnsBy};
ghost use Rattle.tsc_ffi_store.specs.Seating.{IsSized, DealsOn, KnowsReturned, MissesOne, IsRoomFor};

use crate::seats::kinds::{AnyCache, AnySeat};
use crate::seats::same_table::swap_if_same;
use atomic_table::{Join, Play, Seat as TableSeat, Shared, Split, Table, TableRule};
use std::alloc::Global;
use std::collections::LinkedList;
use tsc_time::NoMemory;

/// What a token knows: which slots it alone may take, and which seats it alone may collect,
/// whether it has taken them, how many seats from 0 on are returned, some of these as they were
/// returned, and of each look that found no seat in which slot that was. The keeper's knows the
/// cache, too. No value of it is made.
pub struct Known {
    pub cache: Option<AnyCache>,
    pub from: u32,
    pub to: u32,
    pub taken: bool,
    pub returned: u32,
    pub back: LinkedList<AnySeat>,
    pub missed: LinkedList<u32>,
}

/// The slot of each word that is 1 has a seat. A word is 0 until its seat is returned, and no token
/// knows of that seat then. No two tokens may take one slot, or collect one seat.
pub struct ReturnRule;

impl TableRule<Option<AnySeat>, Known, AnyCache> for ReturnRule {
    ghost holds = { IsKept };

    ghost first = { first_known };
}

/// The slots for the seats of one cache.
pub type ReturnSlots = Table<Option<AnySeat>, Known, AnyCache, ReturnRule, Global>;

/// The slots as threads share them.
pub type SharedSlots = Shared<Option<AnySeat>, Known, AnyCache, ReturnRule>;

/// What the holder of a token knows of the slots, and may take of them.
pub type SlotToken = TableSeat<Option<AnySeat>, Known>;

/// The first of the slots gets a token of its own.
struct DealToken;

impl Split<Known> for DealToken {
    ghost left = { others };

    ghost right = { first };
}

/// A token takes its slot.
struct TakeSlot;

impl Play<Option<AnySeat>, Known> for TakeSlot {
    ghost then = { takes_slot };
}

/// A seat is returned.
struct ReturnSeat;

impl Play<Option<AnySeat>, Known> for ReturnSeat {
    ghost then = { returns_seat };
}

/// A token that knows nothing is made beside another.
struct MakeSpare;

impl Split<Known> for MakeSpare {
    ghost left = { λ v. v };

    ghost right = { λ v. spare };
}

/// A token learns which seats another knows to be returned.
struct LearnBack;

impl Join<Known> for LearnBack {
    ghost both = { also_back };

    ghost spent = { spare };
}

/// The keeper sees whether the next seat is returned. No other step notes a slot as missed.
struct SeeReturned;

impl Play<Option<AnySeat>, Known> for SeeReturned {
    ghost then = { sees_returned };
}

/// The keeper collects the next seat.
struct Collect;

impl Play<Option<AnySeat>, Known> for Collect {
    ghost then = { collects };
}

/// Slots for the seats of a cache, none of which is returned, and the token from which all others
/// are dealt.
pub(crate) fn new_return_slots(
    alloc: Global,
    cache: &AnyCache,
    seats: u32,
) -> Result<(ReturnSlots, SlotToken), NoMemory>
    requires seats { seats ≡ seats_of cache.now }
    ensures slots { IfOk result (λ made. IsSized made.0.shared.table_id seats ×
        (made.0.shared.key ≡ cache.now)) }
    ensures dealer { IfOk result (λ made. (made.1.table_id ≡ made.0.shared.table_id) ×
        (made.1.me ≡ (dealing (Some cache.now) 0 (seats + seats) 0, []))) }
{
    let words = vec![in alloc; 0; seats as usize]?;
    Ok(Table::vacant(alloc, words.as_slice(), seats as usize, cache)?)
}

/// The next token.
pub(crate) fn next_token(slots: &SharedSlots, dealer: &mut SlotToken) -> SlotToken
    requires dealer { DealsOn slots.now.table_id dealer.old.table_id dealer.old.me }
    ensures table { dealer.new.table_id ≡ dealer.old.table_id }
    ensures others { dealer.new.me ≡ (
      dealing dealer.old.me.0.cache (dealer.old.me.0.from + 1)
          dealer.old.me.0.to 0,
      [],
    ) }
    ensures its_table { result.table_id ≡ dealer.old.table_id }
    ensures token { result.me ≡ (token dealer.old.me.0.from, []) }
{
    slots.split_seat::<DealToken>(dealer)
}

/// Returns a seat, by its token, which knows of it from then on.
pub(crate) fn return_seat(slots: &SharedSlots, mut at: SlotToken, seat: AnySeat) -> SlotToken
    requires token { (at.table_id ≡ slots.now.table_id) × (at.me ≡ (token (number_of seat), [])) }
    requires cache { cache_of seat ≡ slots.now.key }
    requires sized { IsSized slots.now.table_id (seats_of slots.now.key) }
    requires low { number_of seat < seats_of slots.now.key }
    ensures table { result.table_id ≡ slots.now.table_id }
    ensures came { result.me ≡ (came seat, []) }
{
    let number = seat.number() as usize;
    slots.load::<TakeSlot>(&mut at, number);
    slots.exchange(&mut at, number, Some(seat));
    slots.store::<ReturnSeat>(&mut at, number, 1);
    at
}

/// The keeper learns what a token knows, if that is of the same table.
pub(crate) fn learn_back(slots: &SharedSlots, keeper: &mut SlotToken, mut token: SlotToken)
    requires keeper { keeper.old.table_id ≡ slots.now.table_id }
    requires words { 0 < slots.now.table_id.words }
    requires free { token.me.1 ≡ [] }
    ensures table { keeper.new.table_id ≡ keeper.old.table_id }
    ensures learned { LearnsBy slots.now.table_id token.table_id token.me.0 keeper.old.me
        keeper.new.me }
{
    let mut other = slots.split_seat::<MakeSpare>(keeper);
    swap_if_same(&mut token, &mut other);
    slots.join_seat::<LearnBack>(keeper, other);
}

/// Whether all seats are returned. It counts on from those that were known to be, up to the first
/// that it finds missing.
pub(crate) fn are_all_returned(
    slots: &SharedSlots,
    keeper: &mut SlotToken,
    seats: u32,
    returned: &mut u32,
) -> bool
    requires known { KnowsReturned slots.now.key slots.now.table_id keeper.old.table_id
        keeper.old.me seats returned.old keeper.old.me.0.back }
    ensures known { KnowsReturned slots.now.key slots.now.table_id keeper.new.table_id
        keeper.new.me seats returned.new keeper.old.me.0.back }
    ensures all { result ≡ true → returned.new ≡ seats }
    ensures missed { result ≡ false → MissesOne seats keeper.old.me.0 keeper.new.me.0 }
{
    while *returned < seats {
        if slots.load::<SeeReturned>(keeper, *returned as usize) == 0 {
            return false;
        }
        *returned += 1;
    }
    true
}

/// The seats, all of which are returned, in the order of their slots, in a list that has room for
/// them.
pub(crate) fn collect_seats(
    slots: &SharedSlots,
    mut keeper: SlotToken,
    seats: u32,
    mut room: Vec<AnySeat>,
) -> Vec<AnySeat>
    requires seats { (seats ≡ seats_of slots.now.key) × (0 < seats) }
    requires known { KnowsReturned slots.now.key slots.now.table_id keeper.table_id keeper.me seats
        seats keeper.me.0.back }
    requires room { IsRoomFor room.items (vec_capacity room) seats }
    ensures cache { All (λ seat. cache_of seat ≡ slots.now.key) result.items }
    ensures all { length result.items ≡ seats }
    ensures back { All (λ seat. slice_get result.items (number_of seat) ≡ Some seat)
        keeper.me.0.back }
{
    for slot in 0..seats as usize {
        slots.store::<Collect>(&mut keeper, slot, 2);
        let Some(seat) = slots.exchange(&mut keeper, slot, None) else {
            unreachable!()
        };
        let Ok(()) = room.push(seat) else {
            unreachable!()
        };
    }
    room
}
