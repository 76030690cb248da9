//! Where the words and the slots are.
ghost use Rattle.std.specs.Prelude.{◌≡◌, ℕ, ◌+◌, ◌<◌, ◌≤◌, Some};
ghost use Rattle.tsc_left_right.specs.declared.places.TheConstants.{HEAD};
ghost use Rattle.tsc_left_right.specs.Rule.{epoch_word, side_slot, word_count, slot_count};
ghost use Rattle.tsc_left_right.specs.Steps.{has_left};

/// The word with the seat that goes first, beside the writer lock: who looks at one looks at both.
pub(crate) const FIRST: usize = 1;

/// The word with the side of the active copy.
pub(crate) const HEAD: usize = 16;

/// The word with the epoch of a seat. It lies sixteen words of eight bytes above each epoch before,
/// and above HEAD. So no two of these share a line of 128 bytes.
pub(crate) fn epoch_word(seat: u32) -> usize
    ensures value { result ≡ epoch_word seat }
    ensures apart { (before : ℕ) → before < seat → epoch_word before + 16 ≤ result }
    ensures head { (16 ≤ HEAD) × (HEAD + 16 ≤ result) }
{
    16 * seat as usize + 32
}

/// How many words a table of `seats` seats has: fifteen stand behind the last epoch.
pub(crate) fn word_count(seats: u32) -> usize
    ensures value { result ≡ word_count seats }
    ensures room { (seat : ℕ) → seat < seats → epoch_word seat + 16 ≤ result }
{
    16 * seats as usize + 32
}

/// The slot of a seat on a side. It lies eight slots of sixteen bytes or more above each of a seat
/// before, above that of the seat itself on the side before, and above the writer's, which is slot
/// 0. So no two of these share a line of 128 bytes.
pub(crate) fn side_slot(seat: u32, side: u64) -> usize
    requires { side < 2 }
    ensures value { result ≡ side_slot seat side }
    ensures apart { (before other : ℕ) → before < seat → other < 2
        → side_slot before other + 8 ≤ result }
    ensures sides { (other : ℕ) → other < side → side_slot seat other + 8 ≤ result }
    ensures writer { 8 ≤ result }
{
    16 * seat as usize + 8 * side as usize + 8
}

/// How many slots a table of `seats` seats has.
pub(crate) fn slot_count(seats: u32) -> usize
    ensures value { result ≡ slot_count seats }
{
    16 * seats as usize + 8
}

/// Whether a seat whose epoch is this, and was that when it was noted, has left the standby side.
pub(crate) fn has_left(noted: u64, epoch: u64) -> bool
    ensures { result ≡ has_left (Some noted) epoch }
{
    epoch % 2 == 0 || noted != epoch
}
