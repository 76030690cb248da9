//! Where the words are.
ghost use Rattle.std.specs.Prelude.{◌≡◌, ℕ, ◌+◌, ◌<◌, ◌≤◌};
ghost use Rattle.tsc_stripe_table.specs.Rule.{lock_word, word_count};

/// The lock of a stripe. It lies sixteen words of eight bytes above each lock before, and above
/// word 0. So no two of these share a line of 128 bytes.
#[inline]
pub(crate) fn lock_word(stripe: u32) -> usize
    ensures value { result ≡ lock_word stripe }
    ensures apart { (before : ℕ) → before < stripe → lock_word before + 16 ≤ result }
    ensures unused { 16 ≤ result }
{
    16 * stripe as usize + 16
}

/// How many words a table of `stripes` stripes has: fifteen stand behind the last lock.
pub(crate) fn word_count(stripes: u32) -> usize
    ensures value { result ≡ word_count stripes }
    ensures room { (stripe : ℕ) → stripe < stripes → lock_word stripe + 16 ≤ result }
{
    16 * stripes as usize + 16
}
