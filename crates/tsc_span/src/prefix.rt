//! Prefixes of keys. Most comparisons end at the prefix and read no byte of a key.
ghost use Rattle.std.specs.Prelude.{◌≡◌, ◌≤◌, ◌+◌, ◌-◌, ◌^◌, length, drop};
ghost use Rattle.std.specs.Ordering.{nat_cmp};
ghost use Rattle.tsc_span.specs.Span.{key_cmp};
ghost use Rattle.tsc_span.specs.Prefixes.{spelled, IsPrefixOf, AreTied};

use std::cmp::Ordering;
use std::marker::Model;

/// How many bytes of a key make its prefix.
const PREFIX_BYTES: usize = 24;

/// How many bytes make a word of a prefix.
pub(crate) const WORD_BYTES: usize = 8;

/// The prefix of a key: its first twenty-four bytes, as three words, of which the first
/// weighs most.
#[derive(Clone, Copy, Debug)]
pub struct KeyPrefix {
    pub(crate) first: u64,
    pub(crate) second: u64,
    pub(crate) third: u64,
}

impl Model for KeyPrefix {
    ghost use Rattle.std.specs.Prelude.{ℕ, ◌<◌, ◌+◌, ◌*◌, ◌/◌, ◌%◌, ◌^◌};
    ghost use Rattle.tsc_span.specs.PrefixWords.{first_word, second_word, third_word};

    ghost Value = { ℕ };

    ghost view = { λ n. (n.first * 2 ^ 64 + n.second) * 2 ^ 64 + n.third };

    ghost invariant = { λ n. (n.second < 2 ^ 64) × (n.third < 2 ^ 64) };

    ghost inverse = { λ n. record {
      first = n / 2 ^ 64 / 2 ^ 64;
      second = n / 2 ^ 64 % 2 ^ 64;
      third = n % 2 ^ 64;
    } };

    ghost inverse_ok = { λ n fits i. record {
      first = first_word n.first n.second n.third fits.0 fits.1 i;
      second = second_word n.first n.second n.third fits.0 fits.1 i;
      third = third_word n.first n.second n.third fits.1 i;
    } };
}

impl KeyPrefix {
    /// The greatest prefix, which stands for the last cut.
    #[inline]
    pub fn greatest() -> KeyPrefix
        ensures { result ≡ 2 ^ 192 - 1 }
    {
        KeyPrefix {
            first: u64::MAX,
            second: u64::MAX,
            third: u64::MAX,
        }
    }

    /// How a prefix stands to another one.
    #[inline]
    pub fn compare(&self, other: &KeyPrefix) -> Ordering
        ensures { result ≡ nat_cmp self.now other.now }
    {
        if self.first != other.first {
            self.first.cmp(&other.first)
        } else if self.second != other.second {
            self.second.cmp(&other.second)
        } else {
            self.third.cmp(&other.third)
        }
    }
}

/// The prefix of a key. Zeros stand for bytes that it doesn't have.
#[inline]
pub(crate) fn prefix_of(key: &[u8]) -> KeyPrefix
    ensures { IsPrefixOf result key.now }
{
    let len = key.len();
    if len < PREFIX_BYTES {
        let mut filled = [0; PREFIX_BYTES];
        filled[..len].copy_from_slice(key);
        first_prefix(&filled)
    } else {
        first_prefix(key)
    }
}

/// The prefix that the first bytes make.
#[inline]
fn first_prefix(bytes: &[u8]) -> KeyPrefix
    requires { 24 ≤ length bytes.now }
    ensures { result ≡ spelled 24 0 bytes.now }
{
    KeyPrefix {
        first: word_at(bytes, 0),
        second: word_at(bytes, WORD_BYTES),
        third: word_at(bytes, 2 * WORD_BYTES),
    }
}

/// The word that the bytes from a place on make.
#[inline]
pub(crate) fn word_at(bytes: &[u8], index: usize) -> u64
    requires { index + 8 ≤ length bytes.now }
    ensures { result ≡ spelled 8 0 (drop index bytes.now) }
{
    let mut word = [0; WORD_BYTES];
    word.copy_from_slice(&bytes[index..index + WORD_BYTES]);
    u64::from_be_bytes(word)
}

/// How two keys with one prefix stand to one another. Where one of them has fewer bytes than a
/// prefix it is a beginning of the other, and their lengths tell; else what comes behind the bytes
/// of the prefix does.
#[inline]
pub(crate) fn compare_tied(key: &[u8], other: &[u8]) -> Ordering
    requires { AreTied key.now other.now }
    ensures { result ≡ key_cmp key.now other.now }
{
    let short = key.len().min(other.len());
    if short < PREFIX_BYTES {
        return key.len().cmp(&other.len());
    }
    key[PREFIX_BYTES..].cmp(&other[PREFIX_BYTES..])
}
