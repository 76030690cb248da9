//! Keys that own their bytes, and their order.
ghost use Rattle.std.specs.Prelude.{◌≡◌, ◌<◌, ◌≤◌, ◌↔◌, ◌⊎◌, [], length, IfOk, IfErr, IsErrOf, Some, refl, true};
ghost use Rattle.std.specs.List.{All};
ghost use Rattle.std.specs.Str.{bytes_eq};
ghost use Rattle.std.specs.Cmp.{partial_equiv_from_equiv};
ghost use Rattle.std.specs.Cmp.Lexicographic.{nat_list_eq_equiv, nat_list_cmp_total, texts_ties, texts_po};
ghost use Rattle.tsc_span.specs.Limits.{longest_key};
ghost use Rattle.tsc_span.specs.Span.{key_cmp, key_cost, fits_key};
ghost use Rattle.tsc_span.specs.MadeKey.{made_key};

use crate::SpanFault;
use crate::prefix::{WORD_BYTES, word_at};
use std::alloc::Global;
use std::cmp::Ordering;
use std::marker::Model;
use tsc_time::NoMemory;

/// How many bytes a key has at the most.
pub const LONGEST_KEY: usize = 4096;

/// What a node of a page costs beside the bytes of its key.
pub(crate) const NODE_COST: u32 = 32;

/// A key: a text of bytes, 4096 of them at the most. The empty key comes first.
///
/// Keys are ordered byte by byte, and a key comes after each shorter beginning. A comparison costs
/// as much as the bytes that two keys share at their beginning.
#[derive(Debug, Drop)]
pub struct Key {
    bytes: Vec<u8>,
}

impl Model for Key {
    ghost use Rattle.std.specs.Prelude.{◌≡◌, true};
    ghost use Rattle.tsc_span.specs.Span.{KeyBytes, fits_key};

    ghost Value = { KeyBytes };

    ghost view = { λ k. k.bytes.items };

    ghost invariant = { λ k. fits_key k.bytes.items ≡ true };
}

impl Key {
    /// A copy of `bytes` as a key; more than 4096 bytes are [`SpanFault::KeyTooLong`]. The copy
    /// takes as much memory as the key has bytes. For too many bytes no memory is asked for.
    pub fn new(alloc: Global, bytes: &[u8]) -> Result<Key, SpanFault>
        ensures value { IfOk result (λ key. key ≡ bytes.now) }
        ensures refused { IsErrOf result SpanFault.KeyTooLong ↔ (longest_key < length bytes.now) }
        ensures memory { IfErr result
            (λ fault. (fault ≡ SpanFault.KeyTooLong) ⊎ (fault ≡ SpanFault.NoMemory)) }
    {
        if bytes.len() > LONGEST_KEY {
            return Err(SpanFault::KeyTooLong);
        }
        let bytes = Vec::from_slice(alloc, bytes).map_err(|_| SpanFault::NoMemory)?;
        Ok(Key { bytes })
    }

    /// A copy of bytes of which there are few enough.
    pub(crate) fn copy_of(alloc: Global, bytes: &[u8]) -> Result<Key, NoMemory>
        requires { fits_key bytes.now ≡ true }
        ensures { IfOk result (λ key. key ≡ bytes.now) }
    {
        Ok(Key {
            bytes: Vec::from_slice(alloc, bytes)?,
        })
    }

    /// The empty key, which comes before all others. It takes no memory.
    pub fn empty(alloc: Global) -> Key
        ensures { result ≡ [] }
    {
        Key {
            bytes: Vec::new(alloc),
        }
    }

    /// The bytes of the key.
    pub fn bytes(&self) -> &[u8]
        ensures value { result.now ≡ self.now }
        ensures fits { length result.now ≤ longest_key }
        ensures small { All (λ b. b < 256) result.now }
    {
        bytes_of(self.bytes.as_slice())
    }

    /// What the key costs on a page: as many bytes as it has, and 32 more.
    pub fn cost(&self) -> u32
        ensures value { result ≡ key_cost self.now }
        ensures most { result ≤ 4128 }
    {
        self.bytes.len() as u32 + NODE_COST
    }

    /// A copy of the key. It takes as much memory as the key has bytes.
    pub fn try_copy(&self) -> Result<Key, NoMemory>
        ensures { IfOk result (λ copy. copy ≡ self.now) }
    {
        Ok(Key {
            bytes: self.bytes.clone()?,
        })
    }
}

/// The bytes themselves, each of which is below 256.
fn bytes_of(bytes: &[u8]) -> &[u8]
    ensures value { result.now ≡ bytes.now }
    ensures small { All (λ b. b < 256) bytes.now }
{
    bytes
}

/// Makes a key of bytes that are already there, and takes no memory. More than 4096 bytes are
/// [`SpanFault::KeyTooLong`], and are then dropped.
impl TryFrom<Vec<u8>> for Key {
    type Error = SpanFault;

    ghost try_from_gives = { λ bytes made. made ≡ made_key bytes.items };

    fn try_from(bytes: Vec<u8>) -> Result<Key, SpanFault> {
        if bytes.len() <= LONGEST_KEY {
            Ok(Key { bytes })
        } else {
            Err(SpanFault::KeyTooLong)
        }
    }
}

impl PartialEq for Key {
    ghost eq = { bytes_eq };

    ghost laws = { partial_equiv_from_equiv nat_list_eq_equiv };

    fn eq(&self, other: &Key) -> bool {
        self.bytes() == other.bytes()
    }
}

impl Eq for Key {
    ghost laws = { nat_list_eq_equiv };
}

impl PartialOrd for Key {
    ghost partial_cmp = { λ k m. Some (key_cmp k m) };

    ghost laws = { texts_po };

    fn partial_cmp(&self, other: &Key) -> Option<Ordering> {
        Some(self.cmp(other))
    }
}

impl Ord for Key {
    ghost cmp = { key_cmp };

    ghost total = { nat_list_cmp_total };

    ghost matches_partial_cmp = { λ k m. refl };

    ghost matches_eq = { texts_ties };

    fn cmp(&self, other: &Key) -> Ordering {
        compare(self.bytes(), other.bytes())
    }
}

/// How the bytes of two keys stand to one another. Where both have eight bytes or more, the first
/// eight are compared at once, as one number.
#[inline]
fn compare(bytes: &[u8], other: &[u8]) -> Ordering
    requires small { All (λ b. b < 256) bytes.now }
    requires other_small { All (λ b. b < 256) other.now }
    ensures { result ≡ key_cmp bytes.now other.now }
{
    if bytes.len() < WORD_BYTES || other.len() < WORD_BYTES {
        return bytes.cmp(other);
    }
    let word = word_at(bytes, 0);
    let other_word = word_at(other, 0);
    if word != other_word {
        return word.cmp(&other_word);
    }
    bytes[WORD_BYTES..].cmp(&other[WORD_BYTES..])
}
