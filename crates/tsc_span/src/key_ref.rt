//! Keys for Adds whose bytes lie elsewhere.
ghost use Rattle.std.specs.Prelude.{◌≡◌, ◌<◌, ◌≤◌, ◌↔◌, length, IfOk, IfErr};
ghost use Rattle.std.specs.Result.{IsErr};
ghost use Rattle.tsc_span.specs.Limits.{longest_key};
ghost use Rattle.tsc_span.specs.Span.{key_cost};

use crate::key::{LONGEST_KEY, NODE_COST};
use crate::{Key, SearchKey, SpanFault};
use std::alloc::Global;
use std::marker::Model;
use tsc_time::NoMemory;

/// A key whose bytes lie elsewhere, for Adds, with what it is searched for by. It takes no memory.
/// Of its bytes the first twenty-four are read, and none is copied.
#[derive(Debug, Drop)]
pub struct KeyRef<'a> {
    search: SearchKey<'a>,
}

impl<'a> Model for KeyRef<'a> {
    ghost use Rattle.std.specs.Prelude.{◌≡◌, true};
    ghost use Rattle.tsc_span.specs.Span.{KeyBytes, fits_key};

    ghost Value = { KeyBytes };

    ghost view = { λ k. k.search };

    ghost invariant = { λ k. fits_key k.search ≡ true };
}

impl<'a> KeyRef<'a> {
    /// A key over these bytes; more than 4096 of them are [`SpanFault::KeyTooLong`].
    #[inline]
    pub fn new(bytes: &'a [u8]) -> Result<KeyRef<'a>, SpanFault>
        ensures value { IfOk result (λ key. key ≡ bytes.now) }
        ensures refused { IsErr result ↔ (longest_key < length bytes.now) }
        ensures fault { IfErr result (λ fault. fault ≡ SpanFault.KeyTooLong) }
    {
        if bytes.len() > LONGEST_KEY {
            return Err(SpanFault::KeyTooLong);
        }
        Ok(KeyRef {
            search: SearchKey::new(bytes),
        })
    }

    /// The same key once more, over the same bytes.
    #[inline]
    pub fn reborrow(&self) -> KeyRef<'a>
        ensures { result ≡ self.now }
    {
        KeyRef {
            search: self.search.reborrow(),
        }
    }

    /// The key as it is searched for.
    #[inline]
    pub fn search(&self) -> &SearchKey<'a>
        ensures { result.now ≡ self.now }
    {
        &self.search
    }

    /// The bytes of the key.
    #[inline]
    pub fn bytes(&self) -> &'a [u8]
        ensures { result.now ≡ self.now }
    {
        self.search.bytes()
    }

    /// What the key costs on a page, as [`Key::cost`] says.
    #[inline]
    pub fn cost(&self) -> u32
        ensures value { result ≡ key_cost self.now }
        ensures most { result ≤ 4128 }
    {
        self.search.bytes().len() as u32 + NODE_COST
    }

    /// A copy as a key of its own. It takes as much memory as the key has bytes.
    pub fn to_key(&self, alloc: Global) -> Result<Key, NoMemory>
        ensures { IfOk result (λ key. key ≡ self.now) }
    {
        Key::copy_of(alloc, self.search.bytes())
    }
}

impl Key {
    /// The key as a [`KeyRef`] over its own bytes, of which none is copied.
    #[inline]
    pub fn borrowed(&self) -> KeyRef<'_>
        ensures { result ≡ self.now }
    {
        KeyRef {
            search: SearchKey::new(self.bytes()),
        }
    }
}
