//! Keys for which a page is searched.
ghost use Rattle.std.specs.Prelude.{◌≡◌};
ghost use Rattle.tsc_span.specs.Span.{key_cmp, before, after};
ghost use Rattle.tsc_span.specs.Prefixes.{IsPrefixOf};

use crate::prefix::{compare_tied, prefix_of};
use crate::{Cut, KeyPrefix, PrefixedCut, PrefixedKey};
use std::cmp::Ordering;
use std::marker::Model;

/// A key for which a page is searched, with the place right before it, which has the key's prefix.
/// The key may be of any length.
#[derive(Debug, Drop)]
pub struct SearchKey<'a> {
    bytes: &'a [u8],
    at: PrefixedCut<'a>,
}

impl<'a> Model for SearchKey<'a> {
    ghost use Rattle.std.specs.Prelude.{◌≡◌};
    ghost use Rattle.tsc_span.specs.Span.{KeyBytes, before};

    ghost Value = { KeyBytes };

    ghost view = { λ k. k.bytes.now };

    ghost invariant = { λ k. k.at ≡ before k.bytes.now };
}

impl<'a> SearchKey<'a> {
    /// The key of these bytes, of which the first twenty-four are read.
    #[inline]
    pub fn new(bytes: &'a [u8]) -> SearchKey<'a>
        ensures { result ≡ bytes.now }
    {
        SearchKey::at_prefix(bytes, prefix_of(bytes))
    }

    /// The key of bytes whose prefix is known.
    #[inline]
    pub(crate) fn at_prefix(bytes: &'a [u8], prefix: KeyPrefix) -> SearchKey<'a>
        requires { IsPrefixOf prefix bytes.now }
        ensures { result ≡ bytes.now }
    {
        let cut = Cut::Before(bytes);
        SearchKey {
            bytes,
            at: PrefixedCut { prefix, cut },
        }
    }

    /// The bytes of the key.
    #[inline]
    pub(crate) fn bytes(&self) -> &'a [u8]
        ensures { result.now ≡ self.now }
    {
        self.bytes
    }

    /// The same key once more, over the same bytes.
    #[inline]
    pub(crate) fn reborrow(&self) -> SearchKey<'a>
        ensures { result ≡ self.now }
    {
        SearchKey::at_prefix(self.bytes, self.prefix())
    }

    /// The prefix of the key.
    #[inline]
    pub fn prefix(&self) -> KeyPrefix
        ensures { IsPrefixOf result self.now }
    {
        *self.at.prefix()
    }

    /// The place right before the key.
    #[inline]
    pub fn at(&self) -> &PrefixedCut<'a>
        ensures { result.now ≡ before self.now }
    {
        &self.at
    }

    /// The place right after the key.
    #[inline]
    pub fn past(&self) -> PrefixedCut<'a>
        ensures { result ≡ after self.now }
    {
        PrefixedCut {
            prefix: self.prefix(),
            cut: Cut::After(self.bytes),
        }
    }

    /// How another key stands to this one.
    #[inline]
    pub fn compare(&self, key: &PrefixedKey) -> Ordering
        ensures { result ≡ key_cmp key.now self.now }
    {
        match key.prefix.compare(self.at.prefix()) {
            Ordering::Equal => compare_tied(key.bytes(), self.bytes),
            reported => reported,
        }
    }
}
