//! Keys and cuts with their prefixes.
ghost use Rattle.std.specs.Prelude.{◌≡◌, ◌≤◌, IfOk};
ghost use Rattle.tsc_span.specs.Span.{key_cmp, key_cost, before, after, last, is_below};
ghost use Rattle.tsc_span.specs.Cuts.{cut_of};
ghost use Rattle.tsc_span.specs.Prefixes.{IsPrefixOf, IsKeyAt, IsCutPrefix, ReportsBelow, ReportsAbove};

use crate::prefix::{compare_tied, prefix_of};
use crate::{Cut, Key, KeyPrefix, KeyRef, Prefixed, SearchKey};
use std::alloc::{AllocError, Global};
use std::cmp::Ordering;
use std::marker::Model;
use std::sync::Arc;
use tsc_time::NoMemory;

/// A key that others may hold too, with its prefix, which lies beside it where the bytes of the key
/// lie elsewhere.
#[derive(Debug, Drop)]
pub struct PrefixedKey {
    pub(crate) prefix: KeyPrefix,
    key: Arc<Key>,
}

impl Model for PrefixedKey {
    ghost use Rattle.std.specs.Arc.{arc_value};
    ghost use Rattle.tsc_span.specs.Span.{KeyBytes};
    ghost use Rattle.tsc_span.specs.Prefixes.{IsPrefixOf};

    ghost Value = { KeyBytes };

    ghost view = { λ k. arc_value k.key };

    ghost invariant = { λ k. IsPrefixOf k.prefix (arc_value k.key) };
}

impl PrefixedKey {
    /// A copy of a key, with its prefix. It takes the memory of the key's bytes, and of a block for
    /// those who share it.
    pub fn copy_of(alloc: Global, key: &KeyRef<'_>) -> Result<PrefixedKey, NoMemory>
        ensures { IfOk result (λ copy. copy ≡ key.now) }
    {
        Ok(PrefixedKey {
            prefix: key.search().prefix(),
            key: Arc::new(alloc, key.to_key(alloc)?)?,
        })
    }

    /// The bytes of the key.
    #[inline]
    pub fn bytes(&self) -> &[u8]
        ensures { result.now ≡ self.now }
    {
        self.key.bytes()
    }

    /// The key itself.
    #[inline]
    pub fn key(&self) -> &Key
        ensures { result.now ≡ self.now }
    {
        &self.key
    }

    /// What the key costs on a page: as many bytes as it has, and 32 more.
    #[inline]
    pub fn cost(&self) -> u32
        ensures value { result ≡ key_cost self.now }
        ensures most { result ≤ 4128 }
    {
        self.key.cost()
    }

    /// The prefix of the key.
    #[inline]
    pub fn prefix(&self) -> KeyPrefix
        ensures { IsPrefixOf result self.now }
    {
        self.prefix
    }
}

impl Prefixed for PrefixedKey {
    #[inline]
    fn prefix(&self) -> &KeyPrefix {
        &self.prefix
    }
}

/// A clone shares the key, and takes no memory.
impl Clone for PrefixedKey {
    ghost is_clone = { λ key copy. copy ≡ key };

    fn clone(&self) -> Result<PrefixedKey, AllocError> {
        Ok(PrefixedKey {
            prefix: self.prefix,
            key: Arc::try_clone(&self.key)?,
        })
    }
}

/// A cut with the prefix of its key, which is that of the key's first twenty-four bytes. The last
/// cut has the greatest one.
#[derive(Debug, Drop)]
pub struct PrefixedCut<'a> {
    pub(crate) prefix: KeyPrefix,
    pub(crate) cut: Cut<'a>,
}

impl<'a> Model for PrefixedCut<'a> {
    ghost use Rattle.tsc_span.specs.Span.{Cut};
    ghost use Rattle.tsc_span.specs.Cuts.{cut_of};
    ghost use Rattle.tsc_span.specs.Prefixes.{IsCutPrefix};

    ghost Value = { Cut };

    ghost view = { λ c. cut_of c.cut };

    ghost invariant = { λ c. IsCutPrefix c.prefix (cut_of c.cut) };
}

impl<'a> PrefixedCut<'a> {
    /// A cut with its prefix, for which the first bytes of its key are read.
    #[inline]
    pub fn new(cut: Cut<'a>) -> PrefixedCut<'a>
        ensures { result ≡ cut_of cut.entry }
    {
        let prefix = match cut {
            Cut::Before(key) | Cut::After(key) => prefix_of(key),
            Cut::Last => KeyPrefix::greatest(),
        };
        PrefixedCut { prefix, cut }
    }

    /// The cut itself.
    #[inline]
    pub fn cut(&self) -> Cut<'a>
        ensures { cut_of result ≡ self.now }
    {
        self.cut
    }

    /// The key at which the cut lies, with its prefix; `None` for the last one.
    #[inline]
    pub fn key(&self) -> Option<SearchKey<'a>>
        ensures { IsKeyAt self.now result }
    {
        match self.cut {
            Cut::Before(bytes) | Cut::After(bytes) => {
                Some(SearchKey::at_prefix(bytes, self.prefix))
            }
            Cut::Last => None,
        }
    }

    /// The prefix of the cut.
    #[inline]
    pub fn prefix(&self) -> &KeyPrefix
        ensures { IsCutPrefix result.now self.now }
    {
        &self.prefix
    }

    /// Whether the cut lies below those of a prefix; `None` where that is its own prefix.
    #[inline]
    pub fn is_below_prefix(&self, prefix: &KeyPrefix) -> Option<bool>
        ensures { ReportsBelow self.now prefix.now result }
    {
        match self.prefix.compare(prefix) {
            Ordering::Less => Some(true),
            Ordering::Equal => None,
            Ordering::Greater => Some(false),
        }
    }

    /// Whether the cut lies above those of a prefix; `None` where that is its own prefix.
    #[inline]
    pub fn is_above_prefix(&self, prefix: &KeyPrefix) -> Option<bool>
        ensures { ReportsAbove self.now prefix.now result }
    {
        match self.prefix.compare(prefix) {
            Ordering::Less => Some(false),
            Ordering::Equal => None,
            Ordering::Greater => Some(true),
        }
    }

    /// Whether the cut lies below the place before a key.
    #[inline]
    pub fn is_below_before(&self, key: &PrefixedKey) -> bool
        ensures { result ≡ is_below self.now (before key.now) }
    {
        match self.prefix.compare(&key.prefix) {
            Ordering::Less => true,
            Ordering::Equal => match self.cut {
                Cut::Before(cut) | Cut::After(cut) => compare_tied(cut, key.bytes()).is_lt(),
                Cut::Last => false,
            },
            Ordering::Greater => false,
        }
    }

    /// Whether the cut lies below the last one.
    #[inline]
    pub fn is_below_last(&self) -> bool
        ensures { result ≡ is_below self.now last }
    {
        self.cut.is_below(Cut::Last)
    }

    /// Whether the cut lies above the place before a key.
    #[inline]
    pub fn is_above_before(&self, key: &PrefixedKey) -> bool
        ensures { result ≡ is_below (before key.now) self.now }
    {
        match self.prefix.compare(&key.prefix) {
            Ordering::Less => false,
            Ordering::Equal => match self.cut {
                Cut::Before(cut) => compare_tied(key.bytes(), cut).is_lt(),
                Cut::After(cut) => compare_tied(key.bytes(), cut).is_le(),
                Cut::Last => true,
            },
            Ordering::Greater => true,
        }
    }
}
