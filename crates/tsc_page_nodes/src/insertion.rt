//! A value that is added between two cuts or at a single key.
ghost use Rattle.std.specs.Prelude.{◌≡◌, ◌≤◌, IfOk};
ghost use Rattle.tsc_span.specs.Span.{key_cost};
ghost use Rattle.tsc_page_nodes.specs.Insertions.{before_second};

use std::alloc::Global;
use std::marker::Model;
use tsc_span::{KeyRef, PrefixedCut, PrefixedKey, SearchKey};
use tsc_time::{NoMemory, Value};

/// What is added: a value between two cuts, with the keys at these, of which the first is the
/// smaller.
#[derive(Drop)]
pub struct PrefixedInsertion<'a> {
    /// The smaller key.
    pub first: Option<&'a KeyRef<'a>>,
    /// The greater key.
    pub second: Option<&'a KeyRef<'a>>,
    /// The lower cut.
    pub from: &'a PrefixedCut<'a>,
    /// The upper cut.
    pub to: &'a PrefixedCut<'a>,
    /// The value.
    pub value: Value,
}

impl<'a> Model for PrefixedInsertion<'a> {
    ghost use Rattle.std.specs.Prelude.{option_map};
    ghost use Rattle.tsc_page_nodes.specs.Insertions.{InsertionView, IsInsertionView};

    ghost Value = { InsertionView };

    ghost view = { λ a. record {
      first = option_map (λ k. k.now) a.first;
      second = option_map (λ k. k.now) a.second;
      from = a.from.now;
      to = a.to.now;
      value =
          a.value;
    } };

    ghost invariant = { λ a. IsInsertionView
        (record {
          first = option_map (λ k. k.now) a.first;
          second = option_map (λ k. k.now) a.second;
          from = a.from.now;
          to = a.to.now;
          value =
              a.value;
        }) };
}

impl<'a> PrefixedInsertion<'a> {
    /// What is added without its second key, for nodes before those that begin at that key.
    pub fn before_second(&self) -> PrefixedInsertion<'a>
        ensures { result ≡ before_second self.now }
    {
        PrefixedInsertion {
            first: self.first,
            second: None,
            from: self.from,
            to: self.to,
            value: self.value,
        }
    }
}

/// What is added: a value at a single key.
#[derive(Drop)]
pub struct KeyInsertion<'a> {
    /// The key.
    pub key: &'a KeyRef<'a>,
    /// The value.
    pub value: Value,
}

impl<'a> Model for KeyInsertion<'a> {
    ghost use Rattle.tsc_page_nodes.specs.KeyAdds.{KeyInsertionView};

    ghost Value = { KeyInsertionView };

    ghost view = { λ a. record { key = a.key.now; value = a.value } };
}

impl<'a> KeyInsertion<'a> {
    /// The key, as it is searched for.
    pub fn search(&self) -> &SearchKey<'a>
        ensures { result.now ≡ self.now.key }
    {
        self.key.search()
    }

    /// What the key costs on a page.
    pub(crate) fn cost(&self) -> u32
        ensures value { result ≡ key_cost self.now.key }
        ensures most { result ≤ 4128 }
    {
        self.key.cost()
    }

    /// A copy of the key, with its prefix.
    pub(crate) fn copy_key(&self, alloc: Global) -> Result<PrefixedKey, NoMemory>
        ensures { IfOk result (λ copy. copy ≡ self.now.key) }
    {
        PrefixedKey::copy_of(alloc, self.key)
    }
}
