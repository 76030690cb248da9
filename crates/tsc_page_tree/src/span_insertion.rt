//! What an Add of a span brings to the tree: its cuts, and the keys there that may need nodes.
ghost use Rattle.tsc_page_tree.specs.Roots.{IsInsertionOf};

use std::marker::Model;
use tsc_span::{AddSpan, Cut, KeyRef};
use tsc_time::Value;

/// What is inserted: a value in a span that is not empty, with the span's cuts and the keys at
/// these, of which the first is the smaller.
#[derive(Drop)]
pub struct Insertion<'a> {
    /// The smaller key.
    pub first: Option<&'a KeyRef<'a>>,
    /// The greater key.
    pub second: Option<&'a KeyRef<'a>>,
    /// The lower cut.
    pub from: Cut<'a>,
    /// The upper cut.
    pub to: Cut<'a>,
    /// The value.
    pub value: Value,
}

impl<'a> Model for Insertion<'a> {
    ghost use Rattle.std.specs.Prelude.{option_map};
    ghost use Rattle.tsc_span.specs.Cuts.{cut_of};
    ghost use Rattle.tsc_page_nodes.specs.Insertions.{InsertionView};
    ghost use Rattle.tsc_page_tree.specs.Roots.{AreEnds};

    ghost Value = { InsertionView };

    ghost view = { λ a. record {
      first = option_map (λ k. k.now) a.first;
      second = option_map (λ k. k.now) a.second;
      from = cut_of a.from;
      to = cut_of a.to;
      value =
          a.value;
    } };

    ghost invariant = { λ a. AreEnds
        (record {
          first = option_map (λ k. k.now) a.first;
          second = option_map (λ k. k.now) a.second;
          from = cut_of a.from;
          to = cut_of a.to;
          value =
              a.value;
        }) };
}

impl<'a> Insertion<'a> {
    /// The insertion of a span and a value; `None` for the empty span.
    pub fn new(span: &'a AddSpan<'a>, value: Value) -> Option<Insertion<'a>>
        ensures { IsInsertionOf span.now value result }
    {
        match span.cuts() {
            Some((from, to)) => {
                let (first, second) = span.end_keys();
                Some(Insertion {
                    first,
                    second,
                    from,
                    to,
                    value,
                })
            }
            None => None,
        }
    }
}
