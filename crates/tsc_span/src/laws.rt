//! Laws of the comparisons of keys, cuts and spans, and of overlapping.
//!
//! No program needs to call these functions: their contracts are the laws, for every value.
ghost use Rattle.std.specs.Prelude.{◌≡◌, ◌↔◌, IsTrue, not};
ghost use Rattle.std.specs.Ordering.{is_lt};
ghost use Rattle.tsc_span.specs.Limits.{longest_key};
ghost use Rattle.tsc_span.specs.Span.{key_cmp, is_empty_span};
ghost use Rattle.tsc_span.specs.MadeSpan.{MadeByConstructor};
ghost use Rattle.tsc_span.specs.Laws.{IsCutOrder, CoversIsOverlap, OverlapBothWays, AllCoversEach};

use crate::{Key, LONGEST_KEY, Span};
use std::cmp::Ordering;

/// [`LONGEST_KEY`] is the number of the definitions.
pub fn limits()
    ensures { LONGEST_KEY ≡ longest_key }
{}

/// `cmp` on keys is their order.
pub fn compares_keys(a: &Key, b: &Key) -> Ordering
    ensures { result ≡ key_cmp a.now b.now }
{
    a.cmp(b)
}

/// `<` on keys says which is the smaller.
pub fn reports_smaller(a: &Key, b: &Key) -> bool
    ensures { result ≡ is_lt (key_cmp a.now b.now) }
{
    a < b
}

/// `==` on keys compares their bytes.
pub fn reports_same_key(a: &Key, b: &Key) -> bool
    ensures { IsTrue result ↔ (a.now ≡ b.now) }
{
    a == b
}

/// `==` on spans says whether they are one span, however each was made.
pub fn reports_same_span(a: &Span, b: &Span) -> bool
    ensures { IsTrue result ↔ (a.now ≡ b.now) }
{
    a == b
}

/// The order of cuts is total, and nothing stands between the place before a key and the place
/// after it.
pub fn order_of_cuts()
    ensures { IsCutOrder }
{}

/// A span covers a key exactly where it overlaps the single key.
pub fn covers_as_it_overlaps()
    ensures { CoversIsOverlap }
{}

/// Each key lies in the span of all keys, [`Span::all`].
pub fn all_covers_each_key()
    ensures { AllCoversEach }
{}

/// The spans that can be made are those that [`Span::range`] and [`Span::onward`] give for some
/// keys.
pub fn made_by_constructor()
    ensures { MadeByConstructor }
{}

/// Which of two spans is named first makes no difference to their overlapping.
pub fn overlaps_both_ways()
    ensures { OverlapBothWays }
{}

/// Every span overlaps itself, but for the empty one.
pub fn overlaps_itself(span: &Span) -> bool
    ensures { result ≡ not (is_empty_span span.now) }
{
    let _cuts = span.cuts();
    span.overlaps(span)
}
