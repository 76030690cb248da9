//! Spans that own their keys. What a pair of keys and two ends means is decided here alone.
ghost use Rattle.std.specs.Prelude.{◌≡◌, ◌≤◌, ◌++◌, IfOk, IfErr, IfSome, true, option_map, option_to_list, slice_get};
ghost use Rattle.std.specs.Result.{result_ok, IsOk};
ghost use Rattle.std.specs.Cmp.{partial_equiv_from_equiv};
ghost use Rattle.tsc_span.specs.Span.{point, range, range_for_lookup, start_to_end, start_cut, onward, all_keys, is_empty_span, is_below, overlaps, covers, end_keys, cost_of, span_cost};
ghost use Rattle.tsc_span.specs.MadeSpan.{IsMadeCut, IsMadeSpan};
ghost use Rattle.tsc_span.specs.Cuts.{cut_of, span_of_cuts};
ghost use Rattle.tsc_span.specs.Same.{is_same_span};
ghost use Rattle.tsc_span.specs.Sameness.{is_same_span-equivalence};

use crate::{AddSpan, Cut, Key, SpanFault, SpanRef};
use std::alloc::Global;
use std::cmp::Ordering;
use std::marker::Model;
use tsc_time::NoMemory;

/// Which ends of a range are excluded, as `rangeOptions` of CockroachDB's
/// `pkg/kv/kvserver/tscache/interval_skl.go` says it. Two equal keys are the single key, unless
/// both are excluded.
#[derive(Clone, Copy, Debug, PartialEq, Eq)]
pub struct Ends {
    /// The first key is no part of the range.
    pub exclude_from: bool,
    /// The last key is no part of the range.
    pub exclude_to: bool,
}

/// A span of keys: a single key, a range, all keys from one on, or nothing.
#[derive(Debug, Drop)]
pub struct Span {
    shape: Shape,
}

#[derive(Debug, Drop)]
enum Shape {
    Nothing,
    Point(Key),
    Range(Key, Key, Ends),
    Onward(Key, bool),
}

impl Model for Span {
    ghost use Rattle.tsc_span.specs.Span.{SpanView};

    ghost Value = { SpanView };

    ghost use Rattle.tsc_span.specs.Shape.{span_of, IsShape};

    ghost view = { λ s. span_of s.shape };

    ghost invariant = { λ s. IsShape s.shape };
}

impl Span {
    /// The single key.
    pub fn point(key: Key) -> Span
        ensures { result ≡ point key }
    {
        Span {
            shape: Shape::Point(key),
        }
    }

    /// The keys from one to another, or [`SpanFault::Inverted`] where the first is greater; both
    /// are then dropped. Equal keys are the empty span where both ends are excluded, and else the
    /// single key.
    pub fn range(from: Key, to: Key, ends: Ends) -> Result<Span, SpanFault>
        ensures value { result_ok result ≡ range from to ends.exclude_from ends.exclude_to }
        ensures refused { IfErr result (λ fault. fault ≡ SpanFault.Inverted) }
    {
        match from.cmp(&to) {
            Ordering::Greater => Err(SpanFault::Inverted),
            Ordering::Equal if ends.exclude_from && ends.exclude_to => Ok(Span {
                shape: Shape::Nothing,
            }),
            Ordering::Equal => Ok(Span::point(from)),
            Ordering::Less => Ok(Span {
                shape: Shape::Range(from, to, ends),
            }),
        }
    }

    /// All keys from one on, that key itself among them unless it is excluded. There is no end.
    pub fn onward(from: Key, exclude_from: bool) -> Span
        ensures { result ≡ onward from exclude_from }
    {
        Span {
            shape: Shape::Onward(from, exclude_from),
        }
    }

    /// All keys. Every key lies in it, as a law of [`laws`](crate::laws) says. It takes no memory.
    pub fn all(alloc: Global) -> Span
        ensures { result ≡ all_keys }
    {
        Span::onward(Key::empty(alloc), false)
    }

    /// The span that a start and an end name, as `Cache.Add` of CockroachDB's
    /// `pkg/kv/kvserver/tscache/cache.go` takes them: an empty end means the start alone, and any
    /// other end is excluded.
    pub fn of(start: Key, end: Key) -> Result<Span, SpanFault>
        ensures value { result_ok result ≡ start_to_end start end }
        ensures refused { IfErr result (λ fault. fault ≡ SpanFault.Inverted) }
    {
        if end.bytes().is_empty() {
            return Ok(Span::point(start));
        }
        let ends = Ends {
            exclude_from: false,
            exclude_to: true,
        };
        Span::range(start, end, ends)
    }

    /// The keys from one to another for a lookup, in which an inverted range is the empty span.
    pub fn for_lookup(from: Key, to: Key, ends: Ends) -> Span
        ensures { result ≡ range_for_lookup from to ends.exclude_from ends.exclude_to }
    {
        match Span::range(from, to, ends) {
            Ok(span) => span,
            Err(_) => Span {
                shape: Shape::Nothing,
            },
        }
    }

    /// Whether the span is empty. The span between a key and the next one after it, both excluded,
    /// is not, although no key lies in it.
    pub fn is_empty(&self) -> bool
        ensures { result ≡ is_empty_span self.now }
    {
        matches!(&self.shape, Shape::Nothing)
    }

    /// Where the span starts and where it stops, or `None` for the empty span. Whoever has a span
    /// also learns here that it can be made of keys.
    pub fn cuts(&self) -> Option<(Cut<'_>, Cut<'_>)>
        ensures value { span_of_cuts result ≡ self.now }
        ensures order { IfSome result (λ cuts. is_below (cut_of cuts.0) (cut_of cuts.1) ≡ true) }
        ensures made { IsMadeSpan self.now }
    {
        match &self.shape {
            Shape::Nothing => None,
            Shape::Point(key) => Some((Cut::Before(key.bytes()), Cut::After(key.bytes()))),
            Shape::Range(from, to, ends) => {
                let start = start_cut(from, ends.exclude_from);
                let end = if ends.exclude_to {
                    Cut::Before(to.bytes())
                } else {
                    Cut::After(to.bytes())
                };
                Some((start, end))
            }
            Shape::Onward(from, exclude_from) => Some((start_cut(from, *exclude_from), Cut::Last)),
        }
    }

    /// The span as a [`SpanRef`] for a lookup, over its own keys, of which none is copied.
    pub fn borrowed(&self) -> SpanRef<'_>
        ensures { result ≡ self.now }
    {
        match &self.shape {
            Shape::Point(key) => SpanRef::point(key.bytes()),
            _ => SpanRef::of_cuts(self.cuts()),
        }
    }

    /// The span as an [`AddSpan`] for an Add, over its own keys, of which none is copied.
    pub fn for_add(&self) -> AddSpan<'_>
        ensures { result ≡ self.now }
    {
        match &self.shape {
            Shape::Nothing => AddSpan::nothing(),
            Shape::Point(key) => AddSpan::point(key.borrowed()),
            Shape::Range(from, to, ends) => AddSpan::in_order(from, to, *ends),
            Shape::Onward(from, exclude_from) => AddSpan::onward(from.borrowed(), *exclude_from),
        }
    }

    /// Whether two spans overlap: both begin before either stops. It compares three pairs of keys
    /// at the most.
    ///
    /// No key need lie in what they share: the span between `a` and the next key after it, both
    /// excluded, overlaps itself.
    pub fn overlaps(&self, other: &Span) -> bool
        ensures { result ≡ overlaps self.now other.now }
    {
        match (self.cuts(), other.cuts()) {
            (Some((from, to)), Some((first, end))) => {
                let start = if from.is_below(first) { first } else { from };
                let stop = if to.is_below(end) { to } else { end };
                start.is_below(stop)
            }
            _ => false,
        }
    }

    /// Whether a key lies in the span. It may be of any length.
    pub fn covers(&self, key: &[u8]) -> bool
        ensures { result ≡ covers self.now key.now }
    {
        match self.cuts() {
            Some((from, to)) => {
                !Cut::Before(key).is_below(from) && !to.is_below(Cut::After(key))
            }
            None => false,
        }
    }

    /// The different keys at the ends of the span. A single key and a span without end have one,
    /// and the empty span has none. A second key comes only with a first.
    pub fn end_keys(&self) -> (Option<&Key>, Option<&Key>)
        ensures keys { option_to_list (option_map (λ k. k.now) result.0)
            ++ option_to_list (option_map (λ k. k.now) result.1) ≡ end_keys self.now }
        ensures start { option_map (λ k. k.now) result.0 ≡ slice_get (end_keys self.now) 0 }
        ensures end { option_map (λ k. k.now) result.1 ≡ slice_get (end_keys self.now) 1 }
    {
        match &self.shape {
            Shape::Nothing => (None, None),
            Shape::Point(key) | Shape::Onward(key, _) => (Some(key), None),
            Shape::Range(from, to, _) => (Some(from), Some(to)),
        }
    }

    /// What the span costs on a page that has none of its keys: for each of its [end
    /// keys](Span::end_keys) as many bytes as it has, and 32 more. The empty span costs nothing.
    pub fn cost(&self) -> u32
        ensures value { result ≡ span_cost self.now }
        ensures most { result ≤ 8256 }
    {
        let (first, second) = self.end_keys();
        cost_of(first) + cost_of(second)
    }

    /// A copy of the span. It takes as much memory as its keys have bytes, so none for the empty
    /// span.
    pub fn try_copy(&self) -> Result<Span, NoMemory>
        ensures value { IfOk result (λ copy. copy ≡ self.now) }
        ensures memory { is_empty_span self.now ≡ true → IsOk result }
    {
        let shape = match &self.shape {
            Shape::Nothing => Shape::Nothing,
            Shape::Point(key) => Shape::Point(key.try_copy()?),
            Shape::Range(from, to, ends) => {
                Shape::Range(from.try_copy()?, to.try_copy()?, *ends)
            }
            Shape::Onward(from, exclude_from) => Shape::Onward(from.try_copy()?, *exclude_from),
        };
        Ok(Span { shape })
    }
}

/// Where a span begins at a key.
fn start_cut(key: &Key, excluded: bool) -> Cut<'_>
    ensures value { cut_of result ≡ start_cut key.now excluded }
    ensures made { IsMadeCut (cut_of result) }
{
    if excluded {
        Cut::After(key.bytes())
    } else {
        Cut::Before(key.bytes())
    }
}

/// What a key costs on a page, where there is one.
fn cost_of(key: Option<&Key>) -> u32
    ensures value { result ≡ cost_of (option_to_list (option_map (λ k. k.now) key.entry)) }
    ensures most { result ≤ 4128 }
{
    match key {
        Some(key) => key.cost(),
        None => 0,
    }
}

/// Two spans are equal where their starts and their stops are equal, or both are empty.
impl PartialEq for Span {
    ghost eq = { is_same_span };

    ghost laws = { partial_equiv_from_equiv is_same_span-equivalence };

    fn eq(&self, other: &Span) -> bool {
        match (self.cuts(), other.cuts()) {
            (None, None) => true,
            (Some((from, to)), Some((first, end))) => from.is_same(first) && to.is_same(end),
            _ => false,
        }
    }
}

impl Eq for Span {
    ghost laws = { is_same_span-equivalence };
}
