//! Spans for Adds, over keys that lie elsewhere. Each key is short enough to be added.
ghost use Rattle.std.specs.Prelude.{◌≡◌, ◌++◌, IfErr, IfSome, true, option_map, option_to_list, slice_get};
ghost use Rattle.std.specs.Ordering.{is_lt};
ghost use Rattle.std.specs.Result.{result_ok};
ghost use Rattle.tsc_span.specs.Span.{nothing, between, point, range, onward, start_cut, end_cut, is_empty_span, is_below, end_keys, key_cmp};
ghost use Rattle.tsc_span.specs.Cuts.{cut_of, span_of_cuts};

use crate::span_ref::{end_cut, start_cut};
use crate::{Cut, Ends, Key, KeyRef, SpanFault};
use std::cmp::Ordering;
use std::marker::Model;

/// A span over keys that lie elsewhere, for Adds: each key has 4096 bytes at the most. It takes no
/// memory, and copies no key.
#[derive(Debug, Drop)]
pub struct AddSpan<'a> {
    /// What kind of span it is.
    pub shape: AddShape<'a>,
}

/// The kinds of spans for Adds.
#[derive(Debug, Drop)]
pub enum AddShape<'a> {
    /// No key.
    Nothing,
    /// A single key.
    Point(KeyRef<'a>),
    /// The keys from one to another, of which the first is the smaller.
    Range(KeyRef<'a>, KeyRef<'a>, Ends),
    /// All keys from one on, that key itself among them unless it is excluded.
    Onward(KeyRef<'a>, bool),
}

impl<'a> Model for AddSpan<'a> {
    ghost use Rattle.tsc_span.specs.Span.{SpanView};
    ghost use Rattle.tsc_span.specs.AddShape.{span_of, IsShape};

    ghost Value = { SpanView };

    ghost view = { λ s. span_of s.shape };

    ghost invariant = { λ s. IsShape s.shape };
}

impl<'a> AddSpan<'a> {
    /// The single key.
    pub fn point(key: KeyRef<'a>) -> AddSpan<'a>
        ensures { result ≡ point key.entry }
    {
        AddSpan {
            shape: AddShape::Point(key),
        }
    }

    /// The keys from one to another, as [`Span::range`](crate::Span::range) takes them. It compares
    /// the two keys.
    pub fn range(from: KeyRef<'a>, to: KeyRef<'a>, ends: Ends) -> Result<AddSpan<'a>, SpanFault>
        ensures value { result_ok result ≡ range from.entry to.entry ends.exclude_from
            ends.exclude_to }
        ensures refused { IfErr result (λ fault. fault ≡ SpanFault.Inverted) }
    {
        match from.bytes().cmp(to.bytes()) {
            Ordering::Greater => Err(SpanFault::Inverted),
            Ordering::Equal if ends.exclude_from && ends.exclude_to => Ok(AddSpan {
                shape: AddShape::Nothing,
            }),
            Ordering::Equal => Ok(AddSpan::point(from)),
            Ordering::Less => Ok(AddSpan {
                shape: AddShape::Range(from, to, ends),
            }),
        }
    }

    /// All keys from one on, that key itself among them unless it is excluded. There is no end.
    pub fn onward(from: KeyRef<'a>, exclude_from: bool) -> AddSpan<'a>
        ensures { result ≡ onward from.entry exclude_from }
    {
        AddSpan {
            shape: AddShape::Onward(from, exclude_from),
        }
    }

    /// The span without a key.
    pub(crate) fn nothing() -> AddSpan<'a>
        ensures { result ≡ nothing }
    {
        AddSpan {
            shape: AddShape::Nothing,
        }
    }

    /// The keys from one to another, of which the first is the smaller.
    pub(crate) fn in_order(from: &'a Key, to: &'a Key, ends: Ends) -> AddSpan<'a>
        requires { is_lt (key_cmp from.now to.now) ≡ true }
        ensures { result ≡ between (start_cut from.now ends.exclude_from)
            (end_cut to.now ends.exclude_to) }
    {
        AddSpan {
            shape: AddShape::Range(from.borrowed(), to.borrowed(), ends),
        }
    }

    /// Whether the span is empty, as [`Span::is_empty`](crate::Span::is_empty) says it.
    pub fn is_empty(&self) -> bool
        ensures { result ≡ is_empty_span self.now }
    {
        matches!(&self.shape, AddShape::Nothing)
    }

    /// Where the span starts and where it stops, or `None` for the empty span.
    pub fn cuts(&self) -> Option<(Cut<'a>, Cut<'a>)>
        ensures value { span_of_cuts result ≡ self.now }
        ensures order { IfSome result (λ cuts. is_below (cut_of cuts.0) (cut_of cuts.1) ≡ true) }
    {
        match &self.shape {
            AddShape::Nothing => None,
            AddShape::Point(key) => Some((Cut::Before(key.bytes()), Cut::After(key.bytes()))),
            AddShape::Range(from, to, ends) => Some((
                start_cut(from.bytes(), ends.exclude_from),
                end_cut(to.bytes(), ends.exclude_to),
            )),
            AddShape::Onward(from, exclude_from) => {
                Some((start_cut(from.bytes(), *exclude_from), Cut::Last))
            }
        }
    }

    /// The different keys at the ends of the span, as [`Span::end_keys`](crate::Span::end_keys)
    /// tells them.
    pub fn end_keys(&self) -> (Option<&KeyRef<'a>>, Option<&KeyRef<'a>>)
        ensures keys { option_to_list (option_map (λ k. k.now) result.0)
            ++ option_to_list (option_map (λ k. k.now) result.1) ≡ end_keys self.now }
        ensures start { option_map (λ k. k.now) result.0 ≡ slice_get (end_keys self.now) 0 }
        ensures end { option_map (λ k. k.now) result.1 ≡ slice_get (end_keys self.now) 1 }
    {
        match &self.shape {
            AddShape::Nothing => (None, None),
            AddShape::Point(key) | AddShape::Onward(key, _) => (Some(key), None),
            AddShape::Range(from, to, _) => (Some(from), Some(to)),
        }
    }
}
