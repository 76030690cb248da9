//! Where stripes begin, and which of them a span touches.
ghost use Rattle.std.specs.Prelude.{◌≡◌, ◌<◌, ◌≤◌, length, true};
ghost use Rattle.tsc_span.specs.Cuts.{cut_of};
ghost use Rattle.tsc_striped.specs.Limits.{most_stripes};
ghost use Rattle.tsc_striped.specs.Touching.{ascend, are_in_order, stripe_above, stripe_below};
ghost use Rattle.tsc_striped.specs.Touching.{first_touched, last_touched};
ghost use Rattle.tsc_striped.specs.Cutting.{LieWithin};

use crate::prefixes::Prefixes;
use tsc_cache::Mark;
use tsc_span::{Cut, Key, SpanRef};

/// Whether bounds ascend, the first one above the empty key.
pub(crate) fn are_in_order(bounds: &[Key]) -> bool
    ensures { result ≡ are_in_order bounds.now }
{
    let mut low: &[u8] = &[];
    for bound in bounds {
        if !Cut::Before(low).is_below(Cut::Before(bound.bytes())) {
            return false;
        }
        low = bound.bytes();
    }
    true
}

/// Where a search looks next: at the guess, then right before it, and then in the middle.
#[inline]
fn next_probe(low: usize, high: usize, guess: usize) -> usize
    requires { low < high }
    ensures { (low ≤ result) × (result < high) }
{
    if low <= guess && guess < high {
        return guess;
    }
    if guess == high {
        return high - 1;
    }
    low + (high - low) / 2
}

/// The stripe of what lies right above a place. It searches among the bounds, and looks first
/// whether it is the guess.
#[inline]
fn stripe_above(bounds: &[Key], place: Cut<'_>, guess: usize) -> usize
    requires order { are_in_order bounds.now ≡ true }
    ensures { result ≡ stripe_above bounds.now (cut_of place.entry) }
{
    let mut low = 0;
    let mut high = bounds.len();
    while low < high {
        let middle = next_probe(low, high, guess);
        if place.is_below(Cut::Before(bounds[middle].bytes())) {
            high = middle;
        } else {
            low = middle + 1;
        }
    }
    low
}

/// The stripe of what lies right below a place. It searches as [`stripe_above`] does.
#[inline]
fn stripe_below(bounds: &[Key], place: Cut<'_>, guess: usize) -> usize
    requires order { are_in_order bounds.now ≡ true }
    ensures { result ≡ stripe_below bounds.now (cut_of place.entry) }
{
    let mut low = 0;
    let mut high = bounds.len();
    while low < high {
        let middle = next_probe(low, high, guess);
        if Cut::Before(bounds[middle].bytes()).is_below(place) {
            low = middle + 1;
        } else {
            high = middle;
        }
    }
    low
}

/// The first stripe that a span touches, and the last one.
#[derive(Clone, Copy)]
pub(crate) struct Touched {
    pub(crate) first: u32,
    pub(crate) last: u32,
}

/// Which stripes a span touches. The empty span touches stripe 0.
#[inline]
pub(crate) fn find_touched(bounds: &[Key], prefixes: &Prefixes, span: &SpanRef<'_>) -> Touched
    requires order { are_in_order bounds.now ≡ true }
    requires few { length bounds.now < most_stripes }
    ensures first { result.first ≡ first_touched bounds.now span.now }
    ensures last { result.last ≡ last_touched bounds.now span.now }
{
    match span.cuts() {
        None => Touched { first: 0, last: 0 },
        Some((from, to)) => {
            let first = stripe_above(bounds, from, prefixes.guess(from));
            Touched {
                first: first as u32,
                last: stripe_below(bounds, to, first) as u32,
            }
        }
    }
}

/// The first stripe that some marks touch, and the last one; without marks stripe 0.
pub(crate) fn find_touched_by(bounds: &[Key], prefixes: &Prefixes, marks: &[Mark]) -> Touched
    requires order { are_in_order bounds.now ≡ true }
    requires few { length bounds.now < most_stripes }
    ensures onward { (result.first ≤ result.last) × (result.last ≤ length bounds.now) }
    ensures within { LieWithin bounds.now marks.now result.first result.last }
{
    let mut first = bounds.len() as u32;
    let mut last = 0;
    for mark in marks {
        let touched = find_touched(bounds, prefixes, &mark.span.borrowed());
        first = touched.first.min(first);
        last = touched.last.max(last);
    }
    Touched {
        first: first.min(last),
        last,
    }
}
