//! Several marks that are added as one entry, cut to the stripes on which they lie.
ghost use Rattle.std.specs.Prelude.{◌≡◌, ◌<◌, ◌≤◌, IfOk, List, length, true};
ghost use Rattle.tsc_span.specs.Span.{KeyBytes};
ghost use Rattle.tsc_stripe_table.specs.Stripes.{marks_in};
ghost use Rattle.tsc_striped.specs.Limits.{most_stripes};
ghost use Rattle.tsc_striped.specs.Touching.{are_in_order};
ghost use Rattle.tsc_striped.specs.Answers.{one_mark};
ghost use Rattle.tsc_striped.specs.Sizes.{are_small};

use crate::bounds::find_touched_by;
use crate::pieces::pieces_in;
use crate::prefixes::Prefixes;
use std::alloc::Global;
use std::marker::Model;
use tsc_cache::Mark;
use tsc_span::{Key, Span};
use tsc_time::{NoMemory, Timestamp, Value};

/// What lies of a batch in one stripe. It fits each page that has room for any span.
#[derive(Drop)]
pub(crate) struct Pieces {
    marks: Vec<Mark>,
}

impl Model for Pieces {
    ghost use Rattle.std.specs.Prelude.{List};
    ghost use Rattle.tsc_page_model.specs.Page.{Mark};

    ghost Value = { List Mark };

    ghost view = { λ p. p.marks.items };

    ghost use Rattle.std.specs.Prelude.{◌≡◌, true};
    ghost use Rattle.tsc_striped.specs.Sizes.{are_small};

    ghost invariant = { λ p. are_small p.marks.items ≡ true };
}

/// No span costs more than any page that is large enough has room for. It does nothing.
fn know_small(marks: &[Mark])
    ensures { are_small marks.now ≡ true }
{
    for mark in marks {
        let _cost = mark.span.cost();
    }
}

impl Pieces {
    /// These marks, which lie in one stripe.
    fn of(marks: Vec<Mark>) -> Pieces
        ensures { result ≡ marks.items }
    {
        know_small(marks.as_slice());
        Pieces { marks }
    }

    /// The marks that lie there, each cut to the stripe.
    fn as_slice(&self) -> &[Mark]
        ensures value { result.now ≡ self.now }
        ensures small { are_small result.now ≡ true }
    {
        self.marks.as_slice()
    }
}

/// Marks that are added as one entry, and what lies of them in each stripe from the first to the
/// last. Nothing of them lies in the others.
#[derive(Drop)]
pub(crate) struct Batch {
    pub(crate) marks: Vec<Mark>,
    pub(crate) moment: Timestamp,
    pub(crate) first: u32,
    pub(crate) last: u32,
    pub(crate) pieces: Vec<Pieces>,
}

impl Batch {
    ghost use Rattle.tsc_striped.specs.Cutting.{HasPieces, IsCut, IsAmong, SkipsTo};

    /// A batch of these marks, cut at the bounds of stripes.
    pub(crate) fn new(
        alloc: Global,
        bounds: &[Key],
        prefixes: &Prefixes,
        marks: Vec<Mark>,
        moment: Timestamp,
    ) -> Result<Batch, NoMemory>
        requires order { are_in_order bounds.now ≡ true }
        requires few { length bounds.now < most_stripes }
        ensures cut { IfOk result (λ batch. IsCut bounds.now batch) }
        ensures same { IfOk result (λ batch. (batch.marks.items ≡ marks.items)
            × (batch.moment ≡ moment)) }
    {
        let touched = find_touched_by(bounds, prefixes, marks.as_slice());
        let mut pieces = Vec::new(alloc);
        for stripe in touched.first..touched.last + 1 {
            let there = pieces_in(alloc, bounds, stripe, marks.as_slice())?;
            pieces.push(Pieces::of(there))?;
        }
        Ok(Batch {
            marks,
            moment,
            first: touched.first,
            last: touched.last,
            pieces,
        })
    }

    /// What lies in a stripe.
    pub(crate) fn pieces_in(&self, stripe: u32) -> &[Mark]
        requires has { HasPieces self.now }
        requires among { IsAmong self.now stripe }
        ensures there { (bounds : List KeyBytes) → IsCut bounds self.now
            → result.now ≡ marks_in bounds stripe self.now.marks.items }
        ensures small { are_small result.now ≡ true }
    {
        self.pieces[(stripe - self.first) as usize].as_slice()
    }

    /// From a stripe on, the first one on which the batch lies. It is the last one at the latest.
    pub(crate) fn next_stripe(&self, stripe: u32) -> u32
        requires has { HasPieces self.now }
        requires among { IsAmong self.now stripe }
        ensures onward { (stripe ≤ result) × (result ≤ self.now.last) }
        ensures skips { (bounds : List KeyBytes) → IsCut bounds self.now
            → SkipsTo bounds self.now stripe result }
    {
        for next in stripe..self.last {
            if !self.pieces_in(next).is_empty() {
                return next;
            }
        }
        self.last
    }
}

/// A copy of some marks.
pub(crate) fn copy_of_marks(alloc: Global, marks: &[Mark]) -> Result<Vec<Mark>, NoMemory>
    ensures { IfOk result (λ copies. copies.items ≡ marks.now) }
{
    let mut copies = Vec::with_capacity(alloc, marks.len())?;
    for mark in marks {
        copies.push(Mark {
            span: mark.span.try_copy()?,
            value: mark.value,
        })?;
    }
    Ok(copies)
}

/// A copy of one mark, by itself.
pub(crate) fn copy_of_mark(alloc: Global, span: &Span, value: Value) -> Result<Vec<Mark>, NoMemory>
    ensures { IfOk result (λ copies. copies.items ≡ one_mark span.now value) }
{
    let mut copies = Vec::new(alloc);
    copies.push(Mark {
        span: span.try_copy()?,
        value,
    })?;
    Ok(copies)
}
