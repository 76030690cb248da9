//! The plain page: the list of what was added. Each question goes through all of it.
ghost use Rattle.std.specs.Prelude.{◌≡◌, ◌≤◌, ◌*◌, ◌||◌, true, false, IfOk, option_map};
ghost use Rattle.tsc_time.specs.Time.{later};
ghost use Rattle.tsc_span.specs.Span.{overlaps, end_keys, key_cost};
ghost use Rattle.tsc_page_model.specs.Limits.{least_size, most_size};
ghost use Rattle.tsc_page_model.specs.Page.{Mark, top, marked_keys, count_distinct, cost_distinct};
ghost use Rattle.tsc_page_model.specs.PageView.{is_in, new_weight, is_new_among};

use crate::IntervalPage;
use std::alloc::Global;
use std::marker::Model;
use tsc_span::{Key, Span};
use tsc_time::{NoMemory, Timestamp, Value, ratchet};

/// A page as the plain list of what was added to it.
///
/// Each Add takes memory, and it is slow: `lookup`, `top` and `try_copy` look at all that was
/// added, and `room`, `bytes` and `nodes` compare each end key with all later ones, so their cost
/// grows with the square of what was added. `new`, `size` and `add` alone look at none of it.
#[derive(Debug, Drop)]
pub struct PlainPage {
    size: u32,
    base: Timestamp,
    marks: Vec<PlainMark>,
}

impl Model for PlainPage {
    ghost use Rattle.std.specs.Prelude.{◌≤◌};
    ghost use Rattle.tsc_page_model.specs.Page.{cost_distinct, marked_keys};
    ghost use Rattle.tsc_page_model.specs.Limits.{least_size, most_size};
    ghost use Rattle.tsc_page_model.specs.PageView.{PageView, view_of};

    ghost Value = { PageView };

    ghost view = { λ p. view_of (record { size = p.size; base = p.base; marks = p.marks.items }) };

    ghost invariant = { λ p. (cost_distinct (marked_keys p.marks.items) ≤ p.size) ×
        (least_size ≤ p.size) × (p.size ≤ most_size) };
}

/// A span with the value that was added to it.
#[derive(Debug, Drop)]
struct PlainMark {
    span: Span,
    value: Value,
}

impl Model for PlainMark {
    ghost use Rattle.tsc_page_model.specs.Page.{Mark};

    ghost Value = { Mark };

    ghost view = { λ m. record { span = m.span; value = m.value } };
}

impl IntervalPage for PlainPage {
    ghost view = { λ p. p };

    fn new(alloc: Global, size: u32, base: Timestamp) -> Result<PlainPage, NoMemory> {
        Ok(PlainPage {
            size,
            base,
            marks: Vec::new(alloc),
        })
    }

    fn size(&self) -> u32 {
        self.size
    }

    /// The count compares each end key with all others.
    fn bytes(&self) -> u32 {
        cost_keys(self.marks.as_slice())
    }

    /// The count compares each end key with all others.
    fn room(&self, span: &Span) -> bool {
        let marks = self.marks.as_slice();
        let (first, second) = span.end_keys();
        cost_keys(marks) + new_cost(first, marks) + new_cost(second, marks) <= self.size
    }

    /// An Add costs a copy of the span, and a move of all that was added where the list has to
    /// grow.
    fn add(&mut self, span: &Span, value: Value) -> Result<(), NoMemory> {
        let span = span.try_copy()?;
        self.marks.push(PlainMark { span, value })?;
        Ok(())
    }

    /// The Add costs what [`room`](IntervalPage::room) and [`add`](IntervalPage::add) do.
    fn try_add(&mut self, span: &Span, value: Value) -> Result<bool, NoMemory> {
        if !self.room(span) {
            return Ok(false);
        }
        self.add(span, value)?;
        Ok(true)
    }

    /// The answer comes from a look at all that was added.
    fn lookup(&self, span: &Span) -> Value {
        let mut best = Value::unowned(Timestamp::ZERO);
        for mark in &self.marks {
            if mark.span.overlaps(span) {
                best = ratchet(best, mark.value).0;
            }
        }
        best
    }

    /// The answer comes from a look at all that was added.
    fn top(&self) -> Timestamp {
        let mut top = self.base;
        for mark in &self.marks {
            top = top.max(mark.value.time());
        }
        top
    }

    /// The count compares each end key with all others.
    fn nodes(&self) -> u32 {
        count_keys(self.marks.as_slice()) as u32
    }

    /// The copy takes as much memory as all that was added.
    fn try_copy(&self) -> Result<PlainPage, NoMemory> {
        let mut marks = Vec::with_capacity(*self.marks.allocator(), self.marks.len())?;
        for mark in &self.marks {
            marks.push(mark.try_copy()?)?;
        }
        Ok(PlainPage {
            size: self.size,
            base: self.base,
            marks,
        })
    }
}

impl PlainMark {
    fn try_copy(&self) -> Result<PlainMark, NoMemory>
        ensures { IfOk result (λ copy. copy ≡ self.now) }
    {
        Ok(PlainMark {
            span: self.span.try_copy()?,
            value: self.value,
        })
    }
}

/// Whether a key is an end key of a span.
fn is_end(key: &Key, span: &Span) -> bool
    ensures { result ≡ is_in key.now (end_keys span.now) }
{
    match span.end_keys() {
        (Some(first), Some(second)) => key == first || key == second,
        (Some(only), None) | (None, Some(only)) => key == only,
        (None, None) => false,
    }
}

/// Whether this is a key, and no end key of a list.
fn is_new(key: Option<&Key>, marks: &[PlainMark]) -> bool
    ensures { result ≡ is_new_among (marked_keys marks.now) (option_map (λ k. k.now) key.entry) }
{
    let Some(key) = key else { return false };
    for mark in marks {
        if is_end(key, &mark.span) {
            return false;
        }
    }
    true
}

/// What a key costs, where this is one and no end key of a list.
fn new_cost(key: Option<&Key>, marks: &[PlainMark]) -> u32
    ensures value { result ≡ new_weight key_cost (marked_keys marks.now)
        (option_map (λ k. k.now) key.entry) }
    ensures most { result ≤ 4128 }
{
    match key {
        Some(key) if is_new(Some(key), marks) => key.cost(),
        _ => 0,
    }
}

/// How many different end keys a list has. It compares each with all later ones.
fn count_keys(marks: &[PlainMark]) -> usize
    requires { cost_distinct (marked_keys marks.now) ≤ most_size }
    ensures { result ≡ count_distinct (marked_keys marks.now) }
{
    let mut count = 0;
    let mut rest = marks;
    while let Some((mark, later)) = rest.split_first() {
        let (first, second) = mark.span.end_keys();
        count += usize::from(is_new(first, later)) + usize::from(is_new(second, later));
        rest = later;
    }
    count
}

/// What the keys of marks cost together.
fn cost_keys(marks: &[PlainMark]) -> u32
    requires { cost_distinct (marked_keys marks.now) ≤ most_size }
    ensures { result ≡ cost_distinct (marked_keys marks.now) }
{
    let mut cost = 0;
    let mut rest = marks;
    while let Some((mark, later)) = rest.split_first() {
        let (first, second) = mark.span.end_keys();
        cost += new_cost(first, later) + new_cost(second, later);
        rest = later;
    }
    cost
}
