//! Traces and their calls, within the limits of the format.
ghost use Rattle.std.specs.Prelude.{◌≡◌, ◌≤◌, true, map, length, nat_le, option_map, slice_get, IfSome, SomeIff};
ghost use Rattle.std.specs.List.{sum_by};
ghost use Rattle.tsc_trace_format.specs.Calls.{adds, call_fits, kind_of};
ghost use Rattle.tsc_trace_format.specs.Limits.{most_lists, most_calls, most_marks};
ghost use Rattle.tsc_trace_format.specs.Lists.{fits_trace};

use std::marker::Model;
use tsc_cache::{Config, Mark};
use tsc_span::Span;
use tsc_time::{Timestamp, Value};

/// A recorded run: a configuration, and lists of calls.
///
/// All that its calls add fits the pages of its configuration, as [`Call::fits`] tells.
#[derive(Debug, Drop)]
pub struct Trace {
    pub config: Config,
    pub threads: Lists,
}

impl Model for Trace {
    ghost use Rattle.tsc_trace_format.specs.Traces.{Trace, AllFit};

    ghost Value = { Trace };

    ghost view = { λ t. record { config = t.config; threads = t.threads } };

    ghost invariant = { λ t. AllFit t.config t.threads };
}

/// One call of a trace.
#[derive(Debug, Drop)]
pub enum Call {
    /// Adds a span with its value, at the moment `now`.
    Add {
        span: Span,
        value: Value,
        now: Timestamp,
    },
    /// Adds marks, one after another, at the moment `now`: all of them or none.
    Batch {
        marks: Marks,
        now: Timestamp,
    },
    /// Asks for the value of a span.
    Get {
        span: Span,
    },
    /// Asks where the floor stands.
    Low,
}

/// The kind of a call, which the line of its answer has too.
#[derive(Clone, Copy, Debug, PartialEq, Eq)]
pub enum Kind {
    Add,
    Batch,
    Get,
    Low,
}

impl Call {
    /// Of what kind the call is.
    pub fn kind(&self) -> Kind
        ensures { result ≡ kind_of self.now }
    {
        match self {
            Call::Add { .. } => Kind::Add,
            Call::Batch { .. } => Kind::Batch,
            Call::Get { .. } => Kind::Get,
            Call::Low => Kind::Low,
        }
    }

    /// Whether the call is one that adds: an Add or a batch.
    pub fn adds(&self) -> bool
        ensures { result ≡ adds self.now }
    {
        match self {
            Call::Add { .. } | Call::Batch { .. } => true,
            Call::Get { .. } | Call::Low => false,
        }
    }

    /// Whether all that the call adds fits the pages of a configuration. A lookup adds nothing.
    pub fn fits(&self, config: &Config) -> bool
        ensures { result ≡ call_fits config.now self.now }
    {
        match self {
            Call::Add { span, .. } => config.fits(span),
            Call::Batch { marks, .. } => config.fits_all(marks.slice()),
            Call::Get { .. } | Call::Low => true,
        }
    }
}

/// How many lists a trace has at the most.
pub(crate) const MOST_LISTS: usize = 64;

/// How many calls a trace may have.
pub(crate) const MOST_CALLS: usize = 65_536;

/// How many marks a batch of a trace has at the most.
pub(crate) const MOST_MARKS: usize = 1_024;

/// The marks of a batch, in the order in which they are added. One that was read has at most 1,024.
#[derive(Debug, Drop)]
pub struct Marks {
    marks: Vec<Mark>,
}

impl Model for Marks {
    ghost use Rattle.std.specs.Prelude.{List};
    ghost use Rattle.tsc_page_model.specs.Page.{Mark};

    ghost Value = { List Mark };

    ghost view = { λ m. m.marks.items };
}

impl Marks {
    /// A batch of these marks, where there are at most 1,024.
    pub fn new(marks: Vec<Mark>) -> Option<Marks>
        ensures { SomeIff result (length marks.items ≤ most_marks) marks.items }
    {
        if marks.len() > MOST_MARKS {
            return None;
        }
        Some(Marks::of(marks))
    }

    /// A batch of these marks.
    pub(crate) fn of(marks: Vec<Mark>) -> Marks
        ensures { result ≡ marks.items }
    {
        Marks { marks }
    }

    /// The marks as a slice.
    pub fn slice(&self) -> &[Mark]
        ensures { result.now ≡ self.now }
    {
        self.marks.as_slice()
    }
}

/// Whether lists have no more calls than a trace may have.
fn has_few_calls(lists: &[Vec<Call>]) -> bool
    ensures { result ≡ nat_le (sum_by length (map (λ calls. calls.items) lists.now)) most_calls }
{
    let mut left = MOST_CALLS;
    for list in lists {
        if list.len() > left {
            return false;
        }
        left -= list.len();
    }
    true
}

/// Whether a trace may have these lists.
fn fits(lists: &[Vec<Call>]) -> bool
    ensures { result ≡ fits_trace (map (λ calls. calls.items) lists.now) }
{
    !lists.is_empty() && lists.len() <= MOST_LISTS && has_few_calls(lists)
}

/// The lists of a trace: 1 to 64 lists of calls, with at most 65,536 calls in all.
#[derive(Debug, Drop)]
pub struct Lists {
    lists: Vec<Vec<Call>>,
}

impl Model for Lists {
    ghost use Rattle.std.specs.Prelude.{◌≡◌, true, List, map};
    ghost use Rattle.tsc_trace_format.specs.declared.trace.Call.{Call};
    ghost use Rattle.tsc_trace_format.specs.Lists.{fits_trace};

    ghost Value = { List (List Call) };

    ghost view = { λ a. map (λ calls. calls.items) a.lists.items };

    ghost invariant = { λ a. fits_trace (map (λ calls. calls.items) a.lists.items) ≡ true };
}

impl Lists {
    /// The lists of a trace, where there are 1 to 64, with at most 65,536 calls in all.
    pub fn new(lists: Vec<Vec<Call>>) -> Option<Lists>
        ensures { SomeIff result (fits_trace (map (λ calls. calls.items) lists.items) ≡ true)
            (map (λ calls. calls.items) lists.items) }
    {
        if !fits(&lists) {
            return None;
        }
        Some(Lists::of(lists))
    }

    /// The lists of a trace.
    pub(crate) fn of(lists: Vec<Vec<Call>>) -> Lists
        requires { fits_trace (map (λ calls. calls.items) lists.items) ≡ true }
        ensures { result ≡ map (λ calls. calls.items) lists.items }
    {
        Lists { lists }
    }

    /// The lists as a slice.
    pub fn slice(&self) -> &[Vec<Call>]
        ensures value { map (λ calls. calls.items) result.now ≡ self.now }
        ensures fits { fits_trace self.now ≡ true }
    {
        self.lists.as_slice()
    }

    /// How many lists there are.
    pub fn len(&self) -> usize
        ensures value { result ≡ length self.now }
        ensures some { 1 ≤ result }
        ensures few { result ≤ most_lists }
    {
        self.lists.len()
    }

    /// A list by its number.
    pub fn list(&self, i: usize) -> Option<&[Call]>
        ensures value { option_map (λ calls. calls.now) result ≡ slice_get self.now i }
        ensures few { IfSome result (λ calls. length calls.now ≤ most_calls) }
    {
        if i < self.lists.len() {
            Some(self.lists[i].as_slice())
        } else {
            None
        }
    }
}
