//! The one loop that is timed, and tables of what it goes over.
use crate::figure::{Figure, Least, NO_TURNS};
use crate::keys::At;
use crate::subject::{Subject, Versions, value_at};
use std::time::Instant;
use tsc_span::{Span, SpanRef};
use tsc_time::{Timestamp, Value, ratchet};

/// A late wall time.
pub const LATE: u64 = 4_294_967_295;

/// What is called.
#[derive(Clone, Copy)]
pub enum Call {
    Lookup,
    LookupByBytes,
    Add,
    Next,
}

/// How the places are gone over.
#[derive(Clone, Copy)]
pub struct Plan {
    /// How often all of them.
    pub times: u32,
    /// The wall time of the first Add. It is one more each time that all places are gone over
    /// again.
    pub first: u64,
    /// By how much later each further Add is.
    pub step: u64,
}

/// The bytes of a single key.
fn bytes_of(span: &Span) -> &[u8] {
    match span.end_keys().0 {
        Some(key) => key.bytes(),
        None => &[],
    }
}

/// Joins what was found with the latest so far.
fn meet(latest: &mut Value, found: Value) -> bool {
    *latest = ratchet(*latest, found).0;
    true
}

/// A call that is timed: what a turn does at each place. It is a type, so that the loop is compiled
/// for each of them.
pub trait Operation<S> {
    /// Makes it at a place, and an Add at a wall time. It tells whether that was done, and joins
    /// what was found with the latest so far.
    fn make(subject: &mut S, span: &Span, wall: u64, latest: &mut Value) -> bool;
}

/// A lookup.
struct Lookup;

impl<S: Subject> Operation<S> for Lookup {
    fn make(subject: &mut S, span: &Span, _wall: u64, latest: &mut Value) -> bool {
        meet(latest, subject.look_up(span))
    }
}

/// A lookup of a key by its bytes.
struct LookupByBytes;

impl<S: Versions> Operation<S> for LookupByBytes {
    fn make(subject: &mut S, span: &Span, _wall: u64, latest: &mut Value) -> bool {
        meet(latest, subject.look_up_in(&SpanRef::point(bytes_of(span))))
    }
}

/// An Add without an owner.
struct Add;

impl<S: Subject> Operation<S> for Add {
    fn make(subject: &mut S, span: &Span, wall: u64, latest: &mut Value) -> bool {
        *latest = value_at(wall);
        subject.make_add(span, *latest, Timestamp::ZERO)
    }
}

/// An Add at a moment at which all that can be dropped is.
pub struct AddLast;

impl<S: Subject> Operation<S> for AddLast {
    fn make(subject: &mut S, span: &Span, wall: u64, latest: &mut Value) -> bool {
        *latest = value_at(wall);
        subject.make_add(span, *latest, Timestamp::MAX)
    }
}

/// An Add to the next version.
struct Next;

impl<S: Versions> Operation<S> for Next {
    fn make(subject: &mut S, span: &Span, wall: u64, latest: &mut Value) -> bool {
        *latest = value_at(wall);
        subject.make_next(span, *latest, Timestamp::ZERO)
    }
}

/// Makes the calls of a turn, and tells what they took. `None` where one was refused.
pub fn time_calls<S, O: Operation<S>>(
    rt: &HostRuntime,
    plan: Plan,
    subject: &mut S,
    spans: &[Span],
) -> Option<Figure> {
    let operations = (spans.len() as u64).saturating_mul(u64::from(plan.times));
    let mut latest = Value::unowned(Timestamp::ZERO);
    let start = Instant::now(rt).ok()?;
    for time in 0..plan.times {
        let mut wall = plan.first.saturating_add(u64::from(time));
        for span in spans {
            if !O::make(subject, span, wall, &mut latest) {
                return None;
            }
            wall = wall.saturating_add(plan.step);
        }
    }
    let figure = Figure::since(rt, start, operations)?;
    // what was looked up is used, so that no compiler leaves the lookups out
    (Timestamp::ZERO < latest.time()).then_some(figure)
}

/// A step of each turn: which row its figure has, what it calls, and where.
pub type Step = (usize, Call, At);

/// The steps that are made turn by turn, and the wall times of their Adds.
#[derive(Clone, Copy)]
pub struct Course {
    pub steps: &'static [Step],
    /// The first wall time of the first turn.
    pub first: u64,
    /// By how much later each further Add of a step is.
    pub step: u64,
    /// By how much later the first Add of each further step is.
    pub apart: u64,
    /// By how much later the first Add of each further turn is.
    pub lift: u64,
    /// Whether all turns of a step follow one another, and the clock is read only behind the last
    /// of them.
    pub at_once: bool,
}

impl Course {
    /// The wall times of lookups, and of Adds that are a nanosecond later each time.
    pub const RISING: Course = Course {
        steps: &[],
        first: 1,
        step: 1,
        apart: 0,
        lift: 0,
        at_once: false,
    };
}

/// The places at which operations are made, and in the row of each operation what it took at the
/// least.
#[derive(Drop)]
pub struct Board {
    places: Vec<Vec<Span>>,
    least: Least,
    /// Whether no call was refused so far.
    is_whole: bool,
}

impl Board {
    /// The boards of some places.
    pub fn new(places: Vec<Vec<Span>>) -> Board {
        Board {
            places,
            least: NO_TURNS,
            is_whole: true,
        }
    }

    /// Some of the places.
    pub fn spans(&self, at: At) -> &[Span] {
        match self.places.get(at as usize) {
            Some(spans) => spans,
            None => &[],
        }
    }

    /// Puts the figure of a further turn in its row, where the operations took less than so far.
    /// There is none where a call was refused.
    pub fn keep(&mut self, row: usize, reported: Option<Figure>) {
        match (self.least.get_mut(row), reported) {
            (Some(least), Some(figure)) => *least = least.or_less(figure),
            _ => self.is_whole = false,
        }
    }

    /// What was kept, where all of it was done.
    pub fn end(self, is_done: bool) -> Option<Least> {
        (self.is_whole && is_done).then_some(self.least)
    }

    /// Makes the steps of a course in `turns` turns, of which that counts in which an operation
    /// took least: in a short time others seldom come in between.
    pub fn go<S: Subject + Versions>(
        &mut self,
        rt: &HostRuntime,
        course: &Course,
        turns: u32,
        subject: &mut S,
    ) {
        let (turns, times) = if course.at_once {
            (1, turns)
        } else {
            (turns, 1)
        };
        let mut lifted = course.first;
        for _ in 0..turns {
            let mut first = lifted;
            for (row, call, at) in course.steps {
                let plan = Plan {
                    times,
                    first,
                    step: course.step,
                };
                let spans = self.spans(*at);
                let reported = match call {
                    Call::Lookup => time_calls::<S, Lookup>(rt, plan, subject, spans),
                    Call::LookupByBytes => time_calls::<S, LookupByBytes>(rt, plan, subject, spans),
                    Call::Add => time_calls::<S, Add>(rt, plan, subject, spans),
                    Call::Next => time_calls::<S, Next>(rt, plan, subject, spans),
                };
                self.keep(*row, reported);
                first = first.saturating_add(course.apart);
            }
            lifted = lifted.saturating_add(course.lift);
        }
    }
}
