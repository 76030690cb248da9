//! What is measured, and how each of its calls is made.
use tsc_cache::{Cache, TimestampCache};
use tsc_page::{IntervalPage, Page};
use tsc_span::{Span, SpanRef};
use tsc_time::{Timestamp, Value};

/// What a turn makes its calls to.
pub trait Subject {
    /// Looks up a span.
    fn look_up(&mut self, span: &Span) -> Value;

    /// Adds a span at the moment `now`, and tells whether that was done.
    fn make_add(&mut self, span: &Span, value: Value, now: Timestamp) -> bool;
}

/// A subject that has versions, and can be asked by bytes.
pub trait Versions {
    /// Looks up a span over keys that lie elsewhere.
    fn look_up_in(&mut self, span: &SpanRef<'_>) -> Value;

    /// Makes the next version with one more span, which a page drops and a cache becomes.
    fn make_next(&mut self, span: &Span, value: Value, now: Timestamp) -> bool;
}

impl Subject for Page {
    fn look_up(&mut self, span: &Span) -> Value {
        self.lookup(span)
    }

    fn make_add(&mut self, span: &Span, value: Value, _now: Timestamp) -> bool {
        !span.is_empty() && matches!(self.try_add(span, value), Ok(true))
    }
}

impl Versions for Page {
    fn look_up_in(&mut self, span: &SpanRef<'_>) -> Value {
        self.lookup_ref(span)
    }

    fn make_next(&mut self, span: &Span, value: Value, _now: Timestamp) -> bool {
        !span.is_empty() && matches!(self.added(span, value), Ok(Some(_)))
    }
}

impl Subject for Cache {
    fn look_up(&mut self, span: &Span) -> Value {
        self.get_max(span)
    }

    fn make_add(&mut self, span: &Span, value: Value, now: Timestamp) -> bool {
        match self.add(span, value, now) {
            Ok(added) => added.kept,
            Err(_) => false,
        }
    }
}

impl Versions for Cache {
    fn look_up_in(&mut self, span: &SpanRef<'_>) -> Value {
        self.get_max_ref(span)
    }

    fn make_next(&mut self, span: &Span, value: Value, now: Timestamp) -> bool {
        match self.next(span, value, now) {
            Ok((next, added)) => {
                *self = next;
                added.kept
            }
            Err(_) => false,
        }
    }
}

/// The value of a wall time, which has no owner.
pub fn value_at(wall: u64) -> Value {
    Value::unowned(Timestamp::new(wall, 0).unwrap_or(Timestamp::MAX))
}
