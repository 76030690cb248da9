//! Adds: what a caller asks for, and what the copies keep of it.
use std::slice;
use tsc_cache::Mark;
use tsc_span::Span;
use tsc_time::{Timestamp, Value};

/// The marks of an Add: one, which takes no memory beside its own, or a list of them.
#[derive(Drop)]
pub(crate) enum MarkList {
    One(Mark),
    Many(Vec<Mark>),
}

impl MarkList {
    ghost use Rattle.std.specs.Prelude.{◌≡◌};
    ghost use Rattle.tsc_shared.specs.Caches.{marks_in};

    /// The marks, one after another.
    pub(crate) fn as_slice(&self) -> &[Mark]
        ensures { result.now ≡ marks_in self.now }
    {
        match self {
            MarkList::One(mark) => slice::from_ref(mark),
            MarkList::Many(marks) => marks,
        }
    }
}

/// An Add by a copy of its marks, which the copies have in turn.
#[derive(Drop)]
pub(crate) struct UnappliedAdd {
    pub(crate) marks: MarkList,
    pub(crate) moment: Timestamp,
}

/// Marks of the caller's: one on a span, or a list of them.
#[derive(Clone, Copy)]
pub(crate) enum MarksRef<'m> {
    One(&'m Span, Value),
    Many(&'m [Mark]),
}

/// An Add that a caller asks for: the caller's marks, and the moment at which they are added
/// together.
#[derive(Clone, Copy)]
pub(crate) struct AddRef<'m> {
    pub(crate) marks: MarksRef<'m>,
    pub(crate) moment: Timestamp,
}
