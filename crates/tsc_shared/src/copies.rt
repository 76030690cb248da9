//! Copies of what is to be added: both sides have it in turn, and the caller keeps its own.
ghost use Rattle.std.specs.Prelude.{IfOk, ◌∷◌, []};
ghost use Rattle.tsc_shared.specs.Copying.{IsCopyOf, marks_asked};

use crate::adds::{AddRef, MarkList, MarksRef, UnappliedAdd};
use std::alloc::Global;
use tsc_cache::Mark;
use tsc_span::Span;
use tsc_time::{NoMemory, Timestamp, Value};

/// A copy of a mark, to be added at this moment.
fn copy_of_one(span: &Span, value: Value, moment: Timestamp) -> Result<UnappliedAdd, NoMemory>
    ensures { IfOk result
        (IsCopyOf (record { span = span.now; value = value } ∷ []) moment) }
{
    let span = span.try_copy()?;
    Ok(UnappliedAdd {
        marks: MarkList::One(Mark { span, value }),
        moment,
    })
}

/// A copy of some marks, to be added at this moment.
fn copy_of_all(alloc: Global, marks: &[Mark], moment: Timestamp) -> Result<UnappliedAdd, NoMemory>
    ensures { IfOk result (IsCopyOf marks.now moment) }
{
    let mut copies = Vec::with_capacity(alloc, marks.len())?;
    for mark in marks {
        copies.push(Mark {
            span: mark.span.try_copy()?,
            value: mark.value,
        })?;
    }
    Ok(UnappliedAdd {
        marks: MarkList::Many(copies),
        moment,
    })
}

/// A copy of what a caller asks to add.
pub(crate) fn copy_of(alloc: Global, add: &AddRef<'_>) -> Result<UnappliedAdd, NoMemory>
    ensures { IfOk result (IsCopyOf (marks_asked add.now.marks) add.now.moment) }
{
    match add.marks {
        MarksRef::One(span, value) => copy_of_one(span, value, add.moment),
        MarksRef::Many(marks) => copy_of_all(alloc, marks, add.moment),
    }
}
