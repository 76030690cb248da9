//! Marks, and which of them an Add keeps.
ghost use Rattle.std.specs.Prelude.{◌≡◌};
ghost use Rattle.tsc_cache.specs.State.{is_kept};
ghost use Rattle.tsc_cache.specs.Batch.{is_any_kept};

use std::marker::Model;
use tsc_span::Span;
use tsc_time::{Timestamp, Value};

/// A span with the value that is added to it.
#[derive(Debug, Drop)]
pub struct Mark {
    /// What was read.
    pub span: Span,
    /// When, and by whom.
    pub value: Value,
}

impl Model for Mark {
    ghost use Rattle.tsc_page_model.specs.Page.{Mark};

    ghost Value = { Mark };

    ghost view = { λ m. record { span = m.span; value = m.value } };
}

impl Mark {
    /// Whether the mark is kept above a floor.
    fn is_kept(&self, floor: Timestamp) -> bool
        ensures { result ≡ is_kept floor self.now }
    {
        !self.span.is_empty() && floor < self.value.time()
    }
}

/// Whether some mark is kept above a floor.
pub(crate) fn is_any_kept(floor: Timestamp, marks: &[Mark]) -> bool
    ensures { result ≡ is_any_kept floor marks.now }
{
    for mark in marks {
        if mark.is_kept(floor) {
            return true;
        }
    }
    false
}
