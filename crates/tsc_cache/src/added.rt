//! What an Add did: whether it was kept, whether pages rotated, and how many were dropped.

/// What an Add did.
#[derive(Clone, Copy, Debug, PartialEq, Eq)]
pub struct Added {
    /// Whether the Add is kept: its span is not empty, and its time is above the floor.
    pub kept: bool,
    /// Whether the pages rotated first.
    pub rotated: bool,
    /// How many pages were dropped.
    pub evicted: u64,
}

impl Added {
    ghost use Rattle.std.specs.Prelude.{◌≡◌, ◌<◌, ◌+◌, ◌^◌};
    ghost use Rattle.tsc_cache.specs.State.{not_kept, kept_without_rotation, kept_after_rotation, added_with};

    /// An Add that is not kept.
    pub(crate) fn nothing() -> Added
        ensures { result ≡ not_kept }
    {
        Added {
            kept: false,
            rotated: false,
            evicted: 0,
        }
    }

    /// An Add that went to the front page as that stood.
    pub(crate) fn without_rotation() -> Added
        ensures { result ≡ kept_without_rotation }
    {
        Added {
            kept: true,
            rotated: false,
            evicted: 0,
        }
    }

    /// An Add before which the pages rotated.
    pub(crate) fn after_rotation(evicted: u64) -> Added
        ensures { result ≡ kept_after_rotation evicted }
    {
        Added {
            kept: true,
            rotated: true,
            evicted,
        }
    }

    /// What this Add and others after it did together.
    pub(crate) fn with(self, others: Added) -> Added
        requires few { self.evicted + others.evicted < 2 ^ 64 }
        ensures { result ≡ added_with self others }
    {
        Added {
            kept: self.kept || others.kept,
            rotated: self.rotated || others.rotated,
            evicted: self.evicted + others.evicted,
        }
    }
}
