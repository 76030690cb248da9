//! Cuts: the places before and after each key, by which all spans are compared.
ghost use Rattle.std.specs.Prelude.{◌≡◌};

/// A place between keys, where a span starts or stops.
///
/// The place before a key lies below the place after it, and no other place lies between the two.
/// The keys may be of any length.
#[derive(Clone, Copy, Debug)]
pub enum Cut<'a> {
    /// Right before a key.
    Before(&'a [u8]),
    /// Right after a key.
    After(&'a [u8]),
    /// Above all keys.
    Last,
}

impl<'a> Cut<'a> {
    ghost use Rattle.tsc_span.specs.Span.{is_below};
    ghost use Rattle.tsc_span.specs.Cuts.{cut_of};
    ghost use Rattle.tsc_span.specs.Same.{is_same_cut};

    /// Whether this place lies below another. It compares two keys at the most.
    pub fn is_below(self, other: Cut<'a>) -> bool
        ensures { result ≡ is_below (cut_of self.entry) (cut_of other.entry) }
    {
        match (self, other) {
            (Cut::Last, _) => false,
            (_, Cut::Last) => true,
            (Cut::Before(key), Cut::After(end)) => key.cmp(end).is_le(),
            (Cut::Before(key), Cut::Before(end))
            | (Cut::After(key), Cut::Before(end))
            | (Cut::After(key), Cut::After(end)) => key.cmp(end).is_lt(),
        }
    }

    /// Whether two places are equal.
    pub(crate) fn is_same(self, other: Cut<'a>) -> bool
        ensures { result ≡ is_same_cut (cut_of self.entry) (cut_of other.entry) }
    {
        match (self, other) {
            (Cut::Last, Cut::Last) => true,
            (Cut::Before(key), Cut::Before(end)) | (Cut::After(key), Cut::After(end)) => {
                key == end
            }
            _ => false,
        }
    }
}
