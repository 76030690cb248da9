//! Where a search among bounds looks first.
//!
//! A guess decides nothing: the search tells by the bounds beside it whether it is right, and looks
//! at others where it is not. Where all keys of a cache share their first 24 bytes, all guesses are
//! wrong.
use std::alloc::Global;
use std::cmp::Ordering;
use tsc_span::{Cut, Key, KeyPrefix, Prefixed, PrefixedCut, lesser_prefixes};
use tsc_time::NoMemory;

/// Among how many prefixes [`lesser_prefixes`] searches.
const SEARCHED: usize = 64;

/// The prefix of a bound.
#[derive(Clone, Copy)]
struct BoundPrefix(KeyPrefix);

impl Prefixed for BoundPrefix {
    fn prefix(&self) -> &KeyPrefix {
        &self.0
    }
}

/// The prefixes of all bounds, in their order.
#[derive(Drop)]
pub(crate) struct Prefixes(Vec<BoundPrefix>);

impl Prefixes {
    /// The prefixes of these bounds.
    pub(crate) fn of(alloc: Global, bounds: &[Key]) -> Result<Prefixes, NoMemory> {
        let mut prefixes = Vec::with_capacity(alloc, bounds.len())?;
        for bound in bounds {
            let place = PrefixedCut::new(Cut::Before(bound.bytes()));
            prefixes.push(BoundPrefix(*place.prefix()))?;
        }
        Ok(Prefixes(prefixes))
    }

    /// A guess how many bounds lie below a place.
    #[inline]
    pub(crate) fn guess(&self, place: Cut<'_>) -> usize {
        let place = PrefixedCut::new(place);
        let mut passed: usize = 0;
        let mut rest = self.0.as_slice();
        while rest.len() > SEARCHED {
            let (lower, upper) = rest.split_at(rest.len() / 2);
            if upper[0].0.compare(place.prefix()) == Ordering::Less {
                passed = passed.saturating_add(lower.len());
                rest = upper;
            } else {
                rest = lower;
            }
        }
        let lesser = lesser_prefixes(rest, place.prefix()).unwrap_or(rest.len());
        passed.saturating_add(lesser)
    }
}
