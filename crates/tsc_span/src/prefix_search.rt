//! Searches by the prefixes of keys. What they find is a guess, which the caller tests, so they
//! promise nothing.
use crate::KeyPrefix;

/// How far the elements stand from one another that a search looks at first.
const STRIDE: usize = 8;

/// What stands in a list by a prefix: that of its key, or of where it begins.
pub trait Prefixed {
    /// The prefix. It is for [`lesser_prefixes`], which promises nothing of it.
    fn prefix(&self) -> &KeyPrefix;
}

/// How many elements have a lesser prefix than this one, where a list is sorted by prefixes and has
/// up to 64 elements; `None` where all of them have this prefix. That is a hint: nothing is
/// promised of it, so its caller looks at what stands there.
///
/// The search compares one word of each prefix that it looks at: the first word in which the ends
/// of the list and this prefix are not all equal. It looks at every eighth element, and then at the
/// eight from the last lesser one of these on. No branch hangs on what a look sees, so the
/// processor guesses none wrong.
pub fn lesser_prefixes<T: Prefixed>(list: &[T], prefix: &KeyPrefix) -> Option<usize> {
    let (first, last) = (list.first()?.prefix(), list.last()?.prefix());
    if First::reports(first, last, prefix) {
        Some(lesser_words::<T, First>(list, prefix))
    } else if Second::reports(first, last, prefix) {
        Some(lesser_words::<T, Second>(list, prefix))
    } else if Third::reports(first, last, prefix) {
        Some(lesser_words::<T, Third>(list, prefix))
    } else {
        None
    }
}

/// How many elements have a lesser word than a prefix has, where a list is sorted by this word.
fn lesser_words<T: Prefixed, W: Word>(list: &[T], prefix: &KeyPrefix) -> usize {
    let word = W::of(prefix);
    let mut low = 0;
    for stride in 1..STRIDE {
        let index = stride * STRIDE;
        if index < list.len() && W::of(list[index].prefix()) < word {
            low = index;
        }
    }
    let mut lesser = low;
    for index in low..low + STRIDE {
        if index < list.len() && W::of(list[index].prefix()) < word {
            lesser = index + 1;
        }
    }
    lesser
}

/// One of the three words of a prefix.
trait Word {
    /// The word.
    fn of(prefix: &KeyPrefix) -> u64;

    /// Whether the words of three prefixes are not all equal.
    fn reports(first: &KeyPrefix, last: &KeyPrefix, prefix: &KeyPrefix) -> bool {
        Self::of(first) != Self::of(last) || Self::of(first) != Self::of(prefix)
    }
}

/// The first word, which weighs most.
struct First;

/// The word in the middle.
struct Second;

/// The last word.
struct Third;

impl Word for First {
    fn of(prefix: &KeyPrefix) -> u64 {
        prefix.first
    }
}

impl Word for Second {
    fn of(prefix: &KeyPrefix) -> u64 {
        prefix.second
    }
}

impl Word for Third {
    fn of(prefix: &KeyPrefix) -> u64 {
        prefix.third
    }
}
