//! Laws of histories of Adds, over the definitions alone: for every configuration, history and
//! span.
//!
//! No program needs to call these functions: their contracts are the laws. Whoever keeps a history,
//! as a ghost, calls [`can_be_added`] or [`can_all_be_added`] to know of an Add that it may stand
//! there.
ghost use Rattle.tsc_cache.specs.Laws.{KeptUp, Rising, Beginnings, FloorBehind, Real, NoWriteBelowARead, EvictsExpired, AddsAreSteps, OneMarkIsAStep, OneMarkIsAnAdd, ListsJoin, SizesDouble};
ghost use Rattle.tsc_cache.specs.Limits.{least_min_pages, most_min_pages, longest_retention};
ghost use Rattle.tsc_cache.specs.ConfigView.{fits};
ghost use Rattle.tsc_cache.specs.Batch.{all_fit};
ghost use Rattle.tsc_cache.specs.History.{CanBeAdded, CanAllBeAdded};
ghost use Rattle.std.specs.Prelude.{◌≡◌, true};

use crate::{Config, LEAST_MIN_PAGES, LONGEST_RETENTION, MOST_MIN_PAGES, Mark};
use tsc_span::Span;
use tsc_time::{Timestamp, Value};

/// [`LEAST_MIN_PAGES`], [`MOST_MIN_PAGES`] and [`LONGEST_RETENTION`] are the numbers of the
/// definitions.
pub fn limits()
    ensures least_pages { LEAST_MIN_PAGES ≡ least_min_pages }
    ensures most_pages { MOST_MIN_PAGES ≡ most_min_pages }
    ensures retention { LONGEST_RETENTION ≡ longest_retention }
{}

/// A lookup answers no less than any Add that overlaps its span, also one that was not kept, and
/// one whose page is gone.
pub fn kept_up()
    ensures { KeptUp }
{}

/// As Adds go on, the answer to a span never sinks, and the floor never does.
pub fn rising()
    ensures { Rising }
{}

/// A history begins with itself and with all that a beginning of it begins with, and has each entry
/// of a beginning; a beginning of a legal history is legal.
///
/// What a seat of a shared cache has seen begins with what it had seen before, or what a front
/// shows: with this law that holds over several calls.
pub fn beginnings()
    ensures { Beginnings }
{}

/// The floor stands where the configuration put it, or it was already older than the retention at
/// the moment of some Add: no rotation lifts it to a time that has still to be retained.
pub fn floor_behind()
    ensures { FloorBehind }
{}

/// An answer comes from the floor and from the Adds on the span, and from nothing else: pages
/// change it only by the floor.
pub fn real()
    ensures { Real }
{}

/// A write is clear of a value where it is later, or at that value's time and the value is the
/// writer's own. A write that is clear of what a lookup of its span answers is clear of each read
/// that was added on the span before.
pub fn no_write_below_a_read()
    ensures { NoWriteBelowARead }
{}

/// A rotation drops pages from the oldest on, each past its retention and while there are at least
/// `min_pages`, stops at the first that has to stay, and lifts the floor to the latest of
/// itself and of the dropped tops.
pub fn evicts_the_expired()
    ensures { EvictsExpired }
{}

/// Whatever state a cache stood for, after an Add it stands for the next one, and the Add answers
/// what that step does. So contracts of Adds speak of what can be seen alone.
pub fn adds_are_steps()
    ensures { AddsAreSteps }
{}

/// An Add of a list of one mark is the Add of that mark.
pub fn one_mark_is_a_step()
    ensures { OneMarkIsAStep }
{}

/// Adding a list of one mark makes of all that can be seen of a cache what an Add of that mark
/// makes, and answers what that answers.
pub fn one_mark_is_an_add()
    ensures { OneMarkIsAnAdd }
{}

/// Two lists of marks that are added one behind the other, at one moment, do together what their
/// joined list does. Only the entries of a history are two there, and one here.
pub fn lists_join()
    ensures { ListsJoin }
{}

/// A new page has the first size that the span fits, of twice, four times, eight times and further
/// doublings of the size before it. Each of these is no larger than the largest.
pub fn sizes_double()
    ensures { SizesDouble }
{}

/// Whatever a program holds as a span that fits a page, a value and a moment can be added: the
/// entry is one that a caller can make.
pub fn can_be_added(config: &Config, span: &Span, value: Value, now: Timestamp)
    ensures { fits config.now span.now ≡ true →
        CanBeAdded config.now (record { span = span.now; value = value }) now }
{
    let _cuts = span.cuts();
}

/// Whatever a program holds as marks that fit a page and a moment can be added: the entry is one
/// that a caller can make.
pub fn can_all_be_added(config: &Config, marks: &[Mark], now: Timestamp)
    ensures { all_fit config.now marks.now ≡ true → CanAllBeAdded config.now marks.now now }
{
    for mark in marks {
        can_be_added(config, &mark.span, mark.value, now);
    }
}
