//! Laws of histories of Adds in stripes, over the definitions alone: for every configuration, every
//! bounds, every history and every span.
//!
//! No program needs to call these functions: their contracts are the laws. Each is a law of
//! [`tsc_cache::laws`] for all stripes together.
ghost use Rattle.tsc_striped.specs.Laws.{KeptUp, Rising, FloorBehind, Real, NoWriteBelowARead};
ghost use Rattle.tsc_striped.specs.Laws.{OneStripe};

/// A lookup answers no less than any Add that overlaps its span, whichever stripes the two touch.
pub fn kept_up()
    ensures { KeptUp }
{}

/// As Adds go on, the answer to a span never sinks, and the floor of no stripe does.
pub fn rising()
    ensures { Rising }
{}

/// The floor of a stripe stands where the configuration put it, or it was already older than the
/// retention at the moment of some Add that lies on that stripe. So Adds in one stripe lift no
/// floor of another.
pub fn floor_behind()
    ensures { FloorBehind }
{}

/// A lookup answers no more than the Adds and the floors of its stripes ask for: what the greatest
/// of these floors, and each Add that overlaps its span, come to together.
pub fn real()
    ensures { Real }
{}

/// A write that is clear of what a lookup of its span answers is clear of each read that was added
/// on the span before, whichever stripes the two touch.
pub fn no_write_below_a_read()
    ensures { NoWriteBelowARead }
{}

/// Without bounds there is one stripe, in which a legal history leaves the state that it leaves in
/// a cache by itself.
pub fn one_stripe()
    ensures { OneStripe }
{}
