//! What follows of a lease that moves, over the definitions alone. No program needs to call this
//! function: its contract is the law.
ghost use Rattle.tsc_striped_leases.specs.Leases.{ReadsAreHandedOn};

/// Once a seat has taken over all summaries of
/// [`summary_in_stripes`](crate::summary_in_stripes), no answer to it is below a read that the
/// former holder's seat had seen.
pub fn reads_are_handed_on()
    ensures { ReadsAreHandedOn }
{}
