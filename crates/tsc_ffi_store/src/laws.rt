//! What calls come to together, over the definitions alone.
//!
//! No program needs to call these functions: their contracts are the laws.
ghost use Rattle.tsc_ffi_store.specs.Chain.{AnswersAllAdded};
ghost use Rattle.tsc_ffi_store.specs.Laws.{LeasesGoOn};

/// Where a cache was opened at a handle, and calls added to it, a lookup answers what the floor and
/// all that was added come to: the answer of a history with an entry for each Add, in the order of
/// the calls. Refused calls, lookups, and calls for other handles change nothing of it.
pub fn answers_all_added()
    ensures { AnswersAllAdded }
{}

/// Where bytes that one cache told were applied to another, a write on a span within what was told
/// of that is clear of what the other one answers, then or after more Adds, is clear of each read
/// there that was added to the first.
pub fn leases_go_on()
    ensures { LeasesGoOn }
{}
