//! Laws of ranges, over the definitions alone.
//!
//! No program needs to call these functions: their contracts are the laws.
ghost use Rattle.mvcc_range.specs.Laws.{Serializable, Repeatable, Unpushed};

/// Whatever calls were made of a range, the transactions that committed are serializable in the
/// order of their times.
pub fn serializable()
    ensures { Serializable }
{}

/// Whatever calls were made of a range, each read that was ever answered stays so for all time, but
/// for what its own transaction writes at that time.
pub fn repeatable()
    ensures { Repeatable }
{}

/// Whatever calls were made of a range, a transaction all of whose reads were answered may commit
/// at the time at which it reads, where that is free for its writes. So who isn't pushed need not
/// restart.
pub fn unpushed()
    ensures { Unpushed }
{}
