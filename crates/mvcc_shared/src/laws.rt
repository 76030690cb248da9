//! Laws of ranges that are shared, over the definitions alone.
//!
//! No program needs to call these functions: their contracts are the laws.
ghost use Rattle.mvcc_shared.specs.Laws.{HistoriesRun, SeesCommits, StrictByTimes, ReadsOwnWrites};
ghost use Rattle.mvcc_shared.specs.Laws.{StrictForThoseWhoMeet, NoWriteSkew};
ghost use Rattle.mvcc_shared.specs.Textbook.{TextbookSerializable};

use mvcc_range::laws;

/// What the calls of clients do, in the order of their history, is an execution of calls on one
/// range. So the laws of a range hold of all that clients see.
pub fn histories_run()
    ensures { HistoriesRun }
{}

/// A read answers with what all commits up to its time leave.
pub fn sees_commits()
    ensures { SeesCommits }
{}

/// Who commits later, at a time not before that of an earlier commit, comes after it in the serial
/// order.
pub fn strict_by_times()
    ensures { StrictByTimes }
{}

/// Who commits once its client has seen another commit, its own or one that it learned, at a time
/// not before that one, comes after it in the serial order.
pub fn strict_for_those_who_meet()
    ensures { StrictForThoseWhoMeet }
{}

/// Two transactions cannot both have missed what the other one wrote, unless a third one wrote
/// there again between them.
pub fn no_write_skew()
    ensures { NoWriteSkew }
{}

/// What a client was told is what its transaction reads at its turn in the serial order, with its
/// own writes put over it.
pub fn reads_own_writes()
    ensures { ReadsOwnWrites }
{}

/// Whatever calls were made of a range, what committed is serializable as textbooks have it. It
/// follows from what `mvcc_range` promises.
pub fn textbook_serializable()
    ensures { TextbookSerializable }
{
    laws::serializable();
}
