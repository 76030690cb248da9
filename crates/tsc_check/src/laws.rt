//! Laws of verdicts.
//!
//! No program needs to call these functions: their contracts are the laws, for every trace and
//! every log.
ghost use Rattle.tsc_check.specs.TrueLog.{ReplaysAreRight, RightAreRuns, RunsAreRight};

/// The verdict on the log of a run is right.
pub fn runs_are_right()
    ensures { RunsAreRight }
{}

/// Lines on which the verdict is right are the log of a run.
pub fn right_logs_are_of_runs()
    ensures { RightAreRuns }
{}

/// The verdict on the log of a replay is right.
pub fn replays_are_right()
    ensures { ReplaysAreRight }
{}
