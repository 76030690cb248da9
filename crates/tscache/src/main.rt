//! The timestamp cache's program: it replays recorded traces, runs them on threads, and checks
//! logs.
//!
//! `tscache replay FILE` makes the calls of a trace on one thread, and `tscache run FILE` those of
//! each list on a thread of its own. Both write the log to standard output. `tscache check FILE
//! LOG` writes one line: that a log is right beside its trace, or which of its lines is wrong. The
//! exit status is 0 where that was done, 1 for a trace or a log that was refused, 2 for wrong
//! words, 3 for a log that is wrong, 4 where reading or writing failed or a thread could not be
//! started, and 5 where a growth was refused. A fault is one line on standard error. What takes
//! longer than two seconds tells there how many calls were made, where that is a terminal.
#![tactic(auto)]

use std::process::ExitCode;
use tsc_commands::program::program;
use tsc_commands::{Meter, Streams, SystemFiles, fetch_words, standard_errors, standard_output};

fn main(rt: HostRuntime) -> ExitCode {
    let mut streams = Streams {
        output: standard_output(rt.stdout()),
        errors: standard_errors(rt.stderr()),
    };
    program(
        &rt,
        rt.alloc(),
        fetch_words(&rt),
        &SystemFiles::of(&rt),
        &mut streams,
        &Meter::new(&rt, rt.stderr()),
    )
}
