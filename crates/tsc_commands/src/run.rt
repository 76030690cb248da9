//! The command that runs a trace on threads, from a reader to a writer, and tells how it ended.
ghost use Rattle.std.specs.Prelude.{◌≡◌, OnOk, OnErr};
ghost use Rattle.tsc_stream.specs.Stream.{CouldNotWrite, HasWritten};
ghost use Rattle.tsc_commands.specs.Replay.{Reports};
ghost use Rattle.tsc_commands.specs.Run.{EndsRun, stop_line, stop_status};

use crate::replay::status_of;
use std::alloc::Global;
use std::sync::Wait;
use std::thread::Threads;
use tsc_run::{RefusesThreads, RunStop, run_stream};
use tsc_shared::Gate;
use tsc_stream::{Sink, Source, WriteFailed, write_output};

/// Runs a trace from a reader on threads, writes its log, tells a fault on `errors`, and gives the
/// exit status.
///
/// The status is 0 for a run, 1 for a trace that was refused, 4 where reading or writing failed or
/// a thread could not be started, and 5 where a growth was refused. A fault is told by one line,
/// and telling it changes no status.
pub fn run_command<
    T: RefusesThreads + Threads + Wait + Sync,
    R: Source,
    W: Sink,
    E: Sink,
    G: Gate + Sync,
>(rt: &T, alloc: Global, reader: &mut R, writer: &mut W, errors: &mut E, gate: &G) -> u8
    ensures { EndsRun (T.HasRefused rt.now) result (R.known reader.old) (R.known reader.new)
        (W.known writer.old) (W.known writer.new) (E.known errors.old) (E.known errors.new) }
{
    match run_stream(rt, alloc, reader, writer, gate) {
        Ok(()) => 0,
        Err(stop) => {
            report_stop(errors, stop);
            status_of_stop(stop)
        }
    }
}

/// The exit status of why a run ended.
pub(crate) fn status_of_stop(stop: RunStop) -> u8
    ensures { result ≡ stop_status stop }
{
    match stop {
        RunStop::Stream(fault) => status_of(fault),
        RunStop::NoView | RunStop::NoPlace | RunStop::HistoryFull | RunStop::NoThread => 4,
    }
}

/// Tells why a run ended by one line, where that can be written.
pub fn report_stop<E: Sink>(errors: &mut E, stop: RunStop)
    ensures { Reports (stop_line stop) (E.known errors.old) (E.known errors.new) }
{
    let _ = write_stop(errors, stop);
}

/// Writes the line that tells why a run ended. It takes no memory.
fn write_stop<E: Sink>(errors: &mut E, stop: RunStop) -> Result<(), WriteFailed>
    ensures ok { OnOk result (HasWritten (E.known errors.old) (E.known errors.new)
        (stop_line stop)) }
    ensures err { OnErr result (CouldNotWrite (E.known errors.old) (E.known errors.new)
        (stop_line stop)) }
{
    stop.report(errors)?;
    write_output(errors, b"\n")
}
