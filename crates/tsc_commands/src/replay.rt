//! The command that replays a trace from a reader to a writer, and tells how it ended.
ghost use Rattle.std.specs.Prelude.{◌≡◌, OnOk, OnErr};
ghost use Rattle.tsc_stream.specs.Stream.{CouldNotWrite, HasWritten};
ghost use Rattle.tsc_commands.specs.Replay.{EndsReplay, Reports, fault_line, status_of};

use std::alloc::Global;
use tsc_stream::{NoProgress, Progress, Sink, Source, WriteFailed, write_output};
use tsc_trace::{ReplayFault, TraceFault, replay_stream_with_progress};

/// Replays a trace from a reader to a writer, tells a fault on `errors`, and gives the exit status.
///
/// The status is 0 for a replay, 1 for a trace that was refused, 4 where reading or writing failed
/// and 5 where a growth was refused. A fault is told by one line, and telling it changes no status.
pub fn replay_command<R: Source, W: Sink, E: Sink>(
    alloc: Global,
    reader: &mut R,
    writer: &mut W,
    errors: &mut E,
) -> u8
    ensures { EndsReplay result (R.known reader.old) (R.known reader.new)
        (W.known writer.old) (W.known writer.new) (E.known errors.old) (E.known errors.new) }
{
    replay_with_progress(alloc, reader, writer, errors, &NoProgress)
}

/// Replays a trace as [`replay_command`] does, and tells `progress` of each call as soon as it was
/// made.
pub fn replay_with_progress<R: Source, W: Sink, E: Sink, P: Progress>(
    alloc: Global,
    reader: &mut R,
    writer: &mut W,
    errors: &mut E,
    progress: &P,
) -> u8
    ensures { EndsReplay result (R.known reader.old) (R.known reader.new)
        (W.known writer.old) (W.known writer.new) (E.known errors.old) (E.known errors.new) }
{
    match replay_stream_with_progress(alloc, reader, writer, progress) {
        Ok(()) => 0,
        Err(fault) => {
            report_fault(errors, fault);
            status_of(fault)
        }
    }
}

/// The exit status of a fault.
pub(crate) fn status_of(fault: ReplayFault) -> u8
    ensures { result ≡ status_of fault }
{
    match fault {
        ReplayFault::NoMemory | ReplayFault::Trace(TraceFault::NoMemory) => 5,
        ReplayFault::Trace(_) => 1,
        ReplayFault::Read | ReplayFault::TooLong | ReplayFault::Write => 4,
    }
}

/// Tells a fault by one line, where that can be written.
pub fn report_fault<E: Sink>(errors: &mut E, fault: ReplayFault)
    ensures { Reports (fault_line fault) (E.known errors.old) (E.known errors.new) }
{
    let _ = write_fault(errors, fault);
}

/// Writes the line that tells a fault. It takes no memory.
fn write_fault<E: Sink>(errors: &mut E, fault: ReplayFault) -> Result<(), WriteFailed>
    ensures ok { OnOk result (HasWritten (E.known errors.old) (E.known errors.new)
        (fault_line fault)) }
    ensures err { OnErr result (CouldNotWrite (E.known errors.old) (E.known errors.new)
        (fault_line fault)) }
{
    fault.report(errors)?;
    write_output(errors, b"\n")
}
