//! The command that checks a log against its trace, both from readers, and tells how it ended.
ghost use Rattle.std.specs.Prelude.{◌≡◌, OnOk, OnErr};
ghost use Rattle.tsc_stream.specs.Stream.{CouldNotWrite, HasWritten};
ghost use Rattle.tsc_commands.specs.Check.{EndsCheck, check_fault_line, check_fault_status, verdict_status};
ghost use Rattle.tsc_commands.specs.Replay.{Reports};

use crate::replay::status_of;
use std::alloc::Global;
use tsc_check::{CheckFault, Verdict, check_stream};
use tsc_stream::{NoProgress, Progress, Sink, Source, WriteFailed, write_output};

/// Checks a log against its trace, writes the verdict as one line, tells a fault on `errors`, and
/// gives the exit status.
///
/// The log's reader is called only once the trace is read and accepted. The status is 0 for the
/// verdict that the log is right, 3 for each other verdict, 1 for a trace or a log that was
/// refused, 4 where reading or writing failed and 5 where a growth was refused. A fault is told by
/// one line, and telling it changes no status.
pub fn check_command<R: Source, L: Source, W: Sink, E: Sink>(
    alloc: Global,
    trace: &mut R,
    log: &mut L,
    writer: &mut W,
    errors: &mut E,
) -> u8
    ensures { EndsCheck result (R.known trace.old) (R.known trace.new) (L.known log.old)
        (L.known log.new)
        (W.known writer.old) (W.known writer.new) (E.known errors.old) (E.known errors.new) }
{
    check_with_progress(alloc, trace, log, writer, errors, &NoProgress)
}

/// Checks a log as [`check_command`] does, and tells `progress` of each call as it is made once
/// more.
pub fn check_with_progress<R: Source, L: Source, W: Sink, E: Sink, P: Progress>(
    alloc: Global,
    trace: &mut R,
    log: &mut L,
    writer: &mut W,
    errors: &mut E,
    progress: &P,
) -> u8
    ensures { EndsCheck result (R.known trace.old) (R.known trace.new) (L.known log.old)
        (L.known log.new)
        (W.known writer.old) (W.known writer.new) (E.known errors.old) (E.known errors.new) }
{
    match check_stream(alloc, trace, log, writer, progress) {
        Ok(verdict) => status_of_verdict(verdict),
        Err(fault) => {
            report_check_fault(errors, fault);
            status_of_check_fault(fault)
        }
    }
}

/// The exit status of a verdict.
fn status_of_verdict(verdict: Verdict) -> u8
    ensures { result ≡ verdict_status verdict }
{
    match verdict {
        Verdict::Right => 0,
        Verdict::WrongCall(_) | Verdict::WrongPlace(_) | Verdict::WrongAnswer(_) => 3,
    }
}

/// The exit status of why a check ended without a verdict.
pub fn status_of_check_fault(fault: CheckFault) -> u8
    ensures { result ≡ check_fault_status fault }
{
    match fault {
        CheckFault::Stream(fault) => status_of(fault),
        CheckFault::Text(_) | CheckFault::Length => 1,
    }
}

/// Tells why a check ended without a verdict by one line, where that can be written.
pub fn report_check_fault<E: Sink>(errors: &mut E, fault: CheckFault)
    ensures { Reports (check_fault_line fault) (E.known errors.old) (E.known errors.new) }
{
    let _ = write_check_fault(errors, fault);
}

/// Writes the line that tells why a check ended without a verdict. It takes no memory.
fn write_check_fault<E: Sink>(errors: &mut E, fault: CheckFault) -> Result<(), WriteFailed>
    ensures ok { OnOk result (HasWritten (E.known errors.old) (E.known errors.new)
        (check_fault_line fault)) }
    ensures err { OnErr result (CouldNotWrite (E.known errors.old) (E.known errors.new)
        (check_fault_line fault)) }
{
    fault.report(errors)?;
    write_output(errors, b"\n")
}
