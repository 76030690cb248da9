//! Checks of a log against its trace, both from readers, with the verdict to a writer.
ghost use Rattle.std.specs.Prelude.{◌≡◌, ◌++◌, Some, IfOk, IfErr, OnOk, OnErr};
ghost use Rattle.tsc_stream.specs.Stream.{CouldNotWrite, HasWritten};
ghost use Rattle.tsc_trace.specs.Replay.{fault_of_input};
ghost use Rattle.tsc_trace.specs.declared.stream_replays.ReplayFault.TheVariants as replay_fault;
ghost use Rattle.tsc_check.specs.Checking.{Checked, HasReadLog, StopsCheck, StopsReadingLog, fault_of_log, fault_text};
ghost use Rattle.tsc_check.specs.declared.stream_checks.CheckFault.TheVariants.{Stream};

use crate::checks::check_with_progress;
use crate::verdict::Verdict;
use itoa::Buffer;
use std::alloc::Global;
use std::error::Error;
use std::fmt;
use tsc_stream::{
    InputFault, Progress, Sink, Source, WriteFailed, read_input, write_both, write_output,
};
use tsc_time::NoMemory;
use tsc_trace::{Log, LogFault, ReplayFault, read_log, read_trace_from};

/// Why a check ended without a verdict. Only a failed write comes after a written byte.
#[derive(Clone, Copy, Debug, PartialEq, Eq)]
pub enum CheckFault {
    /// Reading the trace or the log, the trace itself, writing, or want of memory, as a replay
    /// ends.
    Stream(ReplayFault),
    /// A line is not of the form of a log's, or has no line feed. The number is that of the first
    /// such line, counted from 1.
    Text(u64),
    /// Bytes follow the 65,536 lines that a log has at the most.
    Length,
}

impl CheckFault {
    /// Writes the text of the fault. It takes no memory.
    pub fn report<W: Sink>(self, writer: &mut W) -> Result<(), WriteFailed>
        ensures ok { OnOk result (HasWritten (W.known writer.old) (W.known writer.new)
            (fault_text self)) }
        ensures err { OnErr result
            (CouldNotWrite (W.known writer.old) (W.known writer.new) (fault_text self)) }
    {
        match self {
            CheckFault::Stream(fault) => fault.report(writer),
            CheckFault::Text(line) => {
                let mut digits = Buffer::new();
                let number = digits.format(line);
                write_both(writer, b"log refused: fault 1 at line ", number.as_bytes())
            }
            CheckFault::Length => write_output(writer, b"log refused: fault 2"),
        }
    }
}

impl fmt::Display for CheckFault {
    ghost output = { λ fault. Some (fault_text fault) };

    fn fmt<W: fmt::Write>(&self, f: &mut fmt::Formatter<W>) -> fmt::Result {
        match self {
            CheckFault::Stream(fault) => write!(f, "{fault}"),
            CheckFault::Text(line) => write!(f, "log refused: fault 1 at line {line}"),
            CheckFault::Length => write!(f, "log refused: fault 2"),
        }
    }
}

impl Error for CheckFault {}

impl From<InputFault> for CheckFault {
    ghost from_gives = { λ fault given. given ≡ Stream (fault_of_input fault) };

    fn from(fault: InputFault) -> CheckFault {
        CheckFault::Stream(fault.into())
    }
}

impl From<ReplayFault> for CheckFault {
    ghost from_gives = { λ fault given. given ≡ Stream fault };

    fn from(fault: ReplayFault) -> CheckFault {
        CheckFault::Stream(fault)
    }
}

impl From<LogFault> for CheckFault {
    ghost from_gives = { λ fault given. given ≡ fault_of_log fault };

    fn from(fault: LogFault) -> CheckFault {
        match fault {
            LogFault::Text(line) => CheckFault::Text(line),
            LogFault::Length => CheckFault::Length,
            LogFault::NoMemory => CheckFault::Stream(ReplayFault::NoMemory),
        }
    }
}

impl From<NoMemory> for CheckFault {
    ghost from_gives = { λ _ given. given ≡ Stream replay_fault.NoMemory };

    fn from(_refused: NoMemory) -> CheckFault {
        CheckFault::Stream(ReplayFault::NoMemory)
    }
}

impl From<WriteFailed> for CheckFault {
    ghost from_gives = { λ _ given. given ≡ Stream replay_fault.Write };

    fn from(_failed: WriteFailed) -> CheckFault {
        CheckFault::Stream(ReplayFault::Write)
    }
}

/// Reads a log to the end of a reader. The input is freed when it returns.
fn read_log_from<L: Source>(alloc: Global, log: &mut L) -> Result<Log, CheckFault>
    ensures ok { IfOk result (λ read. HasReadLog (L.known log.old) (L.known log.new) read.lines) }
    ensures err { IfErr result (λ fault. StopsReadingLog fault (L.known log.old)
        (L.known log.new)) }
{
    let input = read_input(alloc, log)?;
    Ok(read_log(alloc, &input)?)
}

/// Reads a trace to its end and then a log, and writes the verdict on the log as one line.
///
/// The log's reader is called only once the trace is read and accepted. Both inputs are freed
/// before the check begins, and nothing is written before the verdict is known. Each call is told
/// as it is made once more. Once a read or a write has failed, no later call makes up for it.
pub fn check_stream<R: Source, L: Source, W: Sink, P: Progress>(
    alloc: Global,
    trace: &mut R,
    log: &mut L,
    writer: &mut W,
    progress: &P,
) -> Result<Verdict, CheckFault>
    ensures ok { IfOk result (λ verdict. Checked verdict (R.known trace.old) (R.known trace.new)
        (L.known log.old) (L.known log.new) (W.known writer.old) (W.known writer.new)) }
    ensures err { IfErr result (λ fault. StopsCheck fault (R.known trace.old) (R.known trace.new)
        (L.known log.old) (L.known log.new) (W.known writer.old) (W.known writer.new)) }
{
    let read = read_trace_from(alloc, trace)?;
    let lines = read_log_from(alloc, log)?;
    let verdict = check_with_progress(alloc, &read, &lines, progress)?;
    verdict.write_line(writer)?;
    Ok(verdict)
}
