//! Replays of recorded traces to a writer, and from a reader to a writer.
ghost use Rattle.std.specs.Prelude.{◌≡◌, ◌++◌, Some, IfOk, IfErr, OnOk, OnErr};
ghost use Rattle.tsc_trace.specs.LogText.{log_text};
ghost use Rattle.tsc_trace.specs.Replay.{Done, HasReadTrace, StopsReadingTrace, StopsReplay, StopsWriting, fault_of_input, fault_of_output, fault_of_trace, fault_text, replay_text};
ghost use Rattle.tsc_stream.specs.Stream.{CouldNotWrite, HasWritten};
ghost use Rattle.tsc_trace.specs.declared.stream_replays.WriteLogFault.TheVariants as write_log_fault;
ghost use Rattle.tsc_trace.specs.declared.stream_replays.ReplayFault.TheVariants as replay_fault;

use crate::log::{Log, log_text};
use crate::player::play_with_progress;
use itoa::Buffer;
use std::alloc::Global;
use std::error::Error;
use std::fmt;
use thiserror::Error;
use tsc_stream::{
    InputFault, NoProgress, Progress, Sink, Source, WriteFailed, read_input, write_both,
    write_output,
};
use tsc_time::NoMemory;
use tsc_trace_fast::read_trace;
use tsc_trace_format::{Trace, TraceFault};

/// Why a log was not written.
#[derive(Clone, Copy, Debug, PartialEq, Eq, Error)]
pub enum WriteLogFault {
    /// A write failed or took nothing, or there was no end after 33,554,432 writes. How much went
    /// out is not told.
    #[error("write failed")]
    Write,
    /// A growth was refused. Nothing was written.
    #[error("out of memory")]
    NoMemory,
}

impl From<NoMemory> for WriteLogFault {
    ghost from_gives = { λ _ given. given ≡ write_log_fault.NoMemory };

    fn from(_refused: NoMemory) -> WriteLogFault {
        WriteLogFault::NoMemory
    }
}

impl From<WriteFailed> for WriteLogFault {
    ghost from_gives = { λ _ given. given ≡ write_log_fault.Write };

    fn from(_failed: WriteFailed) -> WriteLogFault {
        WriteLogFault::Write
    }
}

/// Why a replay ended early. Before any fault but [`ReplayFault::Write`] nothing was written.
#[derive(Clone, Copy, Debug, PartialEq, Eq)]
pub enum ReplayFault {
    /// A read failed, or there was no end after 33,554,432 reads.
    Read,
    /// There were more than 16,777,216 bytes.
    TooLong,
    /// The bytes are not a trace. Want of memory is [`ReplayFault::NoMemory`] instead.
    Trace(TraceFault),
    /// A write failed or took nothing, or there was no end after 33,554,432 writes.
    Write,
    /// A growth was refused. Nothing was written.
    NoMemory,
}

impl ReplayFault {
    /// Writes the text of the fault. It takes no memory.
    pub fn report<W: Sink>(self, writer: &mut W) -> Result<(), WriteFailed>
        ensures ok { OnOk result (HasWritten (W.known writer.old) (W.known writer.new)
            (fault_text self)) }
        ensures err { OnErr result
            (CouldNotWrite (W.known writer.old) (W.known writer.new) (fault_text self)) }
    {
        let mut digits = Buffer::new();
        let (text, number) = self.parts(&mut digits);
        write_both(writer, text.as_bytes(), number.as_bytes())
    }

    /// The text of the fault in two parts, of which the second is a number or empty.
    fn parts<'d>(self, digits: &'d mut Buffer) -> (&'static str, &'d str)
        ensures { result.0.now ++ result.1.now ≡ fault_text self }
    {
        match self {
            ReplayFault::Read => ("read failed", ""),
            ReplayFault::TooLong => ("input too long", ""),
            ReplayFault::Trace(TraceFault::NotJson) => ("trace refused: fault 1", ""),
            ReplayFault::Trace(TraceFault::Shape(call)) => {
                ("trace refused: fault 2 at call ", digits.format(call))
            }
            ReplayFault::Trace(TraceFault::Number(call)) => {
                ("trace refused: fault 3 at call ", digits.format(call))
            }
            ReplayFault::Trace(TraceFault::Hex(call)) => {
                ("trace refused: fault 4 at call ", digits.format(call))
            }
            ReplayFault::Trace(TraceFault::Uuid(call)) => {
                ("trace refused: fault 5 at call ", digits.format(call))
            }
            ReplayFault::Trace(TraceFault::Span(call)) => {
                ("trace refused: fault 6 at call ", digits.format(call))
            }
            ReplayFault::Trace(TraceFault::Config) => ("trace refused: fault 7", ""),
            ReplayFault::Trace(TraceFault::TooLarge(call)) => {
                ("trace refused: fault 9 at call ", digits.format(call))
            }
            ReplayFault::Write => ("write failed", ""),
            ReplayFault::NoMemory | ReplayFault::Trace(TraceFault::NoMemory) => {
                ("out of memory", "")
            }
        }
    }
}

impl fmt::Display for ReplayFault {
    ghost output = { λ fault. Some (fault_text fault) };

    fn fmt<W: fmt::Write>(&self, f: &mut fmt::Formatter<W>) -> fmt::Result {
        let mut digits = Buffer::new();
        let (text, number) = self.parts(&mut digits);
        write!(f, "{text}{number}")
    }
}

impl Error for ReplayFault {}

impl From<InputFault> for ReplayFault {
    ghost from_gives = { λ fault given. given ≡ fault_of_input fault };

    fn from(fault: InputFault) -> ReplayFault {
        match fault {
            InputFault::Read => ReplayFault::Read,
            InputFault::TooLong => ReplayFault::TooLong,
            InputFault::NoMemory => ReplayFault::NoMemory,
        }
    }
}

impl From<TraceFault> for ReplayFault {
    ghost from_gives = { λ fault given. given ≡ fault_of_trace fault };

    fn from(fault: TraceFault) -> ReplayFault {
        match fault {
            TraceFault::NoMemory => ReplayFault::NoMemory,
            TraceFault::NotJson
            | TraceFault::Shape(_)
            | TraceFault::Number(_)
            | TraceFault::Hex(_)
            | TraceFault::Uuid(_)
            | TraceFault::Span(_)
            | TraceFault::Config
            | TraceFault::TooLarge(_) => ReplayFault::Trace(fault),
        }
    }
}

impl From<WriteLogFault> for ReplayFault {
    ghost from_gives = { λ fault given. given ≡ fault_of_output fault };

    fn from(fault: WriteLogFault) -> ReplayFault {
        match fault {
            WriteLogFault::Write => ReplayFault::Write,
            WriteLogFault::NoMemory => ReplayFault::NoMemory,
        }
    }
}

impl From<NoMemory> for ReplayFault {
    ghost from_gives = { λ _ given. given ≡ replay_fault.NoMemory };

    fn from(_refused: NoMemory) -> ReplayFault {
        ReplayFault::NoMemory
    }
}

impl From<WriteFailed> for ReplayFault {
    ghost from_gives = { λ _ given. given ≡ replay_fault.Write };

    fn from(_failed: WriteFailed) -> ReplayFault {
        ReplayFault::Write
    }
}

/// Writes the text of a log. The text is made whole in memory before any of it is written.
pub fn write_log<W: Sink>(alloc: Global, log: &Log, writer: &mut W) -> Result<(), WriteLogFault>
    ensures ok { OnOk result (HasWritten (W.known writer.old) (W.known writer.new)
        (log_text log.now.lines)) }
    ensures err { IfErr result (λ fault.
        StopsWriting fault (W.known writer.old) (W.known writer.new) (log_text log.now.lines)) }
{
    let text = log_text(alloc, log)?;
    Ok(write_output(writer, &text)?)
}

/// The text of the log of a trace's replay on one thread. Each call is told as soon as it was made.
fn replayed<P: Progress>(alloc: Global, trace: &Trace, progress: &P) -> Result<Vec<u8>, NoMemory>
    ensures { IfOk result (λ text. text.items ≡ replay_text trace.now) }
{
    log_text(alloc, &play_with_progress(alloc, trace, progress)?)
}

/// Replays a trace on one thread, and writes the text of its log. The text is made whole in memory
/// before any of it is written.
pub fn replay<W: Sink>(alloc: Global, trace: &Trace, writer: &mut W) -> Result<(), WriteLogFault>
    ensures ok { OnOk result (HasWritten (W.known writer.old) (W.known writer.new)
        (replay_text trace.now)) }
    ensures err { IfErr result (λ fault.
        StopsWriting fault (W.known writer.old) (W.known writer.new) (replay_text trace.now)) }
{
    let text = replayed(alloc, trace, &NoProgress)?;
    Ok(write_output(writer, &text)?)
}

/// Reads a trace to the end of a reader. It is never [`ReplayFault::Write`].
///
/// The input is freed when it returns. Once a read has failed, no later call makes up for it.
pub fn read_trace_from<R: Source>(alloc: Global, reader: &mut R) -> Result<Trace, ReplayFault>
    ensures ok { IfOk result (λ trace. HasReadTrace (R.known reader.old) (R.known reader.new)
        trace) }
    ensures err { IfErr result (λ fault. StopsReadingTrace fault (R.known reader.old)
        (R.known reader.new)) }
{
    let input = read_input(alloc, reader)?;
    Ok(read_trace(alloc, &input)?)
}

/// Reads a trace to its end, and writes the text of the log of its replay on one thread.
///
/// The input is freed before the replay begins. Once a read or a write has failed, no later call
/// makes up for it.
pub fn replay_stream<R: Source, W: Sink>(
    alloc: Global,
    reader: &mut R,
    writer: &mut W,
) -> Result<(), ReplayFault>
    ensures ok { OnOk result (Done (R.known reader.old) (R.known reader.new)
        (W.known writer.old) (W.known writer.new)) }
    ensures err { IfErr result (λ fault. StopsReplay fault (R.known reader.old) (R.known reader.new)
        (W.known writer.old) (W.known writer.new)) }
{
    replay_stream_with_progress(alloc, reader, writer, &NoProgress)
}

/// Replays as [`replay_stream`] does. `progress` is told of each call as soon as it was made.
pub fn replay_stream_with_progress<R: Source, W: Sink, P: Progress>(
    alloc: Global,
    reader: &mut R,
    writer: &mut W,
    progress: &P,
) -> Result<(), ReplayFault>
    ensures ok { OnOk result (Done (R.known reader.old) (R.known reader.new)
        (W.known writer.old) (W.known writer.new)) }
    ensures err { IfErr result (λ fault. StopsReplay fault (R.known reader.old) (R.known reader.new)
        (W.known writer.old) (W.known writer.new)) }
{
    let trace = read_trace_from(alloc, reader)?;
    let text = replayed(alloc, &trace, progress)?;
    Ok(write_output(writer, &text)?)
}
