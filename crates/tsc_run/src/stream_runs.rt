//! Runs of recorded traces from a reader to a writer.
ghost use Rattle.std.specs.Prelude.{◌≡◌, Some, Err, IfErr, OnOk, OnErr};
ghost use Rattle.tsc_stream.specs.Stream.{CouldNotWrite, HasWritten};
ghost use Rattle.tsc_trace.specs.Replay.{fault_of_output};
ghost use Rattle.tsc_run.specs.Ending.{Ran, StopsRun, stop_of_run, stop_text};
ghost use Rattle.tsc_run.specs.declared.stream_runs.RunStop.TheVariants.{Stream};

use crate::fault::RunFault;
use crate::start::RefusesThreads;
use crate::trace_runs::run_trace;
use std::alloc::Global;
use std::error::Error;
use std::fmt;
use std::sync::Wait;
use std::thread::Threads;
use tsc_shared::{Gate, OpenFault};
use tsc_stream::{Sink, Source, WriteFailed, write_output};
use tsc_trace::{ReplayFault, WriteLogFault, read_trace_from, write_log};

/// Why a run ended early. Only a failed write comes after a written byte.
#[derive(Clone, Copy, Debug, PartialEq, Eq)]
pub enum RunStop {
    /// Reading, the trace, writing, or want of memory, as a replay ends.
    Stream(ReplayFault),
    /// A lookup found no version of the cache. It never comes.
    NoView,
    /// There was no place left for a reader. It never comes.
    NoPlace,
    /// An Add found as many Adds in the history as the trace has. It never comes.
    HistoryFull,
    /// A thread could not be started.
    NoThread,
}

impl RunStop {
    /// Writes the text of why the run ended. It takes no memory.
    pub fn report<W: Sink>(self, writer: &mut W) -> Result<(), WriteFailed>
        ensures ok { OnOk result (HasWritten (W.known writer.old) (W.known writer.new)
            (stop_text self)) }
        ensures err { OnErr result
            (CouldNotWrite (W.known writer.old) (W.known writer.new) (stop_text self)) }
    {
        match self {
            RunStop::Stream(fault) => fault.report(writer),
            RunStop::NoView => write_output(writer, b"no view"),
            RunStop::NoPlace => write_output(writer, b"no place"),
            RunStop::HistoryFull => write_output(writer, b"history full"),
            RunStop::NoThread => write_output(writer, b"no thread"),
        }
    }
}

impl fmt::Display for RunStop {
    ghost output = { λ stop. Some (stop_text stop) };

    fn fmt<W: fmt::Write>(&self, f: &mut fmt::Formatter<W>) -> fmt::Result {
        match self {
            RunStop::Stream(fault) => write!(f, "{fault}"),
            RunStop::NoView => write!(f, "no view"),
            RunStop::NoPlace => write!(f, "no place"),
            RunStop::HistoryFull => write!(f, "history full"),
            RunStop::NoThread => write!(f, "no thread"),
        }
    }
}

impl Error for RunStop {}

impl From<ReplayFault> for RunStop {
    ghost from_gives = { λ fault given. given ≡ Stream fault };

    fn from(fault: ReplayFault) -> RunStop {
        RunStop::Stream(fault)
    }
}

impl From<WriteLogFault> for RunStop {
    ghost from_gives = { λ fault given. given ≡ Stream (fault_of_output fault) };

    fn from(fault: WriteLogFault) -> RunStop {
        RunStop::Stream(fault.into())
    }
}

impl From<RunFault> for RunStop {
    ghost from_gives = { λ fault given. given ≡ stop_of_run fault };

    /// A trace has no more lists than a cache may have seats, so a cache that was not opened is
    /// want of memory, or of a place.
    fn from(fault: RunFault) -> RunStop {
        match fault {
            RunFault::Open(OpenFault::NoPlace) => RunStop::NoPlace,
            RunFault::Open(_) | RunFault::NoMemory => RunStop::Stream(ReplayFault::NoMemory),
            RunFault::Gone => RunStop::NoView,
            RunFault::HistoryFull => RunStop::HistoryFull,
            RunFault::NoThread => RunStop::NoThread,
        }
    }
}

/// Reads a trace to its end, runs it on threads, and writes the text of the log.
///
/// The input is freed before the run begins, and the log is whole before any of it is written. Once
/// a read or a write has failed, no later call makes up for it.
pub fn run_stream<T: RefusesThreads + Threads + Wait + Sync, R: Source, W: Sink, G: Gate + Sync>(
    rt: &T,
    alloc: Global,
    reader: &mut R,
    writer: &mut W,
    gate: &G,
) -> Result<(), RunStop>
    ensures ok { OnOk result (Ran (R.known reader.old) (R.known reader.new) (W.known writer.old)
        (W.known writer.new)) }
    ensures err { IfErr result (λ stop. StopsRun stop (R.known reader.old) (R.known reader.new)
        (W.known writer.old) (W.known writer.new)) }
    ensures no_thread { result ≡ Err RunStop.NoThread → T.HasRefused rt.now }
{
    let trace = read_trace_from(alloc, reader)?;
    let log = run_trace(rt, alloc, &trace, gate)?;
    Ok(write_log(alloc, &log, writer)?)
}
