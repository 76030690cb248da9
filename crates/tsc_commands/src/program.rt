//! The program, over its words, a file system, and the streams that it writes to.
ghost use Rattle.std.specs.Prelude.{◌≡◌};
ghost use Rattle.std.specs.Process.{exit_status};
ghost use Rattle.tsc_commands.specs.Program.{AskFor, EndsCheckOf, GoesOver, RunsProgram, fault_of_open, texts_of};
ghost use Rattle.tsc_commands.specs.Replay.{EndsReplay, Reports, fault_line, status_of};
ghost use Rattle.tsc_commands.specs.Run.{EndsRun};
ghost use Rattle.tsc_commands.specs.Words.{asked_as};

use crate::check::check_with_progress;
use crate::cli::{Asked, WordsFault, request};
use crate::file_system::{FileSystem, OpenFault};
use crate::replay::{replay_with_progress, report_fault, status_of};
use crate::run::run_command;
use crate::standard_streams::Streams;
use std::alloc::Global;
use std::process::ExitCode;
use std::sync::Wait;
use std::thread::Threads;
use tsc_run::RefusesThreads;
use tsc_shared::Gate;
use tsc_stream::{Progress, Sink, Source, write_output};
use tsc_trace::ReplayFault;

/// Does what the program's words ask for, and gives the code with which the process is to end,
/// whose number is the exit status.
///
/// `words` are the words, its own name first, or why they are not to be had. Only a log or a
/// verdict goes to the output. A fault is told by one line on the other stream, and telling it
/// changes no status. `rt` starts the threads of a run, for whose end the call waits. `meter` is
/// told of each call that a command makes.
pub fn program<
    T: RefusesThreads + Threads + Wait + Sync,
    P: FileSystem,
    W: Sink,
    E: Sink,
    M: Progress + Gate + Sync,
>(
    rt: &T,
    alloc: Global,
    words: Result<Vec<String>, WordsFault>,
    files: &P,
    streams: &mut Streams<W, E>,
    meter: &M,
) -> ExitCode
    ensures { RunsProgram (texts_of words) (T.HasRefused rt.now) (P.opens files.now)
        (exit_status result)
        (W.known streams.old.output.writer) (W.known streams.new.output.writer)
        (E.known streams.old.errors.writer) (E.known streams.new.errors.writer) }
{
    let status = do_asked(rt, alloc, words, files, streams, meter);
    ExitCode::from(status)
}

/// Does what the words ask for, and gives the exit status.
fn do_asked<
    T: RefusesThreads + Threads + Wait + Sync,
    P: FileSystem,
    W: Sink,
    E: Sink,
    M: Progress + Gate + Sync,
>(
    rt: &T,
    alloc: Global,
    words: Result<Vec<String>, WordsFault>,
    files: &P,
    streams: &mut Streams<W, E>,
    meter: &M,
) -> u8
    ensures { RunsProgram (texts_of words) (T.HasRefused rt.now) (P.opens files.now) result
        (W.known streams.old.output.writer) (W.known streams.new.output.writer)
        (E.known streams.old.errors.writer) (E.known streams.new.errors.writer) }
{
    match asked(alloc, words) {
        Ok(Asked::Replay { file }) => replay_file(alloc, files, &file, streams, meter),
        Ok(Asked::Run { file }) => run_file(rt, alloc, files, &file, streams, meter),
        Ok(Asked::Check { trace, log }) => {
            check_files(alloc, files, &trace, &log, streams, meter)
        }
        Err(fault) => {
            report_line(&mut streams.errors.writer, fault.line());
            fault.status()
        }
    }
}

/// What the words ask for, where they are to be had.
fn asked(alloc: Global, words: Result<Vec<String>, WordsFault>) -> Result<Asked, WordsFault>
    ensures { AskFor (texts_of words) (asked_as result) }
{
    request(alloc, &words?)
}

/// Replays the trace in the file of a name.
fn replay_file<P: FileSystem, W: Sink, E: Sink, M: Progress>(
    alloc: Global,
    files: &P,
    file: &str,
    streams: &mut Streams<W, E>,
    meter: &M,
) -> u8
    ensures { GoesOver EndsReplay (P.opens files.now file.now) result
        (W.known streams.old.output.writer) (W.known streams.new.output.writer)
        (E.known streams.old.errors.writer) (E.known streams.new.errors.writer) }
{
    match files.open(file) {
        Ok(mut reader) => replay_with_progress(
            alloc,
            &mut reader,
            &mut streams.output.writer,
            &mut streams.errors.writer,
            meter,
        ),
        Err(fault) => end_unopened(&mut streams.errors.writer, fault),
    }
}

/// Runs the trace in the file of a name on threads.
fn run_file<
    T: RefusesThreads + Threads + Wait + Sync,
    P: FileSystem,
    W: Sink,
    E: Sink,
    M: Gate + Sync,
>(rt: &T, alloc: Global, files: &P, file: &str, streams: &mut Streams<W, E>, meter: &M) -> u8
    ensures { GoesOver (EndsRun (T.HasRefused rt.now)) (P.opens files.now file.now) result
        (W.known streams.old.output.writer) (W.known streams.new.output.writer)
        (E.known streams.old.errors.writer) (E.known streams.new.errors.writer) }
{
    match files.open(file) {
        Ok(mut reader) => run_command(
            rt,
            alloc,
            &mut reader,
            &mut streams.output.writer,
            &mut streams.errors.writer,
            meter,
        ),
        Err(fault) => end_unopened(&mut streams.errors.writer, fault),
    }
}

/// Checks the log in the file of a name against the trace in that of another, which is opened
/// first. Neither is read before both are opened.
fn check_files<P: FileSystem, W: Sink, E: Sink, M: Progress>(
    alloc: Global,
    files: &P,
    trace: &str,
    log: &str,
    streams: &mut Streams<W, E>,
    meter: &M,
) -> u8
    ensures { GoesOver (EndsCheckOf (P.opens files.now log.now))
        (P.opens files.now trace.now) result
        (W.known streams.old.output.writer) (W.known streams.new.output.writer)
        (E.known streams.old.errors.writer) (E.known streams.new.errors.writer) }
{
    match files.open(trace) {
        Ok(mut reader) => check_file(alloc, &mut reader, files, log, streams, meter),
        Err(fault) => end_unopened(&mut streams.errors.writer, fault),
    }
}

/// Checks the log in the file of a name against the trace of a reader, which is called only once
/// that file is opened.
fn check_file<R: Source, P: FileSystem, W: Sink, E: Sink, M: Progress>(
    alloc: Global,
    trace: &mut R,
    files: &P,
    log: &str,
    streams: &mut Streams<W, E>,
    meter: &M,
) -> u8
    ensures { EndsCheckOf (P.opens files.now log.now) result (R.known trace.old) (R.known trace.new)
        (W.known streams.old.output.writer) (W.known streams.new.output.writer)
        (E.known streams.old.errors.writer) (E.known streams.new.errors.writer) }
{
    match files.open(log) {
        Ok(mut reader) => check_with_progress(
            alloc,
            trace,
            &mut reader,
            &mut streams.output.writer,
            &mut streams.errors.writer,
            meter,
        ),
        Err(fault) => end_unopened(&mut streams.errors.writer, fault),
    }
}

/// Tells why a file was not opened, and gives the exit status.
fn end_unopened<E: Sink>(errors: &mut E, fault: OpenFault) -> u8
    ensures status { result ≡ status_of (fault_of_open fault) }
    ensures reported { Reports (fault_line (fault_of_open fault)) (E.known errors.old)
        (E.known errors.new) }
{
    let fault = ending_of(fault);
    report_fault(errors, fault);
    status_of(fault)
}

/// How a command ends whose file was not opened.
fn ending_of(fault: OpenFault) -> ReplayFault
    ensures { result ≡ fault_of_open fault }
{
    match fault {
        OpenFault::Unopened => ReplayFault::Read,
        OpenFault::NoMemory => ReplayFault::NoMemory,
    }
}

/// Tells a line, where it can be written.
fn report_line<E: Sink>(errors: &mut E, line: &str)
    ensures { Reports line.now (E.known errors.old) (E.known errors.new) }
{
    let _ = write_output(errors, line.as_bytes());
}
