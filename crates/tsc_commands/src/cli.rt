//! What the program's words ask for.
ghost use Rattle.std.specs.Prelude.{◌≡◌, ◌↔◌, ◌++◌, ◌∷◌, [], IfErr, IfOk, Some, false, map, string_bytes};
ghost use Rattle.clap.specs.Words.{FailsBy, app_of, fault_of, first_value, found_of, rows_of, shape_of, subcommand_of, subcommand_rows_of};
ghost use Rattle.clap.specs.declared.builder.Command.TheViews.{out-Command as fields_of};
ghost use Rattle.tsc_trace.specs.LogText.{line_feed};
ghost use Rattle.tsc_commands.specs.Words.{Answers, Explains, asks, request_in, refusal_status, refusal_text};
ghost use Rattle.tsc_commands.specs.declared.cli.WordsFault.TheVariants.{NoMemory};
ghost use Rattle.tsc_commands.specs.Commands.{app_of_files, app_of_replay, bare_app, check_found, one_file_shape, program_app, request_for, request_found, trace_and_log_shape};

use clap::error::ErrorKind;
use clap::{Arg, ArgMatches, Command, Error};
use std::alloc::{AllocError, Global};

/// What the program is asked to do.
#[derive(Debug, PartialEq, Eq, Drop)]
pub enum Asked {
    /// Replay the trace in a file.
    Replay { file: String },
    /// Run the trace in a file on threads.
    Run { file: String },
    /// Check the log in one file against the trace in another.
    Check { trace: String, log: String },
}

/// Why the program is asked to do nothing.
#[derive(Clone, Copy, Debug, PartialEq, Eq)]
pub enum WordsFault {
    /// The words ask for nothing. A call for help is one of these.
    Wrong,
    /// A growth was refused.
    NoMemory,
}

impl WordsFault {
    /// The exit status: 2 for wrong words, 5 for want of memory.
    pub fn status(self) -> u8
        ensures { result ≡ refusal_status self }
    {
        match self {
            WordsFault::Wrong => 2,
            WordsFault::NoMemory => 5,
        }
    }

    /// The line that tells the fault, with its line feed.
    pub fn line(self) -> &'static str
        ensures { result.now ≡ refusal_text self ++ line_feed ∷ [] }
    {
        match self {
            WordsFault::Wrong => "usage: tscache replay FILE, run FILE or check FILE LOG\n",
            WordsFault::NoMemory => "out of memory\n",
        }
    }
}

impl From<AllocError> for WordsFault {
    ghost from_gives = { λ _ given. given ≡ NoMemory };

    fn from(_refused: AllocError) -> WordsFault {
        WordsFault::NoMemory
    }
}

/// Reads the program's words, of which the first is its own name. An `Err` holds the exit status.
pub fn parse(alloc: Global, words: &[String]) -> Result<Asked, u8>
    ensures ok { IfOk result (λ asked. request_in (map string_bytes words.now) ≡
        Some (asks asked)) }
    ensures err { IfErr result (λ status. (fault : WordsFault) × (status ≡ refusal_status fault)
        × Explains (request_in (map string_bytes words.now)) fault) }
{
    request(alloc, words).map_err(|fault| fault.status())
}

/// What the program's words ask for, of which the first is its own name.
pub fn request(alloc: Global, words: &[String]) -> Result<Asked, WordsFault>
    ensures { Answers asks (request_in (map string_bytes words.now)) result }
{
    match matches_of(alloc, words) {
        Ok(matches) => request_of(alloc, &matches),
        Err(error) => Err(fault_of(error.kind())),
    }
}

/// Why the words ask for nothing, where clap gives an error of this kind.
fn fault_of(kind: ErrorKind) -> WordsFault
    ensures { (result ≡ WordsFault.NoMemory) ↔ (kind ≡ ErrorKind.OutOfMemory) }
{
    match kind {
        ErrorKind::OutOfMemory => WordsFault::NoMemory,
        _ => WordsFault::Wrong,
    }
}

/// What clap finds in the words.
fn matches_of<'a>(alloc: Global, words: &'a [String]) -> Result<ArgMatches<'a>, Error>
    ensures faults { FailsBy (fault_of program_app (map string_bytes words.entry.now)) result }
    ensures found { IfOk result (λ matches.
        subcommand_rows_of matches ≡ subcommand_of program_app (map string_bytes words.entry.now)) }
{
    clap_command(alloc)?.try_get_matches_from(words)
}

/// The words that clap takes.
fn clap_command<'a>(alloc: Global) -> Result<Command<'a>, AllocError>
    ensures { IfOk result (λ command. app_of command ≡ program_app) }
{
    let command = with_files(alloc)?;
    command.subcommand(trace_and_log(alloc, "check")?)
}

/// The program with its two subcommands that take one file.
fn with_files<'a>(alloc: Global) -> Result<Command<'a>, AllocError>
    ensures { IfOk result (λ command. app_of command ≡ app_of_files) }
{
    let command = with_replay(alloc)?;
    command.subcommand(one_file(alloc, "run")?)
}

/// The program with the first of its subcommands.
fn with_replay<'a>(alloc: Global) -> Result<Command<'a>, AllocError>
    ensures { IfOk result (λ command. app_of command ≡ app_of_replay) }
{
    bare_command(alloc).subcommand(one_file(alloc, "replay")?)
}

/// The program without its subcommands. It takes no call for help: one line tells how the program
/// is called.
fn bare_command<'a>(alloc: Global) -> Command<'a>
    ensures { app_of result ≡ bare_app }
{
    Command::new(alloc, "tscache")
        .subcommand_required(true)
        .disable_help_flag(true)
        .disable_help_subcommand(true)
}

/// A subcommand that takes one file.
fn one_file<'a>(alloc: Global, name: &'a str) -> Result<Command<'a>, AllocError>
    ensures shape { IfOk result (λ command. shape_of command ≡ one_file_shape name.entry.now) }
    ensures local { IfOk result (λ command. (fields_of command).has_globals ≡ false) }
{
    let file = Arg::new(alloc, "file").required(true);
    Command::new(alloc, name).arg(file)
}

/// A subcommand that takes a trace and a log.
fn trace_and_log<'a>(alloc: Global, name: &'a str) -> Result<Command<'a>, AllocError>
    ensures shape { IfOk result (λ command. shape_of command ≡ trace_and_log_shape name.entry.now) }
    ensures local { IfOk result (λ command. (fields_of command).has_globals ≡ false) }
{
    let trace = Arg::new(alloc, "trace").required(true);
    let log = Arg::new(alloc, "log").required(true);
    Command::new(alloc, name).arg(trace)?.arg(log)
}

/// What the words ask for, where clap took them.
fn request_of(alloc: Global, matches: &ArgMatches<'_>) -> Result<Asked, WordsFault>
    ensures { Answers asks (request_found (subcommand_rows_of matches.now)) result }
{
    match matches.subcommand() {
        Some((name, found)) => request_for(alloc, name, found),
        None => Err(WordsFault::Wrong),
    }
}

/// What the subcommand of a name asks for, with what clap found for it.
fn request_for(alloc: Global, name: &str, found: &ArgMatches<'_>) -> Result<Asked, WordsFault>
    ensures { Answers asks (request_for name.now (rows_of (found_of found.now))) result }
{
    match name {
        "replay" => {
            let file = text(alloc, found, "file")?;
            Ok(Asked::Replay { file })
        }
        "run" => {
            let file = text(alloc, found, "file")?;
            Ok(Asked::Run { file })
        }
        "check" => check_of(alloc, found),
        _ => Err(WordsFault::Wrong),
    }
}

/// The check of a trace and a log, with what clap found for them.
fn check_of(alloc: Global, found: &ArgMatches<'_>) -> Result<Asked, WordsFault>
    ensures { Answers asks (check_found (rows_of (found_of found.now))) result }
{
    let trace = text(alloc, found, "trace")?;
    let log = text(alloc, found, "log")?;
    Ok(Asked::Check { trace, log })
}

/// A copy of the value of an argument.
fn text(alloc: Global, matches: &ArgMatches<'_>, id: &str) -> Result<String, WordsFault>
    ensures { Answers string_bytes (first_value (found_of matches.now) id.now) result }
{
    match matches.get_str(id) {
        Some(found) => Ok(String::from_str(alloc, found)?),
        None => Err(WordsFault::Wrong),
    }
}
