//! Reads the text of a log. A line is right only as it would be written.
ghost use Rattle.std.specs.Prelude.{◌≡◌, ◌⊎◌, ◌++◌, ◌∷◌, MatchOption, MatchResult};
ghost use Rattle.tsc_trace.specs.LogText.{line_feed, line_text};
ghost use Rattle.tsc_trace.specs.LogReading.{IsWritable, ReadsAs};
ghost use Rattle.tsc_trace.specs.ReadingBack.{AddsLine, IsNoLineText, IsWithout, ReadsBack};
ghost use Rattle.tsc_trace.specs.declared.log_reader.LogFault.TheVariants.{NoMemory};

mod line;

use crate::log::{Line, Lines, Log};
use crate::printer::Printer;
use line::read_line;
use std::alloc::{AllocError, AllocFailed, Global};
use thiserror::Error;

/// How many lines a log has at the most.
const MOST_LINES: u64 = 65_536;

/// Why bytes are not the text of a log.
#[derive(Clone, Copy, Debug, PartialEq, Eq, Error)]
pub enum LogFault {
    /// A line is not of the form that `log_text` writes, or has no line feed. The number is that of
    /// the first such line, counted from 1.
    #[error("line {0} is not a line of a log")]
    Text(u64),
    /// Bytes follow the 65,536 lines that a log has at the most.
    #[error("too many lines")]
    Length,
    /// A growth was refused.
    #[error("out of memory")]
    NoMemory,
}

impl From<AllocError> for LogFault {
    ghost from_gives = { λ _ e. e ≡ NoMemory };

    fn from(_refused: AllocError) -> LogFault {
        LogFault::NoMemory
    }
}

impl<T: Drop> From<AllocFailed<T>> for LogFault {
    ghost from_gives = { λ _ e. e ≡ NoMemory };

    fn from(_refused: AllocFailed<T>) -> LogFault {
        LogFault::NoMemory
    }
}

/// A log that is being read: its lines so far, and room for the text of one.
#[derive(Drop)]
struct Reader {
    lines: Vec<Line>,
    printer: Printer,
}

impl Reader {
    /// Adds the line that has just this text, and stands at this number.
    fn add_line(&mut self, number: u64, text: &[u8]) -> Result<(), LogFault>
        ensures { MatchResult result
            (λ _. AddsLine text.now self.old.lines.items self.new.lines.items)
            (λ fault. (fault ≡ LogFault.NoMemory)
            ⊎ ((fault ≡ LogFault.Text number) × IsNoLineText text.now)) }
    {
        // The line is taken apart because the check knows no plan for a push of a whole one.
        let Line {
            thread,
            index,
            said,
        } = exact_line(number, text, &mut self.printer)?;
        self.lines.push(Line {
            thread,
            index,
            said,
        })?;
        Ok(())
    }
}

/// The log whose text these bytes are, as `log_text` writes it.
///
/// The empty text is the log without lines. The time is linear in the bytes, and the memory is that
/// of the lines and of the text of one line.
pub fn read_log(alloc: Global, bytes: &[u8]) -> Result<Log, LogFault>
    ensures { ReadsAs bytes.now result }
{
    let mut reader = Reader {
        lines: Vec::new(alloc),
        printer: Printer::new(),
    };
    let mut number: u64 = 0;
    let mut rest = bytes;
    while !rest.is_empty() {
        if number == MOST_LINES {
            return Err(LogFault::Length);
        }
        number += 1;
        let (text, after) = cut_line(rest).ok_or(LogFault::Text(number))?;
        reader.add_line(number, text)?;
        rest = after;
    }
    Ok(Log {
        lines: Lines::of(reader.lines),
    })
}

/// The bytes before the first line feed, and those behind it.
fn cut_line(text: &[u8]) -> Option<(&[u8], &[u8])>
    ensures { MatchOption result (IsWithout line_feed text.now) (λ parts.
        IsWithout line_feed parts.0.now × (text.now ≡ parts.0.now ++ line_feed ∷ parts.1.now)) }
{
    let end = text.iter().position(|byte| *byte == b'\n')?;
    Some((&text[..end], &text[end + 1..]))
}

/// The line whose text, or a looser spelling of it, these bytes are.
fn loose_line(text: &[u8]) -> Option<Line>
    ensures { ReadsBack IsWritable line_text text.now result }
{
    read_line(str::from_utf8(text).ok()?)
}

/// The line that has just this text, and stands at this number. What `printer` holds doesn't
/// matter.
fn exact_line(number: u64, text: &[u8], printer: &mut Printer) -> Result<Line, LogFault>
    ensures { MatchResult result (λ line. IsWritable line × (text.now ≡ line_text line)) (λ fault.
        (fault ≡ LogFault.NoMemory) ⊎ ((fault ≡ LogFault.Text number) × IsNoLineText text.now)) }
{
    let line = loose_line(text).ok_or(LogFault::Text(number))?;
    if printer.line(&line) != text {
        return Err(LogFault::Text(number));
    }
    Ok(line)
}
