//! Logs, and the text of their lines.
ghost use Rattle.std.specs.Prelude.{◌≡◌, ◌≤◌, All, IfOk, length};
ghost use Rattle.tsc_trace.specs.CallAnswers.{front_of, kind_of_answer, outcome_of};
ghost use Rattle.tsc_trace.specs.LogText.{bit_text, log_text, owner_text};
ghost use Rattle.tsc_trace.specs.LogReading.{IsWritable};

use crate::printer::Printer;
use std::alloc::Global;
use std::fmt;
use std::marker::Model;
use tsc_cache::Added;
use tsc_time::{NoMemory, Timestamp, Value};
use tsc_trace_format::Kind;
use uuid::Uuid;

/// What a call answered.
#[derive(Clone, Copy, Debug, PartialEq, Eq)]
pub enum CallAnswer {
    /// The place of the Add among all Adds, counted from 0, and what it did.
    Add { place: u64, added: Added },
    /// The place of the batch among all Adds, counted from 0, and what its marks did together.
    Batch { place: u64, added: Added },
    /// How many Adds came before the lookup, and its value.
    Get { front: u64, value: Value },
    /// How many Adds came before, and where the floor stood.
    Low { front: u64, time: Timestamp },
}

/// What the answer of an Add or a batch says: its place among all Adds, counted from 0, and what it
/// did.
#[derive(Clone, Copy, Debug, PartialEq, Eq)]
pub struct AddOutcome {
    pub place: u64,
    pub added: Added,
}

impl CallAnswer {
    /// Of what kind the call is that was answered so.
    pub fn kind(self) -> Kind
        ensures { result ≡ kind_of_answer self }
    {
        match self {
            CallAnswer::Add { .. } => Kind::Add,
            CallAnswer::Batch { .. } => Kind::Batch,
            CallAnswer::Get { .. } => Kind::Get,
            CallAnswer::Low { .. } => Kind::Low,
        }
    }

    /// What it says was added.
    pub fn reported(self) -> Option<AddOutcome>
        ensures { result ≡ outcome_of self }
    {
        match self {
            CallAnswer::Add { place, added } | CallAnswer::Batch { place, added } => Some(
                AddOutcome { place, added },
            ),
            CallAnswer::Get { .. } | CallAnswer::Low { .. } => None,
        }
    }

    /// The place of an Add or a batch, or the front of a lookup.
    pub fn front(self) -> u64
        ensures { result ≡ front_of self }
    {
        match self {
            CallAnswer::Add { place, .. } | CallAnswer::Batch { place, .. } => place,
            CallAnswer::Get { front, .. } | CallAnswer::Low { front, .. } => front,
        }
    }
}

/// One line of a log: the list and the place in it of a call, both counted from 0, and its answer.
#[derive(Clone, Copy, Debug, PartialEq, Eq)]
pub struct Line {
    pub thread: u32,
    pub index: u32,
    pub said: CallAnswer,
}

/// The lines of a log: those of the first list in the order of its calls, then those of the next.
#[derive(Debug, Drop)]
pub struct Lines {
    lines: Vec<Line>,
}

impl Model for Lines {
    ghost use Rattle.std.specs.Prelude.{List};
    ghost use Rattle.tsc_trace.specs.declared.log.Line.{Line};

    ghost Value = { List Line };

    ghost view = { λ l. l.lines.items };
}

impl Lines {
    /// A log of these lines.
    pub fn of(lines: Vec<Line>) -> Lines
        ensures { result ≡ lines.items }
    {
        Lines { lines }
    }

    /// The lines as a slice.
    pub fn slice(&self) -> &[Line]
        ensures { result.now ≡ self.now }
    {
        self.lines.as_slice()
    }
}

/// What a run answered.
#[derive(Debug, Drop)]
pub struct Log {
    pub lines: Lines,
}

impl Line {
    /// The line. Whoever has one learns here that a log can hold it.
    fn held(self) -> Line
        ensures value { result ≡ self }
        ensures writable { IsWritable self }
    {
        self
    }
}

/// `1` for yes, and `0` for no.
fn bit(b: bool) -> &'static str
    ensures { result.now ≡ bit_text b }
{
    if b { "1" } else { "0" }
}

/// The name of an owner, which is written to `room`, or `none`.
fn owner_word(owner: Option<Uuid>, room: &mut [u8]) -> &str
    requires { 36 ≤ length room.old }
    ensures { result.now ≡ owner_text owner }
{
    match owner {
        Some(uuid) => uuid.hyphenated().encode_lower(room),
        None => "none",
    }
}

impl fmt::Display for CallAnswer {
    ghost use Rattle.std.specs.Prelude.{Some};
    ghost use Rattle.tsc_trace.specs.LogText.{answer_text};

    ghost output = { λ said. Some (answer_text said) };

    fn fmt<W: fmt::Write>(&self, f: &mut fmt::Formatter<W>) -> fmt::Result {
        match self {
            CallAnswer::Add { place, added } => {
                let kept = bit(added.kept);
                let rotated = bit(added.rotated);
                let evicted = added.evicted;
                write!(f, "add {place} {kept} {rotated} {evicted}")
            }
            CallAnswer::Batch { place, added } => {
                let kept = bit(added.kept);
                let rotated = bit(added.rotated);
                let evicted = added.evicted;
                write!(f, "batch {place} {kept} {rotated} {evicted}")
            }
            CallAnswer::Get { front, value } => {
                let time = value.time();
                let wall = time.wall();
                let logical = time.logical();
                let mut room = Uuid::encode_buffer();
                let owner = owner_word(value.owner(), &mut room);
                write!(f, "get {front} {wall}.{logical} {owner}")
            }
            CallAnswer::Low { front, time } => {
                let wall = time.wall();
                let logical = time.logical();
                write!(f, "low {front} {wall}.{logical}")
            }
        }
    }
}

impl fmt::Display for Line {
    ghost use Rattle.std.specs.Prelude.{Some};
    ghost use Rattle.tsc_trace.specs.LogText.{line_text};

    ghost output = { λ line. Some (line_text line) };

    fn fmt<W: fmt::Write>(&self, f: &mut fmt::Formatter<W>) -> fmt::Result {
        let thread = self.thread;
        let index = self.index;
        let said = self.said;
        write!(f, "{thread} {index} {said}")
    }
}

/// The text of a log: its lines, each ended by a line feed. The text of no lines is empty.
///
/// The text is made whole in memory, and the time is linear in it. Whoever has a text also learns
/// here that each line is one that a log can hold.
pub fn log_text(alloc: Global, log: &Log) -> Result<Vec<u8>, NoMemory>
    ensures value { IfOk result (λ text. text.items ≡ log_text log.now.lines) }
    ensures writable { IfOk result (λ _. All IsWritable log.now.lines) }
{
    let mut text = Vec::new(alloc);
    let mut printer = Printer::new();
    for line in log.lines.slice() {
        let line = line.held();
        text.extend_from_slice(printer.ended_line(&line))?;
    }
    Ok(text)
}
