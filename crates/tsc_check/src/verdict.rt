//! What a check says of a log, and its text.
ghost use Rattle.std.specs.Prelude.{◌≡◌, ◌++◌, Some, OnOk, OnErr};
ghost use Rattle.tsc_check.specs.Checking.{verdict_line, verdict_text};
ghost use Rattle.tsc_stream.specs.Stream.{CouldNotWrite, HasWritten};

use itoa::Buffer;
use std::fmt;
use tsc_stream::{Sink, WriteFailed, write_both, write_output};

/// What a check says of a log. Lines are counted from 1.
#[derive(Clone, Copy, Debug, PartialEq, Eq)]
pub enum Verdict {
    /// Each line is true.
    Right,
    /// The least line that is not that of its call: there is no such call or no such line, or its
    /// list, its index or its kind is another.
    WrongCall(u64),
    /// The least line whose place or front cannot be.
    WrongPlace(u64),
    /// The least line that says another answer than the cache gives there.
    WrongAnswer(u64),
}

impl Verdict {
    /// Writes the text of the verdict and a line feed. It takes no memory.
    pub fn write_line<W: Sink>(self, writer: &mut W) -> Result<(), WriteFailed>
        ensures ok { OnOk result (HasWritten (W.known writer.old) (W.known writer.new)
            (verdict_line self)) }
        ensures err { OnErr result
            (CouldNotWrite (W.known writer.old) (W.known writer.new) (verdict_line self)) }
    {
        let mut digits = Buffer::new();
        let (text, number) = self.parts(&mut digits);
        write_both(writer, text.as_bytes(), number.as_bytes())?;
        write_output(writer, b"\n")
    }

    /// The text of the verdict in two parts, of which the second is a number or empty.
    fn parts<'d>(self, digits: &'d mut Buffer) -> (&'static str, &'d str)
        ensures { result.0.now ++ result.1.now ≡ verdict_text self }
    {
        match self {
            Verdict::Right => ("right", ""),
            Verdict::WrongCall(i) => ("wrong call ", digits.format(i)),
            Verdict::WrongPlace(i) => ("wrong place ", digits.format(i)),
            Verdict::WrongAnswer(i) => ("wrong answer ", digits.format(i)),
        }
    }
}

impl fmt::Display for Verdict {
    ghost output = { λ verdict. Some (verdict_text verdict) };

    fn fmt<W: fmt::Write>(&self, f: &mut fmt::Formatter<W>) -> fmt::Result {
        let mut digits = Buffer::new();
        let (text, number) = self.parts(&mut digits);
        write!(f, "{text}{number}")
    }
}
