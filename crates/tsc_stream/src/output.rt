//! Writing a whole text.
ghost use Rattle.std.specs.Prelude.{◌++◌, OnOk, OnErr};
ghost use Rattle.tsc_stream.specs.Stream.{CouldNotWrite, HasWritten};

use crate::stream::{Sink, StreamFault};
use thiserror::Error;

/// A writer did not take a whole text.
#[derive(Clone, Copy, Debug, PartialEq, Eq, Error)]
#[error("a write failed")]
pub struct WriteFailed;

/// Writes all of a text. An interrupted write is tried again.
pub fn write_output<W: Sink>(writer: &mut W, text: &[u8]) -> Result<(), WriteFailed>
    ensures ok { OnOk result (HasWritten (W.known writer.old) (W.known writer.new) text.now) }
    ensures err { OnErr result (CouldNotWrite (W.known writer.old) (W.known writer.new) text.now) }
{
    let mut rest = text;
    while !rest.is_empty() {
        match writer.write(rest) {
            Ok(count) => rest = &rest[count..],
            Err(StreamFault::Interrupted) => {}
            Err(StreamFault::Failed) => return Err(WriteFailed),
        }
    }
    Ok(())
}

/// Writes two texts, one behind the other.
pub fn write_both<W: Sink>(writer: &mut W, first: &[u8], second: &[u8]) -> Result<(), WriteFailed>
    ensures ok { OnOk result (HasWritten (W.known writer.old) (W.known writer.new)
        (first.now ++ second.now)) }
    ensures err { OnErr result (CouldNotWrite (W.known writer.old) (W.known writer.new)
        (first.now ++ second.now)) }
{
    write_output(writer, first)?;
    write_output(writer, second)
}
