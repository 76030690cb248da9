//! Reading all that a reader has left.
ghost use Rattle.std.specs.Prelude.{◌≡◌, ◌<◌, ◌≤◌, take, vec_len, IfOk, IfErr, OnOk};
ghost use Rattle.tsc_stream.specs.Limits.{longest_input};
ghost use Rattle.tsc_stream.specs.Stream.{HasRead, StopsReading};

use crate::stream::{Source, StreamFault};
use std::alloc::{AllocError, Global};
use thiserror::Error;

/// How many bytes an input has at the most.
const LONGEST_INPUT: usize = 16_777_216;

/// How much room the first read is given.
const FIRST_ROOM: usize = 65_536;

/// Why an input could not be read.
#[derive(Clone, Copy, Debug, PartialEq, Eq, Error)]
pub enum InputFault {
    /// A read failed.
    #[error("read failed")]
    Read,
    /// There were more than 16,777,216 bytes.
    #[error("input too long")]
    TooLong,
    /// A growth was refused.
    #[error("out of memory")]
    NoMemory,
}

/// All that a reader has left. An interrupted read is tried again.
pub fn read_input<R: Source>(alloc: Global, reader: &mut R) -> Result<Vec<u8>, InputFault>
    ensures ok { IfOk result (λ input. HasRead (R.known reader.old) (R.known reader.new)
        input.items) }
    ensures err { IfErr result (λ fault. StopsReading fault (R.known reader.old)
        (R.known reader.new)) }
{
    let mut input = Vec::new(alloc);
    let mut filled = 0usize;
    loop {
        make_room(&mut input, filled).map_err(|_| InputFault::NoMemory)?;
        match reader.read(&mut input[filled..]) {
            Ok(0) => {
                input.truncate(filled);
                return Ok(input);
            }
            Ok(count) => {
                filled += count;
                if filled > LONGEST_INPUT {
                    return Err(InputFault::TooLong);
                }
            }
            Err(StreamFault::Interrupted) => {}
            Err(StreamFault::Failed) => return Err(InputFault::Read),
        }
    }
}

/// Makes room for a read behind what is filled. What an earlier read left unfilled is room.
///
/// The room doubles, so that the zeros which it is made of cost no more than the input does.
fn make_room(input: &mut Vec<u8>, filled: usize) -> Result<(), AllocError>
    requires within { filled ≤ vec_len input.old }
    requires small { filled ≤ longest_input }
    ensures room { OnOk result (filled < vec_len input.new) }
    ensures front { OnOk result (take filled input.new.items ≡ take filled input.old.items) }
{
    if filled < input.len() {
        return Ok(());
    }
    let room = (2 * filled).max(FIRST_ROOM).min(LONGEST_INPUT + 1);
    input.resize(room, 0)
}
