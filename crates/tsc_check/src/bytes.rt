//! Replays of recorded traces, and checks of logs, from bytes to bytes: for those who have the
//! bytes at hand, and no streams.
//!
//! [`replay_bytes`] and [`check_bytes`] say what the commands of the program write, by the readers,
//! the replay and the check of those commands. As for a command, a trace and a log have 16,777,216
//! bytes at the most.

mod byte_checks;
mod byte_replays;

pub use byte_checks::check_bytes;
pub use byte_replays::replay_bytes;

/// What is said of bytes.
#[derive(Debug, Drop)]
pub enum Outcome {
    /// What was asked for: the text of a log, or the line of a verdict.
    Text(Vec<u8>),
    /// Why the bytes were refused, as the program tells it on standard error, without the line
    /// feed.
    Refused(Vec<u8>),
}
