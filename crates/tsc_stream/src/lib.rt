//! Readers and writers that may be called a bounded number of times, and fail for good.
//!
//! No clause over `std`'s `Read` and `Write` can say that a call failed. [`Source`] and [`Sink`]
//! can, so a contract over them tells why a command gave up. A [`Limited`] reader or writer is one
//! of `std` with its calls counted, which fails only where the one inside failed, or where it was
//! called as often as it may be. With which troubles the one inside may end tells [`LimitedRead`],
//! or [`LimitedWrite`]: bytes in memory are read without any. [`read_input`] reads all that a
//! reader has left, and [`write_output`] writes a whole text. A [`Progress`] is told how far a long
//! work is.
#![tactic(auto)]

pub mod fault_injection;
mod inner;
mod input;
pub mod laws;
mod limited;
mod output;
mod progress;
mod stream;

pub use inner::{AnyStreamFault, LimitedRead, LimitedWrite};
pub use input::{InputFault, read_input};
pub use limited::Limited;
pub use output::{WriteFailed, write_both, write_output};
pub use progress::{NoProgress, Progress};
pub use stream::{Phase, Sink, Source, StreamFault};
