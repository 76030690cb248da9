//! Recorded traces of the timestamp cache, read from JSON.
//!
//! A [`Trace`] is a configuration and lists of calls, and [`read_trace`] gives the one that bytes
//! are, or the [`TraceFault`] that decides why they are none. Which trace that is stands among the
//! definitions, and [`laws`] says of them that every trace can be written and is read again, and
//! that the order of members is nothing.
#![tactic(auto)]

pub mod laws;
mod read;
mod trace;

pub use read::{SpanForm, TraceFault, read_trace};
pub use trace::{Call, Kind, Lists, Marks, Trace};
