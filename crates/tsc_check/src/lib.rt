//! The check of a log against its trace: whether the log can be that of a run on threads. Over
//! streams and over bytes.
#![tactic(auto)]

mod bytes;
mod calls;
mod checks;
pub mod laws;
mod order;
mod stream_checks;
mod sweep;
mod verdict;

pub use bytes::{Outcome, check_bytes, replay_bytes};
pub use checks::{check, check_with_progress};
pub use stream_checks::{CheckFault, check_stream};
pub use verdict::Verdict;
