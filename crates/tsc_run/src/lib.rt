//! A trace on threads.
//!
//! [`run_trace`] runs each list of a [`Trace`](tsc_trace::Trace) on a thread of its own, over one
//! [`SharedCache`](tsc_shared::SharedCache), and gives the log of what the threads were
//! answered. [`run_stream`] does so from a reader to a writer.
#![tactic(auto)]

mod fault;
mod list;
mod start;
mod stream_runs;
mod threads;
mod trace_runs;

pub use fault::RunFault;
pub use start::{NotStarted, RefusesThreads};
pub use stream_runs::{RunStop, run_stream};
pub use trace_runs::run_trace;
