//! Recorded traces, read in one pass.
//!
//! [`read_trace`] gives the [`Trace`] that bytes are, or the [`TraceFault`] that decides why they
//! are none. It promises what the [reader of JSON values](tsc_trace_format::read_trace) does, and
//! where a trace has no fault, it takes it straight from the tokens of the text, with no JSON value
//! in between. That pass alone is [`quick_trace`], which is public so that tests reach it.
#![tactic(auto)]

mod quick;
mod reader;

pub use quick::quick_trace;
pub use reader::read_trace;
pub use tsc_trace_format::{Trace, TraceFault};
