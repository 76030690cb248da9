//! Recorded traces of the timestamp cache, the logs of what a run answered, and replays.
//!
//! A [`Trace`] is a configuration and lists of calls. [`read_trace`] reads one, [`play`] makes its
//! calls one after another over a [`Cache`](tsc_cache::Cache), and [`log_text`] is the text of the
//! [`Log`] of their answers. [`replay_stream`] does all three, from a reader to a writer.
//! [`read_log`] reads the text of a log back. Which trace bytes are is `tsc_trace_format`, how they
//! are read `tsc_trace_fast`, and what readers and writers promise `tsc_stream`.
#![tactic(auto)]

mod log;
pub mod log_laws;
mod log_reader;
mod player;
mod printer;
mod stream_replays;

pub use log::{AddOutcome, CallAnswer, Line, Lines, Log, log_text};
pub use log_reader::{LogFault, read_log};
pub use player::{add_all_fitting, add_fitting, play, play_with_progress};
pub use stream_replays::{
    ReplayFault, WriteLogFault, read_trace_from, replay, replay_stream,
    replay_stream_with_progress, write_log,
};
pub use tsc_stream::{AnyStreamFault, Limited, LimitedRead, LimitedWrite, Sink, Source};
pub use tsc_trace_fast::read_trace;
pub use tsc_trace_format::{Call, Kind, Lists, Marks, Trace, TraceFault};
