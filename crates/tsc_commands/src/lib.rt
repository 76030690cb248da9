//! The commands of the timestamp cache's program, from readers to writers, and the program over any
//! words and any file system.
//!
//! [`program::program`] reads the words, opens the files that they name in a [`FileSystem`], and
//! hands them to a command: [`replay_command`] makes the calls of a trace on one thread,
//! [`run_command`] those of each list on a thread of its own, and [`check_command`] holds a log
//! against its trace.
//! Each gives the exit status, and tells a fault by one line. [`cli::parse`] tells what words ask
//! for. [`SystemFiles`] and [`fetch_words`] are the files and the words of the system, and
//! [`standard_output`] and [`standard_errors`] where the program writes. A [`Meter`] tells at a
//! terminal how far a command is.
#![tactic(auto)]

mod check;
pub mod cli;
mod file_system;
mod meter;
pub mod program;
mod replay;
mod run;
mod standard_streams;
mod system;

pub use check::{check_command, check_with_progress, report_check_fault, status_of_check_fault};
pub use cli::{Asked, WordsFault, request};
pub use file_system::{FileSystem, OpenFault};
pub use meter::{Meter, NoMeter};
pub use replay::{replay_command, replay_with_progress, report_fault};
pub use run::{report_stop, run_command};
pub use standard_streams::{Errors, Output, Streams};
pub use system::{SystemFiles, fetch_words, standard_errors, standard_output};
