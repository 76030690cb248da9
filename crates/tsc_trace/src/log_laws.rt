//! Laws of the texts of logs.
//!
//! No program needs to call these functions: their contracts are the laws, for every text and every
//! log.
ghost use Rattle.tsc_trace.specs.LogReading.{OneReading, ReadsAgain, ReadsBackLogs};

use crate::log::{Log, log_text};
use crate::log_reader::{LogFault, read_log};
use std::alloc::Global;
use tsc_time::NoMemory;

/// No bytes read as two things.
pub fn reads_as_one_thing()
    ensures { OneReading }
{}

/// The text of a log reads as this log, and as nothing else.
pub fn reads_back_what_is_written()
    ensures { ReadsBackLogs }
{}

/// Any log that a program holds reads back from its text, but for want of memory. A log of more
/// than 65,536 lines is told as too long.
pub fn reads_again(alloc: Global, log: &Log) -> Result<Log, LogFault>
    ensures { ReadsAgain log.now.lines result }
{
    match log_text(alloc, log) {
        Ok(text) => read_log(alloc, text.as_slice()),
        Err(NoMemory) => Err(LogFault::NoMemory),
    }
}
