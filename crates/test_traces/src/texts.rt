//! The text of each fault, word for word: no contract speaks of it.
use crate::support::*;
use test_support::all_read;
use tsc_run::RunFault;
use tsc_shared::OpenFault;
use tsc_trace::TraceFault::{Config, Hex, NotJson, Number, Shape, Span, TooLarge, Uuid};

#[test]
fn texts_of_faults(rt: HostRuntime) -> Result<(), Fail> {
    all_read!(rt;
        [NotJson, Shape(0), Number(1), Hex(23), Uuid(4), Span(5), Config, TooLarge(65_536)] =>
            "not JSON|a wrong shape at call 0|a number out of range at call 1|\
wrong hexadecimal digits at call 23|a wrong UUID at call 4|a wrong span at call 5|\
a wrong configuration|a span too large for a page at call 65536|",
        [LogFault::Text(65_536), LogFault::Length, LogFault::NoMemory] =>
            "line 65536 is not a line of a log|too many lines|out of memory|",
        [InputFault::Read, InputFault::TooLong, InputFault::NoMemory] =>
            "read failed|input too long|out of memory|",
        [WriteLogFault::Write, WriteLogFault::NoMemory] => "write failed|out of memory|",
        [WriteFailed] => "a write failed|",
        [RunFault::Open(OpenFault::Seats), RunFault::NoMemory, RunFault::Gone, RunFault::NoThread] =>
            "seats are 1 to 64|out of memory|no view|no thread|");
    Ok(())
}
