//! Checks of the bytes of a log against those of its trace.
ghost use Rattle.std.specs.Prelude.{◌≡◌, IfOk, IfErr, List};
ghost use Rattle.tsc_trace_format.specs.Traces.{Trace as Calls};
ghost use Rattle.tsc_trace.specs.declared.log.Line.{Line};
ghost use Rattle.tsc_check.specs.Verdict.{verdict_of};
ghost use Rattle.tsc_check.specs.Checking.{verdict_line, fault_text};
ghost use Rattle.tsc_check.specs.Bytes.{IsTrace, IsLogText, IsNoLog, HasNoVerdict, SaysOfCheck};

use crate::bytes::Outcome;
use crate::bytes::byte_replays::{LONGEST_TEXT, trace_of};
use crate::checks::check;
use crate::stream_checks::CheckFault;
use crate::verdict::Verdict;
use std::alloc::Global;
use tsc_time::NoMemory;
use tsc_trace::{Log, ReplayFault, read_log};

/// Checks a log against its trace, and gives the line of the verdict; or why the bytes are no
/// trace, or no log.
///
/// The check takes the memory of both, and of a cache, which is freed when the call returns.
pub fn check_bytes(alloc: Global, trace: &[u8], log: &[u8]) -> Result<Outcome, NoMemory>
    ensures { IfOk result (λ outcome. SaysOfCheck trace.now log.now outcome) }
{
    match verdict_on(alloc, trace, log) {
        Ok(verdict) => Ok(Outcome::Text(line_of(alloc, verdict)?)),
        Err(CheckFault::Stream(ReplayFault::NoMemory)) => Err(NoMemory),
        Err(fault) => Ok(Outcome::Refused(text_of(alloc, fault)?)),
    }
}

/// The verdict on a log.
fn verdict_on(alloc: Global, trace: &[u8], log: &[u8]) -> Result<Verdict, CheckFault>
    ensures verdict { IfOk result (λ verdict. (calls : Calls) × (lines : List Line) ×
        IsTrace trace.now calls × IsLogText log.now lines × (verdict ≡ verdict_of calls lines)) }
    ensures refused { IfErr result (λ fault. HasNoVerdict trace.now log.now fault) }
{
    let calls = trace_of(alloc, trace).map_err(CheckFault::Stream)?;
    let lines = log_of(alloc, log)?;
    Ok(check(alloc, &calls, &lines)?)
}

/// The log that bytes are.
fn log_of(alloc: Global, bytes: &[u8]) -> Result<Log, CheckFault>
    ensures log { IfOk result (λ log. IsLogText bytes.now log.lines) }
    ensures refused { IfErr result (λ fault. IsNoLog bytes.now fault) }
{
    if bytes.len() > LONGEST_TEXT {
        return Err(CheckFault::Stream(ReplayFault::TooLong));
    }
    Ok(read_log(alloc, bytes)?)
}

/// The line of a verdict.
fn line_of(alloc: Global, verdict: Verdict) -> Result<Vec<u8>, NoMemory>
    ensures { IfOk result (λ line. line.items ≡ verdict_line verdict) }
{
    Ok(format!(in alloc; "{verdict}\n")?.into_bytes())
}

/// The text of a fault.
fn text_of(alloc: Global, fault: CheckFault) -> Result<Vec<u8>, NoMemory>
    ensures { IfOk result (λ text. text.items ≡ fault_text fault) }
{
    Ok(String::format(alloc, fault)?.into_bytes())
}
