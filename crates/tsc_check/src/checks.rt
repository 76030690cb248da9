//! Checks of a log against its trace. Of two wrong lines the first one decides.
ghost use Rattle.std.specs.Prelude.{◌≡◌, ◌<◌, ◌+◌, ◌^◌, IfOk, IfSome};
ghost use Rattle.tsc_check.specs.Verdict.{named_or, verdict_of};
ghost use Rattle.tsc_check.specs.declared.verdict.Verdict.TheVariants.{Right, WrongAnswer};

use crate::calls::other_line;
use crate::order::Order;
use crate::sweep::least_untrue;
use crate::verdict::Verdict;
use std::alloc::Global;
use tsc_stream::{NoProgress, Progress};
use tsc_time::NoMemory;
use tsc_trace::{Log, Trace};

/// The verdict on answers, by the least line whose answer is wrong.
fn verdict_on_answers(wrong: Option<usize>) -> Verdict
    requires { IfSome wrong (λ i. i + 1 < 2 ^ 64) }
    ensures { result ≡ named_or WrongAnswer wrong Right }
{
    match wrong {
        Some(i) => Verdict::WrongAnswer(i as u64 + 1),
        None => Verdict::Right,
    }
}

/// The verdict on a log beside the trace that it is of.
///
/// One pass over a cache answers each line after as many of the Adds as its place or its front
/// tells. The memory is that of the cache's pages, and some words for each line.
pub fn check(alloc: Global, trace: &Trace, log: &Log) -> Result<Verdict, NoMemory>
    ensures { IfOk result (λ verdict. verdict ≡ verdict_of trace.now log.now.lines) }
{
    check_with_progress(alloc, trace, log, &NoProgress)
}

/// The verdict as [`check`] gives it. `progress` is told of each call as it is made once more.
pub fn check_with_progress<P: Progress>(
    alloc: Global,
    trace: &Trace,
    log: &Log,
    progress: &P,
) -> Result<Verdict, NoMemory>
    ensures { IfOk result (λ verdict. verdict ≡ verdict_of trace.now log.now.lines) }
{
    let lines = log.lines.slice();
    if let Some(i) = other_line(trace, lines) {
        return Ok(Verdict::WrongCall(i as u64 + 1));
    }
    let mut order = Order::new(alloc, lines, trace.threads.len())?;
    if let Some(i) = order.put_all(lines)? {
        return Ok(Verdict::WrongPlace(i as u64 + 1));
    }
    Ok(verdict_on_answers(least_untrue(alloc, trace, lines, &order, progress)?))
}
