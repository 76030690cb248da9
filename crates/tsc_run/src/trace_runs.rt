//! Runs of a trace: a thread and a seat for each list of calls.
ghost use Rattle.std.specs.Prelude.{◌≡◌, ◌≤◌, Err, IfOk, IfErr, length, map};
ghost use Rattle.std.specs.List.{sum_by};
ghost use Rattle.tsc_trace_format.specs.Limits.{most_calls};
ghost use Rattle.tsc_cache.specs.History.{History};
ghost use Rattle.tsc_check.specs.Verdict.{verdict_of};
ghost use Rattle.tsc_check.specs.declared.verdict.Verdict.TheVariants.{Right};
ghost use Rattle.tsc_check.specs.TrueLog.{adds_of_list, adds_of_lists, IsRunOf};
ghost use Rattle.tsc_run.specs.Ending.{CanEndRun};

use crate::fault::RunFault;
use crate::start::RefusesThreads;
use crate::threads::run_lists;
use std::alloc::Global;
use std::sync::Wait;
use std::thread::Threads;
use tsc_shared::{Gate, SharedCache};
use tsc_trace::{Call, Lines, Log, Trace};

/// How many Adds there are in a list.
fn count_adds(calls: &[Call]) -> u64
    requires calls { length calls.now ≤ most_calls }
    ensures value { result ≡ adds_of_list calls.now }
    ensures few { result ≤ length calls.now }
{
    let mut adds = 0;
    for call in calls {
        if call.adds() {
            adds += 1;
        }
    }
    adds
}

/// How many Adds there are in some lists.
fn count_all_adds(lists: &[Vec<Call>]) -> u64
    requires calls { sum_by length (map (λ calls. calls.items) lists.now) ≤ most_calls }
    ensures value { result ≡ adds_of_lists (map (λ calls. calls.items) lists.now) }
{
    let mut adds = 0;
    for calls in lists {
        adds += count_adds(calls);
    }
    adds
}

/// The log of a trace on threads: each list runs on a thread of its own, over one shared cache, at
/// a seat of its own.
///
/// The gate is told before and after each call, also one that was refused, and before each accepted
/// Add is published, from the thread of its list. Where a thread cannot be started, those that were
/// started run to their end first. Else each list is run, and the cache is closed with all seats
/// before a fault is told: so it is known then that no Add found the history full.
pub fn run_trace<R: RefusesThreads + Threads + Wait + Sync, G: Gate + Sync>(
    rt: &R,
    alloc: Global,
    trace: &Trace,
    gate: &G,
) -> Result<Log, RunFault>
    ensures right { IfOk result (λ log. verdict_of trace.now log.lines ≡ Right) }
    ensures run { IfOk result (λ log. (h : History) × IsRunOf trace.now log.lines h) }
    ensures why { IfErr result CanEndRun }
    ensures no_thread { result ≡ Err RunFault.NoThread → R.HasRefused rt.now }
{
    let lists = trace.threads.slice();
    let adds = count_all_adds(lists);
    let (cache, seats) = SharedCache::open(alloc, trace.config, lists.len() as u32, adds)?;
    let runs = run_lists(rt, alloc, &cache, seats, lists, gate)?;
    let Ok(_closed) = cache.close(rt, runs.seats) else {
        unreachable!()
    };
    let lines = runs.reported?;
    Ok(Log {
        lines: Lines::of(lines),
    })
}
