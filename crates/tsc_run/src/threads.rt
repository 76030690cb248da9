//! A thread for each list.
ghost use Rattle.std.specs.Prelude.{◌≡◌, ◌≤◌, ◌++◌, ◌∷◌, [], IfOk, IfErr, IfSome, IfNone, map, vec_capacity};
ghost use Rattle.tsc_run.specs.Runs.{CanRunAll, EndsLists, Joins};

use crate::fault::RunFault;
use crate::list::ListRun;
use crate::start::{NotStarted, RefusesThreads, RunContext, start_list};
use std::alloc::Global;
use std::sync::Wait;
use std::thread;
use std::thread::{Scope, Threads};
use tsc_shared::{Gate, Seat, SharedCache};
use tsc_trace::{Call, Line};

/// What the runs of some lists leave: their seats, and their lines in a row, or why one of them
/// ended early.
#[derive(Drop)]
pub(crate) struct AllRuns {
    pub seats: Vec<Seat>,
    pub reported: Result<Vec<Line>, RunFault>,
}

/// The lines of some lists with those of one more behind them, or why one of these runs ended
/// early.
fn joined(
    reported: Result<Vec<Line>, RunFault>,
    more: Result<Vec<Line>, RunFault>,
) -> Result<Vec<Line>, RunFault>
    ensures { Joins reported more result }
{
    let mut lines = reported?;
    let mut last = more?;
    lines.append(&mut last)?;
    Ok(lines)
}

/// The last of some lists, and those before it.
fn split_last(lists: &[Vec<Call>]) -> Option<(&[Call], &[Vec<Call>])>
    ensures some { IfSome result (λ p. map (λ calls. calls.items) lists.now ≡
        map (λ calls. calls.items) p.1.now ++ p.0.now ∷ []) }
    ensures none { IfNone result (lists.now ≡ []) }
{
    let (last, others) = lists.split_last()?;
    Some((last.as_slice(), others))
}

/// Starts a thread for the last list, has the others run, and waits for all. All seats come back.
fn run_in<'s, E, R: Threads + Wait + Sync, G: Gate + Sync>(
    scope: &Scope<'s, E>,
    run: &RunContext<'s, R, G>,
    mut seats: Vec<Seat>,
    lists: &'s [Vec<Call>],
) -> Result<AllRuns, NotStarted>
    requires { CanRunAll run.now.cache.now seats.items lists.now }
    ensures runs { IfOk result (λ runs. EndsLists run.now.cache.now
        (map (λ calls. calls.items) lists.now) runs.reported runs.seats.items) }
    ensures room { IfOk result (λ runs. vec_capacity seats ≤ vec_capacity runs.seats) }
{
    let Some(seat) = seats.pop() else {
        return Ok(AllRuns {
            seats,
            reported: Ok(Vec::new(run.alloc)),
        });
    };
    let Some((calls, others)) = split_last(lists) else {
        unreachable!()
    };
    let child = start_list(scope, run, seat, calls)?;
    let runs = run_in(scope, run, seats, others);
    let last = child.join(run.rt);
    let AllRuns {
        mut seats,
        reported,
    } = runs?;
    let ListRun {
        seat,
        reported: more,
    } = last;
    let Ok(()) = seats.push(seat) else {
        unreachable!()
    };
    Ok(AllRuns {
        seats,
        reported: joined(reported, more),
    })
}

/// Runs each list on a thread of its own, at the seat with the list's number, and waits for all.
pub(crate) fn run_lists<R: RefusesThreads + Threads + Wait + Sync, G: Gate + Sync>(
    rt: &R,
    alloc: Global,
    cache: &SharedCache,
    seats: Vec<Seat>,
    lists: &[Vec<Call>],
    gate: &G,
) -> Result<AllRuns, RunFault>
    requires { CanRunAll cache.now seats.items lists.now }
    ensures runs { IfOk result (λ runs. EndsLists cache.now (map (λ calls. calls.items) lists.now)
        runs.reported runs.seats.items) }
    ensures why { IfErr result (λ why. (why ≡ RunFault.NoThread) × R.HasRefused rt.now) }
{
    let ended = thread::scope(
        thread::scope_env(),
        rt,
        |scope| -> Result<AllRuns, NotStarted>
            requires { CanRunAll cache.now seats.items lists.now }
            ensures { IfOk result (λ runs. EndsLists cache.entry.now
                (map (λ calls. calls.items) lists.entry.now) runs.reported runs.seats.items) }
        {
            let run = RunContext {
                rt,
                alloc,
                cache,
                gate,
            };
            run_in(scope, &run, seats, lists)
        },
    );
    match ended {
        Ok(runs) => Ok(runs),
        Err(start) => Err(rt.fault_of(start)),
    }
}
