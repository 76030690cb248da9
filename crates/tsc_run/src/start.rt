//! The thread of one list.
ghost use Rattle.std.specs.Prelude.{◌≡◌, IfOk};
ghost use Rattle.tsc_run.specs.Runs.{CanRun, EndsList};
ghost use Rattle.tsc_run.specs.declared.fault.RunFault.TheVariants.{NoThread};

use crate::fault::RunFault;
use crate::list::{ListRun, run_list};
use std::alloc::Global;
use std::snapshot::Snapshot;
use std::sync::Wait;
use std::thread::{Promise, PromisedHandle, Scope, Threads};
use tsc_shared::{Gate, Seat, SharedCache};
use tsc_trace::Call;

/// A thread could not be started. None but `start_list` can say so.
#[derive(Drop)]
pub struct NotStarted {
    seal: (),
}

/// What threads are started by, and may refuse to start one.
///
/// A run is proved for whatever this may be, and knows no more of it: so it cannot answer that a
/// thread could not be started but for a [`NotStarted`], and of these there is one only where a
/// start was refused. To a caller with a runtime of `std` it says nothing, since `std` tells
/// nothing of why no thread is started.
pub trait RefusesThreads {
    /// The start of a thread was refused.
    ghost HasRefused: { Self → Type 0 };

    /// How a run ends in which a thread could not be started.
    fn fault_of(&self, start: NotStarted) -> RunFault
        ensures known { HasRefused self.now }
        ensures fault { result ≡ NoThread };
}

impl<R: Threads> RefusesThreads for R {
    ghost HasRefused = { λ _. Unit {0} };

    fn fault_of(&self, start: NotStarted) -> RunFault {
        drop(start);
        RunFault::NoThread
    }
}

/// A thread's promise: what it answers is how a run of this list ends, from this seat on.
#[derive(Drop)]
pub(crate) struct ListOf<'a> {
    pub seat: Snapshot<Seat>,
    pub calls: &'a [Call],
}

impl<'a> Promise<ListRun> for ListOf<'a> {
    ghost use Rattle.tsc_run.specs.Runs.{EndsList};

    ghost kept_by = { λ p r. EndsList p.seat.value p.calls.now r.reported r.seat };
}

/// What the threads of a run share: by what they are started and wait, where their memory is from,
/// their cache, and the gate that is told of their calls.
#[derive(Drop)]
pub(crate) struct RunContext<'s, R, G> {
    pub rt: &'s R,
    pub alloc: Global,
    pub cache: &'s SharedCache,
    pub gate: &'s G,
}

/// Starts a thread that makes the calls of a list, at the seat of the list's number.
pub(crate) fn start_list<'s, E, R: Threads + Wait + Sync, G: Gate + Sync>(
    scope: &Scope<'s, E>,
    run: &RunContext<'s, R, G>,
    seat: Seat,
    calls: &'s [Call],
) -> Result<PromisedHandle<ListRun, ListOf<'s>>, NotStarted>
    requires { CanRun run.now.cache.now seat calls.now }
    ensures seat { IfOk result (λ child. child.promise.seat.value ≡ seat) }
    ensures calls { IfOk result (λ child. child.promise.calls.now ≡ calls.entry.now) }
{
    let promise = ListOf {
        seat: Snapshot::of(&seat),
        calls,
    };
    let rt = run.rt;
    let alloc = run.alloc;
    let cache = run.cache;
    let gate = run.gate;
    scope
        .spawn_with(
            promise,
            move || -> ListRun
                requires { CanRun cache.now seat calls.now }
                ensures { EndsList seat calls.entry.now result.reported result.seat }
            { run_list(rt, alloc, cache, seat, calls, gate) },
        )
        .map_err(|_| NotStarted { seal: () })
}
