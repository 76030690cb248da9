//! One list of a trace, at a seat of the shared cache.
ghost use Rattle.std.specs.Prelude.{◌≡◌, ◌≢◌, true, IfOk, IfErr};
ghost use Rattle.tsc_trace_format.specs.Calls.{adds, call_fits};
ghost use Rattle.tsc_shared.specs.Seats.{SeatView};
ghost use Rattle.tsc_shared.specs.Answers.{GoesOn, RefusedFor, Refuses};
ghost use Rattle.tsc_shared.specs.declared.answers.AddFault.TheVariants.{TooLarge};
ghost use Rattle.tsc_run.specs.Runs.{CanRun, EndsList, IsRefusedAs, Runs, AnswersCall};

use crate::fault::RunFault;
use std::alloc::Global;
use std::sync::Wait;
use tsc_shared::{AddFault, Gate, Seat, SharedCache};
use tsc_trace::{Call, CallAnswer, Line};

/// What a list's run leaves: its seat, and a line for each of its calls, or why it ended early.
#[derive(Drop)]
pub(crate) struct ListRun {
    pub seat: Seat,
    pub reported: Result<Vec<Line>, RunFault>,
}

/// How a refused Add ends a run. All that the calls of a trace add fits a page.
fn refused(fault: AddFault) -> RunFault
    requires { fault ≢ TooLarge }
    ensures { (old new : SeatView) → Refuses old new → RefusedFor old new fault → (call : Call) →
        adds call ≡ true → IsRefusedAs result call old new }
{
    match fault {
        AddFault::HistoryFull(_) => RunFault::HistoryFull,
        AddFault::NoMemory => RunFault::NoMemory,
        AddFault::TooLarge => unreachable!(),
    }
}

/// Makes a call at this seat, which fits a page, and gives its answer. The gate is told before an
/// Add or a batch is published.
fn answer<R: Wait, G: Gate>(
    rt: &R,
    cache: &SharedCache,
    seat: &mut Seat,
    call: &Call,
    gate: &G,
) -> Result<CallAnswer, RunFault>
    requires cache { seat.old.cache ≡ cache.now }
    requires fits { call_fits seat.old.cache.config call.now ≡ true }
    ensures seat { GoesOn seat.old seat.new }
    ensures said { IfOk result (λ said. AnswersCall seat.old seat.new call.now said) }
    ensures refused { IfErr result (λ fault. IsRefusedAs fault call.now seat.old seat.new) }
{
    match call {
        Call::Add { span, value, now } => {
            match cache.add_gated(rt, seat, span, *value, *now, gate) {
                Ok(receipt) => Ok(CallAnswer::Add {
                    place: receipt.place,
                    added: receipt.added,
                }),
                Err(fault) => Err(refused(fault)),
            }
        }
        Call::Batch { marks, now } => {
            match cache.add_all_gated(rt, seat, marks.slice(), *now, gate) {
                Ok(receipt) => Ok(CallAnswer::Batch {
                    place: receipt.place,
                    added: receipt.added,
                }),
                Err(fault) => Err(refused(fault)),
            }
        }
        Call::Get { span } => {
            let answer = cache.get_max_ref(seat, &span.borrowed());
            Ok(CallAnswer::Get {
                front: answer.front,
                value: answer.value,
            })
        }
        Call::Low => {
            let answer = cache.floor(seat);
            Ok(CallAnswer::Low {
                front: answer.front,
                time: answer.time,
            })
        }
    }
}

/// Makes the calls of a list, one after another, and tells the gate of each: before it, and when it
/// was answered or refused. The list has the number of its seat.
fn make_calls<R: Wait, G: Gate>(
    rt: &R,
    alloc: Global,
    cache: &SharedCache,
    seat: &mut Seat,
    calls: &[Call],
    gate: &G,
) -> Result<Vec<Line>, RunFault>
    requires { CanRun cache.now seat.old calls.now }
    ensures { EndsList seat.old calls.now result seat.new }
{
    let thread = seat.number();
    let mut lines = Vec::with_capacity(alloc, calls.len())?;
    for (index, call) in calls.iter().enumerate() {
        let index = index as u32;
        gate.start(thread, index);
        let said = answer(rt, cache, seat, call, gate);
        gate.done(thread, index);
        let said = said?;
        lines.push(Line {
            thread,
            index,
            said,
        })?;
    }
    Ok(lines)
}

/// Makes the calls of a list, at the seat of the list's number, which comes back however that ends.
pub(crate) fn run_list<R: Wait, G: Gate>(
    rt: &R,
    alloc: Global,
    cache: &SharedCache,
    mut seat: Seat,
    calls: &[Call],
    gate: &G,
) -> ListRun
    requires { CanRun cache.now seat calls.now }
    ensures { EndsList seat calls.now result.reported result.seat }
{
    let reported = make_calls(rt, alloc, cache, &mut seat, calls, gate);
    ListRun { seat, reported }
}
