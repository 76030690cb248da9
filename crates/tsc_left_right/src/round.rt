//! How a seat applies an operation: it acquires the writer lock, prepares the operation, and
//! publishes it.
ghost use Rattle.std.specs.Prelude.{◌≡◌, ℕ, false, Some};
ghost use Rattle.tsc_left_right.specs.Copies.{CanBe};
ghost use Rattle.tsc_left_right.specs.Participating.{IsAtRest, IsSeatOf};
ghost use Rattle.tsc_left_right.specs.Round.{IsBusy, IsNewWriter, HasOutcome};

use crate::changing::{Ask, Replicate};
use crate::context::Context;
use crate::gate::{Gate, Notice};
use crate::lock::{publish, release};
use crate::preparing::{Aborted, NotApplied, Prepared, prepare_copy};
use crate::table::{Participant, WriterState};
use crate::waiting::WaitPolicy;

/// What became of an operation.
#[derive(Drop)]
pub enum Outcome<A> {
    /// The lock was held at each try.
    Busy,
    /// The operation was applied at this place.
    Made { place: u64, answer: A },
    /// It was not applied, and the seat has seen this number of operations.
    Refused { seen: u64, why: NotApplied },
}

/// Applies an operation of the seat that has just acquired the lock, and releases it. The gate is
/// told before the operation is published.
fn apply_locked<P: Replicate, W: WaitPolicy, Q: Ask<P::Operation>, G: Gate>(
    policy: &W,
    context: &Context<'_, P>,
    who: &mut Participant<P>,
    state: Box<WriterState<P::Value, P::Operation>>,
    asked: &Q,
    notice: &mut Notice<'_, G>,
) -> Outcome<P::Answer>
    requires writer { IsSeatOf context.now.shared.now.table_id context.now.setup.now
        context.now.number who.old × IsNewWriter P.Replicated who.old.me state.value }
    requires make { (op : _) → Q.is asked.now op → CanBe P.Replicated context.now.setup.now op }
    requires unreported { notice.old.reported ≡ false }
    ensures table { who.new.table_id ≡ who.old.table_id }
    ensures outcome { HasOutcome P.Replicated P.answer (W.tries policy.now) (Q.is asked.now)
        who.old.me.0 who.new.me notice.new.reported
        (G.HasReported notice.old.gate.now context.now.number) result }
    ensures answers { IsBusy result → ⊥ }
{
    let place = state.length;
    match prepare_copy(policy, context, who, state, asked) {
        Ok(prepared) => {
            let Prepared {
                state,
                answer,
                retired,
            } = prepared;
            notice.give(context.number);
            publish(context.shared, who, state, context.setup.seats);
            drop(retired);
            Outcome::Made { place, answer }
        }
        Err(aborted) => {
            let Aborted {
                state,
                retired,
                why,
            } = aborted;
            let seen = release(context.shared, who, state);
            drop(retired);
            Outcome::Refused { seen, why }
        }
    }
}

/// Acquires the lock and applies an operation by a copy of what is asked for. Nothing is copied if
/// the lock was held at each try, or the history is full.
pub fn apply_by<P: Replicate, W: WaitPolicy, Q: Ask<P::Operation>, G: Gate>(
    policy: &W,
    context: &Context<'_, P>,
    who: &mut Participant<P>,
    asked: &Q,
    notice: &mut Notice<'_, G>,
) -> Outcome<P::Answer>
    requires seat { IsSeatOf context.now.shared.now.table_id context.now.setup.now
        context.now.number who.old × IsAtRest who.old.me }
    requires make { (op : _) → Q.is asked.now op → CanBe P.Replicated context.now.setup.now op }
    requires unreported { notice.old.reported ≡ false }
    ensures table { who.new.table_id ≡ who.old.table_id }
    ensures outcome { HasOutcome P.Replicated P.answer (W.tries policy.now) (Q.is asked.now)
        who.old.me.0 who.new.me notice.new.reported
        (G.HasReported notice.old.gate.now context.now.number) result }
    ensures no_tries { W.tries policy.now ≡ Some 0 → IsBusy result }
{
    match policy.acquire(context.shared, who, context.number) {
        Some(state) => apply_locked(policy, context, who, state, asked, notice),
        None => Outcome::Busy,
    }
}
