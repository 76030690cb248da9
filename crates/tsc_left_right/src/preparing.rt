//! How the writer prepares an operation before it publishes it.
ghost use Rattle.std.specs.Prelude.{◌≡◌, ◌+◌, ◌^◌, ◌<◌, IfOk, IfErr, OnErr, Option, ℕ};
ghost use Rattle.tsc_left_right.specs.Copies.{CanBe};
ghost use Rattle.tsc_left_right.specs.Round.{IsNewWriter, MayPrepare};
ghost use Rattle.tsc_left_right.specs.Round.{IsPrepared, MayLeave, IsAborted, IsSwapped};
ghost use Rattle.tsc_left_right.specs.Participating.{IsSeatOf};

use crate::changing::{Ask, Next, Replicate};
use crate::context::Context;
use crate::lock::{install_handles, standby_side};
use crate::table::{Participant, WriterState};
use crate::waiting::{WaitPolicy, wait_for_readers};
use std::mem;
use std::sync::Arc;

/// What the writer works with once its operation is prepared, what that answered, and what is to be
/// dropped once the lock is released.
#[derive(Drop)]
pub(crate) struct Prepared<C, O, A> {
    pub(crate) state: Box<WriterState<C, O>>,
    pub(crate) answer: A,
    pub(crate) retired: Option<Arc<C>>,
}

/// Why the writer does not apply its operation.
#[derive(Clone, Copy)]
pub enum NotApplied {
    /// The history has as many operations as its limit allows.
    HistoryFull,
    /// A growth was refused.
    NoMemory,
    /// A seat was inside a read each time that it was looked at.
    SeatInside,
}

/// What the writer works with if it applies no operation, what is to be dropped once the lock is
/// released, and why it applies none.
#[derive(Drop)]
pub(crate) struct Aborted<C, O> {
    pub(crate) state: Box<WriterState<C, O>>,
    pub(crate) retired: Option<Arc<C>>,
    pub(crate) why: NotApplied,
}

/// Makes this copy active, which has had an operation; the one that was active until then lags by
/// it.
fn swap<C: Drop, O: Drop>(state: &mut WriterState<C, O>, next: Arc<C>, operation: O)
    requires { state.old.length + 1 < 2 ^ 64 }
    ensures { IsSwapped state.old next operation state.new }
{
    let copies = &mut state.copies;
    copies.standby = Some(mem::replace(&mut copies.active, next));
    copies.lagging = Some(operation);
    state.length += 1;
}

/// What an operation answered, and what is to be dropped once the lock is released.
#[derive(Drop)]
struct Ready<C, A> {
    answer: A,
    retired: Option<Arc<C>>,
}

/// Prepares an operation that is to be published. All readers have handles on their copy then. If
/// memory is refused, what the writer works with stands for what it stood for.
fn prepare<P: Replicate>(
    context: &Context<'_, P>,
    who: &mut Participant<P>,
    state: &mut WriterState<P::Value, P::Operation>,
    operation: P::Operation,
) -> Result<Ready<P::Value, P::Answer>, Option<Arc<P::Value>>>
    requires seat { IsSeatOf context.now.shared.now.table_id context.now.setup.now
        context.now.number who.old }
    requires may { MayPrepare P.Replicated context.now.setup.now.seats who.old.me state.old
        operation }
    ensures table { who.new.table_id ≡ who.old.table_id }
    ensures made { IfOk result (λ made. IsPrepared P.Replicated P.answer who.old.me.0 who.new.me
        operation state.new made.answer) }
    ensures left { OnErr result (MayLeave P.Replicated who.old.me.0 who.new.me state.new) }
{
    // A field is read so that the proof has its range.
    let _limit = context.setup.limit;
    let Next {
        copy,
        answer,
        retired,
    } = P::next(context.alloc, &mut state.copies, &operation)?;
    let length = state.length + 1;
    let standby = standby_side(state.head);
    if !install_handles(
        context.shared,
        who,
        &copy,
        length,
        context.setup.seats,
        standby,
    ) {
        return Err(retired);
    }
    swap(state, copy, operation);
    Ok(Ready { answer, retired })
}

/// Prepares an operation as [`prepare`] does, with what the writer works with in its box.
fn prepare_boxed<P: Replicate>(
    context: &Context<'_, P>,
    who: &mut Participant<P>,
    mut state: Box<WriterState<P::Value, P::Operation>>,
    operation: P::Operation,
) -> Result<Prepared<P::Value, P::Operation, P::Answer>, Aborted<P::Value, P::Operation>>
    requires seat { IsSeatOf context.now.shared.now.table_id context.now.setup.now
        context.now.number who.old }
    requires may { MayPrepare P.Replicated context.now.setup.now.seats who.old.me state.value
        operation }
    ensures table { who.new.table_id ≡ who.old.table_id }
    ensures made { IfOk result (λ made. IsPrepared P.Replicated P.answer who.old.me.0 who.new.me
        operation made.state.value made.answer) }
    ensures left { IfErr result (λ left. (tries : Option ℕ)
        → IsAborted P.Replicated tries who.old.me.0 who.new.me left) }
{
    match prepare(context, who, &mut state, operation) {
        Ok(Ready { answer, retired }) => Ok(Prepared {
            state,
            answer,
            retired,
        }),
        Err(retired) => Err(Aborted {
            state,
            retired,
            why: NotApplied::NoMemory,
        }),
    }
}

/// Prepares an operation by a copy of what is asked for, which is made only if the history is not
/// full. All readers leave the standby copy first, unless the policy gives up.
pub(crate) fn prepare_copy<P: Replicate, W: WaitPolicy, Q: Ask<P::Operation>>(
    policy: &W,
    context: &Context<'_, P>,
    who: &mut Participant<P>,
    state: Box<WriterState<P::Value, P::Operation>>,
    asked: &Q,
) -> Result<Prepared<P::Value, P::Operation, P::Answer>, Aborted<P::Value, P::Operation>>
    requires seat { IsSeatOf context.now.shared.now.table_id context.now.setup.now
        context.now.number who.old }
    requires writer { IsNewWriter P.Replicated who.old.me state.value }
    requires make { (op : _) → Q.is asked.now op → CanBe P.Replicated context.now.setup.now op }
    ensures table { who.new.table_id ≡ who.old.table_id }
    ensures made { IfOk result (λ made. (op : _) × Q.is asked.now op
        × IsPrepared P.Replicated P.answer who.old.me.0 who.new.me op made.state.value
        made.answer) }
    ensures left { IfErr result (IsAborted P.Replicated (W.tries policy.now) who.old.me.0
        who.new.me) }
{
    let setup = context.setup;
    if state.length >= setup.limit {
        return Err(Aborted {
            state,
            retired: None,
            why: NotApplied::HistoryFull,
        });
    }
    let Ok(operation) = asked.copied(context.alloc) else {
        return Err(Aborted {
            state,
            retired: None,
            why: NotApplied::NoMemory,
        });
    };
    let standby = standby_side(state.head);
    if !wait_for_readers(
        policy,
        context.shared,
        who,
        setup.seats,
        standby,
        &state.noted,
    ) {
        return Err(Aborted {
            state,
            retired: None,
            why: NotApplied::SeatInside,
        });
    }
    prepare_boxed(context, who, state, operation)
}
