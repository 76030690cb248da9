//! The calls of a client, by its participant. Each acquires the lock, and releases it.
ghost use Rattle.std.specs.Prelude.{◌≡◌};
ghost use Rattle.mvcc_shared.specs.Answers.{ReadsAt, EndsAt, HandsOnAt, CollectsAt};
ghost use Rattle.mvcc_shared.specs.Participating.{IsOf, IsAtRest, HasCalled};

use crate::answers::NotCommitted;
use crate::locking::{acquire, release};
use crate::table::{Participant, SharedLock};
use mvcc_range::{Outcome, RangeFault, Row, Transaction};
use std::sync::Wait;
use timestamp_cache::{CacheFault, Config, Span, Timestamp};

pub(crate) fn read<R: Wait>(
    rt: &R,
    shared: &SharedLock,
    who: &mut Participant,
    transaction: &mut Transaction,
    span: &Span,
    now: Timestamp,
) -> Result<Vec<Row>, RangeFault>
    requires { IsOf who.old shared.now.table_id × IsAtRest who.old.me }
    ensures table { who.new.table_id ≡ who.old.table_id }
    ensures called { HasCalled who.old.me who.new.me (λ old call new. ReadsAt old call new
        transaction.old transaction.new span.now now result) }
{
    acquire(rt, shared, who);
    let served = who.slot_mut(shared, 0);
    let rows = served.read(transaction, span, now);
    release(shared, who);
    rows
}

pub(crate) fn commit<R: Wait>(
    rt: &R,
    shared: &SharedLock,
    who: &mut Participant,
    transaction: Transaction,
    now: Timestamp,
) -> Result<Outcome, NotCommitted>
    requires { IsOf who.old shared.now.table_id × IsAtRest who.old.me }
    ensures table { who.new.table_id ≡ who.old.table_id }
    ensures called { HasCalled who.old.me who.new.me (λ old call new. EndsAt old call new
        transaction now result) }
{
    acquire(rt, shared, who);
    let served = who.slot_mut(shared, 0);
    let outcome = served.commit(transaction, now);
    release(shared, who);
    outcome
}

pub(crate) fn hand_on<R: Wait>(
    rt: &R,
    shared: &SharedLock,
    who: &mut Participant,
    config: Config,
    most: usize,
    now: Timestamp,
) -> Result<(), CacheFault>
    requires { IsOf who.old shared.now.table_id × IsAtRest who.old.me }
    ensures table { who.new.table_id ≡ who.old.table_id }
    ensures called { HasCalled who.old.me who.new.me (λ old call new. HandsOnAt old call new config
        most now result) }
{
    acquire(rt, shared, who);
    let served = who.slot_mut(shared, 0);
    let handed = served.hand_on(config, most, now);
    release(shared, who);
    handed
}

pub(crate) fn collect_garbage<R: Wait>(
    rt: &R,
    shared: &SharedLock,
    who: &mut Participant,
    before: Timestamp,
)
    requires { IsOf who.old shared.now.table_id × IsAtRest who.old.me }
    ensures table { who.new.table_id ≡ who.old.table_id }
    ensures called { HasCalled who.old.me who.new.me (λ old call new. CollectsAt old call new
        before) }
{
    acquire(rt, shared, who);
    let served = who.slot_mut(shared, 0);
    served.collect_garbage(before);
    release(shared, who);
}
