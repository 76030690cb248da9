//! What a seat does with the stripe of one lock.
ghost use Rattle.std.specs.Prelude.{◌≡◌, IfOk, IfErr, OnErr, IsErrOf, IfSome, IfNone, IsNone};
ghost use Rattle.std.specs.Prelude.{Some, true};
ghost use Rattle.tsc_cache.specs.Counts.{figures_of};
ghost use Rattle.tsc_cache.specs.History.{CanBeAdded};
ghost use Rattle.tsc_cache.specs.ConfigView.{fits};
ghost use Rattle.tsc_stripe_table.specs.Stripes.{state_on};
ghost use Rattle.tsc_stripe_table.specs.Participating.{IsOf, IsAtRest, IsStripe};
ghost use Rattle.tsc_striped.specs.Waiting.{HasEnd};
ghost use Rattle.tsc_striped.specs.Looks.{look_on};
ghost use Rattle.tsc_striped.specs.Moves.{HasLooked, AddsIn, LiesIn, IsStripeFault};

use crate::fault::StripeFault;
use crate::waiting::WaitPolicy;
use tsc_cache::{Added, Figures, TimestampCache};
use tsc_span::{Span, SpanRef};
use tsc_stripe_table::{Participant, SharedStripes, commit, release, release_seen};
use tsc_time::{Timestamp, Value};

/// What is to be added, and when.
#[derive(Clone, Copy)]
pub(crate) struct MarkRef<'m> {
    pub(crate) span: &'m Span,
    pub(crate) value: Value,
    pub(crate) moment: Timestamp,
}

/// An Add in one stripe, which has the whole span. Where it is refused, nothing changes. What it
/// replaces is dropped once the lock is released.
#[inline]
pub(crate) fn add_in<P: WaitPolicy>(
    policy: &P,
    shared: &SharedStripes,
    who: &mut Participant,
    stripe: u32,
    mark: MarkRef<'_>,
) -> Result<Added, StripeFault>
    requires rest { IsOf who.old shared.now.table_id × IsAtRest who.old.me }
    requires mark { IsStripe who.old.me.0 stripe
        × LiesIn who.old.me.0.setup.bounds stripe mark.span.now
        × (fits who.old.me.0.setup.config mark.span.now ≡ true)
        × CanBeAdded who.old.me.0.setup.config
        (record { span = mark.span.now; value = mark.value }) mark.moment }
    ensures table { who.new.table_id ≡ who.old.table_id }
    ensures added { IfOk result (λ added. AddsIn who.old.me who.new.me stripe
        (record { span = mark.entry.span.now; value = mark.entry.value }) mark.entry.moment added) }
    ensures refused { OnErr result (who.new.me ≡ who.old.me) }
    ensures why { IfErr result (λ fault. IsStripeFault (P.tries policy.now) fault)
        × (P.tries policy.now ≡ Some 0 → IsErrOf result StripeFault.Busy) }
{
    if !policy.acquire(shared, who, stripe) {
        return Err(StripeFault::Busy);
    }
    let stored = who.slot_mut(shared, stripe as usize);
    match stored.add(mark.span, mark.value, mark.moment) {
        Ok(made) => {
            commit(shared, who, stripe);
            Ok(made.added)
        }
        Err(_refused) => {
            release(shared, who, stripe);
            Err(StripeFault::NoMemory)
        }
    }
}

/// What a lookup answers in one stripe, or `None` where its lock was held at each try.
#[inline]
pub(crate) fn look_in<P: WaitPolicy>(
    policy: &P,
    shared: &SharedStripes,
    who: &mut Participant,
    stripe: u32,
    span: &SpanRef<'_>,
) -> Option<Value>
    requires rest { IsOf who.old shared.now.table_id × IsAtRest who.old.me }
    requires is_stripe { IsStripe who.old.me.0 stripe }
    ensures table { who.new.table_id ≡ who.old.table_id }
    ensures looked { IfSome result (λ value. HasLooked who.old.me who.new.me
        (λ h. value ≡ look_on who.old.me.0.setup h span.now stripe)) }
    ensures busy { IfNone result ((who.new.me ≡ who.old.me) × HasEnd (P.tries policy.now)) }
    ensures no_try { P.tries policy.now ≡ Some 0 → IsNone result }
{
    if !policy.acquire(shared, who, stripe) {
        return None;
    }
    let stored = who.slot_mut(shared, stripe as usize);
    let value = stored.cache.get_max_ref(span);
    release_seen(shared, who, stripe);
    Some(value)
}

/// What can be counted of one stripe, or `None` where its lock was held at each try.
pub(crate) fn figures_in<P: WaitPolicy>(
    policy: &P,
    shared: &SharedStripes,
    who: &mut Participant,
    stripe: u32,
) -> Option<Figures>
    requires rest { IsOf who.old shared.now.table_id × IsAtRest who.old.me }
    requires is_stripe { IsStripe who.old.me.0 stripe }
    ensures table { who.new.table_id ≡ who.old.table_id }
    ensures looked { IfSome result (λ figures. HasLooked who.old.me who.new.me
        (λ h. figures ≡ figures_of (state_on who.old.me.0.setup stripe h))) }
    ensures busy { IfNone result ((who.new.me ≡ who.old.me) × HasEnd (P.tries policy.now)) }
    ensures no_try { P.tries policy.now ≡ Some 0 → IsNone result }
{
    if !policy.acquire(shared, who, stripe) {
        return None;
    }
    let stored = who.slot_mut(shared, stripe as usize);
    let figures = stored.cache.figures();
    release_seen(shared, who, stripe);
    Some(figures)
}

/// Where the floor of one stripe stands, or `None` where its lock was held at each try.
pub(crate) fn floor_in<P: WaitPolicy>(
    policy: &P,
    shared: &SharedStripes,
    who: &mut Participant,
    stripe: u32,
) -> Option<Timestamp>
    requires rest { IsOf who.old shared.now.table_id × IsAtRest who.old.me }
    requires is_stripe { IsStripe who.old.me.0 stripe }
    ensures table { who.new.table_id ≡ who.old.table_id }
    ensures looked { IfSome result (λ time. HasLooked who.old.me who.new.me
        (λ h. time ≡ (state_on who.old.me.0.setup stripe h).floor)) }
    ensures busy { IfNone result ((who.new.me ≡ who.old.me) × HasEnd (P.tries policy.now)) }
    ensures no_try { P.tries policy.now ≡ Some 0 → IsNone result }
{
    if !policy.acquire(shared, who, stripe) {
        return None;
    }
    let stored = who.slot_mut(shared, stripe as usize);
    let time = stored.cache.low_water();
    release_seen(shared, who, stripe);
    Some(time)
}
