//! A call over all stripes, beside an Add that is held up with the lock of one of them. The call
//! waits, and meanwhile others go on in each other stripe.
//!
//! No contract speaks of progress: this finds a call that waits while it holds locks, one that
//! waits for ever, and one that answers before it has all locks. `scripts/refuse stop` stops the
//! Add's thread as the system may, and lets nobody go on before the call has waited.
ghost use Rattle.std.specs.Prelude.{◌≡◌, All};

use crate::held::{Hold, open};
use std::alloc::Global;
use std::sync::Wait;
use std::test::Fail;
use std::thread::{self, Threads};
use test_support::at;
use test_support::rows::span;
use tsc_span::Span;
use tsc_striped::{Seat, StripedCache};
use tsc_time::Value;

/// How many calls others make in each other stripe.
const ROUNDS: u32 = 500;

/// Which call needs all stripes.
#[derive(Clone, Copy)]
enum Wide {
    Lookup,
    Add,
    Snapshot,
}

/// What a scene needs: the span of the Add that is held up, those of the other stripes, and one
/// over all of them.
#[derive(Drop)]
struct Scene {
    wide: Wide,
    own: Span,
    lower: Span,
    upper: Span,
    all: Span,
    hold: Hold,
}

/// The Add that is held up with its lock, which is later than all others.
fn hold_up<R: Wait>(rt: &R, striped: &StripedCache, seat: &mut Seat, scene: &Scene) -> bool
    requires { seat.old.cache ≡ striped.now }
{
    let value = Value::unowned(at(30, 0));
    striped
        .add_gated(rt, seat, &scene.own, value, at(20, 0), &scene.hold)
        .is_ok()
}

/// The call over all stripes, which waits for the one that is held. Whether it came after the Add
/// there.
fn call_wide<R: Wait>(rt: &R, striped: &StripedCache, seat: &mut Seat, scene: &Scene) -> bool
    requires { seat.old.cache ≡ striped.now }
{
    let latest = Value::unowned(at(30, 0));
    match scene.wide {
        Wide::Lookup => striped.get_max(rt, seat, &scene.all) == latest,
        Wide::Add => {
            let value = Value::unowned(at(21, 0));
            let is_added = striped.add(rt, seat, &scene.all, value, at(20, 0)).is_ok();
            is_added && striped.get_max(rt, seat, &scene.own) == latest
        }
        Wide::Snapshot => match striped.snapshot(rt, seat, &scene.all) {
            Ok(snapshot) => snapshot.caches.len() == 3,
            Err(_) => false,
        },
    }
}

/// An Add and a lookup in another stripe, both of which are answered meanwhile.
fn call_in<R: Wait>(rt: &R, striped: &StripedCache, seat: &mut Seat, span: &Span) -> bool
    requires { seat.old.cache ≡ striped.now }
    ensures { seat.new.cache ≡ striped.now }
{
    let value = Value::unowned(at(22, 0));
    let is_added = striped.add(rt, seat, span, value, at(20, 0)).is_ok();
    let seen = striped.get_max(rt, seat, span);
    is_added && seen == value
}

/// Calls in each other stripe.
fn call_beside<R: Wait>(rt: &R, striped: &StripedCache, seat: &mut Seat, scene: &Scene) -> bool
    requires { seat.old.cache ≡ striped.now }
{
    let mut is_right = true;
    for _ in 0..ROUNDS {
        let is_low = call_in(rt, striped, seat, &scene.lower);
        let is_high = call_in(rt, striped, seat, &scene.upper);
        is_right = is_right && is_low && is_high;
    }
    is_right
}

/// What a seat does, on a thread of its own.
fn take_part<R: Wait>(rt: &R, striped: &StripedCache, seat: Seat, scene: &Scene) -> bool
    requires { seat.cache ≡ striped.now }
{
    let mut seat = seat;
    let number = seat.number();
    if number == 0 {
        return hold_up(rt, striped, &mut seat, scene);
    }
    let is_held = scene.hold.is_reached();
    if number == 1 {
        return is_held && call_wide(rt, striped, &mut seat, scene);
    }
    thread::yield_now();
    let is_right = is_held && call_beside(rt, striped, &mut seat, scene);
    scene.hold.let_go();
    is_right
}

/// Each seat takes part on a thread of its own.
fn play<R: Threads + Wait + Sync>(
    rt: &R,
    striped: &StripedCache,
    seats: Vec<Seat>,
    scene: &Scene,
) -> Result<bool, Fail>
    requires { All (λ seat. seat.cache ≡ striped.now) seats.items }
{
    let reported = thread::map_vec(
        rt,
        seats,
        &|seat: Seat| -> bool
            requires { seat.cache ≡ striped.now }
        { take_part(rt, striped, seat, scene) },
    )?;
    Ok(reported.len() == 3 && reported.iter().all(|is_right| *is_right))
}

/// Plays the scene of a call.
fn stops<R: Threads + Wait + Sync>(rt: &R, alloc: Global, wide: Wide) -> Result<bool, Fail> {
    let (striped, seats) = open(alloc)?;
    let scene = Scene {
        wide,
        own: span(alloc, "[c]")?,
        lower: span(alloc, "[a]")?,
        upper: span(alloc, "[e]")?,
        all: span(alloc, "[a..]")?,
        hold: Hold::new(),
    };
    play(rt, &striped, seats, &scene)
}

#[test]
fn a_lookup_of_all_stripes_holds_up_none(rt: HostRuntime) -> Result<(), Fail> {
    assert!(rt; stops(&rt, rt.alloc(), Wide::Lookup)?);
    Ok(())
}

#[test]
fn an_add_to_all_stripes_holds_up_none(rt: HostRuntime) -> Result<(), Fail> {
    assert!(rt; stops(&rt, rt.alloc(), Wide::Add)?);
    Ok(())
}

#[test]
fn a_snapshot_of_all_stripes_holds_up_none(rt: HostRuntime) -> Result<(), Fail> {
    assert!(rt; stops(&rt, rt.alloc(), Wide::Snapshot)?);
    Ok(())
}
