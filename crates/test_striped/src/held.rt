//! An Add that is held up with the lock of its stripe. Calls in other stripes go on meanwhile, and
//! those that touch this one find it busy. Once it has returned, another seat sees it, which met
//! nobody.
//!
//! No contract speaks of progress: this finds a call that waits for the lock of a stripe which it
//! does not touch, a gate that is called once others can see the Add, or more than once, and a
//! lookup that begins after an Add has returned and misses it.
ghost use Rattle.std.specs.Prelude.{◌≡◌, All, IfOk};

use crate::seats::{config, keys};
use std::alloc::Global;
use std::slice;
use std::sync::Wait;
use std::sync::atomic::Ordering::SeqCst;
use std::sync::atomic::{AtomicBool, AtomicU32};
use std::test::Fail;
use std::thread::{self, Threads};
use test_support::at;
use test_support::rows::{Refusal, Reported, span};
use timestamp_cache::{Uuid, earliest_write_at, may_write_at};
use tsc_span::Span;
use tsc_striped::{Busy, Gate, Seat, StripedCache, TryAddFault};
use tsc_striped_leases::{Trying, Waiting};
use tsc_time::Value;

/// How often a thread looks whether another has come so far.
const TURNS: u32 = 10_000_000;

/// A gate that holds an Add up until another seat has made its calls. It counts the Adds that it is
/// told of.
#[derive(Drop)]
pub struct Hold {
    reported: AtomicU32,
    is_held: AtomicBool,
    is_over: AtomicBool,
    has_returned: AtomicBool,
}

impl Hold {
    pub fn new() -> Hold {
        Hold {
            reported: AtomicU32::new(0),
            is_held: AtomicBool::new(false),
            is_over: AtomicBool::new(false),
            has_returned: AtomicBool::new(false),
        }
    }

    /// A gate that lets each Add go on at once.
    pub fn open() -> Hold {
        let hold = Hold::new();
        hold.let_go();
        hold
    }

    /// Waits until an Add is held up, and tells whether one is.
    pub fn is_reached(&self) -> bool {
        is_set(&self.is_held)
    }

    /// Lets the Add go on.
    pub fn let_go(&self) {
        self.is_over.store(true, SeqCst);
    }

    /// How many Adds it was told of.
    pub fn reported(&self) -> u32 {
        self.reported.load(SeqCst)
    }
}

/// Waits until a flag is set, and tells whether it was.
fn is_set(flag: &AtomicBool) -> bool {
    for _ in 0..TURNS {
        if flag.load(SeqCst) {
            return true;
        }
        thread::yield_now();
    }
    false
}

impl Gate for Hold {
    ghost HasReported = { λ _ _. Unit {0} };

    fn start(&self, _thread: u32, _call: u32) {}

    fn done(&self, _thread: u32, _call: u32) {}

    fn publish(&self, _seat: u32) {
        self.reported.fetch_add(1, SeqCst);
        self.is_held.store(true, SeqCst);
        thread::yield_now();
        is_set(&self.is_over);
    }
}

/// Asks about writes while an Add in the first span is held up. Whoever tries is refused there, and
/// whoever waits is answered in the second span.
fn ask_beside<R: Wait>(
    rt: &R,
    striped: &StripedCache,
    seat: &mut Seat,
    own: &Span,
    other: &Span,
) -> bool
    requires { seat.old.cache ≡ striped.now }
    ensures { seat.new.cache ≡ striped.now }
{
    let (by, wanted) = (Uuid::from_u128(1), at(30, 0));
    let trying = Trying {
        cache: striped,
        tries: 3,
    };
    let Err(Busy) = may_write_at(&trying, seat, own, wanted, by) else {
        return false;
    };
    let waiting = Waiting { cache: striped, rt };
    let reported = earliest_write_at(&waiting, seat, slice::from_ref(other), wanted, by);
    let Ok(time) = reported else { unreachable!() };
    matches!(time, Some(later) if wanted < later)
}

/// Makes the calls of a seat while an Add in the first span is held up. Those of the second span
/// are answered, and those that touch the first one are not.
fn call_beside<R: Wait>(
    rt: &R,
    striped: &StripedCache,
    seat: &mut Seat,
    own: &Span,
    other: &Span,
) -> bool
    requires { seat.old.cache ≡ striped.now }
    ensures { seat.new.cache ≡ striped.now }
{
    let (value, now) = (Value::unowned(at(30, 0)), at(20, 0));
    let is_added = striped.add(rt, seat, other, value, now).is_ok();
    let is_seen = striped.get_max(rt, seat, other) == value;
    let added = striped.try_add(seat, own, value, now, 3);
    let is_busy = matches!(added, Err(TryAddFault::Busy));
    let is_asked = ask_beside(rt, striped, seat, own, other);
    let is_hidden = striped.try_get_max(seat, own, 3).is_err();
    is_added && is_seen && is_busy && is_asked && is_hidden
}

/// The first seat adds, and is held up. The second one makes its calls meanwhile, and sees the Add
/// once it has returned. A third one makes none. Whether all came as it should.
fn take_part<R: Wait>(
    rt: &R,
    striped: &StripedCache,
    seat: Seat,
    hold: &Hold,
    spans: &[Span],
) -> bool
    requires { seat.cache ≡ striped.now }
{
    let (mut seat, value, now) = (seat, Value::unowned(at(20, 0)), at(20, 0));
    let (Some(own), Some(other)) = (spans.first(), spans.get(1)) else {
        return false;
    };
    if seat.number() == 0 {
        let added = striped.add_gated(rt, &mut seat, own, value, now, hold);
        hold.has_returned.store(true, SeqCst);
        return added.is_ok() && striped.get_max(rt, &mut seat, own) == value;
    }
    if seat.number() > 1 {
        return true;
    }
    let is_right = hold.is_reached() && call_beside(rt, striped, &mut seat, own, other);
    hold.let_go();
    is_right && is_set(&hold.has_returned) && striped.get_max(rt, &mut seat, own) == value
}

/// A cache with three stripes, and three seats.
pub fn open(alloc: Global) -> Reported<(StripedCache, Vec<Seat>)>
    ensures { IfOk result (λ opened. All (λ seat. seat.cache ≡ opened.0) opened.1.items) }
{
    let opened = StripedCache::open(alloc, config(8256)?, keys(alloc, &["[b]", "[d]"])?, 3);
    let Ok((striped, mut dealer)) = opened else {
        return Err(Refusal::NoMemory);
    };
    let one = striped.deal(&mut dealer).ok_or(Refusal::NoRow)?;
    let two = striped.deal(&mut dealer).ok_or(Refusal::NoRow)?;
    let three = striped.deal(&mut dealer).ok_or(Refusal::NoRow)?;
    let mut seats = Vec::new(alloc);
    seats.push(one)?;
    seats.push(two)?;
    seats.push(three)?;
    Ok((striped, seats))
}

/// Each seat takes part on a thread of its own.
fn play<R: Threads + Wait + Sync>(
    rt: &R,
    striped: &StripedCache,
    seats: Vec<Seat>,
    spans: &[Span],
) -> Result<bool, Fail>
    requires { All (λ seat. seat.cache ≡ striped.now) seats.items }
{
    let hold = Hold::new();
    let reported = thread::map_vec(
        rt,
        seats,
        &|seat: Seat| -> bool
            requires { seat.cache ≡ striped.now }
        { take_part(rt, striped, seat, &hold, spans) },
    )?;
    Ok(hold.reported() == 1 && reported.len() == 3 && reported.iter().all(|is_right| *is_right))
}

#[test]
fn a_held_stripe_holds_up_no_other(rt: HostRuntime) -> Result<(), Fail> {
    let alloc = rt.alloc();
    let (striped, seats) = open(alloc)?;
    let mut spans = Vec::new(alloc);
    for text in ["[a]", "[b,e)"] {
        spans.push(span(alloc, text)?)?;
    }
    assert!(rt; play(&rt, &striped, seats, &spans)?);
    Ok(())
}
