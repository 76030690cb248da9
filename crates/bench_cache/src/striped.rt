//! Seats of a striped cache, each in a thread of its own.
ghost use Rattle.std.specs.Prelude.{◌≡◌, IfSome, All};

use crate::calls::Trial;
use crate::keys::Keys;
use crate::shared::gathered;
use crate::subject::{Subject, value_at};
use std::alloc::Global;
use std::sync::Wait;
use std::thread::{Threads, map_vec};
use tsc_cache::Config;
use tsc_span::Span;
use tsc_striped::{Dealer, Seat, StripedCache};
use tsc_time::{Timestamp, Value};

/// How many bytes a page of a stripe may have at the least.
const LEAST_PAGE: u32 = 8256;

/// A seat at its striped cache.
#[derive(Drop)]
struct StripedSeat<'a, R> {
    rt: &'a R,
    striped: &'a StripedCache,
    seat: Seat,
    ghost is: { seat.cache ≡ striped.now },
}

impl<'a, R: Wait> Subject for StripedSeat<'a, R> {
    fn look_up(&mut self, span: &Span) -> Value {
        self.striped.get_max(self.rt, &mut self.seat, span)
    }

    fn make_add(&mut self, span: &Span, value: Value, now: Timestamp) -> bool {
        self.striped
            .add(self.rt, &mut self.seat, span, value, now)
            .is_ok()
    }
}

/// What is measured of the calls of all seats of a cache with so many stripes.
pub fn by_stripes<R: Threads + Wait + Sync>(
    host: &HostRuntime,
    rt: &R,
    trial: Trial,
    spans: &[Span],
    stripes: u32,
) -> Option<Vec<u64>> {
    let (striped, seats) = open_filled(host.alloc(), rt, trial, stripes)?;
    call_all(host, rt, &striped, seats, spans, trial)
}

/// A striped cache with the keys of a page, and the seats that are to make calls.
fn open_filled<R: Wait>(
    alloc: Global,
    rt: &R,
    trial: Trial,
    stripes: u32,
) -> Option<(StripedCache, Vec<Seat>)>
    ensures { IfSome result (λ made. All (λ seat. seat.cache ≡ made.0) made.1.items) }
{
    let size = trial.keys().page_size().max(LEAST_PAGE);
    let config = Config::new(size, size, 1, 0, Timestamp::ZERO).ok()?;
    let bounds = trial.keys().bounds(alloc, stripes)?;
    let number = trial.seats.saturating_add(1);
    let Ok((striped, mut dealer)) = StripedCache::open(alloc, config, bounds, number) else {
        return None;
    };
    let seats = deal_all(alloc, &striped, &mut dealer, trial.seats)?;
    let mut filler = striped.deal(&mut dealer)?;
    fill(alloc, rt, &striped, &mut filler, trial.keys()).then_some((striped, seats))
}

/// The next seats, so many.
fn deal_all(
    alloc: Global,
    striped: &StripedCache,
    dealer: &mut Dealer,
    number: u32,
) -> Option<Vec<Seat>>
    requires { dealer.old.cache ≡ striped.now }
    ensures dealer { dealer.new.cache ≡ dealer.old.cache }
    ensures seats { IfSome result (λ seats. All (λ seat. seat.cache ≡ striped.now) seats.items) }
{
    let mut seats = Vec::new(alloc);
    for _ in 0..number {
        seats.push(striped.deal(dealer)?).ok()?;
    }
    Some(seats)
}

/// Adds the keys of a page from the least on, and tells whether that was done.
fn fill<R: Wait>(alloc: Global, rt: &R, striped: &StripedCache, seat: &mut Seat, keys: Keys) -> bool
    requires { seat.old.cache ≡ striped.now }
{
    let value = value_at(1);
    let mut is_full = true;
    for place in 0..u64::from(keys.nodes) {
        is_full = is_full
            && match keys.span(alloc, place, 0) {
                Some(span) => striped.add(rt, seat, &span, value, Timestamp::ZERO).is_ok(),
                None => false,
            };
    }
    is_full
}

/// Has each seat make its calls in a thread of its own, and gives what is measured of them.
fn call_all<R: Threads + Wait + Sync>(
    host: &HostRuntime,
    rt: &R,
    striped: &StripedCache,
    seats: Vec<Seat>,
    spans: &[Span],
    trial: Trial,
) -> Option<Vec<u64>>
    requires { All (λ seat. seat.cache ≡ striped.now) seats.items }
{
    let reported = map_vec(
        rt,
        seats,
        &|seat: Seat| -> Option<Vec<u64>>
            requires { seat.cache ≡ striped.now }
        { call_seat(host, rt, striped, seat, spans, trial) },
    );
    gathered(host.alloc(), reported.ok()?)
}

/// Makes the calls of a seat, and gives what is measured of them. Gives nothing where one was
/// refused, or where no value was met.
fn call_seat<R: Wait>(
    host: &HostRuntime,
    rt: &R,
    striped: &StripedCache,
    seat: Seat,
    spans: &[Span],
    trial: Trial,
) -> Option<Vec<u64>>
    requires { seat.cache ≡ striped.now }
{
    let number = seat.number();
    let mut seated = StripedSeat { rt, striped, seat };
    trial.measure(host, &mut seated, spans, number)
}
