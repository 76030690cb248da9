//! Seats of a shared cache, each in a thread of its own.
ghost use Rattle.std.specs.Prelude.{◌≡◌, IfSome, All};

use crate::calls::{Seated, Trial};
use crate::keys::Keys;
use crate::subject::value_at;
use std::alloc::Global;
use std::sync::Wait;
use std::thread::{Threads, map_vec};
use tsc_cache::Config;
use tsc_shared::{Seat, SharedCache};
use tsc_span::Span;
use tsc_time::Timestamp;

/// What is measured of the calls of all seats of a shared cache.
pub fn by_seats<R: Threads + Wait + Sync>(
    host: &HostRuntime,
    rt: &R,
    trial: Trial,
    spans: &[Span],
) -> Option<Vec<u64>> {
    let (shared, seats) = open_filled(host, rt, trial)?;
    call_all(host, rt, &shared, seats, spans, trial)
}

/// A shared cache with a full page, and the seats that are to make calls. The idle ones are
/// dropped, which leaves their places in the cache.
fn open_filled<R: Wait>(
    host: &HostRuntime,
    rt: &R,
    trial: Trial,
) -> Option<(SharedCache, Vec<Seat>)>
    ensures { IfSome result (λ made. All (λ seat. seat.cache ≡ made.0) made.1.items) }
{
    let size = trial.keys().page_size();
    let config = Config::new(size, size, 1, 0, Timestamp::ZERO).ok()?;
    let number = trial.seats.saturating_add(trial.idle);
    let Ok((shared, mut seats)) = SharedCache::open(host.alloc(), config, number, u64::MAX) else {
        return None;
    };
    seats.truncate(trial.seats as usize);
    let Some(mut filler) = seats.pop() else {
        return None;
    };
    if !fill(host.alloc(), rt, &shared, &mut filler, trial.keys()) {
        return None;
    }
    let Ok(()) = seats.push(filler) else {
        return None;
    };
    Some((shared, seats))
}

/// Adds the keys of a page from the least on, and tells whether that was done.
fn fill<R: Wait>(alloc: Global, rt: &R, shared: &SharedCache, seat: &mut Seat, keys: Keys) -> bool
    requires { seat.old.cache ≡ shared.now }
    ensures { seat.new.cache ≡ seat.old.cache }
{
    let value = value_at(1);
    let mut is_full = true;
    for place in 0..u64::from(keys.nodes) {
        is_full = is_full
            && match keys.span(alloc, place, 0) {
                Some(span) => shared.add(rt, seat, &span, value, Timestamp::ZERO).is_ok(),
                None => false,
            };
    }
    is_full
}

/// Has each seat make its calls in a thread of its own, and gives what is measured of them.
fn call_all<R: Threads + Wait + Sync>(
    host: &HostRuntime,
    rt: &R,
    shared: &SharedCache,
    seats: Vec<Seat>,
    spans: &[Span],
    trial: Trial,
) -> Option<Vec<u64>>
    requires { All (λ seat. seat.cache ≡ shared.now) seats.items }
{
    let reported = map_vec(
        rt,
        seats,
        &|seat: Seat| -> Option<Vec<u64>>
            requires { seat.cache ≡ shared.now }
        { call_seat(host, rt, shared, seat, spans, trial) },
    );
    gathered(host.alloc(), reported.ok()?)
}

/// What was measured of the calls of all threads, or nothing where one of them tells nothing.
pub fn gathered(alloc: Global, reported: Vec<Option<Vec<u64>>>) -> Option<Vec<u64>> {
    let mut all = Vec::new(alloc);
    for one in reported {
        for measured in one? {
            all.push(measured).ok()?;
        }
    }
    Some(all)
}

/// Makes the calls of a seat, and gives what is measured of them. Gives nothing where one was
/// refused, or where no value was met.
fn call_seat<R: Wait>(
    host: &HostRuntime,
    rt: &R,
    shared: &SharedCache,
    seat: Seat,
    spans: &[Span],
    trial: Trial,
) -> Option<Vec<u64>>
    requires { seat.cache ≡ shared.now }
{
    let number = seat.number();
    let mut seated = Seated { rt, shared, seat };
    trial.measure(host, &mut seated, spans, number)
}
