//! What all seats do at one time, each on a thread of its own.
use crate::guest::{By, Guest};
use crate::watch::{TURNS, Watch};
use std::alloc::{AllocError, Global};
use std::process::Abort;
use std::sync::Wait;
use std::sync::atomic::AtomicU64;
use std::sync::atomic::Ordering::SeqCst;
use std::thread;
use std::thread::Threads;
use test_support::at;
use test_support::rows::{Refusal, Reported};
use tsc_cache::{Added, Mark};
use tsc_span::{Key, Span, SpanFault, SpanRef};
use tsc_time::{Timestamp, Value};

/// How often an Add is called at most that is refused memory, and one that others are in the way
/// of.
const CALLS: (u32, u32) = (3, 10_000_000);

/// A scene under way. All that it needs is there before a thread starts.
#[derive(Drop)]
pub struct Scene<'a> {
    pub name: &'a str,
    pub rounds: u64,
    pub seats: u64,
    /// What is held up, at this moment.
    pub marks: Vec<Mark>,
    pub now: Timestamp,
    /// What lookups of the key `a`, and of the floor, are answered until then.
    pub before: (Value, Timestamp),
    pub gate: Watch,
    /// How many Adds have returned, or how many seats are there.
    pub count: AtomicU64,
    /// How many Adds were told each place.
    pub places: Vec<AtomicU64>,
}

/// A mark of a key that is one letter.
fn mark_of(alloc: Global, letter: u8, wall: u64) -> Result<Mark, SpanFault> {
    let span = Span::point(Key::new(alloc, &[letter])?);
    Ok(Mark {
        span,
        value: Value::unowned(at(wall, 0)),
    })
}

/// The letter of a number.
fn letter_of(number: u64) -> u8 {
    b'a' + (number % 26) as u8
}

/// The Add that is held up, made by some call.
fn add<R: Wait>(
    rt: &R,
    scene: &Scene<'_>,
    guest: &mut Guest<'_>,
    by: By,
) -> Reported<(u64, Added)> {
    guest.add_marks(rt, &scene.marks, scene.now, (by, &scene.gate))
}

/// The first seat adds, once more where it is refused memory. The others look once its Add is held
/// up, and are answered as before; and each of them tries in vain to add.
fn hold<R: Wait + Abort>(rt: &R, scene: &Scene<'_>, guest: &mut Guest<'_>) {
    if guest.number() == 0 {
        let is_made = add(rt, scene, guest, By::Gate).is_ok();
        assert!(rt; is_made || add(rt, scene, guest, By::Gate).is_ok());
        return;
    }
    if !scene.gate.is_reached(true) {
        return;
    }
    for _ in 0..scene.rounds {
        assert!(rt; guest.get(&SpanRef::point(b"a")) == Ok(scene.before.0));
        assert!(rt; guest.low() == Ok(scene.before.1));
    }
    for tries in [0, 1, 100] {
        assert!(rt; matches!(add(rt, scene, guest, By::Tries(tries)), Err(Refusal::Busy)));
    }
    scene.gate.looked.fetch_add(1, SeqCst);
}

/// An Add that is called again while others are in its way, and a few times where it is refused
/// memory.
fn add_until_made<R: Wait>(
    rt: &R,
    scene: &Scene<'_>,
    guest: &mut Guest<'_>,
    mark: &Mark,
    by: By,
) -> Reported<u64> {
    let mut refused: u32 = 0;
    for _ in 0..CALLS.1 {
        let made = guest.add_mark(rt, mark, mark.value.time(), (by, &scene.gate));
        match made {
            Ok((place, _)) => return Ok(place),
            Err(Refusal::Memory) if refused < CALLS.0 => refused = refused.saturating_add(1),
            Err(Refusal::Busy) => thread::yield_now(),
            Err(refusal) => return Err(refusal),
        }
    }
    Err(Refusal::Busy)
}

/// All seats add at one time, by two calls: a key in each round, at a place that no other Add was
/// told. Whoever has added sees that. A seat ends where memory is refused for good.
fn crowd<R: Wait + Abort>(rt: &R, alloc: Global, scene: &Scene<'_>, guest: &mut Guest<'_>) {
    scene.count.fetch_add(1, SeqCst);
    for _ in 0..10_000 {
        if scene.count.load(SeqCst) < scene.seats {
            thread::yield_now();
        }
    }
    let number = u64::from(guest.number());
    let by = if number % 2 == 0 {
        By::Gate
    } else {
        By::Tries(2)
    };
    for round in 0..scene.rounds {
        let letter = letter_of(number.wrapping_mul(scene.rounds).wrapping_add(round));
        let Ok(mark) = mark_of(alloc, letter, round.saturating_add(20)) else {
            return;
        };
        match add_until_made(rt, scene, guest, &mark, by) {
            Ok(place) => match scene.places.get(place as usize) {
                Some(reported) => assert!(rt; reported.fetch_add(1, SeqCst) == 0),
                None => assert!(rt; false, "{place}"),
            },
            Err(refusal) => {
                assert!(rt; refusal == Refusal::Memory, "{refusal:?}");
                return;
            }
        }
        let seen = guest.get(&SpanRef::point(&[letter]));
        assert!(rt; seen.is_ok_and(|value| mark.value.time() <= value.time()));
    }
}

/// The first seat adds the key `a`, each time a nanosecond later, and tells nobody but by a count.
/// The others see all Adds that have returned.
fn follow<R: Wait + Abort>(rt: &R, alloc: Global, scene: &Scene<'_>, guest: &mut Guest<'_>) {
    for turn in 0..u64::from(TURNS) {
        let returned = scene.count.load(SeqCst);
        if returned >= scene.rounds {
            return;
        }
        if guest.number() == 0 {
            let is_made = match mark_of(alloc, b'a', turn.saturating_add(20)) {
                Ok(mark) => add_until_made(rt, scene, guest, &mark, By::Plain).is_ok(),
                Err(_) => false,
            };
            assert!(rt; is_made);
            scene.count.fetch_add(1, SeqCst);
        } else {
            let seen = guest.get(&SpanRef::point(b"a"));
            let wall = seen.map_or(0, |value| value.time().wall());
            assert!(rt; returned <= wall.saturating_sub(19) && returned <= guest.seen());
            thread::yield_now();
        }
    }
}

/// The first seat's Add is held up until each other one is about to add. Then all of them add, and
/// the second one does so once. Each has a key of its own, which is known.
fn stop<R: Wait + Abort>(rt: &R, alloc: Global, scene: &Scene<'_>, guest: &mut Guest<'_>) {
    let number = guest.number();
    let Ok(mark) = mark_of(alloc, letter_of(u64::from(number)), 21) else {
        return;
    };
    if number == 0 {
        assert!(rt; add(rt, scene, guest, By::Gate).is_ok());
        thread::yield_now();
    } else {
        if !scene.gate.is_reached(false) {
            return;
        }
        scene.gate.looked.fetch_add(1, SeqCst);
    }
    let rounds = if number == 1 { 1 } else { scene.rounds };
    for _ in 0..rounds {
        assert!(rt; add_until_made(rt, scene, guest, &mark, By::Plain).is_ok());
        if number == 0 {
            thread::yield_now();
        }
    }
}

/// What a seat does.
fn act<'g, R: Wait + Abort>(
    rt: &R,
    alloc: Global,
    scene: &Scene<'_>,
    mut guest: Guest<'g>,
) -> Guest<'g> {
    match scene.name {
        "held" => hold(rt, scene, &mut guest),
        "crowd" => crowd(rt, alloc, scene, &mut guest),
        "returned" => follow(rt, alloc, scene, &mut guest),
        _ => stop(rt, alloc, scene, &mut guest),
    }
    guest
}

/// All seats play a scene, each on a thread of its own.
pub fn play<'g, R: Threads + Wait + Abort + Sync>(
    rt: &R,
    alloc: Global,
    scene: &Scene<'_>,
    guests: Vec<Guest<'g>>,
) -> Result<Vec<Guest<'g>>, AllocError> {
    thread::map_vec(rt, guests, &|guest: Guest| act(rt, alloc, scene, guest))
}
