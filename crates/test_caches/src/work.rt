//! Fixed calls to a cache of one large page, whose steps `scripts/measure steps` counts. Each test
//! makes one cache and all spans first, so what it counts above `nothing` its calls took.
//! Keys may begin with 16 or 32 bytes that all have, so that other bytes tell them apart. This
//! finds a search that looks at more keys, and a lookup that looks into more parts.
use std::alloc::Global;
use std::test::Fail;
use test_support::at;
use test_support::rows::value;
use timestamp_cache::{Cache, Config, Ends, Key, Span, TimestampCache, Value};

/// Below this number each has a key, but for the last of each eight: a leaf has 56 keys.
const NUMBERS: u32 = 8192;

/// How many calls are made.
const CALLS: u32 = 512;

/// Those of a range without its end.
const ENDS: Ends = Ends {
    exclude_from: false,
    exclude_to: true,
};

/// The key of four times a number and `more`, behind `alike` bytes that all keys have.
fn key(alloc: Global, alike: usize, number: u32, more: u32) -> Result<Key, Fail> {
    let mut bytes = vec![in alloc; b'k'; alike]?;
    bytes.extend_from_slice(&number.saturating_mul(4).saturating_add(more).to_be_bytes())?;
    Ok(Key::new(alloc, &bytes)?)
}

/// The number of the key at which the span of a call begins.
fn first_of(call: u32) -> u32 {
    call.saturating_mul(14)
}

/// The spans of all calls: over a number of keys, or of a new key where that is 0.
fn spans(alloc: Global, alike: usize, keys: u32) -> Result<Vec<Span>, Fail> {
    let mut spans = Vec::new(alloc);
    for call in 0..CALLS {
        let number = first_of(call);
        let from = key(alloc, alike, number, u32::from(keys == 0))?;
        let span = if keys < 2 {
            Span::point(from)
        } else {
            let to = key(alloc, alike, number.saturating_add(keys), 0)?;
            Span::for_lookup(from, to, ENDS)
        };
        spans.push(span)?;
    }
    Ok(spans)
}

/// A time for a number, as good as by chance.
fn time_of(number: u32) -> u64 {
    1000 + u64::from(number.wrapping_mul(2_654_435_761) % 5000)
}

/// Adds all keys. Those of even numbers make leaves of 32 keys, and the others come between them.
fn fill(alloc: Global, alike: usize, cache: &mut Cache) -> Result<(), Fail> {
    for first in [0, 1] {
        for number in (first..NUMBERS).step_by(2) {
            if number % 8 != 7 {
                let value = Value::unowned(at(time_of(number), 0));
                let span = Span::point(key(alloc, alike, number, 0)?);
                cache.add(&span, value, value.time())?;
            }
        }
    }
    Ok(())
}

/// Whether each span is answered no time below that of its first key.
fn look_up(cache: &Cache, spans: &[Span]) -> bool {
    let mut all = true;
    for call in 0..CALLS {
        all &= match spans.get(call as usize) {
            Some(span) => cache.get_max(span).time().wall() >= time_of(first_of(call)),
            None => false,
        };
    }
    all
}

/// Adds a value to each span, in place.
fn add(cache: &mut Cache, spans: &[Span], value: Value) -> Result<bool, Fail> {
    let mut all = true;
    for span in spans {
        let added = cache.add(span, value, value.time())?;
        all &= added.kept && !added.rotated;
    }
    Ok(all)
}

/// Does nothing, looks up or adds, with spans over a number of keys.
fn works(alloc: Global, alike: usize, does: &str, keys: u32) -> Result<(), Fail> {
    let mut cache = Cache::new(
        alloc,
        Config::new(1_048_576, 1_048_576, 64, 1000, at(5, 0))?,
    )?;
    fill(alloc, alike, &mut cache)?;
    let (one, new) = (spans(alloc, alike, 1)?, spans(alloc, alike, 0)?);
    let (near, far) = (spans(alloc, alike, 16)?, spans(alloc, alike, 1000)?);
    let spans = match keys {
        0 => &new,
        1 => &one,
        16 => &near,
        _ => &far,
    };
    let right = match does {
        "look_up" => look_up(&cache, spans),
        "add" => add(&mut cache, spans, value("9000.0", "A")?)?,
        _ => cache.pages() == 1,
    };
    Ok(right.then_some(()).ok_or("a call comes to something else")?)
}

#[test]
fn nothing(rt: HostRuntime) -> Result<(), Fail> {
    works(rt.alloc(), 0, "nothing", 1)
}

#[test]
fn lookups_of_keys(rt: HostRuntime) -> Result<(), Fail> {
    works(rt.alloc(), 0, "look_up", 1)
}

#[test]
fn lookups_of_16_keys(rt: HostRuntime) -> Result<(), Fail> {
    works(rt.alloc(), 0, "look_up", 16)
}

#[test]
fn lookups_of_1000_keys(rt: HostRuntime) -> Result<(), Fail> {
    works(rt.alloc(), 0, "look_up", 1000)
}

#[test]
fn adds_of_keys(rt: HostRuntime) -> Result<(), Fail> {
    works(rt.alloc(), 0, "add", 1)
}

#[test]
fn adds_of_new_keys(rt: HostRuntime) -> Result<(), Fail> {
    works(rt.alloc(), 0, "add", 0)
}

#[test]
fn adds_of_16_keys(rt: HostRuntime) -> Result<(), Fail> {
    works(rt.alloc(), 0, "add", 16)
}

#[test]
fn adds_of_1000_keys(rt: HostRuntime) -> Result<(), Fail> {
    works(rt.alloc(), 0, "add", 1000)
}

#[test]
fn nothing_behind_16(rt: HostRuntime) -> Result<(), Fail> {
    works(rt.alloc(), 16, "nothing", 1)
}

#[test]
fn lookups_of_keys_behind_16(rt: HostRuntime) -> Result<(), Fail> {
    works(rt.alloc(), 16, "look_up", 1)
}

#[test]
fn nothing_behind_32(rt: HostRuntime) -> Result<(), Fail> {
    works(rt.alloc(), 32, "nothing", 1)
}

#[test]
fn lookups_of_keys_behind_32(rt: HostRuntime) -> Result<(), Fail> {
    works(rt.alloc(), 32, "look_up", 1)
}
