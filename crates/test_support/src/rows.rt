//! The words of rows: times, owners, keys and spans.
//!
//! A time is WALL.LOGICAL. An owner is sixteen times one letter, and `-` is none. A span is `[a]`,
//! `[a,c)` and its like, or `[a..]` and `(a..]`. In a key `%00` is a byte in hexadecimal, and `*9`
//! behind a byte has it nine times; `#260` has the four bytes of a number.
use std::alloc::{AllocError, AllocFailed, Global};
use std::num::ParseIntError;
use tsc_cache::{AddBetweenFault, CacheFault, ConfigFault};
use tsc_span::{Ends, Key, Span, SpanFault, SpanRef};
use tsc_time::{NoMemory, Timestamp, Value};
use uuid::Uuid;

/// Why a row has no answer: what a call was refused for, and what the player itself was.
#[derive(Clone, Copy, Debug, PartialEq, Eq)]
pub enum Refusal {
    Time,
    KeyTooLong,
    Inverted,
    TooLarge,
    PageSize,
    MinPages,
    Retention,
    Full,
    Busy,
    SummaryVersion,
    SummaryLength,
    SummaryChecksum,
    SummaryForm,
    /// A call was refused memory.
    Memory,
    /// The player was.
    NoMemory,
    /// A thread was refused to the player.
    NoThread,
    /// The row is none, or its calls contradict one another.
    NoRow,
}

impl Refusal {
    /// The name that rows give it. Those that no row may tell have none.
    pub fn name(self) -> &'static str {
        match self {
            Refusal::Time => "time",
            Refusal::KeyTooLong => "key_too_long",
            Refusal::Inverted => "inverted",
            Refusal::TooLarge => "too_large",
            Refusal::PageSize => "page_size",
            Refusal::MinPages => "min_pages",
            Refusal::Retention => "retention",
            Refusal::Full => "full",
            Refusal::Busy => "busy",
            Refusal::SummaryVersion => "summary_version",
            Refusal::SummaryLength => "summary_length",
            Refusal::SummaryChecksum => "summary_checksum",
            Refusal::SummaryForm => "summary_form",
            Refusal::Memory | Refusal::NoMemory | Refusal::NoThread | Refusal::NoRow => "",
        }
    }
}

pub type Reported<T> = Result<T, Refusal>;

impl From<AllocError> for Refusal {
    fn from(_refused: AllocError) -> Refusal {
        Refusal::NoMemory
    }
}

impl<T: Drop> From<AllocFailed<T>> for Refusal {
    fn from(_refused: AllocFailed<T>) -> Refusal {
        Refusal::NoMemory
    }
}

impl From<ParseIntError> for Refusal {
    fn from(_fault: ParseIntError) -> Refusal {
        Refusal::NoRow
    }
}

/// A call was refused memory.
pub fn of_no_memory(_refused: NoMemory) -> Refusal {
    Refusal::Memory
}

pub fn of_cache(fault: CacheFault) -> Refusal {
    match fault {
        CacheFault::TooLarge => Refusal::TooLarge,
        CacheFault::NoMemory => Refusal::Memory,
    }
}

pub fn of_bytes(fault: AddBetweenFault) -> Refusal {
    match fault {
        AddBetweenFault::KeyTooLong => Refusal::KeyTooLong,
        AddBetweenFault::Inverted => Refusal::Inverted,
        AddBetweenFault::TooLarge => Refusal::TooLarge,
        AddBetweenFault::NoMemory => Refusal::Memory,
    }
}

pub fn of_config(fault: ConfigFault) -> Refusal {
    match fault {
        ConfigFault::PageSize => Refusal::PageSize,
        ConfigFault::MinPages => Refusal::MinPages,
        ConfigFault::Retention => Refusal::Retention,
    }
}

/// A span of the player itself.
fn of_span(fault: SpanFault) -> Refusal {
    match fault {
        SpanFault::KeyTooLong => Refusal::KeyTooLong,
        SpanFault::Inverted => Refusal::Inverted,
        SpanFault::NoMemory => Refusal::NoMemory,
    }
}

pub fn time(text: &str) -> Reported<Timestamp> {
    let (wall, logical) = text.split_once('.').ok_or(Refusal::NoRow)?;
    let (wall, logical) = (wall.parse()?, logical.parse()?);
    Timestamp::new(wall, logical).ok_or(Refusal::Time)
}

/// The owner with this name.
pub fn owner(text: &str) -> Reported<Uuid> {
    match text.as_bytes() {
        [b'-'] => Ok(Uuid::nil()),
        [letter] => Ok(Uuid::from_bytes([*letter; 16])),
        _ => Err(Refusal::NoRow),
    }
}

pub fn value(at: &str, by: &str) -> Reported<Value> {
    Ok(Value::of(time(at)?, owner(by)?))
}

/// The name of a value's owner.
pub fn name_of(value: Value) -> char {
    match value.owner() {
        None => '-',
        Some(id) => letter_of(&id),
    }
}

fn letter_of(id: &Uuid) -> char {
    let [first, ..] = *id.as_bytes();
    let is_named = id.as_bytes().iter().all(|byte| *byte == first);
    if is_named { char::from(first) } else { '?' }
}

/// Adds the bytes of a text without `*`.
fn push_bytes(bytes: &mut Vec<u8>, text: &str) -> Reported<()> {
    let mut parts = text.split('%');
    bytes.extend_from_slice(parts.next().unwrap_or("").as_bytes())?;
    for part in parts {
        let (digits, rest) = part.split_at_checked(2).ok_or(Refusal::NoRow)?;
        bytes.push(u8::from_str_radix(digits, 16)?)?;
        bytes.extend_from_slice(rest.as_bytes())?;
    }
    Ok(())
}

/// The bytes of a key.
pub fn key(alloc: Global, text: &str) -> Reported<Vec<u8>> {
    let mut bytes = Vec::with_capacity(alloc, text.len().saturating_add(4))?;
    if let Some(number) = text.strip_prefix('#') {
        bytes.extend_from_slice(&u32::to_be_bytes(number.parse()?))?;
        return Ok(bytes);
    }
    let mut parts = text.split('*');
    push_bytes(&mut bytes, parts.next().unwrap_or(""))?;
    for part in parts {
        let rest = part.trim_start_matches(|sign: char| sign.is_ascii_digit());
        let times: usize = part.strip_suffix(rest).unwrap_or(part).parse()?;
        let byte = bytes.pop().ok_or(Refusal::NoRow)?;
        bytes.resize(bytes.len().saturating_add(times), byte)?;
        push_bytes(&mut bytes, rest)?;
    }
    Ok(bytes)
}

/// A span by the bytes of its keys: a single key has no second one.
#[derive(Drop)]
pub struct SpanBytes {
    pub from: Vec<u8>,
    pub to: Option<Vec<u8>>,
    pub ends: Ends,
    pub is_onward: bool,
}

pub fn span_bytes(alloc: Global, text: &str) -> Reported<SpanBytes> {
    let last = text.len().saturating_sub(1);
    let inner = text.get(1..last).ok_or(Refusal::NoRow)?;
    let (exclude_from, exclude_to) = (text.starts_with('('), text.ends_with(')'));
    let onward = inner.strip_suffix("..");
    let (from, to) = match inner.split_once(',') {
        Some((from, to)) if onward.is_none() => (from, Some(key(alloc, to)?)),
        _ => (onward.unwrap_or(inner), None),
    };
    Ok(SpanBytes {
        from: key(alloc, from)?,
        to,
        ends: Ends {
            exclude_from,
            exclude_to,
        },
        is_onward: onward.is_some(),
    })
}

impl SpanBytes {
    /// What a lookup by these bytes is of.
    pub fn looked_up(&self) -> SpanRef<'_> {
        match &self.to {
            Some(to) => SpanRef::between(&self.from, Some(to.as_slice()), self.ends),
            None if self.is_onward => SpanRef::onward(&self.from, self.ends.exclude_from),
            None => SpanRef::point(&self.from),
        }
    }

    pub fn span(&self, alloc: Global) -> Reported<Span> {
        let from = Key::new(alloc, &self.from).map_err(of_span)?;
        match &self.to {
            Some(to) => {
                let to = Key::new(alloc, to).map_err(of_span)?;
                Span::range(from, to, self.ends).map_err(of_span)
            }
            None if self.is_onward => Ok(Span::onward(from, self.ends.exclude_from)),
            None => Ok(Span::point(from)),
        }
    }
}

pub fn span(alloc: Global, text: &str) -> Reported<Span> {
    span_bytes(alloc, text)?.span(alloc)
}
