//! What the arguments of a call ask for: its times, its owner, its span and its configuration.

ghost use Rattle.std.specs.Prelude.{◌≡◌, ◌⊎◌, IfOk, IfErr, Some, true};
ghost use Rattle.tsc_time.specs.Time.{is_in_range};
ghost use Rattle.tsc_span.specs.Span.{SpanView, range, is_inverted};
ghost use Rattle.tsc_ffi_store.specs.Decode.{time_of, value_of, added_of, figures_reported, form_of, asked_span, add_span, lookup_span, asked_config, IsShort, NamesRange, NamesAddSpan, NamesConfig, LacksRangeCopy, RefusesTime, RefusesEnds, RefusesKey, RefusesRange, RefusesAddSpan, RefusesCopy, RefusesConfigFault, RefusesConfig, RefusesWrittenSpan};
ghost use Rattle.tsc_ffi_store.specs.declared.refusal.Refusal.TheVariants.{Inverted, NoMemory};

use crate::counts::Counts;
use crate::ctypes::{ConfigArgs, SpanArgs, TscAdded, TscFigures, TscTime, TscValue};
use crate::refusal::Refusal;
use std::alloc::Global;
use std::cmp::Ordering;
use tsc_cache::{Added, Config, ConfigFault, Figures};
use tsc_span::{AddSpan, Ends, Key, KeyRef, Span, SpanRef};
use tsc_time::{Timestamp, Value};
use uuid::Uuid;

/// The number of the form that has the first key alone.
pub(crate) const POINT: u32 = 8;

/// Which keys a span has.
#[derive(Clone, Copy)]
pub enum Form {
    /// The first key alone.
    Point,
    /// From the first key to the second.
    Range(Ends),
    /// From the first key on, which may be excluded, without an end.
    Onward(bool),
}

/// The time of these words.
pub fn time(words: &TscTime) -> Result<Timestamp, Refusal>
    ensures value { IfOk result (λ time. time ≡ time_of words.now) }
    ensures in_range { IfOk result (λ _. is_in_range (time_of words.now) ≡ true) }
    ensures refused { IfErr result (λ refusal. RefusesTime refusal (time_of words.now)) }
{
    match Timestamp::new(words.wall, words.logical) {
        Some(time) => Ok(time),
        None => Err(Refusal::Time),
    }
}

/// The value of these words.
pub fn value(words: &TscValue) -> Result<Value, Refusal>
    ensures value { IfOk result (λ value. value ≡ value_of words.now) }
    ensures in_range { IfOk result (λ _. is_in_range (value_of words.now).time ≡ true) }
    ensures refused { IfErr result (λ refusal. RefusesTime refusal (value_of words.now).time) }
{
    let TscValue { wall, logical, .. } = *words;
    let time = time(&TscTime { wall, logical })?;
    Ok(Value::of(time, Uuid::from_bytes(words.owner)))
}

/// The time of a value's words.
pub fn value_time(words: &TscValue) -> Result<Timestamp, Refusal>
    ensures value { IfOk result (λ time. time ≡ (value_of words.now).time) }
    ensures in_range { IfOk result (λ _. is_in_range (value_of words.now).time ≡ true) }
    ensures refused { IfErr result (λ refusal. RefusesTime refusal (value_of words.now).time) }
{
    let TscValue { wall, logical, .. } = *words;
    time(&TscTime { wall, logical })
}

/// The words of a time.
pub fn words_of_time(time: Timestamp) -> TscTime
    ensures { time ≡ time_of result }
{
    TscTime {
        wall: time.wall(),
        logical: time.logical(),
    }
}

/// The words of a value.
pub fn words_of(value: Value) -> TscValue
    ensures { value ≡ value_of result }
{
    TscValue {
        wall: value.time().wall(),
        logical: value.time().logical(),
        owner: owner_of(value),
    }
}

/// The words of figures, which leave the floor out, of how much memory they take, and of counts.
pub fn words_of_figures(figures: Figures, memory: u64, counts: Counts) -> TscFigures
    ensures { result ≡ figures_reported figures memory counts }
{
    TscFigures {
        pages: figures.pages,
        rotations: figures.rotations,
        nodes: figures.nodes,
        bytes: figures.bytes,
        memory,
        adds: counts.adds,
        refusals: counts.refusals,
        lookups: counts.lookups,
        evicted: counts.evicted,
    }
}

/// The words of what an Add did.
pub fn words_of_added(added: Added) -> TscAdded
    ensures { added ≡ added_of result }
{
    TscAdded {
        evicted: added.evicted,
        kept: added.kept,
        rotated: added.rotated,
    }
}

/// The owner's bytes, and zeros where nobody owns the value. They are copied by halves, as a lookup
/// leaves them: to read at once what was just written as two words, a processor waits until both
/// are in its cache.
fn owner_of(value: Value) -> [u8; 16]
    ensures { value ≡ value_of (record {
      wall = value.time.wall;
      logical = value.time.logical;
      owner = result;
    }) }
{
    match value.owner() {
        Some(owner) => by_halves(owner.into_bytes()),
        None => [0; 16],
    }
}

/// A copy of bytes, made in two halves.
fn by_halves(bytes: [u8; 16]) -> [u8; 16]
    ensures { result ≡ bytes }
{
    let mut copy = [0; 16];
    copy[..8].copy_from_slice(&bytes[..8]);
    copy[8..].copy_from_slice(&bytes[8..]);
    copy
}

/// The form that a number means.
fn form_meant_by(ends: u32) -> Result<Form, Refusal>
    ensures value { IfOk result (λ form. form_of ends ≡ Some form) }
    ensures refused { IfErr result (λ refusal. RefusesEnds refusal ends) }
{
    let (exclude_from, exclude_to) = match ends {
        0 => (false, false),
        1 => (true, false),
        2 => (false, true),
        3 => (true, true),
        4 => return Ok(Form::Onward(false)),
        5 => return Ok(Form::Onward(true)),
        POINT => return Ok(Form::Point),
        _ => return Err(Refusal::Ends),
    };
    Ok(Form::Range(Ends {
        exclude_from,
        exclude_to,
    }))
}

/// The key of these bytes, over them where they lie.
pub(crate) fn key(bytes: &[u8]) -> Result<KeyRef<'_>, Refusal>
    ensures value { IfOk result (λ key. key ≡ bytes.now) }
    ensures short { IfOk result (λ _. IsShort bytes.now) }
    ensures refused { IfErr result (λ refusal. RefusesKey refusal bytes.now) }
{
    match KeyRef::new(bytes) {
        Ok(key) => Ok(key),
        Err(_) => Err(Refusal::KeyTooLong),
    }
}

/// A copy of a key.
fn copy_of(alloc: Global, key: &KeyRef<'_>) -> Result<Key, Refusal>
    ensures value { IfOk result (λ copy. copy ≡ key.now) }
    ensures refused { IfErr result (λ refusal. refusal ≡ NoMemory) }
{
    match key.to_key(alloc) {
        Ok(copy) => Ok(copy),
        Err(_) => Err(Refusal::NoMemory),
    }
}

/// The span to be added that a call names, over the keys where they lie.
pub fn added_span<'a>(args: &SpanArgs<'a>) -> Result<AddSpan<'a>, Refusal>
    ensures names { IfOk result (λ span. NamesAddSpan (asked_span args.now) span) }
    ensures refused { IfErr result (λ why. RefusesAddSpan why (asked_span args.now)) }
{
    match form_meant_by(args.ends)? {
        Form::Point => Ok(AddSpan::point(key(args.from)?)),
        Form::Range(ends) => added_range(args.from, args.to, ends),
        Form::Onward(excluded) => Ok(AddSpan::onward(key(args.from)?, excluded)),
    }
}

/// The range between two keys that is to be added, over the keys where they lie.
fn added_range<'a>(from: &'a [u8], to: &'a [u8], ends: Ends) -> Result<AddSpan<'a>, Refusal>
    ensures names { IfOk result (λ span. NamesRange from.now to.now ends span) }
    ensures refused { IfErr result (λ why. RefusesRange why from.now to.now) }
{
    let first = key(from)?;
    let second = key(to)?;
    match AddSpan::range(first, second, ends) {
        Ok(span) => Ok(span),
        Err(_) => Err(Refusal::Inverted),
    }
}

/// The span to be added that a call names, with copies of its keys.
pub fn copied_span(alloc: Global, args: &SpanArgs<'_>) -> Result<Span, Refusal>
    ensures names { IfOk result (λ span. NamesAddSpan (asked_span args.now) span) }
    ensures refused { IfErr result (λ why. RefusesCopy why (asked_span args.now)) }
{
    match form_meant_by(args.ends)? {
        Form::Point => Ok(Span::point(copy_of(alloc, &key(args.from)?)?)),
        Form::Range(ends) => copied_range(alloc, args.from, args.to, ends),
        Form::Onward(excluded) => Ok(Span::onward(copy_of(alloc, &key(args.from)?)?, excluded)),
    }
}

/// The range between two keys that is to be added, with copies of the keys. An inverted one is
/// refused before a key is copied.
fn copied_range(alloc: Global, from: &[u8], to: &[u8], ends: Ends) -> Result<Span, Refusal>
    ensures names { IfOk result (λ span. NamesRange from.now to.now ends span) }
    ensures refused { IfErr result (λ why. RefusesRange why from.now to.now ⊎
        LacksRangeCopy why from.now to.now ends) }
{
    let first = key(from)?;
    let second = key(to)?;
    match to.cmp(from) {
        Ordering::Less => Err(Refusal::Inverted),
        Ordering::Equal => copied_upright(alloc, &first, &second, ends),
        Ordering::Greater => copied_upright(alloc, &first, &second, ends),
    }
}

/// The range between two keys, which is not inverted, with copies of the keys.
fn copied_upright(
    alloc: Global,
    from: &KeyRef<'_>,
    to: &KeyRef<'_>,
    ends: Ends,
) -> Result<Span, Refusal>
    requires { (span : SpanView) ×
        (range from.now to.now ends.exclude_from ends.exclude_to ≡ Some span) }
    ensures value { IfOk result (λ span. range from.now to.now ends.exclude_from ends.exclude_to ≡
        Some span) }
    ensures refused { IfErr result (λ refusal. refusal ≡ NoMemory) }
{
    let from = copy_of(alloc, from)?;
    let to = copy_of(alloc, to)?;
    match Span::range(from, to, ends) {
        Ok(span) => Ok(span),
        Err(_) => unreachable!(),
    }
}

/// The span to be looked up that a call names. It is over the keys where they lie, which may be of
/// any length.
pub fn looked_up_span<'a>(args: &SpanArgs<'a>) -> Result<SpanRef<'a>, Refusal>
    ensures value { IfOk result (λ span. lookup_span (asked_span args.now) ≡ Some span) }
    ensures refused { IfErr result (λ refusal. RefusesEnds refusal args.now.ends) }
{
    match form_meant_by(args.ends)? {
        Form::Point => Ok(SpanRef::point(args.from)),
        Form::Range(ends) => Ok(SpanRef::for_lookup(args.from, args.to, ends)),
        Form::Onward(excluded) => Ok(SpanRef::onward(args.from, excluded)),
    }
}

/// The span to be written that a call names. It is over the keys where they lie, which may be of
/// any length. An inverted one is refused.
pub fn written_span<'a>(args: &SpanArgs<'a>) -> Result<SpanRef<'a>, Refusal>
    ensures value { IfOk result (λ span. add_span (asked_span args.now) ≡ Some span) }
    ensures refused { IfErr result (λ why. RefusesWrittenSpan why (asked_span args.now)) }
{
    match form_meant_by(args.ends)? {
        Form::Point => Ok(SpanRef::point(args.from)),
        Form::Range(ends) => written_range(args.from, args.to, ends),
        Form::Onward(excluded) => Ok(SpanRef::onward(args.from, excluded)),
    }
}

/// The range between two keys that is to be written, over the keys where they lie.
fn written_range<'a>(from: &'a [u8], to: &'a [u8], ends: Ends) -> Result<SpanRef<'a>, Refusal>
    ensures value { IfOk result (λ span. range from.now to.now ends.exclude_from ends.exclude_to ≡
        Some span) }
    ensures refused { IfErr result (λ why. (why ≡ Inverted) ×
        (is_inverted from.now to.now ≡ true)) }
{
    match from.cmp(to) {
        Ordering::Greater => Err(Refusal::Inverted),
        Ordering::Less => Ok(SpanRef::for_lookup(from, to, ends)),
        Ordering::Equal => Ok(SpanRef::for_lookup(from, to, ends)),
    }
}

/// The configuration that a call names.
pub fn config(args: &ConfigArgs<'_>) -> Result<Config, Refusal>
    ensures names { IfOk result (λ config. NamesConfig (asked_config args.now) config) }
    ensures refused { IfErr result (λ why. RefusesConfig why (asked_config args.now)) }
{
    let low_water = time(args.low_water)?;
    match Config::new(
        args.page_first,
        args.page_max,
        args.min_pages,
        args.retention,
        low_water,
    ) {
        Ok(config) => Ok(config),
        Err(fault) => Err(of_config(fault)),
    }
}

/// Why a configuration was refused.
fn of_config(fault: ConfigFault) -> Refusal
    ensures { RefusesConfigFault result fault }
{
    match fault {
        ConfigFault::PageSize => Refusal::PageSize,
        ConfigFault::MinPages => Refusal::MinPages,
        ConfigFault::Retention => Refusal::Retention,
    }
}
