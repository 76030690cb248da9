//! The requests for caches of one thread at a time.

ghost use Rattle.std.specs.Prelude.{◌≡◌, ◌⊎◌, IfOk, IfErr, OnErr};
ghost use Rattle.tsc_ffi_store.specs.CacheCalls.{Opens, StandsAt, ReportsFigures, LacksMemoryForHandles, AnswersLookup, AnswersAdd, AnswersAddAll};
ghost use Rattle.tsc_ffi_store.specs.Counts.{CountsLookup, CountsAdd, add_counted};
ghost use Rattle.tsc_ffi_store.specs.Decode.{time_of, value_of, added_of, asked_span, asked_add, asked_batch};
ghost use Rattle.tsc_ffi_store.specs.Store.{cache_of, cache_at, LetsGo, AnswersClose, GivesNext, RefusesHandles};
ghost use Rattle.tsc_ffi_store.specs.declared.refusal.Refusal.TheVariants.{NoMemory, TooLarge};

use crate::counts::{CountedCache, Counts};
use crate::ctypes::{AddArgs, BatchArgs, SpanArgs, TscAdded, TscFigures, TscTime, TscValue};
use crate::decode::{
    POINT, added_span, copied_span, key, looked_up_span, time, value, words_of, words_of_added,
    words_of_figures, words_of_time,
};
use crate::marks::{check_marks, marks};
use crate::open_handles::{place_of, push_slot};
use crate::refusal::Refusal;
use crate::store::{Slot, Store};
use std::alloc::Global;
use std::mem::replace;
use tsc_cache::{Cache, CacheFault, Config, TimestampCache};
use tsc_span::SpanRef;

impl Slot {
    /// Lets the cache that is held go.
    fn close(&mut self) -> Result<(), Refusal>
        ensures closed { LetsGo (cache_of self.old) (cache_of self.new) result }
        ensures unchanged { OnErr result (self.new ≡ self.old) }
    {
        match replace(self, Slot::Closed) {
            Slot::Own(_) => Ok(()),
            slot @ (Slot::Closed | Slot::Shared(_) | Slot::Seat(_)) => {
                *self = slot;
                Err(Refusal::Closed)
            }
        }
    }
}

impl Store {
    /// Opens a cache, and gives its handle.
    pub fn open(&mut self, alloc: Global, config: Config) -> Result<u64, Refusal>
        ensures opened { IfOk result
            (λ handle. Opens (cache_at self.old handle) (cache_at self.new handle) config) }
        ensures given { IfOk result (λ handle. GivesNext self.old self.new handle) }
        ensures refused { IfErr result (λ why. RefusesHandles why self.old 1 ⊎
            LacksMemoryForHandles why self.old 1) }
        ensures unchanged { OnErr result (self.new ≡ self.old) }
    {
        if self.next == u64::MAX {
            return Err(Refusal::Full);
        }
        let Ok(cache) = Cache::new(alloc, config) else {
            return Err(Refusal::NoMemory);
        };
        if self.handles.reserve(1).is_err() || self.slots.reserve(1).is_err() {
            return Err(Refusal::NoMemory);
        }
        let handle = self.next;
        let slot = Slot::Own(CountedCache::new(cache));
        push_slot(&mut self.handles, &mut self.slots, &mut self.next, slot);
        Ok(handle)
    }

    /// Frees a cache.
    pub fn close(&mut self, handle: u64) -> Result<(), Refusal>
        ensures answers { AnswersClose cache_at handle self.old self.new result }
        ensures kept { OnErr result (self.new ≡ self.old) }
    {
        let did = self.close_there(handle);
        self.forget(handle);
        did
    }

    /// Frees a cache, and keeps the place of its handle.
    fn close_there(&mut self, handle: u64) -> Result<(), Refusal>
        ensures answers { AnswersClose cache_at handle self.old self.new result }
        ensures kept { OnErr result (self.new ≡ self.old) }
    {
        let place = place_of(&self.handles, handle);
        match self.slots.get_mut(place) {
            Some(slot) => slot.close(),
            None => Err(Refusal::Closed),
        }
    }
}

/// Writes the latest time on a span.
pub fn look_in(
    held: &mut CountedCache,
    span: &SpanArgs<'_>,
    out: &mut TscValue,
) -> Result<(), Refusal>
    ensures answers { CountsLookup (AnswersLookup (asked_span span.now) (value_of out.new)) held.old
        held.new result }
    ensures kept { OnErr result (out.new ≡ out.old) }
{
    if span.ends != POINT {
        return look_formed(held, span, out);
    }
    *out = words_of(held.cache.get_max_ref(&SpanRef::point(span.from)));
    held.counts.answer();
    Ok(())
}

/// Writes the latest time on a span of any form, as [`look_in`] does.
#[inline(never)]
fn look_formed(
    held: &mut CountedCache,
    span: &SpanArgs<'_>,
    out: &mut TscValue,
) -> Result<(), Refusal>
    ensures answers { CountsLookup (AnswersLookup (asked_span span.now) (value_of out.new)) held.old
        held.new result }
    ensures kept { OnErr result (out.new ≡ out.old) }
{
    let span = looked_up_span(span)?;
    *out = words_of(held.cache.get_max_ref(&span));
    held.counts.answer();
    Ok(())
}

/// Writes where the floor stands.
pub fn floor_in(held: &CountedCache, out: &mut TscTime)
    ensures { StandsAt held.now.cache (time_of out.new) }
{
    *out = words_of_time(held.cache.low_water());
}

/// Writes what can be counted of a cache, and of what was asked of it.
pub fn figures_in(held: &CountedCache, out: &mut TscFigures)
    ensures { ReportsFigures held.now out.new }
{
    *out = words_of_figures(held.cache.figures(), held.cache.memory(), held.counts);
}

/// Counts an Add that was accepted, with the pages that it dropped, or that was refused.
pub(crate) fn count(counts: &mut Counts, did: &Result<(), Refusal>, added: &TscAdded)
    ensures { counts.new ≡ add_counted counts.old did.now added.now.evicted }
{
    match did {
        Ok(()) => counts.add(added.evicted),
        Err(_) => counts.refuse(),
    }
}

/// Adds a span with its value, and writes what that did.
pub fn add_in(
    alloc: Global,
    held: &mut CountedCache,
    args: &AddArgs<'_>,
    out: &mut TscAdded,
) -> Result<(), Refusal>
    ensures answers { CountsAdd (AnswersAdd (asked_add args.now) (added_of out.new)) out.new.evicted
        held.old held.new result }
    ensures kept { OnErr result (out.new ≡ out.old) }
{
    let did = add_to(alloc, &mut held.cache, args, out);
    count(&mut held.counts, &did, out);
    did
}

/// Adds a span with its value, uncounted.
///
/// Most Adds are of a single key, which is lent to the cache where it lies: a known key is never
/// copied. The other forms have a function of their own, so that what is written for them is not
/// written for this one too.
fn add_to(
    alloc: Global,
    cache: &mut Cache,
    args: &AddArgs<'_>,
    out: &mut TscAdded,
) -> Result<(), Refusal>
    ensures answers { AnswersAdd (asked_add args.now) (added_of out.new) cache.old cache.new
        result }
    ensures kept { OnErr result (out.new ≡ out.old) }
{
    if args.span.ends != POINT {
        return add_formed(alloc, cache, args, out);
    }
    let value = value(args.value)?;
    let moment = time(args.moment)?;
    let key = key(args.span.from)?;
    match cache.add_key(&key, value, moment) {
        Ok(added) => {
            *out = words_of_added(added);
            Ok(())
        }
        Err(fault) => Err(of_cache_fault(fault)),
    }
}

/// Adds a span of any form with its value, as [`add_to`] does.
#[inline(never)]
fn add_formed(
    alloc: Global,
    cache: &mut Cache,
    args: &AddArgs<'_>,
    out: &mut TscAdded,
) -> Result<(), Refusal>
    ensures answers { AnswersAdd (asked_add args.now) (added_of out.new) cache.old cache.new
        result }
    ensures kept { OnErr result (out.new ≡ out.old) }
{
    let value = value(args.value)?;
    let moment = time(args.moment)?;
    if !cache.config().fits_ref(&added_span(&args.span)?) {
        return Err(Refusal::TooLarge);
    }
    let span = copied_span(alloc, &args.span)?;
    match cache.add(&span, value, moment) {
        Ok(added) => {
            *out = words_of_added(added);
            Ok(())
        }
        Err(fault) => Err(of_cache_fault(fault)),
    }
}

/// Adds several marks, all of them or none, and writes what that did.
pub fn add_all_in(
    alloc: Global,
    held: &mut CountedCache,
    args: &BatchArgs<'_>,
    out: &mut TscAdded,
) -> Result<(), Refusal>
    ensures answers { CountsAdd (AnswersAddAll (asked_batch args.now) (added_of out.new))
        out.new.evicted held.old held.new result }
    ensures kept { OnErr result (out.new ≡ out.old) }
{
    let did = add_all_to(alloc, &mut held.cache, args, out);
    count(&mut held.counts, &did, out);
    did
}

/// Adds several marks, all of them or none, uncounted.
fn add_all_to(
    alloc: Global,
    cache: &mut Cache,
    args: &BatchArgs<'_>,
    out: &mut TscAdded,
) -> Result<(), Refusal>
    ensures answers { AnswersAddAll (asked_batch args.now) (added_of out.new) cache.old cache.new
        result }
    ensures kept { OnErr result (out.new ≡ out.old) }
{
    let moment = time(args.moment)?;
    check_marks(&cache.config(), args.keys, args.marks)?;
    let marks = marks(alloc, args.keys, args.marks)?;
    match cache.add_all(&marks, moment) {
        Ok(added) => {
            *out = words_of_added(added);
            Ok(())
        }
        Err(fault) => Err(of_cache_fault(fault)),
    }
}

/// Why a cache refused an Add.
pub fn of_cache_fault(fault: CacheFault) -> Refusal
    ensures too_large { fault ≡ CacheFault.TooLarge → result ≡ TooLarge }
    ensures memory { fault ≡ CacheFault.NoMemory → result ≡ NoMemory }
{
    match fault {
        CacheFault::TooLarge => Refusal::TooLarge,
        CacheFault::NoMemory => Refusal::NoMemory,
    }
}
