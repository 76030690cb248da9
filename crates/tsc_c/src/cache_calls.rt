//! The calls for caches of one thread at a time.

ghost use Rattle.std.specs.Prelude.{◌≡◌, OnErr, None};
ghost use Rattle.tsc_ffi_store.specs.CacheCalls.{AnswersOpen, AnswersLookup, AnswersAlways, AnswersAdd, AnswersAddAll, StandsAt, ReportsFigures};
ghost use Rattle.tsc_ffi_store.specs.Counts.{CountsLookup, CountsAdd};
ghost use Rattle.tsc_ffi_store.specs.Codes.{Reports};
ghost use Rattle.tsc_ffi_store.specs.Decode.{time_of, value_of, added_of, span_asked, add_asked, batch_asked, config_asked, asked_config};
ghost use Rattle.tsc_ffi_store.specs.Store.{slots_of, cache_at, AnswersClose, AnswersOfCache, DoesToCache};

use crate::store_ptr::{StorePtr, store_in};
use std::alloc::Global;
use tsc_ffi_store::{
    AddArgs, BatchArgs, ConfigArgs, OK, Refusal, SpanArgs, TscAdded, TscFigures, TscMark, TscTime,
    TscValue, add_all_in, add_in, code, config, figures_in, floor_in, look_in,
};

/// Opens a cache, and writes its handle, which was not given before. The pointer may be zeros.
#[unsafe(no_mangle)]
pub extern "C" fn tsc_open(
    alloc: Global,
    store: &mut StorePtr,
    page_first: u32,
    page_max: u32,
    min_pages: u32,
    retention: u64,
    low_water: &TscTime,
    handle: &mut u64,
) -> u32
    ensures answers { Reports
        (AnswersOpen (config_asked page_first page_max min_pages retention low_water.now) handle.new
        (slots_of store.old.owned) (slots_of store.new.owned)) (handle.new ≡ handle.old) result }
{
    let args = ConfigArgs {
        page_first,
        page_max,
        min_pages,
        retention,
        low_water,
    };
    code(open(alloc, store, &args, handle))
}

/// Opens a cache in the store that is owned, or in a new one.
fn open(
    alloc: Global,
    store: &mut StorePtr,
    args: &ConfigArgs<'_>,
    handle: &mut u64,
) -> Result<(), Refusal>
    ensures answers { AnswersOpen (asked_config args.now) handle.new (slots_of store.old.owned)
        (slots_of store.new.owned) result }
    ensures kept { OnErr result (handle.new ≡ handle.old) }
{
    let config = config(args)?;
    let mut held = store_in(alloc, store)?;
    let opened = held.open(alloc, config);
    store.put_back(held);
    *handle = opened?;
    Ok(())
}

/// Adds a span with its value, at a moment.
#[unsafe(no_mangle)]
pub extern "C" fn tsc_add(
    store: &mut StorePtr,
    handle: u64,
    from: &[u8],
    to: &[u8],
    ends: u32,
    value: &TscValue,
    moment: &TscTime,
    out: &mut TscAdded,
) -> u32
    ensures answers { Reports
        (DoesToCache (CountsAdd
        (AnswersAdd (add_asked (span_asked from.now to.now ends) value.now moment.now)
        (added_of out.new)) out.new.evicted) (slots_of store.old.owned) (slots_of store.new.owned)
        handle) (out.new ≡ out.old) result }
{
    let span = SpanArgs { from, to, ends };
    let args = AddArgs {
        span,
        value,
        moment,
    };
    match store.store_mut() {
        Some(held) => {
            let alloc = held.alloc();
            match held.cache_mut(handle) {
                Some(cache) => code(add_in(alloc, cache, &args, out)),
                None => Refusal::Closed.code(),
            }
        }
        None => Refusal::Closed.code(),
    }
}

/// Adds several marks at a moment, all of them or none.
#[unsafe(no_mangle)]
pub extern "C" fn tsc_add_all(
    store: &mut StorePtr,
    handle: u64,
    keys: &[u8],
    marks: &[TscMark],
    moment: &TscTime,
    out: &mut TscAdded,
) -> u32
    ensures answers { Reports
        (DoesToCache (CountsAdd
        (AnswersAddAll (batch_asked keys.now marks.now moment.now) (added_of out.new))
        out.new.evicted) (slots_of store.old.owned) (slots_of store.new.owned) handle)
        (out.new ≡ out.old) result }
{
    let args = BatchArgs {
        keys,
        marks,
        moment,
    };
    match store.store_mut() {
        Some(held) => {
            let alloc = held.alloc();
            match held.cache_mut(handle) {
                Some(cache) => code(add_all_in(alloc, cache, &args, out)),
                None => Refusal::Closed.code(),
            }
        }
        None => Refusal::Closed.code(),
    }
}

/// The latest time on a span.
#[unsafe(no_mangle)]
pub extern "C" fn tsc_get_max(
    store: &mut StorePtr,
    handle: u64,
    from: &[u8],
    to: &[u8],
    ends: u32,
    out: &mut TscValue,
) -> u32
    ensures answers { Reports
        (DoesToCache (CountsLookup
        (AnswersLookup (span_asked from.now to.now ends) (value_of out.new)))
        (slots_of store.old.owned) (slots_of store.new.owned) handle) (out.new ≡ out.old) result }
{
    let span = SpanArgs { from, to, ends };
    match store.store_mut() {
        Some(held) => match held.cache_mut(handle) {
            Some(cache) => code(look_in(cache, &span, out)),
            None => Refusal::Closed.code(),
        },
        None => Refusal::Closed.code(),
    }
}

/// Where the floor stands.
#[unsafe(no_mangle)]
pub extern "C" fn tsc_low_water(store: &mut StorePtr, handle: u64, out: &mut TscTime) -> u32
    ensures answers { Reports
        (AnswersOfCache (AnswersAlways (λ held. StandsAt held.cache (time_of out.new)))
        (slots_of store.old.owned) handle) (out.new ≡ out.old) result }
    ensures unchanged { store.new.owned ≡ store.old.owned }
{
    match store.store_mut() {
        Some(held) => match held.cache(handle) {
            Some(cache) => {
                floor_in(cache, out);
                OK
            }
            None => Refusal::Closed.code(),
        },
        None => Refusal::Closed.code(),
    }
}

/// What can be counted of a cache.
#[unsafe(no_mangle)]
pub extern "C" fn tsc_figures_of(store: &mut StorePtr, handle: u64, out: &mut TscFigures) -> u32
    ensures answers { Reports
        (AnswersOfCache (AnswersAlways (λ held. ReportsFigures held out.new))
        (slots_of store.old.owned) handle) (out.new ≡ out.old) result }
    ensures unchanged { store.new.owned ≡ store.old.owned }
{
    match store.store_mut() {
        Some(held) => match held.cache(handle) {
            Some(cache) => {
                figures_in(cache, out);
                OK
            }
            None => Refusal::Closed.code(),
        },
        None => Refusal::Closed.code(),
    }
}

/// Frees the cache of a handle, which then names none for good.
#[unsafe(no_mangle)]
pub extern "C" fn tsc_close(store: &mut StorePtr, handle: u64) -> u32
    ensures answers { Reports
        (AnswersClose cache_at handle (slots_of store.old.owned) (slots_of store.new.owned))
        (slots_of store.new.owned ≡ slots_of store.old.owned) result }
{
    match store.store_mut() {
        Some(held) => code(held.close(handle)),
        None => Refusal::Closed.code(),
    }
}

/// Frees all that a pointer owns. It is as zeros then.
#[unsafe(no_mangle)]
pub extern "C" fn tsc_free(alloc: Global, store: &mut StorePtr)
    ensures { store.new.owned ≡ None }
{
    if let Some(mut held) = store.take(alloc) {
        held.close_seats();
    }
}
