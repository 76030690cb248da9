//! The bounds of stripes that a call names.
ghost use Rattle.tsc_span.specs.Span.{longest_key};
ghost use Rattle.tsc_ffi_store.specs.declared.refusal.Refusal.TheVariants as refusal;
ghost use Rattle.std.specs.Prelude.{◌≡◌, ◌≢◌, ◌⊎◌, ◌<◌, IfOk, IfErr, IsTrue, false, length};
ghost use Rattle.std.specs.List.{sum_by};
ghost use Rattle.tsc_ffi_store.specs.StripedCalls.{AreBounds, UseUp, RefusesNumbers, RefusesBounds, IsOpenCode};

use crate::ctypes::BoundsArgs;
use crate::refusal::Refusal;
use std::alloc::Global;
use tsc_span::{Key, SpanFault};
use tsc_striped::OpenFault;

/// How many stripes a cache may have at the most.
const MOST_STRIPES: usize = 1024;

/// Whether there may be so many seats and so many stripes, and whether the lengths use up the
/// bytes. No key is copied.
pub fn check_bounds(args: &BoundsArgs<'_>, seats: u32) -> Result<(), Refusal>
    ensures some { IfOk result (λ _. 0 < seats) }
    ensures use_up { IfOk result (λ _. UseUp args.now.keys.now args.now.lens.now) }
    ensures refused { IfErr result
        (λ why. RefusesNumbers why seats args.now.keys.now args.now.lens.now) }
{
    if seats == 0 {
        return Err(Refusal::Seats);
    }
    if args.lens.len() >= MOST_STRIPES {
        return Err(Refusal::Stripes);
    }
    if !is_whole(args.keys, args.lens) {
        return Err(Refusal::Outside);
    }
    Ok(())
}

/// The bounds of these bytes and lengths, which use up the bytes.
pub(crate) fn bounds(alloc: Global, args: &BoundsArgs<'_>) -> Result<Vec<Key>, Refusal>
    requires use_up { UseUp args.now.keys.now args.now.lens.now }
    ensures value { IfOk result
        (λ bounds. AreBounds args.now.keys.now args.now.lens.now bounds.items) }
    ensures refused { IfErr result (λ why. RefusesBounds why args.now.lens.now) }
{
    let mut bounds = Vec::new(alloc);
    let mut rest = args.keys;
    for len in args.lens {
        let (bytes, others) = rest.split_at(*len);
        rest = others;
        let Ok(()) = bounds.push(bound(alloc, bytes)?) else {
            return Err(Refusal::NoMemory);
        };
    }
    Ok(bounds)
}

/// Whether lengths come to all of some bytes.
fn is_whole(keys: &[u8], lens: &[usize]) -> bool
    ensures whole { IsTrue result → sum_by (λ n. n) lens.now ≡ length keys.now }
    ensures other { result ≡ false → sum_by (λ n. n) lens.now ≢ length keys.now }
{
    let mut left = keys.len();
    for len in lens {
        if *len > left {
            return false;
        }
        left -= *len;
    }
    left == 0
}

/// A bound of these bytes.
fn bound(alloc: Global, bytes: &[u8]) -> Result<Key, Refusal>
    ensures value { IfOk result (λ key. key ≡ bytes.now) }
    ensures refused { IfErr result (λ why.
        ((why ≡ refusal.KeyTooLong) × (longest_key < length bytes.now)) ⊎
        (why ≡ refusal.NoMemory)) }
{
    match Key::new(alloc, bytes) {
        Ok(key) => Ok(key),
        Err(SpanFault::KeyTooLong) => Err(Refusal::KeyTooLong),
        Err(_) => Err(Refusal::NoMemory),
    }
}

/// Why no cache in stripes was opened.
pub(crate) fn of_open_fault(fault: OpenFault) -> Refusal
    ensures { IsOpenCode fault result }
{
    match fault {
        OpenFault::TooManyStripes => Refusal::Stripes,
        OpenFault::BoundsOutOfOrder => Refusal::Bounds,
        OpenFault::PageTooSmall => Refusal::PageSize,
        OpenFault::NoMemory => Refusal::NoMemory,
    }
}
