//! The calls from bytes to texts: replays of traces, and checks of logs.

ghost use Rattle.std.specs.Prelude.{◌≡◌, ◌≢◌};
ghost use Rattle.tsc_check.specs.Bytes.{SaysOfReplay, SaysOfCheck};
ghost use Rattle.tsc_check.specs.declared.bytes.Outcome.{Outcome as Said};
ghost use Rattle.tsc_ffi_store.specs.Codes.{code_of};
ghost use Rattle.tsc_ffi_store.specs.Puts.{Puts};
ghost use Rattle.tsc_c.specs.Texts.{text_of, reported_of};
ghost use Rattle.tsc_ffi_store.specs.declared.refusal.Refusal.TheVariants.{NoMemory};

use crate::outcome::report;
use std::alloc::Global;
use tsc_check::{check_bytes, replay_bytes};

/// Replays a trace on one thread, and puts the text of its log into a buffer, or why the bytes are
/// no trace.
#[unsafe(no_mangle)]
pub extern "C" fn tsc_replay(alloc: Global, trace: &[u8], out: &mut [u8], len: &mut usize) -> u32
    ensures said { result ≢ code_of NoMemory → (said : Said) × SaysOfReplay trace.now said
        × Puts (reported_of said) (text_of said) result out.old out.new len.new }
    ensures unchanged { result ≡ code_of NoMemory → (out.new ≡ out.old) × (len.new ≡ len.old) }
{
    report(replay_bytes(alloc, trace), out, len)
}

/// Checks a log against its trace, and puts the line of the verdict into a buffer, or why the bytes
/// are no trace, or no log.
#[unsafe(no_mangle)]
pub extern "C" fn tsc_check(
    alloc: Global,
    trace: &[u8],
    log: &[u8],
    out: &mut [u8],
    len: &mut usize,
) -> u32
    ensures said { result ≢ code_of NoMemory → (said : Said) × SaysOfCheck trace.now log.now said
        × Puts (reported_of said) (text_of said) result out.old out.new len.new }
    ensures unchanged { result ≡ code_of NoMemory → (out.new ≡ out.old) × (len.new ≡ len.old) }
{
    report(check_bytes(alloc, trace, log), out, len)
}
