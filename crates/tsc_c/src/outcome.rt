//! What is said of bytes, for a buffer of C.

ghost use Rattle.std.specs.Prelude.{◌≡◌, ◌≢◌, Ok as Made};
ghost use Rattle.tsc_check.specs.declared.bytes.Outcome.{Outcome as What};
ghost use Rattle.tsc_ffi_store.specs.Codes.{code_of};
ghost use Rattle.tsc_ffi_store.specs.Puts.{Puts};
ghost use Rattle.tsc_ffi_store.specs.declared.refusal.Refusal.TheVariants.{NoMemory as NoRoom};
ghost use Rattle.tsc_c.specs.Texts.{text_of, reported_of};

use tsc_check::Outcome;
use tsc_ffi_store::{OK, REFUSED, Refusal, put};
use tsc_time::NoMemory;

/// Puts what is said of bytes into a buffer, and tells what it is; or that memory was refused.
pub(crate) fn report(said: Result<Outcome, NoMemory>, out: &mut [u8], len: &mut usize) -> u32
    ensures put { result ≢ code_of NoRoom → (outcome : What) × (said ≡ Made outcome)
        × Puts (reported_of outcome) (text_of outcome) result out.old out.new len.new }
    ensures unchanged { result ≡ code_of NoRoom → (out.new ≡ out.old) × (len.new ≡ len.old) }
{
    match said {
        Ok(Outcome::Text(text)) => put(OK, text.as_slice(), out, len),
        Ok(Outcome::Refused(why)) => put(REFUSED, why.as_slice(), out, len),
        Err(_) => Refusal::NoMemory.code(),
    }
}
