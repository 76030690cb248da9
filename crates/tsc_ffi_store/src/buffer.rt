//! Bytes that go into a buffer of C.

ghost use Rattle.tsc_ffi_store.specs.Puts.{Puts};

/// What a call answers that has put into the buffer why bytes were refused. It is the number of no
/// `Refusal`.
pub const REFUSED: u32 = 16;

/// What a call answers whose text is longer than the buffer. It is the number of no `Refusal`.
const SHORT: u32 = 17;

/// Puts a text into a buffer that has room for it, and tells how long it is.
pub fn put(reported: u32, text: &[u8], out: &mut [u8], len: &mut usize) -> u32
    ensures { Puts reported text.now result out.old out.new len.new }
{
    *len = text.len();
    if text.len() > out.len() {
        return SHORT;
    }
    let (start, _) = out.split_at_mut(text.len());
    start.copy_from_slice(text);
    reported
}
