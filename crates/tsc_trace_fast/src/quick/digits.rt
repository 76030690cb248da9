//! Hexadecimal digits, all of which are read before it is told whether they are some.

ghost use Rattle.std.specs.Prelude.{◌≡◌, ◌*◌, ◌<◌, length, true, Some, Ok, IfSome};
ghost use Rattle.hex.specs.Hex.{decode_of, decode_pairs, hex_digit_value, is_hex_digit};

use std::alloc::Global;

/// Whether a byte is a hexadecimal digit.
#[inline(always)]
fn is_digit(c: u8) -> bool
    ensures { result ≡ is_hex_digit c }
{
    matches!(c, b'0'..=b'9' | b'A'..=b'F' | b'a'..=b'f')
}

/// What a hexadecimal digit stands for.
#[inline(always)]
#[tactic(auto, using(crate::proofs::Digits::digit_is))]
fn digit(c: u8) -> u8
    ensures value { is_hex_digit c ≡ true → hex_digit_value c ≡ Some result }
    ensures small { result < 16 }
{
    (c % 16 + 9 * (c / 64)) % 16
}

/// Writes the bytes of pairs of digits, and tells whether they are digits.
fn write_bytes(digits: &[u8], bytes: &mut [u8]) -> bool
    requires { length digits.now ≡ 2 * length bytes.old }
    ensures { result ≡ true → decode_pairs 0 digits.now ≡ Ok bytes.new }
{
    let mut good = true;
    'bytes: for i in 0..bytes.len() {
        let high = digits[2 * i];
        let low = digits[2 * i + 1];
        good = good & is_digit(high) & is_digit(low);
        bytes[i] = digit(high) * 16 + digit(low);
    }
    good
}

/// The bytes that hexadecimal digits in pairs stand for.
pub(super) fn bytes_of(alloc: Global, digits: &[u8]) -> Option<Vec<u8>>
    ensures { IfSome result (λ bytes. decode_of digits.now ≡ Ok bytes.items) }
{
    if digits.len() % 2 != 0 {
        return None;
    }
    let mut bytes = vec![in alloc; 0u8; digits.len() / 2].ok()?;
    if !write_bytes(digits, bytes.as_mut_slice()) {
        return None;
    }
    Some(bytes)
}
