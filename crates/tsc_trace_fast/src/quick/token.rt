//! The least values: brackets, numbers, texts and times.

ghost use Rattle.std.specs.Prelude.{◌≡◌, ◌^◌, ◌∷◌, Some, Ok, IfSome, OnSome, option_map};
ghost use Rattle.json.specs.Json.{read_key};
ghost use Rattle.json.specs.Token.{begin_array, begin_object};
ghost use Rattle.serde_json.specs.Data.{unsigned, number, string};
ghost use Rattle.serde_json.specs.Read.{number_of};
ghost use Rattle.tsc_trace_format.specs.TraceText.{number_below, time_in_range, time_of};
ghost use Rattle.tsc_trace_fast.specs.TokenReads.{Reads, Got};

use fast_float::Numeral;
use json::{Reader, Token};
use tsc_time::Timestamp;

/// The unsigned integer that the text of a number is.
fn integer(text: &str) -> Option<u64>
    ensures { IfSome result (λ n. number_of text.now ≡ Some (unsigned n)) }
{
    let digits = text.as_bytes();
    if digits.is_empty() || digits[0] == b'-' {
        return None;
    }
    Numeral::scan(digits).to_u64()
}

/// Passes the bracket that opens an array.
pub(super) fn open_array(reader: &mut Reader<'_>) -> Option<()>
    ensures { OnSome result (reader.old ≡ begin_array ∷ reader.new) }
{
    match reader.next()? {
        Token::BeginArray => Some(()),
        _ => None,
    }
}

/// Passes the brace that opens an object.
pub(super) fn open_object(reader: &mut Reader<'_>) -> Option<()>
    ensures { OnSome result (reader.old ≡ begin_object ∷ reader.new) }
{
    match reader.next()? {
        Token::BeginObject => Some(()),
        _ => None,
    }
}

/// The name of an object's next member, or none at the brace that closes it.
#[inline(always)]
pub(super) fn next_name<'a>(reader: &mut Reader<'a>) -> Option<Option<&'a str>>
    ensures { IfSome result (λ name. read_key reader.old ≡
        Some (option_map (λ n. n.now) name, reader.new)) }
{
    reader.next_key().ok()
}

/// An unsigned integer.
#[tactic(auto, using(crate::proofs::TokenLemmas::number_reads))]
fn unsigned(reader: &mut Reader<'_>) -> Option<u64>
    ensures { IfSome result (λ n. Reads 0 reader.old (number (unsigned n)) reader.new) }
{
    match reader.next()? {
        Token::Number(text) => integer(text),
        _ => None,
    }
}

/// A text.
#[tactic(auto, using(crate::proofs::TokenLemmas::string_reads))]
pub(super) fn text<'a>(reader: &mut Reader<'a>) -> Option<&'a str>
    ensures { IfSome result (λ text. Reads 0 reader.old (string text.now) reader.new) }
{
    match reader.next()? {
        Token::String(text) => Some(text),
        _ => None,
    }
}

/// A number of 32 bits.
pub(super) fn number_32(reader: &mut Reader<'_>) -> Option<u32>
    ensures { IfSome result (λ n. Got 0 (number_below (2 ^ 32)) reader.old n reader.new) }
{
    let number = unsigned(reader)?;
    u32::try_from(number).ok()
}

/// A number of 64 bits.
pub(super) fn number_64(reader: &mut Reader<'_>) -> Option<u64>
    ensures { IfSome result (λ n. Got 0 (number_below (2 ^ 64)) reader.old n reader.new) }
{
    let number = unsigned(reader)?;
    Some(number)
}

/// The time of a wall time and a logical count.
#[tactic(auto, unfolding(tsc_trace_format::specs::TraceText::time_in_range))]
fn timestamp(wall: u64, logical: u64) -> Option<Timestamp>
    ensures { IfSome result (λ time. time_in_range wall logical ≡ Ok time) }
{
    let logical = u32::try_from(logical).ok()?;
    Timestamp::new(wall, logical)
}

/// A time: a list of its wall time and its logical count.
pub(super) fn time(reader: &mut Reader<'_>) -> Option<Timestamp>
    ensures { IfSome result (λ time. Got 1 time_of reader.old time reader.new) }
{
    open_array(reader)?;
    let wall = unsigned(reader)?;
    let logical = unsigned(reader)?;
    if !reader.take_end_array() {
        return None;
    }
    timestamp(wall, logical)
}
