//! A line of a log, read from its fields.
//!
//! Numbers and owners are read in every spelling that `parse` takes, so a text that is read need
//! not be the text of the line that it gives. Whoever calls [`read_line`] compares the two.
ghost use Rattle.std.specs.Prelude.{◌≡◌, ◌<◌, ◌^◌, ◌++◌, ◌∷◌};
ghost use Rattle.std.specs.Prelude.{codes, decimal, option_map, true, MatchOption};
ghost use Rattle.tsc_time.specs.Time.{is_in_range};
ghost use Rattle.tsc_time.specs.ValueView.{IsMadeOwner, owner_of};
ghost use Rattle.tsc_trace.specs.LogText.{bit_text, dot, line_text, owner_text, answer_text, space, time_text};
ghost use Rattle.tsc_trace.specs.LogReading.{IsWritable, IsWritableAnswer};
ghost use Rattle.tsc_trace.specs.ReadingBack.{IsAnyBit, IsWithout, ReadsBack, ReadsField};

use crate::log::{CallAnswer, Line};
use tsc_cache::Added;
use tsc_time::{Timestamp, Value};
use uuid::Uuid;

/// A line, without its line feed.
pub(super) fn read_line(text: &str) -> Option<Line>
    ensures { ReadsBack IsWritable line_text text.now result }
{
    let (thread, rest) = small_number_field(text)?;
    let (index, rest) = small_number_field(rest)?;
    let said = said(rest)?;
    Some(Line {
        thread,
        index,
        said,
    })
}

/// An answer: its word and its fields.
fn said(text: &str) -> Option<CallAnswer>
    ensures { ReadsBack IsWritableAnswer answer_text text.now result }
{
    let (word, fields) = cut_field(text)?;
    match word {
        "add" => add(fields),
        "batch" => batch(fields),
        "get" => get(fields),
        "low" => low(fields),
        _ => None,
    }
}

/// What an Add answered, by the fields behind its word.
fn add(fields: &str) -> Option<CallAnswer>
    ensures { ReadsBack IsWritableAnswer answer_text (codes "add" ++ space ∷ fields.now) result }
{
    let (place, rest) = number_field(fields)?;
    let (kept, rest) = bit_field(rest)?;
    let (rotated, rest) = bit_field(rest)?;
    let evicted = number(rest)?;
    let added = Added {
        kept,
        rotated,
        evicted,
    };
    Some(CallAnswer::Add { place, added })
}

/// What a batch answered, by the fields behind its word.
fn batch(fields: &str) -> Option<CallAnswer>
    ensures { ReadsBack IsWritableAnswer answer_text (codes "batch" ++ space ∷ fields.now) result }
{
    let (place, rest) = number_field(fields)?;
    let (kept, rest) = bit_field(rest)?;
    let (rotated, rest) = bit_field(rest)?;
    let evicted = number(rest)?;
    let added = Added {
        kept,
        rotated,
        evicted,
    };
    Some(CallAnswer::Batch { place, added })
}

/// What a lookup answered, by the fields behind its word.
fn get(fields: &str) -> Option<CallAnswer>
    ensures { ReadsBack IsWritableAnswer answer_text (codes "get" ++ space ∷ fields.now) result }
{
    let (front, rest) = number_field(fields)?;
    let (at, name) = cut_field(rest)?;
    let value = Value::of(time(at)?, owner(name)?);
    Some(CallAnswer::Get { front, value })
}

/// Where the floor stood, by the fields behind its word.
fn low(fields: &str) -> Option<CallAnswer>
    ensures { ReadsBack IsWritableAnswer answer_text (codes "low" ++ space ∷ fields.now) result }
{
    let (front, rest) = number_field(fields)?;
    let time = time(rest)?;
    Some(CallAnswer::Low { front, time })
}

/// A number of 64 bits.
fn number(text: &str) -> Option<u64>
    ensures { ReadsBack (λ n. n < 2 ^ 64) decimal text.now result }
{
    text.parse().ok()
}

/// A number of 32 bits.
fn small_number(text: &str) -> Option<u32>
    ensures { ReadsBack (λ n. n < 2 ^ 32) decimal text.now result }
{
    text.parse().ok()
}

/// A bit, `1` for yes.
fn bit(text: &str) -> Option<bool>
    ensures { ReadsBack IsAnyBit bit_text text.now result }
{
    match text {
        "1" => Some(true),
        "0" => Some(false),
        _ => None,
    }
}

/// A time: its wall time and its logical count, with a dot between them.
fn time(text: &str) -> Option<Timestamp>
    ensures { ReadsBack (λ time. is_in_range time ≡ true) time_text text.now result }
{
    let (wall, logical) = cut_time(text)?;
    Timestamp::new(number(wall)?, small_number(logical)?)
}

/// The name of an owner. The nil UUID stands for none.
fn owner(text: &str) -> Option<Uuid>
    ensures { ReadsBack IsMadeOwner owner_text text.now (option_map owner_of result) }
{
    if text == "none" {
        return Some(Uuid::nil());
    }
    match Uuid::parse_str(text) {
        Ok(uuid) => Some(uuid),
        Err(_) => None,
    }
}

/// A number of 64 bits, and what follows the space behind it.
fn number_field(text: &str) -> Option<(u64, &str)>
    ensures { ReadsField (λ n. n < 2 ^ 64) decimal text.now
        (option_map (λ field. (field.0, field.1.now)) result) }
{
    let (field, rest) = cut_field(text)?;
    Some((number(field)?, rest))
}

/// A number of 32 bits, and what follows the space behind it.
fn small_number_field(text: &str) -> Option<(u32, &str)>
    ensures { ReadsField (λ n. n < 2 ^ 32) decimal text.now
        (option_map (λ field. (field.0, field.1.now)) result) }
{
    let (field, rest) = cut_field(text)?;
    Some((small_number(field)?, rest))
}

/// A bit, and what follows the space behind it.
fn bit_field(text: &str) -> Option<(bool, &str)>
    ensures { ReadsField IsAnyBit bit_text text.now
        (option_map (λ field. (field.0, field.1.now)) result) }
{
    let (field, rest) = cut_field(text)?;
    Some((bit(field)?, rest))
}

/// The text before the first space, and that behind it.
fn cut_field(text: &str) -> Option<(&str, &str)>
    ensures { MatchOption result (IsWithout space text.now) (λ parts.
        IsWithout space parts.0.now × (text.now ≡ parts.0.now ++ space ∷ parts.1.now)) }
{
    text.split_once(' ')
}

/// The text before the first dot, and that behind it.
fn cut_time(text: &str) -> Option<(&str, &str)>
    ensures { MatchOption result (IsWithout dot text.now) (λ parts.
        IsWithout dot parts.0.now × (text.now ≡ parts.0.now ++ dot ∷ parts.1.now)) }
{
    text.split_once('.')
}
