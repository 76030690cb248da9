//! The parts of a JSON value, each of the kind that is wanted.

ghost use Rattle.std.specs.Prelude.{◌≡◌, ◌^◌, map, option_map};
ghost use Rattle.std.specs.List.{list_any};
ghost use Rattle.std.specs.Str.{bytes_eq};
ghost use Rattle.serde_json.specs.Find.{get_member};
ghost use Rattle.serde_json.specs.View.{view, members_view};
ghost use Rattle.tsc_trace_format.specs.Reading.{Gives};
ghost use Rattle.tsc_trace_format.specs.TraceText.{array_of, object_of, text_of, unsigned_of, number_below, names_only, needed, two_of};

use super::part::{NUMBER, Refusal, SHAPE};
use serde_json::{Map, Value};

/// The items of an array.
#[tactic(auto, unfolding(crate::specs::TraceText::array_of))]
pub(crate) fn array(value: &Value) -> Result<&[Value], Refusal>
    ensures { Gives (λ items. map view items.now) result (array_of (view value.now)) }
{
    match value.as_array() {
        Some(items) => Ok(items.as_slice()),
        None => Err(SHAPE),
    }
}

/// The members of an object.
#[tactic(auto, unfolding(crate::specs::TraceText::object_of))]
pub(crate) fn object(value: &Value) -> Result<&Map<String, Value>, Refusal>
    ensures { Gives (λ members. members_view members.now.entries) result
        (object_of (view value.now)) }
{
    value.as_object().ok_or(SHAPE)
}

/// The bytes of a string.
#[tactic(auto, unfolding(crate::specs::TraceText::text_of))]
pub(crate) fn text(value: &Value) -> Result<&str, Refusal>
    ensures { Gives (λ text. text.now) result (text_of (view value.now)) }
{
    value.as_str().ok_or(SHAPE)
}

/// An unsigned integer.
#[tactic(auto, unfolding(crate::specs::TraceText::unsigned_of))]
pub(crate) fn unsigned(value: &Value) -> Result<u64, Refusal>
    ensures { Gives (λ n. n) result (unsigned_of (view value.now)) }
{
    let number = value.as_number().ok_or(SHAPE)?;
    number.as_u64().ok_or(NUMBER)
}

/// A number that fits 64 bits.
#[tactic(auto, unfolding(crate::specs::TraceText::number_below))]
pub(crate) fn number_64(value: &Value) -> Result<u64, Refusal>
    ensures { Gives (λ n. n) result (number_below (2 ^ 64) (view value.now)) }
{
    unsigned(value)
}

/// A number that fits 32 bits.
#[tactic(auto, unfolding(crate::specs::TraceText::number_below))]
pub(crate) fn number_32(value: &Value) -> Result<u32, Refusal>
    ensures { Gives (λ n. n) result (number_below (2 ^ 32) (view value.now)) }
{
    let number = unsigned(value)?;
    u32::try_from(number).map_err(|_| NUMBER)
}

/// A member that may be left out.
pub(crate) fn optional<'v>(members: &'v Map<String, Value>, name: &str) -> Option<&'v Value>
    ensures { option_map (λ value. view value.now) result
        ≡ get_member name.now (members_view members.now.entries) }
{
    members.get(name)
}

/// A member that has to be there.
#[tactic(auto, unfolding(crate::specs::TraceText::needed))]
pub(crate) fn needed<'v>(members: &'v Map<String, Value>, name: &str) -> Result<&'v Value, Refusal>
    ensures { Gives (λ value. view value.now) result
        (needed name.now (members_view members.now.entries)) }
{
    optional(members, name).ok_or(SHAPE)
}

/// Whether each member has one of these names.
pub(crate) fn has_only(members: &Map<String, Value>, names: &[&str]) -> bool
    ensures { result ≡ names_only (map (λ name. name.now) names.now)
        (members_view members.now.entries) }
{
    for (name, _) in members.iter() {
        if !is_among(name.as_str(), &*names) {
            return false;
        }
    }
    true
}

/// Whether a name is one of these.
fn is_among(name: &str, names: &[&str]) -> bool
    ensures { result ≡ list_any (bytes_eq name.now) (map (λ known. known.now) names.now) }
{
    for known in names {
        if name == *known {
            return true;
        }
    }
    false
}

/// The two items of an array of two.
#[tactic(auto, using(crate::proofs::Items::no_two, crate::proofs::Items::the_two))]
pub(crate) fn two(items: &[Value]) -> Result<(&Value, &Value), Refusal>
    ensures { Gives (λ pair. (view pair.0.now, view pair.1.now)) result
        (two_of (map view items.now)) }
{
    if items.len() != 2 {
        return Err(SHAPE);
    }
    Ok((&items[0], &items[1]))
}
