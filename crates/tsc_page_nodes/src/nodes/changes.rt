//! How the keys and values of nodes change.
ghost use Rattle.std.specs.Prelude.{◌≡◌, ℕ, ◌≤◌, length, true, Some, IsOk, IfOk, OnOk, OnErr, is_some, ◌+◌, if◌then◌else◌};
ghost use Rattle.std.specs.Vec.{vec_len, vec_capacity};
ghost use Rattle.std.specs.Arc.{arc_value};
ghost use Rattle.tsc_span.specs.Span.{is_below, between, point};
ghost use Rattle.tsc_page_nodes.specs.Insertions.{AreReady, HaveRoom};
ghost use Rattle.tsc_page_nodes.specs.Nodes.{paired, IsSorted, FallsAt, FitsIn, with_new, new_count, raise_nodes};

use crate::insertion::{KeyInsertion, PrefixedInsertion};
use crate::nodes::Values;
use crate::nodes::lists::Lists;
use crate::nodes::new_keys::NewKeys;
use std::sync::Arc;
use tsc_span::{PrefixedCut, PrefixedKey};
use tsc_time::{NoMemory, Timestamp, Value};

/// Puts a copy in the place of a list of keys that others hold too.
pub(super) fn own_keys(keys: &mut Arc<Vec<PrefixedKey>>) -> Result<(), NoMemory>
    ensures { (arc_value keys.new).items ≡ (arc_value keys.old).items }
{
    if Arc::strong_count(keys) > 1 {
        let alloc = *keys.allocator();
        *keys = Arc::new(alloc, copy_of_keys(keys)?)?;
    }
    Ok(())
}

/// A copy of a list of keys, with room for two more. It shares the keys themselves.
fn copy_of_keys(keys: &Vec<PrefixedKey>) -> Result<Vec<PrefixedKey>, NoMemory>
    ensures { IfOk result (λ copy. copy.items ≡ keys.now.items) }
{
    let mut copy = Vec::with_capacity(*keys.allocator(), keys.len() + 2)?;
    for key in keys {
        copy.push(key.clone()?)?;
    }
    Ok(copy)
}

/// Makes room for nodes of new keys. Where memory is refused, no node is added, and the list of
/// values has not grown. Where there are no new keys, no memory is asked for.
pub(super) fn reserve(
    keys: &mut Vec<PrefixedKey>,
    values: &mut Vec<Values>,
    new: &NewKeys,
) -> Result<(), NoMemory>
    ensures keys { keys.new.items ≡ keys.old.items }
    ensures values { values.new.items ≡ values.old.items }
    ensures key_room { OnOk result
        (vec_len keys.new + (new_count new.now.first new.now.second) ≤ vec_capacity keys.new) }
    ensures value_room { OnOk result
        (vec_len values.new + (new_count new.now.first new.now.second) ≤ vec_capacity values.new) }
    ensures capacity { OnErr result (vec_capacity values.new ≡ vec_capacity values.old) }
    ensures memory { new_count new.now.first new.now.second ≡ 0 → IsOk result }
{
    let new = new.len();
    if new == 0 {
        return Ok(());
    }
    keys.reserve(new)?;
    Ok(values.reserve(new)?)
}

/// Makes a node of a new key, with the value of the gap in which it falls, or time zero without an
/// owner below the first node. It takes no memory.
pub(super) fn split(
    keys: &mut Vec<PrefixedKey>,
    values: &mut Vec<Values>,
    new: Option<(usize, PrefixedKey)>,
)
    requires same { length keys.old.items ≡ length values.old.items }
    requires fits { FitsIn (paired keys.old.items values.old.items) new }
    requires room { HaveRoom keys.old values.old (if is_some new then 1 else 0) }
    ensures same { length keys.new.items ≡ length values.new.items }
    ensures inserted { paired keys.new.items values.new.items ≡
        with_new (paired keys.old.items values.old.items) new }
    ensures room { (more : ℕ) → HaveRoom keys.old values.old (more + (if is_some new then 1 else 0))
        → HaveRoom keys.new values.new more }
{
    let Some((index, key)) = new else { return };
    let value = match index.checked_sub(1) {
        Some(before) => values[before].gap,
        None => Value::unowned(Timestamp::ZERO),
    };
    keys.insert(index, key).ok();
    values.insert(index, Values { value, gap: value }).ok();
}

/// Ratchets a value into the keys and gaps between two cuts, whose keys may stand at places that
/// are told.
pub(super) fn raise_values(
    keys: &[PrefixedKey],
    values: &mut Vec<Values>,
    from: &PrefixedCut<'_>,
    to: &PrefixedCut<'_>,
    hint: (Option<usize>, Option<usize>),
    value: Value,
)
    requires same { length keys.now ≡ length values.old.items }
    requires sorted { IsSorted (paired keys.now values.old.items) }
    requires order { is_below from.now to.now ≡ true }
    ensures same { length keys.now ≡ length values.new.items }
    ensures raised { paired keys.now values.new.items ≡ raise_nodes (between from.now to.now) value
        (paired keys.now values.old.items) }
{
    let lists = Lists {
        keys,
        values: values.as_slice(),
    };
    let (raised_keys, raised_gaps) = lists.indices_between(from, to, hint);
    for index in raised_keys {
        values[index].value.raise(&value);
    }
    for index in raised_gaps {
        values[index].gap.raise(&value);
    }
}

/// Makes nodes of new keys, of which the first is the smaller, and ratchets the value into the keys
/// and gaps between the cuts. It takes no memory. It costs a move of what stands above each new
/// node, and a step for each node between the cuts. A cut is searched for only where its key
/// doesn't stand at the place that `new_keys` found.
pub(super) fn insert_between(
    keys: &mut Vec<PrefixedKey>,
    values: &mut Vec<Values>,
    new: NewKeys,
    add: &PrefixedInsertion<'_>,
)
    requires same { length keys.old.items ≡ length values.old.items }
    requires ready { AreReady (paired keys.old.items values.old.items) new.first new.second }
    requires room { HaveRoom keys.old values.old (new_count new.first new.second) }
    ensures same { length keys.new.items ≡ length values.new.items }
    ensures added { paired keys.new.items values.new.items ≡
        raise_nodes (between add.now.from add.now.to) add.now.value
        (with_new (with_new (paired keys.old.items values.old.items) new.second) new.first) }
{
    split(keys, values, new.second);
    split(keys, values, new.first);
    raise_values(
        keys.as_slice(),
        values,
        add.from,
        add.to,
        new.hint,
        add.value,
    );
}

/// Makes a node of a new key at a place, and ratchets the value into it. Where memory is refused
/// nothing changes.
pub(super) fn insert(
    keys: &mut Vec<PrefixedKey>,
    values: &mut Vec<Values>,
    index: usize,
    add: &KeyInsertion<'_>,
) -> Result<(), NoMemory>
    requires same { length keys.old.items ≡ length values.old.items }
    requires sorted { IsSorted (paired keys.old.items values.old.items) }
    requires falls { FallsAt (paired keys.old.items values.old.items) add.now.key index }
    ensures same { length keys.new.items ≡ length values.new.items }
    ensures added { OnOk result (paired keys.new.items values.new.items ≡
        raise_nodes (point add.now.key) add.now.value
        (with_new (paired keys.old.items values.old.items) (Some (index, add.now.key)))) }
    ensures unchanged { OnErr result
        (paired keys.new.items values.new.items ≡ paired keys.old.items values.old.items) }
{
    keys.reserve(1)?;
    values.reserve(1)?;
    let copy = add.copy_key(*keys.allocator())?;
    split(keys, values, Some((index, copy)));
    values[index].value.raise(&add.value);
    Ok(())
}
