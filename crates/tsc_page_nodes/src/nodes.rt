//! The nodes of one leaf, in the order of their keys. The keys lie apart from the values, so two
//! copies that differ in values alone share them.
ghost use Rattle.std.specs.Prelude.{◌≡◌, ◌≤◌, [], ◌∷◌, length, take, drop, true, Some, None, IsOk, IfOk, OnOk, option_map};
ghost use Rattle.std.specs.Arc.{arc_value};
ghost use Rattle.tsc_time.specs.Time.{zero_time};
ghost use Rattle.tsc_time.specs.ValueView.{unowned};
ghost use Rattle.tsc_span.specs.Span.{is_below, between, point};
ghost use Rattle.tsc_span.specs.Prefixes.{IsCutPrefix};
ghost use Rattle.tsc_page_nodes.specs.KeyAdds.{IsKeyReported};
ghost use Rattle.tsc_page_nodes.specs.Insertions.{IsReported, IsBothReported};
ghost use Rattle.tsc_page_model.specs.KeysAbove.{first_above};
ghost use Rattle.tsc_page_nodes.specs.Nodes.{paired, FallsAt, IsFoundAt, BothStandWhereReported, IsNewKey, FitsIn, with_new, IsInOrder, HasNodes, MakesNodes, new_count, node_keys, answer_of, raise_nodes, node_in_gap, next_cut, node_stretches};

mod changes;
mod lists;
mod new_keys;

use crate::insertion::{KeyInsertion, PrefixedInsertion};
use crate::memory::{list_memory, shared_memory};
use crate::nodes::changes::{insert, insert_between, own_keys, raise_values, reserve, split};
use crate::nodes::lists::Lists;
use crate::nodes::new_keys::{NewKeys, moved};
use std::alloc::{AllocError, Global};
use std::marker::Model;
use std::mem::size_of;
use std::sync::Arc;
use tsc_span::{Key, KeyPrefix, KeyRef, PrefixedCut, PrefixedKey, SearchKey};
use tsc_time::{NoMemory, Timestamp, Value};

/// How many nodes of a leaf that is cut stay in it.
const LOWER_HALF: usize = 32;

/// How much nodes grow: how many come in, and what their keys cost together.
#[derive(Clone, Copy, Debug)]
pub struct Growth {
    /// How many nodes come in.
    pub nodes: usize,
    /// What their keys cost together.
    pub bytes: u32,
}

/// The value of a key, and that of the open gap up to the next node.
#[derive(Clone, Copy, Debug)]
pub(crate) struct Values {
    value: Value,
    gap: Value,
}

/// Nodes in the order of their keys: a leaf of a page. The keys lie apart from the values, so nodes
/// that differ in their values alone share them.
#[derive(Debug, Drop)]
pub struct Nodes {
    /// The keys, in their order.
    keys: Arc<Vec<PrefixedKey>>,
    /// The values of the node of each key.
    values: Vec<Values>,
}

impl Model for Nodes {
    ghost use Rattle.std.specs.Prelude.{List};
    ghost use Rattle.std.specs.Arc.{arc_value};
    ghost use Rattle.tsc_page_nodes.specs.Nodes.{Node, ArePaired, paired};

    ghost Value = { List Node };

    ghost view = { λ n. paired (arc_value n.keys).items n.values.items };

    ghost invariant = { λ n. ArePaired (arc_value n.keys).items n.values.items };
}

impl Nodes {
    /// A node of a key, with time zero without an owner. It takes the memory of two lists of one,
    /// and of a key.
    pub fn of_key(alloc: Global, key: &KeyRef<'_>) -> Result<Nodes, NoMemory>
        ensures { IfOk result (λ nodes. nodes ≡ node_in_gap key.now (unowned zero_time) ∷ []) }
    {
        let mut keys = Vec::with_capacity(alloc, 1)?;
        keys.push(PrefixedKey::copy_of(alloc, key)?)?;
        let mut values = Vec::with_capacity(alloc, 1)?;
        let value = Value::unowned(Timestamp::ZERO);
        values.push(Values { value, gap: value })?;
        Ok(Nodes {
            keys: Arc::new(alloc, keys)?,
            values,
        })
    }

    /// How many nodes there are.
    pub fn len(&self) -> usize
        ensures { result ≡ length self.now }
    {
        self.values.len()
    }

    /// How many bytes the blocks of memory have that hold the two lists, by their capacities; those
    /// of the keys themselves are [`keys_memory`](crate::memory::keys_memory). It costs no step for
    /// a node. No clause can say what memory is taken.
    pub fn memory(&self) -> u64 {
        shared_memory(size_of::<Vec<PrefixedKey>>())
            .saturating_add(list_memory(self.keys.capacity(), size_of::<PrefixedKey>()))
            .saturating_add(list_memory(self.values.capacity(), size_of::<Values>()))
    }

    /// The nodes to be read.
    fn lists(&self) -> Lists<'_>
        ensures { result ≡ self.now }
    {
        Lists {
            keys: self.keys.as_slice(),
            values: self.values.as_slice(),
        }
    }

    /// Whether a cut lies below where the nodes begin, which where there are none is the last cut.
    /// The test compares prefixes, and bytes only where two prefixes are equal.
    pub fn starts_above(&self, cut: &PrefixedCut<'_>) -> bool
        ensures { result ≡ is_below cut.now (next_cut (node_stretches self.now)) }
    {
        match self.keys.first() {
            Some(first) => cut.is_below_before(first),
            None => cut.is_below_last(),
        }
    }

    /// Whether a cut lies above where the nodes begin. It costs what `starts_above` does.
    pub fn starts_below(&self, cut: &PrefixedCut<'_>) -> bool
        ensures { result ≡ is_below (next_cut (node_stretches self.now)) cut.now }
    {
        match self.keys.first() {
            Some(first) => cut.is_above_before(first),
            None => false,
        }
    }

    /// The prefix of where the nodes begin: that of the first twenty-four bytes of their first key,
    /// or the greatest one where there are no nodes. It lies beside the key, and is only read.
    #[inline]
    pub fn start_prefix(&self) -> KeyPrefix
        ensures { IsCutPrefix result (next_cut (node_stretches self.now)) }
    {
        match self.keys.first() {
            Some(first) => first.prefix(),
            None => KeyPrefix::greatest(),
        }
    }

    /// Where a key stands, or else the place for it. It costs a search.
    pub fn find(&self, key: &KeyRef<'_>) -> Result<usize, usize>
        ensures { IsFoundAt self.now key.now result }
    {
        self.lists().find(key.search())
    }

    /// The least key above a cut. It costs a search, and takes no memory.
    pub fn key_above(&self, cut: &PrefixedCut<'_>) -> Option<&Key>
        ensures { option_map (λ k. k.now) result ≡ first_above cut.now (node_keys self.now) }
    {
        let index = self.keys.partition_point(|key| cut.is_above_before(key));
        match self.keys.get(index) {
            Some(key) => Some(key.key()),
            None => None,
        }
    }

    /// The joint value of the keys and gaps between two cuts. It costs a search for each cut, and a
    /// step for each node between them.
    pub fn join_between(&self, from: &PrefixedCut<'_>, to: &PrefixedCut<'_>) -> Value
        requires order { is_below from.now to.now ≡ true }
        ensures { result ≡ answer_of self.now (between from.now to.now) }
    {
        let mut best = Value::unowned(Timestamp::ZERO);
        let (keys, gaps) = self.lists().indices_between(from, to, (None, None));
        for index in keys {
            best.raise(&self.values[index].value);
        }
        for index in gaps {
            best.raise(&self.values[index].gap);
        }
        best
    }

    /// The value of a key, or of the gap in which it falls. It costs a search.
    pub fn value_at(&self, key: &SearchKey<'_>) -> Value
        ensures { result ≡ answer_of self.now (point key.now) }
    {
        let mut best = Value::unowned(Timestamp::ZERO);
        match self.lists().find(key) {
            Ok(index) => {
                best.raise(&self.values[index].value);
                best
            }
            Err(0) => best,
            Err(index) => {
                best.raise(&self.values[index - 1].gap);
                best
            }
        }
    }

    /// Ratchets a value into the keys and gaps between two cuts. It costs what `join_between` does,
    /// and takes no memory.
    pub fn raise_between(&mut self, from: &PrefixedCut<'_>, to: &PrefixedCut<'_>, value: Value)
        requires order { is_below from.now to.now ≡ true }
        ensures { self.new ≡ raise_nodes (between from.now to.now) value self.old }
    {
        self.raise_hinted(from, to, (None, None), value);
    }

    /// Ratchets a value as `raise_between` does, where the keys of the cuts may stand at the places
    /// of `hint`. For a key that does, a look at its place replaces the search.
    pub fn raise_hinted(
        &mut self,
        from: &PrefixedCut<'_>,
        to: &PrefixedCut<'_>,
        hint: (Option<usize>, Option<usize>),
        value: Value,
    )
        requires order { is_below from.now to.now ≡ true }
        ensures { self.new ≡ raise_nodes (between from.now to.now) value self.old }
    {
        raise_values(
            self.keys.as_slice(),
            &mut self.values,
            from,
            to,
            hint,
            value,
        );
    }

    /// Copies of the keys that have no node, with the places for them. Where both have nodes no
    /// memory is asked for. It costs a search for each key.
    fn new_keys(
        &self,
        first: Option<&KeyRef<'_>>,
        second: Option<&KeyRef<'_>>,
    ) -> Result<NewKeys, NoMemory>
        ensures first { IfOk result
            (λ new. IsNewKey self.now (option_map (λ k. k.now) first.entry) new.first) }
        ensures second { IfOk result
            (λ new. IsNewKey self.now (option_map (λ k. k.now) second.entry) new.second) }
        ensures memory { HasNodes self.now (option_map (λ k. k.now) first.entry)
            (option_map (λ k. k.now) second.entry) → IsOk result }
        ensures known { IfOk result
            (λ new. HasNodes self.now (option_map (λ k. k.now) first.entry)
            (option_map (λ k. k.now) second.entry)
            → new_count new.first new.second ≡ 0) }
        ensures hint { IfOk result
            (λ new. IsInOrder (option_map (λ k. k.now) first.entry)
            (option_map (λ k. k.now) second.entry)
            → BothStandWhereReported (with_new (with_new self.now new.second) new.first)
            (option_map (λ k. k.now) first.entry) (option_map (λ k. k.now) second.entry)
            new.hint) }
    {
        let alloc = *self.values.allocator();
        let lists = self.lists();
        let (low, first) = lists.new_key(alloc, first)?;
        let (high, second) = lists.new_key(alloc, second)?;
        let hint = (low, moved(high, first.is_some()));
        Ok(NewKeys {
            first,
            second,
            hint,
        })
    }

    /// Makes nodes of new keys, of which the first is the smaller. A list of keys that others hold
    /// too is copied; then, and where a list has no room, it takes memory. It costs a move of what
    /// stands above each new node.
    fn make(&mut self, new: NewKeys) -> Result<(), NoMemory>
        requires second { FitsIn self.old new.second }
        requires first { FitsIn (with_new self.old new.second) new.first }
        ensures { OnOk result (self.new ≡ with_new (with_new self.old new.second) new.first) }
    {
        own_keys(&mut self.keys)?;
        let keys = Arc::make_mut(&mut self.keys)?;
        reserve(keys, &mut self.values, &new)?;
        split(keys, &mut self.values, new.second);
        split(keys, &mut self.values, new.first);
        Ok(())
    }

    /// Makes a node of a key, where it has none. A list of keys that others hold too is copied
    /// then, and it takes the memory of a copy of the key. It costs a search, and a move of what
    /// stands above a new node.
    pub fn make_node(&mut self, key: &KeyRef<'_>) -> Result<(), NoMemory>
        ensures { OnOk result (MakesNodes self.old self.new (Some key.now) None) }
    {
        let new = self.new_keys(Some(key), None)?;
        self.make(new)
    }

    /// Makes nodes of the keys that have none, of which the first is the smaller, and ratchets a
    /// value into the keys and gaps between two cuts; tells what came in. Where that would be more
    /// than `room`, or where something would and others hold the list of keys too, nothing changes,
    /// and `None` says so; nor where memory is refused. Where both keys have nodes no memory is
    /// asked for.
    pub fn insert_in_place(
        &mut self,
        add: &PrefixedInsertion<'_>,
        room: Growth,
    ) -> Result<Option<Growth>, NoMemory>
        ensures reported { IsReported self.old self.new add.now room result }
    {
        let new = self.new_keys(add.first, add.second)?;
        let made = new.grown();
        if made.nodes > room.nodes || made.bytes > room.bytes {
            return Ok(None);
        }
        if made.nodes == 0 {
            self.raise_hinted(add.from, add.to, new.hint, add.value);
            return Ok(Some(Growth { nodes: 0, bytes: 0 }));
        }
        let Some(keys) = Arc::get_mut(&mut self.keys) else {
            return Ok(None)
        };
        let values = &mut self.values;
        reserve(keys, values, &new)?;
        insert_between(keys, values, new, add);
        Ok(Some(made))
    }

    /// Adds to two lists of nodes as `insert_in_place` does to one: `starts` to `low`, and `stops`
    /// to `high`, which stands behind it. Each gets a node more at the most. All memory is asked
    /// for before the first change; where others hold the keys of `high` too, nothing changes
    /// either.
    pub fn insert_across(
        low: &mut Nodes,
        high: &mut Nodes,
        starts: &PrefixedInsertion<'_>,
        stops: &PrefixedInsertion<'_>,
        room: u32,
    ) -> Result<Option<Growth>, NoMemory>
        ensures reported { IsBothReported low.old low.new high.old high.new starts.now stops.now
            room result }
    {
        let new = high.new_keys(stops.first, stops.second)?;
        let made = new.grown();
        if made.nodes > 1 || made.bytes > room {
            return Ok(None);
        }
        let Some(keys) = Arc::get_mut(&mut high.keys) else {
            return Ok(None)
        };
        let values = &mut high.values;
        reserve(keys, values, &new)?;
        let rest = Growth {
            nodes: 1,
            bytes: room - made.bytes,
        };
        let Some(more) = low.insert_in_place(starts, rest)? else {
            return Ok(None)
        };
        insert_between(keys, values, new, stops);
        Ok(Some(Growth {
            nodes: more.nodes + made.nodes,
            bytes: more.bytes + made.bytes,
        }))
    }

    /// Adds a value at a key, and tells what came in. Where the key lies below the first node, or
    /// is new and what comes in would be more than `room`, or others hold the list of keys too,
    /// nothing changes, and `None` says so; nor where memory is refused. It costs a search, and for
    /// a new key its copy and a move of what stands above it.
    pub fn add_key(
        &mut self,
        add: &KeyInsertion<'_>,
        room: Growth,
    ) -> Result<Option<Growth>, NoMemory>
        ensures reported { IsKeyReported self.old self.new add.now room result }
    {
        match self.lists().find(add.search()) {
            Ok(index) => {
                self.values[index].value.raise(&add.value);
                Ok(Some(Growth { nodes: 0, bytes: 0 }))
            }
            Err(index) => self.insert_key(index, add, room),
        }
    }

    /// Adds a value at a new key as `add_key` does, by the place for the key.
    fn insert_key(
        &mut self,
        index: usize,
        add: &KeyInsertion<'_>,
        room: Growth,
    ) -> Result<Option<Growth>, NoMemory>
        requires falls { FallsAt self.old add.now.key index }
        ensures reported { IsKeyReported self.old self.new add.now room result }
    {
        let more = Growth {
            nodes: 1,
            bytes: add.cost(),
        };
        if index == 0 || room.nodes < more.nodes || room.bytes < more.bytes {
            return Ok(None);
        }
        let Some(keys) = Arc::get_mut(&mut self.keys) else {
            return Ok(None)
        };
        insert(keys, &mut self.values, index, add)?;
        Ok(Some(more))
    }

    /// Takes off the nodes behind the first 32. It takes the memory of two lists for them, and that
    /// of a copy of the list of keys where others hold it too.
    pub fn cut(&mut self) -> Result<Nodes, NoMemory>
        requires long { 32 ≤ length self.old }
        ensures kept { OnOk result (self.new ≡ take 32 self.old) }
        ensures rest { IfOk result (λ upper. upper ≡ drop 32 self.old) }
    {
        let alloc = *self.values.allocator();
        let (_, upper) = self.values.as_slice().split_at(LOWER_HALF);
        let values = Vec::from_slice(alloc, upper)?;
        let keys = Arc::make_mut(&mut self.keys)?.split_off(LOWER_HALF)?;
        self.values.truncate(LOWER_HALF);
        Ok(Nodes {
            keys: Arc::new(alloc, keys)?,
            values,
        })
    }
}

/// A clone shares the keys, and has room for the values of two nodes more. It takes the memory of a
/// list of values.
impl Clone for Nodes {
    ghost is_clone = { λ nodes copy. copy ≡ nodes };

    fn clone(&self) -> Result<Nodes, AllocError> {
        let mut values = Vec::with_capacity(*self.values.allocator(), self.values.len() + 2)?;
        values.extend_from_slice(self.values.as_slice())?;
        Ok(Nodes {
            keys: Arc::try_clone(&self.keys)?,
            values,
        })
    }
}
