//! A leaf as a subtree: its nodes, and what is known of all of them.
ghost use Rattle.std.specs.Prelude.{◌≡◌, ◌≤◌, ◌++◌, length, true, false, is_some, option_map, None, IfOk, OnOk, IfSome};
ghost use Rattle.tsc_span.specs.Span.{last, is_below, between};
ghost use Rattle.tsc_page_nodes.specs.Nodes.{IsSorted, raise_nodes};
ghost use Rattle.tsc_page_tree.specs.Leaves.{IsLeaf, IsSubtree, HasNode, start_of};
ghost use Rattle.tsc_page_tree.specs.Lazy.{with_lazy, all_joint};
ghost use Rattle.tsc_page_tree.specs.Across.{HasKey, IsKnownReported, IsAcrossReported};
ghost use Rattle.tsc_page_tree.specs.Copies.{KeepsSizes};
ghost use Rattle.tsc_page_tree.specs.Trees.{nodes_in, leaf_nodes, leaf_sizes, leaf_copied, IsWholeLeaf, IsLeafCopy, IsReported};

use crate::aggregate::Aggregate;
use crate::subtrees::Subtree;
use std::alloc::{AllocError, Global};
use std::mem::size_of;
use std::sync::Arc;
use tsc_page_nodes::memory::shared_memory;
use tsc_page_nodes::{Growth, KeyInsertion, Nodes, PrefixedInsertion};
use tsc_span::{Cut, Key, KeyPrefix, KeyRef, Prefixed, PrefixedCut, SearchKey};
use tsc_time::{NoMemory, Value};

/// How many nodes a leaf has at the most.
const LEAF_NODES: usize = 64;

/// Nodes that others may hold too, with what is known of them all. They don't change while others
/// hold them.
#[derive(Debug, Drop)]
pub struct Leaf {
    pub(crate) aggregate: Aggregate,
    pub(crate) nodes: Arc<Nodes>,
}

/// How many bytes a subtree has in its list, of whichever kind it is.
pub(crate) const SUBTREE_BYTES: usize = size_of::<Leaf>();

impl Leaf {
    /// A leaf of nodes, without a lazy value.
    pub fn new(alloc: Global, nodes: Nodes) -> Result<Leaf, NoMemory>
        requires leaf { IsLeaf nodes }
        ensures nodes { IfOk result (λ leaf. leaf_nodes leaf ≡ nodes) }
        ensures whole { IfOk result IsWholeLeaf }
    {
        Ok(Leaf {
            aggregate: aggregate_of(&nodes),
            nodes: Arc::new(alloc, nodes)?,
        })
    }
}

/// A clone shares the nodes.
impl Clone for Leaf {
    ghost is_clone = { IsLeafCopy };

    fn clone(&self) -> Result<Leaf, AllocError> {
        Ok(Leaf {
            aggregate: self.aggregate,
            nodes: Arc::try_clone(&self.nodes)?,
        })
    }
}

impl Prefixed for Leaf {
    fn prefix(&self) -> &KeyPrefix {
        &self.aggregate.start
    }
}

impl Subtree for Leaf {
    ghost nodes = { leaf_nodes };

    ghost sizes = { leaf_sizes };

    ghost IsWhole = { IsWholeLeaf };

    fn starts_above(&self, cut: &PrefixedCut<'_>) -> bool {
        match cut.is_below_prefix(&self.aggregate.start) {
            Some(below) => below,
            None => self.nodes.starts_above(cut),
        }
    }

    fn starts_below(&self, cut: &PrefixedCut<'_>) -> bool {
        match cut.is_above_prefix(&self.aggregate.start) {
            Some(above) => above,
            None => self.nodes.starts_below(cut),
        }
    }

    fn start_prefix(&self) -> KeyPrefix {
        self.aggregate.start
    }

    fn joint(&self) -> Value {
        self.aggregate.joint
    }

    fn join_between(&self, from: &PrefixedCut<'_>, to: &PrefixedCut<'_>) -> Value {
        let below = self.nodes.join_between(from, to);
        self.aggregate.seen(below, self.starts_below(to))
    }

    fn value_at(&self, key: &SearchKey<'_>) -> Value {
        let below = self.nodes.value_at(key);
        match self.aggregate.lazy {
            None => below,
            Some(_) => self.aggregate.seen(below, self.starts_below(&key.past())),
        }
    }

    fn is_new(&self, key: &KeyRef<'_>) -> bool {
        self.nodes.find(key).is_err()
    }

    fn key_above(&self, cut: &PrefixedCut<'_>) -> Option<&Key> {
        self.nodes.key_above(cut)
    }

    fn leaf_len(&self, index: usize) -> Result<usize, usize> {
        match index.checked_sub(1) {
            Some(rest) => Err(rest),
            None => Ok(self.nodes.len()),
        }
    }

    fn memory(&self) -> u64 {
        shared_memory(size_of::<Nodes>()).saturating_add(self.nodes.memory())
    }

    fn raise_whole(&mut self, value: Value) {
        self.aggregate.raise(value);
    }

    fn raise_between(&mut self, from: Cut<'_>, to: Cut<'_>, value: Value) -> Result<(), NoMemory> {
        let (from, to) = (PrefixedCut::new(from), PrefixedCut::new(to));
        let nodes = Arc::make_mut(&mut self.nodes)?;
        nodes.raise_between(&from, &to, value);
        self.aggregate.reach(nodes.starts_below(&to), value);
        Ok(())
    }

    fn make_node(&mut self, alloc: Global, key: &KeyRef<'_>) -> Result<Option<Leaf>, NoMemory> {
        let nodes = Arc::make_mut(&mut self.nodes)?;
        push_down(nodes, &self.aggregate);
        let upper = grow(nodes, key)?;
        self.aggregate = aggregate_with(nodes, &self.aggregate, upper.is_some());
        match upper {
            Some(upper) => Ok(Some(Leaf::new(alloc, upper)?)),
            None => Ok(None),
        }
    }

    fn add_within(
        &mut self,
        add: &PrefixedInsertion<'_>,
        room: u32,
    ) -> Result<Option<Growth>, NoMemory> {
        let nodes = Arc::make_mut(&mut self.nodes)?;
        push_down(nodes, &self.aggregate);
        self.aggregate.lazy = None;
        let room = Growth {
            nodes: LEAF_NODES - nodes.len(),
            bytes: room,
        };
        let made = nodes.insert_in_place(add, room);
        let reached = nodes.starts_below(add.to);
        self.aggregate
            .update(&made, nodes.start_prefix(), reached, add.value);
        made
    }

    fn add_key(&mut self, add: &KeyInsertion<'_>, room: u32) -> Result<Option<Growth>, NoMemory> {
        let nodes = Arc::make_mut(&mut self.nodes)?;
        let room = Growth {
            nodes: LEAF_NODES - nodes.len(),
            bytes: room,
        };
        let made = nodes.add_key(add, room);
        let start = self.aggregate.start;
        self.aggregate.update(&made, start, true, add.value);
        made
    }

    fn add_across(
        low: &mut Leaf,
        high: &mut Leaf,
        add: &PrefixedInsertion<'_>,
        room: u32,
    ) -> Option<Growth> {
        if raise_known(low, high, add) {
            Some(Growth { nodes: 0, bytes: 0 })
        } else {
            insert_ends(low, high, add, room)
        }
    }

    ghost some = { λ l is. is.some };

    ghost counted = { λ l is. is.sizes };

    ghost copied = { leaf_copied };
}

/// What is known of nodes without a lazy value.
fn aggregate_of(nodes: &Nodes) -> Aggregate
    requires some { 1 ≤ length nodes.now }
    ensures reported { IsReported result nodes.now }
    ensures lazy { result.lazy ≡ None }
{
    let least = PrefixedCut::new(Cut::Before(&[]));
    let last = PrefixedCut::new(Cut::Last);
    Aggregate {
        start: nodes.start_prefix(),
        joint: nodes.join_between(&least, &last),
        lazy: None,
    }
}

/// What is known of nodes without a lazy value, by what was known before one of them was
/// made. A new node has the value of the gap in which it falls, so the joint value stays, unless
/// nodes were cut off.
fn aggregate_with(nodes: &Nodes, before: &Aggregate, cut: bool) -> Aggregate
    requires some { 1 ≤ length nodes.now }
    requires kept { cut ≡ false → before.now.joint ≡ all_joint nodes.now }
    ensures reported { IsReported result nodes.now }
    ensures lazy { result.lazy ≡ None }
{
    if cut {
        return aggregate_of(nodes);
    }
    Aggregate {
        start: nodes.start_prefix(),
        joint: before.joint,
        lazy: None,
    }
}

/// Ratchets the lazy value into nodes.
fn push_down(nodes: &mut Nodes, aggregate: &Aggregate)
    ensures { nodes.new ≡ with_lazy aggregate.now.lazy nodes.old }
{
    if let Some(lazy) = aggregate.lazy {
        let least = PrefixedCut::new(Cut::Before(&[]));
        let last = PrefixedCut::new(Cut::Last);
        nodes.raise_between(&least, &last, lazy);
    }
}

/// Ratchets a value into what lies above a cut, of nodes of which a aggregate tells. The key of the
/// cut may stand at a place that is told. Where all of them lie above it they aren't looked into.
fn raise_above(
    nodes: &mut Nodes,
    aggregate: &mut Aggregate,
    from: &PrefixedCut<'_>,
    hint: Option<usize>,
    value: Value,
)
    requires reported { IsReported aggregate.old nodes.old }
    requires sorted { IsSorted (with_lazy aggregate.old.lazy nodes.old) }
    requires order { is_below from.now last ≡ true }
    ensures raised { with_lazy aggregate.new.lazy nodes.new ≡
        raise_nodes (between from.now last) value (with_lazy aggregate.old.lazy nodes.old) }
    ensures reported { IsReported aggregate.new nodes.new }
    ensures len { length nodes.new ≡ length nodes.old }
{
    if nodes.starts_below(from) {
        nodes.raise_hinted(from, &PrefixedCut::new(Cut::Last), (hint, None), value);
        aggregate.reach(true, value);
    } else {
        aggregate.raise(value);
    }
}

/// Ratchets a value in place over two leaves, where both end keys have nodes and nobody else holds
/// the nodes, and says whether it did; else nothing changes.
fn raise_known(low: &mut Leaf, high: &mut Leaf, add: &PrefixedInsertion<'_>) -> bool
    requires low { IsSubtree leaf_nodes IsWholeLeaf low.old }
    requires high { IsSubtree leaf_nodes IsWholeLeaf high.old }
    requires reaches { is_below (start_of (leaf_nodes high.old)) add.now.to ≡ true }
    ensures reported { IsKnownReported (leaf_nodes low.old) (leaf_nodes low.new)
        (leaf_nodes high.old) (leaf_nodes high.new) add.now result }
    ensures low { KeepsSizes leaf_sizes IsWholeLeaf low.old low.new false }
    ensures high { KeepsSizes leaf_sizes IsWholeLeaf high.old high.new false }
{
    let Some(below) = Arc::get_mut(&mut low.nodes) else {
        return false
    };
    let Some(above) = Arc::get_mut(&mut high.nodes) else {
        return false
    };
    let Some(start) = known_index(below, add.first) else {
        return false
    };
    let Some(stop) = known_index(above, add.second) else {
        return false
    };
    raise_above(below, &mut low.aggregate, add.from, start, add.value);
    above.raise_hinted(
        &PrefixedCut::new(Cut::Before(&[])),
        add.to,
        (None, stop),
        add.value,
    );
    high.aggregate.reach(true, add.value);
    true
}

/// Makes nodes of the end keys in place in two leaves, and ratchets a value into what lies between:
/// where neither leaf has to be cut nor lies wholly above the lower cut, and nobody else holds the
/// nodes. Else nothing changes, nor where memory is refused.
fn insert_ends(
    low: &mut Leaf,
    high: &mut Leaf,
    add: &PrefixedInsertion<'_>,
    room: u32,
) -> Option<Growth>
    requires low { IsSubtree leaf_nodes IsWholeLeaf low.old }
    requires high { IsSubtree leaf_nodes IsWholeLeaf high.old }
    requires reaches { is_below (start_of (leaf_nodes high.old)) add.now.to ≡ true }
    ensures reported { IsAcrossReported (leaf_nodes low.old) (leaf_nodes low.new)
        (leaf_nodes high.old) (leaf_nodes high.new) add.now room result }
    ensures low { KeepsSizes leaf_sizes IsWholeLeaf low.old low.new (is_some result) }
    ensures high { KeepsSizes leaf_sizes IsWholeLeaf high.old high.new (is_some result) }
{
    let Some(below) = Arc::get_mut(&mut low.nodes) else {
        return None
    };
    let Some(above) = Arc::get_mut(&mut high.nodes) else {
        return None
    };
    if below.len() >= LEAF_NODES || above.len() >= LEAF_NODES || below.starts_above(add.from) {
        return None;
    }
    let least = PrefixedCut::new(Cut::Before(&[]));
    let last = PrefixedCut::new(Cut::Last);
    let starts = PrefixedInsertion {
        first: add.first,
        second: None,
        from: add.from,
        to: &last,
        value: add.value,
    };
    let stops = PrefixedInsertion {
        first: None,
        second: add.second,
        from: &least,
        to: add.to,
        value: add.value,
    };
    let Ok(Some(more)) = Nodes::insert_across(below, above, &starts, &stops, room) else {
        return None
    };
    low.aggregate.reach(true, add.value);
    high.aggregate.reach(true, add.value);
    Some(more)
}

/// Makes a node of a key, where it has none. Where there are then more than a leaf has, those
/// behind the first 32 come off.
fn grow(nodes: &mut Nodes, key: &KeyRef<'_>) -> Result<Option<Nodes>, NoMemory>
    requires leaf { IsLeaf nodes.old }
    ensures made { IfOk result (λ upper. HasNode nodes.old (nodes.new ++ nodes_in upper) key.now) }
    ensures leaf { OnOk result (IsLeaf nodes.new) }
    ensures upper { IfOk result (λ upper. IfSome upper (λ u. IsLeaf u)) }
{
    nodes.make_node(key)?;
    if nodes.len() > LEAF_NODES {
        Ok(Some(nodes.cut()?))
    } else {
        Ok(None)
    }
}

/// Where a key stands, where it is one; `None` where it has no node.
fn known_index(nodes: &Nodes, key: Option<&KeyRef<'_>>) -> Option<Option<usize>>
    ensures { IfSome result (λ _. HasKey (option_map (λ k. k.now) key.entry) nodes.now) }
{
    match key {
        Some(key) => match nodes.find(key) {
            Ok(index) => Some(Some(index)),
            Err(_) => None,
        },
        None => Some(None),
    }
}
