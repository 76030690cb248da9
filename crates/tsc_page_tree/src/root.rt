//! The top of a page's tree. It has an arm for each height, since the type of a subtree says how
//! high it is.
ghost use Rattle.std.specs.Prelude.{◌≡◌, ◌≤◌, [], ◌∷◌, length, map, true, not, option_map, IfOk, OnOk};
ghost use Rattle.tsc_span.specs.Span.{is_below, between, point};
ghost use Rattle.tsc_span.specs.Cuts.{cut_of};
ghost use Rattle.tsc_time.specs.Time.{zero_time};
ghost use Rattle.tsc_time.specs.ValueView.{unowned};
ghost use Rattle.tsc_page_model.specs.PageView.{is_in};
ghost use Rattle.tsc_page_model.specs.KeysAbove.{first_above};
ghost use Rattle.tsc_page_nodes.specs.Nodes.{node_in_gap, node_keys, answer_of, raise_nodes};
ghost use Rattle.tsc_page_tree.specs.Leaves.{AreSubtrees, HasNode, nodes_of};
ghost use Rattle.tsc_page_tree.specs.Lazy.{ReportsSize, IsAddReported};
ghost use Rattle.tsc_page_tree.specs.Copies.{IsSameAs};
ghost use Rattle.tsc_page_tree.specs.KeyAdds.{IsKeyAddReported};
ghost use Rattle.tsc_page_tree.specs.Trees.{leaf_nodes, leaf_sizes, IsWholeLeaf, sibling_nodes, AreWholeSiblings, AreFewSubtrees};
ghost use Rattle.tsc_page_tree.specs.Roots.{root_nodes, root_sizes, IsWholeRoot, IsOrderedRoot, AreEnds};

use crate::branch::{self, Branch, Siblings};
use crate::leaf::Leaf;
use crate::span_insertion::Insertion;
use crate::subtrees;
use std::alloc::Global;
use tsc_page_nodes::{Growth, KeyInsertion, Nodes, PrefixedInsertion};
use tsc_span::{Cut, Key, KeyRef, PrefixedCut, SearchKey};
use tsc_time::{NoMemory, Value};

/// The top of a tree: a list of subtrees, which are as high as it takes to have 64 of them at the
/// most. Only that of the highest kind has no bound. A subtree has at least 32 of the next kind, so
/// the greatest page fills it with some 30.
#[derive(Debug, Drop)]
pub(crate) enum Root {
    One(Vec<Leaf>),
    Two(Vec<Branch<Leaf>>),
    Three(Vec<Branch<Branch<Leaf>>>),
    Four(Vec<Branch<Branch<Branch<Leaf>>>>),
}

impl Root {
    /// A root without leaves.
    pub(crate) fn new(alloc: Global) -> Root
        ensures nodes { root_nodes result ≡ [] }
        ensures sizes { root_sizes result ≡ [] }
        ensures whole { IsWholeRoot result }
    {
        Root::One(Vec::new(alloc))
    }

    /// How many nodes a leaf has; `Err` tells how many places behind the last leaf this is.
    pub(crate) fn leaf_len(&self, index: usize) -> Result<usize, usize>
        ensures { ReportsSize (root_sizes self.now) index result }
    {
        match self {
            Root::One(subtrees) => subtrees::leaf_len(subtrees, index),
            Root::Two(subtrees) => subtrees::leaf_len(subtrees, index),
            Root::Three(subtrees) => subtrees::leaf_len(subtrees, index),
            Root::Four(subtrees) => subtrees::leaf_len(subtrees, index),
        }
    }

    /// How many bytes the blocks of memory have that hold what lies below the root, but for the
    /// keys themselves.
    pub(crate) fn memory(&self) -> u64 {
        match self {
            Root::One(subtrees) => subtrees::memory(subtrees),
            Root::Two(subtrees) => subtrees::memory(subtrees),
            Root::Three(subtrees) => subtrees::memory(subtrees),
            Root::Four(subtrees) => subtrees::memory(subtrees),
        }
    }

    /// Whether this is a key that has no node.
    pub(crate) fn is_new(&self, key: &KeyRef<'_>) -> bool
        requires root { IsOrderedRoot self.now }
        ensures { result ≡ not (is_in key.now (node_keys (root_nodes self.now))) }
    {
        match self {
            Root::One(subtrees) => subtrees::is_new(subtrees, key),
            Root::Two(subtrees) => subtrees::is_new(subtrees, key),
            Root::Three(subtrees) => subtrees::is_new(subtrees, key),
            Root::Four(subtrees) => subtrees::is_new(subtrees, key),
        }
    }

    /// The least key above a cut.
    pub(crate) fn key_above(&self, cut: &PrefixedCut<'_>) -> Option<&Key>
        requires root { IsOrderedRoot self.now }
        ensures { option_map (λ k. k.now) result ≡ first_above cut.now
            (node_keys (root_nodes self.now)) }
    {
        match self {
            Root::One(subtrees) => subtrees::key_above(subtrees, cut),
            Root::Two(subtrees) => subtrees::key_above(subtrees, cut),
            Root::Three(subtrees) => subtrees::key_above(subtrees, cut),
            Root::Four(subtrees) => subtrees::key_above(subtrees, cut),
        }
    }

    /// The joint value of the keys and gaps between two cuts.
    pub(crate) fn join_between(&self, from: &PrefixedCut<'_>, to: &PrefixedCut<'_>) -> Value
        requires root { IsOrderedRoot self.now }
        requires order { is_below from.now to.now ≡ true }
        ensures { result ≡ answer_of (root_nodes self.now) (between from.now to.now) }
    {
        match self {
            Root::One(subtrees) => subtrees::join_between(subtrees, from, to),
            Root::Two(subtrees) => subtrees::join_between(subtrees, from, to),
            Root::Three(subtrees) => subtrees::join_between(subtrees, from, to),
            Root::Four(subtrees) => subtrees::join_between(subtrees, from, to),
        }
    }

    /// The joint value of what overlaps a key.
    pub(crate) fn value_at(&self, key: &SearchKey<'_>) -> Value
        requires root { IsOrderedRoot self.now }
        ensures { result ≡ answer_of (root_nodes self.now) (point key.now) }
    {
        match self {
            Root::One(subtrees) => subtrees::value_at(subtrees, key),
            Root::Two(subtrees) => subtrees::value_at(subtrees, key),
            Root::Three(subtrees) => subtrees::value_at(subtrees, key),
            Root::Four(subtrees) => subtrees::value_at(subtrees, key),
        }
    }

    /// A copy of the root, which has a list of its own and shares all below that.
    pub(crate) fn try_copy(&self) -> Result<Root, NoMemory>
        ensures { IfOk result (λ copy. IsSameAs root_nodes root_sizes IsWholeRoot self.now copy) }
    {
        match self {
            Root::One(subtrees) => Ok(Root::One(subtrees.clone()?)),
            Root::Two(subtrees) => Ok(Root::Two(subtrees.clone()?)),
            Root::Three(subtrees) => Ok(Root::Three(subtrees.clone()?)),
            Root::Four(subtrees) => Ok(Root::Four(subtrees.clone()?)),
        }
    }

    /// The root with a node of a key, where it has none. Where the subtrees would then be more than
    /// a branch has, they come into two branches, of which the root then is.
    pub(crate) fn with_node(self, key: &KeyRef<'_>) -> Result<Root, NoMemory>
        requires root { IsOrderedRoot self }
        ensures made { IfOk result (λ root. HasNode (root_nodes self) (root_nodes root) key.now) }
        ensures whole { IfOk result IsWholeRoot }
    {
        match self {
            Root::One(subtrees) => match leaves_with_node(subtrees, key)? {
                Siblings::Subtrees(subtrees) => Ok(Root::One(subtrees)),
                Siblings::Branches(branches) => Ok(Root::Two(branches)),
            },
            Root::Two(subtrees) => match branch::with_node(subtrees, key)? {
                Siblings::Subtrees(subtrees) => Ok(Root::Two(subtrees)),
                Siblings::Branches(branches) => Ok(Root::Three(branches)),
            },
            Root::Three(subtrees) => match branch::with_node(subtrees, key)? {
                Siblings::Subtrees(subtrees) => Ok(Root::Three(subtrees)),
                Siblings::Branches(branches) => Ok(Root::Four(branches)),
            },
            Root::Four(mut subtrees) => {
                let alloc = *subtrees.allocator();
                subtrees::make_node(&mut subtrees, alloc, key)?;
                Ok(Root::Four(subtrees))
            }
        }
    }

    /// Ratchets a value into the keys and gaps between two cuts, and changes nothing that others
    /// hold. Where memory is refused nothing is known of the root.
    pub(crate) fn raise_between(
        &mut self,
        from: Cut<'_>,
        to: Cut<'_>,
        value: Value,
    ) -> Result<(), NoMemory>
        requires root { IsOrderedRoot self.old }
        requires order { is_below (cut_of from) (cut_of to) ≡ true }
        ensures raised { OnOk result
            (root_nodes self.new ≡ raise_nodes (between (cut_of from.entry) (cut_of to.entry)) value
            (root_nodes self.old)) }
        ensures whole { OnOk result (IsWholeRoot self.new) }
    {
        match self {
            Root::One(subtrees) => subtrees::raise_between(subtrees, from, to, value),
            Root::Two(subtrees) => subtrees::raise_between(subtrees, from, to, value),
            Root::Three(subtrees) => subtrees::raise_between(subtrees, from, to, value),
            Root::Four(subtrees) => subtrees::raise_between(subtrees, from, to, value),
        }
    }

    /// Inserts in place, as [`subtrees::Subtree::add_within`] tells.
    pub(crate) fn insert(
        &mut self,
        add: &Insertion<'_>,
        room: u32,
    ) -> Result<Option<Growth>, NoMemory>
        requires root { IsOrderedRoot self.old }
        ensures reported { IsAddReported (root_nodes self.old) (root_nodes self.new)
            (root_sizes self.old) (root_sizes self.new) add.now room result }
        ensures whole { IsWholeRoot self.new }
        ensures ends { AreEnds add.now }
    {
        let (from, to) = (&PrefixedCut::new(add.from), &PrefixedCut::new(add.to));
        let bounds = PrefixedInsertion {
            first: add.first,
            second: add.second,
            from,
            to,
            value: add.value,
        };
        self.add_within(&bounds, room)
    }

    /// Adds at a single key in place, as [`subtrees::Subtree::add_key`] tells.
    pub(crate) fn add_key(
        &mut self,
        add: &KeyInsertion<'_>,
        room: u32,
    ) -> Result<Option<Growth>, NoMemory>
        requires root { IsOrderedRoot self.old }
        ensures reported { IsKeyAddReported (root_nodes self.old) (root_nodes self.new)
            (root_sizes self.old) (root_sizes self.new) add.now room result }
        ensures whole { IsWholeRoot self.new }
    {
        match self {
            Root::One(subtrees) => subtrees::add_key(subtrees, add, room),
            Root::Two(subtrees) => subtrees::add_key(subtrees, add, room),
            Root::Three(subtrees) => subtrees::add_key(subtrees, add, room),
            Root::Four(subtrees) => subtrees::add_key(subtrees, add, room),
        }
    }

    /// Adds in place, as [`subtrees::Subtree::add_within`] tells.
    fn add_within(
        &mut self,
        add: &PrefixedInsertion<'_>,
        room: u32,
    ) -> Result<Option<Growth>, NoMemory>
        requires root { IsOrderedRoot self.old }
        ensures reported { IsAddReported (root_nodes self.old) (root_nodes self.new)
            (root_sizes self.old) (root_sizes self.new) add.now room result }
        ensures whole { IsWholeRoot self.new }
    {
        match self {
            Root::One(subtrees) => subtrees::add_within(subtrees, add, room),
            Root::Two(subtrees) => subtrees::add_within(subtrees, add, room),
            Root::Three(subtrees) => subtrees::add_within(subtrees, add, room),
            Root::Four(subtrees) => subtrees::add_within(subtrees, add, room),
        }
    }
}

/// Makes a node of a key among leaves, of which it may be the first, where it has none.
fn leaves_with_node(leaves: Vec<Leaf>, key: &KeyRef<'_>) -> Result<Siblings<Leaf>, NoMemory>
    requires subtrees { AreSubtrees leaf_nodes IsWholeLeaf leaves.items }
    requires few { length leaves.items ≤ 64 }
    ensures made { IfOk result (λ siblings. HasNode (nodes_of (map leaf_nodes leaves.items))
        (sibling_nodes leaf_nodes siblings) key.now) }
    ensures whole { IfOk result (AreWholeSiblings leaf_nodes leaf_sizes IsWholeLeaf) }
{
    if leaves.len() == 0 {
        Ok(Siblings::Subtrees(first_leaf(*leaves.allocator(), key)?))
    } else {
        branch::with_node(leaves, key)
    }
}

/// A list of one leaf, which has a node of a key alone.
fn first_leaf(alloc: Global, key: &KeyRef<'_>) -> Result<Vec<Leaf>, NoMemory>
    ensures nodes { IfOk result (λ leaves. nodes_of (map leaf_nodes leaves.items) ≡
        node_in_gap key.now (unowned zero_time) ∷ []) }
    ensures whole { IfOk result (λ leaves. AreFewSubtrees IsWholeLeaf leaves.items) }
{
    let mut leaves = Vec::with_capacity(alloc, 1)?;
    leaves.push(Leaf::new(alloc, Nodes::of_key(alloc, key)?)?)?;
    Ok(leaves)
}
