//! A page's tree with its counts: how many nodes there are, and what their keys cost. An Add is
//! refused here if the page has no room.
ghost use Rattle.std.specs.Prelude.{◌≡◌, ◌<◌, ◌≤◌, ◌+◌, [], ◌∷◌, ◌++◌, length, slice_get, true, false, nat_le, IfOk, IfSome, option_map, option_to_list};
ghost use Rattle.tsc_span.specs.Span.{is_below, between, point, key_cost};
ghost use Rattle.tsc_span.specs.Cuts.{cut_of};
ghost use Rattle.tsc_page_model.specs.Limits.{most_size};
ghost use Rattle.tsc_page_model.specs.PageView.{is_new_among, new_weight};
ghost use Rattle.tsc_page_model.specs.KeysAbove.{first_above};
ghost use Rattle.tsc_page_nodes.specs.Nodes.{IsSplitAt, GrowsBy, node_keys, answer_of};
ghost use Rattle.tsc_page_tree.specs.KeyAdds.{at_key};
ghost use Rattle.tsc_page_tree.specs.Roots.{root_nodes, IsWholeRoot, IsOrderedRoot, IsKnown, IsTryReported, IsInsertedReported};

use crate::root::Root;
use crate::span_insertion::Insertion;
use std::alloc::Global;
use std::marker::Model;
use tsc_page_nodes::memory::keys_memory;
use tsc_page_nodes::{Growth, KeyInsertion};
use tsc_span::{Cut, Key, KeyRef, PrefixedCut, SearchKey};
use tsc_time::{NoMemory, Value};

/// The nodes of a page in leaves that are all equally deep below a root, with how many there are
/// and what their keys cost. What others hold too is never changed.
#[derive(Debug, Drop)]
pub struct Tree {
    root: Root,
    count: usize,
    bytes: u32,
}

impl Model for Tree {
    ghost use Rattle.tsc_page_tree.specs.Roots.{TreeView, root_nodes, root_sizes, IsCounted};

    ghost Value = { TreeView };

    ghost view = { λ t. record {
      nodes = root_nodes t.root;
      sizes = root_sizes t.root;
      bytes = t.bytes;
    } };

    ghost invariant = { λ t. IsCounted t.root t.count t.bytes };
}

impl Tree {
    pub fn new(alloc: Global) -> Tree
        ensures { result ≡ record { nodes = []; sizes = []; bytes = 0 } }
    {
        Tree {
            root: Root::new(alloc),
            count: 0,
            bytes: 0,
        }
    }

    /// How many nodes there are.
    pub fn len(&self) -> usize
        ensures { result ≡ length self.now.nodes }
    {
        self.count
    }

    /// What their keys cost together.
    pub fn bytes(&self) -> u32
        ensures { result ≡ self.now.bytes }
    {
        self.bytes
    }

    /// How many bytes the blocks of memory have that hold the tree's nodes.
    pub fn memory(&self) -> u64 {
        self.root
            .memory()
            .saturating_add(keys_memory(self.count, self.bytes))
    }

    /// How many nodes a leaf has.
    pub fn leaf_len(&self, index: usize) -> Option<usize>
        ensures value { result ≡ slice_get self.now.sizes index }
        ensures few { IfSome result (λ len. len ≤ 64) }
    {
        self.root.leaf_len(index).ok()
    }

    /// Whether this is a key that has no node.
    fn is_new(&self, key: Option<&KeyRef<'_>>) -> bool
        ensures { result ≡ is_new_among (node_keys self.now.nodes)
            (option_map (λ k. k.now) key.entry) }
    {
        match key {
            Some(key) => self.root.is_new(key),
            None => false,
        }
    }

    /// What a key costs, where this is one and has no node.
    fn new_cost(&self, key: Option<&KeyRef<'_>>) -> u32
        ensures value { result ≡ new_weight key_cost (node_keys self.now.nodes)
            (option_map (λ k. k.now) key.entry) }
        ensures most { result ≤ 4128 }
    {
        match key {
            Some(key) if self.is_new(Some(key)) => key.cost(),
            _ => 0,
        }
    }

    /// Whether the nodes cost no more than `most` with those of two keys that have none. The keys
    /// are searched for only where that depends on whether they have nodes.
    pub fn has_room(
        &self,
        first: Option<&KeyRef<'_>>,
        second: Option<&KeyRef<'_>>,
        most: u32,
    ) -> bool
        requires within { self.now.bytes ≤ most_size }
        ensures known { IsKnown self.now }
        ensures value { result ≡ nat_le
            (self.now.bytes + new_weight key_cost (node_keys self.now.nodes)
            (option_map (λ k. k.now) first.entry)
            + new_weight key_cost (node_keys self.now.nodes)
            (option_map (λ k. k.now) second.entry)) most }
    {
        if self.bytes + cost(first) + cost(second) <= most {
            return true;
        }
        self.bytes + self.new_cost(first) + self.new_cost(second) <= most
    }

    /// The joint value of the keys and gaps between two cuts.
    pub fn join_between(&self, from: Cut<'_>, to: Cut<'_>) -> Value
        requires order { is_below (cut_of from) (cut_of to) ≡ true }
        ensures { result ≡ answer_of self.now.nodes
            (between (cut_of from.entry) (cut_of to.entry)) }
    {
        let (from, to) = (PrefixedCut::new(from), PrefixedCut::new(to));
        self.root.join_between(&from, &to)
    }

    /// The joint value of what overlaps a key.
    pub fn value_at(&self, key: &[u8]) -> Value
        ensures { result ≡ answer_of self.now.nodes (point key.now) }
    {
        self.root.value_at(&SearchKey::new(key))
    }

    /// The least key above a cut.
    pub fn key_above(&self, cut: Cut<'_>) -> Option<&Key>
        ensures { option_map (λ k. k.now) result ≡ first_above (cut_of cut.entry)
            (node_keys self.now.nodes) }
    {
        self.root.key_above(&PrefixedCut::new(cut))
    }

    /// A copy of the tree, which shares all below the root.
    pub fn try_copy(&self) -> Result<Tree, NoMemory>
        ensures { IfOk result (λ copy. copy ≡ self.now) }
    {
        Ok(Tree {
            root: self.root.try_copy()?,
            count: self.count,
            bytes: self.bytes,
        })
    }

    /// The tree with nodes of the keys that have none, and the value ratcheted into the keys and
    /// gaps between the cuts; `None` where the nodes would then cost more than `most`. What the
    /// insertion doesn't reach is shared.
    pub fn inserted(&self, add: &Insertion<'_>, most: u32) -> Result<Option<Tree>, NoMemory>
        requires within { self.now.bytes ≤ most }
        requires small { most ≤ most_size }
        ensures reported { IsInsertedReported self.now add.now most result }
    {
        if !self.has_room(add.first, add.second, most) {
            return Ok(None);
        }
        let upper = with_node(self.root.try_copy()?, add.second)?;
        let lower = with_node(upper.root, add.first)?;
        let mut root = lower.root;
        root.raise_between(add.from, add.to, add.value)?;
        let count = self.count + upper.more.nodes + lower.more.nodes;
        let bytes = self.bytes + upper.more.bytes + lower.more.bytes;
        Ok(Some(Tree { root, count, bytes }))
    }

    /// Inserts in place, as [`Root::insert`] tells, where there is room. Says whether it did; else
    /// nothing changes, nor where memory is refused.
    pub fn insert_in_place(&mut self, add: &Insertion<'_>, most: u32) -> Result<bool, NoMemory>
        requires within { self.old.bytes ≤ most }
        requires small { most ≤ most_size }
        ensures reported { IsTryReported self.old self.new add.now most result }
    {
        let room = most - self.bytes;
        match self.root.insert(add, room)? {
            Some(more) => {
                self.count += more.nodes;
                self.bytes += more.bytes;
                Ok(true)
            }
            None => Ok(false),
        }
    }

    /// Adds at a single key in place, as [`Root::add_key`] tells, where there is room.
    /// Says whether it did; else nothing changes, nor where memory is refused.
    pub fn add_key(&mut self, add: &KeyInsertion<'_>, most: u32) -> Result<bool, NoMemory>
        requires within { self.old.bytes ≤ most }
        requires small { most ≤ most_size }
        ensures reported { IsTryReported self.old self.new (at_key add.now) most result }
    {
        let room = most - self.bytes;
        match self.root.add_key(add, room)? {
            Some(grown) => {
                self.count += grown.nodes;
                self.bytes += grown.bytes;
                Ok(true)
            }
            None => Ok(false),
        }
    }
}

/// A root in which nodes were made, and what came in.
#[derive(Drop)]
struct Inserted {
    root: Root,
    more: Growth,
}

/// Makes a node of a key, where there is one and it has none.
fn with_node(root: Root, key: Option<&KeyRef<'_>>) -> Result<Inserted, NoMemory>
    requires root { IsOrderedRoot root }
    ensures split { IfOk result (λ made. IsSplitAt (root_nodes root) (root_nodes made.root)
        (option_to_list (option_map (λ k. k.now) key.entry))) }
    ensures whole { IfOk result (λ made. IsWholeRoot made.root) }
    ensures grown { IfOk result (λ made. GrowsBy (root_nodes root) (root_nodes made.root)
        made.more) }
    ensures few { IfOk result (λ made. (made.more.nodes ≤ 1) × (made.more.bytes ≤ 4128)) }
{
    match key {
        Some(key) if root.is_new(key) => Ok(Inserted {
            root: root.with_node(key)?,
            more: Growth {
                nodes: 1,
                bytes: key.cost(),
            },
        }),
        _ => Ok(Inserted {
            root,
            more: Growth { nodes: 0, bytes: 0 },
        }),
    }
}

/// What a key costs, where there is one.
fn cost(key: Option<&KeyRef<'_>>) -> u32
    ensures value { result ≡ new_weight key_cost [] (option_map (λ k. k.now) key.entry) }
    ensures most { result ≤ 4128 }
{
    match key {
        Some(key) => key.cost(),
        None => 0,
    }
}
