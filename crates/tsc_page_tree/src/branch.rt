//! A branch as a subtree: a list of subtrees that other pages may share, and what is known of all
//! nodes below.
ghost use Rattle.std.specs.Prelude.{◌≡◌, ◌≤◌, ◌++◌, length, map, take, drop, false, None, IfOk, OnOk, IfSome};
ghost use Rattle.std.specs.List.{All};
ghost use Rattle.tsc_page_nodes.specs.Nodes.{IsSorted};
ghost use Rattle.tsc_page_tree.specs.Leaves.{AreSubtrees, HasNode, nodes_of};
ghost use Rattle.tsc_page_tree.specs.Lazy.{with_lazy, all_joint};
ghost use Rattle.tsc_page_tree.specs.Trees.{branch_nodes, branch_sizes, branch_copied, AreFewSubtrees, AreBranchSubtrees, IsWholeBranch, IsBranchCopy, IsReported, items_in, sibling_nodes, AreWholeSiblings};

use crate::aggregate::Aggregate;
use crate::leaf::{Leaf, SUBTREE_BYTES};
use crate::subtrees::Subtree;
use crate::{across, subtrees};
use std::alloc::{AllocError, Global};
use std::mem::size_of;
use std::sync::Arc;
use tsc_page_nodes::memory::shared_memory;
use tsc_page_nodes::{Growth, KeyInsertion, PrefixedInsertion};
use tsc_span::{Cut, Key, KeyPrefix, KeyRef, Prefixed, PrefixedCut, SearchKey};
use tsc_time::{NoMemory, Value};

/// How many subtrees a branch has at the most.
const BRANCH_SUBTREES: usize = 64;

/// Subtrees one after another that others may hold too, with what is known of all their nodes. The
/// list of them doesn't change while others hold it.
#[derive(Debug, Drop)]
pub struct Branch<P> {
    pub(crate) aggregate: Aggregate,
    pub(crate) subtrees: Arc<Vec<P>>,
}

const _: () = prove!(size_of::<Branch<Leaf>>() == SUBTREE_BYTES);

impl<P: Subtree> Branch<P> {
    fn new(alloc: Global, subtrees: Vec<P>) -> Result<Branch<P>, NoMemory>
        requires subtrees { AreBranchSubtrees P.nodes P.IsWhole subtrees.items }
        ensures nodes { IfOk result
            (λ branch. branch_nodes P.nodes branch ≡ nodes_of (map P.nodes subtrees.items)) }
        ensures whole { IfOk result (IsWholeBranch P.nodes P.sizes P.IsWhole) }
    {
        Ok(Branch {
            aggregate: aggregate_of(&subtrees),
            subtrees: Arc::new(alloc, subtrees)?,
        })
    }

    /// Two branches, one after the other.
    fn pair(alloc: Global, lower: Vec<P>, upper: Vec<P>) -> Result<Vec<Branch<P>>, NoMemory>
        requires lower { AreFewSubtrees P.IsWhole lower.items }
        requires upper { AreFewSubtrees P.IsWhole upper.items }
        requires sorted { IsSorted
            (nodes_of (map P.nodes lower.items) ++ nodes_of (map P.nodes upper.items)) }
        ensures nodes { IfOk result
            (λ branches. nodes_of (map (branch_nodes P.nodes) branches.items) ≡
            nodes_of (map P.nodes lower.items) ++ nodes_of (map P.nodes upper.items)) }
        ensures whole { IfOk result
            (λ branches. AreFewSubtrees (IsWholeBranch P.nodes P.sizes P.IsWhole) branches.items) }
    {
        let mut branches = Vec::with_capacity(alloc, 2)?;
        branches.push(Branch::new(alloc, lower)?)?;
        branches.push(Branch::new(alloc, upper)?)?;
        Ok(branches)
    }
}

/// Subtrees of one kind, or branches of these.
#[derive(Drop)]
pub enum Siblings<P> {
    /// The subtrees themselves.
    Subtrees(Vec<P>),
    /// Branches of subtrees.
    Branches(Vec<Branch<P>>),
}

/// Makes a node of a key among subtrees, where it has none. Where there would then be more subtrees
/// than a branch has, they come into two branches.
pub fn with_node<P: Subtree>(subtrees: Vec<P>, key: &KeyRef<'_>) -> Result<Siblings<P>, NoMemory>
    requires subtrees { AreBranchSubtrees P.nodes P.IsWhole subtrees.items }
    ensures made { IfOk result (λ siblings. HasNode (nodes_of (map P.nodes subtrees.items))
        (sibling_nodes P.nodes siblings) key.now) }
    ensures whole { IfOk result (AreWholeSiblings P.nodes P.sizes P.IsWhole) }
{
    let mut subtrees = subtrees;
    let alloc = *subtrees.allocator();
    match grow(&mut subtrees, alloc, key)? {
        Some(upper) => Ok(Siblings::Branches(Branch::pair(alloc, subtrees, upper)?)),
        None => Ok(Siblings::Subtrees(subtrees)),
    }
}

/// A clone shares the list of subtrees.
impl<P: Drop> Clone for Branch<P> {
    ghost is_clone = { IsBranchCopy };

    fn clone(&self) -> Result<Branch<P>, AllocError> {
        Ok(Branch {
            aggregate: self.aggregate,
            subtrees: Arc::try_clone(&self.subtrees)?,
        })
    }
}

impl<P: Subtree> Prefixed for Branch<P> {
    fn prefix(&self) -> &KeyPrefix {
        &self.aggregate.start
    }
}

impl<P: Subtree> Subtree for Branch<P> {
    ghost nodes = { branch_nodes P.nodes };

    ghost sizes = { branch_sizes P.sizes };

    ghost IsWhole = { IsWholeBranch P.nodes P.sizes P.IsWhole };

    fn starts_above(&self, cut: &PrefixedCut<'_>) -> bool {
        match cut.is_below_prefix(&self.aggregate.start) {
            Some(below) => below,
            None => subtrees::first_starts_above(&self.subtrees, cut),
        }
    }

    fn starts_below(&self, cut: &PrefixedCut<'_>) -> bool {
        match cut.is_above_prefix(&self.aggregate.start) {
            Some(above) => above,
            None => subtrees::first_starts_below(&self.subtrees, cut),
        }
    }

    fn start_prefix(&self) -> KeyPrefix {
        self.aggregate.start
    }

    fn joint(&self) -> Value {
        self.aggregate.joint
    }

    fn join_between(&self, from: &PrefixedCut<'_>, to: &PrefixedCut<'_>) -> Value {
        let below = subtrees::join_between(&self.subtrees, from, to);
        self.aggregate.seen(below, self.starts_below(to))
    }

    fn value_at(&self, key: &SearchKey<'_>) -> Value {
        let below = subtrees::value_at(&self.subtrees, key);
        match self.aggregate.lazy {
            None => below,
            Some(_) => self.aggregate.seen(below, self.starts_below(&key.past())),
        }
    }

    fn is_new(&self, key: &KeyRef<'_>) -> bool {
        subtrees::is_new(&self.subtrees, key)
    }

    fn key_above(&self, cut: &PrefixedCut<'_>) -> Option<&Key> {
        subtrees::key_above(&self.subtrees, cut)
    }

    fn leaf_len(&self, index: usize) -> Result<usize, usize> {
        subtrees::leaf_len(&self.subtrees, index)
    }

    fn memory(&self) -> u64 {
        shared_memory(size_of::<Vec<Leaf>>()).saturating_add(subtrees::memory(&self.subtrees))
    }

    fn raise_whole(&mut self, value: Value) {
        self.aggregate.raise(value);
    }

    fn raise_between(&mut self, from: Cut<'_>, to: Cut<'_>, value: Value) -> Result<(), NoMemory> {
        let subtrees = Arc::make_mut(&mut self.subtrees)?;
        subtrees::raise_between(subtrees, from, to, value)?;
        let reached = subtrees::first_starts_below(subtrees, &PrefixedCut::new(to));
        self.aggregate.reach(reached, value);
        Ok(())
    }

    fn make_node(
        &mut self,
        alloc: Global,
        key: &KeyRef<'_>,
    ) -> Result<Option<Branch<P>>, NoMemory> {
        let subtrees = Arc::make_mut(&mut self.subtrees)?;
        push_down(subtrees, &self.aggregate);
        let upper = grow(subtrees, alloc, key)?;
        self.aggregate = aggregate_with(subtrees, &self.aggregate, upper.is_some());
        match upper {
            Some(upper) => Ok(Some(Branch::new(alloc, upper)?)),
            None => Ok(None),
        }
    }

    fn add_within(
        &mut self,
        add: &PrefixedInsertion<'_>,
        room: u32,
    ) -> Result<Option<Growth>, NoMemory> {
        let subtrees = Arc::make_mut(&mut self.subtrees)?;
        push_down(subtrees, &self.aggregate);
        self.aggregate.lazy = None;
        let made = subtrees::add_within(subtrees, add, room);
        let reached = subtrees::first_starts_below(subtrees, add.to);
        self.aggregate.update(&made, subtrees::start_prefix(subtrees), reached, add.value);
        made
    }

    fn add_key(&mut self, add: &KeyInsertion<'_>, room: u32) -> Result<Option<Growth>, NoMemory> {
        let subtrees = Arc::make_mut(&mut self.subtrees)?;
        let made = subtrees::add_key(subtrees, add, room);
        let start = self.aggregate.start;
        self.aggregate.update(&made, start, true, add.value);
        made
    }

    fn add_across(
        low: &mut Branch<P>,
        high: &mut Branch<P>,
        add: &PrefixedInsertion<'_>,
        room: u32,
    ) -> Option<Growth> {
        let Some(below) = Arc::get_mut(&mut low.subtrees) else {
            return None
        };
        let Some(above) = Arc::get_mut(&mut high.subtrees) else {
            return None
        };
        let made = across::raise_two(below, above, add, room);
        let reached = made.is_some();
        low.aggregate.reach(reached, add.value);
        high.aggregate.reach(reached, add.value);
        made
    }

    ghost some = { λ f is. is.some };

    ghost counted = { λ f is. is.sizes };

    ghost copied = { branch_copied P.nodes P.sizes P.IsWhole };
}

/// What is known of all nodes of subtrees without a lazy value.
fn aggregate_of<P: Subtree>(subtrees: &[P]) -> Aggregate
    requires subtrees { AreBranchSubtrees P.nodes P.IsWhole subtrees.now }
    ensures reported { IsReported result (nodes_of (map P.nodes subtrees.now)) }
    ensures lazy { result.lazy ≡ None }
{
    Aggregate {
        start: subtrees::start_prefix(subtrees),
        joint: subtrees::joint(subtrees),
        lazy: None,
    }
}

/// What is known of all nodes of subtrees without a lazy value, by what was known before one
/// of them was made. A new node has the value of the gap in which it falls, so the joint value
/// stays, unless subtrees were cut off.
fn aggregate_with<P: Subtree>(subtrees: &[P], before: &Aggregate, cut: bool) -> Aggregate
    requires subtrees { AreBranchSubtrees P.nodes P.IsWhole subtrees.now }
    requires kept { cut ≡ false → before.now.joint ≡ all_joint
        (nodes_of (map P.nodes subtrees.now)) }
    ensures reported { IsReported result (nodes_of (map P.nodes subtrees.now)) }
    ensures lazy { result.lazy ≡ None }
{
    if cut {
        return aggregate_of(subtrees);
    }
    Aggregate {
        start: subtrees::start_prefix(subtrees),
        joint: before.joint,
        lazy: None,
    }
}

/// Ratchets the lazy value into subtrees.
fn push_down<P: Subtree>(subtrees: &mut [P], aggregate: &Aggregate)
    requires subtrees { AreSubtrees P.nodes P.IsWhole subtrees.old }
    ensures nodes { nodes_of (map P.nodes subtrees.new) ≡ with_lazy aggregate.now.lazy
        (nodes_of (map P.nodes subtrees.old)) }
    ensures sizes { map P.sizes subtrees.new ≡ map P.sizes subtrees.old }
    ensures whole { All P.IsWhole subtrees.new }
    ensures len { length subtrees.new ≡ length subtrees.old }
{
    if let Some(lazy) = aggregate.lazy {
        subtrees::raise_all(subtrees, lazy);
    }
}

/// Makes a node of a key, where it has none. Where there are then more subtrees than a branch has,
/// those behind the first 32 come off.
fn grow<P: Subtree>(
    subtrees: &mut Vec<P>,
    alloc: Global,
    key: &KeyRef<'_>,
) -> Result<Option<Vec<P>>, NoMemory>
    requires subtrees { AreBranchSubtrees P.nodes P.IsWhole subtrees.old.items }
    ensures made { IfOk result (λ upper. HasNode (nodes_of (map P.nodes subtrees.old.items))
        (nodes_of (map P.nodes subtrees.new.items) ++ nodes_of (map P.nodes (items_in upper)))
        key.now) }
    ensures few { OnOk result (AreFewSubtrees P.IsWhole subtrees.new.items) }
    ensures upper { IfOk result (λ upper. IfSome upper (λ u. AreFewSubtrees P.IsWhole u.items)) }
{
    subtrees::make_node(subtrees, alloc, key)?;
    if subtrees.len() > BRANCH_SUBTREES {
        Ok(Some(cut(subtrees)?))
    } else {
        Ok(None)
    }
}

/// Takes off the subtrees behind the first 32.
fn cut<P>(subtrees: &mut Vec<P>) -> Result<Vec<P>, NoMemory>
    requires long { 32 ≤ length subtrees.old.items }
    ensures kept { OnOk result (subtrees.new.items ≡ take 32 subtrees.old.items) }
    ensures rest { IfOk result (λ upper. upper.items ≡ drop 32 subtrees.old.items) }
{
    Ok(subtrees.split_off(32)?)
}
