//! What leaves and branches have in common, and lists of them.
ghost use Rattle.std.specs.Prelude.{◌≡◌, ℕ, List, ◌≤◌, ◌<◌, ◌+◌, ◌-◌, ◌++◌, [], map, length, slice_index_or, option_map, option_to_list, is_some, OnOk, IfOk, IfSome, not, true};
ghost use Rattle.std.specs.List.{All};
ghost use Rattle.tsc_time.specs.Joint.{joint};
ghost use Rattle.tsc_span.specs.Span.{is_below, between, point};
ghost use Rattle.tsc_span.specs.Cuts.{cut_of};
ghost use Rattle.tsc_span.specs.Prefixes.{IsCutPrefix};
ghost use Rattle.tsc_page_model.specs.PageView.{is_in};
ghost use Rattle.tsc_page_model.specs.KeysAbove.{first_above};
ghost use Rattle.tsc_page_nodes.specs.Nodes.{Node, node_keys, answer_of, raise_nodes};
ghost use Rattle.tsc_page_tree.specs.Leaves.{AreSubtrees, GoesBeyond, HasNode, IsSubtree, nodes_of, start_of};
ghost use Rattle.tsc_page_tree.specs.Lazy.{everything, all_joint, sizes_of, AreSizesOf, ReportsSize, IsAddReported};
ghost use Rattle.tsc_page_tree.specs.Copies.{IsSameAs, KeepsSizes};
ghost use Rattle.tsc_page_tree.specs.Across.{IsAcrossReported};
ghost use Rattle.tsc_page_tree.specs.KeyAdds.{IsKeyAddReported};

pub(crate) mod indices;
mod joints;

use crate::across;
use crate::leaf::SUBTREE_BYTES;
use crate::subtrees::indices::{goes_on, stops_at_next, subtree_at};
pub(crate) use crate::subtrees::indices::{first_starts_above, first_starts_below};
pub use crate::subtrees::joints::join_between;
use crate::subtrees::joints::leaves_out;
use std::alloc::Global;
use tsc_page_nodes::memory::list_memory;
use tsc_page_nodes::{Growth, KeyInsertion, PrefixedInsertion};
use tsc_span::{Cut, Key, KeyPrefix, KeyRef, Prefixed, PrefixedCut, SearchKey};
use tsc_time::{NoMemory, Timestamp, Value};

/// Nodes that stand in a list with others of their kind, one after another.
pub trait Subtree: Clone + Drop + Prefixed {
    ghost nodes: { Self → List Node };

    ghost sizes: { Self → List ℕ };

    ghost IsWhole: { Self → Type 0 };

    /// Whether a cut lies below where the subtree begins.
    fn starts_above(&self, cut: &PrefixedCut<'_>) -> bool
        requires whole { IsWhole self.now }
        ensures { result ≡ is_below cut.now (start_of (nodes self.now)) };

    /// Whether a cut lies above where the subtree begins.
    fn starts_below(&self, cut: &PrefixedCut<'_>) -> bool
        requires whole { IsWhole self.now }
        ensures { result ≡ is_below (start_of (nodes self.now)) cut.now };

    /// The prefix of where the subtree begins.
    fn start_prefix(&self) -> KeyPrefix
        requires whole { IsWhole self.now }
        ensures { IsCutPrefix result (start_of (nodes self.now)) };

    /// The joint value of all keys and gaps.
    fn joint(&self) -> Value
        requires whole { IsWhole self.now }
        ensures { result ≡ all_joint (nodes self.now) };

    /// The joint value of the keys and gaps between two cuts.
    fn join_between(&self, from: &PrefixedCut<'_>, to: &PrefixedCut<'_>) -> Value
        requires subtree { IsSubtree nodes IsWhole self.now }
        requires order { is_below from.now to.now ≡ true }
        ensures { result ≡ answer_of (nodes self.now) (between from.now to.now) };

    /// The joint value of what overlaps a key.
    fn value_at(&self, key: &SearchKey<'_>) -> Value
        requires subtree { IsSubtree nodes IsWhole self.now }
        ensures { result ≡ answer_of (nodes self.now) (point key.now) };

    /// Whether this is a key that has no node.
    fn is_new(&self, key: &KeyRef<'_>) -> bool
        requires subtree { IsSubtree nodes IsWhole self.now }
        ensures { result ≡ not (is_in key.now (node_keys (nodes self.now))) };

    /// The least key above a cut. It takes no memory.
    fn key_above(&self, cut: &PrefixedCut<'_>) -> Option<&Key>
        requires subtree { IsSubtree nodes IsWhole self.now }
        ensures { option_map (λ k. k.now) result ≡ first_above cut.now
            (node_keys (nodes self.now)) };

    /// How many nodes a leaf has; `Err` tells how many places behind the last leaf this is.
    fn leaf_len(&self, index: usize) -> Result<usize, usize>
        ensures { ReportsSize (sizes self.now) index result };

    /// How many bytes the blocks of memory have that hold what lies below the subtree, but for the
    /// keys themselves. It costs a step for each leaf. No clause can say what memory is taken.
    fn memory(&self) -> u64;

    /// Ratchets a value into all keys and gaps. It takes no memory, and looks into nothing.
    fn raise_whole(&mut self, value: Value)
        requires subtree { IsSubtree nodes IsWhole self.old }
        ensures raised { nodes self.new ≡ raise_nodes everything value (nodes self.old) }
        ensures sizes { sizes self.new ≡ sizes self.old }
        ensures whole { IsWhole self.new };

    /// Ratchets a value into the keys and gaps between two cuts, and changes nothing that others
    /// hold. Where memory is refused nothing is known of the subtree.
    fn raise_between(&mut self, from: Cut<'_>, to: Cut<'_>, value: Value) -> Result<(), NoMemory>
        requires subtree { IsSubtree nodes IsWhole self.old }
        requires order { is_below (cut_of from) (cut_of to) ≡ true }
        ensures raised { OnOk result
            (nodes self.new ≡ raise_nodes (between (cut_of from.entry) (cut_of to.entry)) value
            (nodes self.old)) }
        ensures whole { OnOk result (IsWhole self.new) };

    /// Makes a node of a key, where it has none, and changes nothing that others hold. Where the
    /// subtree grows too long it is cut, and tells the subtree behind. Where memory is refused
    /// nothing is known of the subtree.
    fn make_node(&mut self, alloc: Global, key: &KeyRef<'_>) -> Result<Option<Self>, NoMemory>
        requires subtree { IsSubtree nodes IsWhole self.old }
        ensures made { IfOk result
            (λ upper. HasNode (nodes self.old)
            (nodes self.new ++ nodes_of (map nodes (option_to_list upper))) key.now) }
        ensures whole { OnOk result (IsWhole self.new) }
        ensures upper { IfOk result (λ upper. IfSome upper IsWhole) };

    /// Adds in place, and tells what came in: where the span lies in one leaf, which need not be
    /// cut, and what comes in costs no more than `room`; or in two leaves, as
    /// [`add_across`](Subtree::add_across) tells of these. Else nothing changes, nor where
    /// memory is refused. What others hold on the way down is copied first, as far as one subtree
    /// has all of the span, and stays as it is for them.
    fn add_within(
        &mut self,
        add: &PrefixedInsertion<'_>,
        room: u32,
    ) -> Result<Option<Growth>, NoMemory>
        requires subtree { IsSubtree nodes IsWhole self.old }
        ensures reported { IsAddReported (nodes self.old) (nodes self.new) (sizes self.old)
            (sizes self.new) add.now room result }
        ensures whole { IsWhole self.new };

    /// Adds at a single key in place, and tells what came in: where the key doesn't lie below the
    /// subtree, and a leaf that gets a node of it need not be cut, has a list of keys of its own,
    /// and costs no more than `room` with it. Else nothing changes, nor where memory is refused.
    /// Lazy values on the way stay. What others hold on the way down is copied first.
    fn add_key(&mut self, add: &KeyInsertion<'_>, room: u32) -> Result<Option<Growth>, NoMemory>
        requires subtree { IsSubtree nodes IsWhole self.old }
        ensures reported { IsKeyAddReported (nodes self.old) (nodes self.new) (sizes self.old)
            (sizes self.new) add.now room result }
        ensures whole { IsWhole self.new };

    /// Adds in place where the span starts in one subtree and stops in another behind it, to the
    /// leaves in which it does, and tells what came in: where what lies above the lower cut in the
    /// one, and below the upper cut in the other, was raised and the end keys have nodes. It does
    /// so where nobody else holds a way to these leaves; and where a key is new, neither leaf need
    /// be cut, both have lists of keys of their own, and what comes in costs no more than `room`.
    /// Else nothing changes. It takes memory for new keys alone, before the first change, and where
    /// this is refused nothing changes either.
    fn add_across(
        low: &mut Self,
        high: &mut Self,
        add: &PrefixedInsertion<'_>,
        room: u32,
    ) -> Option<Growth>
        requires low { IsSubtree nodes IsWhole low.old }
        requires high { IsSubtree nodes IsWhole high.old }
        requires reaches { is_below (start_of (nodes high.old)) add.now.to ≡ true }
        ensures reported { IsAcrossReported (nodes low.old) (nodes low.new) (nodes high.old)
            (nodes high.new) add.now room result }
        ensures low { KeepsSizes sizes IsWhole low.old low.new (is_some result) }
        ensures high { KeepsSizes sizes IsWhole high.old high.new (is_some result) };

    ghost some: { (p : Self) → IsWhole p → 1 ≤ length (nodes p) };

    ghost counted: { (p : Self) → IsWhole p → AreSizesOf (sizes p) (nodes p) };

    ghost copied: { (p q : Self) → Self.is_clone p q → IsSameAs nodes sizes IsWhole p q };
}

/// The joint value of what overlaps a key in subtrees, which is that of the subtree in which it
/// falls.
pub fn value_at<P: Subtree>(subtrees: &[P], key: &SearchKey<'_>) -> Value
    requires subtrees { AreSubtrees P.nodes P.IsWhole subtrees.now }
    ensures { result ≡ answer_of (nodes_of (map P.nodes subtrees.now)) (point key.now) }
{
    match subtrees.get(subtree_at(subtrees, key.at())) {
        Some(subtree) => subtree.value_at(key),
        None => Value::unowned(Timestamp::ZERO),
    }
}

/// Whether this is a key that has no node in subtrees.
pub fn is_new<P: Subtree>(subtrees: &[P], key: &KeyRef<'_>) -> bool
    requires subtrees { AreSubtrees P.nodes P.IsWhole subtrees.now }
    ensures { result ≡ not (is_in key.now (node_keys (nodes_of (map P.nodes subtrees.now)))) }
{
    match subtrees.get(subtree_at(subtrees, key.search().at())) {
        Some(subtree) => subtree.is_new(key),
        None => true,
    }
}

/// The least key of subtrees above a cut: that of the subtree in which the cut falls, or else the
/// first one of the next subtree.
pub fn key_above<'a, P: Subtree>(subtrees: &'a [P], cut: &PrefixedCut<'_>) -> Option<&'a Key>
    requires subtrees { AreSubtrees P.nodes P.IsWhole subtrees.now }
    ensures { option_map (λ k. k.now) result ≡ first_above cut.now
        (node_keys (nodes_of (map P.nodes subtrees.now))) }
{
    let index = subtree_at(subtrees, cut);
    match key_in(subtrees, index, cut) {
        Some(key) => Some(key),
        None => key_in(subtrees, index + 1, cut),
    }
}

/// The least key above a cut in the subtree at a place, where there is one.
fn key_in<'a, P: Subtree>(subtrees: &'a [P], index: usize, cut: &PrefixedCut<'_>) -> Option<&'a Key>
    requires subtrees { AreSubtrees P.nodes P.IsWhole subtrees.now }
    ensures { option_map (λ k. k.now) result ≡ first_above cut.now
        (node_keys (slice_index_or (map P.nodes subtrees.now) index [])) }
{
    match subtrees.get(index) {
        Some(subtree) => subtree.key_above(cut),
        None => None,
    }
}

/// Ratchets a value into the keys and gaps of subtrees between two cuts. Where memory is refused,
/// some may be raised and others not.
pub fn raise_between<P: Subtree>(
    subtrees: &mut [P],
    from: Cut<'_>,
    to: Cut<'_>,
    value: Value,
) -> Result<(), NoMemory>
    requires subtrees { AreSubtrees P.nodes P.IsWhole subtrees.old }
    requires order { is_below (cut_of from) (cut_of to) ≡ true }
    ensures raised { OnOk result (nodes_of (map P.nodes subtrees.new) ≡
        raise_nodes (between (cut_of from.entry) (cut_of to.entry)) value
        (nodes_of (map P.nodes subtrees.old))) }
    ensures whole { OnOk result (All P.IsWhole subtrees.new) }
    ensures len { length subtrees.new ≡ length subtrees.old }
{
    let end = PrefixedCut::new(to);
    let first = subtree_at(subtrees, &PrefixedCut::new(from));
    if first >= subtrees.len() {
        return Ok(());
    }
    if goes_on(subtrees, first, &end) {
        raise_beyond(subtrees, first, from, &end, value)
    } else {
        subtrees[first].raise_between(from, to, value)
    }
}

/// Ratchets a value as `raise_between` does, where the span goes on beyond the subtree in which it
/// starts. The subtrees that lie wholly within the span are not looked into.
fn raise_beyond<P: Subtree>(
    subtrees: &mut [P],
    first: usize,
    from: Cut<'_>,
    to: &PrefixedCut<'_>,
    value: Value,
) -> Result<(), NoMemory>
    requires subtrees { AreSubtrees P.nodes P.IsWhole subtrees.old }
    requires order { is_below (cut_of from) to.now ≡ true }
    requires goes { GoesBeyond P.nodes subtrees.old (cut_of from) to.now first }
    ensures raised { OnOk result (nodes_of (map P.nodes subtrees.new) ≡
        raise_nodes (between (cut_of from.entry) to.now) value
        (nodes_of (map P.nodes subtrees.old))) }
    ensures whole { OnOk result (All P.IsWhole subtrees.new) }
    ensures len { length subtrees.new ≡ length subtrees.old }
{
    let least = PrefixedCut::new(Cut::Before(&[]));
    let last = PrefixedCut::new(Cut::Last);
    raise_part(&mut subtrees[first], &PrefixedCut::new(from), &last, value)?;
    for index in first + 1..subtrees.len() {
        if !goes_on(subtrees, index, to) {
            return raise_part(&mut subtrees[index], &least, to, value);
        }
        subtrees[index].raise_whole(value);
    }
    Ok(())
}

/// Ratchets a value into the keys and gaps of a subtree between two cuts. Where these leave nothing
/// out the subtree isn't looked into.
fn raise_part<P: Subtree>(
    subtree: &mut P,
    from: &PrefixedCut<'_>,
    to: &PrefixedCut<'_>,
    value: Value,
) -> Result<(), NoMemory>
    requires subtree { IsSubtree P.nodes P.IsWhole subtree.old }
    requires order { is_below from.now to.now ≡ true }
    ensures raised { OnOk result
        (P.nodes subtree.new ≡ raise_nodes (between from.now to.now) value (P.nodes subtree.old)) }
    ensures whole { OnOk result (P.IsWhole subtree.new) }
{
    if leaves_out(subtree, from, to) {
        return subtree.raise_between(from.cut(), to.cut(), value);
    }
    subtree.raise_whole(value);
    Ok(())
}

/// Ratchets a value into all keys and gaps of subtrees.
pub(crate) fn raise_all<P: Subtree>(subtrees: &mut [P], value: Value)
    requires subtrees { AreSubtrees P.nodes P.IsWhole subtrees.old }
    ensures raised { nodes_of (map P.nodes subtrees.new) ≡ raise_nodes everything value
        (nodes_of (map P.nodes subtrees.old)) }
    ensures sizes { map P.sizes subtrees.new ≡ map P.sizes subtrees.old }
    ensures whole { All P.IsWhole subtrees.new }
    ensures len { length subtrees.new ≡ length subtrees.old }
{
    for index in 0..subtrees.len() {
        subtrees[index].raise_whole(value);
    }
}

/// Makes a node of a key, where it has none, in the subtree in which it falls.
pub fn make_node<P: Subtree>(
    subtrees: &mut Vec<P>,
    alloc: Global,
    key: &KeyRef<'_>,
) -> Result<(), NoMemory>
    requires subtrees { AreSubtrees P.nodes P.IsWhole subtrees.old.items }
    requires some { 1 ≤ length subtrees.old.items }
    ensures made { OnOk result (HasNode (nodes_of (map P.nodes subtrees.old.items))
        (nodes_of (map P.nodes subtrees.new.items)) key.now) }
    ensures whole { OnOk result (All P.IsWhole subtrees.new.items) }
    ensures few { OnOk result ((length subtrees.old.items ≤ length subtrees.new.items) ×
        (length subtrees.new.items ≤ length subtrees.old.items + 1)) }
{
    let index = subtree_at(subtrees, key.search().at());
    if let Some(upper) = subtrees[index].make_node(alloc, key)? {
        subtrees.insert(index + 1, upper)?;
    }
    Ok(())
}

/// The prefix of where subtrees begin.
pub(crate) fn start_prefix<P: Subtree>(subtrees: &[P]) -> KeyPrefix
    requires whole { All P.IsWhole subtrees.now }
    ensures { IsCutPrefix result (start_of (nodes_of (map P.nodes subtrees.now))) }
{
    match subtrees.first() {
        Some(first) => first.start_prefix(),
        None => KeyPrefix::greatest(),
    }
}

/// The joint value of all keys and gaps of subtrees.
pub(crate) fn joint<P: Subtree>(subtrees: &[P]) -> Value
    requires subtrees { AreSubtrees P.nodes P.IsWhole subtrees.now }
    ensures { result ≡ all_joint (nodes_of (map P.nodes subtrees.now)) }
{
    let mut best = Value::unowned(Timestamp::ZERO);
    for subtree in subtrees {
        best.raise(&subtree.joint());
    }
    best
}

/// How many nodes a leaf has among those of subtrees; `Err` tells how many places behind the last
/// leaf this is.
pub fn leaf_len<P: Subtree>(subtrees: &[P], index: usize) -> Result<usize, usize>
    ensures { ReportsSize (sizes_of (map P.sizes subtrees.now)) index result }
{
    let mut index = index;
    for subtree in subtrees {
        match subtree.leaf_len(index) {
            Ok(len) => return Ok(len),
            Err(rest) => index = rest,
        }
    }
    Err(index)
}

/// How many bytes the blocks of memory have that hold a list of subtrees and what lies below them,
/// but for the keys themselves.
pub fn memory<P: Subtree>(subtrees: &Vec<P>) -> u64 {
    let mut bytes = list_memory(subtrees.capacity(), SUBTREE_BYTES);
    for subtree in subtrees {
        bytes = bytes.saturating_add(subtree.memory());
    }
    bytes
}

/// Adds in place to the subtree in which the span lies, or over several subtrees, as
/// [`Subtree::add_across`] tells.
pub fn add_within<P: Subtree>(
    subtrees: &mut [P],
    add: &PrefixedInsertion<'_>,
    room: u32,
) -> Result<Option<Growth>, NoMemory>
    requires subtrees { AreSubtrees P.nodes P.IsWhole subtrees.old }
    ensures reported { IsAddReported (nodes_of (map P.nodes subtrees.old))
        (nodes_of (map P.nodes subtrees.new))
        (sizes_of (map P.sizes subtrees.old)) (sizes_of (map P.sizes subtrees.new)) add.now
        room result }
    ensures whole { All P.IsWhole subtrees.new }
    ensures len { length subtrees.new ≡ length subtrees.old }
{
    let index = subtree_at(subtrees, add.from);
    if index >= subtrees.len() {
        return Ok(None);
    }
    if goes_on(subtrees, index, add.to) {
        return Ok(across::raise_over(subtrees, index, add, room));
    }
    if stops_at_next(subtrees, index, add.to) {
        subtrees[index].add_within(&add.before_second(), room)
    } else {
        subtrees[index].add_within(add, room)
    }
}

/// Adds at a single key in place, to the subtree in which it falls.
pub fn add_key<P: Subtree>(
    subtrees: &mut [P],
    add: &KeyInsertion<'_>,
    room: u32,
) -> Result<Option<Growth>, NoMemory>
    requires subtrees { AreSubtrees P.nodes P.IsWhole subtrees.old }
    ensures reported { IsKeyAddReported (nodes_of (map P.nodes subtrees.old))
        (nodes_of (map P.nodes subtrees.new)) (sizes_of (map P.sizes subtrees.old))
        (sizes_of (map P.sizes subtrees.new)) add.now room result }
    ensures whole { All P.IsWhole subtrees.new }
    ensures len { length subtrees.new ≡ length subtrees.old }
{
    let index = subtree_at(subtrees, add.search().at());
    if index >= subtrees.len() {
        return Ok(None);
    }
    subtrees[index].add_key(add, room)
}
