//! Adds in place over several subtrees: the two at the ends change, and those between get a lazy
//! value.
ghost use Rattle.std.specs.Prelude.{◌≡◌, ◌≤◌, map, length, true, is_some, if◌then◌else◌};
ghost use Rattle.tsc_span.specs.Span.{is_below};
ghost use Rattle.tsc_page_nodes.specs.Insertions.{before_second};
ghost use Rattle.tsc_page_tree.specs.Leaves.{AreSubtrees, AreSomeSubtrees, GoesBeyond, IsSubtree, nodes_of, start_of};
ghost use Rattle.tsc_page_tree.specs.Copies.{KeepsSizes, AllKeepSizes};
ghost use Rattle.tsc_page_tree.specs.Across.{IsAcrossReported, IsLastReached, IsOverReported};

use crate::subtrees::indices::{stops_at_next, subtree_at};
use crate::subtrees::{Subtree, raise_all};
use tsc_page_nodes::{Growth, PrefixedInsertion};
use tsc_span::PrefixedCut;

/// The last subtree that a span reaches which stops at a cut, or the first one.
fn last_reached<P: Subtree>(subtrees: &[P], to: &PrefixedCut<'_>) -> usize
    requires subtrees { AreSubtrees P.nodes P.IsWhole subtrees.now }
    requires some { 1 ≤ length subtrees.now }
    ensures { IsLastReached (map P.nodes subtrees.now) to.now result }
{
    let index = subtree_at(subtrees, to);
    if index > 0 && !subtrees[index].starts_below(to) {
        index - 1
    } else {
        index
    }
}

/// Adds over two subtrees, where what stops right behind the second one keeps its end key from it.
fn raise_ends<P: Subtree>(
    low: &mut P,
    high: &mut P,
    add: &PrefixedInsertion<'_>,
    stops: bool,
    room: u32,
) -> Option<Growth>
    requires low { IsSubtree P.nodes P.IsWhole low.old }
    requires high { IsSubtree P.nodes P.IsWhole high.old }
    requires reaches { is_below (start_of (P.nodes high.old)) add.now.to ≡ true }
    ensures reported { IsAcrossReported (P.nodes low.old) (P.nodes low.new) (P.nodes high.old)
        (P.nodes high.new) (if stops then before_second add.now else add.now) room result }
    ensures low { KeepsSizes P.sizes P.IsWhole low.old low.new (is_some result) }
    ensures high { KeepsSizes P.sizes P.IsWhole high.old high.new (is_some result) }
{
    if stops {
        P::add_across(low, high, &add.before_second(), room)
    } else {
        P::add_across(low, high, add, room)
    }
}

/// Adds in place over two lists of subtrees: from the subtree of the first one in which the span
/// starts up to that of the second one in which it stops. Tells what came in, as
/// [`Subtree::add_across`]; else nothing changes.
pub(crate) fn raise_two<P: Subtree>(
    low: &mut [P],
    high: &mut [P],
    add: &PrefixedInsertion<'_>,
    room: u32,
) -> Option<Growth>
    requires low { AreSomeSubtrees P.nodes P.IsWhole low.old }
    requires high { AreSomeSubtrees P.nodes P.IsWhole high.old }
    requires reaches { is_below (start_of (nodes_of (map P.nodes high.old))) add.now.to ≡ true }
    ensures reported { IsAcrossReported (nodes_of (map P.nodes low.old))
        (nodes_of (map P.nodes low.new))
        (nodes_of (map P.nodes high.old)) (nodes_of (map P.nodes high.new)) add.now room result }
    ensures low { AllKeepSizes P.sizes P.IsWhole low.old low.new (is_some result) }
    ensures high { AllKeepSizes P.sizes P.IsWhole high.old high.new (is_some result) }
{
    let first = subtree_at(low, add.from);
    let last = last_reached(high, add.to);
    let stops = stops_at_next(high, last, add.to);
    let (below, mid) = low.split_at_mut(first + 1);
    let (others, above) = high.split_at_mut(last);
    let Some(more) = raise_ends(&mut below[first], &mut above[0], add, stops, room) else {
        return None
    };
    raise_all(mid, add.value);
    raise_all(others, add.value);
    Some(more)
}

/// Adds in place over several subtrees of one list, from the one in which the span starts. Tells
/// what came in, as [`Subtree::add_across`]; else nothing changes.
pub(crate) fn raise_over<P: Subtree>(
    subtrees: &mut [P],
    first: usize,
    add: &PrefixedInsertion<'_>,
    room: u32,
) -> Option<Growth>
    requires subtrees { AreSubtrees P.nodes P.IsWhole subtrees.old }
    requires goes { GoesBeyond P.nodes subtrees.old add.now.from add.now.to first }
    ensures reported { IsOverReported (nodes_of (map P.nodes subtrees.old))
        (nodes_of (map P.nodes subtrees.new)) add.now room result }
    ensures kept { AllKeepSizes P.sizes P.IsWhole subtrees.old subtrees.new (is_some result) }
{
    let last = last_reached(subtrees, add.to);
    let stops = stops_at_next(subtrees, last, add.to);
    let (below, rest) = subtrees.split_at_mut(first + 1);
    let (mid, above) = rest.split_at_mut(last - first - 1);
    let Some(more) = raise_ends(&mut below[first], &mut above[0], add, stops, room) else {
        return None
    };
    raise_all(mid, add.value);
    Some(more)
}
