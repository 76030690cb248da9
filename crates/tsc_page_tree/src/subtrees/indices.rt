//! Where a cut falls among subtrees.
ghost use Rattle.std.specs.Prelude.{IsTrue, ◌≡◌, ◌≤◌, ◌<◌, ◌-◌, suc, map, length, drop, not};
ghost use Rattle.std.specs.List.{All};
ghost use Rattle.tsc_span.specs.Span.{is_below};
ghost use Rattle.tsc_page_tree.specs.Leaves.{IsLeafAt, IsNotAbove, nodes_of, start_of};

use crate::subtrees::Subtree;
use tsc_span::{PrefixedCut, lesser_prefixes};

/// How far the subtrees stand from one another that a search looks at first.
const STRIDE: usize = 8;

/// The place of the subtree in which a cut falls: where a hint says, or by a search.
pub(crate) fn subtree_at<P: Subtree>(subtrees: &[P], cut: &PrefixedCut<'_>) -> usize
    requires whole { All P.IsWhole subtrees.now }
    ensures { IsLeafAt (map P.nodes subtrees.now) cut.now result }
{
    let Some(lesser) = lesser_prefixes(subtrees, cut.prefix()) else {
        return search(subtrees, cut)
    };
    let next = lesser.max(1);
    if is_not_above(subtrees, next - 1, cut) && is_above(subtrees, next, cut) {
        next - 1
    } else {
        search(subtrees, cut)
    }
}

/// Whether a subtree at a place begins at a cut or below it, or is the first one.
fn is_not_above<P: Subtree>(subtrees: &[P], index: usize, cut: &PrefixedCut<'_>) -> bool
    requires whole { All P.IsWhole subtrees.now }
    ensures { IsTrue result → IsNotAbove (map P.nodes subtrees.now) cut.now index }
{
    match subtrees.get(index) {
        Some(subtree) => index == 0 || !subtree.starts_above(cut),
        None => false,
    }
}

/// Whether a subtree at a place begins above a cut, or there is none.
fn is_above<P: Subtree>(subtrees: &[P], index: usize, cut: &PrefixedCut<'_>) -> bool
    requires whole { All P.IsWhole subtrees.now }
    requires some { 1 ≤ index }
    ensures { IsTrue result → IsNotAbove (map P.nodes subtrees.now) cut.now (index - 1) →
        IsLeafAt (map P.nodes subtrees.now) cut.now (index - 1) }
{
    match subtrees.get(index) {
        Some(subtree) => subtree.starts_above(cut),
        None => true,
    }
}

/// Finds a subtree as `subtree_at` does, by a look at every eighth one. From the last of these that
/// doesn't begin above the cut on, one subtree after another is looked at.
fn search<P: Subtree>(subtrees: &[P], cut: &PrefixedCut<'_>) -> usize
    requires whole { All P.IsWhole subtrees.now }
    ensures { IsLeafAt (map P.nodes subtrees.now) cut.now result }
{
    for next in stride_at(subtrees, cut) + 1..subtrees.len() {
        if subtrees[next].starts_above(cut) {
            return next - 1;
        }
    }
    subtrees.len().saturating_sub(1)
}

/// The last of every eighth place, from the first one on, at which no subtree begins above a cut.
fn stride_at<P: Subtree>(subtrees: &[P], cut: &PrefixedCut<'_>) -> usize
    requires whole { All P.IsWhole subtrees.now }
    ensures { IsNotAbove (map P.nodes subtrees.now) cut.now result }
{
    let mut low = 0;
    let mut index = 0;
    while subtrees.len() - index > STRIDE {
        index += STRIDE;
        if !subtrees[index].starts_above(cut) {
            low = index;
        }
    }
    low
}

/// Whether a cut lies below where subtrees begin.
pub(crate) fn first_starts_above<P: Subtree>(subtrees: &[P], cut: &PrefixedCut<'_>) -> bool
    requires whole { All P.IsWhole subtrees.now }
    ensures { result ≡ is_below cut.now (start_of (nodes_of (map P.nodes subtrees.now))) }
{
    match subtrees.first() {
        Some(first) => first.starts_above(cut),
        None => cut.is_below_last(),
    }
}

/// Whether a cut lies above where subtrees begin.
pub(crate) fn first_starts_below<P: Subtree>(subtrees: &[P], cut: &PrefixedCut<'_>) -> bool
    requires whole { All P.IsWhole subtrees.now }
    ensures { result ≡ is_below (start_of (nodes_of (map P.nodes subtrees.now))) cut.now }
{
    match subtrees.first() {
        Some(first) => first.starts_below(cut),
        None => false,
    }
}

/// Whether what stops at a cut goes on beyond a subtree.
pub(super) fn goes_on<P: Subtree>(subtrees: &[P], index: usize, to: &PrefixedCut<'_>) -> bool
    requires whole { All P.IsWhole subtrees.now }
    requires bound { index < length subtrees.now }
    ensures { result ≡ is_below (start_of (nodes_of (drop (suc index) (map P.nodes subtrees.now))))
        to.now }
{
    match subtrees.get(index + 1) {
        Some(next) => next.starts_below(to),
        None => false,
    }
}

/// Whether what doesn't go on beyond a subtree stops right where the next one begins.
pub(crate) fn stops_at_next<P: Subtree>(subtrees: &[P], index: usize, to: &PrefixedCut<'_>) -> bool
    requires whole { All P.IsWhole subtrees.now }
    requires bound { index < length subtrees.now }
    ensures { result ≡ not (is_below to.now
        (start_of (nodes_of (drop (suc index) (map P.nodes subtrees.now))))) }
{
    match subtrees.get(index + 1) {
        Some(next) => !next.starts_above(to),
        None => !to.is_below_last(),
    }
}
