//! The joint value of what lies between two cuts.
ghost use Rattle.std.specs.Prelude.{◌≡◌, ◌∷◌, [], ◌||◌, map, drop, true, false};
ghost use Rattle.tsc_time.specs.Joint.{joint};
ghost use Rattle.tsc_span.specs.Span.{before, last, is_below, between};
ghost use Rattle.tsc_page_nodes.specs.Nodes.{answer_of};
ghost use Rattle.tsc_page_tree.specs.Leaves.{AreSubtrees, GoesBeyond, IsSubtree, nodes_of, start_of};

use crate::subtrees::Subtree;
use crate::subtrees::indices::{goes_on, subtree_at};
use tsc_span::{Cut, PrefixedCut};
use tsc_time::{Timestamp, Value, ratchet};

/// The joint value of the keys and gaps of subtrees between two cuts, which mostly is that of one
/// subtree.
pub fn join_between<P: Subtree>(
    subtrees: &[P],
    from: &PrefixedCut<'_>,
    to: &PrefixedCut<'_>,
) -> Value
    requires subtrees { AreSubtrees P.nodes P.IsWhole subtrees.now }
    requires order { is_below from.now to.now ≡ true }
    ensures { result ≡ answer_of (nodes_of (map P.nodes subtrees.now)) (between from.now to.now) }
{
    let index = subtree_at(subtrees, from);
    if index >= subtrees.len() {
        return Value::unowned(Timestamp::ZERO);
    }
    if goes_on(subtrees, index, to) {
        joint_beyond(subtrees, index, from, to)
    } else {
        subtrees[index].join_between(from, to)
    }
}

/// The joint value as `join_between` gives it, where the span goes on beyond the subtree in which
/// it starts. The subtrees at the ends of the span come last, and are looked into only where they
/// can change what all others answer.
fn joint_beyond<P: Subtree>(
    subtrees: &[P],
    first: usize,
    from: &PrefixedCut<'_>,
    to: &PrefixedCut<'_>,
) -> Value
    requires subtrees { AreSubtrees P.nodes P.IsWhole subtrees.now }
    requires order { is_below from.now to.now ≡ true }
    requires goes { GoesBeyond P.nodes subtrees.now from.now to.now first }
    ensures { result ≡ answer_of (nodes_of (map P.nodes subtrees.now)) (between from.now to.now) }
{
    let last = PrefixedCut::new(Cut::Last);
    let best = joint_below(subtrees, first + 1, to);
    joined(best, &subtrees[first], from, &last)
}

/// The joint value of the keys and gaps below a cut of the subtrees from a place on.
fn joint_below<P: Subtree>(subtrees: &[P], start: usize, to: &PrefixedCut<'_>) -> Value
    requires subtrees { AreSubtrees P.nodes P.IsWhole subtrees.now }
    requires order { is_below (before []) to.now ≡ true }
    ensures { result ≡ answer_of (nodes_of (drop start (map P.nodes subtrees.now)))
        (between (before []) to.now) }
{
    let least = PrefixedCut::new(Cut::Before(&[]));
    let mut best = Value::unowned(Timestamp::ZERO);
    for index in start..subtrees.len() {
        if !goes_on(subtrees, index, to) {
            return joined(best, &subtrees[index], &least, to);
        }
        best.raise(&subtrees[index].joint());
    }
    best
}

/// Joins the keys and gaps of a subtree between two cuts into the best so far. The subtree is
/// looked into only where the joint value of all its keys and gaps would change that.
fn joined<P: Subtree>(
    best: Value,
    subtree: &P,
    from: &PrefixedCut<'_>,
    to: &PrefixedCut<'_>,
) -> Value
    requires subtree { IsSubtree P.nodes P.IsWhole subtree.now }
    requires order { is_below from.now to.now ≡ true }
    ensures { result ≡ joint best (answer_of (P.nodes subtree.now) (between from.now to.now) ∷ []) }
{
    if changes(best, subtree.joint()) {
        ratchet(best, seen_of(subtree, from, to)).0
    } else {
        best
    }
}

/// Whether a value changes the best so far.
fn changes(best: Value, value: Value) -> bool
    ensures { result ≡ false → joint best (value ∷ []) ≡ best }
{
    ratchet(best, value).1
}

/// The joint value of the keys and gaps of a subtree between two cuts. Where these leave nothing
/// out the subtree isn't looked into.
fn seen_of<P: Subtree>(subtree: &P, from: &PrefixedCut<'_>, to: &PrefixedCut<'_>) -> Value
    requires subtree { IsSubtree P.nodes P.IsWhole subtree.now }
    requires order { is_below from.now to.now ≡ true }
    ensures { result ≡ answer_of (P.nodes subtree.now) (between from.now to.now) }
{
    if leaves_out(subtree, from, to) {
        subtree.join_between(from, to)
    } else {
        subtree.joint()
    }
}

/// Whether some of a subtree may lie outside of two cuts.
pub(super) fn leaves_out<P: Subtree>(
    subtree: &P,
    from: &PrefixedCut<'_>,
    to: &PrefixedCut<'_>,
) -> bool
    requires whole { P.IsWhole subtree.now }
    ensures { result ≡ (is_below to.now last || is_below
        (start_of (P.nodes subtree.now)) from.now) }
{
    to.is_below_last() || subtree.starts_below(from)
}
