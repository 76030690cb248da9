//! New keys: copies of keys that have no node yet.
ghost use Rattle.std.specs.Prelude.{◌≡◌, ◌<◌, ◌≤◌, Some, None, IfSome, ◌+◌, if◌then◌else◌};
ghost use Rattle.tsc_page_nodes.specs.Nodes.{new_count, found_cost, new_cost};

use crate::nodes::Growth;
use tsc_span::PrefixedKey;

/// Copies of up to two keys that have no node, of which the first is the smaller, with the places
/// for them. And for each key that was asked for, where it stands once both have nodes.
#[derive(Debug, Drop)]
pub(super) struct NewKeys {
    /// The smaller key, with its place.
    pub(super) first: Option<(usize, PrefixedKey)>,
    /// The greater key, with its place before the smaller one has a node.
    pub(super) second: Option<(usize, PrefixedKey)>,
    /// Where both keys stand once they have nodes.
    pub(super) hint: (Option<usize>, Option<usize>),
}

impl NewKeys {
    /// How many there are: up to two.
    pub(super) fn len(&self) -> usize
        ensures { result ≡ new_count self.now.first self.now.second }
    {
        usize::from(self.first.is_some()) + usize::from(self.second.is_some())
    }

    /// How many there are, and what they cost together.
    pub(super) fn grown(&self) -> Growth
        ensures nodes { result.nodes ≡ new_count self.now.first self.now.second }
        ensures bytes { result.bytes ≡ new_cost self.now.first self.now.second }
    {
        Growth {
            nodes: self.len(),
            bytes: found_cost(&self.first) + found_cost(&self.second),
        }
    }
}

/// What a new key costs, or 0 for none.
pub(super) fn found_cost(new: &Option<(usize, PrefixedKey)>) -> u32
    ensures value { result ≡ found_cost new.now }
    ensures most { result ≤ 4128 }
{
    match new {
        Some((_, key)) => key.cost(),
        None => 0,
    }
}

/// A place, or the next one if a node came in before it.
pub(super) fn moved(index: Option<usize>, more: bool) -> Option<usize>
    ensures none { index ≡ None → result ≡ None }
    ensures moved { IfSome index (λ i. i < usize.MAX →
        result ≡ Some (i + (if more then 1 else 0))) }
{
    Some(index?.saturating_add(usize::from(more)))
}
