//! The nodes of a page of a timestamp cache.
//!
//! A node is an end key of a span that was added to a page. It has the value that holds at its key,
//! and the value that holds in the open gap between its key and that of the next node. [`Nodes`]
//! keeps nodes in the order of their keys: it makes nodes of keys, ratchets a value into the keys
//! and gaps between two cuts, and joins the values of those that lie there.
//!
//! The crate restates what a `sklPage` does with the nodes of its skiplist, in CockroachDB's
//! `pkg/kv/kvserver/tscache/interval_skl.go`. There `addNode` makes a node, with the value of the
//! gap in which it falls. `ratchetValueSet` raises the node's two values, and `visitRange` goes
//! over the nodes that a span meets. The page itself is `Page` of `tsc_page`, which keeps such
//! nodes in leaves.
#![tactic(auto)]

mod insertion;
pub mod memory;
mod nodes;

pub use insertion::{KeyInsertion, PrefixedInsertion};
pub use nodes::{Growth, Nodes};
