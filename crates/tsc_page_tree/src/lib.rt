//! The tree in which a page of a timestamp cache keeps its nodes.
//!
//! A [`Tree`] has its nodes in leaves of 1 to 64, all equally deep in branches of 1 to 64 subtrees.
//! The subtrees of a branch are of one kind: leaves, or branches again. A leaf and a branch know
//! where their nodes begin, the joint value of all of these, and a value that is still to be
//! ratcheted into all of them. So a span that covers a subtree is neither looked up nor raised node
//! by node. Copies share what they hold, and what is shared is copied before it changes: of a leaf
//! its values, and its list of keys too where a new one comes.
//!
//! What goes over a list of subtrees is written once, over any kind of
//! [`Subtree`](subtrees::Subtree).
#![tactic(auto)]

mod across;
mod aggregate;
mod branch;
mod leaf;
mod root;
mod span_insertion;
mod subtrees;
mod tree;

pub use span_insertion::Insertion;
pub use tree::Tree;
