//! A persistent list of shared elements, in chunks.
//!
//! [`ChunkedList`] is a list whose parts other lists share. An element comes to its front, and
//! leaves at its end. So a copy costs a step for each of at most 256 elements, however many there
//! are.
#![tactic(auto)]

mod list;

pub use list::ChunkedList;
