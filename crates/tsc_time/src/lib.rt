//! Timestamps and the values that a timestamp cache holds for a key.
//!
//! A [`Timestamp`] is a hybrid logical clock's time. A [`Value`] is a time with the transaction
//! that owns it, if one does, and [`ratchet`] is how a new value acts on an old one. All of it is
//! `Copy`, and nothing here takes memory.
#![tactic(auto)]

pub mod laws;
mod memory;
mod timestamp;
mod value;

pub use memory::NoMemory;
pub use timestamp::Timestamp;
pub use value::{Value, ratchet};
