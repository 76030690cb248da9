//! Entries of histories: what was accepted, and by whom. Contracts alone speak of them.
use crate::Mark;
use std::collections::LinkedList;
use tsc_time::Timestamp;

/// An Add as histories have it.
///
/// Histories are what contracts speak of, here and in the crates above. No value of this type is
/// ever made: a program keeps none of them.
#[derive(Debug, Drop)]
pub struct Entry {
    /// The seat that made the Add.
    pub seat: u32,
    /// How many Adds of that seat stand before it.
    pub number: u64,
    /// What was added, one mark after another.
    pub marks: LinkedList<Mark>,
    /// The moment of the Add.
    pub now: Timestamp,
}
