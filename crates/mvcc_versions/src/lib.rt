//! The versions of keys, what a span has as of a time, and how writes become versions.
//!
//! A [`VersionMap`] keeps the versions of each key, the newest first. A read as of a time passes
//! over those that are later, and [`rows_after`] puts a transaction's own writes over what it
//! finds.
#![tactic(auto)]

mod chains;
mod own_writes;
mod rows;
mod version_map;
mod versions;

pub use own_writes::rows_after;
pub use version_map::VersionMap;
pub use versions::{Read, Row, Version, Write};
