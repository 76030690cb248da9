//! What a page of a timestamp cache is, before anybody says how it is kept.
//!
//! `specs/Page.antt` has the page of the rules: a list of marks, a base and a size. The trait
//! [`IntervalPage`] promises what follows from that list. [`PlainPage`] keeps the list itself.
//! So it is slow, and easy to believe. `Page` of `tsc_page` keeps sorted nodes in its place.
//!
//! The trait restates `sklPage` of CockroachDB's `pkg/kv/kvserver/tscache/interval_skl.go`.
#![tactic(auto)]

mod interval_page;
pub mod laws;
mod plain_page;

pub use interval_page::IntervalPage;
pub use plain_page::PlainPage;

/// How many bytes a page may have at the least.
pub const LEAST_SIZE: u32 = 64;

/// How many bytes a page may have at the most.
pub const MOST_SIZE: u32 = 1_073_741_824;
