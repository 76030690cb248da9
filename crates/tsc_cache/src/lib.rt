//! The timestamp cache on one thread.
//!
//! A [`Cache`] remembers the latest time at which each span was read. What is added stands on pages
//! of a bounded size in bytes. Where the newest page has no room for an Add, the pages *rotate*:
//! the oldest ones are dropped, if old enough, and an empty one comes to the front. The new page is
//! twice as large as the one before it, or larger where the span wants that, up to the largest
//! size. For what was on a dropped page the *floor* answers from then on, which has risen to its
//! top. So an answer may be later than the reads that there were, and never earlier.
//!
//! The crate restates `intervalSkl` and `Cache` of CockroachDB's `pkg/kv/kvserver/tscache`
//! (`interval_skl.go` and `cache.go`), where many threads add at once to a front page that is a
//! skiplist. Here a call has the cache for itself, and [`Cache::next`] gives the cache after an Add
//! beside the one before it: the two share their pages, which are never changed while another cache
//! holds them. [`Cache::add_all`] adds several marks, all of them or none.
//!
//! What a cache promises stands in [`TimestampCache`]. A [`PlainCache`] keeps it over plain lists
//! of what was added: slow, and easy to believe.
#![tactic(auto)]

mod added;
mod cache;
mod config;
mod fault;
mod figures;
mod history;
pub mod laws;
mod mark;
mod named_span;
mod page_stack;
mod pages;
mod plain_cache;
mod plain_pages;
mod rotation;
mod timestamp_cache;

pub use added::Added;
pub use cache::Cache;
pub use config::{Config, ConfigFault, LEAST_MIN_PAGES, LONGEST_RETENTION, MOST_MIN_PAGES};
pub use fault::{AddBetweenFault, CacheFault};
pub use figures::Figures;
pub use history::Entry;
pub use mark::Mark;
pub use plain_cache::PlainCache;
pub use timestamp_cache::TimestampCache;
