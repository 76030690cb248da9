//! One page of a timestamp cache.
//!
//! A [`Page`] keeps what the spans that were added to it come to, as one sorted list of nodes in a
//! tree, which is that of `tsc_page_tree`. Beside the tree stand the page's size and its top, which
//! no answer exceeds. Copies of a page share leaves and branches of their trees.
//!
//! A node is an end key of such a span. It has the value that holds at its key, and the value that
//! holds in the open gap between its key and that of the next node. Below the first node nothing
//! was added.
//!
//! An Add first makes nodes of its end keys. A new node takes both its values from the gap in which
//! it falls, or time zero without an owner below the first node, so no answer changes. Then the
//! value is ratcheted into each key and each gap within the span. So a lookup joins the values of
//! the keys and gaps that its span overlaps, however many spans were added there.
//!
//! The crate restates `sklPage` of CockroachDB's `pkg/kv/kvserver/tscache/interval_skl.go`, whose
//! nodes stand in a skiplist. In that file `addNode` makes a node, and `ratchetValueSet` raises its
//! two values. `lookupTimestampRange` looks a span up, and `ratchetMaxTimestamp` raises the page's
//! top.
//!
//! A [`PlainPage`] is a page that keeps the list of what was added: slow, and easy to believe.
#![tactic(auto)]

mod page;

pub use page::Page;
pub use tsc_page_model::{IntervalPage, LEAST_SIZE, MOST_SIZE, PlainPage};
