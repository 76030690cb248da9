//! Keys, and the spans of keys that reads of a store touch.
//!
//! A [`Key`] is a text of bytes. A [`Cut`] is a place right before or right after a key, or above
//! all keys, and a [`Span`] lies between two cuts or is empty. Cuts restate the bounds of
//! CockroachDB's `pkg/kv/kvserver/tscache`: `intervalSkl.AddRange` takes two keys with flags that
//! exclude either, and no second key means no end. A [`SpanRef`] is a span for lookups, over bytes
//! that lie elsewhere. An [`AddSpan`] is a span for Adds, over keys that are each a [`KeyRef`].
//!
//! A [`KeyPrefix`] is made of a key's first twenty-four bytes, so that most keys are compared by
//! prefixes. A [`SearchKey`] and a [`PrefixedCut`] have it beside bytes that lie elsewhere, and a
//! [`PrefixedKey`] beside a key that it shares.
//!
//! Only [`Key::new`], [`KeyRef::to_key`], [`PrefixedKey::copy_of`] and the two `try_copy` take
//! memory.
#![tactic(auto)]

mod add_span;
mod cut;
mod fault;
mod key;
mod key_ref;
pub mod laws;
mod prefix;
mod prefix_search;
mod prefixed;
mod search_key;
mod span;
mod span_ref;

pub use add_span::{AddShape, AddSpan};
pub use cut::Cut;
pub use fault::SpanFault;
pub use key::{Key, LONGEST_KEY};
pub use key_ref::KeyRef;
pub use prefix::KeyPrefix;
pub use prefix_search::{Prefixed, lesser_prefixes};
pub use prefixed::{PrefixedCut, PrefixedKey};
pub use search_key::SearchKey;
pub use span::{Ends, Span};
pub use span_ref::SpanRef;
