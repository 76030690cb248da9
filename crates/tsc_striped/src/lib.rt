//! The timestamp cache in stripes, shared by threads.
//!
//! [`StripedCache::open`] gives a cache and its *dealer*, which deals the *seats*, one for each
//! caller. A stripe is a cache of its own for a range of keys, under a lock of its own. So Adds of
//! threads that call different stripes do not wait for one another.
//!
//! All stripes have one *history* of Adds. A seat has a number, a count of its accepted Adds, and a
//! history that it has seen. Each answer is that of one cache for each stripe, after a history that
//! begins with all that the caller's seat had seen. In the cache of a stripe lies the history's
//! part there: its marks, cut to the keys of the stripe. Once the cache is closed, all that any
//! seat saw was a beginning of one history, which has exactly the accepted Adds.
//!
//! Each stripe drops pages and lifts its floor by itself, so Adds in one stripe push no write in
//! another.
#![tactic(auto)]

mod adding;
mod answers;
mod batch;
mod bounds;
mod fault;
mod gathering;
mod gating;
pub mod laws;
mod pieces;
mod prefixes;
mod reads;
mod retiring;
mod seat;
mod sharing;
mod snapshots;
mod striped;
mod stripes;
mod waiting;
mod wide;
mod wide_adds;

pub use answers::{
    AddFault, Busy, Closed, OpenFault, Receipt, Snapshot, SnapshotFault, StillOut, TryAddFault,
};
pub use seat::{Dealer, Front, Seat};
pub use striped::StripedCache;
pub use tsc_left_right::{Gate, NoGate};
