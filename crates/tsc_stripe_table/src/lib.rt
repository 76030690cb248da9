//! Caches by key range, each under a lock of its own, and one history of all their Adds.
//!
//! A table of `atomic_table` has a word and a slot for each *stripe*: the word is its lock, and its
//! cache lies in the slot. Who holds a lock has the stripe in hand.
//!
//! ```text
//!  word 0: unused        stripe 0: lock word 16    slot 0: cache of the keys below bound 0
//!                        stripe 1: lock word 32    slot 1: cache from bound 0 on, below bound 1
//!                        ..
//! ```
//!
//! Between any two steps of any threads there is one legal history of all Adds. The cache of each
//! stripe that nobody holds stands for the state that the history's *part* on that stripe leaves:
//! its marks, cut to the stripe's keys. What a seat has seen is a beginning of that history, with
//! all Adds of the seat. `specs/Rule.antt` says it in full.
//!
//! What the functions are for:
//!
//! - [`new_table`] makes the table. Its first [`Participant`] keeps the states of all seats.
//!   [`deal`] gives the next seat a participant of its own. [`merge`] brings them together again,
//!   and [`close`] gives the caches.
//! - [`try_acquire`] acquires the lock of a stripe where it is free, and [`is_free`] looks whether
//!   it is. A seat that holds several locks acquires them in ascending order.
//! - [`Participant::slot_mut`](atomic_table::Seat::slot_mut) lends what is in hand. By
//!   [`Stripe::add`] the seat adds there, and by [`Stripe::replace`] the next version of the cache
//!   takes its place. What either leaves behind is dropped when the lock is released.
//! - Each of four calls releases the lock that was acquired last. After [`commit`] the Add is the
//!   last entry of the history, and the seat has seen it all. After [`commit_batch`] a batch of
//!   marks is one entry, also one that lies on several stripes, all of which are held then. After
//!   [`release_seen`] the seat has seen the history that it reached, and [`release`] leaves it as
//!   it was.
//! - [`new_front`] says what a seat has seen, and by [`see_front`] and [`catch_up`] another one
//!   sees that too.
#![tactic(auto)]

mod closing;
mod fronts;
mod locking;
mod opening;
mod places;
mod steps;
mod stripe;
mod table;

pub use closing::{close, merge};
pub use fronts::{catch_up, new_front, see_front};
pub use locking::{commit, commit_batch, is_free, release, release_seen, try_acquire};
pub use opening::{deal, new_table};
pub use stripe::{PendingAdd, PendingBatch, Stripe, StripeAdd, Version};
pub use table::{Knowledge, OneHistory, Participant, SeatState, Setup, SharedStripes, StripeTable};
