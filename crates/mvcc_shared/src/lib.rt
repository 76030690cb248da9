//! A range that threads share, and the log of the transactions that committed there.
//!
//! [`SharedRange::open`] gives a range and its *dealer*, which deals the *clients*, one for each
//! caller. The range lies under a lock, so all calls have one order: the range's *history*. A
//! client carries its number and a beginning of that history that it has seen. Each call of a
//! client, also one that is refused, is the next one after a history that begins with all that the
//! client had seen, and the client has seen all of it then.
//!
//! A client shows by a [`Front`] what it has seen, and another one learns that. So it comes after
//! the calls of the first. Once the range is closed, all that any client saw is a beginning of one
//! history, which has exactly the calls of its clients. Its log has exactly the transactions that
//! were answered as committed, in their order.
//!
//! What calls did in that order is an execution of calls on one range, so the laws of `mvcc_range`
//! hold of it: the transactions of the log are serializable, whatever the threads did.
#![tactic(auto)]

mod answers;
mod calls;
mod client;
mod closing;
mod fronts;
pub mod laws;
mod locking;
mod opening;
mod served;
mod shared_range;
mod steps;
mod table;

pub use answers::{Closed, NotCommitted, StillOut};
pub use client::{Client, Dealer, Front};
pub use shared_range::SharedRange;
