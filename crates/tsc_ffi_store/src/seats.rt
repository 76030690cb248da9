//! Seats of caches that threads share, whose holders know nothing of one another.

mod closing;
mod ending;
mod handle;
mod kinds;
mod opening;
mod owner;
mod placed;
mod return_slots;
mod same_table;
mod shared_calls;
mod striped_calls;

pub use handle::SeatHandle;
pub use kinds::{AnyCache, AnySeat};
pub use owner::Owner;
pub use placed::{Counted, Placed};
pub(crate) use return_slots::SlotToken;
