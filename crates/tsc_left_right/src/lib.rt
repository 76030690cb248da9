//! A value that threads share: two copies, readers that wait for nobody, and one writer at a time.
//!
//! The scheme is *left-right* (Ramalhete and Correia): readers read the active copy, a writer
//! changes the standby copy, and one store into HEAD swaps the two.
//!
//! ```text
//!  seat 0: epoch | two handles    writer lock             writer's state
//!  seat 1: epoch | two handles    HEAD: the active side   active copy
//!  ..                                                     standby copy, which lacks one operation
//!
//!  reader: pin (epoch odd), read HEAD, read by the handle on side HEAD, unpin (epoch even)
//!  writer: lock, wait for readers of the other side, change that copy, install handles on it,
//!          HEAD with the other side, note the epochs, unlock
//! ```
//!
//! The crate departs from the paper in three ways:
//!
//! - Each seat has handles of its own, so a reader writes nothing that another one reads. HEAD is
//!   both indexes of the paper at once, and the store into it is the linearization point of an
//!   operation.
//! - The writer changes one copy an operation. The other one catches up before the next operation.
//! - The writer notes the epochs right after it has swapped the copies. The next one waits only for
//!   readers that were inside then, and whose epoch is still the same.
//!
//! What is replicated is said by a marker that is [`Replicated`]: operations change copies of a
//! value under some settings, and a history has an entry for each. [`Replicate`] is the code that
//! makes the next copy, and the answer of an operation. The proof of this crate knows no more of
//! these types.
//!
//! What the functions are for:
//!
//! - [`new_replicas`] makes the table, and [`split_off`] gives each seat its [`Participant`].
//!   [`merge`] brings these together again, and [`close`] gives what lies there in the end.
//! - [`read`] has a [`Look`] at the active copy.
//! - [`apply_by`] applies an operation, by a copy of what a caller asks for ([`Ask`]), and says
//!   what became of it ([`Outcome`]). A [`WaitPolicy`] says how its seat waits: for ever
//!   ([`Blocking`]), or for a number of tries ([`Bounded`]). A [`Gate`] is told before the
//!   operation is published.
//! - [`new_front`] says what a seat has seen. By [`catch_up`] and [`see_newest`] a seat sees more.
//!
//! What holds between any two steps of any threads is one rule (`specs/Rule.antt`), and each step
//! keeps it.
#![tactic(auto)]

mod changing;
mod closing;
mod context;
mod fronts;
mod gate;
mod lock;
mod opening;
mod places;
mod preparing;
mod reader;
mod replicated;
mod round;
mod steps;
mod table;
mod waiting;

pub use changing::{Ask, Next, Replicate};
pub use closing::{close, merge};
pub use context::Context;
pub use fronts::{catch_up, new_front, see_newest};
pub use gate::{Gate, NoGate, Notice};
pub use opening::{new_replicas, split_off};
pub use preparing::NotApplied;
pub use reader::{Look, read};
pub use replicated::Replicated;
pub use round::{Outcome, apply_by};
pub use table::{
    Copies, Knowledge, LeftRight, Participant, ReadHandle, Replicas, SeatState, Setup,
    SharedReplicas, Slot, WriterState,
};
pub use waiting::{Blocking, Bounded, WaitPolicy};
