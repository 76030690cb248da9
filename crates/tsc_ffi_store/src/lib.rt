//! The store behind a pointer of a program in C: caches, shared caches and their seats, by handles.
//!
//! A [`Store`] opens, closes and lends what its handles name. There is a function for each request
//! of a cache or a seat. It takes what C hands over, as C lays it out ([`SpanArgs`] and its like).
//! It does all that is asked, or does nothing and returns a [`Refusal`] that says why.
#![tactic(auto)]

mod buffer;
mod cache_requests;
mod counts;
mod ctypes;
mod decode;
pub mod laws;
mod marks;
mod named_bounds;
mod open_handles;
mod refusal;
mod seat_requests;
mod seats;
mod store;
mod summary_requests;
mod write_requests;

pub use buffer::{REFUSED, put};
pub use cache_requests::{add_all_in, add_in, figures_in, floor_in, look_in};
pub use counts::{CountedCache, CountedSeat, Counts};
pub use ctypes::{
    AddArgs, ApplyArgs, BatchArgs, BoundsArgs, ConfigArgs, SpanArgs, SummaryArgs, TscAdded,
    TscFigures, TscMark, TscSpan, TscTime, TscValue, WriteArgs,
};
pub use decode::{Form, config};
pub use named_bounds::check_bounds;
pub use refusal::{OK, Refusal, code};
pub use seat_requests::{add_all_at, add_at, figures_at, floor_at, look_at, may_seat};
pub use store::{Slot, Store};
pub use summary_requests::{apply_in, put_at, put_in};
pub use write_requests::{may_at, may_in, write_at, write_in};
