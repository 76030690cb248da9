//! The timestamp cache for programs in C, and for what calls C.
//!
//! A program hands in a pointer in its memory, zeros at first, that owns a store, in which it opens
//! caches by handles. Each call takes that pointer, but for those of `text_calls`, and is total:
//! whatever handles and bytes come, it returns, and says what it did or why it was refused. Nothing
//! here waits. `include/tscache.h` declares these calls, and says what a caller owes.
#![tactic(auto)]

mod cache_calls;
mod outcome;
mod seat_calls;
mod store_ptr;
mod summary_calls;
#[cfg(test)]
mod tests;
mod text_calls;
mod version;
mod write_calls;
