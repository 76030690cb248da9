//! What an operation of a seat works with.
use crate::replicated::Replicated;
use crate::table::{Setup, SharedReplicas};
use std::alloc::Global;

/// What an operation of a seat works with: where memory comes from, the table, how that was set up,
/// and the number of the seat.
#[derive(Drop)]
pub struct Context<'c, P: Replicated> {
    pub alloc: Global,
    pub shared: &'c SharedReplicas<P>,
    pub setup: &'c Setup<P::ConfigView>,
    pub number: u32,
}
