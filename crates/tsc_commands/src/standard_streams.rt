//! Where the program writes: one place for logs and verdicts, and another for faults.
//!
//! The types of the two differ, so that neither can be handed on as the other.

/// Where a log or a verdict goes, and nothing else.
#[derive(Drop)]
pub struct Output<W> {
    pub writer: W,
}

/// Where a fault is told.
#[derive(Drop)]
pub struct Errors<E> {
    pub writer: E,
}

/// Where the program writes.
#[derive(Drop)]
pub struct Streams<W, E> {
    pub output: Output<W>,
    pub errors: Errors<E>,
}
