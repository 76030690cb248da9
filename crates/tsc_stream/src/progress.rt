//! How far a long call is, for whoever shows that to a user.

/// Is told how far the calls of a trace are.
///
/// What it makes of that is its own: it changes nothing of what is answered, read or written.
pub trait Progress {
    /// One call more was made.
    fn made(&self);
}

/// Makes nothing of the calls that were made.
#[derive(Clone, Copy, Debug)]
pub struct NoProgress;

impl Progress for NoProgress {
    fn made(&self) {}
}
