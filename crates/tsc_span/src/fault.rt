//! Why a key or a span is refused.
use thiserror::Error;

/// Why a key or a span could not be made.
#[derive(Clone, Copy, Debug, PartialEq, Eq, Error)]
pub enum SpanFault {
    /// The key has more than 4096 bytes.
    #[error("the key is too long")]
    KeyTooLong,
    /// The first key is greater than the second.
    #[error("the range is inverted")]
    Inverted,
    /// A growth was refused.
    #[error("out of memory")]
    NoMemory,
}
