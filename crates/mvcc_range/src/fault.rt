//! Why a call of a range is refused.
use thiserror::Error;
use timestamp_cache::{CacheFault, NoMemory};

/// Why a call on a range was refused. The range and the transaction are then as before.
#[derive(Clone, Copy, Debug, PartialEq, Eq, Error)]
pub enum RangeFault {
    /// A span that is read, or a key that is written, lies outside of the range's span.
    #[error("outside of the range")]
    OutOfRange,
    /// The transaction's time is before the threshold, where versions may have been dropped.
    #[error("before the time up to which old versions were dropped")]
    TooEarly,
    /// A span costs more than the largest page of the cache may have.
    #[error("the span is too large for a page")]
    TooLarge,
    /// A growth was refused.
    #[error("out of memory")]
    NoMemory,
}

impl From<NoMemory> for RangeFault {
    ghost use Rattle.std.specs.Prelude.{◌≡◌};
    ghost use Rattle.mvcc_range.specs.declared.fault.RangeFault.TheVariants.{NoMemory};

    ghost from_gives = { λ _ made. made ≡ NoMemory };

    fn from(_refused: NoMemory) -> RangeFault {
        RangeFault::NoMemory
    }
}

impl From<CacheFault> for RangeFault {
    ghost use Rattle.std.specs.Prelude.{◌≡◌};
    ghost use Rattle.mvcc_range.specs.Faults.{fault_of};

    ghost from_gives = { λ fault made. made ≡ fault_of fault };

    fn from(fault: CacheFault) -> RangeFault {
        match fault {
            CacheFault::TooLarge => RangeFault::TooLarge,
            CacheFault::NoMemory => RangeFault::NoMemory,
        }
    }
}
