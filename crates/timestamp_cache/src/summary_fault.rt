//! Why a summary is not made or not applied.
ghost use Rattle.std.specs.Prelude.{◌≡◌};
ghost use Rattle.timestamp_cache.specs.declared.summary_fault.SummaryFault.TheVariants as faults;

use std::alloc::{AllocError, AllocFailed};
use thiserror::Error;
use tsc_time::NoMemory;

/// Why bytes were not read as a summary.
#[derive(Clone, Copy, Debug, PartialEq, Eq, Error)]
pub enum SummaryFault {
    /// The bytes are of another version.
    #[error("the summary is of another version")]
    Version,
    /// There are fewer bytes than the summary has, or more.
    #[error("the summary has another length")]
    Length,
    /// The digest is not that of the bytes before it.
    #[error("the summary was changed")]
    Checksum,
    /// The digest fits, and what stands before it is no summary.
    #[error("the bytes are no summary")]
    Form,
    /// A growth was refused.
    #[error("out of memory")]
    NoMemory,
}

impl From<NoMemory> for SummaryFault {
    ghost from_gives = { λ _ fault. fault ≡ faults.NoMemory };

    fn from(_refused: NoMemory) -> SummaryFault {
        SummaryFault::NoMemory
    }
}

impl From<AllocError> for SummaryFault {
    ghost from_gives = { λ _ fault. fault ≡ faults.NoMemory };

    fn from(_refused: AllocError) -> SummaryFault {
        SummaryFault::NoMemory
    }
}

impl<T: Drop> From<AllocFailed<T>> for SummaryFault {
    ghost from_gives = { λ _ fault. fault ≡ faults.NoMemory };

    fn from(_refused: AllocFailed<T>) -> SummaryFault {
        SummaryFault::NoMemory
    }
}
