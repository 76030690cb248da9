//! Why a run ends without a log.
use std::alloc::{AllocError, AllocFailed};
use thiserror::Error;
use tsc_shared::OpenFault;
use tsc_time::NoMemory;

/// Why there is no log of a run.
#[derive(Clone, Copy, Debug, PartialEq, Eq, Error)]
pub enum RunFault {
    /// The shared cache was not opened, for want of memory alone: there are seats for each trace's
    /// lists, and a place for each seat.
    #[error("{0}")]
    Open(OpenFault),
    /// A growth was refused.
    #[error("out of memory")]
    NoMemory,
    /// A lookup found no version of the cache. It never comes.
    #[error("no view")]
    Gone,
    /// An Add found as many Adds in the history as the trace has. It never comes.
    #[error("history full")]
    HistoryFull,
    /// A thread could not be started.
    #[error("no thread")]
    NoThread,
}

impl From<OpenFault> for RunFault {
    ghost use Rattle.std.specs.Prelude.{◌≡◌};
    ghost use Rattle.tsc_run.specs.declared.fault.RunFault.TheVariants.{Open};

    ghost from_gives = { λ why fault. fault ≡ Open why };

    fn from(why: OpenFault) -> RunFault {
        RunFault::Open(why)
    }
}

impl From<NoMemory> for RunFault {
    ghost use Rattle.std.specs.Prelude.{◌≡◌};
    ghost use Rattle.tsc_run.specs.declared.fault.RunFault.TheVariants.{NoMemory};

    ghost from_gives = { λ _ fault. fault ≡ NoMemory };

    fn from(_why: NoMemory) -> RunFault {
        RunFault::NoMemory
    }
}

impl From<AllocError> for RunFault {
    ghost use Rattle.std.specs.Prelude.{◌≡◌};
    ghost use Rattle.tsc_run.specs.declared.fault.RunFault.TheVariants.{NoMemory};

    ghost from_gives = { λ _ fault. fault ≡ NoMemory };

    fn from(_why: AllocError) -> RunFault {
        RunFault::NoMemory
    }
}

impl<T: Drop> From<AllocFailed<T>> for RunFault {
    ghost use Rattle.std.specs.Prelude.{◌≡◌};
    ghost use Rattle.tsc_run.specs.declared.fault.RunFault.TheVariants.{NoMemory};

    ghost from_gives = { λ _ fault. fault ≡ NoMemory };

    fn from(_why: AllocFailed<T>) -> RunFault {
        RunFault::NoMemory
    }
}
