//! Why an Add is refused. Each refusal leaves the cache as it was.
use thiserror::Error;
use tsc_span::SpanFault;
use tsc_time::NoMemory;

/// Why an Add was refused.
#[derive(Clone, Copy, Debug, PartialEq, Eq, Error)]
pub enum CacheFault {
    /// The span costs more than the largest page may have.
    #[error("the span is too large for a page")]
    TooLarge,
    /// A growth was refused.
    #[error("out of memory")]
    NoMemory,
}

impl From<NoMemory> for CacheFault {
    ghost use Rattle.std.specs.Prelude.{◌≡◌};
    ghost use Rattle.tsc_cache.specs.declared.fault.CacheFault.TheVariants.{NoMemory};

    ghost from_gives = { λ _ fault. fault ≡ NoMemory };

    fn from(_refused: NoMemory) -> CacheFault {
        CacheFault::NoMemory
    }
}

/// Why an Add over bytes was refused.
#[derive(Clone, Copy, Debug, PartialEq, Eq, Error)]
pub enum AddBetweenFault {
    /// A key has more than 4096 bytes.
    #[error("the key is too long")]
    KeyTooLong,
    /// The first key is greater than the second.
    #[error("the range is inverted")]
    Inverted,
    /// The span costs more than the largest page may have.
    #[error("the span is too large for a page")]
    TooLarge,
    /// A growth was refused.
    #[error("out of memory")]
    NoMemory,
}

impl From<CacheFault> for AddBetweenFault {
    ghost use Rattle.std.specs.Prelude.{◌≡◌};
    ghost use Rattle.tsc_cache.specs.AddSpans.{of_cache_fault};

    ghost from_gives = { λ fault made. made ≡ of_cache_fault fault };

    fn from(fault: CacheFault) -> AddBetweenFault {
        match fault {
            CacheFault::TooLarge => AddBetweenFault::TooLarge,
            CacheFault::NoMemory => AddBetweenFault::NoMemory,
        }
    }
}

impl From<SpanFault> for AddBetweenFault {
    ghost use Rattle.std.specs.Prelude.{◌≡◌};
    ghost use Rattle.tsc_cache.specs.AddSpans.{of_span_fault};

    ghost from_gives = { λ fault made. made ≡ of_span_fault fault };

    fn from(fault: SpanFault) -> AddBetweenFault {
        match fault {
            SpanFault::KeyTooLong => AddBetweenFault::KeyTooLong,
            SpanFault::Inverted => AddBetweenFault::Inverted,
            SpanFault::NoMemory => AddBetweenFault::NoMemory,
        }
    }
}
