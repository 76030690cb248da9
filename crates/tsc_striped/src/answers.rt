//! What the calls of a cache in stripes answer, and why they refuse.
use crate::fault::StripeFault;
use crate::{Dealer, Front, Seat, StripedCache};
use thiserror::Error;
use tsc_cache::{Added, Cache};
use tsc_time::NoMemory;

/// What an accepted Add answers.
#[derive(Drop)]
pub struct Receipt {
    /// Which of the seat's own Adds it is, counted from 0.
    pub number: u64,
    /// What the Add did.
    pub added: Added,
    /// All Adds up to this one.
    pub front: Front,
}

/// Why no cache was opened.
#[derive(Clone, Copy, Debug, PartialEq, Eq, Error)]
pub enum OpenFault {
    /// There were to be more than 1,024 stripes.
    #[error("stripes are 1 to 1024")]
    TooManyStripes,
    /// Some bound is not above the one before it, or the first one is the empty key.
    #[error("the bounds are out of order")]
    BoundsOutOfOrder,
    /// The largest page is too small for two of the longest keys.
    #[error("the largest page has fewer than 8256")]
    PageTooSmall,
    /// A growth was refused.
    #[error("out of memory")]
    NoMemory,
}

impl From<NoMemory> for OpenFault {
    ghost use Rattle.std.specs.Prelude.{◌≡◌};
    ghost use Rattle.tsc_striped.specs.declared.answers.OpenFault.TheVariants.{NoMemory};

    ghost from_gives = { λ _ fault. fault ≡ NoMemory };

    fn from(_refused: NoMemory) -> OpenFault {
        OpenFault::NoMemory
    }
}

/// Why an Add was refused.
#[derive(Clone, Copy, Debug, PartialEq, Eq, Error)]
pub enum AddFault {
    /// The seat counts 2^64 - 1 Adds.
    #[error("the seat can count no more Adds")]
    SeatFull,
    /// A growth was refused.
    #[error("out of memory")]
    NoMemory,
}

/// Why an Add that does not wait was refused.
#[derive(Clone, Copy, Debug, PartialEq, Eq, Error)]
pub enum TryAddFault {
    /// Another seat held one of the locks at each try.
    #[error("a stripe is busy")]
    Busy,
    /// The Add was refused as an Add that waits is.
    #[error("{0}")]
    Refused(AddFault),
}

impl From<StripeFault> for TryAddFault {
    ghost use Rattle.std.specs.Prelude.{◌≡◌};
    ghost use Rattle.tsc_striped.specs.declared.fault.StripeFault.TheVariants as stopped;
    ghost use Rattle.tsc_striped.specs.declared.answers.AddFault.TheVariants as refused;
    ghost use Rattle.tsc_striped.specs.declared.answers.TryAddFault.TheVariants.{Busy, Refused};

    ghost from_gives = { λ by fault. (by ≡ stopped.Busy → fault ≡ Busy)
        × (by ≡ stopped.NoMemory → fault ≡ Refused refused.NoMemory) };

    fn from(by: StripeFault) -> TryAddFault {
        match by {
            StripeFault::Busy => TryAddFault::Busy,
            StripeFault::NoMemory => TryAddFault::Refused(AddFault::NoMemory),
        }
    }
}

/// Another seat held one of the locks at each try.
#[derive(Clone, Copy, Debug, PartialEq, Eq, Error)]
#[error("a stripe is busy")]
pub struct Busy;

/// Copies of the caches of the stripes that a span touches, from one moment. They share their pages
/// with the cache, and do not change.
#[derive(Drop)]
pub struct Snapshot {
    /// The first of these stripes.
    pub first: u32,
    /// A copy for each of them.
    pub caches: Vec<Cache>,
}

/// Why a snapshot that does not wait was refused.
#[derive(Clone, Copy, Debug, PartialEq, Eq, Error)]
pub enum SnapshotFault {
    /// Another seat held one of the locks at each try.
    #[error("a stripe is busy")]
    Busy,
    /// A growth was refused.
    #[error("out of memory")]
    NoMemory,
}

/// A closed cache.
#[derive(Drop)]
pub struct Closed {
    /// The caches of all stripes, after all Adds.
    pub caches: Vec<Cache>,
}

/// Some seats are missing, so the cache stays open.
#[derive(Drop)]
pub struct StillOut {
    pub cache: StripedCache,
    pub dealer: Dealer,
    pub seats: Vec<Seat>,
}
