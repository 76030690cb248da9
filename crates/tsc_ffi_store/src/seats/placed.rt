//! What calls at a seat answer, of whichever kind its cache is.
use tsc_cache::Added;
use tsc_shared::SeatFigures;

/// What an accepted Add did, and its place: at a shared cache among all Adds, and in stripes among
/// the seat's own.
#[derive(Clone, Copy)]
pub struct Placed {
    pub place: u64,
    pub added: Added,
}

/// What can be counted of a cache, and how much memory that takes.
#[derive(Clone, Copy)]
pub struct Counted {
    pub figures: SeatFigures,
    pub memory: u64,
}
