//! Why a call stops before it has all its stripes.

/// Why a call in stripes was refused.
#[derive(Clone, Copy)]
pub(crate) enum StripeFault {
    /// Another seat held one of the locks at each try.
    Busy,
    /// A growth was refused.
    NoMemory,
}
