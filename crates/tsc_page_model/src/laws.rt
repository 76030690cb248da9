//! Laws of the limits of a page.
//!
//! No program needs to call these functions: their contracts are the laws.
ghost use Rattle.std.specs.Prelude.{◌≡◌};
ghost use Rattle.tsc_page_model.specs.Limits.{least_size, most_size};

use crate::{LEAST_SIZE, MOST_SIZE};

/// [`LEAST_SIZE`] and [`MOST_SIZE`] are the numbers of the definitions.
pub fn limits()
    ensures least { LEAST_SIZE ≡ least_size }
    ensures most { MOST_SIZE ≡ most_size }
{}
