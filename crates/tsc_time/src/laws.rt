//! Laws of the comparisons, of the ratchet order and of joint values.
//!
//! No program needs to call these functions: their contracts are the laws, for every value.
ghost use Rattle.std.specs.Prelude.{◌≡◌, ◌↔◌, IsTrue};
ghost use Rattle.tsc_time.specs.Time.{is_before, time_cmp, zero_time};
ghost use Rattle.tsc_time.specs.Laws.{IsRange, IsRatchetOrder, IsLeastAbove, SameJoint};

use crate::{Timestamp, Value};
use std::cmp::Ordering;

/// `Timestamp::ZERO` and `Timestamp::MAX` are the first and the last timestamp.
pub fn ends_of_time() -> (Timestamp, Timestamp)
    ensures zero { result.0 ≡ zero_time }
    ensures range { IsRange result.0 result.1 }
{
    (Timestamp::ZERO, Timestamp::MAX)
}

/// `cmp` on timestamps is their order.
pub fn compares_times(a: Timestamp, b: Timestamp) -> Ordering
    ensures { result ≡ time_cmp a b }
{
    a.cmp(&b)
}

/// `<` on timestamps says which is the earlier.
pub fn reports_earlier(a: Timestamp, b: Timestamp) -> bool
    ensures { result ≡ is_before a b }
{
    a < b
}

/// `==` on timestamps compares both parts.
pub fn reports_same_time(a: Timestamp, b: Timestamp) -> bool
    ensures { IsTrue result ↔ (a ≡ b) }
{
    a == b
}

/// `==` on values compares the times and the owners.
pub fn reports_same_value(v: Value, w: Value) -> bool
    ensures { IsTrue result ↔ (v ≡ w) }
{
    v == w
}

/// The ratchet order is a partial order, and the joint value of a list is its least upper bound.
pub fn least_upper_bound()
    ensures order { IsRatchetOrder }
    ensures bound { IsLeastAbove }
{}

/// Neither the order of a list nor a value that comes twice changes its joint value.
pub fn joint_of_a_set()
    ensures { SameJoint }
{}
