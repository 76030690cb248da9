//! Timestamps: a wall time and a logical count, in a range that both signed and unsigned numbers
//! have.
ghost use Rattle.std.specs.Prelude.{◌≡◌, ◌<◌, IsTrue, true, false, Some, None, if◌then◌else◌};
ghost use Rattle.tsc_time.specs.Limits.{wall_limit, logical_limit};
ghost use Rattle.tsc_time.specs.Time.{is_in_range, zero_time, time_minus};

use std::marker::Model;

/// A hybrid logical clock's time: `hlc.Timestamp` of CockroachDB's `pkg/util/hlc`, without negative
/// values and without the synthetic flag.
///
/// The wall time counts nanoseconds and stays below 2^63, and the logical count stays below 2^31.
/// The smaller wall time comes first, and of two equal ones the smaller logical count.
#[derive(Clone, Copy, Debug, PartialEq, Eq, PartialOrd, Ord, Hash)]
pub struct Timestamp {
    pub(crate) wall: u64,
    pub(crate) logical: u32,
}

impl Model for Timestamp {
    ghost use Rattle.std.specs.Prelude.{◌≡◌, true};
    ghost use Rattle.tsc_time.specs.Time.{Time, is_in_range};

    ghost Value = { Time };

    ghost view = { λ t. record { wall = t.wall; logical = t.logical } };

    ghost invariant = { λ t. is_in_range (record { wall = t.wall; logical = t.logical }) ≡ true };

    ghost inverse = { λ t. record { wall = t.wall; logical = t.logical } };
}

impl Timestamp {
    /// The earliest timestamp.
    pub const ZERO: Timestamp = Timestamp {
        wall: 0,
        logical: 0,
    };

    /// The latest timestamp.
    pub const MAX: Timestamp = Timestamp {
        wall: 9_223_372_036_854_775_807,
        logical: 2_147_483_647,
    };

    /// The timestamp of these parts, or `None` where one of them is too large.
    pub const fn new(wall: u64, logical: u32) -> Option<Timestamp>
        ensures { result ≡ (if is_in_range (record { wall = wall; logical = logical })
            then Some (record { wall = wall; logical = logical }) else None) }
    {
        if wall <= Timestamp::MAX.wall && logical <= Timestamp::MAX.logical {
            Some(Timestamp { wall, logical })
        } else {
            None
        }
    }

    /// The wall time, in nanoseconds. Whoever has a timestamp also learns here that it is in range.
    pub const fn wall(self) -> u64
        ensures value { result ≡ self.wall }
        ensures range { result < wall_limit }
        ensures made { is_in_range self ≡ true }
    {
        self.wall
    }

    /// The logical count.
    pub const fn logical(self) -> u32
        ensures value { result ≡ self.logical }
        ensures range { result < logical_limit }
    {
        self.logical
    }

    /// The timestamp `ns` nanoseconds earlier, with an equal logical count; `None` where the wall
    /// time would fall below 0.
    pub const fn minus(self, ns: u64) -> Option<Timestamp>
        ensures { result ≡ time_minus self ns }
    {
        if ns <= self.wall {
            Some(Timestamp {
                wall: self.wall - ns,
                logical: self.logical,
            })
        } else {
            None
        }
    }
}
