//! The next time after a given one.
ghost use Rattle.std.specs.Prelude.{◌≡◌, true};
ghost use Rattle.tsc_time.specs.Time.{is_before};
ghost use Rattle.timestamp_cache.specs.Earliest.{ReportsEarliest};

use tsc_time::Timestamp;

/// The first timestamp after this one, or `None` after the last: `Timestamp.Next` of CockroachDB's
/// `pkg/util/hlc`.
///
/// The next timestamp has one logical count more, or where that was the greatest, the next
/// nanosecond.
///
/// ```
/// assert_eq!(rt; next_time(at(20)), Timestamp::new(20, 1));
/// assert_eq!(rt; next_time(Timestamp::MAX), None);
/// ```
pub fn next_time(time: Timestamp) -> Option<Timestamp>
    ensures { ReportsEarliest (λ t. is_before time t ≡ true) time result }
{
    match Timestamp::new(time.wall(), time.logical() + 1) {
        Some(next) => Some(next),
        None => Timestamp::new(time.wall() + 1, 0),
    }
}
