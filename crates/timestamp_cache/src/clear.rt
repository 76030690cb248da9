//! When a write is clear of what others have read.
ghost use Rattle.std.specs.Prelude.{◌↔◌, IsTrue};
ghost use Rattle.timestamp_cache.specs.Clear.{IsClearOf};
ghost use Rattle.timestamp_cache.specs.Earliest.{ReportsEarliest};

use crate::next_time;
use tsc_time::{Timestamp, Value};
use uuid::Uuid;

/// Whether a write of a transaction at the time `at` is clear of a read, or of what a lookup
/// answers. The write is clear of what is earlier than `at`, and of what is at `at` and the
/// transaction's own.
///
/// An own read that is later is not passed over: where it is a lookup's answer, an earlier read of
/// another transaction may lie behind it. Nobody owns a read of the nil UUID, so a writer with that
/// name has to be later than all.
///
/// ```
/// let read = Value::of(at(20), id('A'));
/// assert!(rt; is_clear_of(read, at(20), id('A')));
/// assert!(rt; !is_clear_of(read, at(20), id('B')));
/// assert!(rt; is_clear_of(read, at(21), id('B')));
/// ```
pub fn is_clear_of(read: Value, at: Timestamp, by: Uuid) -> bool
    ensures { IsTrue result ↔ IsClearOf read by at }
{
    read.time() < at || (read.time() == at && read.owner() == Some(by))
}

/// The earliest time, not before `at`, at which a write of a transaction is clear of a read, or of
/// what a lookup answers; `None` where there is none, since the read is at the last timestamp and
/// not the transaction's own.
///
/// The answer is `at` where that is clear, the time of an own read that is later, and else the
/// timestamp after the read's.
///
/// ```
/// let read = Value::of(at(20), id('A'));
/// assert_eq!(rt; earliest_clear_of(read, at(15), id('B')), Timestamp::new(20, 1));
/// assert_eq!(rt; earliest_clear_of(read, at(15), id('A')), Some(at(20)));
/// assert_eq!(rt; earliest_clear_of(read, at(30), id('B')), Some(at(30)));
/// ```
pub fn earliest_clear_of(read: Value, at: Timestamp, by: Uuid) -> Option<Timestamp>
    ensures { ReportsEarliest (λ t. IsClearOf read by t) at result }
{
    if is_clear_of(read, at, by) {
        return Some(at);
    }
    let last = read.time();
    if read.owner() == Some(by) {
        return Some(last);
    }
    next_time(last)
}
