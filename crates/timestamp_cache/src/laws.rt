//! Laws of histories of reads, over the definitions alone: those of `tsc_cache`, some of `tsc_time`
//! and `tsc_span`, and more on what a store rests on.
//!
//! No program needs to call these functions: their contracts are the laws.
ghost use Rattle.timestamp_cache.specs.Laws.{AnswersAreLookedUp, ReadsAreCarried, PushedByReadsAlone, ClearIsAtMost, ReadsAreHandedOn, AnswersRise, ClearStaysClear, SummariesReportNoLess, AddsAreEntries, ClearOfLess, IsOrderOfTimes, EarliestInTurn};
ghost use Rattle.timestamp_cache.specs.SummaryLaws.{SummariesAreReadBack};

pub use tsc_cache::laws::{
    beginnings, can_all_be_added, can_be_added, evicts_the_expired, floor_behind, kept_up,
    lists_join, no_write_below_a_read, one_mark_is_a_step, one_mark_is_an_add, real, rising,
    sizes_double,
};
pub use tsc_span::laws::{all_covers_each_key, covers_as_it_overlaps};
pub use tsc_time::laws::least_upper_bound;

/// A cache answers each span as each state does that it represents. So the promises of
/// [`may_write`](crate::may_write) and [`earliest_write`](crate::earliest_write) hold of lookups in
/// such a state, on every span.
pub fn answers_are_looked_up()
    ensures { AnswersAreLookedUp }
{}

/// What one seat added bounds what another is answered that learned the front of that Add, or of a
/// later one, and a write that is clear of the answer is clear of what was added. So a writer that
/// was handed a front with its latch writes below no read that came before it.
pub fn reads_are_carried()
    ensures { ReadsAreCarried }
{}

/// Where a write is above the low-water time of the configuration, and no earlier than the moment
/// of any Add less the retention, the floor alone doesn't push it: if it isn't clear of what a
/// lookup answers, then there is a read on the span that it isn't clear of.
pub fn pushed_by_reads_alone()
    ensures { PushedByReadsAlone }
{}

/// A write is clear of a read just where the read is at most what the write would be, had it been a
/// read of that time and transaction, in the ratchet order.
pub fn clear_is_at_most()
    ensures { ClearIsAtMost }
{}

/// Where a summary of one cache was applied to another, a write on a span within the summary's that
/// is clear of what the other one answers, then or after more Adds, is clear of each read there
/// that was added to the first. So the new holder of a lease writes below no read that was answered
/// under the old one.
pub fn reads_are_handed_on()
    ensures { ReadsAreHandedOn }
{}

/// Each summary is read back from its bytes as it is, and no beginning of the bytes is read.
pub fn summaries_are_read_back()
    ensures { SummariesAreReadBack }
{}

/// Whatever is added to a cache, no answer sinks, and each mark that is added is at most what is
/// answered on its span then. So a store that keeps no history knows that its reads are remembered.
pub fn answers_rise()
    ensures { AnswersRise }
{}

/// A write that is clear of a read, or of what a lookup answers, is so at each later time.
pub fn clear_stays_clear()
    ensures { ClearStaysClear }
{}

/// A summary tells no less than each state answers that it tells of, on each span within its own. A
/// key of a span lies within it.
pub fn summaries_report_no_less()
    ensures { SummariesReportNoLess }
{}

/// A cache to which marks are added stands for the history before with one entry more.
pub fn adds_are_entries()
    ensures { AddsAreEntries }
{}

/// A write that is clear of a read, or of what a lookup answers, is clear of each read that is at
/// most that.
pub fn clear_of_less()
    ensures { ClearOfLess }
{}

/// Times are in a total order.
pub fn order_of_times()
    ensures { IsOrderOfTimes }
{}

/// The earliest time that passes two tests, of which the first stays passed, is the earliest that
/// passes the second, from the earliest on that passes the first. So a store may ask for one
/// condition after another.
pub fn earliest_in_turn()
    ensures { EarliestInTurn }
{}
