//! The text of each fault, word for word: no contract speaks of it.
use std::test::Fail;
use test_support::all_read;
use timestamp_cache::{
    AddBetweenFault, CacheFault, ConfigFault, NoMemory, SpanFault, SummaryFault,
};

#[test]
fn texts_of_faults(rt: HostRuntime) -> Result<(), Fail> {
    all_read!(rt;
        [ConfigFault::PageSize, ConfigFault::MinPages, ConfigFault::Retention] =>
            "page_first is 64 to page_max, and page_max is at most 2^30|min_pages is 1 to 64|\
retention is at most 2^63 - 1 nanoseconds|",
        [CacheFault::TooLarge, CacheFault::NoMemory] =>
            "the span is too large for a page|out of memory|",
        [SummaryFault::Version, SummaryFault::Length, SummaryFault::Checksum, SummaryFault::Form] =>
            "the summary is of another version|the summary has another length|\
the summary was changed|the bytes are no summary|",
        [SpanFault::KeyTooLong, SpanFault::Inverted, SpanFault::NoMemory] =>
            "the key is too long|the range is inverted|out of memory|",
        [AddBetweenFault::KeyTooLong, AddBetweenFault::Inverted, AddBetweenFault::TooLarge] =>
            "the key is too long|the range is inverted|the span is too large for a page|",
        [NoMemory] => "out of memory|");
    Ok(())
}
