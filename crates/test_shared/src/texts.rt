//! The text of each fault, word for word: no contract speaks of it.
use std::test::Fail;
use test_support::all_read;
use tsc_shared::TryAddFault::{DeskBusy, Refused, SeatInside};
use tsc_shared::{AddFault, Gone, OpenFault};

#[test]
fn texts_of_faults(rt: HostRuntime) -> Result<(), Fail> {
    all_read!(rt;
        [OpenFault::Seats, OpenFault::NoMemory, OpenFault::NoPlace] =>
            "seats are 1 to 64|out of memory|no place|",
        [Gone] => "no version of the cache fits|",
        [DeskBusy, SeatInside, Refused(AddFault::NoMemory), Refused(AddFault::TooLarge)] =>
            "the desk is busy|a seat is inside a lookup|out of memory|the span is too large for a page|");
    Ok(())
}
