//! Calls that `scripts/refuse growth` refuses memory, and that are made once more.
use crate::scenarios::{SMALL, play};
use std::test::Fail;

#[test]
fn a_refused_call_can_be_made_again(rt: HostRuntime) -> Result<(), Fail> {
    Ok(play(rt.alloc(), "small", "", SMALL)?)
}
