//! Plays the rows of its standard input on caches, and prints how many there were. They are those
//! of `bindings/rows.txt`, which programs in C, C++, Rust and Go play too.
//!
//! It catches what no contract says: memory that is refused without need, and a definition that
//! means something else than those rows, which are by another hand.
#![tactic(auto)]

use std::io;
use std::test::Fail;
use test_support::play_on_caches;

fn main(rt: HostRuntime) -> Result<(), Fail> {
    let rows = io::read_to_string(rt.alloc(), rt.stdin())?;
    let count = play_on_caches(rt.alloc(), rows.as_str())?;
    println!(rt; "{count} rows hold")?;
    Ok(())
}
