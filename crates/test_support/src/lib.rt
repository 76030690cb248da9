//! Plays rows of calls on caches and on whatever else is a [`Table`], and reads their words.
#![tactic(auto)]

mod cache_table;
mod player;
pub mod rows;

pub use cache_table::{CacheTable, play_by, play_on_caches};
pub use player::{Table, marks, opening, play, reported, reported_added, reported_value, written};
use std::alloc::{AllocError, Global};
use std::array;
use std::fmt::Display;
use tsc_time::Timestamp;

/// Checks that each row of some tables holds, as a function of its words says. A sign stands
/// between words.
#[macro_export]
macro_rules! all_hold {
    ($rt:ident, $between:literal; $($holds:ident($($given:expr),*) => $table:expr),+) => {
        $(for row in $table.lines().filter(|row| !row.is_empty() && !row.starts_with('#')) {
            assert!($rt; $holds($($given,)* $crate::words(row, $between))?, "{row}");
        })+
    };
}

/// Checks the texts of faults, each with a bar behind it.
#[macro_export]
macro_rules! all_read {
    ($rt:ident; $([$($fault:expr),+] => $texts:expr),+) => {
        $(assert_eq!($rt; $crate::texts_of($rt.alloc(), &[$($fault),+])?.as_str(), $texts);)+
    };
}

/// The texts of some faults.
pub fn texts_of<F: Display>(alloc: Global, faults: &[F]) -> Result<String, AllocError> {
    let mut texts = String::new(alloc);
    for fault in faults {
        write!(texts, "{fault}|")?;
    }
    Ok(texts)
}

/// The words of a row, of which there are nine at most, with a sign between them.
pub fn words<'w>(row: &'w str, between: char) -> [&'w str; 9] {
    let mut words = row.split(between);
    array::from_fn(|_| words.next().unwrap_or(""))
}

/// The time of these parts, which are in range.
pub fn at(wall: u64, logical: u32) -> Timestamp {
    Timestamp::new(wall, logical).unwrap_or(Timestamp::MAX)
}
