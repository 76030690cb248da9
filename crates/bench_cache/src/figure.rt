//! What operations took, and how it is printed.
use std::fmt;
use std::time::{Clock, Instant};

/// What operations took.
#[derive(Clone, Copy)]
pub struct Figure {
    /// How many there were.
    pub operations: u64,
    /// The nanoseconds that all took together.
    pub nanoseconds: u64,
}

impl Figure {
    /// What nothing took.
    pub const NONE: Figure = Figure {
        operations: 0,
        nanoseconds: 0,
    };

    /// The number of operations, and what they took from a moment until now.
    pub fn since(rt: &HostRuntime, start: Instant, operations: u64) -> Option<Figure> {
        let nanoseconds = u64::try_from(start.elapsed(rt).ok()?.as_nanos()).ok()?;
        Some(Figure {
            operations,
            nanoseconds,
        })
    }

    /// What both took together.
    pub fn and(self, other: Figure) -> Figure {
        Figure {
            operations: self.operations.saturating_add(other.operations),
            nanoseconds: self.nanoseconds.saturating_add(other.nanoseconds),
        }
    }

    /// The one of two figures of equal operations in which they took less, or `other` where there
    /// is none so far.
    pub fn or_less(self, other: Figure) -> Figure {
        if self.operations == 0 || other.nanoseconds < self.nanoseconds {
            other
        } else {
            self
        }
    }

    /// The nanoseconds that one took.
    pub fn each(self) -> u64 {
        self.nanoseconds / self.operations.max(1)
    }

    /// How many were made in a second.
    pub fn per_second(self) -> u64 {
        self.operations.saturating_mul(1_000_000_000) / self.nanoseconds.max(1)
    }
}

/// What calls took of which each was timed by itself: nanoseconds, the least first.
#[derive(Drop)]
pub struct Times {
    nanoseconds: Vec<u64>,
}

impl Times {
    /// The times of calls, which may be in any order.
    pub fn of(mut nanoseconds: Vec<u64>) -> Times {
        nanoseconds.sort_unstable();
        Times { nanoseconds }
    }

    /// How many calls there were.
    pub fn count(&self) -> usize {
        self.nanoseconds.len()
    }

    /// The nanoseconds that `thousandths` of 1,000 calls took at the most.
    pub fn behind(&self, thousandths: usize) -> u64 {
        let place = self.nanoseconds.len().saturating_mul(thousandths) / 1000;
        match self.nanoseconds.get(place) {
            Some(nanoseconds) => *nanoseconds,
            None => self.longest(),
        }
    }

    /// The nanoseconds of the call that took longest, or 0 where there is none.
    pub fn longest(&self) -> u64 {
        match self.nanoseconds.last() {
            Some(nanoseconds) => *nanoseconds,
            None => 0,
        }
    }
}

/// The figures of some rows, of which each is an operation.
pub type Least = [Figure; 12];

/// The least figures of no turns.
pub const NO_TURNS: Least = [Figure::NONE; 12];

/// What is printed of operations.
#[derive(Clone, Copy)]
pub enum Reports {
    /// How many they are.
    Count,
    /// And the nanoseconds of one.
    Each,
    /// The nanoseconds of one alone.
    Time,
}

/// The names of operations in the order of their rows.
pub type Names = &'static [&'static str];

/// Prints a line for each operation. Gives `None` where that is refused.
pub fn print_lines(
    rt: &HostRuntime,
    head: &str,
    reports: Reports,
    names: Names,
    least: &Least,
) -> Option<()> {
    for (name, figure) in names.iter().zip(least) {
        let (operations, each) = (figure.operations, figure.each());
        let reported = match reports {
            Reports::Count => println!(rt; "{head}, {name}: {operations} operations"),
            Reports::Each => println!(rt;
                "{head}, {name}: {operations} operations, {each} ns each"
            ),
            Reports::Time => println!(rt; "{head}, {name}: {each} ns"),
        };
        reported.ok()?;
    }
    Some(())
}

/// In how many rounds all is measured. The figure of an operation is the least of them, since what
/// else the machine has to do only adds to a round.
pub const ROUNDS: u32 = 9;

/// What each of [`ROUNDS`] rounds came to.
pub type Rounds = [u64; 9];

/// What rounds came to. The one in the middle is what counts: what else the machine has to do moves
/// the others.
#[derive(Clone, Copy)]
pub struct Spread {
    least: u64,
    median: u64,
    greatest: u64,
}

impl Spread {
    /// The spread of rounds in any order.
    pub fn of(mut rounds: Rounds) -> Spread {
        rounds.sort_unstable();
        Spread {
            least: rounds[0],
            median: rounds[4],
            greatest: rounds[8],
        }
    }
}

impl fmt::Display for Spread {
    fn fmt<W: fmt::Write>(&self, f: &mut fmt::Formatter<W>) -> fmt::Result {
        let (least, median, greatest) = (self.least, self.median, self.greatest);
        write!(f, "{median} ({least} to {greatest})")
    }
}
