//! Histories that look random, whose transactions are executed once more by brute force: in the
//! order of the times at which they committed.
ghost use Rattle.std.specs.Prelude.{◌≤◌, ◌<◌};

use crate::scenarios::{Text, answer, open, time};
use anyhow::Result;
use std::alloc::Global;
use std::test::Fail;
use test_support::words;

/// The keys of histories, and one behind all.
static KEYS: [&str; 7] = ["a", "b", "c", "d", "e", "f", "g"];

type Values = [Option<u8>; 7];

/// A call, and its answer.
type Row = (Text, Text);

/// A sequence of numbers that look random.
#[derive(Drop)]
struct Sequence(u64);

impl Sequence {
    /// The next number, from 0 to below `end`.
    fn below(&mut self, end: usize) -> usize
        ensures { 1 ≤ end → result < end }
    {
        let next = self.0.wrapping_mul(6_364_136_223_846_793_005);
        self.0 = next.wrapping_add(1_442_695_040_888_963_407);
        (self.0 >> 33) as usize % end.max(1)
    }

    /// What a transaction does if it lives, or what happens to the store.
    fn call(&mut self, number: usize, lives: bool, turn: usize) -> Text {
        let from = self.below(6);
        let to = from + 1 + self.below(6 - from);
        let (key, end) = (KEYS[from], KEYS[to]);
        match self.below(60) {
            0..24 if lives => Text::of(format_args!("read {number} {key}..{end}")),
            24..28 if lives => Text::of(format_args!("put {number} {key}")),
            28..42 if lives => Text::of(format_args!("put {number} {key} {turn}")),
            42..54 if lives => Text::of(format_args!("commit {number}")),
            54 | 55 => Text::of(format_args!("hand_on small {}", self.below(4))),
            56 => Text::of(format_args!("collect {}", 8 + self.below(10))),
            _ => Text::new(),
        }
    }

    /// The calls of a history, one a line. The last transaction reads what the others leave.
    fn history(&mut self, alloc: Global) -> Result<String> {
        let mut calls = String::new(alloc);
        let count = 2 + self.below(7);
        for _ in 0..count {
            let (id, wall) = (self.below(6), 10 + self.below(12));
            writeln!(calls, "begin {id} {wall}")?;
        }
        writeln!(calls, "begin 7 1000")?;
        let mut live = [true; 8];
        for turn in 0..count * 6 {
            let number = self.below(count);
            let call = self.call(number, live[number], turn);
            live[number] &= !call.as_str().starts_with("commit");
            writeln!(calls, "{}", call.as_str())?;
        }
        for number in (0..count).filter(|number| live[*number]) {
            writeln!(calls, "commit {number}")?;
        }
        writeln!(calls, "read {count} a..g\ncommit {count}")?;
        Ok(calls)
    }
}

/// Whether keys as `a..c`, or `d` alone, have one among them.
fn covers(keys: &str, key: &str) -> bool {
    let (from, to) = keys.split_once("..").unwrap_or((keys, ""));
    key == from || from < key && key < to
}

/// Executes a call where keys have these values, and answers it.
fn execute(values: &mut Values, call: &str) -> Text {
    let [verb, _, keys, value, ..] = words(call, ' ');
    let mut answer = Text::new();
    for (key, held) in KEYS.iter().zip(values) {
        match held {
            _ if !covers(keys, key) => {}
            _ if verb == "put" => *held = value.parse().ok(),
            Some(value) => answer = answer.and(format_args!("{key}={value} "), 120),
            None => {}
        }
    }
    answer
}

/// What a transaction reads and writes.
fn operations(alloc: Global, rows: &[Row], number: &str) -> Result<Vec<Row>> {
    let is_own = |call| matches!(words(call, ' '), ["read" | "put", by, ..] if by == number);
    let own = rows.iter().filter(|(call, _)| is_own(call.as_str()));
    Ok(own.copied().collect(alloc)?)
}

/// Whether transactions are serializable in the order of the times at which they commit.
fn is_serial(alloc: Global, rows: &[Row]) -> Result<bool> {
    let mut order = Vec::new(alloc);
    for (call, answer) in rows {
        if let Some(at) = answer.as_str().strip_prefix("at ") {
            order.push((time(at)?, *call))?;
        }
    }
    order.sort_by_key(|(at, _)| *at)?;
    let mut values = [None; 7];
    let mut is_same = rows.last().map(|(_, answer)| answer.as_str()) == Some("at 1000.0");
    for (_, commit) in &order {
        for (call, answer) in &operations(alloc, rows, words(commit.as_str(), ' ')[1])? {
            is_same &= execute(&mut values, call.as_str()).as_str() == answer.as_str();
        }
    }
    Ok(is_same)
}

/// How many calls that begin so have an answer that does.
fn count(rows: &[Row], verb: &str, word: &str) -> usize {
    let rows = rows
        .iter()
        .filter(|(call, _)| call.as_str().starts_with(verb));
    let rows = rows.filter(|(_, reported)| reported.as_str().starts_with(word));
    rows.count()
}

/// The calls of the next history, and a range's answers.
fn rows_of(alloc: Global, sequence: &mut Sequence) -> Result<Vec<Row>> {
    let calls = sequence.history(alloc)?;
    let mut scene = open(alloc, "a..g", "small")?;
    let mut rows = Vec::new(alloc);
    for call in calls.lines() {
        rows.push((Text::of(call), answer(&mut scene, call)?))?;
    }
    Ok(rows)
}

/// A range has no violation in 10,000 histories, in which most transactions commit and many
/// restart.
#[test]
fn ranges_are_serializable(rt: HostRuntime) -> Result<(), Fail> {
    let mut sequence = Sequence(1);
    let (mut committed, mut restarts, mut refused) = (0_usize, 0_usize, 0_usize);
    for _ in 0..10_000 {
        let rows = rows_of(rt.alloc(), &mut sequence)?;
        assert!(rt; is_serial(rt.alloc(), &rows)?);
        committed = committed.saturating_add(count(&rows, "commit", "at"));
        restarts = restarts.saturating_add(count(&rows, "commit", "changed"));
        refused = refused.saturating_add(count(&rows, "read", "too early"));
    }
    assert!(rt; committed > 30_000);
    assert!(rt; restarts > 1_000);
    assert!(rt; refused > 1_000);
    Ok(())
}

/// Changes the first answer that begins with a word, and tells whether there was one: what is read
/// gets a further row, and a time gets another one.
fn change(rows: &mut [Row], word: &str, other: &str) -> bool {
    for (_, answer) in rows {
        if answer.as_str().starts_with(word) {
            *answer = Text::of(other);
            return true;
        }
    }
    false
}

/// The executor finds a commit at another time, one that was not made, and a row that was not read.
#[test]
fn violations_are_found(rt: HostRuntime) -> Result<(), Fail> {
    for (word, other) in [
        ("at 1", "at 9.0"),
        ("at 1", "changed 9.0"),
        ("a=", "b=99 "),
        ("b=", ""),
    ] {
        let (mut sequence, mut found) = (Sequence(1), 0_usize);
        for _ in 0..200 {
            let mut rows = rows_of(rt.alloc(), &mut sequence)?;
            let is_changed = change(&mut rows, word, other);
            found = found.saturating_add(usize::from(is_changed && !is_serial(rt.alloc(), &rows)?));
        }
        assert!(rt; found > 20, "{other}: {found}");
    }
    Ok(())
}
