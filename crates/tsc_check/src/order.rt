//! The lines of a log in the order of the Adds.
ghost use Rattle.std.specs.Prelude.{◌≡◌, ◌<◌, ◌≤◌, ◌+◌, ◌^◌, ℕ, nat_lt, suc, length, get_or, is_some, false, None, IfOk, OnOk, IfNone};
ghost use Rattle.tsc_trace_format.specs.Limits.{most_calls};
ghost use Rattle.tsc_trace.specs.CallAnswers.{front_of};
ghost use Rattle.tsc_check.specs.Verdict.{adds_in, is_add, is_wrong_place, least, reach};
ghost use Rattle.tsc_check.specs.CheckParts.{AreOfLists, HasPlaced};

use std::alloc::Global;
use tsc_time::NoMemory;
use tsc_trace::{CallAnswer, Line};

/// Where lines stand among the Adds. There is a slot for each number of Adds, from none to all.
#[derive(Drop)]
pub struct Order {
    /// The line of the Add with this place.
    pub adds: Vec<Option<usize>>,
    /// The last line of a lookup with this front.
    pub lookups: Vec<Option<usize>>,
    /// For each line the last one before it that is of a lookup with its place or front.
    pub earlier: Vec<Option<usize>>,
    /// How many Adds each list has come to know of.
    reached: Vec<u64>,
}

/// Whether an answer is that of an Add.
pub fn is_add(said: CallAnswer) -> bool
    ensures { result ≡ is_add said }
{
    said.reported().is_some()
}

/// How many Adds a caller knows of who has had an answer: those before it, and its own.
fn reach(said: &CallAnswer) -> u64
    requires { front_of said.now + 1 < 2 ^ 64 }
    ensures { result ≡ reach said.now }
{
    if is_add(*said) {
        said.front() + 1
    } else {
        said.front()
    }
}

/// How many lines are those of Adds.
pub fn count_adds(lines: &[Line]) -> usize
    ensures value { result ≡ adds_in lines.now }
    ensures most { result ≤ length lines.now }
{
    let mut count: usize = 0;
    for line in lines {
        if is_add(line.said) {
            count += 1;
        }
    }
    count
}

impl Order {
    /// An order without lines, for a trace of `lists` lists. It has slots for all Adds of `lines`.
    pub fn new(alloc: Global, lines: &[Line], lists: usize) -> Result<Order, NoMemory>
        requires few { length lines.now ≤ most_calls }
        requires lists { AreOfLists lists lines.now }
        ensures { IfOk result (λ order. HasPlaced order lines.now 0) }
    {
        let slots = count_adds(lines) + 1;
        Ok(Order {
            adds: vec![in alloc; None; slots]?,
            lookups: vec![in alloc; None; slots]?,
            earlier: Vec::new(alloc),
            reached: vec![in alloc; 0; lists]?,
        })
    }

    /// Whether a list has come to know of more than `front` Adds.
    fn knows_more(&self, list: usize, front: u64) -> bool
        requires { list < length self.now.reached.items }
        ensures { (d : ℕ) → result ≡ nat_lt front (get_or self.now.reached.items list d) }
    {
        front < self.reached[list]
    }

    /// Whether an Add with this place is there.
    fn has_add(&self, place: usize) -> bool
        requires { place < length self.now.adds.items }
        ensures { result ≡ is_some (get_or self.now.adds.items place None) }
    {
        self.adds[place].is_some()
    }

    /// Whether the place or the front of the line with this number is wrong after the lines that
    /// are there.
    fn misplaces(&self, lines: &[Line], i: usize) -> bool
        requires index { i < length lines.now }
        requires placed { HasPlaced self.now lines.now i }
        ensures { result ≡ is_wrong_place lines.now i }
    {
        let line = lines[i];
        let front = line.said.front();
        if self.knows_more(line.thread as usize, front) {
            return true;
        }
        let last = self.adds.len() - 1;
        if is_add(line.said) {
            front >= last as u64 || self.has_add(front as usize)
        } else {
            front > last as u64
        }
    }

    /// Adds the line with this number.
    fn put(&mut self, lines: &[Line], i: usize) -> Result<(), NoMemory>
        requires index { i < length lines.now }
        requires placed { HasPlaced self.old lines.now i }
        requires fine { is_wrong_place lines.now i ≡ false }
        ensures { OnOk result (HasPlaced self.new lines.now (suc i)) }
    {
        let line = lines[i];
        let slot = line.said.front() as usize;
        let before = self.lookups[slot];
        self.earlier.push(before)?;
        self.reached[line.thread as usize] = reach(&line.said);
        if is_add(line.said) {
            self.adds[slot] = Some(i);
        } else {
            self.lookups[slot] = Some(i);
        }
        Ok(())
    }

    /// Adds lines up to the first one whose place or front is wrong, and gives its number, from 0.
    pub fn put_all(&mut self, lines: &[Line]) -> Result<Option<usize>, NoMemory>
        requires { HasPlaced self.old lines.now 0 }
        ensures wrong { IfOk result
            (λ wrong. wrong ≡ least (is_wrong_place lines.now) (length lines.now)) }
        ensures placed { IfOk result
            (λ wrong. IfNone wrong (HasPlaced self.new lines.now (length lines.now))) }
    {
        for i in 0..lines.len() {
            if self.misplaces(lines, i) {
                return Ok(Some(i));
            }
            self.put(lines, i)?;
        }
        Ok(None)
    }
}
