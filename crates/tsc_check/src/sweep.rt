//! One pass over a cache, in the order of the Adds.
ghost use Rattle.std.specs.Prelude.{◌≡◌, ◌⊎◌, ◌<◌, ◌≤◌, ◌||◌, ℕ, suc, length, true, false, not, Some, IfOk, IfSome, OnOk, option_map, slice_get};
ghost use Rattle.tsc_cache.specs.ConfigView.{ConfigView};
ghost use Rattle.tsc_cache.specs.History.{History, state_of};
ghost use Rattle.tsc_cache.specs.CacheView.{RepresentsState};
ghost use Rattle.tsc_trace_format.specs.Calls.{call_fits, is_same_kind};
ghost use Rattle.tsc_trace.specs.Log.{said_after, after_call};
ghost use Rattle.tsc_trace.specs.CallAnswers.{kind_of_answer, outcome_of};
ghost use Rattle.tsc_check.specs.Verdict.{adds_in, is_add, is_of_kind, is_same_answer, is_same_value, is_wrong_answer, least};
ghost use Rattle.tsc_check.specs.CheckParts.{AreInOrder, HasAdded, HasPlaced, Lowers, LowersAt, adds_there, call_in, looks_up_there};

use crate::order::Order;
use std::alloc::Global;
use tsc_cache::{Added, Cache, TimestampCache};
use tsc_stream::Progress;
use tsc_time::{NoMemory, Value};
use tsc_trace::{Call, CallAnswer, Line, Trace, add_all_fitting, add_fitting};

/// Whether two values differ.
fn differ(value: Value, other: Value) -> bool
    ensures { result ≡ not (is_same_value value other) }
{
    value != other
}

/// Whether the answer of a lookup is another than the cache gives.
fn is_other_value(cache: &Cache, call: &Call, said: CallAnswer) -> bool
    ensures { (config : ConfigView) (h : History) →
        RepresentsState cache.now config (state_of config h) → is_add said ≡ false
        → result ≡ not (is_same_answer said (said_after config h call.now)) }
{
    match (call, said) {
        (Call::Get { span }, CallAnswer::Get { value, .. }) => differ(value, cache.get_max(span)),
        (Call::Low, CallAnswer::Low { time, .. }) => cache.low_water() != time,
        _ => true,
    }
}

/// Whether an answer tells of another addition than one of its kind that did this.
fn is_other_added(said: CallAnswer, made: Added) -> bool
    ensures { (answer : CallAnswer) (place : ℕ) →
        is_same_kind (kind_of_answer answer) (kind_of_answer said) ≡ true
        → outcome_of answer ≡ Some (record { place = place; added = made }) →
        result ≡ not (is_same_answer said answer) }
{
    match said.reported() {
        Some(reported) => reported.added != made,
        None => true,
    }
}

/// Makes an Add or a batch, and tells whether its answer is another.
fn is_other_add(cache: &mut Cache, call: &Call, said: CallAnswer) -> Result<bool, NoMemory>
    requires { call_fits cache.old.config call.now ≡ true }
    ensures other { IfOk result (λ other. (config : ConfigView) (h : History) →
        RepresentsState cache.old config (state_of config h) → is_add said ≡ true
        → is_of_kind call.now said ≡ true →
        other ≡ not (is_same_answer said (said_after config h call.now))) }
    ensures stands { OnOk result ((config : ConfigView) (thread : ℕ) (h : History) →
        RepresentsState cache.old config (state_of config h)
        → RepresentsState cache.new config (state_of config (after_call thread h call.now))) }
{
    match call {
        Call::Add { span, value, now } => {
            let made = add_fitting(cache, span, *value, *now)?;
            Ok(is_other_added(said, made))
        }
        Call::Batch { marks, now } => {
            let made_all = add_all_fitting(cache, marks.slice(), *now)?;
            Ok(is_other_added(said, made_all))
        }
        Call::Get { .. } | Call::Low => Ok(true),
    }
}

/// The call of a line. All that it adds fits.
fn call_of<'a>(trace: &'a Trace, line: &Line) -> Option<&'a Call>
    ensures value { option_map (λ call. call.now) result ≡
        call_in (slice_get trace.now.threads line.now.thread) line.now.index }
    ensures fits { IfSome result (λ call. call_fits trace.now.config call.now ≡ true) }
{
    trace
        .threads
        .list(line.thread as usize)?
        .get(line.index as usize)
}

/// The lower of two line numbers, of which the first counts where its line is wrong.
fn lower(i: usize, wrong: bool, least: usize) -> usize
    ensures at_most { result ≤ least }
    ensures one { (result ≡ least) ⊎ ((result ≡ i) × (wrong ≡ true)) }
    ensures lowest { wrong ≡ true → result ≤ i }
{
    if wrong { i.min(least) } else { least }
}

/// The lines of a log in the order of the Adds: each is that of its call, and has its slot.
#[derive(Drop)]
struct OrderedLog<'a> {
    trace: &'a Trace,
    lines: &'a [Line],
    order: &'a Order,
    ghost in_order: { AreInOrder trace.now lines.now },
    ghost placed: { HasPlaced order.now lines.now (length lines.now) },
}

impl<'a> OrderedLog<'a> {
    /// Lowers a line number to that of a lookup whose answer is another than the cache gives.
    fn look_up(&self, cache: &Cache, i: usize, least: usize) -> usize
        requires index { i < length self.now.lines.now }
        ensures { (front : ℕ) → looks_up_there self.now.lines.now front i ≡ true →
            HasAdded cache.now self.now.trace.now self.now.lines.now front
            → LowersAt (is_wrong_answer self.now.trace.now self.now.lines.now) i least result }
    {
        let line = self.lines[i];
        match call_of(self.trace, &line) {
            Some(call) => lower(i, is_other_value(cache, call, line.said), least),
            None => least,
        }
    }

    /// Makes the Add of a line, and lowers a line number to that of this line if its answer is
    /// another.
    fn make_add(&self, cache: &mut Cache, i: usize, least: usize) -> Result<usize, NoMemory>
        requires index { i < length self.now.lines.now }
        requires config { cache.old.config ≡ self.now.trace.now.config }
        ensures lowers { IfOk result (λ new. (place : ℕ) →
            adds_there self.now.lines.now place i ≡ true →
            HasAdded cache.old self.now.trace.now self.now.lines.now place
            → LowersAt (is_wrong_answer self.now.trace.now self.now.lines.now) i least new) }
        ensures stands { OnOk result ((place : ℕ) →
            adds_there self.now.lines.now place i ≡ true →
            HasAdded cache.old self.now.trace.now self.now.lines.now place
            → HasAdded cache.new self.now.trace.now self.now.lines.now (suc place)) }
    {
        let line = self.lines[i];
        match call_of(self.trace, &line) {
            Some(call) => Ok(lower(i, is_other_add(cache, call, line.said)?, least)),
            None => Ok(least),
        }
    }

    /// Lowers a line number to the least of a lookup with this front whose answer is another than
    /// the cache gives.
    fn look_up_all<P: Progress>(
        &self,
        cache: &Cache,
        front: usize,
        least: usize,
        progress: &P,
    ) -> usize
        requires stands { HasAdded cache.now self.now.trace.now self.now.lines.now front }
        requires front { front ≤ adds_in self.now.lines.now }
        ensures { Lowers (is_wrong_answer self.now.trace.now self.now.lines.now)
            (looks_up_there self.now.lines.now front) least result }
    {
        let mut lowest = least;
        let mut next = self.order.lookups[front];
        while let Some(i) = next {
            lowest = self.look_up(cache, i, lowest);
            progress.made();
            next = self.order.earlier[i];
        }
        lowest
    }

    /// Answers all lines that have this many Adds before them, the Add last.
    fn pass<P: Progress>(
        &self,
        cache: &mut Cache,
        front: usize,
        least: usize,
        progress: &P,
    ) -> Result<usize, NoMemory>
        requires stands { HasAdded cache.old self.now.trace.now self.now.lines.now front }
        requires front { front ≤ adds_in self.now.lines.now }
        ensures lowers { IfOk result (λ new.
            Lowers (is_wrong_answer self.now.trace.now self.now.lines.now)
            (λ j. looks_up_there self.now.lines.now front j ||
            adds_there self.now.lines.now front j) least new) }
        ensures stands { OnOk result
            (HasAdded cache.new self.now.trace.now self.now.lines.now (suc front)) }
    {
        let least = self.look_up_all(cache, front, least, progress);
        match self.order.adds[front] {
            Some(i) => {
                progress.made();
                self.make_add(cache, i, least)
            }
            None => Ok(least),
        }
    }
}

/// The least line whose answer is wrong. Each call is told as it is made.
pub fn least_untrue<P: Progress>(
    alloc: Global,
    trace: &Trace,
    lines: &[Line],
    order: &Order,
    progress: &P,
) -> Result<Option<usize>, NoMemory>
    requires order { AreInOrder trace.now lines.now }
    requires placed { HasPlaced order.now lines.now (length lines.now) }
    ensures { IfOk result (λ wrong. wrong ≡ least (is_wrong_answer trace.now lines.now)
        (length lines.now)) }
{
    let log = OrderedLog {
        trace,
        lines,
        order,
    };
    let mut cache = Cache::new(alloc, trace.config)?;
    let mut lowest = lines.len();
    for front in 0..order.adds.len() {
        lowest = log.pass(&mut cache, front, lowest, progress)?;
    }
    if lowest < lines.len() {
        Ok(Some(lowest))
    } else {
        Ok(None)
    }
}
