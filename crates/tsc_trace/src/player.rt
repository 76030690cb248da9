//! Replays of a trace on one thread.
ghost use Rattle.std.specs.Prelude.{◌≡◌, ◌++◌, ◌∷◌, [], ◌+◌, ◌<◌, ◌≤◌, ◌^◌, length, true, IfOk, OnErr, OnOk};
ghost use Rattle.tsc_cache.specs.ConfigView.{ConfigView, fits};
ghost use Rattle.tsc_cache.specs.Batch.{all_fit};
ghost use Rattle.tsc_cache.specs.State.{CacheState};
ghost use Rattle.tsc_cache.specs.CacheView.{RepresentsState};
ghost use Rattle.tsc_trace_format.specs.Calls.{call_fits, one_mark, several_marks};
ghost use Rattle.tsc_trace_format.specs.Traces.{EachFits};
ghost use Rattle.tsc_trace_format.specs.Limits.{most_calls};
ghost use Rattle.tsc_trace.specs.Log.{log_of, made};
ghost use Rattle.tsc_trace.specs.Play.{Standing, said_at, played};

use crate::log::{CallAnswer, Line, Lines, Log};
use std::alloc::Global;
use tsc_cache::{Added, Cache, Mark, TimestampCache};
use tsc_span::Span;
use tsc_stream::{NoProgress, Progress};
use tsc_time::{NoMemory, Timestamp, Value};
use tsc_trace_format::{Call, Trace};

/// Adds a span that fits the cache's pages, as each does that a call of a [`Trace`] adds. So memory
/// alone may be wanting, and then the cache is as before.
pub fn add_fitting(
    cache: &mut Cache,
    span: &Span,
    value: Value,
    now: Timestamp,
) -> Result<Added, NoMemory>
    requires { fits cache.old.config span.now ≡ true }
    ensures added { IfOk result (λ added. (config : ConfigView) (s : CacheState) →
        RepresentsState cache.old config s
        → added ≡ (made config s (one_mark span.now value now)).added) }
    ensures stands { OnOk result ((config : ConfigView) (s : CacheState) →
        RepresentsState cache.old config s
        → RepresentsState cache.new config (made config s (one_mark span.now value
        now)).state) }
    ensures config { OnOk result (cache.new.config ≡ cache.old.config) }
    ensures unchanged { OnErr result (cache.new ≡ cache.old) }
{
    cache.add_one_fitting(span, value, now)
}

/// Adds marks that fit the cache's pages, one after another, as each batch of a [`Trace`] does. So
/// memory alone may be wanting, and then none of them is added.
pub fn add_all_fitting(cache: &mut Cache, marks: &[Mark], now: Timestamp) -> Result<Added, NoMemory>
    requires { all_fit cache.old.config marks.now ≡ true }
    ensures added { IfOk result (λ added. (config : ConfigView) (s : CacheState) →
        RepresentsState cache.old config s
        → added ≡ (made config s (several_marks marks.now now)).added) }
    ensures stands { OnOk result ((config : ConfigView) (s : CacheState) →
        RepresentsState cache.old config s
        → RepresentsState cache.new config (made config s (several_marks marks.now
        now)).state) }
    ensures config { OnOk result (cache.new.config ≡ cache.old.config) }
    ensures unchanged { OnErr result (cache.new ≡ cache.old) }
{
    cache.add_all_fitting(marks, now)
}

/// A replay under way: the cache, how many Adds there were, and the lines so far.
#[derive(Drop)]
struct Player {
    cache: Cache,
    adds: u64,
    lines: Vec<Line>,
}

impl Player {
    ghost use Rattle.tsc_trace.specs.PlayerParts.{HasMade, StandsAt};

    /// Makes a call, and gives its answer.
    fn answer(&mut self, call: &Call) -> Result<CallAnswer, NoMemory>
        requires count { self.old.adds + 1 < 2 ^ 64 }
        requires fits { call_fits self.old.cache.config call.now ≡ true }
        ensures said { IfOk result
            (λ said. (config : ConfigView) (at : Standing) → StandsAt self.old config at
            → said ≡ said_at config at call.now) }
        ensures made { OnOk result (HasMade self.old self.new (call.now ∷ [])) }
        ensures lines { self.new.lines ≡ self.old.lines }
    {
        let front = self.adds;
        match call {
            Call::Add { span, value, now } => {
                let added = add_fitting(&mut self.cache, span, *value, *now)?;
                self.adds += 1;
                Ok(CallAnswer::Add {
                    place: front,
                    added,
                })
            }
            Call::Batch { marks, now } => {
                let added = add_all_fitting(&mut self.cache, marks.slice(), *now)?;
                let place = front;
                self.adds = place + 1;
                Ok(CallAnswer::Batch { place, added })
            }
            Call::Get { span } => Ok(CallAnswer::Get {
                front,
                value: self.cache.get_max(span),
            }),
            Call::Low => Ok(CallAnswer::Low {
                front,
                time: self.cache.low_water(),
            }),
        }
    }

    /// Makes the calls of the list with this number, and adds their lines.
    fn play_list<P: Progress>(
        &mut self,
        thread: u32,
        calls: &[Call],
        progress: &P,
    ) -> Result<(), NoMemory>
        requires count { self.old.adds + length calls.now < 2 ^ 64 }
        requires index { length calls.now ≤ most_calls }
        requires fits { EachFits self.old.cache.config calls.now }
        ensures lines { OnOk result
            ((config : ConfigView) (at : Standing) → StandsAt self.old config at
            → self.new.lines.items ≡ self.old.lines.items ++
            played config thread 0 at calls.now) }
        ensures made { OnOk result (HasMade self.old self.new calls.now) }
    {
        for (index, call) in calls.iter().enumerate() {
            let said = self.answer(call)?;
            progress.made();
            self.lines.push(Line {
                thread,
                index: index as u32,
                said,
            })?;
        }
        Ok(())
    }
}

/// The log of a trace on one thread: its lists one after another, over one cache.
///
/// The memory is that of the cache's pages, and the lines.
pub fn play(alloc: Global, trace: &Trace) -> Result<Log, NoMemory>
    ensures { IfOk result (λ log. log.lines ≡ log_of trace.now) }
{
    play_with_progress(alloc, trace, &NoProgress)
}

/// The log of a trace, as [`play`] makes it. `progress` is told of each call as soon as it was
/// made.
pub fn play_with_progress<P: Progress>(
    alloc: Global,
    trace: &Trace,
    progress: &P,
) -> Result<Log, NoMemory>
    ensures { IfOk result (λ log. log.lines ≡ log_of trace.now) }
{
    let mut player = Player {
        cache: Cache::new(alloc, trace.config)?,
        adds: 0,
        lines: Vec::new(alloc),
    };
    for (thread, calls) in trace.threads.slice().iter().enumerate() {
        player.play_list(thread as u32, calls, progress)?;
    }
    Ok(Log {
        lines: Lines::of(player.lines),
    })
}
