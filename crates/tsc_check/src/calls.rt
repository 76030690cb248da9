//! Which line is not that of its call.
ghost use Rattle.std.specs.Prelude.{◌≡◌, ◌≤◌, ◌+◌, ◌++◌, length, drop, List, Option, Some, None, MatchOption, IfNone, IfSome, ◌<◌, ◌^◌};
ghost use Rattle.tsc_trace_format.specs.Limits.{most_calls};
ghost use Rattle.tsc_check.specs.Verdict.{PlacedCall, calls_of, calls_of_list, is_of_kind, is_line_of};
ghost use Rattle.tsc_check.specs.CheckParts.{first_other};

use tsc_trace::{Call, CallAnswer, Line, Trace};

/// Whether an answer is of the kind of a call.
fn is_of_kind(call: &Call, said: CallAnswer) -> bool
    ensures { result ≡ is_of_kind call.now said }
{
    call.kind() == said.kind()
}

/// Whether a line is that of the call of this list and this index.
fn is_line_of(line: &Line, thread: usize, index: usize, call: &Call) -> bool
    ensures { result ≡ is_line_of (record { thread = thread; index = index; call = call.now })
        line.now }
{
    line.thread as usize == thread && line.index as usize == index && is_of_kind(call, line.said)
}

/// The first line, from this number on, that is not that of its call of a list.
fn other_in_list(thread: usize, calls: &[Call], lines: &[Line], from: usize) -> Option<usize>
    requires { from ≤ length lines.now }
    ensures first { (rest : List PlacedCall) → MatchOption result
        (first_other from (calls_of_list thread 0 calls.now ++ rest) (drop from lines.now)
        ≡ first_other (from + length calls.now) rest (drop (from + length calls.now) lines.now))
        (λ i. first_other from (calls_of_list thread 0 calls.now ++ rest) (drop from lines.now) ≡
        Some i) }
    ensures within { IfNone result (from + length calls.now ≤ length lines.now) }
{
    let mut i = from;
    for (index, call) in calls.iter().enumerate() {
        let line = lines.get(i);
        match line {
            Some(line) => {
                if !is_line_of(line, thread, index, call) {
                    return Some(i);
                }
            }
            None => return Some(i),
        }
        i += 1;
    }
    None
}

/// The first line that is not that of its call, or has none.
pub fn other_line(trace: &Trace, lines: &[Line]) -> Option<usize>
    ensures first { result ≡ first_other 0 (calls_of trace.now) lines.now }
    ensures few { IfNone result (length lines.now ≤ most_calls) }
    ensures below { IfSome result (λ i. i + 1 < 2 ^ 64) }
{
    let mut from: usize = 0;
    for (thread, calls) in trace.threads.slice().iter().enumerate() {
        if let Some(i) = other_in_list(thread, calls, lines, from) {
            return Some(i);
        }
        from += calls.len();
    }
    if from < lines.len() { Some(from) } else { None }
}
