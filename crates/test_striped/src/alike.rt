//! Calls that look random, on stripes and on one cache. Where no page rotates and nothing is
//! dropped, both have to answer alike, which no contract says: this finds a bound or a cut on the
//! wrong side in the definitions themselves.
use crate::seats::Seats;
use std::alloc::Global;
use std::sync::Wait;
use std::test::Fail;
use test_support::rows::{Reported, SpanBytes, owner, span_bytes};
use test_support::{CacheTable, Table, at, play};
use tsc_cache::Mark;
use tsc_time::Value;

/// Spans whose ends are bounds, and lie right before and behind them.
const SPANS: &str = "[] [a] [b] [b%00] [c] [d] [d%00] [e] (b,b%00) (c,c) [,b) [,b] [a,b) \
    (a,b] [a,c) [a,d) [a,d] [b,b] [b,d) [b,d] (b,d) (b,d] (b%00,d%00) [c,d%00) [c,e] (d,e) \
    [,e) [a,d%00) [b..] (b..] [d..] (d..] [..] [e..]";

/// Numbers that look random, and are the same in each run.
#[derive(Clone, Copy)]
struct Numbers {
    state: u64,
}

impl Numbers {
    /// The next number, which is below this one.
    fn below(&mut self, end: u64) -> u64 {
        let next = self.state.wrapping_mul(6_364_136_223_846_793_005);
        self.state = next.wrapping_add(1_442_695_040_888_963_407);
        (self.state >> 33) % end.max(1)
    }

    fn span(&mut self, alloc: Global) -> Reported<SpanBytes> {
        let place = self.below(34) as usize;
        span_bytes(alloc, SPANS.split(' ').nth(place).unwrap_or(""))
    }

    /// A mark, and the bytes of its span.
    fn mark(&mut self, alloc: Global) -> Reported<(SpanBytes, Mark)> {
        let bytes = self.span(alloc)?;
        let time = at(self.below(40), (self.below(2) % 2) as u32);
        let id = owner(["A", "B", "-"].get(self.below(3) as usize).unwrap_or(&""))?;
        let (span, value) = (bytes.span(alloc)?, Value::of(time, id));
        Ok((bytes, Mark { span, value }))
    }

    /// Up to four marks.
    fn marks(&mut self, alloc: Global) -> Reported<Vec<Mark>> {
        let mut marks = Vec::new(alloc);
        for _ in 0..self.below(5) {
            marks.push(self.mark(alloc)?.1)?;
        }
        Ok(marks)
    }

    /// Whether two tables answer an Add and a lookup alike.
    fn are_alike<T: Table, U: Table>(
        &mut self,
        alloc: Global,
        one: &mut T,
        other: &mut U,
    ) -> Reported<bool> {
        let now = at(20, 0);
        let is_alike = if self.below(2) == 0 {
            let (bytes, mark) = self.mark(alloc)?;
            one.add(&bytes, &mark, now)? == other.add(&bytes, &mark, now)?
        } else {
            let marks = self.marks(alloc)?;
            one.add_all(&marks, now)? == other.add_all(&marks, now)?
        };
        let bytes = self.span(alloc)?;
        Ok(is_alike && one.get(&bytes)? == other.get(&bytes)?)
    }
}

/// How many of 2,000 Adds and lookups are answered alike, in stripes that these rows open.
fn alike<R: Wait>(rt: &R, alloc: Global, rows: &str) -> Result<u32, Fail> {
    let (mut seats, mut alone) = (Seats::new(rt, alloc)?, CacheTable::new(alloc)?);
    play(alloc, &mut seats, rows)?;
    play(alloc, &mut alone, "open 1048576 1048576 2 10 5.0 0 = done")?;
    let (mut numbers, mut count) = (Numbers { state: 7 }, 0_u32);
    for _ in 0..2000 {
        let is_alike = numbers.are_alike(alloc, &mut seats, &mut alone)?;
        count = count.saturating_add(u32::from(is_alike));
    }
    Ok(count)
}

#[test]
fn three_stripes_answer_as_one_cache(rt: HostRuntime) -> Result<(), Fail> {
    let rows = "stripes 1048576 1048576 2 10 5.0 [b] [d] = done";
    assert_eq!(rt; alike(&rt, rt.alloc(), rows)?, 2000);
    Ok(())
}

#[test]
fn tries_answer_as_one_cache(rt: HostRuntime) -> Result<(), Fail> {
    let rows = "stripes 1048576 1048576 2 10 5.0 [b%00] [c] = done\ntries 3 = done";
    assert_eq!(rt; alike(&rt, rt.alloc(), rows)?, 2000);
    Ok(())
}
