//! A gate that holds the threads of a run up, and counts their calls.
use crate::support::*;
use std::sync::atomic::AtomicU64;
use std::sync::atomic::Ordering::SeqCst;
use std::thread;
use tsc_shared::Gate;

/// Holds threads up by a rule, and counts the starts and the ends of calls: of the first list, of
/// the second and of all others.
///
/// Without a rule a thread waits for nothing. By a number, each list waits before its first call
/// until that many lists have begun; by `in turn`, until as many calls are done as there are lists
/// before it. By `unseen`, each Add waits, unseen, until the second list's first call is done, and
/// that call waits until an Add is held up.
#[derive(Default, Drop)]
pub(crate) struct Watch<'r> {
    rule: &'r str,
    /// Threads that saw what they waited for.
    met: AtomicU64,
    reported: (AtomicU64, AtomicU64, AtomicU64),
    published: AtomicU64,
    /// Lists that have begun, calls that are done, and counts that came out of their order.
    begun: AtomicU64,
    done: AtomicU64,
    wrong: AtomicU64,
}

impl<'r> Watch<'r> {
    pub(crate) fn new(rule: &'r str) -> Watch<'r> {
        let mut watch = Watch::default();
        watch.rule = rule;
        watch
    }

    fn of(&self, thread: u32) -> &AtomicU64 {
        [&self.reported.0, &self.reported.1, &self.reported.2][thread.min(2) as usize]
    }

    /// Counts a start or an end, of which the first two lists' counts are known.
    fn count(&self, thread: u32, known: u64) {
        let is_wrong = self.of(thread).fetch_add(1, SeqCst) != known && thread < 2;
        self.wrong.fetch_add(u64::from(is_wrong), SeqCst);
    }

    /// Looks ten million times whether a count has come so far.
    fn wait_for(&self, count: &AtomicU64, wanted: u64) {
        let has_come = (0..10_000_000).any(|_| {
            thread::yield_now();
            count.load(SeqCst) >= wanted
        });
        self.met.fetch_add(u64::from(has_come), SeqCst);
    }

    /// Whether each call that has started is done, and all came in their order.
    pub(crate) fn is_in_order(&self) -> bool {
        let (first, second, others) = &self.reported;
        let reported = first.load(SeqCst) | second.load(SeqCst) | others.load(SeqCst);
        reported % 2 == 0 && self.wrong.load(SeqCst) == 0
    }

    /// The threads that saw what they waited for, the starts and ends, and the Adds.
    pub(crate) fn counts(&self, alloc: Global) -> Result<String, AllocError> {
        format!(in alloc; "{:?} {:?} {:?}", self.met, self.reported, self.published)
    }
}

impl Gate for Watch<'_> {
    ghost HasReported = { λ _ _. Unit {0} };

    fn start(&self, thread: u32, call: u32) {
        self.count(thread, u64::from(call).saturating_mul(2));
        if call > 0 {
            return;
        }
        self.begun.fetch_add(1, SeqCst);
        match self.rule {
            "in turn" => self.wait_for(&self.done, u64::from(thread)),
            "unseen" if thread == 1 => self.wait_for(&self.published, 1),
            "" | "unseen" => {}
            lists => self.wait_for(&self.begun, lists.parse().unwrap_or(u64::MAX)),
        }
    }

    fn done(&self, thread: u32, call: u32) {
        self.count(thread, u64::from(call).saturating_mul(2).saturating_add(1));
        self.done.fetch_add(1, SeqCst);
    }

    fn publish(&self, seat: u32) {
        self.published.fetch_add(1, SeqCst);
        let is_wrong = self.of(seat).load(SeqCst) % 2 == 0 && seat < 2;
        self.wrong.fetch_add(u64::from(is_wrong), SeqCst);
        if self.rule == "unseen" {
            // The first call of the second list has started and ended.
            self.wait_for(&self.reported.1, 2);
        }
    }
}

impl Progress for Watch<'_> {
    fn made(&self) {
        self.reported.2.fetch_add(1, SeqCst);
    }
}
