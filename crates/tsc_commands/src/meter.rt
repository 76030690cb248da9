//! How far a command is, for whoever waits for it at a terminal.
use std::io::{IsTerminal, Stderr, Write};
use std::sync::atomic::{AtomicU64, Ordering};
use std::time::{Clock, Instant};
use tsc_shared::Gate;
use tsc_stream::Progress;

/// How many seconds a command is silent.
const SILENT: u64 = 2;

/// How many calls are made for each look at the clock.
const CALLS: u64 = 64;

/// Tells on standard error every two seconds how many calls of a trace were made, where that is a
/// terminal. Else it tells nothing.
#[derive(Drop)]
pub struct Meter<'a, C> {
    clock: &'a C,
    errors: Stderr,
    /// When the command began, where it is to be told how far it is.
    start: Option<Instant>,
    made: AtomicU64,
    /// At which second after the start it is told next.
    due: AtomicU64,
}

impl<'a, C: Clock> Meter<'a, C> {
    pub fn new(clock: &'a C, errors: Stderr) -> Meter<'a, C> {
        let start = if errors.is_terminal() {
            Instant::now(clock).ok()
        } else {
            None
        };
        Meter {
            clock,
            errors,
            start,
            made: AtomicU64::new(0),
            due: AtomicU64::new(SILENT),
        }
    }

    /// Whether it is to be told now how far the command is. Of several threads one is told so.
    fn is_due(&self, start: Instant) -> bool {
        let Ok(elapsed) = start.elapsed(self.clock) else {
            return false;
        };
        let now = elapsed.as_secs();
        let due = self.due.load(Ordering::SeqCst);
        due <= now && self.is_first(due, now.saturating_add(SILENT))
    }

    /// Whether no other thread has told it since.
    fn is_first(&self, due: u64, next: u64) -> bool {
        self.due
            .compare_exchange(due, next, Ordering::SeqCst, Ordering::SeqCst)
            .is_ok()
    }

    /// Tells how many calls were made, where that can be written.
    fn report(&self, made: u64) {
        let mut errors = self.errors;
        let _ = writeln!(errors, "{made} calls made");
    }
}

impl<C: Clock> Progress for Meter<'_, C> {
    fn made(&self) {
        let Some(start) = self.start else {
            return;
        };
        let made = self.made.fetch_add(1, Ordering::SeqCst).wrapping_add(1);
        if made % CALLS == 0 && self.is_due(start) {
            self.report(made);
        }
    }
}

impl<C: Clock> Gate for Meter<'_, C> {
    ghost HasReported = { λ _ _. Unit {0} };

    fn start(&self, _thread: u32, _call: u32) {}

    fn done(&self, _thread: u32, _call: u32) {
        self.made();
    }

    fn publish(&self, _seat: u32) {}
}

/// Tells nobody how far a command is.
#[derive(Clone, Copy, Debug)]
pub struct NoMeter;

impl Progress for NoMeter {
    fn made(&self) {}
}

impl Gate for NoMeter {
    ghost HasReported = { λ _ _. Unit {0} };

    fn start(&self, _thread: u32, _call: u32) {}

    fn done(&self, _thread: u32, _call: u32) {}

    fn publish(&self, _seat: u32) {}
}
