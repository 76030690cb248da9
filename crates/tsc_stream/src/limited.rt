//! Readers and writers of `std` whose calls are counted.
ghost use Rattle.std.specs.Prelude.{◌≡◌, ◌≢◌, ◌↔◌, ◌<◌, ◌-◌, Some, None, IsTrue, Ok, Err, IfOk, IfErr, IfSome};
ghost use Rattle.tsc_stream.specs.Stream.{fresh_reader, fresh_writer, phase_after};

use crate::inner::{LimitedRead, LimitedWrite};
use crate::stream::{Phase, Sink, Source, StreamFault};
use std::io::ErrorKind;

/// How often a command reads before it gives up, and how often it writes.
pub(crate) const MOST_TURNS: u32 = 33_554_432;

/// A reader or a writer of `std` that may be called 33,554,432 times, unless it is made with
/// another number.
///
/// A call fails only where the one inside did, or no call is left. Once a call has failed, or a
/// read has told the end, the one inside is not asked again.
#[derive(Drop)]
pub struct Limited<T> {
    inner: T,
    turns: u32,
    phase: Phase,
}

impl<T> Limited<T> {
    ghost use Rattle.std.specs.Prelude.{List, Option, ℕ};
    ghost use Rattle.tsc_stream.specs.LimitedParts.{inner_of, phase_in, reader_of, turns_of, writer_of};
    ghost use Rattle.tsc_stream.specs.Stream.{Troubles};

    /// `inner`, which has not been called yet.
    pub fn new(inner: T) -> Limited<T>
        ensures inner { inner_of result ≡ inner }
        ensures reader { (bytes : Option (List ℕ)) (troubles : Troubles) →
            reader_of bytes troubles result ≡ fresh_reader bytes troubles }
        ensures writer { (bytes : Option (List ℕ)) (troubles : Troubles) →
            writer_of bytes troubles result ≡ fresh_writer bytes troubles }
    {
        Limited {
            inner,
            turns: MOST_TURNS,
            phase: Phase::Open,
        }
    }

    /// `inner`, which may be called `turns` times. The function is public so that tests reach the
    /// last call.
    pub fn with_turns(inner: T, turns: u32) -> Limited<T>
        ensures inner { inner_of result ≡ inner }
        ensures turns { turns_of result ≡ turns }
        ensures phase { phase_in result ≡ Phase.Open }
    {
        Limited {
            inner,
            turns,
            phase: Phase::Open,
        }
    }

    /// What a read is told without a call to the one inside: nothing just where it is open and a
    /// turn is left.
    fn read_unasked(&self) -> Option<Result<usize, StreamFault>>
        ensures none { result ≡ None ↔
            ((phase_in self.now ≡ Phase.Open) × (0 < turns_of self.now)) }
        ensures ended { phase_in self.now ≡ Phase.Ended → result ≡ Some (Ok 0) }
        ensures failed { phase_in self.now ≢ Phase.Ended →
            IfSome result (λ reported. reported ≡ Err StreamFault.Failed) }
    {
        match self.phase {
            Phase::Ended => Some(Ok(0)),
            Phase::Open if self.turns > 0 => None,
            Phase::Open | Phase::Failed => Some(Err(StreamFault::Failed)),
        }
    }

    /// Whether a write is a call to the one inside: just where none has failed and a turn is left.
    fn asks_to_write(&self) -> bool
        ensures { IsTrue result ↔ ((phase_in self.now ≢ Phase.Failed) × (0 < turns_of self.now)) }
    {
        self.phase != Phase::Failed && self.turns > 0
    }

    /// Counts a call.
    fn count_call(&mut self)
        ensures turns { turns_of self.new ≡ turns_of self.old - 1 }
        ensures others { (inner_of self.new ≡ inner_of self.old) ×
            (phase_in self.new ≡ phase_in self.old) }
    {
        self.turns = self.turns.saturating_sub(1);
    }

    /// What was wrapped.
    pub fn into_inner(self) -> T
        ensures { result ≡ inner_of self }
    {
        let Limited { inner, .. } = self;
        inner
    }
}

/// How a call to a reader or a writer of `std` went.
fn settled(gave: Result<usize, ErrorKind>) -> Result<usize, StreamFault>
    ensures ok { IfOk gave (λ count. result ≡ Ok count) }
    ensures interrupted { gave ≡ Err ErrorKind.Interrupted → result ≡ Err StreamFault.Interrupted }
    ensures failed { IfErr gave (λ kind. kind ≢ ErrorKind.Interrupted →
        result ≡ Err StreamFault.Failed) }
{
    match gave {
        Ok(count) => Ok(count),
        Err(ErrorKind::Interrupted) => Err(StreamFault::Interrupted),
        Err(_) => Err(StreamFault::Failed),
    }
}

/// How a write went, of which taking nothing is a failure.
fn settled_write(gave: Result<usize, ErrorKind>) -> Result<usize, StreamFault>
    ensures took { IfOk gave (λ count. 0 < count → result ≡ Ok count) }
    ensures nothing { gave ≡ Ok 0 → result ≡ Err StreamFault.Failed }
    ensures interrupted { gave ≡ Err ErrorKind.Interrupted → result ≡ Err StreamFault.Interrupted }
    ensures failed { IfErr gave (λ kind. kind ≢ ErrorKind.Interrupted →
        result ≡ Err StreamFault.Failed) }
{
    match gave {
        Ok(0) => Err(StreamFault::Failed),
        gave => settled(gave),
    }
}

/// Where a reader is after a read that gave this.
fn phase_after(reported: Result<usize, StreamFault>) -> Phase
    ensures { result ≡ phase_after reported }
{
    match reported {
        Ok(0) => Phase::Ended,
        Ok(_) | Err(StreamFault::Interrupted) => Phase::Open,
        Err(StreamFault::Failed) => Phase::Failed,
    }
}

impl<R: LimitedRead> Source for Limited<R> {
    ghost use Rattle.tsc_stream.specs.LimitedParts.{inner_of, reader_of};

    ghost known = { λ m. reader_of (R.remaining (inner_of m)) (R.troubles (inner_of m)) m };

    fn read(&mut self, buf: &mut [u8]) -> Result<usize, StreamFault> {
        let unasked = self.read_unasked();
        self.count_call();
        let reported = match unasked {
            Some(reported) => reported,
            None => settled(self.inner.read_once(buf)),
        };
        self.phase = phase_after(reported);
        reported
    }
}

impl<W: LimitedWrite> Sink for Limited<W> {
    ghost use Rattle.tsc_stream.specs.LimitedParts.{inner_of, writer_of};

    ghost known = { λ m. writer_of (W.contents (inner_of m)) (W.troubles (inner_of m)) m };

    fn write(&mut self, buf: &[u8]) -> Result<usize, StreamFault> {
        let asks = self.asks_to_write();
        self.count_call();
        if !asks {
            self.phase = Phase::Failed;
            return Err(StreamFault::Failed);
        }
        let reported = settled_write(self.inner.write_once(buf));
        if reported == Err(StreamFault::Failed) {
            self.phase = Phase::Failed;
        }
        reported
    }
}
