//! Readers and writers for tests, whose calls go wrong in a set way.
ghost use Rattle.tsc_stream.specs.Stream.{any_trouble};

use crate::inner::{LimitedRead, LimitedWrite};
use std::io;
use std::io::{ErrorKind, Read, Write};

/// Which calls go wrong, counted from 0.
#[derive(Clone, Copy, Debug)]
pub enum FaultPlan {
    /// No call does.
    Never,
    /// One call fails, and those after it do not.
    FailsAt(u64),
    /// Every second call is interrupted, the first among them.
    InterruptedNowAndThen,
    /// Each call is interrupted.
    AlwaysInterrupted,
}

impl FaultPlan {
    /// What goes wrong at a call.
    fn at(self, call: u64) -> Option<ErrorKind> {
        match self {
            FaultPlan::FailsAt(failing) if failing == call => Some(ErrorKind::PermissionDenied),
            FaultPlan::InterruptedNowAndThen if call % 2 == 0 => Some(ErrorKind::Interrupted),
            FaultPlan::AlwaysInterrupted => Some(ErrorKind::Interrupted),
            _ => None,
        }
    }
}

/// A reader or a writer that moves a few bytes a call, and whose calls may go wrong.
#[derive(Debug, Drop)]
pub struct FaultyStream<T> {
    pub inner: T,
    pub calls: u64,
    step: usize,
    mishap: FaultPlan,
}

impl<T> FaultyStream<T> {
    /// Moves up to `step` bytes a call. A writer with a step of 0 takes nothing.
    pub fn new(inner: T, step: usize, mishap: FaultPlan) -> FaultyStream<T> {
        FaultyStream {
            inner,
            calls: 0,
            step,
            mishap,
        }
    }

    /// Counts a call that has `len` bytes to move, and says how many it may move.
    fn begin(&mut self, len: usize) -> io::Result<usize> {
        let call = self.calls;
        self.calls = call.saturating_add(1);
        match self.mishap.at(call) {
            Some(kind) => Err(io::Error::from(kind)),
            None => Ok(len.min(self.step)),
        }
    }
}

impl<R: Read> Read for FaultyStream<R> {
    fn read(&mut self, buf: &mut [u8]) -> io::Result<usize> {
        let len = self.begin(buf.len())?.min(buf.len());
        self.inner.read(&mut buf[..len])
    }
}

impl<R: Read> LimitedRead for FaultyStream<R> {
    ghost troubles = { λ _. any_trouble };

    fn read_once(&mut self, buf: &mut [u8]) -> Result<usize, ErrorKind> {
        self.read(buf).map_err(|error| error.kind())
    }
}

impl<W: Write> Write for FaultyStream<W> {
    fn write(&mut self, buf: &[u8]) -> io::Result<usize> {
        let len = self.begin(buf.len())?.min(buf.len());
        self.inner.write(&buf[..len])
    }

    fn flush(&mut self) -> io::Result<()> {
        self.inner.flush()
    }
}

impl<W: Write> LimitedWrite for FaultyStream<W> {
    ghost troubles = { λ _. any_trouble };

    fn write_once(&mut self, buf: &[u8]) -> Result<usize, ErrorKind> {
        self.write(buf).map_err(|error| error.kind())
    }
}
