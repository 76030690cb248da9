//! Readers and writers of `std` that are told with which troubles their calls may end.
//!
//! No clause of `std`'s `Read` and `Write` says when a call fails. [`LimitedRead`] and
//! [`LimitedWrite`] do, for bytes in memory; of [`AnyStreamFault`], as a file, nothing is known.
ghost use Rattle.std.specs.Prelude.{◌≡◌, ◌<◌, ◌≤◌, length, true, Ok, IfOk};
ghost use Rattle.std.specs.Io.KnownBytes.{ReadConsumes, WriteAppends};
ghost use Rattle.tsc_stream.specs.Stream.{ErrsWithin, Troubles, any_trouble, no_trouble, only_failures};

use crate::stream::StreamFault;
use std::io::{ErrorKind, Read, Write};

/// A reader of `std`, of which it is known with which troubles a read may end.
pub trait LimitedRead: Read {
    /// The troubles, which never change.
    ghost troubles: { Self → Troubles };

    /// Reads once. Of an error the kind counts.
    fn read_once(&mut self, buf: &mut [u8]) -> Result<usize, ErrorKind>
        ensures bound { IfOk result (λ n. n ≤ length buf.new) }
        ensures bytes { ReadConsumes (Self.remaining self.old) (Self.remaining self.new) result
            buf.new }
        ensures errors { ErrsWithin (troubles self.old) result }
        ensures same { troubles self.new ≡ troubles self.old };
}

/// A writer of `std`, of which it is known with which troubles a write may end. One that takes
/// nothing has failed.
pub trait LimitedWrite: Write {
    /// The troubles, which never change.
    ghost troubles: { Self → Troubles };

    /// Writes once. Of an error the kind counts.
    fn write_once(&mut self, buf: &[u8]) -> Result<usize, ErrorKind>
        requires bytes { 0 < length buf.now }
        ensures bound { IfOk result (λ n. n ≤ length buf.now) }
        ensures bytes { WriteAppends (Self.contents self.old) (Self.contents self.new) result
            buf.now }
        ensures nothing { result ≡ Ok 0 → troubles self.old StreamFault.Failed ≡ true }
        ensures errors { ErrsWithin (troubles self.old) result }
        ensures same { troubles self.new ≡ troubles self.old };
}

/// Bytes in memory are read without any trouble.
impl LimitedRead for &[u8] {
    ghost troubles = { λ _. no_trouble };

    fn read_once(&mut self, buf: &mut [u8]) -> Result<usize, ErrorKind> {
        self.read(buf).map_err(|error| error.kind())
    }
}

/// Bytes in memory are written whole, or not for want of memory.
impl LimitedWrite for Vec<u8> {
    ghost troubles = { λ _. only_failures };

    fn write_once(&mut self, buf: &[u8]) -> Result<usize, ErrorKind> {
        self.write(buf).map_err(|error| error.kind())
    }
}

/// A reader or a writer of which no more is known than what `std` says.
#[derive(Debug, Drop)]
pub struct AnyStreamFault<T>(pub T);

impl<R: Read> Read for AnyStreamFault<R> {
    ghost remaining = { λ any. R.remaining any.0 };

    fn read(&mut self, buf: &mut [u8]) -> std::io::Result<usize> {
        self.0.read(buf)
    }
}

impl<R: Read> LimitedRead for AnyStreamFault<R> {
    ghost troubles = { λ _. any_trouble };

    fn read_once(&mut self, buf: &mut [u8]) -> Result<usize, ErrorKind> {
        self.read(buf).map_err(|error| error.kind())
    }
}

impl<W: Write> Write for AnyStreamFault<W> {
    ghost contents = { λ any. W.contents any.0 };

    fn write(&mut self, buf: &[u8]) -> std::io::Result<usize> {
        self.0.write(buf)
    }

    fn flush(&mut self) -> std::io::Result<()> {
        self.0.flush()
    }
}

impl<W: Write> LimitedWrite for AnyStreamFault<W> {
    ghost troubles = { λ _. any_trouble };

    fn write_once(&mut self, buf: &[u8]) -> Result<usize, ErrorKind> {
        self.write(buf).map_err(|error| error.kind())
    }
}
