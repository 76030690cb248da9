//! Readers and writers that may be called a bounded number of times, and fail for good.
ghost use Rattle.std.specs.Prelude.{◌≡◌, ◌⊎◌, ◌<◌, ◌≤◌, length, true, Err, IfOk, IfErr};
ghost use Rattle.std.specs.Io.KnownBytes.{ReadConsumes, WriteAppends};
ghost use Rattle.tsc_stream.specs.Stream.{AfterRead, AfterWrite, IsSpentReader, IsSpentWriter, KnownReader, KnownWriter, StaysAtEnd};

/// Why a reader gave nothing, or a writer took nothing.
#[derive(Clone, Copy, Debug, PartialEq, Eq)]
pub enum StreamFault {
    /// The call was interrupted, and may be made again.
    Interrupted,
    /// The call failed, or no call was left.
    Failed,
}

/// How far a reader has come. One that has told its end, or failed, does so from then on.
#[derive(Clone, Copy, Debug, PartialEq, Eq)]
pub enum Phase {
    /// Reads go on.
    Open,
    /// A read has told the end.
    Ended,
    /// A read has failed.
    Failed,
}

/// A reader that may be called a bounded number of times. Its end is final, as is a failure.
pub trait Source {
    /// What is known of the reader.
    ghost known: { Self → KnownReader };

    /// Reads into the first bytes of `buf`. No bytes means the end.
    fn read(&mut self, buf: &mut [u8]) -> Result<usize, StreamFault>
        requires room { 0 < length buf.old }
        ensures bound { IfOk result (λ n. n ≤ length buf.new) }
        ensures bytes { ReadConsumes (known self.old).bytes (known self.new).bytes result buf.new }
        ensures after { AfterRead (known self.old) (known self.new) result }
        ensures end { StaysAtEnd (known self.old) result }
        ensures why { IfErr result (λ trouble.
            IsSpentReader (known self.old) ⊎ ((known self.old).troubles trouble ≡ true)) };
}

/// A writer that may be called a bounded number of times. A failure is final.
pub trait Sink {
    /// What is known of the writer.
    ghost known: { Self → KnownWriter };

    /// Writes the first bytes of `buf`, at least one. Taking none is a failure.
    fn write(&mut self, buf: &[u8]) -> Result<usize, StreamFault>
        requires bytes { 0 < length buf.now }
        ensures bound { IfOk result (λ n. (0 < n) × (n ≤ length buf.now)) }
        ensures bytes { WriteAppends (known self.old).bytes (known self.new).bytes result buf.now }
        ensures after { AfterWrite (known self.old) (known self.new) result }
        ensures failed { IsSpentWriter (known self.old) → result ≡ Err StreamFault.Failed }
        ensures why { IfErr result (λ trouble.
            IsSpentWriter (known self.old) ⊎ ((known self.old).troubles trouble ≡ true)) };
}
