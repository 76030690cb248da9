//! Laws of readers and writers, over the definitions alone.
//!
//! No program needs to call these functions: their contracts are the laws.
ghost use Rattle.tsc_stream.specs.StreamLaws.{ReliableReadsDoNotFail};

/// A reader of which no read meets any trouble, as bytes in memory, is not told as failed, unless
/// it had failed before or may be called no more often than an input may have bytes.
pub fn reliable_reads_do_not_fail()
    ensures { ReliableReadsDoNotFail }
{}
