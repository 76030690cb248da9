//! Laws of reading traces, over the definitions alone: for every trace and every JSON value.
//!
//! No program needs to call these functions: their contracts are the laws.
ghost use Rattle.tsc_trace_format.specs.TraceLaws.{ReadsWhatIsWritten, ReadsInAnyOrder};

/// Each trace whose parts the public constructors make, and which is not too large, has a JSON
/// value that is read as that trace: every span, time and owner can be written.
pub fn reads_what_is_written()
    ensures { ReadsWhatIsWritten }
{}

/// The order of members, of any object at any depth, makes no difference to what a trace is read
/// as, or why it is refused.
pub fn reads_in_any_order()
    ensures { ReadsInAnyOrder }
{}
