//! File systems, in which the program finds files by their names.
ghost use Rattle.std.specs.Prelude.{ℕ, List};
ghost use Rattle.tsc_commands.specs.FileSystem.{IsOpening, Opening};

use tsc_stream::Source;

/// Why a file was not opened.
#[derive(Clone, Copy, Debug, PartialEq, Eq)]
pub enum OpenFault {
    /// The file could not be opened.
    Unopened,
    /// A growth was refused.
    NoMemory,
}

/// Files, found by their names.
pub trait FileSystem {
    /// A file that was opened.
    type File: Source + Drop;

    /// What opening the file of a name may come to: its bytes, where they are known, and with which
    /// troubles a read may end, or why it is not opened.
    ghost opens: { Self → List ℕ → Opening → Type 0 };

    /// Opens the file of a name, to be read from its first byte on.
    fn open(&self, name: &str) -> Result<Self::File, OpenFault>
        ensures { IsOpening Self.File.known (opens self.now name.now) result };
}
