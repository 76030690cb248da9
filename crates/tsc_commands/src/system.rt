//! What the program takes from the system: its words, the files that they name, and where it
//! writes.
//!
//! The contracts of `std` say nothing of these. Tests show that these are the words of the call,
//! and that a file is read beyond its first bytes.
ghost use Rattle.std.specs.Prelude.{◌≡◌, ◌↔◌};
ghost use Rattle.tsc_commands.specs.FileSystem.{says_nothing};

use crate::cli::WordsFault;
use crate::file_system::{FileSystem, OpenFault};
use crate::standard_streams::{Errors, Output};
use std::env::Env;
use std::io::{ErrorKind, Stderr, Stdout};
use std::rt::Files;
use std::{env, fs};
use tsc_stream::{AnyStreamFault, Limited};

/// The program's words, of which the first is its own name. A word that is no text is wrong.
pub fn fetch_words<R: Env + AllocGlobal>(rt: &R) -> Result<Vec<String>, WordsFault> {
    match env::args(rt) {
        Ok(words) => Ok(words.collect(rt.alloc())?),
        Err(error) => Err(words_fault(error.kind())),
    }
}

/// Why the words are not to be had, where the system gives an error of this kind.
fn words_fault(kind: ErrorKind) -> WordsFault
    ensures { (result ≡ WordsFault.NoMemory) ↔ (kind ≡ ErrorKind.OutOfMemory) }
{
    match kind {
        ErrorKind::OutOfMemory => WordsFault::NoMemory,
        _ => WordsFault::Wrong,
    }
}

/// Standard output, which takes the logs and the verdicts.
pub fn standard_output(stdout: Stdout) -> Output<Limited<AnyStreamFault<Stdout>>> {
    Output {
        writer: Limited::new(AnyStreamFault(stdout)),
    }
}

/// Standard error, on which faults are told.
pub fn standard_errors(stderr: Stderr) -> Errors<Limited<AnyStreamFault<Stderr>>> {
    Errors {
        writer: Limited::new(AnyStreamFault(stderr)),
    }
}

/// The files that a runtime reaches.
#[derive(Drop)]
pub struct SystemFiles<'a, R> {
    runtime: &'a R,
}

impl<'a, R> SystemFiles<'a, R> {
    pub fn of(runtime: &'a R) -> SystemFiles<'a, R> {
        SystemFiles { runtime }
    }
}

impl<R: Files> FileSystem for SystemFiles<'_, R> {
    type File = Limited<AnyStreamFault<R::File>>;

    ghost opens = { says_nothing };

    fn open(&self, name: &str) -> Result<Limited<AnyStreamFault<R::File>>, OpenFault> {
        match fs::open(self.runtime, name) {
            Ok(file) => Ok(Limited::new(AnyStreamFault(file))),
            Err(error) => Err(open_fault(error.kind())),
        }
    }
}

/// Why a file was not opened, where the system gives an error of this kind.
fn open_fault(kind: ErrorKind) -> OpenFault
    ensures { (result ≡ OpenFault.NoMemory) ↔ (kind ≡ ErrorKind.OutOfMemory) }
{
    match kind {
        ErrorKind::OutOfMemory => OpenFault::NoMemory,
        _ => OpenFault::Unopened,
    }
}
