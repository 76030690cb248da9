//! Summaries as bytes.
ghost use Rattle.std.specs.Prelude.{◌≡◌, ◌≤◌, ◌++◌, ◌∷◌, length, true, Ok, IfOk, OnOk};
ghost use Rattle.std.specs.List.{AllByRecursion};
ghost use Rattle.sha2.specs.Sha256.{sha256};
ghost use Rattle.tsc_time.specs.Time.{is_in_range};
ghost use Rattle.tsc_time.specs.ValueView.{IsMadeValue};
ghost use Rattle.tsc_span.specs.Span.{longest_key};
ghost use Rattle.tsc_span.specs.Cuts.{cut_of};
ghost use Rattle.tsc_span.specs.MadeSpan.{IsMadeCut, IsMadeSpan};
ghost use Rattle.timestamp_cache.specs.SummaryBytes.{key_bytes, cut_bytes, span_bytes, time_bytes};
ghost use Rattle.timestamp_cache.specs.SummaryBytes.{value_bytes, mark_bytes, marks_bytes};
ghost use Rattle.timestamp_cache.specs.SummaryBytes.{content_bytes, framed, sealed, summary_bytes};
ghost use Rattle.timestamp_cache.specs.SummaryBytes.{IsMadeMark, IsMadeSummary};
ghost use Rattle.timestamp_cache.specs.SummaryReading.{summary_of};

use crate::hand_over::ReadSummary;
use sha2::{Digest, Sha256};
use std::alloc::Global;
use tsc_cache::Mark;
use tsc_span::{Cut, Span};
use tsc_time::{NoMemory, Timestamp, Value};
use uuid::Uuid;

/// The version of summaries that is written and read.
const VERSION: u8 = 1;

impl ReadSummary {
    /// The summary as bytes, to be sent to another process or kept; `docs/FORMATS.md` has their
    /// form. [`from_bytes`](ReadSummary::from_bytes) reads them back.
    ///
    /// The call makes one pass of SHA-256 over the bytes. What it gives has room for less than
    /// twice as many. While the call writes, it takes less than four times their memory, and once
    /// more where a block that grows has to move.
    ///
    /// ```
    /// let cache = Cache::new(alloc, config()?)?;
    /// let told = summary(alloc, &cache, &keys(alloc, "a", "z")?, 8)?;
    /// let read = ReadSummary::from_bytes(alloc, &told.to_bytes()?)?;
    /// assert_eq!(rt; (read.floor, read.marks.len()), (at(5), 0));
    /// ```
    pub fn to_bytes(&self) -> Result<Vec<u8>, NoMemory>
        ensures written { IfOk result (λ bytes. bytes.items ≡ summary_bytes self.now) }
        ensures read_back { IfOk result (λ bytes. summary_of bytes.items ≡ Ok self.now) }
    {
        let alloc = *self.marks.allocator();
        let content = content_of(alloc, self)?;
        sealed(alloc, &content)
    }
}

/// What is told, without the frame.
fn content_of(alloc: Global, reported: &ReadSummary) -> Result<Vec<u8>, NoMemory>
    ensures written { IfOk result (λ content. content.items ≡ content_bytes reported.now) }
    ensures made { OnOk result (IsMadeSummary reported.now) }
{
    let mut out = Vec::new(alloc);
    put_span(&mut out, &reported.span)?;
    put_time(&mut out, reported.floor)?;
    put_marks(&mut out, &reported.marks)?;
    Ok(out)
}

/// The content behind the version and its length, and the digest of all that.
fn sealed(alloc: Global, content: &[u8]) -> Result<Vec<u8>, NoMemory>
    ensures { IfOk result (λ bytes. bytes.items ≡ sealed (framed content.now)) }
{
    let mut out = Vec::new(alloc);
    out.push(VERSION)?;
    out.extend_from_slice(&(content.len() as u64).to_be_bytes())?;
    out.extend_from_slice(content)?;
    let digest = digest_of(&out);
    out.extend_from_slice(&digest)?;
    Ok(out)
}

/// The digest of bytes.
pub(crate) fn digest_of(bytes: &[u8]) -> [u8; 32]
    ensures { result ≡ sha256 bytes.now }
{
    let mut hasher = Sha256::new();
    hasher.update(bytes);
    hasher.finalize()
}

/// Appends how many marks there are, and the marks.
fn put_marks(out: &mut Vec<u8>, marks: &[Mark]) -> Result<(), NoMemory>
    ensures written { OnOk result (out.new.items ≡ out.old.items ++ marks_bytes marks.now) }
    ensures made { OnOk result (AllByRecursion IsMadeMark marks.now) }
{
    out.extend_from_slice(&(marks.len() as u64).to_be_bytes())?;
    for mark in marks {
        put_mark(out, mark)?;
    }
    Ok(())
}

/// Appends a mark.
fn put_mark(out: &mut Vec<u8>, mark: &Mark) -> Result<(), NoMemory>
    ensures written { OnOk result (out.new.items ≡ out.old.items ++ mark_bytes mark.now) }
    ensures made { OnOk result (IsMadeMark mark.now) }
{
    put_span(out, &mark.span)?;
    put_value(out, mark.value)
}

/// Appends a time and who owns it.
fn put_value(out: &mut Vec<u8>, value: Value) -> Result<(), NoMemory>
    ensures written { OnOk result (out.new.items ≡ out.old.items ++ value_bytes value) }
    ensures made { OnOk result (IsMadeValue value) }
{
    let owner = value.owner().unwrap_or(Uuid::nil());
    put_time(out, value.time())?;
    Ok(out.extend_from_slice(owner.as_bytes())?)
}

/// Appends a time.
fn put_time(out: &mut Vec<u8>, time: Timestamp) -> Result<(), NoMemory>
    ensures written { OnOk result (out.new.items ≡ out.old.items ++ time_bytes time) }
    ensures made { OnOk result (is_in_range time ≡ true) }
{
    out.extend_from_slice(&time.wall().to_be_bytes())?;
    Ok(out.extend_from_slice(&time.logical().to_be_bytes())?)
}

/// Appends a span.
fn put_span(out: &mut Vec<u8>, span: &Span) -> Result<(), NoMemory>
    ensures written { OnOk result (out.new.items ≡ out.old.items ++ span_bytes span.now) }
    ensures made { OnOk result (IsMadeSpan span.now) }
{
    match span.cuts() {
        None => Ok(out.push(0)?),
        Some((from, to)) => {
            out.push(1)?;
            put_cut(out, from)?;
            put_cut(out, to)
        }
    }
}

/// Appends a place between keys.
fn put_cut(out: &mut Vec<u8>, cut: Cut<'_>) -> Result<(), NoMemory>
    requires { IsMadeCut (cut_of cut) }
    ensures { OnOk result (out.new.items ≡ out.old.items ++ cut_bytes (cut_of cut.entry)) }
{
    match cut {
        Cut::Before(key) => put_key(out, 0, key),
        Cut::After(key) => put_key(out, 1, key),
        Cut::Last => Ok(out.push(2)?),
    }
}

/// Appends which side of a key it is, and the key.
fn put_key(out: &mut Vec<u8>, side: u8, key: &[u8]) -> Result<(), NoMemory>
    requires { length key.now ≤ longest_key }
    ensures { OnOk result (out.new.items ≡ out.old.items ++ (side ∷ key_bytes key.now)) }
{
    out.push(side)?;
    out.extend_from_slice(&(key.len() as u32).to_be_bytes())?;
    Ok(out.extend_from_slice(key)?)
}
