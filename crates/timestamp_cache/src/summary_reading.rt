//! Summaries from bytes.
ghost use Rattle.std.specs.Prelude.{◌≡◌, length, IfOk};
ghost use Rattle.std.specs.Str.{bytes_eq};
ghost use Rattle.std.specs.Int.{w32, w64, from_be_bytes};
ghost use Rattle.sha2.specs.Sha256.{sha256};
ghost use Rattle.tsc_span.specs.Span.{nothing};
ghost use Rattle.tsc_span.specs.Cuts.{cut_of};
ghost use Rattle.timestamp_cache.specs.SummaryBytes.{summary_bytes, IsMadeSummary};
ghost use Rattle.timestamp_cache.specs.SummaryReading.{Gives, GivesPart, byte_at, bytes_at};
ghost use Rattle.timestamp_cache.specs.SummaryReading.{number_at, key_at, cut_at, between_of};
ghost use Rattle.timestamp_cache.specs.SummaryReading.{between_at, span_at, time_of, time_at};
ghost use Rattle.timestamp_cache.specs.SummaryReading.{value_at, mark_at, marks_at, counted_at};
ghost use Rattle.timestamp_cache.specs.SummaryReading.{reported_at, reported_by, content_at, unsealed};
ghost use Rattle.timestamp_cache.specs.SummaryReading.{summary_of};

use crate::hand_over::{ReadSummary, own_key, owned};
use crate::summary_fault::SummaryFault;
use crate::summary_writing::digest_of;
use std::alloc::Global;
use tsc_cache::Mark;
use tsc_span::{Cut, Ends, LONGEST_KEY, Span};
use tsc_time::{NoMemory, Timestamp, Value};
use uuid::Uuid;

/// How many bytes stand around the content: the version, its length, and the digest.
const FRAME: usize = 41;

/// Where the content begins.
const CONTENT: usize = 9;

impl ReadSummary {
    /// The summary that bytes are, as [`to_bytes`](ReadSummary::to_bytes) wrote it.
    ///
    /// Bytes of another version, of another length than they tell, or with another digest than
    /// that of what stands before it, are refused, in this order; and then bytes in whose frame
    /// there is no summary. The call makes one pass of SHA-256 over bytes of the right version and
    /// length. Only behind that it takes memory, for the summary's keys and marks.
    ///
    /// ```
    /// let cache = Cache::new(alloc, config()?)?;
    /// let mut bytes = summary(alloc, &cache, &keys(alloc, "a", "z")?, 8)?.to_bytes()?;
    /// assert_eq!(rt; ReadSummary::from_bytes(alloc, &bytes)?.floor, at(5));
    /// bytes.pop();
    /// let cut = ReadSummary::from_bytes(alloc, &bytes).err();
    /// assert_eq!(rt; cut, Some(SummaryFault::Length));
    /// ```
    pub fn from_bytes(alloc: Global, bytes: &[u8]) -> Result<ReadSummary, SummaryFault>
        ensures read { Gives (λ reported. reported) result (summary_of bytes.now) }
        ensures written { IfOk result (λ reported.
            (bytes.now ≡ summary_bytes reported) × IsMadeSummary reported) }
    {
        let content = unsealed(bytes)?;
        summary_in(alloc, content)
    }
}

/// The content of bytes of this version.
#[tactic(auto, unfolding(crate::specs::SummaryReading::unsealed))]
fn unsealed(bytes: &[u8]) -> Result<&[u8], SummaryFault>
    ensures { Gives (λ content. content.now) result (unsealed bytes.now) }
{
    match bytes {
        [] => Err(SummaryFault::Length),
        [1, ..] => content_in(bytes),
        [_, ..] => Err(SummaryFault::Version),
    }
}

/// The content behind the version and its length, if the digest is that of all before it.
#[tactic(auto, unfolding(crate::specs::SummaryReading::content_at))]
fn content_in(bytes: &[u8]) -> Result<&[u8], SummaryFault>
    ensures { Gives (λ content. content.now) result (content_at bytes.now) }
{
    if bytes.len() < FRAME {
        return Err(SummaryFault::Length);
    }
    let len = wide(&bytes[1..CONTENT]) as usize;
    if len != bytes.len() - FRAME {
        return Err(SummaryFault::Length);
    }
    let (framed, digest) = bytes.split_at(CONTENT + len);
    if !is_digest(digest, framed) {
        return Err(SummaryFault::Checksum);
    }
    Ok(&framed[CONTENT..])
}

/// Whether bytes are the digest of others.
fn is_digest(digest: &[u8], bytes: &[u8]) -> bool
    ensures { result ≡ bytes_eq (sha256 bytes.now) digest.now }
{
    digest_of(bytes).as_slice() == digest
}

/// All of the bytes as the content of a summary.
#[tactic(auto, unfolding(crate::specs::SummaryReading::reported_by))]
fn summary_in(alloc: Global, bytes: &[u8]) -> Result<ReadSummary, SummaryFault>
    ensures { Gives (λ reported. reported) result (reported_by bytes.now) }
{
    let mut reader = Reader { rest: bytes };
    let reported = reader.reported(alloc)?;
    if !reader.rest.is_empty() {
        return Err(SummaryFault::Form);
    }
    Ok(reported)
}

/// Bytes that are read from the front.
#[derive(Drop)]
struct Reader<'a> {
    /// What is unread.
    rest: &'a [u8],
}

impl<'a> Reader<'a> {
    /// What is told.
    #[tactic(auto, unfolding(crate::specs::SummaryReading::reported_at))]
    fn reported(&mut self, alloc: Global) -> Result<ReadSummary, SummaryFault>
        ensures { GivesPart (λ reported. reported) result self.new.rest.now
            (reported_at self.old.rest.now) }
    {
        let span = self.span(alloc)?;
        let floor = self.time()?;
        let marks = self.counted(alloc)?;
        Ok(ReadSummary { span, floor, marks })
    }

    /// The marks behind their number.
    #[tactic(auto, unfolding(crate::specs::SummaryReading::counted_at))]
    fn counted(&mut self, alloc: Global) -> Result<Vec<Mark>, SummaryFault>
        ensures { GivesPart (λ marks. marks.items) result self.new.rest.now
            (counted_at self.old.rest.now) }
    {
        let count = self.wide()?;
        self.marks(alloc, count)
    }

    /// The next `count` marks.
    fn marks(&mut self, alloc: Global, count: u64) -> Result<Vec<Mark>, SummaryFault>
        ensures { GivesPart (λ marks. marks.items) result self.new.rest.now
            (marks_at count self.old.rest.now) }
    {
        let mut marks = Vec::new(alloc);
        for _ in 0..count {
            let mark = self.mark(alloc)?;
            marks.push(mark)?;
        }
        Ok(marks)
    }

    /// A mark.
    #[tactic(auto, unfolding(crate::specs::SummaryReading::mark_at))]
    fn mark(&mut self, alloc: Global) -> Result<Mark, SummaryFault>
        ensures { GivesPart (λ mark. mark) result self.new.rest.now (mark_at self.old.rest.now) }
    {
        let span = self.span(alloc)?;
        let value = self.value()?;
        Ok(Mark { span, value })
    }

    /// A time and who owns it.
    #[tactic(auto, unfolding(crate::specs::SummaryReading::value_at))]
    fn value(&mut self) -> Result<Value, SummaryFault>
        ensures { GivesPart (λ value. value) result self.new.rest.now (value_at self.old.rest.now) }
    {
        let time = self.time()?;
        let owner = self.bytes(16)?;
        match Uuid::from_slice(owner) {
            Ok(owner) => Ok(Value::of(time, owner)),
            Err(_) => Err(SummaryFault::Form),
        }
    }

    /// A time.
    #[tactic(auto, unfolding(crate::specs::SummaryReading::time_at))]
    fn time(&mut self) -> Result<Timestamp, SummaryFault>
        ensures { GivesPart (λ t. t) result self.new.rest.now (time_at self.old.rest.now) }
    {
        let wall = self.wide()?;
        let logical = self.number()?;
        time_of(wall, logical)
    }

    /// A span.
    #[tactic(auto, unfolding(crate::specs::SummaryReading::span_at))]
    fn span(&mut self, alloc: Global) -> Result<Span, SummaryFault>
        ensures { GivesPart (λ span. span) result self.new.rest.now (span_at self.old.rest.now) }
    {
        match self.byte()? {
            0 => Ok(empty_span(alloc)?),
            1 => self.between(alloc),
            _ => Err(SummaryFault::Form),
        }
    }

    /// A span with something in it.
    #[tactic(auto, unfolding(crate::specs::SummaryReading::between_at))]
    fn between(&mut self, alloc: Global) -> Result<Span, SummaryFault>
        ensures { GivesPart (λ span. span) result self.new.rest.now (between_at self.old.rest.now) }
    {
        let from = self.cut()?;
        let to = self.cut()?;
        between_of(alloc, from, to)
    }

    /// A place between keys.
    #[tactic(auto, unfolding(crate::specs::SummaryReading::cut_at))]
    fn cut(&mut self) -> Result<Cut<'a>, SummaryFault>
        ensures { GivesPart cut_of result self.new.rest.now (cut_at self.old.rest.now) }
    {
        match self.byte()? {
            0 => Ok(Cut::Before(self.key()?)),
            1 => Ok(Cut::After(self.key()?)),
            2 => Ok(Cut::Last),
            _ => Err(SummaryFault::Form),
        }
    }

    /// The bytes of a key.
    #[tactic(auto, unfolding(crate::specs::SummaryReading::key_at))]
    fn key(&mut self) -> Result<&'a [u8], SummaryFault>
        ensures { GivesPart (λ key. key.now) result self.new.rest.now (key_at self.old.rest.now) }
    {
        let len = self.number()? as usize;
        if len > LONGEST_KEY {
            return Err(SummaryFault::Form);
        }
        self.bytes(len)
    }

    /// A number of eight bytes.
    fn wide(&mut self) -> Result<u64, SummaryFault>
        ensures { GivesPart (λ n. n) result self.new.rest.now (number_at w64 self.old.rest.now) }
    {
        Ok(wide(self.bytes(8)?))
    }

    /// A number of four bytes.
    fn number(&mut self) -> Result<u32, SummaryFault>
        ensures { GivesPart (λ n. n) result self.new.rest.now (number_at w32 self.old.rest.now) }
    {
        let n = self.bytes(4)?;
        Ok(u32::from_be_bytes([n[0], n[1], n[2], n[3]]))
    }

    /// A byte.
    fn byte(&mut self) -> Result<u8, SummaryFault>
        ensures { GivesPart (λ b. b) result self.new.rest.now (byte_at self.old.rest.now) }
    {
        match self.rest {
            [] => Err(SummaryFault::Form),
            [byte, rest @ ..] => {
                self.rest = rest;
                Ok(*byte)
            }
        }
    }

    /// The next `len` bytes.
    fn bytes(&mut self, len: usize) -> Result<&'a [u8], SummaryFault>
        ensures { GivesPart (λ bytes. bytes.now) result self.new.rest.now
            (bytes_at len self.old.rest.now) }
    {
        if self.rest.len() < len {
            return Err(SummaryFault::Form);
        }
        let (bytes, rest) = self.rest.split_at(len);
        self.rest = rest;
        Ok(bytes)
    }
}

/// The empty span.
fn empty_span(alloc: Global) -> Result<Span, NoMemory>
    ensures { IfOk result (λ span. span ≡ nothing) }
{
    let key = own_key(alloc, &[])?;
    let same = own_key(alloc, &[])?;
    let neither = Ends {
        exclude_from: true,
        exclude_to: true,
    };
    Ok(Span::for_lookup(key, same, neither))
}

/// What lies between two places, where the first is below the second.
fn between_of(alloc: Global, from: Cut<'_>, to: Cut<'_>) -> Result<Span, SummaryFault>
    ensures { Gives (λ span. span) result (between_of (cut_of from.entry) (cut_of to.entry)) }
{
    if !from.is_below(to) {
        return Err(SummaryFault::Form);
    }
    Ok(owned(alloc, from, to)?)
}

/// The time of these parts, if they are in range.
fn time_of(wall: u64, logical: u32) -> Result<Timestamp, SummaryFault>
    ensures { Gives (λ t. t) result (time_of wall logical) }
{
    match Timestamp::new(wall, logical) {
        Some(time) => Ok(time),
        None => Err(SummaryFault::Form),
    }
}

/// The number of eight bytes.
fn wide(n: &[u8]) -> u64
    requires { length n.now ≡ 8 }
    ensures { result ≡ from_be_bytes w64 n.now }
{
    u64::from_be_bytes([n[0], n[1], n[2], n[3], n[4], n[5], n[6], n[7]])
}
