//! The text of a line, written from its last byte to its first.
//!
//! The digits of a number come from the last to the first, so a text that grows at its front takes
//! each of them once, and no memory is asked for.
ghost use Rattle.std.specs.Prelude.{◌≡◌, ◌+◌, ◌≤◌, [], ◌∷◌, ◌++◌, length, codes, decimal};
ghost use Rattle.tsc_trace.specs.LogText.{bit_text, dot, line_feed, line_text, owner_text, answer_text, space, time_text};

use crate::log::{CallAnswer, Line};
use itoa::write_digits;
use std::marker::Model;
use tsc_cache::Added;
use tsc_time::Timestamp;
use uuid::Uuid;

/// Room for the longest line there is, of 115 bytes, and its line feed.
const ROOM: usize = 160;

/// The text of a line that is being written, or of its end.
#[derive(Drop)]
pub(crate) struct Printer {
    bytes: [u8; ROOM],
    start: usize,
}

impl Model for Printer {
    ghost use Rattle.std.specs.Prelude.{ℕ, List, ◌≤◌, drop};

    ghost Value = { List ℕ };

    ghost view = { λ p. drop p.start p.bytes };

    ghost invariant = { λ p. p.start ≤ 160 };
}

impl Printer {
    /// No text.
    pub(crate) fn new() -> Printer
        ensures { result ≡ [] }
    {
        Printer {
            bytes: [0; ROOM],
            start: ROOM,
        }
    }

    /// The text of this line.
    pub(crate) fn line(&mut self, line: &Line) -> &[u8]
        ensures { result.now ≡ line_text line.now }
    {
        self.clear();
        self.put_line(line);
        self.text()
    }

    /// The text of this line and its line feed.
    pub(crate) fn ended_line(&mut self, line: &Line) -> &[u8]
        ensures { result.now ≡ line_text line.now ++ line_feed ∷ [] }
    {
        self.clear();
        self.put_byte(b'\n');
        self.put_line(line);
        self.text()
    }

    /// Empties the text.
    fn clear(&mut self)
        ensures { self.new ≡ [] }
    {
        self.start = ROOM;
    }

    /// The text.
    fn text(&self) -> &[u8]
        ensures { result.now ≡ self.now }
    {
        &self.bytes[self.start..]
    }

    /// Puts a line before the text.
    fn put_line(&mut self, line: &Line)
        requires { length self.old ≤ 1 }
        ensures { self.new ≡ line_text line.now ++ self.old }
    {
        self.put_said(&line.said);
        self.put_field(line.index as u64);
        self.put_field(line.thread as u64);
    }

    /// Puts an answer before the text.
    fn put_said(&mut self, said: &CallAnswer)
        requires { length self.old ≤ 1 }
        ensures text { self.new ≡ answer_text said.now ++ self.old }
        ensures room { length self.new ≤ 103 + length self.old }
    {
        match said {
            CallAnswer::Add { place, added } => self.put_added(b"add", *place, added),
            CallAnswer::Batch { place, added } => self.put_added(b"batch", *place, added),
            CallAnswer::Get { front, value } => {
                self.put_owner(value.owner());
                self.put_byte(b' ');
                self.put_time(value.time());
                self.put_field(*front);
                self.put_field_word(b"get");
            }
            CallAnswer::Low { front, time } => {
                self.put_time(*time);
                self.put_field(*front);
                self.put_field_word(b"low");
            }
        }
    }

    /// Puts what an Add or a batch did before the text, and its place, and this word.
    fn put_added(&mut self, word: &[u8], place: u64, added: &Added)
        requires { (length word.now ≤ 5) × (length self.old ≤ 1) }
        ensures text { self.new ≡ word.now ++ space ∷ decimal place ++ space ∷
            bit_text added.now.kept
            ++ space ∷ bit_text added.now.rotated ++ space ∷ decimal added.now.evicted ++ self.old }
        ensures room { length self.new ≤ 51 + length self.old }
    {
        self.put_number(added.evicted);
        self.put_bit_field(added.rotated);
        self.put_bit_field(added.kept);
        self.put_field(place);
        self.put_field_word(word);
    }

    /// Puts a time before the text.
    fn put_time(&mut self, time: Timestamp)
        requires { length self.old ≤ 64 }
        ensures text { self.new ≡ decimal time.wall ++ dot ∷ decimal time.logical ++ self.old }
        ensures room { length self.new ≤ 41 + length self.old }
    {
        self.put_number(time.logical() as u64);
        self.put_byte(b'.');
        self.put_number(time.wall());
    }

    /// Puts the name of an owner before the text.
    fn put_owner(&mut self, owner: Option<Uuid>)
        requires { length self.old ≤ 1 }
        ensures text { self.new ≡ owner_text owner ++ self.old }
        ensures room { length self.new ≤ 36 + length self.old }
    {
        match owner {
            Some(uuid) => {
                let mut room = Uuid::encode_buffer();
                self.put_word(uuid.hyphenated().encode_lower(&mut room).as_bytes());
            }
            None => self.put_word(b"none"),
        }
    }

    /// Puts a number before the text, and a space between the two.
    fn put_field(&mut self, number: u64)
        requires { length self.old ≤ 139 }
        ensures text { self.new ≡ decimal number ++ space ∷ self.old }
        ensures room { length self.new ≤ 21 + length self.old }
    {
        self.put_byte(b' ');
        self.put_number(number);
    }

    /// Puts a bit before the text, and a space between the two.
    fn put_bit_field(&mut self, bit: bool)
        requires { length self.old ≤ 158 }
        ensures text { self.new ≡ bit_text bit ++ space ∷ self.old }
        ensures room { length self.new ≡ 2 + length self.old }
    {
        self.put_byte(b' ');
        self.put_byte(if bit { b'1' } else { b'0' });
    }

    /// Puts a word before the text, and a space between the two.
    fn put_field_word(&mut self, word: &[u8])
        requires { length word.now + 1 + length self.old ≤ 160 }
        ensures text { self.new ≡ word.now ++ space ∷ self.old }
        ensures room { length self.new ≡ length word.now + 1 + length self.old }
    {
        self.put_byte(b' ');
        self.put_word(word);
    }

    /// Puts a number before the text.
    fn put_number(&mut self, number: u64)
        requires { length self.old ≤ 140 }
        ensures text { self.new ≡ decimal number ++ self.old }
        ensures room { length self.new ≤ 20 + length self.old }
    {
        self.start = write_digits(number, &mut self.bytes, self.start);
    }

    /// Puts a word before the text.
    fn put_word(&mut self, word: &[u8])
        requires { length word.now + length self.old ≤ 160 }
        ensures text { self.new ≡ word.now ++ self.old }
        ensures room { length self.new ≡ length word.now + length self.old }
    {
        let end = self.start;
        self.start = end - word.len();
        self.bytes[self.start..end].copy_from_slice(word);
    }

    /// Puts a byte before the text.
    fn put_byte(&mut self, byte: u8)
        requires { length self.old ≤ 159 }
        ensures text { self.new ≡ byte ∷ self.old }
        ensures room { length self.new ≡ 1 + length self.old }
    {
        self.start -= 1;
        self.bytes[self.start] = byte;
    }
}
