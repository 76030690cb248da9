//! The marks that a call asks for.

ghost use Rattle.std.specs.Prelude.{◌≡◌, ◌⊎◌, IfOk, IfErr, Some, true, false};
ghost use Rattle.tsc_ffi_store.specs.Decode.{value_of};
ghost use Rattle.tsc_ffi_store.specs.Marks.{part_of, IsMark, AreMarks, AskForMarks, RefusesPart, RefusesMark, RefusesMarks};
ghost use Rattle.tsc_ffi_store.specs.declared.refusal.Refusal.TheVariants.{NoMemory, TooLarge};

use crate::ctypes::{SpanArgs, TscMark};
use crate::decode::{added_span, copied_span, value, value_time};
use crate::refusal::Refusal;
use std::alloc::Global;
use tsc_cache::{Config, Mark};
use tsc_span::AddSpan;

/// `len` of these bytes, from the one at `at` on.
pub fn part(keys: &[u8], at: usize, len: usize) -> Result<&[u8], Refusal>
    ensures value { IfOk result (λ part. part_of keys.now at len ≡ Some part.now) }
    ensures refused { IfErr result (λ why. RefusesPart why keys.now at len) }
{
    if at > keys.len() {
        return Err(Refusal::Outside);
    }
    let (_, rest) = keys.split_at(at);
    if len > rest.len() {
        return Err(Refusal::Outside);
    }
    let (part, _) = rest.split_at(len);
    Ok(part)
}

/// The span of these words, over the keys where they lie. All that the words say is looked at.
fn mark_span<'a>(keys: &'a [u8], asked: &TscMark) -> Result<AddSpan<'a>, Refusal>
    ensures value { IfOk result (λ span. IsMark keys.now asked.now
        (record { span = span; value = value_of asked.now.value })) }
    ensures refused { IfErr result (λ why. RefusesMark why keys.now asked.now) }
{
    let _time = value_time(&asked.value)?;
    let from = part(keys, asked.from_at, asked.from_len)?;
    let to = part(keys, asked.to_at, asked.to_len)?;
    let ends = asked.ends;
    added_span(&SpanArgs { from, to, ends })
}

/// Whether each of these words is a mark, and then whether the span of each fits a page. No key is
/// copied.
pub fn check_marks(config: &Config, keys: &[u8], asked: &[TscMark]) -> Result<(), Refusal>
    ensures fit { IfOk result (λ _. AskForMarks config.now keys.now asked.now true) }
    ensures refused { IfErr result (λ why. RefusesMarks why keys.now asked.now ⊎
        ((why ≡ TooLarge) × AskForMarks config.now keys.now asked.now false)) }
{
    let mut fit = true;
    for words in asked {
        let span = mark_span(keys, words)?;
        fit &= config.fits_ref(&span);
    }
    if fit { Ok(()) } else { Err(Refusal::TooLarge) }
}

/// The mark of these words.
fn mark(alloc: Global, keys: &[u8], asked: &TscMark) -> Result<Mark, Refusal>
    ensures value { IfOk result (λ mark. IsMark keys.now asked.now mark) }
    ensures refused { IfErr result (λ why. RefusesMark why keys.now asked.now ⊎
        (why ≡ NoMemory)) }
{
    let value = value(&asked.value)?;
    let from = part(keys, asked.from_at, asked.from_len)?;
    let to = part(keys, asked.to_at, asked.to_len)?;
    let ends = asked.ends;
    let span = copied_span(alloc, &SpanArgs { from, to, ends })?;
    Ok(Mark { span, value })
}

/// The marks of these words, in their order, with copies of their keys.
pub fn marks(alloc: Global, keys: &[u8], asked: &[TscMark]) -> Result<Vec<Mark>, Refusal>
    ensures value { IfOk result (λ marks. AreMarks keys.now asked.now marks.items) }
    ensures refused { IfErr result (λ why. RefusesMarks why keys.now asked.now ⊎
        (why ≡ NoMemory)) }
{
    let mut marks = Vec::new(alloc);
    for words in asked {
        let mark = mark(alloc, keys, words)?;
        let Ok(()) = marks.push(mark) else {
            return Err(Refusal::NoMemory);
        };
    }
    Ok(marks)
}
