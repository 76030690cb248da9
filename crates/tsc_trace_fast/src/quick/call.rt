//! The calls of a trace.

ghost use Rattle.std.specs.Prelude.{◌≡◌, Ok, IfSome, OnSome};
ghost use Rattle.serde_json.specs.Data.{Data, Members, no_members, object, put};
ghost use Rattle.tsc_trace_format.specs.TraceText.{add_of, batch_of, get_of, low_of, call_of};
ghost use Rattle.tsc_trace_fast.specs.Kept.{KeepsCall};
ghost use Rattle.tsc_trace_fast.specs.TokenReads.{Reads, Got, HasAllMembers};

use super::mark::{marks, owner};
use super::span::span_form;
use super::token::{next_name, open_object, text, time};
use json::Reader;
use std::alloc::Global;
use tsc_time::{Timestamp, Value};
use tsc_trace_format::{Call, Marks, SpanForm};
use uuid::Uuid;

/// The members of a call that were read.
#[derive(Drop)]
pub(crate) struct CallParts<'a> {
    op: Option<&'a str>,
    span: Option<SpanForm>,
    time: Option<Timestamp>,
    owner: Option<Uuid>,
    marks: Option<Marks>,
    now: Option<Timestamp>,
}

impl<'a> CallParts<'a> {
    /// Reads the member of this name. A name that was there before takes the later value.
    fn take(&mut self, alloc: Global, name: &str, reader: &mut Reader<'a>) -> Option<()>
        ensures { OnSome result ((d : Data) × Reads 3 reader.old d reader.new
            × ((found : Members) → KeepsCall found self.old →
            KeepsCall (put name.now d found) self.new)) }
    {
        match name {
            "op" => self.op = Some(text(reader)?),
            "span" => self.span = Some(span_form(alloc, reader)?),
            "time" => self.time = Some(time(reader)?),
            "owner" => self.owner = Some(owner(reader)?),
            "marks" => self.marks = Some(marks(alloc, reader)?),
            "now" => self.now = Some(time(reader)?),
            _ => return None,
        }
        Some(())
    }

    /// Reads the members up to the end of their object. None was read before.
    fn read(&mut self, alloc: Global, reader: &mut Reader<'a>) -> Option<()>
        requires none { KeepsCall no_members self.old }
        ensures { OnSome result ((found : Members) × HasAllMembers 3 reader.old found reader.new ×
            KeepsCall found self.new) }
    {
        'members: while let Some(name) = next_name(reader)? {
            self.take(alloc, name, reader)?;
        }
        Some(())
    }

    /// The Add that the members are. The span is taken out of them.
    fn add(&mut self) -> Option<Call>
        ensures { IfSome result (λ call. (found : Members) → KeepsCall found self.old →
            add_of found ≡ Ok call) }
    {
        if self.marks.is_some() {
            return None;
        }
        let form = self.span.take()?;
        let span = form.added()?;
        let value = Value::of(self.time?, self.owner.unwrap_or(Uuid::nil()));
        let now = self.now?;
        Some(Call::Add { span, value, now })
    }

    /// The batch that the members are. The marks are taken out of them.
    fn batch(&mut self) -> Option<Call>
        ensures { IfSome result (λ call. (found : Members) → KeepsCall found self.old →
            batch_of found ≡ Ok call) }
    {
        if self.span.is_some() || self.time.is_some() || self.owner.is_some() {
            return None;
        }
        let marks = self.marks.take()?;
        let now = self.now?;
        Some(Call::Batch { marks, now })
    }

    /// The lookup that the members are. The span is taken out of them.
    fn get(&mut self) -> Option<Call>
        ensures { IfSome result (λ call. (found : Members) → KeepsCall found self.old →
            get_of found ≡ Ok call) }
    {
        if self.owner.is_some()
            || self.time.is_some()
            || self.marks.is_some()
            || self.now.is_some()
        {
            return None;
        }
        let form = self.span.take()?;
        let span = form.looked_up();
        Some(Call::Get { span })
    }

    /// The call for the floor that the members are.
    fn low(&self) -> Option<Call>
        ensures { IfSome result (λ call. (found : Members) → KeepsCall found self.entry.now →
            low_of found ≡ Ok call) }
    {
        if self.span.is_some()
            || self.time.is_some()
            || self.owner.is_some()
            || self.marks.is_some()
            || self.now.is_some()
        {
            return None;
        }
        Some(Call::Low)
    }

    /// The call that the members are. What the call has is taken out of them.
    fn call(&mut self) -> Option<Call>
        ensures { IfSome result (λ call. (found : Members) → KeepsCall found self.old →
            call_of (object found) ≡ Ok call) }
    {
        match self.op? {
            "add" => self.add(),
            "batch" => self.batch(),
            "get" => self.get(),
            "low" => self.low(),
            _ => None,
        }
    }
}

/// A call.
pub(super) fn call(alloc: Global, reader: &mut Reader<'_>) -> Option<Call>
    ensures { IfSome result (λ call. Got 4 call_of reader.old call reader.new) }
{
    open_object(reader)?;
    let mut parts = CallParts {
        op: None,
        span: None,
        time: None,
        owner: None,
        marks: None,
        now: None,
    };
    parts.read(alloc, reader)?;
    parts.call()
}
