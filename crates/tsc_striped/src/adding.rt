//! Adds at a seat: of one mark or of several, by calls that wait and by calls that try.
ghost use Rattle.std.specs.Prelude.{◌≡◌, ◌≤◌, ◌<◌, Some, None, IsErrOf, OnOk, true};
ghost use Rattle.tsc_cache.specs.Batch.{all_fit};
ghost use Rattle.tsc_striped.specs.Waiting.{HasEnd};
ghost use Rattle.tsc_striped.specs.Limits.{least_page_max, most_adds};
ghost use Rattle.tsc_striped.specs.Answers.{AnswersAdd, AnswersTriedAdd, one_mark};
ghost use Rattle.tsc_striped.specs.Adding.{IsWaited};

use crate::answers::{AddFault, Receipt, TryAddFault};
use crate::batch::{Batch, copy_of_mark, copy_of_marks};
use crate::bounds::find_touched;
use crate::gating::Publication;
use crate::seat::{Seat, is_as_always};
use crate::striped::StripedCache;
use crate::stripes::{MarkRef, add_in};
use crate::waiting::{Blocking, Bounded, WaitPolicy};
use crate::wide_adds::is_counted;
use std::sync::Wait;
use tsc_cache::laws::{can_all_be_added, can_be_added};
use tsc_cache::{Config, Mark};
use tsc_left_right::{Gate, NoGate};
use tsc_span::Span;
use tsc_time::{Timestamp, Value};

/// What an Add that waits answers: it was never given up.
fn waited(added: Result<Receipt, TryAddFault>) -> Result<Receipt, AddFault>
    requires { IsErrOf added TryAddFault.Busy → HasEnd None }
    ensures { IsWaited added result }
{
    match added {
        Ok(receipt) => Ok(receipt),
        Err(TryAddFault::Refused(fault)) => Err(fault),
        Err(TryAddFault::Busy) => unreachable!(),
    }
}

/// Marks fit the largest page, since that has room for any span. It does nothing.
fn fit_all(config: &Config, marks: &[Mark])
    requires { least_page_max ≤ config.now.page_max }
    ensures { all_fit config.now marks.now ≡ true }
{
    for mark in marks {
        let _cost = mark.span.cost();
    }
}

/// Marks that are to be added together, and when.
#[derive(Clone, Copy)]
struct MarksRef<'m> {
    marks: &'m [Mark],
    moment: Timestamp,
}

impl StripedCache {
    /// Adds a span with its value, at the moment `now`, right behind a history that begins with all
    /// that the seat has seen. In each stripe that the span touches it adds what lies there, as
    /// [`Cache::add`](tsc_cache::TimestampCache::add) does. An Add that no stripe keeps is an entry
    /// of the history too. It is the last one that the seat has seen then.
    ///
    /// The Add is refused as `SeatFull` where the seat counts 2^64 - 1 Adds, and else as
    /// `NoMemory`. A refused Add is in no history, and cache and seat are as they were. The empty
    /// span touches stripe 0.
    ///
    /// A search among the bounds finds which stripes the span touches. In one stripe it is added
    /// in place. Where the pages rotate there, the next version of the stripe's cache takes its
    /// place, which takes the memory of a list of pages. The pages that go are dropped when the
    /// lock is released. A span that touches several stripes is added under all of their locks, as
    /// [`add_all`](StripedCache::add_all) adds a batch of it alone.
    ///
    /// The call waits until the lock of the stripe is free: it pauses for longer and longer, and
    /// then leaves the processor to others between its tries. Nothing bounds how often others
    /// acquire the lock before. Adds and lookups in that stripe wait until the call releases it.
    pub fn add<R: Wait>(
        &self,
        rt: &R,
        seat: &mut Seat,
        span: &Span,
        value: Value,
        now: Timestamp,
    ) -> Result<Receipt, AddFault>
        requires cache { seat.old.cache ≡ self.now }
        ensures { AnswersAdd seat.old seat.new (one_mark span.now value) now result }
    {
        let mark = MarkRef {
            span,
            value,
            moment: now,
        };
        waited(self.add_mark(&Blocking(rt), seat, mark))
    }

    /// As [`add`](StripedCache::add), for a caller who has no leave to wait: it tries `tries`
    /// times to acquire all locks that it needs. Where another seat held one of them at each try,
    /// the Add is refused as `Busy`, and all is as it was. With no tries that is always so.
    /// `SeatFull` comes before. A call with no tries takes no memory.
    ///
    /// Between two tries the seat idles, for one step at first and for 64 at the most, and leaves
    /// the processor to nobody. An Add in several stripes makes its versions anew at each try.
    pub fn try_add(
        &self,
        seat: &mut Seat,
        span: &Span,
        value: Value,
        now: Timestamp,
        tries: u32,
    ) -> Result<Receipt, TryAddFault>
        requires cache { seat.old.cache ≡ self.now }
        ensures { AnswersTriedAdd seat.old seat.new (one_mark span.now value) now (Some tries)
            result }
    {
        let mark = MarkRef {
            span,
            value,
            moment: now,
        };
        self.add_mark(&Bounded(tries), seat, mark)
    }

    /// Adds several marks at the moment `now`, as one Add and one entry of the history, as
    /// [`add`](StripedCache::add) adds one: all of them or none. In each stripe, what lies there is
    /// added one mark after another. An Add of no marks is an entry too, which changes nothing.
    ///
    /// It is made under the locks of all stripes on which the marks lie, which are acquired in the
    /// order of the stripes. Adds and lookups there wait meanwhile. Each stripe makes the next
    /// version of its cache, and once all have one they take their places. Where a lock is held,
    /// the seat releases all, waits for that one, and begins anew, with versions that are made
    /// anew. So such an Add may wait longer than one in a single stripe.
    ///
    /// Before the call acquires a lock, it compares each mark with each stripe from the first to
    /// the last. It takes the memory of a copy of the marks, of what lies of them in each stripe,
    /// and of what [`Cache::next_all`] takes there. What the versions replace is dropped when all
    /// locks are released, as are the versions of an Add that finds a lock held.
    pub fn add_all<R: Wait>(
        &self,
        rt: &R,
        seat: &mut Seat,
        marks: &[Mark],
        now: Timestamp,
    ) -> Result<Receipt, AddFault>
        requires cache { seat.old.cache ≡ self.now }
        ensures { AnswersAdd seat.old seat.new marks.now now result }
    {
        let marks = MarksRef { marks, moment: now };
        waited(self.add_marks(&Blocking(rt), seat, marks, &NoGate))
    }

    /// As [`add`](StripedCache::add), but made as [`add_all`](StripedCache::add_all) makes a batch
    /// of it alone. The gate's `publish` is called once for an accepted Add, after the last growth
    /// that can refuse it and before anybody can see it, and not for a refused one.
    ///
    /// The seat holds the locks of all stripes on which the span lies meanwhile, so all calls
    /// there wait for the gate. A gate must not call this cache, by whichever seat: it might wait
    /// for itself for ever.
    pub fn add_gated<R: Wait, G: Gate>(
        &self,
        rt: &R,
        seat: &mut Seat,
        span: &Span,
        value: Value,
        now: Timestamp,
        gate: &G,
    ) -> Result<Receipt, AddFault>
        requires cache { seat.old.cache ≡ self.now }
        ensures answers { AnswersAdd seat.old seat.new (one_mark span.now value) now result }
        ensures gate { OnOk result (G.HasReported gate.now seat.old.number) }
    {
        let mark = MarkRef {
            span,
            value,
            moment: now,
        };
        waited(self.add_alone(&Blocking(rt), seat, mark, gate))
    }

    /// As [`add_all`](StripedCache::add_all), where the gate is told as in
    /// [`add_gated`](StripedCache::add_gated), once for all marks together. The gate must not call
    /// this cache either.
    pub fn add_all_gated<R: Wait, G: Gate>(
        &self,
        rt: &R,
        seat: &mut Seat,
        marks: &[Mark],
        now: Timestamp,
        gate: &G,
    ) -> Result<Receipt, AddFault>
        requires cache { seat.old.cache ≡ self.now }
        ensures answers { AnswersAdd seat.old seat.new marks.now now result }
        ensures gate { OnOk result (G.HasReported gate.now seat.old.number) }
    {
        let marks = MarksRef { marks, moment: now };
        waited(self.add_marks(&Blocking(rt), seat, marks, gate))
    }

    /// As [`add_all`](StripedCache::add_all), where the caller has no leave to wait, as in
    /// [`try_add`](StripedCache::try_add).
    pub fn try_add_all(
        &self,
        seat: &mut Seat,
        marks: &[Mark],
        now: Timestamp,
        tries: u32,
    ) -> Result<Receipt, TryAddFault>
        requires cache { seat.old.cache ≡ self.now }
        ensures { AnswersTriedAdd seat.old seat.new marks.now now (Some tries) result }
    {
        let marks = MarksRef { marks, moment: now };
        self.add_marks(&Bounded(tries), seat, marks, &NoGate)
    }

    /// As [`add_gated`](StripedCache::add_gated), where the caller has no leave to wait, as in
    /// [`try_add`](StripedCache::try_add). The gate is told nothing of an Add that is given up.
    pub fn try_add_gated<G: Gate>(
        &self,
        seat: &mut Seat,
        span: &Span,
        value: Value,
        now: Timestamp,
        tries: u32,
        gate: &G,
    ) -> Result<Receipt, TryAddFault>
        requires cache { seat.old.cache ≡ self.now }
        ensures answers { AnswersTriedAdd seat.old seat.new (one_mark span.now value) now
            (Some tries) result }
        ensures gate { OnOk result (G.HasReported gate.now seat.old.number) }
    {
        let mark = MarkRef {
            span,
            value,
            moment: now,
        };
        self.add_alone(&Bounded(tries), seat, mark, gate)
    }

    /// As [`add_all_gated`](StripedCache::add_all_gated), where the caller has no leave to wait, as
    /// in [`try_add_gated`](StripedCache::try_add_gated).
    pub fn try_add_all_gated<G: Gate>(
        &self,
        seat: &mut Seat,
        marks: &[Mark],
        now: Timestamp,
        tries: u32,
        gate: &G,
    ) -> Result<Receipt, TryAddFault>
        requires cache { seat.old.cache ≡ self.now }
        ensures answers { AnswersTriedAdd seat.old seat.new marks.now now (Some tries) result }
        ensures gate { OnOk result (G.HasReported gate.now seat.old.number) }
    {
        let marks = MarksRef { marks, moment: now };
        self.add_marks(&Bounded(tries), seat, marks, gate)
    }

    /// An Add of one mark, which is given up where `policy` comes to its end.
    fn add_mark<P: WaitPolicy>(
        &self,
        policy: &P,
        seat: &mut Seat,
        mark: MarkRef<'_>,
    ) -> Result<Receipt, TryAddFault>
        requires cache { seat.old.cache ≡ self.now }
        ensures answers { AnswersTriedAdd seat.old seat.new
            (one_mark mark.entry.span.now mark.entry.value) mark.entry.moment
            (P.tries policy.now) result }
        ensures ended { IsErrOf result TryAddFault.Busy → HasEnd (P.tries policy.now) }
    {
        is_as_always(seat);
        if seat.count == u64::MAX {
            return Err(TryAddFault::Refused(AddFault::SeatFull));
        }
        let MarkRef {
            span,
            value,
            moment,
        } = mark;
        let touched = find_touched(self.bounds.as_slice(), &self.prefixes, &span.borrowed());
        if touched.first != touched.last {
            let mark = MarkRef {
                span,
                value,
                moment,
            };
            return self.add_wide(policy, seat, mark, &NoGate);
        }
        let _cost = span.cost();
        can_be_added(&self.setup.config, span, value, moment);
        let mark = MarkRef {
            span,
            value,
            moment,
        };
        let added = add_in(
            policy,
            &self.table.shared,
            &mut seat.participant,
            touched.first,
            mark,
        )?;
        is_counted(&added);
        let number = seat.count;
        seat.count += 1;
        Ok(Receipt {
            number,
            added,
            front: self.front(seat),
        })
    }

    /// The same, where the gate is told.
    fn add_alone<P: WaitPolicy, G: Gate>(
        &self,
        policy: &P,
        seat: &mut Seat,
        mark: MarkRef<'_>,
        gate: &G,
    ) -> Result<Receipt, TryAddFault>
        requires cache { seat.old.cache ≡ self.now }
        ensures answers { AnswersTriedAdd seat.old seat.new
            (one_mark mark.entry.span.now mark.entry.value) mark.entry.moment
            (P.tries policy.now) result }
        ensures ended { IsErrOf result TryAddFault.Busy → HasEnd (P.tries policy.now) }
        ensures gate { OnOk result (G.HasReported gate.now seat.old.number) }
    {
        is_as_always(seat);
        if seat.count == u64::MAX {
            return Err(TryAddFault::Refused(AddFault::SeatFull));
        }
        let MarkRef {
            span,
            value,
            moment,
        } = mark;
        let mark = MarkRef {
            span,
            value,
            moment,
        };
        self.add_wide(policy, seat, mark, gate)
    }

    /// The same, for a seat that can count one more, made as a batch.
    fn add_wide<P: WaitPolicy, G: Gate>(
        &self,
        policy: &P,
        seat: &mut Seat,
        mark: MarkRef<'_>,
        gate: &G,
    ) -> Result<Receipt, TryAddFault>
        requires cache { seat.old.cache ≡ self.now }
        requires room { seat.old.count < most_adds }
        ensures answers { AnswersTriedAdd seat.old seat.new
            (one_mark mark.entry.span.now mark.entry.value) mark.entry.moment
            (P.tries policy.now) result }
        ensures ended { IsErrOf result TryAddFault.Busy → HasEnd (P.tries policy.now) }
        ensures gate { OnOk result (G.HasReported gate.now seat.old.number) }
    {
        is_as_always(seat);
        if policy.has_no_try() {
            return Err(TryAddFault::Busy);
        }
        let Ok(marks) = copy_of_mark(self.alloc, mark.span, mark.value) else {
            return Err(TryAddFault::Refused(AddFault::NoMemory));
        };
        self.add_copied(policy, seat, marks, mark.moment, gate)
    }

    /// An Add of several marks, which is given up where `policy` comes to its end.
    fn add_marks<P: WaitPolicy, G: Gate>(
        &self,
        policy: &P,
        seat: &mut Seat,
        marks: MarksRef<'_>,
        gate: &G,
    ) -> Result<Receipt, TryAddFault>
        requires cache { seat.old.cache ≡ self.now }
        ensures answers { AnswersTriedAdd seat.old seat.new marks.entry.marks.now
            marks.entry.moment (P.tries policy.now) result }
        ensures ended { IsErrOf result TryAddFault.Busy → HasEnd (P.tries policy.now) }
        ensures gate { OnOk result (G.HasReported gate.now seat.old.number) }
    {
        is_as_always(seat);
        if seat.count == u64::MAX {
            return Err(TryAddFault::Refused(AddFault::SeatFull));
        }
        if policy.has_no_try() {
            return Err(TryAddFault::Busy);
        }
        let Ok(copies) = copy_of_marks(self.alloc, marks.marks) else {
            return Err(TryAddFault::Refused(AddFault::NoMemory));
        };
        self.add_copied(policy, seat, copies, marks.moment, gate)
    }

    /// An Add of a copy of marks, for a seat that can count one more.
    fn add_copied<P: WaitPolicy, G: Gate>(
        &self,
        policy: &P,
        seat: &mut Seat,
        marks: Vec<Mark>,
        moment: Timestamp,
        gate: &G,
    ) -> Result<Receipt, TryAddFault>
        requires cache { seat.old.cache ≡ self.now }
        requires room { seat.old.count < most_adds }
        requires tries { P.tries policy.now ≡ Some 0 → ⊥ }
        ensures answers { AnswersTriedAdd seat.old seat.new marks.items moment
            (P.tries policy.now) result }
        ensures ended { IsErrOf result TryAddFault.Busy → HasEnd (P.tries policy.now) }
        ensures gate { OnOk result (G.HasReported gate.now seat.old.number) }
    {
        is_as_always(seat);
        fit_all(&self.setup.config, marks.as_slice());
        can_all_be_added(&self.setup.config, marks.as_slice(), moment);
        let Ok(batch) = Batch::new(
            self.alloc,
            self.bounds.as_slice(),
            &self.prefixes,
            marks,
            moment,
        ) else {
            return Err(TryAddFault::Refused(AddFault::NoMemory));
        };
        let mut notice = Publication::due(gate, seat.number);
        let added = policy.add_batch(
            self.alloc,
            &self.table.shared,
            &mut seat.participant,
            &batch,
            &mut notice,
        )?;
        let number = seat.count;
        seat.count += 1;
        Ok(Receipt {
            number,
            added,
            front: self.front(seat),
        })
    }
}
