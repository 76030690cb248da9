//! What a page promises, however it keeps what was added to it.
ghost use Rattle.std.specs.Prelude.{◌≡◌, ◌≤◌, ◌*◌, nat_le, true, false, IsOk, IfOk};
ghost use Rattle.tsc_time.specs.Joint.{joint_above};
ghost use Rattle.tsc_time.specs.Time.{zero_time, is_before};
ghost use Rattle.tsc_span.specs.Span.{SpanView, is_empty_span, span_cost};
ghost use Rattle.tsc_page_model.specs.Limits.{least_size, most_size};
ghost use Rattle.tsc_page_model.specs.Page.{PageMarks, empty_page, top, values_on, marked_keys, count_distinct, cost_distinct, has_room};
ghost use Rattle.tsc_page_model.specs.PageAdds.{ReportsMark, ReportsTry};
ghost use Rattle.tsc_page_model.specs.PageView.{PageView, Represents, NoAnswerAboveTop, answer, bytes_of, has_room_for};

use std::alloc::Global;
use tsc_span::Span;
use tsc_time::{NoMemory, Timestamp, Value};

/// What a page of a timestamp cache promises, however it keeps what was added to it: `Page` of
/// `tsc_page` as sorted nodes, and `PlainPage` of `tsc_page` as the plain list of what was added.
/// What a call costs depends on the page.
pub trait IntervalPage: Drop {
    /// What can be seen of the page.
    ghost view: { Self → PageView };

    /// An empty page of a size in bytes, from [`LEAST_SIZE`](crate::LEAST_SIZE) to
    /// [`MOST_SIZE`](crate::MOST_SIZE). `base` is the least that its top can be. It takes no memory
    /// until something is added, so it cannot answer that memory is wanting.
    fn new(alloc: Global, size: u32, base: Timestamp) -> Result<Self, NoMemory>
        requires at_least { least_size ≤ size }
        requires at_most { size ≤ most_size }
        ensures stands { IfOk result (λ page. Represents (view page) (empty_page size base)) }
        ensures room { IfOk result
            (λ page. (span : SpanView) →
            has_room_for (view page) span ≡ nat_le (span_cost span) size) }
        ensures memory { IsOk result };

    /// How many bytes the page may have.
    fn size(&self) -> u32
        ensures value { result ≡ (view self.now).size }
        ensures stands { (p : PageMarks) → Represents (view self.now) p → result ≡ p.size }
        ensures least { least_size ≤ result }
        ensures most { result ≤ most_size };

    /// What the end keys of all that was added cost together, each of them once: for each as many
    /// bytes as it has, and 32 more.
    fn bytes(&self) -> u32
        ensures value { result ≡ bytes_of (view self.now) }
        ensures stands { (p : PageMarks) → Represents (view self.now) p →
            result ≡ cost_distinct (marked_keys p.marks) }
        ensures most { result ≤ (view self.now).size };

    /// Whether the page has room for a span: whether the end keys of all that was added and of the
    /// span, each of them once, cost no more than the page's size.
    fn room(&self, span: &Span) -> bool
        ensures value { result ≡ has_room_for (view self.now) span.now }
        ensures stands { (p : PageMarks) → Represents (view self.now) p →
            result ≡ has_room p span.now };

    /// Adds a span with its value. The span is not empty, and the page has room for it. Where
    /// memory is refused the page is as before.
    fn add(&mut self, span: &Span, value: Value) -> Result<(), NoMemory>
        requires not_empty { is_empty_span span.now ≡ false }
        requires room { has_room_for (view self.old) span.now ≡ true }
        ensures reported { ReportsMark (view self.old) (view self.new)
            (record { span = span.now; value = value }) result };

    /// Adds a span with its value, where the page has room for it, and says whether it had. The
    /// span is not empty. Without room the page stays as it is, and where memory is refused.
    fn try_add(&mut self, span: &Span, value: Value) -> Result<bool, NoMemory>
        requires not_empty { is_empty_span span.now ≡ false }
        ensures room { IfOk result (λ done. done ≡ has_room_for (view self.old) span.now) }
        ensures reported { ReportsTry (view self.old) (view self.new)
            (record { span = span.now; value = value }) result };

    /// The joint value of time zero without an owner and of all that was added and overlaps the
    /// span.
    fn lookup(&self, span: &Span) -> Value
        ensures value { result ≡ answer (view self.now) span.now }
        ensures below_top { is_before (view self.now).top result.time ≡ false }
        ensures stands { (p : PageMarks) → Represents (view self.now) p →
            result ≡ joint_above zero_time (values_on span.now p.marks) };

    /// The greatest of the base and of the times that were added. No answer to a lookup is later.
    fn top(&self) -> Timestamp
        ensures value { result ≡ (view self.now).top }
        ensures covers { NoAnswerAboveTop (view self.now) }
        ensures stands { (p : PageMarks) → Represents (view self.now) p → result ≡ top p };

    /// How many different end keys the page holds.
    fn nodes(&self) -> u32
        ensures value { result ≡ count_distinct (view self.now).keys }
        ensures stands { (p : PageMarks) → Represents (view self.now) p →
            result ≡ count_distinct (marked_keys p.marks) }
        ensures few { 32 * result ≤ (view self.now).size };

    /// A copy of the page.
    fn try_copy(&self) -> Result<Self, NoMemory>
        ensures value { IfOk result (λ copy. view copy ≡ view self.now) }
        ensures stands { IfOk result (λ copy. (p : PageMarks) → Represents (view self.now) p →
            Represents (view copy) p) };
}
