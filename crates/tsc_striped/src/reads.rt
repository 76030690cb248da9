//! What a seat reads: lookups, the floors of stripes, and their figures.
ghost use Rattle.std.specs.Prelude.{◌≡◌, ◌<◌, Some, IfSome, IfNone, IsNone, option_map};
ghost use Rattle.tsc_span.specs.LookupSpan.{span_for_lookup};
ghost use Rattle.tsc_stripe_table.specs.Stripes.{stripe_count};
ghost use Rattle.tsc_striped.specs.Waiting.{HasEnd};
ghost use Rattle.tsc_striped.specs.Answers.{AnswersLookup, ReadsFloor, ReadsFigures, Tries};

use crate::answers::Busy;
use crate::bounds::find_touched;
use crate::seat::Seat;
use crate::striped::StripedCache;
use crate::stripes::{figures_in, floor_in, look_in};
use crate::waiting::{Blocking, Bounded, WaitPolicy};
use std::sync::Wait;
use tsc_cache::Figures;
use tsc_span::{Ends, Span, SpanRef};
use tsc_time::{Timestamp, Value};

impl StripedCache {
    /// What the floors of the stripes that the span touches, and each Add that overlaps the span,
    /// come to together, after a history that begins with all that the seat has seen. The seat has
    /// then seen all of it. In one stripe that is what
    /// [`Cache::get_max`](tsc_cache::TimestampCache::get_max) answers there.
    ///
    /// A span that touches several stripes is looked up under all of their locks, so the answer is
    /// that of one moment. The locks are acquired in the order of the stripes. Where one is held,
    /// the seat releases all, waits for that one, and begins anew. It may then wait longer than a
    /// call of one stripe. While it looks, it locks all these stripes.
    ///
    /// The call costs a search among the bounds, and a lookup in each stripe that the span
    /// touches, where other calls wait meanwhile. It waits as [`add`](StripedCache::add) does, and
    /// takes no memory.
    pub fn get_max<R: Wait>(&self, rt: &R, seat: &mut Seat, span: &Span) -> Value
        requires cache { seat.old.cache ≡ self.now }
        ensures { AnswersLookup seat.old seat.new span.now result }
    {
        self.get_max_ref(rt, seat, &span.borrowed())
    }

    /// As [`get_max`](StripedCache::get_max), for a caller who has no leave to wait: it tries
    /// `tries` times to acquire all locks that it needs. Where another seat held one of them at
    /// each try, the answer is `Busy`, and all is as it was. With no tries that is always so.
    /// Between two tries the seat idles as in [`try_add`](StripedCache::try_add), and it looks
    /// anew at each try.
    pub fn try_get_max(&self, seat: &mut Seat, span: &Span, tries: u32) -> Result<Value, Busy>
        requires cache { seat.old.cache ≡ self.now }
        ensures { Tries seat.old seat.new tries (AnswersLookup seat.old seat.new span.now) result }
    {
        self.try_get_max_ref(seat, &span.borrowed(), tries)
    }

    /// As [`get_max`](StripedCache::get_max), of the keys from a start to an end that lie
    /// elsewhere: it copies no key. [`SpanRef::between`] says which span that is.
    pub fn get_max_between<R: Wait>(
        &self,
        rt: &R,
        seat: &mut Seat,
        start: &[u8],
        end: Option<&[u8]>,
        ends: Ends,
    ) -> Value
        requires cache { seat.old.cache ≡ self.now }
        ensures { AnswersLookup seat.old seat.new
            (span_for_lookup start.now (option_map (λ k. k.now) end.entry) ends.exclude_from
            ends.exclude_to) result }
    {
        self.get_max_ref(rt, seat, &SpanRef::between(start, end, ends))
    }

    /// As [`get_max_between`](StripedCache::get_max_between), for a caller who has no leave to
    /// wait, as in [`try_get_max`](StripedCache::try_get_max).
    pub fn try_get_max_between(
        &self,
        seat: &mut Seat,
        start: &[u8],
        end: Option<&[u8]>,
        ends: Ends,
        tries: u32,
    ) -> Result<Value, Busy>
        requires cache { seat.old.cache ≡ self.now }
        ensures { Tries seat.old seat.new tries (AnswersLookup seat.old seat.new
            (span_for_lookup start.now (option_map (λ k. k.now) end.entry) ends.exclude_from
            ends.exclude_to)) result }
    {
        self.try_get_max_ref(seat, &SpanRef::between(start, end, ends), tries)
    }

    /// As [`get_max`](StripedCache::get_max), of a span over keys that lie elsewhere.
    pub fn get_max_ref<R: Wait>(&self, rt: &R, seat: &mut Seat, span: &SpanRef<'_>) -> Value
        requires cache { seat.old.cache ≡ self.now }
        ensures { AnswersLookup seat.old seat.new span.now result }
    {
        match self.look(&Blocking(rt), seat, span) {
            Some(value) => value,
            None => unreachable!(),
        }
    }

    /// As [`try_get_max`](StripedCache::try_get_max), of a span over keys that lie elsewhere.
    pub fn try_get_max_ref(
        &self,
        seat: &mut Seat,
        span: &SpanRef<'_>,
        tries: u32,
    ) -> Result<Value, Busy>
        requires cache { seat.old.cache ≡ self.now }
        ensures { Tries seat.old seat.new tries (AnswersLookup seat.old seat.new span.now) result }
    {
        self.look(&Bounded(tries), seat, span).ok_or(Busy)
    }

    /// What a lookup answers, or `None` where `policy` comes to its end.
    fn look<P: WaitPolicy>(&self, policy: &P, seat: &mut Seat, span: &SpanRef<'_>) -> Option<Value>
        requires cache { seat.old.cache ≡ self.now }
        ensures looked { IfSome result (λ value. AnswersLookup seat.old seat.new span.now value) }
        ensures busy { IfNone result ((seat.new ≡ seat.old) × HasEnd (P.tries policy.now)) }
        ensures no_try { P.tries policy.now ≡ Some 0 → IsNone result }
    {
        let touched = find_touched(self.bounds.as_slice(), &self.prefixes, span);
        let shared = &self.table.shared;
        let who = &mut seat.participant;
        if touched.first < touched.last {
            return policy.look_over(shared, who, span, touched.first, touched.last);
        }
        look_in(policy, shared, who, touched.first, span)
    }

    /// Where the floor of a stripe stands after a history that begins with all that the seat has
    /// seen. The seat has then seen all of it. Each stripe has a floor of its own.
    ///
    /// The call waits as [`add`](StripedCache::add) does, takes no memory, and costs a few steps.
    pub fn low_water<R: Wait>(&self, rt: &R, seat: &mut Seat, stripe: u32) -> Timestamp
        requires cache { seat.old.cache ≡ self.now }
        requires stripe { stripe < stripe_count self.now.terms.bounds }
        ensures { ReadsFloor seat.old seat.new stripe result }
    {
        match self.floor(&Blocking(rt), seat, stripe) {
            Some(time) => time,
            None => unreachable!(),
        }
    }

    /// As [`low_water`](StripedCache::low_water), where the caller has no leave to wait, as in
    /// [`try_get_max`](StripedCache::try_get_max).
    pub fn try_low_water(&self, seat: &mut Seat, stripe: u32, tries: u32) -> Result<Timestamp, Busy>
        requires cache { seat.old.cache ≡ self.now }
        requires stripe { stripe < stripe_count self.now.terms.bounds }
        ensures { Tries seat.old seat.new tries (ReadsFloor seat.old seat.new stripe) result }
    {
        self.floor(&Bounded(tries), seat, stripe).ok_or(Busy)
    }

    /// Where the floor of a stripe stands, or `None` where `policy` comes to its end.
    fn floor<P: WaitPolicy>(&self, policy: &P, seat: &mut Seat, stripe: u32) -> Option<Timestamp>
        requires cache { seat.old.cache ≡ self.now }
        requires stripe { stripe < stripe_count self.now.terms.bounds }
        ensures read { IfSome result (λ time. ReadsFloor seat.old seat.new stripe time) }
        ensures busy { IfNone result ((seat.new ≡ seat.old) × HasEnd (P.tries policy.now)) }
        ensures no_try { P.tries policy.now ≡ Some 0 → IsNone result }
    {
        floor_in(policy, &self.table.shared, &mut seat.participant, stripe)
    }

    /// What [`Cache::figures`] counts in a stripe, after a history that begins with all that the
    /// seat has seen. The seat has then seen all of it. A caller who asks for all stripes, one
    /// after another, has figures after histories of which each begins with the one before.
    ///
    /// The call waits as [`add`](StripedCache::add) does, and takes no memory. It costs a step for
    /// each page of the stripe, where other calls wait meanwhile.
    pub fn figures<R: Wait>(&self, rt: &R, seat: &mut Seat, stripe: u32) -> Figures
        requires cache { seat.old.cache ≡ self.now }
        requires stripe { stripe < stripe_count self.now.terms.bounds }
        ensures { ReadsFigures seat.old seat.new stripe result }
    {
        match self.counts(&Blocking(rt), seat, stripe) {
            Some(figures) => figures,
            None => unreachable!(),
        }
    }

    /// As [`figures`](StripedCache::figures), where the caller has no leave to wait, as in
    /// [`try_get_max`](StripedCache::try_get_max).
    pub fn try_figures(&self, seat: &mut Seat, stripe: u32, tries: u32) -> Result<Figures, Busy>
        requires cache { seat.old.cache ≡ self.now }
        requires stripe { stripe < stripe_count self.now.terms.bounds }
        ensures { Tries seat.old seat.new tries (ReadsFigures seat.old seat.new stripe) result }
    {
        self.counts(&Bounded(tries), seat, stripe).ok_or(Busy)
    }

    /// What can be counted of a stripe, or `None` where `policy` comes to its end.
    fn counts<P: WaitPolicy>(&self, policy: &P, seat: &mut Seat, stripe: u32) -> Option<Figures>
        requires cache { seat.old.cache ≡ self.now }
        requires stripe { stripe < stripe_count self.now.terms.bounds }
        ensures read { IfSome result (λ figures. ReadsFigures seat.old seat.new stripe figures) }
        ensures busy { IfNone result ((seat.new ≡ seat.old) × HasEnd (P.tries policy.now)) }
        ensures no_try { P.tries policy.now ≡ Some 0 → IsNone result }
    {
        figures_in(policy, &self.table.shared, &mut seat.participant, stripe)
    }
}
