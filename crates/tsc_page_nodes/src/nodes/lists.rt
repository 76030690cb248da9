//! Nodes to be read, and where keys and cuts lie among them.
ghost use Rattle.std.specs.Prelude.{◌≡◌, ◌↔◌, IsTrue, true, false, IsOk, IfOk, option_map};
ghost use Rattle.tsc_span.specs.Span.{is_below, between};
ghost use Rattle.tsc_span.specs.Cuts.{cut_of};
ghost use Rattle.tsc_page_model.specs.PageView.{is_new_among};
ghost use Rattle.tsc_page_nodes.specs.Nodes.{paired, FallsAt, IsFoundAt, IsCutAt, IsIndexReported, HasKeysBelow, StandsAt, index_of, key_above, first_gap, IsNewKey, HoldsKeysOn, HoldsGapsOn, node_keys};

use crate::nodes::Values;
use std::alloc::Global;
use std::cmp::Ordering;
use std::marker::Model;
use std::ops::Range;
use tsc_span::{Cut, KeyRef, PrefixedCut, PrefixedKey, SearchKey, lesser_prefixes};
use tsc_time::NoMemory;

/// How far the keys stand from one another that a search without a hint looks at.
const STRIDE: usize = 8;

/// Nodes to be read, as the list of their keys and that of their values.
#[derive(Drop)]
pub(super) struct Lists<'a> {
    pub(super) keys: &'a [PrefixedKey],
    pub(super) values: &'a [Values],
}

impl<'a> Model for Lists<'a> {
    ghost use Rattle.std.specs.Prelude.{List};
    ghost use Rattle.tsc_page_nodes.specs.Nodes.{Node, ArePaired, paired};

    ghost Value = { List Node };

    ghost view = { λ l. paired l.keys.now l.values.now };

    ghost invariant = { λ l. ArePaired l.keys.now l.values.now };
}

impl<'a> Lists<'a> {
    /// Where a key stands, or else the place for it: where a hint tells, or by a search. The search
    /// looks at every eighth key. From the last of these that isn't above, it looks at each key.
    pub(super) fn find(&self, key: &SearchKey<'_>) -> Result<usize, usize>
        ensures { IsFoundAt self.now key.now result }
    {
        match lesser_prefixes(self.keys, &key.prefix()) {
            Some(hint) if self.stands_at(hint, key) => Ok(hint),
            Some(hint) if self.keys_below(hint, key) && self.keys_above(hint, key) => Err(hint),
            _ => self.find_from(self.stride_before(key), key),
        }
    }

    /// Whether all keys before a place lie below a key, by a look at the last of them.
    fn keys_below(&self, index: usize, key: &SearchKey<'_>) -> bool
        ensures { IsTrue result → HasKeysBelow self.now key.now index }
    {
        let Some(before) = index.checked_sub(1) else {
            return true
        };
        match self.keys.get(before) {
            Some(other) => key.compare(other).is_lt(),
            None => false,
        }
    }

    /// Whether all keys from a place on lie above a key, by a look at the first of them.
    fn keys_above(&self, index: usize, key: &SearchKey<'_>) -> bool
        ensures { IsTrue result → HasKeysBelow self.now key.now index →
            FallsAt self.now key.now index }
    {
        match self.keys.get(index) {
            Some(other) => key.compare(other).is_gt(),
            None => true,
        }
    }

    /// The last of every eighth place, from the first one on, before which all keys lie below a
    /// key.
    fn stride_before(&self, key: &SearchKey<'_>) -> usize
        ensures { HasKeysBelow self.now key.now result }
    {
        let mut low = 0;
        let mut index = STRIDE;
        while index < self.keys.len() {
            if key.compare(&self.keys[index]).is_le() {
                low = index;
            }
            index += STRIDE;
        }
        low
    }

    /// Finds a key as `find` does, by a look at one key of the list after another from `index` on.
    fn find_from(&self, index: usize, key: &SearchKey<'_>) -> Result<usize, usize>
        requires low { HasKeysBelow self.now key.now index }
        ensures { IsFoundAt self.now key.now result }
    {
        for i in index..self.keys.len() {
            match key.compare(&self.keys[i]) {
                Ordering::Less => {}
                Ordering::Equal => return Ok(i),
                Ordering::Greater => return Err(i),
            }
        }
        Err(self.keys.len())
    }

    /// Whether a key stands at a place.
    fn stands_at(&self, index: usize, key: &SearchKey<'_>) -> bool
        ensures { IsTrue result ↔ StandsAt self.now key.now index }
    {
        match self.keys.get(index) {
            Some(other) => key.compare(other).is_eq(),
            None => false,
        }
    }

    /// Where a cut lies: where its key does, or behind all. The key may stand at a place that is
    /// told.
    fn find_cut(&self, cut: &PrefixedCut<'_>, hint: Option<usize>) -> Result<usize, usize>
        ensures { IsCutAt self.now cut.now result }
    {
        let Some(key) = cut.key() else {
            return Err(self.keys.len())
        };
        match hint {
            Some(index) if self.stands_at(index, &key) => Ok(index),
            _ => self.find(&key),
        }
    }

    /// The place of the first key above a cut, by where the cut lies.
    fn key_above(&self, index: Result<usize, usize>, cut: Cut<'_>) -> usize
        requires { IsCutAt self.now (cut_of cut) index }
        ensures { result ≡ key_above index (cut_of cut.entry) }
    {
        match (index, cut) {
            (Ok(at), Cut::After(_)) => {
                prove!(at < self.keys.len());
                at + 1
            }
            _ => index_of(index),
        }
    }

    /// The places of the nodes whose keys lie between two cuts, and of those whose gaps overlap
    /// what does. The keys of the cuts may stand at places that are told; else they are searched
    /// for.
    pub(super) fn indices_between(
        &self,
        from: &PrefixedCut<'_>,
        to: &PrefixedCut<'_>,
        hint: (Option<usize>, Option<usize>),
    ) -> (Range<usize>, Range<usize>)
        requires order { is_below from.now to.now ≡ true }
        ensures keys { HoldsKeysOn self.now (between from.now to.now) result.0.start result.0.end }
        ensures gaps { HoldsGapsOn self.now (between from.now to.now) result.1.start result.1.end }
    {
        // A field is read so that the proof has the invariant: the keys are in order.
        let _keys = self.keys;
        let low = self.find_cut(from, hint.0);
        let high = self.find_cut(to, hint.1);
        let keys = self.key_above(low, from.cut())..self.key_above(high, to.cut());
        (keys, first_gap(low)..index_of(high))
    }

    /// The place at which a key stands or belongs, and a copy of it with that place if it has no
    /// node. Only the copy takes memory.
    pub(super) fn new_key(
        &self,
        alloc: Global,
        key: Option<&KeyRef<'_>>,
    ) -> Result<(Option<usize>, Option<(usize, PrefixedKey)>), NoMemory>
        ensures value { IfOk result
            (λ found. IsNewKey self.now (option_map (λ k. k.now) key.entry) found.1) }
        ensures memory { is_new_among (node_keys self.now) (option_map (λ k. k.now) key.entry) ≡
            false → IsOk result }
        ensures index { IfOk result (λ found. IsIndexReported self.now
            (option_map (λ k. k.now) key.entry) found.1 found.0) }
    {
        // A field is read so that the proof has the invariant: the keys are in order.
        let _keys = self.keys;
        let Some(key) = key else {
            return Ok((None, None))
        };
        match self.find(key.search()) {
            Ok(index) => Ok((Some(index), None)),
            Err(index) => {
                let copy = PrefixedKey::copy_of(alloc, key)?;
                Ok((Some(index), Some((index, copy))))
            }
        }
    }
}

/// The place of a node at which a cut lies, or before which it does.
fn index_of(index: Result<usize, usize>) -> usize
    ensures { result ≡ index_of index }
{
    match index {
        Ok(at) | Err(at) => at,
    }
}

/// The place of the first gap that stops above a cut: a gap in which it lies is that of the node
/// before.
fn first_gap(index: Result<usize, usize>) -> usize
    ensures { result ≡ first_gap index }
{
    match index {
        Ok(at) => at,
        Err(at) => at.saturating_sub(1),
    }
}
