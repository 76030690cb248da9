//! A page as a tree of sorted nodes. An Add is tried in place first, and goes to a copy else.
ghost use Rattle.std.specs.Prelude.{sum, slice_get, option_map, ◌≡◌, true, false, IfOk};
ghost use Rattle.tsc_time.specs.Joint.{joint_above};
ghost use Rattle.tsc_time.specs.Time.{zero_time, is_before};
ghost use Rattle.tsc_span.specs.Span.{is_empty_span, end_keys, point};
ghost use Rattle.tsc_span.specs.Cuts.{cut_of};
ghost use Rattle.tsc_page_model.specs.Limits.{least_size, most_size};
ghost use Rattle.tsc_page_model.specs.Page.{PageMarks, top, values_on, marked_keys, count_distinct, has_room};
ghost use Rattle.tsc_page_model.specs.KeysAbove.{IsLeastAbove};
ghost use Rattle.tsc_page_model.specs.PageAdds.{IsMarkReported, IsMarkedReported, ReportsMade};
ghost use Rattle.tsc_page_model.specs.PageView.{AreLeafSizes, Represents, answer};
ghost use Rattle.tsc_page.specs.Tries.{IsMarkTried};

use std::alloc::Global;
use std::marker::Model;
use tsc_page_model::IntervalPage;
use tsc_page_nodes::KeyInsertion;
use tsc_page_tree::{Insertion, Tree};
use tsc_span::{AddShape, AddSpan, Cut, Key, KeyRef, Span, SpanRef};
use tsc_time::{NoMemory, Timestamp, Value};

/// One page of the cache: what was added to it, as sorted nodes.
///
/// A page holds end keys that cost no more than its size, and answers a lookup by its nodes alone.
/// So its cost does not depend on how many spans were added.
///
/// A page stands in a block of its own, behind an `Arc`. The block begins with the 8 bytes of the
/// count of handles, and then has these fields in their order. `before` and `after` have 64 bytes
/// each, which nothing uses. So a line of 64 bytes that has some of `size`, `top` or `tree` has
/// nothing of another block, nor the count, which each clone and drop of a handle writes. The line
/// of the count has nothing of these fields of any page.
#[derive(Debug, Drop)]
#[repr(C)]
pub struct Page {
    before: [u64; 8],
    size: u32,
    top: Timestamp,
    tree: Tree,
    after: [u64; 8],
}

impl Model for Page {
    ghost use Rattle.std.specs.Prelude.{◌≡◌, ◌≤◌};
    ghost use Rattle.tsc_page_model.specs.Limits.{least_size, most_size};
    ghost use Rattle.tsc_page_model.specs.PageView.{PageView, NoAnswerAboveTop};
    ghost use Rattle.tsc_page_nodes.specs.Nodes.{page_of};
    ghost use Rattle.tsc_page_tree.specs.Roots.{IsKnown};

    ghost Value = { PageView };

    ghost view = { λ p. page_of p.size p.top p.tree.nodes p.tree.sizes };

    ghost invariant = { λ p. IsKnown p.tree × (p.tree.bytes ≤ p.size) × (least_size ≤ p.size) ×
        (p.size ≤ most_size)
        × NoAnswerAboveTop (page_of p.size p.top p.tree.nodes p.tree.sizes) };
}

impl IntervalPage for Page {
    ghost view = { λ p. p };

    fn new(alloc: Global, size: u32, base: Timestamp) -> Result<Page, NoMemory> {
        Ok(Page {
            before: [0; 8],
            size,
            top: base,
            tree: Tree::new(alloc),
            after: [0; 8],
        })
    }

    fn size(&self) -> u32 {
        self.size
    }

    fn bytes(&self) -> u32 {
        self.tree.bytes()
    }

    /// The question costs a search for each end key.
    fn room(&self, span: &Span) -> bool {
        let span = span.for_add();
        let (first, second) = span.end_keys();
        self.tree.has_room(first, second, self.size)
    }

    /// Adds a span with its value. The span is not empty, and the page has room for it. Where
    /// memory is refused the page and its leaves are as before.
    ///
    /// The Add is made in place where the span lies in one leaf that would not come to have 65
    /// nodes. It is made in place too where both end keys have nodes and no copy of the page shares
    /// the way to the leaves at the span's ends.
    ///
    /// An Add in place costs a search in each subtree on the way and one for each end key. Each end
    /// key that is new to the page is copied, and a leaf's nodes above it move. A step is taken for
    /// each node within the span in the leaves at its ends, and for each subtree between these.
    /// Each list on the way and the leaf are copied first where a copy of the page shares them. If
    /// the leaf gets a new key, its list of keys is copied too. Where no copy shares any of these,
    /// a span whose end keys the page holds already takes no memory. Lazy values on the way are
    /// ratcheted into the subtrees below, but for a single key, which needs one search on each
    /// level and leaves them.
    ///
    /// Any other Add copies the list at the top and the way to each leaf that it changes. A leaf
    /// that comes to have 65 nodes is cut into its first 32 and its last 33, as is a branch of 65
    /// subtrees. Where there may be no room for both end keys, each is searched for once more.
    fn add(&mut self, span: &Span, value: Value) -> Result<(), NoMemory> {
        self.try_add(span, value)?;
        Ok(())
    }

    /// The Add costs what [`add`](IntervalPage::add) does.
    fn try_add(&mut self, span: &Span, value: Value) -> Result<bool, NoMemory> {
        self.add_span(&span.for_add(), value)
    }

    /// The joint value of time zero without an owner and of all that was added and overlaps the
    /// span. It costs a search in each subtree on the way to the leaves at the span's ends. A step
    /// is taken for each node within the span there, and for each subtree between these leaves. A
    /// search compares keys by their first twenty-four bytes, and reads what is behind these only
    /// where these are equal.
    fn lookup(&self, span: &Span) -> Value {
        self.lookup_ref(&span.borrowed())
    }

    fn top(&self) -> Timestamp {
        self.top
    }

    fn nodes(&self) -> u32 {
        self.tree.len() as u32
    }

    /// The copy shares the leaves, and takes the memory of the list of subtrees at the top of their
    /// tree.
    fn try_copy(&self) -> Result<Page, NoMemory> {
        Ok(Page {
            before: [0; 8],
            size: self.size,
            top: self.top,
            tree: self.tree.try_copy()?,
            after: [0; 8],
        })
    }
}

impl Page {
    /// The page with one more span and its value, where it has room for that; `None` where it has
    /// not. The span is not empty, and this page stays as it is.
    ///
    /// The call is for a page that others go on to read, and never tries to add in place. It copies
    /// the list at the top and the way to each leaf that changes, and shares all else.
    pub fn added(&self, span: &Span, value: Value) -> Result<Option<Page>, NoMemory>
        requires not_empty { is_empty_span span.now ≡ false }
        ensures reported { ReportsMade self.now (record { span = span.now; value = value }) result }
    {
        self.added_span(&span.for_add(), value)
    }

    /// As [`try_add`](IntervalPage::try_add), over keys that lie elsewhere. A key that the page
    /// holds is never copied, and takes no memory unless a copy of the page shares the way to it. A
    /// new one is copied once, and once more where a leaf is cut or shared.
    pub fn add_span(&mut self, span: &AddSpan<'_>, value: Value) -> Result<bool, NoMemory>
        requires not_empty { is_empty_span span.now ≡ false }
        ensures reported { IsMarkReported self.old self.new span.now value result }
    {
        if self.add_in_place(span, value)? {
            return Ok(true);
        }
        let Some(add) = Insertion::new(span, value) else {
            unreachable!()
        };
        let Some(tree) = self.tree.inserted(&add, self.size)? else {
            return Ok(false);
        };
        self.top = self.top.max(value.time());
        self.tree = tree;
        Ok(true)
    }

    /// Adds a span with its value in place, where its way in the tree allows that and there is
    /// room, and says whether it did. Else the page stays as it is, and where memory is refused.
    fn add_in_place(&mut self, span: &AddSpan<'_>, value: Value) -> Result<bool, NoMemory>
        requires not_empty { is_empty_span span.now ≡ false }
        ensures tried { IsMarkTried self.old self.new span.now value result }
    {
        if let AddShape::Point(key) = &span.shape {
            return self.add_key(key, value);
        }
        let Some(add) = Insertion::new(span, value) else {
            unreachable!()
        };
        if !self.tree.insert_in_place(&add, self.size)? {
            return Ok(false);
        }
        self.top = self.top.max(value.time());
        Ok(true)
    }

    /// As [`added`](Page::added), over keys that lie elsewhere.
    pub fn added_span(&self, span: &AddSpan<'_>, value: Value) -> Result<Option<Page>, NoMemory>
        requires not_empty { is_empty_span span.now ≡ false }
        ensures reported { IsMarkedReported self.now span.now value result }
    {
        let Some(add) = Insertion::new(span, value) else {
            unreachable!()
        };
        let Some(tree) = self.tree.inserted(&add, self.size)? else {
            return Ok(None);
        };
        Ok(Some(Page {
            before: [0; 8],
            size: self.size,
            top: self.top.max(value.time()),
            tree,
            after: [0; 8],
        }))
    }

    /// Adds a value at a single key in place, where its way in the tree allows that and there is
    /// room, and says whether it did. Else the page stays as it is, and where memory is refused.
    ///
    /// The Add costs one search on each level. A key that the page holds is neither copied nor
    /// takes memory, unless a copy of the page shares the way to it; a new one is copied once.
    fn add_key(&mut self, key: &KeyRef<'_>, value: Value) -> Result<bool, NoMemory>
        ensures tried { IsMarkTried self.old self.new (point key.now) value result }
    {
        let add = KeyInsertion { key, value };
        if !self.tree.add_key(&add, self.size)? {
            return Ok(false);
        }
        self.top = self.top.max(value.time());
        Ok(true)
    }

    /// As [`lookup`](Page::lookup), over keys that lie elsewhere.
    pub fn lookup_ref(&self, span: &SpanRef<'_>) -> Value
        ensures value { result ≡ answer self.now span.now }
        ensures below_top { is_before self.now.top result.time ≡ false }
        ensures stands { (p : PageMarks) → Represents self.now p →
            result ≡ joint_above zero_time (values_on span.now p.marks) }
    {
        if let Some(key) = span.key() {
            return self.tree.value_at(key);
        }
        match span.cuts() {
            Some((from, to)) => self.tree.join_between(from, to),
            None => Value::unowned(Timestamp::ZERO),
        }
    }

    /// The least end key on the page that lies above a cut, as a key does above the place right
    /// before it; `None` where none does. With the place right after it as the next cut, the page
    /// tells its end keys one after another in their order.
    ///
    /// The call costs a search in each subtree on the way to a leaf. Where the cut lies above all
    /// keys of that leaf, it costs one more in the subtrees next to those. It takes no memory, and
    /// copies no key.
    ///
    /// The call restates how `sklPage`'s skiplist is gone over from a key on, in CockroachDB's
    /// `pkg/kv/kvserver/tscache/interval_skl.go`.
    pub fn key_above(&self, cut: Cut<'_>) -> Option<&Key>
        ensures value { IsLeastAbove (cut_of cut.entry) self.now.keys
            (option_map (λ k. k.now) result) }
        ensures stands { (p : PageMarks) → Represents self.now p →
            IsLeastAbove (cut_of cut.entry) (marked_keys p.marks) (option_map (λ k. k.now) result) }
    {
        self.tree.key_above(cut)
    }

    /// How many bytes the blocks of memory have that hold what is on the page: what the allocator
    /// was asked for. A block that a copy of the page shares counts in full. It costs a step for
    /// each leaf, and takes no memory. The number stays at 2^64 - 1 once it is there.
    ///
    /// No clause can say what memory is taken.
    pub fn memory(&self) -> u64 {
        self.tree.memory()
    }

    /// How many nodes a leaf has, from the first one in the order of keys on; `None` past the last.
    /// A page keeps its nodes in leaves, each of 1 to 64, and copies of a page share the leaves in
    /// which they don't differ.
    pub fn leaf_nodes(&self, i: u32) -> Option<u32>
        ensures value { result ≡ slice_get self.now.leaves i }
        ensures sizes { AreLeafSizes self.now.leaves }
        ensures total { sum self.now.leaves ≡ count_distinct self.now.keys }
    {
        match self.tree.leaf_len(i as usize) {
            Some(len) => Some(len as u32),
            None => None,
        }
    }
}
