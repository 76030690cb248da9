//! What the pages of both caches have in common, and the pages of the fast one.
ghost use Rattle.std.specs.Prelude.{◌≡◌, ◌<◌, ◌∷◌, ◌^◌, List, length, OnOk, OnErr};
ghost use Rattle.tsc_page_model.specs.PageView.{PageView};

use std::alloc::Global;
use std::sync::Arc;
use tsc_chunks::ChunkedList;
use tsc_page::{IntervalPage, Page};
use tsc_time::NoMemory;

/// The pages of a cache, from the newest to the oldest: there is always one.
pub(crate) trait PageStack<P: IntervalPage> {
    ghost newest: { Self → PageView };

    ghost others: { Self → List PageView };

    /// Where the pages have their memory from.
    fn alloc(&self) -> Global;

    /// How many there are.
    fn len(&self) -> usize
        ensures { result ≡ length (newest self.now ∷ others self.now) };

    /// The newest page.
    fn front(&self) -> &P
        ensures { P.view result.now ≡ newest self.now };

    /// Brings a new page to the front.
    fn push_front(&mut self, front: P) -> Result<(), NoMemory>
        ensures older { OnOk result (others self.new ≡ newest self.old ∷ others self.old) }
        ensures front { OnOk result (newest self.new ≡ P.view front) }
        ensures unchanged { OnErr result
            (newest self.new ∷ others self.new ≡ newest self.old ∷ others self.old) };
}

/// The pages of a cache. A page that other caches hold too is never changed.
#[derive(Debug, Drop)]
pub(crate) struct Pages {
    pub(crate) front: Arc<Page>,
    pub(crate) older: ChunkedList<Page>,
    /// The pages are fewer than a machine has addresses for.
    ghost few: { length older < 2 ^ 63 },
}
