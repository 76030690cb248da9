//! What can be counted of a cache.
use tsc_page::{IntervalPage, Page};
use tsc_time::Timestamp;

/// What can be counted of a cache, and where its floor stands. Rotations, nodes and bytes stay at
/// 2^64 - 1 once they are there.
#[derive(Clone, Copy, Debug, PartialEq, Eq)]
pub struct Figures {
    /// How many pages there are.
    pub pages: u64,
    /// How often they rotated.
    pub rotations: u64,
    /// How many end keys the pages hold, each of them counted once for each page that holds it.
    pub nodes: u64,
    /// What these cost: for each as many bytes as it has, and 32 more.
    pub bytes: u64,
    /// Where the floor stands.
    pub floor: Timestamp,
}

impl Figures {
    ghost use Rattle.std.specs.Prelude.{◌≡◌, ◌+◌};
    ghost use Rattle.tsc_page_model.specs.Page.{count_distinct};
    ghost use Rattle.tsc_page_model.specs.PageView.{bytes_of};
    ghost use Rattle.tsc_cache.specs.Counts.{up_to_end};

    /// The figures of a number of pages, before what the pages hold is counted.
    pub(crate) fn of_pages(pages: u64, floor: Timestamp, rotations: u64) -> Figures
        ensures { result ≡ record {
          pages = pages;
          rotations = rotations;
          nodes = 0;
          bytes = 0;
          floor = floor;
        } }
    {
        Figures {
            pages,
            rotations,
            nodes: 0,
            bytes: 0,
            floor,
        }
    }

    /// The figures with what one page more holds.
    pub(crate) fn with(self, page: &Page) -> Figures
        ensures { result ≡ record {
          pages = self.pages;
          rotations = self.rotations;
          nodes = up_to_end (self.nodes + count_distinct page.now.keys);
          bytes =
              up_to_end (self.bytes + bytes_of page.now);
          floor = self.floor;
        } }
    {
        Figures {
            pages: self.pages,
            rotations: self.rotations,
            nodes: self.nodes.saturating_add(u64::from(page.nodes())),
            bytes: self.bytes.saturating_add(u64::from(page.bytes())),
            floor: self.floor,
        }
    }
}
