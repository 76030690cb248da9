//! Configurations: the limits within which they are made, and whether a span fits the pages.
ghost use Rattle.std.specs.Prelude.{◌≡◌, ◌≤◌, ◌<◌, ◌*◌, ◌^◌, length, min};
ghost use Rattle.tsc_page_model.specs.Limits.{least_size, most_size};
ghost use Rattle.tsc_cache.specs.ConfigView.{ConfigView, made_config, fits, IsWithinLimits};
ghost use Rattle.tsc_cache.specs.Batch.{all_fit};

use crate::Mark;
use crate::named_span::cost_of;
use std::marker::Model;
use thiserror::Error;
use tsc_page::{LEAST_SIZE, MOST_SIZE};
use tsc_span::{AddSpan, Span};
use tsc_time::Timestamp;

/// The least that `min_pages` may be.
pub const LEAST_MIN_PAGES: u32 = 1;

/// The most pages that `min_pages` may ask for.
pub const MOST_MIN_PAGES: u32 = 64;

/// For how many nanoseconds reads may be retained at the most.
pub const LONGEST_RETENTION: u64 = 9_223_372_036_854_775_807;

/// Why a configuration was refused.
#[derive(Clone, Copy, Debug, PartialEq, Eq, Error)]
pub enum ConfigFault {
    /// `page_first` is below 64 or above `page_max`, or that is above 2^30.
    #[error("page_first is 64 to page_max, and page_max is at most 2^30")]
    PageSize,
    /// `min_pages` is 0 or above 64.
    #[error("min_pages is 1 to 64")]
    MinPages,
    /// `retention` is above 2^63 - 1 nanoseconds.
    #[error("retention is at most 2^63 - 1 nanoseconds")]
    Retention,
}

/// How a cache is set up.
///
/// CockroachDB's `tscache` has a `min_pages` of 2 and retains at least 10 seconds, which is
/// 10,000,000,000 nanoseconds.
#[derive(Clone, Copy, Debug, PartialEq, Eq)]
pub struct Config {
    page_first: u32,
    page_max: u32,
    min_pages: u32,
    retention: u64,
    low_water: Timestamp,
}

impl Model for Config {
    ghost use Rattle.tsc_cache.specs.ConfigView.{ConfigView, IsWithinLimits};

    ghost Value = { ConfigView };

    ghost view = { λ c. record {
      page_first = c.page_first;
      page_max = c.page_max;
      min_pages = c.min_pages;
      retention = c.retention;
      low_water = c.low_water;
    } };

    ghost invariant = { λ c. IsWithinLimits
        (record {
          page_first = c.page_first;
          page_max = c.page_max;
          min_pages = c.min_pages;
          retention = c.retention;
          low_water = c.low_water;
        }) };

    ghost inverse = { λ s. record {
      page_first = s.page_first;
      page_max = s.page_max;
      min_pages = s.min_pages;
      retention = s.retention;
      low_water = s.low_water;
    } };
}

impl Config {
    /// The configuration of these values, or the first fault in the order of [`ConfigFault`].
    ///
    /// The first page has `page_first` bytes, and no page has more than `page_max`. A page is
    /// dropped only while there are at least `min_pages`, and only once all of it is older than
    /// `retention` nanoseconds. `low_water` is where the floor stands at first.
    pub fn new(
        page_first: u32,
        page_max: u32,
        min_pages: u32,
        retention: u64,
        low_water: Timestamp,
    ) -> Result<Config, ConfigFault>
        ensures { result ≡ made_config page_first page_max min_pages retention low_water }
    {
        if page_first < LEAST_SIZE || page_max < page_first || MOST_SIZE < page_max {
            return Err(ConfigFault::PageSize);
        }
        if !(LEAST_MIN_PAGES..=MOST_MIN_PAGES).contains(&min_pages) {
            return Err(ConfigFault::MinPages);
        }
        if retention > LONGEST_RETENTION {
            return Err(ConfigFault::Retention);
        }
        Ok(Config {
            page_first,
            page_max,
            min_pages,
            retention,
            low_water,
        })
    }

    /// How many bytes the first page may have.
    pub fn page_first(&self) -> u32
        ensures value { result ≡ self.now.page_first }
        ensures limits { IsWithinLimits self.now }
        ensures least { least_size ≤ result }
        ensures most { result ≤ most_size }
    {
        self.page_first
    }

    /// How many bytes a page may have at the most.
    pub fn page_max(&self) -> u32
        ensures value { result ≡ self.now.page_max }
        ensures least { least_size ≤ result }
        ensures most { result ≤ most_size }
    {
        self.page_max
    }

    /// Whether a span fits the largest page: whether it [costs](Span::cost) no more than
    /// `page_max`.
    pub fn fits(&self, span: &Span) -> bool
        ensures { result ≡ fits self.now span.now }
    {
        span.cost() <= self.page_max
    }

    /// As [`fits`](Config::fits), of a span over keys that lie elsewhere.
    pub fn fits_ref(&self, span: &AddSpan<'_>) -> bool
        ensures { result ≡ fits self.now span.now }
    {
        cost_of(span) <= self.page_max
    }

    /// Whether the span of each of some marks fits. A list that is in memory has fewer than 2^63
    /// marks.
    pub fn fits_all(&self, marks: &[Mark]) -> bool
        ensures value { result ≡ all_fit self.now marks.now }
        ensures few { length marks.now < 2 ^ 63 }
    {
        for mark in marks {
            if !self.fits(&mark.span) {
                return false;
            }
        }
        true
    }

    /// How many pages there are at the least when one is dropped.
    pub fn min_pages(&self) -> u32
        ensures { result ≡ self.now.min_pages }
    {
        self.min_pages
    }

    /// For how many nanoseconds reads are retained.
    pub fn retention(&self) -> u64
        ensures { result ≡ self.now.retention }
    {
        self.retention
    }

    /// Where the floor stands at first.
    pub fn low_water(&self) -> Timestamp
        ensures { result ≡ self.now.low_water }
    {
        self.low_water
    }
}
