//! The versions of keys as one value.
ghost use Rattle.std.specs.Prelude.{◌≡◌, ◌↔◌, [], length, IsTrue, IfOk, OnOk};
ghost use Rattle.timestamp_cache.specs.Words.{KeyBytes};
ghost use Rattle.timestamp_cache.specs.Earliest.{ReportsEarliest};
ghost use Rattle.mvcc_versions.specs.Versions.{
  chain_of,
  as_of,
  newest_time,
  IsAfter,
  stored,
  kept_from,
  Matches,
};
ghost use Rattle.mvcc_versions.specs.Maps.{HaveRoom, nodes_of};

use crate::{Read, Row, Version, Write, chains, rows};
use std::alloc::Global;
use std::collections::{BTreeMap, LinkedList};
use std::marker::Model;
use timestamp_cache::{Key, NoMemory, Span, Timestamp, Uuid};

/// The versions of each key, the newest first.
#[derive(Drop)]
pub struct VersionMap {
    chains: BTreeMap<Key, LinkedList<Version>>,
}

impl Model for VersionMap {
    ghost use Rattle.mvcc_versions.specs.Versions.{Chains};

    ghost Value = { Chains };

    ghost view = { λ v. v.chains.entries };
}

impl VersionMap {
    /// No key has a version.
    pub fn new(alloc: Global) -> VersionMap
        ensures { result ≡ [] }
    {
        VersionMap {
            chains: BTreeMap::new(alloc),
        }
    }

    /// The rows of a span as of a time.
    pub fn rows_as_of(
        &self,
        alloc: Global,
        span: &Span,
        at: Timestamp,
    ) -> Result<Vec<Row>, NoMemory>
        ensures { IfOk result (λ rows. Matches (record { span = span.now; rows = rows.items })
            (as_of at self.now)) }
    {
        rows::rows_as_of(alloc, &self.chains, span, at)
    }

    /// Whether a read is still what is there as of a time. That of a single key takes no memory.
    pub fn is_still_so(&self, alloc: Global, read: &Read, at: Timestamp) -> Result<bool, NoMemory>
        ensures { IfOk result (λ so. IsTrue so ↔ Matches read.now (as_of at self.now)) }
    {
        rows::is_still_so(alloc, &self.chains, read, at)
    }

    /// The earliest time, from one on, that is later than the last write of a key.
    pub fn time_after(&self, key: &Key, from: Timestamp) -> Option<Timestamp>
        ensures { ReportsEarliest (IsAfter (newest_time (chain_of self.now key.now))) from
            result }
    {
        chains::time_after(&self.chains, key, from)
    }

    /// Makes room for the versions of some writes, so that
    /// [`store_versions`](VersionMap::store_versions) needs no memory. No key gets a version.
    pub fn make_room(&mut self, alloc: Global, writes: &[Write]) -> Result<(), NoMemory>
        ensures same { (k : KeyBytes) → chain_of self.new k
            ≡ chain_of self.old k }
        ensures room { OnOk result (HaveRoom (length writes.now) self.new writes.now) }
    {
        chains::make_room(alloc, &mut self.chains, writes)
    }

    /// The versions that writes lay down at a time, each as a chain of its own.
    pub fn prepare(
        alloc: Global,
        writes: &[Write],
        at: Timestamp,
        by: Uuid,
    ) -> Result<LinkedList<LinkedList<Version>>, NoMemory>
        ensures { IfOk result (λ nodes. nodes ≡ nodes_of at by writes.now) }
    {
        chains::nodes_of(alloc, writes, at, by)
    }

    /// Lays down versions that were made for writes, each as the newest of its key.
    pub fn store_versions(
        &mut self,
        writes: &[Write],
        nodes: LinkedList<LinkedList<Version>>,
        at: Timestamp,
        by: Uuid,
    )
        requires nodes { nodes ≡ nodes_of at by writes.now }
        requires room { HaveRoom (length writes.now) self.old writes.now }
        ensures { (k : KeyBytes) → chain_of self.new k ≡ stored k at by writes.now
            (chain_of self.old k) }
    {
        chains::link_all(&mut self.chains, writes, nodes, at, by);
    }

    /// Drops the versions of each key that are of no use from a time on. It costs a step for each
    /// version, and takes no memory.
    pub fn drop_before(&mut self, from: Timestamp)
        ensures { (k : KeyBytes) → chain_of self.new k ≡ kept_from from
            (chain_of self.old k) }
    {
        chains::collect(&mut self.chains, from);
    }
}
