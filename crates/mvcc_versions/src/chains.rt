//! The versions of each key, the newest first, in a map by key.
ghost use Rattle.std.specs.Prelude.{
  ◌≡◌,
  ◌+◌,
  ◌<◌,
  ◌≤◌,
  ◌==◌,
  ◌∷◌,
  [],
  ◌++◌,
  ℕ,
  Some,
  None,
  option_map,
  length,
  take,
  not,
  IfOk,
  OnOk,
  if◌then◌else◌,
};
ghost use Rattle.std.specs.Str.{bytes_eq};
ghost use Rattle.std.specs.BTreeMap.{get};
ghost use Rattle.tsc_span.specs.Span.{key_cmp};
ghost use Rattle.timestamp_cache.specs.Words.{KeyBytes, is_before};
ghost use Rattle.timestamp_cache.specs.Earliest.{ReportsEarliest};
ghost use Rattle.mvcc_versions.specs.Versions.{
  content_as_of,
  as_of,
  newest_time,
  IsAfter,
  stored,
  chain_of,
  kept_from,
  unless_deletion,
};
ghost use Rattle.mvcc_versions.specs.Maps.{HasRoom, HaveRoom, nodes_of};

use crate::Write;
use crate::versions::Version;
use std::alloc::Global;
use std::collections::{BTreeMap, LinkedList};
use timestamp_cache::{Key, NoMemory, Timestamp, Uuid, next_time};

/// What a key has as of a time, by its versions.
pub(crate) fn content_as_of(chain: &LinkedList<Version>, at: Timestamp) -> Option<&Vec<u8>>
    ensures { option_map (λ b. b.now.items) result ≡ content_as_of at chain.now }
{
    for version in chain {
        if !is_later(version, at) {
            return version.content.as_ref();
        }
    }
    None
}

/// What a key has as of a time.
pub(crate) fn content_at<'a>(
    chains: &'a BTreeMap<Key, LinkedList<Version>>,
    key: &Key,
    at: Timestamp,
) -> Option<&'a Vec<u8>>
    ensures { option_map (λ b. b.now.items) result ≡ as_of at chains.now.entries key.now }
{
    match chains.get(key) {
        Some(chain) => content_as_of(chain, at),
        None => None,
    }
}

/// Whether a version is later than a time.
fn is_later(version: &Version, at: Timestamp) -> bool
    ensures { result ≡ is_before at version.now.at }
{
    at < version.at
}

/// When a key was last written.
fn newest_time(chains: &BTreeMap<Key, LinkedList<Version>>, key: &Key) -> Option<Timestamp>
    ensures { result ≡ newest_time (chain_of chains.now.entries key.now) }
{
    match chains.get(key) {
        Some(chain) => front_time(chain),
        None => None,
    }
}

/// When the newest version of a chain was laid down.
fn front_time(chain: &LinkedList<Version>) -> Option<Timestamp>
    ensures { result ≡ newest_time chain.now }
{
    match chain.front() {
        Some(version) => Some(version.at),
        None => None,
    }
}

/// The earliest time, from one on, that is later than the last write of a key.
pub(crate) fn time_after(
    chains: &BTreeMap<Key, LinkedList<Version>>,
    key: &Key,
    from: Timestamp,
) -> Option<Timestamp>
    ensures { ReportsEarliest (IsAfter (newest_time (chain_of chains.now.entries key.now))) from
        result }
{
    time_after_one(newest_time(chains, key), from)
}

/// The earliest time, from one on, that is later than a key's last write.
fn time_after_one(last: Option<Timestamp>, from: Timestamp) -> Option<Timestamp>
    ensures { ReportsEarliest (IsAfter last) from result }
{
    match last {
        Some(last) => time_behind(last, from),
        None => Some(from),
    }
}

/// The earliest time, from one on, that is later than another.
fn time_behind(last: Timestamp, from: Timestamp) -> Option<Timestamp>
    ensures { ReportsEarliest (IsAfter (Some last)) from result }
{
    if last < from {
        Some(from)
    } else {
        next_time(last)
    }
}

/// The versions that writes lay down at a time, each as a chain of its own.
pub(crate) fn nodes_of(
    alloc: Global,
    writes: &[Write],
    at: Timestamp,
    by: Uuid,
) -> Result<LinkedList<LinkedList<Version>>, NoMemory>
    ensures { IfOk result (λ nodes. nodes ≡ nodes_of at by writes.now) }
{
    let mut nodes = LinkedList::new(alloc);
    for write in writes {
        nodes.push_back(node_of(alloc, write, at, by)?)?;
    }
    Ok(nodes)
}

/// The version that a write lays down, as a chain of its own.
fn node_of(
    alloc: Global,
    write: &Write,
    at: Timestamp,
    by: Uuid,
) -> Result<LinkedList<Version>, NoMemory>
    ensures { IfOk result (λ node. node ≡ record {
      at = at;
      by = by;
      content = write.now.content;
    } ∷ []) }
{
    let content = copy_of(&write.content)?;
    let mut node = LinkedList::new(alloc);
    node.push_back(Version { at, by, content })?;
    Ok(node)
}

/// A copy of what a key has.
fn copy_of(content: &Option<Vec<u8>>) -> Result<Option<Vec<u8>>, NoMemory>
    ensures { IfOk result (λ copy. option_map (λ b. b.items) copy
        ≡ option_map (λ b. b.items) content.now) }
{
    match content {
        Some(bytes) => Ok(Some(bytes.clone()?)),
        None => Ok(None),
    }
}

/// Makes a chain, where there is none, for each key that is written, so that [`link_all`] needs no
/// memory. No key gets a version.
pub(crate) fn make_room(
    alloc: Global,
    chains: &mut BTreeMap<Key, LinkedList<Version>>,
    writes: &[Write],
) -> Result<(), NoMemory>
    ensures same { (k : KeyBytes) → chain_of chains.new.entries k ≡ chain_of chains.old.entries k }
    ensures room { OnOk result (HaveRoom (length writes.now) chains.new.entries writes.now) }
{
    for write in writes {
        make_room_for(alloc, chains, write, writes.len())?;
    }
    Ok(())
}

/// Makes a chain for a key that is written, where there is none.
fn make_room_for(
    alloc: Global,
    chains: &mut BTreeMap<Key, LinkedList<Version>>,
    write: &Write,
    count: usize,
) -> Result<(), NoMemory>
    ensures same { (k : KeyBytes) → chain_of chains.new.entries k ≡ chain_of chains.old.entries k }
    ensures room { OnOk result (HasRoom count chains.new.entries write.now.key) }
    ensures keeps { (k : KeyBytes) → HasRoom count chains.old.entries k →
        HasRoom count chains.new.entries k }
{
    make_chain(alloc, chains, &write.key, count)
}

/// Makes a chain for a key, where there is none.
fn make_chain(
    alloc: Global,
    chains: &mut BTreeMap<Key, LinkedList<Version>>,
    key: &Key,
    count: usize,
) -> Result<(), NoMemory>
    ensures same { (k : KeyBytes) → chain_of chains.new.entries k ≡ chain_of chains.old.entries k }
    ensures room { OnOk result (HasRoom count chains.new.entries key.now) }
    ensures keeps { (k : KeyBytes) → HasRoom count chains.old.entries k →
        HasRoom count chains.new.entries k }
{
    match chains.get(key) {
        Some(chain) => check_room(chain, count),
        None => add_chain(alloc, chains, key, count),
    }
}

/// Whether `count` versions more can stand in a chain.
fn check_room(chain: &LinkedList<Version>, count: usize) -> Result<(), NoMemory>
    ensures { OnOk result (length chain.now + count < 9223372036854775808) }
{
    if count <= 9223372036854775807 - chain.len() {
        Ok(())
    } else {
        Err(NoMemory)
    }
}

/// Adds a chain without versions for a key that has none.
fn add_chain(
    alloc: Global,
    chains: &mut BTreeMap<Key, LinkedList<Version>>,
    key: &Key,
    count: usize,
) -> Result<(), NoMemory>
    requires { get key_cmp chains.old key.now ≡ None }
    ensures same { (k : KeyBytes) → chain_of chains.new.entries k ≡ chain_of chains.old.entries k }
    ensures room { OnOk result (HasRoom count chains.new.entries key.now) }
    ensures keeps { (k : KeyBytes) → HasRoom count chains.old.entries k →
        HasRoom count chains.new.entries k }
{
    let chain = LinkedList::new(alloc);
    check_room(&chain, count)?;
    let key = key.try_copy()?;
    chains.insert(key, chain)?;
    Ok(())
}

/// Lays down versions that were made for writes, each at the front of its key's chain.
pub(crate) fn link_all(
    chains: &mut BTreeMap<Key, LinkedList<Version>>,
    writes: &[Write],
    nodes: LinkedList<LinkedList<Version>>,
    at: Timestamp,
    by: Uuid,
)
    requires nodes { nodes ≡ nodes_of at by writes.now }
    requires room { HaveRoom (length writes.now) chains.old.entries writes.now }
    ensures { (k : KeyBytes) → chain_of chains.new.entries k ≡ stored k at by writes.now
        (chain_of chains.old.entries k) }
{
    let mut rest = nodes;
    for write in writes {
        if let Some(node) = rest.pop_front() {
            link_write(chains, write, node);
        }
    }
}

/// Puts a version at the front of the chain of a key that is written.
fn link_write(
    chains: &mut BTreeMap<Key, LinkedList<Version>>,
    write: &Write,
    node: LinkedList<Version>,
)
    requires one { length node ≡ 1 }
    requires room { HasRoom 1 chains.old.entries write.now.key }
    ensures chains { (k : KeyBytes) → chain_of chains.new.entries k
        ≡ (if bytes_eq write.now.key k then node ++ chain_of chains.old.entries k else
        chain_of chains.old.entries k) }
    ensures room { (k : KeyBytes) (n : ℕ) → HasRoom (n + 1) chains.old.entries k →
        HasRoom n chains.new.entries k }
{
    link(chains, &write.key, node);
}

/// Puts a version at the front of a key's chain.
fn link(chains: &mut BTreeMap<Key, LinkedList<Version>>, key: &Key, mut node: LinkedList<Version>)
    requires one { length node ≡ 1 }
    requires room { HasRoom 1 chains.old.entries key.now }
    ensures chains { (k : KeyBytes) → chain_of chains.new.entries k ≡ (if bytes_eq key.now k then
        node ++ chain_of chains.old.entries k else chain_of chains.old.entries k) }
    ensures room { (k : KeyBytes) (n : ℕ) → HasRoom (n + 1) chains.old.entries k →
        HasRoom n chains.new.entries k }
{
    if let Some(chain) = chains.get_mut(key) {
        // The older ones follow it.
        let _joined = node.append(chain);
        *chain = node;
    }
}

/// Drops the versions of each key that are of no use from a time on, and the keys that have none
/// left.
pub(crate) fn collect(chains: &mut BTreeMap<Key, LinkedList<Version>>, from: Timestamp)
    ensures { (k : KeyBytes) → chain_of chains.new.entries k ≡ kept_from from
        (chain_of chains.old.entries k) }
{
    chains.retain(|_, chain| trim(chain, from));
}

/// Drops the versions of a key that are of no use from a time on, and answers whether any is left.
fn trim(chain: &mut LinkedList<Version>, from: Timestamp) -> bool
    ensures kept { chain.new ≡ kept_from from chain.old }
    ensures left { result ≡ not (length chain.new == 0) }
{
    let count = count_kept(chain, from);
    let _dropped = chain.split_off(count);
    !chain.is_empty()
}

/// How many versions of a key are of use from a time on.
fn count_kept(chain: &LinkedList<Version>, from: Timestamp) -> usize
    ensures within { result ≤ length chain.now }
    ensures kept { take result chain.now ≡ kept_from from chain.now }
{
    let mut count = 0;
    for version in chain {
        if is_earlier(version, from) {
            return count + count_unless_deletion(version);
        }
        count += 1;
    }
    count
}

/// Whether a version is earlier than a time.
fn is_earlier(version: &Version, time: Timestamp) -> bool
    ensures { result ≡ is_before version.now.at time }
{
    version.at < time
}

/// 1, or 0 for a deletion.
fn count_unless_deletion(version: &Version) -> usize
    ensures { result ≡ length (unless_deletion version.now version.now.content) }
{
    match version.content {
        Some(_) => 1,
        None => 0,
    }
}
