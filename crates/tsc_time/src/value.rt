//! Values: a time with the transaction that read at it, and the ratchet that joins two of them.
ghost use Rattle.std.specs.Prelude.{◌≡◌, ◌≢◌, ◌↔◌, ◌<◌, ◌∷◌, [], length, All, IsTrue, Some, None};
ghost use Rattle.std.specs.Str.{bytes_eq};
ghost use Rattle.uuid.specs.Parts.{is_nil_bytes, zero_bytes};
ghost use Rattle.tsc_time.specs.ValueView.{unowned, owner_of, is_same_owner, IsMadeValue};
ghost use Rattle.tsc_time.specs.Joint.{joint, ratcheted};

use crate::Timestamp;
use std::marker::Model;
use uuid::{Bytes, Uuid};

/// What the cache holds for a key: the time of a read, and the transaction that owns it, if one
/// does. It restates `cacheValue` of CockroachDB's `pkg/kv/kvserver/tscache`.
///
/// A transaction's own reads do not push its writes, so an owner is worth keeping. The nil UUID
/// names no transaction, and is never an owner.
///
/// The parts of the time are fields beside the owner, so a value has 32 bytes; with a `Timestamp`
/// within it would have 40.
#[derive(Clone, Copy, Debug, PartialEq, Eq)]
pub struct Value {
    wall: u64,
    logical: u32,
    owner: Option<Uuid>,
}

impl Model for Value {
    ghost use Rattle.std.specs.Prelude.{◌≡◌, true};
    ghost use Rattle.tsc_time.specs.Time.{is_in_range};
    ghost use Rattle.tsc_time.specs.ValueView.{ValueView, IsMadeOwner};

    ghost Value = { ValueView };

    ghost view = { λ v. record {
      time = record { wall = v.wall; logical = v.logical };
      owner = v.owner;
    } };

    ghost invariant = { λ v. (is_in_range (record { wall = v.wall; logical = v.logical }) ≡ true) ×
        IsMadeOwner v.owner };

    ghost inverse = { λ v. record {
      wall = v.time.wall;
      logical = v.time.logical;
      owner = v.owner;
    } };
}

impl Value {
    /// A time with its owner. The nil UUID means none.
    pub fn of(time: Timestamp, owner: Uuid) -> Value
        ensures { result ≡ record { time = time; owner = owner_of owner } }
    {
        let owner = if is_nil(owner) { None } else { Some(owner) };
        Value {
            wall: time.wall,
            logical: time.logical,
            owner,
        }
    }

    /// A time that no transaction owns.
    pub const fn unowned(time: Timestamp) -> Value
        ensures { result ≡ unowned time }
    {
        Value {
            wall: time.wall,
            logical: time.logical,
            owner: None,
        }
    }

    /// The time.
    pub const fn time(self) -> Timestamp
        ensures { result ≡ self.time }
    {
        Timestamp {
            wall: self.wall,
            logical: self.logical,
        }
    }

    /// The transaction that owns the time, if one does. Whoever has a value also learns here that
    /// it can be made.
    pub const fn owner(self) -> Option<Uuid>
        ensures value { result ≡ self.owner }
        ensures not_nil { result ≢ Some zero_bytes }
        ensures made { IsMadeValue self }
    {
        self.owner
    }

    /// Ratchets a new value into this one, and says whether that changed it: `ratchetValue` of
    /// CockroachDB's `pkg/kv/kvserver/tscache/cache.go`.
    ///
    /// Whichever is later stays. Two values of one time keep an owner that both name, and else lose
    /// it, since the writes of each transaction have to heed the reads of the other.
    #[inline]
    pub fn raise(&mut self, new: &Value) -> bool
        ensures value { self.new ≡ ratcheted self.old new.now }
        ensures joint { self.new ≡ joint self.old (new.now ∷ []) }
        ensures updated { IsTrue result ↔ (self.new ≢ self.old) }
    {
        if self.time() < new.time() {
            *self = *new;
            return true;
        }
        if self.time() != new.time() || same_owner(self.owner, new.owner) {
            return false;
        }
        let updated = self.owner.is_some();
        *self = Value::unowned(self.time());
        updated
    }
}

/// Whether all bits of a UUID are zero. As one number they are compared at once, and not byte by
/// byte.
fn is_nil(uuid: Uuid) -> bool
    ensures value { result ≡ is_nil_bytes uuid }
    ensures long { length uuid ≡ 16 }
    ensures small { All (λ b. b < 256) uuid }
{
    let _bytes = bytes_of(uuid);
    uuid.as_u128() == 0
}

/// The bytes of a UUID: sixteen, each of which is below 256.
fn bytes_of(uuid: Uuid) -> Bytes
    ensures long { length uuid ≡ 16 }
    ensures small { All (λ b. b < 256) uuid }
{
    let bytes = uuid.into_bytes();
    let _same = small_bytes(&bytes);
    bytes
}

/// The bytes themselves, each of which is below 256.
fn small_bytes(bytes: &[u8]) -> &[u8]
    ensures { All (λ b. b < 256) bytes.now }
{
    bytes
}

/// Whether two UUIDs are equal, by one comparison as numbers.
fn same_uuid(a: Uuid, b: Uuid) -> bool
    ensures { result ≡ bytes_eq a b }
{
    let _first = bytes_of(a);
    let _second = bytes_of(b);
    a.as_u128() == b.as_u128()
}

/// Whether two name one owner, or neither names any.
fn same_owner(a: Option<Uuid>, b: Option<Uuid>) -> bool
    ensures { result ≡ is_same_owner a b }
{
    match (a, b) {
        (Some(a), Some(b)) => same_uuid(a, b),
        (None, None) => true,
        _ => false,
    }
}

/// What `new` makes of `old`, and whether that differs from `old`, as [`Value::raise`] tells.
pub fn ratchet(old: Value, new: Value) -> (Value, bool)
    ensures value { result.0 ≡ ratcheted old new }
    ensures joint { result.0 ≡ joint old (new ∷ []) }
    ensures updated { IsTrue result.1 ↔ (result.0 ≢ old) }
{
    let mut value = old;
    let updated = value.raise(&new);
    (value, updated)
}
