//! Transactions: the reads that a commit looks at once more, and the writes that it makes.
ghost use Rattle.std.specs.Prelude.{◌≡◌, [], ◌∷◌, ◌++◌, OnOk, OnErr};
ghost use Rattle.mvcc_range.specs.Serial.{moved};

use crate::{Read, Write};
use std::alloc::Global;
use std::marker::Model;
use timestamp_cache::{NoMemory, Timestamp, Uuid};

/// A transaction that has not committed: the time at which it reads, what it read, and what it is
/// going to write.
#[derive(Debug, Drop)]
pub struct Transaction {
    pub(crate) at: Timestamp,
    pub(crate) by: Uuid,
    pub(crate) reads: Vec<Read>,
    pub(crate) writes: Vec<Write>,
}

impl Model for Transaction {
    ghost use Rattle.mvcc_range.specs.Serial.{Transaction};

    ghost Value = { Transaction };

    ghost view = { λ t. record {
      at = t.at;
      by = t.by;
      reads = t.reads.items;
      writes = t.writes.items;
    } };
}

impl Transaction {
    /// A transaction that reads as of a time. It has read and written nothing yet. It takes no
    /// memory.
    ///
    /// ```
    /// let one = Transaction::new(alloc, at(20), Uuid::from_u128(1));
    /// assert!(rt; one.reads().is_empty() && one.writes().is_empty());
    /// ```
    pub fn new(alloc: Global, at: Timestamp, by: Uuid) -> Transaction
        ensures { result ≡ record { at = at; by = by; reads = []; writes = [] } }
    {
        Transaction {
            at,
            by,
            reads: Vec::new(alloc),
            writes: Vec::new(alloc),
        }
    }

    /// The time at which the transaction reads.
    ///
    /// ```
    /// assert_eq!(rt; begin(alloc, 20, 'A').time(), at(20));
    /// ```
    pub fn time(&self) -> Timestamp
        ensures { result ≡ self.now.at }
    {
        self.at
    }

    /// Who it is.
    ///
    /// ```
    /// assert_eq!(rt; Transaction::new(alloc, at(20), Uuid::nil()).id(), Uuid::nil());
    /// ```
    pub fn id(&self) -> Uuid
        ensures { result ≡ self.now.by }
    {
        self.by
    }

    /// What the transaction read, one read after another.
    ///
    /// ```
    /// let (mut range, mut one) = (new_range(alloc)?, begin(alloc, 20, 'A'));
    /// range.read(&mut one, &keys(alloc, "k", "")?, at(20))?;
    /// assert!(rt; one.reads()[0].span.covers(b"k"));
    /// ```
    pub fn reads(&self) -> &[Read]
        ensures { result.now ≡ self.now.reads }
    {
        &self.reads
    }

    /// What the transaction is going to write, one write after another.
    ///
    /// ```
    /// let mut one = begin(alloc, 20, 'A');
    /// one.write(put(alloc, "k", "new")?)?;
    /// assert_eq!(rt; one.writes()[0].key.bytes(), "k".as_bytes());
    /// ```
    pub fn writes(&self) -> &[Write]
        ensures { result.now ≡ self.now.writes }
    {
        &self.writes
    }

    /// Writes a key once it commits. Of several writes of a key the last one counts. The call
    /// copies nothing, and takes memory only where the list of writes grows.
    ///
    /// ```
    /// let (mut range, mut one) = (new_range(alloc)?, begin(alloc, 20, 'A'));
    /// one.write(put(alloc, "k", "old")?)?;
    /// one.write(Write { key: Key::new(alloc, b"k")?, content: None })?;
    /// assert!(rt; range.read(&mut one, &keys(alloc, "k", "")?, at(20))?.is_empty());
    /// ```
    pub fn write(&mut self, write: Write) -> Result<(), NoMemory>
        ensures ok { OnOk result (self.new ≡ record self.old {
          writes = self.old.writes
              ++ write ∷ [];
        }) }
        ensures err { OnErr result (self.new ≡ self.old) }
    {
        self.writes.push(write)?;
        Ok(())
    }

    /// The transaction at another time, as once it has committed then. The call copies nothing,
    /// and takes no memory.
    ///
    /// ```
    /// assert_eq!(rt; begin(alloc, 20, 'A').moved_to(at(30)).time(), at(30));
    /// ```
    pub fn moved_to(self, at: Timestamp) -> Transaction
        ensures { result ≡ moved self at }
    {
        let Transaction {
            at: _,
            by,
            reads,
            writes,
        } = self;
        Transaction {
            at,
            by,
            reads,
            writes,
        }
    }
}
