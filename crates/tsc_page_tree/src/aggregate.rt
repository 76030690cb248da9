//! What is known of all nodes below a subtree: where they begin, their joint value, and the value
//! that they still lack.
ghost use Rattle.std.specs.Prelude.{◌≡◌, ◌∷◌, [], Some, if◌then◌else◌};
ghost use Rattle.tsc_time.specs.Joint.{joint};
ghost use Rattle.tsc_page_tree.specs.Lazy.{merged, seen_with, joint_after};

use tsc_page_nodes::Growth;
use tsc_span::KeyPrefix;
use tsc_time::{NoMemory, Value, ratchet};

/// What is known of all nodes below a subtree of the tree, so that they need not be looked into.
#[derive(Clone, Copy, Debug)]
pub(crate) struct Aggregate {
    /// The prefix of where they begin.
    pub(crate) start: KeyPrefix,
    /// The joint value of all their keys and gaps.
    pub(crate) joint: Value,
    /// A value that is still to be ratcheted into each of their keys and gaps. The joint value has
    /// it already.
    pub(crate) lazy: Option<Value>,
}

impl Aggregate {
    /// Ratchets a value into all keys and gaps.
    pub(crate) fn raise(&mut self, value: Value)
        ensures start { self.new.start ≡ self.old.start }
        ensures joint { self.new.joint ≡ joint self.old.joint (value ∷ []) }
        ensures lazy { self.new.lazy ≡ Some (merged self.old.lazy value) }
    {
        self.joint.raise(&value);
        match &mut self.lazy {
            Some(lazy) => {
                lazy.raise(&value);
            }
            None => self.lazy = Some(value),
        }
    }

    /// What is seen of a value below, where the lazy value is reached or not.
    pub(crate) fn seen(&self, below: Value, reached: bool) -> Value
        ensures { result ≡ seen_with self.now.lazy reached below }
    {
        match self.lazy {
            Some(lazy) if reached => ratchet(below, lazy).0,
            _ => below,
        }
    }

    /// Heeds an Add below, where it was made: whether it reached the first node.
    pub(crate) fn update(
        &mut self,
        made: &Result<Option<Growth>, NoMemory>,
        start: KeyPrefix,
        reached: bool,
        value: Value,
    )
        ensures start { self.new.start ≡ start }
        ensures joint { self.new.joint ≡ joint_after made.now reached value self.old.joint }
        ensures lazy { self.new.lazy ≡ self.old.lazy }
    {
        self.start = start;
        if let Ok(Some(_)) = made {
            if reached {
                self.joint.raise(&value);
            }
        }
    }

    /// Heeds that a value was ratcheted into keys and gaps below, where these reach the first node.
    pub(crate) fn reach(&mut self, reached: bool, value: Value)
        ensures start { self.new.start ≡ self.old.start }
        ensures joint { self.new.joint ≡
            (if reached then joint self.old.joint (value ∷ []) else self.old.joint) }
        ensures lazy { self.new.lazy ≡ self.old.lazy }
    {
        if reached {
            self.joint.raise(&value);
        }
    }
}
