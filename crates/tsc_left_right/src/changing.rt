//! The code that changes copies, and what callers ask of it.
ghost use Rattle.std.specs.Prelude.{◌≡◌, List, IfOk, OnOk, OnErr, None};
ghost use Rattle.std.specs.Arc.{arc_value};
ghost use Rattle.tsc_left_right.specs.Copies.{MayTake, IsNextCopy, StillStand};

use crate::replicated::Replicated;
use crate::table::Copies;
use std::alloc::{AllocError, Global};
use std::sync::Arc;

/// A copy after an operation, what that answered, and the copy in whose place it came, if there is
/// one. This is to be dropped once the lock is released, since it may take long.
#[derive(Drop)]
pub struct Next<C, A> {
    pub copy: Arc<C>,
    pub answer: A,
    pub retired: Option<Arc<C>>,
}

/// The code that changes copies.
pub trait Replicate: Replicated {
    /// What an operation answers.
    type Answer: Drop;

    /// What the operation answers behind this history.
    ghost answer: { Self.ConfigView → List Self.Entry → Self.Operation → Self.Answer };

    /// The copy after the operation, made of the standby copy or of the active one. What is refused
    /// is memory alone: the copies stand for what they stood for then, and a copy that was spoiled
    /// is handed out.
    fn next(
        alloc: Global,
        copies: &mut Copies<Self::Value, Self::Operation>,
        operation: &Self::Operation,
    ) -> Result<Next<Self::Value, Self::Answer>, Option<Arc<Self::Value>>>
        requires may { MayTake Self.Replicated copies.old operation.now }
        ensures next { IfOk result (λ next.
            IsNextCopy Self.Replicated answer copies.old operation.now (arc_value next.copy)
            next.answer) }
        ensures taken { OnOk result ((copies.new.active ≡ copies.old.active)
            × (copies.new.standby ≡ None)) }
        ensures same { OnErr result (StillStand Self.Replicated copies.old copies.new) };
}

/// What a caller asks for, which keeps its own.
pub trait Ask<O> {
    /// The operation is what is asked for.
    ghost is: { Self → O → Type 0 };

    /// The operation, by a copy of what is asked for.
    fn copied(&self, alloc: Global) -> Result<O, AllocError>
        ensures { IfOk result (is self.now) };
}
