//! What the seats replicate: two copies of a cache, which Adds change.
ghost use Rattle.tsc_shared.specs.Copying.{IsCopyOf, marks_asked};

use crate::adds::{AddRef, UnappliedAdd};
use crate::applying::take_next;
use crate::copies::copy_of;
use std::alloc::{AllocError, Global};
use std::sync::Arc;
use tsc_cache::{Added, Cache, Config, Entry};
use tsc_left_right::{Ask, Next, Replicate, Replicated};

/// Copies of a cache, after Adds.
#[derive(Clone, Copy)]
pub(crate) struct Caches;

/// How a shared cache was set up.
pub(crate) type Setup = tsc_left_right::Setup<Config>;

/// The two copies.
pub(crate) type Copies = tsc_left_right::Copies<Cache, UnappliedAdd>;

/// The copies with the words and slots by which seats reach them.
pub(crate) type Replicas = tsc_left_right::Replicas<Caches>;

/// The replicas as threads share them.
pub(crate) type SharedReplicas = tsc_left_right::SharedReplicas<Caches>;

/// One that takes part.
pub(crate) type Participant = tsc_left_right::Participant<Caches>;

/// What an Add of a seat works with.
pub(crate) type Context<'c> = tsc_left_right::Context<'c, Caches>;

impl Replicated for Caches {
    type Value = Cache;

    type Operation = UnappliedAdd;

    type ConfigView = Config;

    type Entry = Entry;

    ghost use Rattle.tsc_shared.specs.Caches.{caches};

    ghost stands = { caches.stands };

    ghost is_next = { caches.is_next };

    ghost seat_of = { caches.seat_of };

    ghost entry_of = { caches.entry_of };

    ghost seat_kept = { caches.seat_kept };

    ghost unsettled = { caches.unsettled };
}

impl Replicate for Caches {
    type Answer = Added;

    ghost use Rattle.tsc_shared.specs.Caches.{answer_of};

    ghost answer = { answer_of };

    fn next(
        alloc: Global,
        copies: &mut Copies,
        operation: &UnappliedAdd,
    ) -> Result<Next<Cache, Added>, Option<Arc<Cache>>> {
        take_next(alloc, copies, operation)
    }
}

impl<'m> Ask<UnappliedAdd> for AddRef<'m> {
    ghost is = { λ asked add. IsCopyOf (marks_asked asked.marks) asked.moment add };

    fn copied(&self, alloc: Global) -> Result<UnappliedAdd, AllocError> {
        match copy_of(alloc, self) {
            Ok(add) => Ok(add),
            Err(_refused) => Err(AllocError),
        }
    }
}
