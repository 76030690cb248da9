//! What the seats look for in a copy of the cache.
ghost use Rattle.std.specs.Prelude.{◌≡◌, IfOk};
ghost use Rattle.std.specs.Arc.{arc_value};
ghost use Rattle.tsc_cache.specs.State.{look};
ghost use Rattle.tsc_cache.specs.Counts.{figures_of};
ghost use Rattle.tsc_shared.specs.Looking.{InEachState};

use std::sync::Arc;
use tsc_cache::{Cache, Figures, TimestampCache};
use tsc_left_right::Look;
use tsc_span::SpanRef;
use tsc_time::{NoMemory, Timestamp, Value};

/// What a lookup of a span finds.
#[derive(Clone, Copy)]
pub(crate) struct MaxOn<'s, 'k> {
    pub(crate) span: &'s SpanRef<'k>,
}

impl<'s, 'k> Look<Cache, Value> for MaxOn<'s, 'k> {
    ghost finds = { λ self cache value. InEachState cache (λ s. value ≡ look s self.span.now) };

    fn look(&self, copy: &Arc<Cache>) -> Value {
        copy.get_max_ref(self.span)
    }
}

/// Where the floor stands.
#[derive(Clone, Copy)]
pub(crate) struct Floor;

impl Look<Cache, Timestamp> for Floor {
    ghost finds = { λ _ cache time. InEachState cache (λ s. time ≡ s.floor) };

    fn look(&self, copy: &Arc<Cache>) -> Timestamp {
        copy.low_water()
    }
}

/// What can be counted of a cache.
#[derive(Clone, Copy)]
pub(crate) struct Count;

impl Look<Cache, Figures> for Count {
    ghost finds = { λ _ cache figures. InEachState cache (λ s. figures ≡ figures_of s) };

    fn look(&self, copy: &Arc<Cache>) -> Figures {
        copy.figures()
    }
}

/// A handle of one's own on the copy. There is none where the count of handles is at its end.
#[derive(Clone, Copy)]
pub(crate) struct OwnHandle;

impl Look<Cache, Result<Arc<Cache>, NoMemory>> for OwnHandle {
    ghost finds = { λ _ cache handle. IfOk handle (λ own. arc_value own ≡ cache) };

    fn look(&self, copy: &Arc<Cache>) -> Result<Arc<Cache>, NoMemory> {
        Ok(Arc::try_clone(copy)?)
    }
}
