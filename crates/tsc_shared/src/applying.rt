//! Adds to a copy of the cache: in place, or to a copy beside the active one.
ghost use Rattle.std.specs.Prelude.{◌≡◌, ◌∷◌, [], ℕ, true, false, IfOk, IfErr, OnOk, OnErr, Some};
ghost use Rattle.std.specs.Prelude.{None};
ghost use Rattle.std.specs.Arc.{arc_value};
ghost use Rattle.tsc_cache.specs.Batch.{all_fit};
ghost use Rattle.tsc_cache.specs.CacheView.{StandsAfterAll, ReportsAddedAll};
ghost use Rattle.tsc_left_right.specs.Copies.{StillStand};
ghost use Rattle.tsc_shared.specs.Caches.{caches, marks_in};
ghost use Rattle.tsc_shared.specs.Applying.{LateFits, AllFit, StandsAfterAdd, ReportsAdd};
ghost use Rattle.tsc_shared.specs.Applying.{StillLags, HasHadSome, CatchesUp, HandleCatchesUp};
ghost use Rattle.tsc_shared.specs.Applying.{HasNoPart, HandsOut, IfMade, IsUntouched};
ghost use Rattle.tsc_shared.specs.Applying.{keeps_pages, CanTake, HasTaken, IsNext};

use crate::adds::{MarkList, UnappliedAdd};
use crate::caches::Copies;
use std::alloc::Global;
use std::sync::Arc;
use tsc_cache::{Added, Cache, Mark, TimestampCache};
use tsc_left_right::Next;
use tsc_time::{NoMemory, Timestamp};

/// Adds marks of which each fits a page of the cache, in place, so that only memory may be refused.
/// Some of them are there then.
fn add_many(cache: &mut Cache, marks: &[Mark], moment: Timestamp) -> Result<Added, NoMemory>
    requires fits { all_fit cache.old.config marks.now ≡ true }
    ensures stands { OnOk result (StandsAfterAll cache.old cache.new marks.now moment) }
    ensures added { IfOk result (ReportsAddedAll cache.old marks.now moment) }
    ensures some { HasHadSome cache.old cache.new marks.now moment }
{
    cache.add_fitting(marks, moment)
}

/// Adds what fits a page of the cache, in place, so that only memory may be refused. A part of it
/// may be there then.
fn add_fitting(cache: &mut Cache, add: &UnappliedAdd) -> Result<Added, NoMemory>
    requires fits { all_fit cache.old.config (marks_in add.now.marks) ≡ true }
    ensures stands { OnOk result
        (StandsAfterAll cache.old cache.new (marks_in add.now.marks) add.now.moment) }
    ensures added { IfOk result
        (ReportsAddedAll cache.old (marks_in add.now.marks) add.now.moment) }
    ensures some { HasHadSome cache.old cache.new (marks_in add.now.marks) add.now.moment }
{
    add_many(cache, add.marks.as_slice(), add.moment)
}

/// The cache after an Add that fits a page of it, so that only memory may be refused.
fn next_fitting(cache: &Cache, add: &UnappliedAdd) -> Result<(Cache, Added), NoMemory>
    requires fits { all_fit cache.now.config (marks_in add.now.marks) ≡ true }
    ensures stands { IfOk result (λ next.
        StandsAfterAll cache.now next.0 (marks_in add.now.marks) add.now.moment) }
    ensures added { IfOk result (λ next.
        ReportsAddedAll cache.now (marks_in add.now.marks) add.now.moment next.1) }
{
    cache.next_fitting(add.marks.as_slice(), add.moment)
}

/// Adds the Add that the cache has not had yet, if there is one. If memory is refused, the cache
/// may have a part of it.
fn add_late(cache: &mut Cache, lagging: &Option<UnappliedAdd>) -> Result<(), NoMemory>
    requires fits { LateFits cache.old lagging.now }
    ensures up { OnOk result (StillLags lagging.now None cache.old cache.new) }
    ensures some { CatchesUp lagging.now cache.old cache.new }
{
    match lagging {
        Some(add) => {
            add_fitting(cache, add)?;
            Ok(())
        }
        None => Ok(()),
    }
}

/// Brings a cache up to date by the Add that it has not had yet. It lacks nothing then. If memory
/// is refused, it may have had a part of that Add.
fn bring_up(cache: &mut Cache, lagging: &mut Option<UnappliedAdd>) -> Result<(), NoMemory>
    requires fits { LateFits cache.old lagging.old }
    ensures up { OnOk result (StillLags lagging.old None cache.old cache.new) }
    ensures some { CatchesUp lagging.old cache.old cache.new }
    ensures none { OnOk result (lagging.new ≡ None) }
{
    add_late(cache, lagging)?;
    *lagging = None;
    Ok(())
}

/// The cache after an Add, beside the active copy.
fn renew(
    alloc: Global,
    active: &Arc<Cache>,
    add: &UnappliedAdd,
) -> Result<(Arc<Cache>, Added), NoMemory>
    requires fits { all_fit (arc_value active.now).config (marks_in add.now.marks) ≡ true }
    ensures stands { IfOk result (λ made.
        StandsAfterAdd None (arc_value active.now) (arc_value made.0) add.now) }
    ensures added { IfOk result (λ made. ReportsAdd None (arc_value active.now) add.now made.1) }
{
    let (next, added) = next_fitting(active, add)?;
    Ok((Arc::new(alloc, next)?, added))
}

/// What became of the standby copy when an Add was to go there in place.
#[derive(Drop)]
pub(crate) enum InPlace {
    /// The copy has had the Add, which brought no new page.
    Made(Added),
    /// The copy has nothing of the Add. It lacks nothing, or what is still said to lag.
    Untouched,
    /// The copy has a new page, or only a part of what it lacked: it is to be made anew.
    Spoiled,
}

/// Adds a mark in place if that brings no new page. Else, and if memory is refused, the cache is
/// as it was.
fn add_one_in_place(cache: &mut Cache, mark: &Mark, moment: Timestamp) -> InPlace
    ensures stands { IfMade result (λ added.
        StandsAfterAll cache.old cache.new (mark.now ∷ []) moment) }
    ensures added { IfMade result (ReportsAddedAll cache.old (mark.now ∷ []) moment) }
    ensures pages { IfMade result (λ added. added.rotated ≡ false) }
    ensures left { HasNoPart None (MarkList.One mark.now) result cache.old cache.new }
{
    match cache.add_without_rotation(&mark.span, mark.value) {
        Ok(Some(added)) => InPlace::Made(added),
        Ok(None) | Err(_) => InPlace::Untouched,
    }
}

/// Adds marks of which each fits a page of the cache, in place. If one brings a new page, or
/// memory is refused, the cache is spoiled.
fn add_many_in_place(cache: &mut Cache, marks: &[Mark], moment: Timestamp) -> InPlace
    requires fits { all_fit cache.old.config marks.now ≡ true }
    ensures stands { IfMade result (λ added. StandsAfterAll cache.old cache.new marks.now moment) }
    ensures added { IfMade result (ReportsAddedAll cache.old marks.now moment) }
    ensures pages { IfMade result (λ added. added.rotated ≡ false) }
    ensures touched { IsUntouched result → ⊥ }
{
    match add_many(cache, marks, moment) {
        Ok(added) if !added.rotated => InPlace::Made(added),
        _ => InPlace::Spoiled,
    }
}

/// Adds to a cache that lacks nothing, in place, if that brings no new page.
fn add_up_to_date(cache: &mut Cache, add: &UnappliedAdd) -> InPlace
    requires fits { all_fit cache.old.config (marks_in add.now.marks) ≡ true }
    ensures stands { IfMade result (λ added.
        StandsAfterAll cache.old cache.new (marks_in add.now.marks) add.now.moment) }
    ensures added { IfMade result
        (ReportsAddedAll cache.old (marks_in add.now.marks) add.now.moment) }
    ensures pages { IfMade result (λ added. added.rotated ≡ false) }
    ensures left { HasNoPart None add.now.marks result cache.old cache.new }
{
    match &add.marks {
        MarkList::One(mark) => add_one_in_place(cache, mark, add.moment),
        MarkList::Many(marks) => add_many_in_place(cache, marks, add.moment),
    }
}

/// Adds to a cache in place, once it has had what it lacked. It lacks nothing then, unless memory
/// is refused before.
fn add_to(cache: &mut Cache, lagging: &mut Option<UnappliedAdd>, add: &UnappliedAdd) -> InPlace
    requires fits { CanTake cache.old lagging.old add.now }
    ensures made { IfMade result
        (HasTaken lagging.old cache.old cache.new add.now lagging.new) }
    ensures lag { IsUntouched result
        → StillLags lagging.old lagging.new cache.old cache.new }
    ensures left { HasNoPart lagging.old add.now.marks result cache.old cache.new }
{
    if bring_up(cache, lagging).is_err() {
        return InPlace::Spoiled;
    }
    add_up_to_date(cache, add)
}

/// Adds to the standby copy in place, if the Add that it lacks brought no new page, nor does this
/// one, and nobody else has a handle on it.
fn add_in_place(
    active: &Cache,
    standby: &mut Arc<Cache>,
    lagging: &mut Option<UnappliedAdd>,
    add: &UnappliedAdd,
) -> InPlace
    requires fits { CanTake (arc_value standby.old) lagging.old add.now }
    ensures made { IfMade result (HasTaken lagging.old (arc_value standby.old)
        (arc_value standby.new) add.now lagging.new) }
    ensures lag { IsUntouched result → StillLags lagging.old lagging.new
        (arc_value standby.old) (arc_value standby.new) }
    ensures left { HasNoPart lagging.old add.now.marks result
        (arc_value standby.old) (arc_value standby.new) }
    ensures kept { keeps_pages active.now (arc_value standby.old) ≡ false
        → IsUntouched result × (standby.new ≡ standby.old) }
{
    if standby.rotations() != active.rotations() {
        return InPlace::Untouched;
    }
    match Arc::get_mut(standby) {
        Some(cache) => add_to(cache, lagging, add),
        None => InPlace::Untouched,
    }
}

/// Lays the standby copy back if nothing of the Add is in it, and else hands it out.
fn set_aside(copies: &mut Copies, standby: Arc<Cache>, tried: &InPlace) -> Option<Arc<Cache>>
    requires { copies.old.standby ≡ None }
    ensures kept { IsUntouched tried.now
        → (copies.new ≡ record copies.old { standby = Some standby }) × (result ≡ None) }
    ensures spoiled { (IsUntouched tried.now → ⊥)
        → (copies.new ≡ copies.old) × (result ≡ Some standby) }
{
    if let InPlace::Untouched = tried {
        copies.standby = Some(standby);
        None
    } else {
        Some(standby)
    }
}

/// A copy made anew from the active one, with which it shares all pages but the newest.
fn take_new(
    alloc: Global,
    copies: &mut Copies,
    add: &UnappliedAdd,
) -> Result<(Arc<Cache>, Added), NoMemory>
    requires fits { all_fit (arc_value copies.old.active).config (marks_in add.now.marks) ≡ true }
    ensures stands { IfOk result (λ made.
        StandsAfterAdd None (arc_value copies.old.active) (arc_value made.0) add.now) }
    ensures added { IfOk result (λ made.
        ReportsAdd None (arc_value copies.old.active) add.now made.1) }
    ensures taken { OnOk result ((copies.new.active ≡ copies.old.active)
        × (copies.new.lagging ≡ None) × (copies.new.standby ≡ copies.old.standby)) }
    ensures same { OnErr result (copies.new ≡ copies.old) }
{
    let made = renew(alloc, &copies.active, add)?;
    copies.lagging = None;
    Ok(made)
}

/// The standby copy, after an Add in place, or else one made anew from the active copy. If memory
/// is refused, the copies still stand for what they stood for, and a standby copy that was spoiled
/// is handed out.
pub(crate) fn take_next(
    alloc: Global,
    copies: &mut Copies,
    add: &UnappliedAdd,
) -> Result<Next<Cache, Added>, Option<Arc<Cache>>>
    requires fits { AllFit copies.old add.now }
    ensures made { IfOk result (λ made.
        IsNext copies.old add.now (arc_value made.copy) made.answer) }
    ensures retired { IfOk result (λ made. HandsOut copies.old add.now made.answer made.retired) }
    ensures taken { OnOk result ((copies.new.active ≡ copies.old.active)
        × (copies.new.lagging ≡ None) × (copies.new.standby ≡ None)) }
    ensures same { OnErr result (StillStand caches copies.old copies.new) }
    ensures kept { IfErr result (λ spoiled. spoiled ≡ None
        → HandleCatchesUp copies.old.lagging copies.old.standby copies.new.standby) }
{
    let Some(mut standby) = copies.standby.take() else {
        let Ok((copy, answer)) = take_new(alloc, copies, add) else {
            return Err(None);
        };
        return Ok(Next {
            copy,
            answer,
            retired: None,
        });
    };
    let tried = add_in_place(&copies.active, &mut standby, &mut copies.lagging, add);
    if let InPlace::Made(answer) = tried {
        return Ok(Next {
            copy: standby,
            answer,
            retired: None,
        });
    }
    match take_new(alloc, copies, add) {
        Ok((copy, answer)) => Ok(Next {
            copy,
            answer,
            retired: Some(standby),
        }),
        Err(_refused) => Err(set_aside(copies, standby, &tried)),
    }
}
