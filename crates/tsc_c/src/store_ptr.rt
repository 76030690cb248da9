//! The pointer by which C has a store. C alone frees it, so no drop does.
ghost use Rattle.std.specs.Borrow.{sem};
ghost use Rattle.std.specs.Prelude.{◌≡◌, [], IfOk, IfErr, OnErr};
ghost use Rattle.std.specs.Option.{MatchOption};
ghost use Rattle.std.specs.declared.option.Option.{Option as Maybe};
ghost use Rattle.std.specs.declared.option.Option.TheVariants.{None, Some};
ghost use Rattle.std.specs.Prelude.{List};
ghost use Rattle.tsc_ffi_store.specs.declared.store.Slot.{Slot as Named};
ghost use Rattle.tsc_ffi_store.specs.Store.{slots_of};
ghost use Rattle.tsc_ffi_store.specs.declared.refusal.Refusal.TheVariants.{NoMemory};
ghost use Rattle.tsc_c.specs.Owning.{ptr_owns};

use std::alloc::Global;
use std::marker::Model;
use std::mem::replace;
use std::ptr::null_mut;
use tsc_ffi_store::{Refusal, Store};

/// A pointer in the memory of a program in C, which owns a store, or nothing.
///
/// The pointer is null if nothing is owned, so it may begin as zeros. C never follows, changes or
/// copies it. The header calls it `tsc_store`.
#[repr(C)]
#[derive(Drop)]
pub struct StorePtr {
    at: *mut u8,
    pub ghost owned: { Maybe (List Named) },
}

impl Model for StorePtr {
    ghost also_owns = { λ ptr. ptr_owns ptr.at ptr.owned };
}

impl StorePtr {
    ghost use Rattle.tsc_c.specs.Lending.{LendsStore};

    /// Nothing is owned.
    pub fn empty() -> StorePtr
        ensures { result.owned ≡ None }
    {
        StorePtr { at: null_mut() }
    }

    /// Owns a store.
    pub fn of(store: Box<Store, Global>) -> StorePtr
        ensures { result.owned ≡ Some store.value }
    {
        let at = Box::into_raw(store);
        StorePtr { at: at as *mut u8 }
    }

    /// The store that is owned.
    pub fn into_box(self, alloc: Global) -> Option<Box<Store, Global>>
        ensures { MatchOption result (self.owned ≡ None) (λ b. self.owned ≡ Some b.value) }
    {
        let StorePtr { at } = self;
        if at.is_null() {
            return None;
        }
        Some(unsafe { Box::from_raw(alloc, at as *mut Store) })
    }

    /// The store that is owned. Nothing is owned then.
    pub(crate) fn take(&mut self, alloc: Global) -> Option<Box<Store, Global>>
        ensures taken { MatchOption result (self.old.owned ≡ None)
            (λ b. self.old.owned ≡ Some b.value) }
        ensures left { self.new.owned ≡ None }
    {
        replace(self, StorePtr::empty()).into_box(alloc)
    }

    /// The store that is owned, where it lies.
    pub(crate) fn store_mut(&mut self) -> Option<&mut Store>
        ensures* lends { sem 𝓛 (LendsStore self.entry result) }
        ensures value { MatchOption result (self.old.owned ≡ None)
            (λ store. self.old.owned ≡ Some store.now) }
    {
        let at = self.at;
        if at.is_null() {
            return None;
        }
        Some(unsafe { &mut *(at as *mut Store) })
    }

    /// Owns this store. What was owned has to be taken before: it is not freed.
    pub(crate) fn put_back(&mut self, store: Box<Store, Global>)
        ensures { self.new.owned ≡ Some store.value }
    {
        *self = StorePtr::of(store);
    }
}

unsafe impl Send for StorePtr {}

/// The store of a pointer, or one that has given no handle. The pointer owns nothing then.
pub(crate) fn store_in(alloc: Global, ptr: &mut StorePtr) -> Result<Box<Store, Global>, Refusal>
    ensures taken { IfOk result (λ store. store.value ≡ slots_of ptr.old.owned) }
    ensures unchanged { OnErr result (slots_of ptr.new.owned ≡ slots_of ptr.old.owned) }
    ensures none { OnErr result (slots_of ptr.old.owned ≡ []) }
    ensures refused { IfErr result (λ why. why ≡ NoMemory) }
{
    match ptr.take(alloc) {
        Some(store) => Ok(store),
        None => match Box::new(alloc, Store::new(alloc)) {
            Ok(store) => Ok(store),
            Err(_) => Err(Refusal::NoMemory),
        },
    }
}
