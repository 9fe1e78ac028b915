// A store as C keeps it: a box as its pointer, or none.
ghost use Rattle.std.specs.Prelude.{◌≡◌, Option, None, Some, IsSome};
ghost use Rattle.rss_c.specs.Kept.{store_coded, kept_owns};
ghost use Rattle.rss_c.specs.declared.open_store.OpenStore.{OpenStore};

use crate::open_store::OpenStore;
use crate::parts::Parts;
use std::alloc::Global;
use std::marker::Model;
use std::ptr;

/// What the pointer points to, as C sees it.
#[repr(C)]
#[derive(Drop)]
pub struct Unseen {
    byte: u8,
}

/// A store, which it owns, as its pointer; or none. It can't be dropped, so none is forgotten.
#[repr(C)]
pub struct Kept {
    at: *mut Unseen,
    alloc: Global,
    pub(crate) ghost store: { Option OpenStore } by { store_coded },
}

impl Model for Kept {
    ghost also_owns = { λ k. kept_owns k.alloc k.at k.store };
}

impl Kept {
    pub(crate) fn none(alloc: Global) -> Kept
        ensures { result.store ≡ None }
    {
        Kept {
            at: ptr::null_mut(),
            alloc,
        }
    }

    /// Lets go of one that keeps none.
    pub(crate) fn discard(self)
        requires { self.store ≡ None }
    {
        let Kept { at: _, alloc: _ } = self;
    }

    pub(crate) fn of(store: Box<OpenStore>) -> Kept
        ensures { result.store ≡ Some store.value }
    {
        Kept::of_parts(Parts::of(store))
    }

    pub(crate) fn into_box(self) -> Box<OpenStore>
        requires { IsSome self.store }
        ensures { Some result.value ≡ self.store }
    {
        self.into_parts().into_box()
    }

    fn of_parts(parts: Parts<OpenStore, Global>) -> Kept
        ensures { result.store ≡ Some parts.value }
    {
        let Parts { ptr, alloc } = parts;
        Kept {
            at: ptr as *mut Unseen,
            alloc,
        }
    }

    fn into_parts(self) -> Parts<OpenStore, Global>
        requires { IsSome self.store }
        ensures { Some result.value ≡ self.store }
    {
        let Kept { at, alloc } = self;
        Parts {
            ptr: at as *mut OpenStore,
            alloc,
        }
    }
}
