// The handle of a store.
ghost use Rattle.std.specs.Prelude.{◌≡◌, None, Some, IsSome, option_map, true, false};
ghost use Rattle.std.specs.Coded.{Coded-set};
ghost use Rattle.rss_c.specs.Kept.{store_coded};

use crate::kept::Kept;
use crate::open_store::OpenStore;
use std::alloc::Global;
use std::mem::replace;

/// What C has of a store: the store, if one is open in it.
#[repr(C)]
pub struct RssStore {
    kept: Kept,
    is_open: bool,
    ghost some: { is_open ≡ true → IsSome kept.store },
    ghost none: { is_open ≡ false → kept.store ≡ None } by { Prim.hlevel (Coded-set store_coded) },
}

impl RssStore {
    ghost use Rattle.rss_c.specs.Handles.{held};

    pub(crate) fn is_open(&self) -> bool
        ensures none { result ≡ false → held self.now ≡ None }
        ensures some { result ≡ true → IsSome (held self.now) }
    {
        self.is_open
    }

    /// Takes the store out, if one is open in it. Then none is.
    pub(crate) fn take(&mut self, alloc: Global) -> Option<Box<OpenStore>>
        ensures taken { option_map (λ store. store.value) result ≡ held self.old }
        ensures none { held self.new ≡ None }
    {
        if !self.is_open {
            return None;
        }
        self.is_open = false;
        Some(replace(&mut self.kept, Kept::none(alloc)).into_box())
    }

    /// Puts a store in, if none is open.
    pub(crate) fn put(&mut self, store: Box<OpenStore>)
        requires { held self.old ≡ None }
        ensures { held self.new ≡ Some store.value }
    {
        replace(&mut self.kept, Kept::of(store)).discard();
        self.is_open = true;
    }
}
