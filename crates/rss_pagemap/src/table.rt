// Which page each slot holds.
ghost use Rattle.std.specs.Prelude.{◌≡◌, ◌<◌, ◌≤◌, ℕ, length, replicate, slice_set, Some, None};
ghost use Rattle.std.specs.Prelude.{IfSome, IfOk};
ghost use Rattle.rss_base.specs.Sizes.{slots_least, slots_most};
ghost use Rattle.rss_base.specs.PageMap.{IsKey, IsTable, owner_of};

use rss_base::PageKey;
use std::alloc::{AllocError, Global};
use std::marker::Model;

/// The page that each slot of a store holds, if it isn't free. Every page is one that the map may
/// name, and none has two slots.
#[derive(Drop)]
pub struct SlotTable {
    owners: Vec<Option<PageKey>>,
}

impl Model for SlotTable {
    ghost use Rattle.std.specs.Prelude.{List, Option};
    ghost use Rattle.rss_base.specs.declared.key.PageKey.{PageKey as Key};
    ghost use Rattle.rss_base.specs.PageMap.{IsTable};

    ghost Value = { List (Option Key) };

    ghost view = { λ t. t.owners.items };

    ghost invariant = { λ t. IsTable t.owners.items };
}

impl SlotTable {
    /// A table of so many slots, all free.
    pub fn new(alloc: Global, slots: u32) -> Result<Self, AllocError>
        requires least { slots_least ≤ slots }
        requires most { slots ≤ slots_most }
        ensures { IfOk result (λ table. table ≡ replicate slots None) }
    {
        let owners = vec![in alloc; None; slots as usize]?;
        Ok(SlotTable { owners })
    }

    /// The table of these owners.
    pub(crate) fn of(owners: Vec<Option<PageKey>>) -> Self
        requires { IsTable owners.items }
        ensures { result ≡ owners.items }
    {
        SlotTable { owners }
    }

    /// How many slots there are, 64 to 65,536.
    pub fn slots(&self) -> u32
        ensures count { result ≡ length self.now }
        ensures table { IsTable self.now }
    {
        self.owners.len() as u32
    }

    /// The page that a slot holds.
    pub fn owner(&self, slot: u32) -> Option<PageKey>
        requires { slot < length self.now }
        ensures { result ≡ owner_of self.now slot }
    {
        self.owners[slot as usize]
    }

    /// The pages that the slots hold, in order.
    pub fn as_slice(&self) -> &[Option<PageKey>]
        ensures owners { result.now ≡ self.now }
        ensures table { IsTable self.now }
    {
        self.owners.as_slice()
    }

    /// Gives a slot to a page that no other slot has, or frees it.
    pub fn set(&mut self, slot: u32, owner: Option<PageKey>)
        requires within { slot < length self.old }
        requires allowed { IfSome owner (IsKey (length self.old)) }
        requires alone { IfSome owner (λ key.
            (other : ℕ) → owner_of self.old other ≡ Some key → other ≡ slot) }
        ensures { self.new ≡ slice_set self.old slot owner }
    {
        self.owners[slot as usize] = owner;
    }
}
