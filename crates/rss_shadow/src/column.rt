// The slots of the pages of one space in one segment.
ghost use Rattle.std.specs.Prelude.{◌≡◌, ◌<◌, ◌≤◌, length, replicate, slice_index_or, slice_set};
ghost use Rattle.std.specs.Prelude.{Some, None, IfOk, IfSome, IfNone};
ghost use Rattle.rss_base.specs.Sizes.{slots_most};
ghost use Rattle.rss_base.specs.Paged.{IsFirstFrom, NoneFrom};
ghost use Rattle.rss_shadow.specs.Index.{HasSlot, LacksSlot};

use crate::numbers::NumberSet;
use std::alloc::{AllocError, Global};
use std::marker::Model;

/// The slot of each page, by its number, and the numbers of the pages that have one and of those
/// that have none, so that the next of either kind is found at once.
#[derive(Drop)]
pub(crate) struct Column {
    slots: Vec<Option<u16>>,
    mapped: NumberSet,
    unmapped: NumberSet,
}

impl Model for Column {
    ghost use Rattle.std.specs.Prelude.{ℕ, List, Option};
    ghost use Rattle.rss_shadow.specs.Index.{AreTold};

    ghost Value = { List (Option ℕ) };

    ghost view = { λ c. c.slots.items };

    ghost invariant = { λ c. AreTold c.slots.items c.mapped c.unmapped };
}

impl Column {
    /// No page has a slot.
    pub(crate) fn new(alloc: Global, pages: u32) -> Result<Self, AllocError>
        requires some { 0 < pages }
        requires few { pages ≤ slots_most }
        ensures { IfOk result (λ column. column ≡ replicate pages None) }
    {
        Ok(Column {
            slots: vec![in alloc; None; pages as usize]?,
            mapped: NumberSet::new(alloc, pages)?,
            unmapped: NumberSet::all(alloc, pages)?,
        })
    }

    /// The slot of the page `number`.
    pub(crate) fn slot(&self, number: u32) -> Option<u16>
        ensures { result ≡ slice_index_or self.now number None }
    {
        self.slots.get(number as usize).copied().flatten()
    }

    pub(crate) fn put(&mut self, number: u32, slot: u16)
        requires { number < length self.old }
        ensures { self.new ≡ slice_set self.old number (Some slot) }
    {
        self.slots[number as usize] = Some(slot);
        self.mapped.insert(number);
        self.unmapped.remove(number);
    }

    pub(crate) fn clear(&mut self, number: u32)
        requires { number < length self.old }
        ensures { self.new ≡ slice_set self.old number None }
    {
        self.slots[number as usize] = None;
        self.mapped.remove(number);
        self.unmapped.insert(number);
    }

    /// The first number from this one on whose page has a slot.
    pub(crate) fn first_slotted(&self, from: u32) -> Option<u32>
        ensures some { IfSome result (IsFirstFrom (HasSlot self.now) from) }
        ensures none { IfNone result (NoneFrom (HasSlot self.now) from) }
    {
        self.unmapped.first_absent(from)
    }

    /// The first number from this one on whose page has none.
    pub(crate) fn first_free(&self, from: u32) -> Option<u32>
        ensures some { IfSome result (IsFirstFrom (LacksSlot self.now) from) }
        ensures none { IfNone result (NoneFrom (LacksSlot self.now) from) }
    {
        self.mapped.first_absent(from)
    }
}
