// A slotted page that is changed only as it may be.
ghost use Rattle.std.specs.Prelude.{◌<◌};
ghost use Rattle.rss_base.specs.Sizes.{page_entries};

use rss_base::{PAGE_BYTES, Page, PageKey, Space};
use rss_page::{Entry, Survey, blank, body, compact, entry, forward_at, put_at, put_found, remove};
use std::marker::Model;

/// How many entries a page has.
pub(crate) const ENTRIES: u8 = 128;

/// The key of the page.
pub(crate) const KEY: PageKey = PageKey {
    segment: 3,
    space: Space::Home,
    number: 70_000,
};

/// A well-formed home page.
#[derive(Drop)]
pub(crate) struct Slotted {
    page: Page,
}

impl Model for Slotted {
    ghost use Rattle.std.specs.Prelude.{List, ℕ};
    ghost use Rattle.rss_page.specs.Slotted.{IsSlotted};

    ghost Value = { List ℕ };

    ghost view = { λ s. s.page };

    ghost invariant = { λ s. IsSlotted s.page };
}

impl Slotted {
    pub(crate) fn new() -> Self {
        let page = blank(KEY);
        Slotted { page }
    }

    pub(crate) fn page(&self) -> &Page {
        &self.page
    }

    pub(crate) fn survey(&self) -> Survey {
        Survey::of(&self.page)
    }

    pub(crate) fn entry(&self, slot: u8) -> Entry
        requires { slot < page_entries }
    {
        entry(&self.page, slot)
    }

    pub(crate) fn body(&self, slot: u8) -> Option<&[u8]>
        requires { slot < page_entries }
    {
        body(&self.page, slot)
    }

    pub(crate) fn fits(&self, slot: u8, length: u16) -> bool
        requires { slot < page_entries }
    {
        Survey::of(&self.page).has_room(&self.page, slot, length)
    }

    /// Puts a body, if it fits, by a survey at each other slot.
    pub(crate) fn put(&mut self, slot: u8, body: &[u8]) -> bool
        requires { slot < page_entries }
    {
        if body.is_empty() || body.len() > PAGE_BYTES {
            return false;
        }
        let found = Survey::of(&self.page);
        if !found.has_room(&self.page, slot, body.len() as u16) {
            return false;
        }
        if slot % 2 == 0 {
            put_at(&mut self.page, slot, body);
        } else {
            put_found(&mut self.page, slot, body, &found);
        }
        true
    }

    /// Puts a forward to a slot, if a page has it.
    pub(crate) fn forward(&mut self, slot: u8, to_page: u32, to_slot: u8)
        requires { slot < page_entries }
    {
        if self.page[0] == 1 && to_slot < ENTRIES {
            forward_at(&mut self.page, slot, to_page, to_slot);
        }
    }

    pub(crate) fn remove(&mut self, slot: u8)
        requires { slot < page_entries }
    {
        remove(&mut self.page, slot);
    }

    pub(crate) fn compact(&mut self) {
        compact(&mut self.page);
    }
}
