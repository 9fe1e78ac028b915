// What one walk over the directory of a page finds.
ghost use Rattle.std.specs.Prelude.{◌≡◌, ◌↔◌, ◌+◌, ◌<◌, ◌≤◌, ℕ, List, replicate, IsTrue, IsSome, IfSome, Option, Some, None, unwrap_or};
ghost use Rattle.rss_base.specs.Sizes.{page_entries};
ghost use Rattle.rss_page.specs.Content.{Content, Empty};
ghost use Rattle.rss_page.specs.Marks.{IsWithin};
ghost use Rattle.rss_page.specs.Slotted.{entries, length_of, HasRoom, IsSlotted};
ghost use Rattle.rss_page.specs.Surveyed.{GoesOnWith, IsOrdered, IsSurvey};

use crate::checked::checked_entry;
use crate::directory::entry;
use crate::entry_form::{BODIES_AT, ENTRIES, Entry, PAGE_END};
use rss_base::Page;

/// What a walk has found in front of the first entry.
const NOTHING: Survey = Survey {
    free: PAGE_END - BODIES_AT,
    end: BODIES_AT,
    first_empty: None,
    is_vacant: true,
};

/// What one walk over the directory of a page finds.
#[derive(Clone, Copy, Debug, PartialEq, Eq)]
pub struct Survey {
    /// How many bytes of the 3,056 belong to no body.
    pub free: u16,
    /// Where the last body ends, and 1,040 if there is none.
    pub end: u16,
    /// The least slot with an empty entry.
    pub first_empty: Option<u8>,
    /// Whether all entries are empty.
    pub is_vacant: bool,
}

impl Survey {
    /// Looks at each entry of a page.
    pub fn of(page: &Page) -> Self
        requires { IsSlotted page.now }
        ensures { IsSurvey page.now result }
    {
        let mut found = NOTHING;
        for slot in 0..ENTRIES {
            found = found.with(slot, entry(page, slot));
        }
        found
    }

    /// What a walk finds in a page whose entries are all empty.
    pub fn of_blank() -> Self
        ensures { (page : List ℕ) → entries page ≡ replicate page_entries Empty
            → IsSurvey page result }
    {
        Survey {
            first_empty: Some(0),
            ..NOTHING
        }
    }

    /// Looks at each entry of any bytes, if they are a page's and the bodies stand in the order of
    /// their slots.
    pub(crate) fn of_ordered(page: &Page) -> Option<Self>
        ensures ordered { IsSome result ↔ IsOrdered page.now }
        ensures found { IfSome result (IsSurvey page.now) }
    {
        let mut found = NOTHING;
        for slot in 0..ENTRIES {
            let entry = checked_entry(page, slot)?;
            if !entry.stands_from(found.end) {
                return None;
            }
            found = found.with(slot, entry);
        }
        Some(found)
    }

    /// Whether a body of this length fits at a slot, if what the slot holds now is given up. The
    /// page is that of the walk, as it was then.
    pub fn has_room(&self, page: &Page, slot: u8, length: u16) -> bool
        requires slotted { IsSlotted page.now }
        requires slot { slot < page_entries }
        requires found { IsSurvey page.now self.now }
        ensures { IsTrue result ↔ HasRoom (entries page.now) slot length }
    {
        length <= self.free + entry(page, slot).body_length()
    }

    /// Goes on with the entry of the next slot.
    #[inline(always)]
    fn with(self, slot: u8, entry: Entry) -> Self
        requires within { IsWithin entry }
        requires room { length_of entry ≤ self.free }
        ensures { GoesOnWith slot entry self result }
    {
        match entry {
            Entry::Empty => Survey {
                first_empty: Some(self.first_empty.unwrap_or(slot)),
                ..self
            },
            Entry::Here { place, length } => Survey {
                free: self.free - length,
                end: self.end.max(place + length),
                is_vacant: false,
                ..self
            },
            Entry::Forward { .. } => Survey {
                is_vacant: false,
                ..self
            },
        }
    }
}
