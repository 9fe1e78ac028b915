// Pages in memory.
ghost use Rattle.std.proofs.Props.{props};
ghost use Rattle.rss_base.proofs.Props.{IsSegmentOf-prop};
ghost use Rattle.std.specs.Prelude.{◌≡◌, ◌↔◌, ◌+◌, ◌<◌, ◌≤◌, length, true, false, Some, None};
ghost use Rattle.std.specs.Prelude.{IsTrue, IfOk};
ghost use Rattle.rss_base.specs.DiskRule.{IsTold};
ghost use Rattle.rss_base.specs.Notes.{MayDo};
ghost use Rattle.rss_base.specs.PageMap.{IsKey};
ghost use Rattle.rss_base.specs.Sizes.{zero_page, slots_least, slots_most};
ghost use Rattle.rss_base.specs.Paged.{page_key};
ghost use Rattle.rss_base.specs.declared.key.PageKey.{PageKey as Key};
ghost use Rattle.rss_device.specs.MemPages.{ArePlaces, has_key, place_at, stored_in, with_stored, held_in, noted_in};
ghost use Rattle.rss_device.specs.MemPages.{placed_in, free_in, no_device, none_fixed, no_backing};
ghost use Rattle.rss_device.specs.MemPagesLaws.{none_left, none_stays, some_mapped, noted_mapped};
ghost use Rattle.rss_device.specs.MemPagesLaws.{allowed_in, counted_in, few_in, never};

use crate::stored::{Stored, free_place, free_places, image_places, place_of, stored_of};
use rss_base::{PAGE_BYTES, Page, PageFault, PageKey, Pages, Space};
use std::alloc::{AllocError, Global};

/// Pages in memory, for the tests of what stands on pages. There is no device: no call fails, and
/// nothing is fixed. A page is searched for place by place, and no call after `new` takes memory.
/// `copy` is the provided one, by copies of both pages: a page stands in its place among its key and
/// its note, so that no two of them can be lent at once.
#[derive(Drop)]
pub struct MemPages {
    places: Vec<Option<Stored>>,
    reads: u64,
    ghost placed: { ArePlaces places.items } by { Prim.hlevel (props, IsSegmentOf-prop) },
}

impl MemPages {
    /// Room for so many pages, of which none is mapped.
    pub fn new(alloc: Global, slots: u32) -> Result<Self, AllocError>
        requires least { slots_least ≤ slots }
        requires most { slots ≤ slots_most }
        ensures mapped { IfOk result (λ pages. (key : Key)
            → (⟦<MemPages as Pages>⟧.view pages).mapped key ≡ false) }
        ensures notes { IfOk result (λ pages. (key : Key)
            → (⟦<MemPages as Pages>⟧.view pages).notes key ≡ None) }
        ensures spare { IfOk result (λ pages. (⟦<MemPages as Pages>⟧.view pages).spare ≡ slots) }
        ensures slots { IfOk result (λ pages. (⟦<MemPages as Pages>⟧.view pages).slots ≡ slots) }
        ensures asks { IfOk result (λ pages. (⟦<MemPages as Pages>⟧.view pages).asks ≡ 0) }
        ensures writes { IfOk result (λ pages. (⟦<MemPages as Pages>⟧.view pages).writes ≡ 0) }
        ensures faults { IfOk result (λ pages. (⟦<MemPages as Pages>⟧.view pages).faults ≡ 0) }
        ensures told { IfOk result (λ pages. IsTold (⟦<MemPages as Pages>⟧.view pages).disk) }
        ensures settled { IfOk result (λ pages. (⟦<MemPages as Pages>⟧.view pages).settled ≡ true) }
    {
        let places = vec![in alloc; None; slots as usize]?;
        Ok(MemPages { places, reads: 0 })
    }

    /// Gives a free place to a page, with zeros and no note.
    fn map(&mut self, key: PageKey)
        requires allowed { IsKey (length self.old.places.items) key }
        requires unmapped { placed_in self.old.places.items key ≡ false }
        requires room { 0 < free_in self.old.places.items }
        ensures stored { stored_in self.new.places.items
            ≡ with_stored (stored_in self.old.places.items) key
            (Some (record { key = key; page = zero_page; note = None })) }
        ensures free { free_in self.new.places.items + 1 ≡ free_in self.old.places.items }
        ensures count { length self.new.places.items ≡ length self.old.places.items }
        ensures reads { self.new.reads ≡ self.old.reads }
    {
        let Some(at) = free_place(self.places.as_slice()) else {
            unreachable!()
        };
        self.places[at] = Some(Stored {
            key,
            page: [0; PAGE_BYTES],
            note: None,
        });
    }

    /// The place of a page.
    fn place(&self, key: PageKey) -> usize
        requires { placed_in self.now.places.items key ≡ true }
        ensures has { has_key key (place_at self.now.places.items result) ≡ true }
        ensures within { result < length self.now.places.items }
    {
        let Some(at) = place_of(self.places.as_slice(), key) else {
            unreachable!()
        };
        at
    }

    /// Whether the page is mapped, and has no note or one of at least `least`.
    fn may_do(&self, key: PageKey, least: u16) -> bool
        ensures { IsTrue result ↔ MayDo (placed_in self.now.places.items)
            (noted_in self.now.places.items) least key.segment key.space key.number }
    {
        let Some(stored) = stored_of(self.places.as_slice(), key) else {
            return false;
        };
        match stored.note {
            Some(note) => note >= least,
            None => true,
        }
    }
}

impl Pages for MemPages {
    ghost view = { λ m. record {
      disk = no_device;
      slots = length m.places.items;
      mapped = placed_in m.places.items;
      held = held_in m.places.items;
      notes = noted_in m.places.items;
      changed = λ _. false;
      in_memory = placed_in m.places.items;
      spare = free_in m.places.items;
      asks = m.reads;
      writes = 0;
      faults = 0;
      outs = 0;
      fixed = none_fixed;
      settled = true;
      backing = no_backing (length m.places.items);
    } };

    ghost few_slots = { λ m. few_in m.placed };

    ghost reads_as_image = { λ m pages told. none_left pages told };

    ghost stays = { λ m settled told image left. none_stays image left };

    ghost holds = { λ m told key. some_mapped m.places.items key };

    ghost allowed = { λ m key is. allowed_in m.placed key is };

    ghost are_counted = { λ m. counted_in m.placed };

    ghost noted_are = { λ m key noted. noted_mapped m.places.items key noted };

    ghost changed_are = { λ m key is. never is };

    fn slots(&self) -> u32 {
        self.places.len() as u32
    }

    fn spare(&self) -> u32 {
        free_places(self.places.as_slice()) as u32
    }

    fn image_pages(&self) -> u32 {
        image_places(self.places.as_slice()) as u32
    }

    #[tactic(auto, unfolding(crate::specs::MemPages::placed_in))]
    fn has(&self, key: PageKey) -> bool {
        stored_of(self.places.as_slice(), key).is_some()
    }

    fn first_mapped(&self, segment: u8, space: Space, from: u32) -> Option<u32> {
        for number in from..self.slots() {
            if self.has(PageKey {
                segment,
                space,
                number,
            }) {
                return Some(number);
            }
        }
        None
    }

    fn first_unmapped(&self, segment: u8, space: Space, from: u32) -> Option<u32> {
        for number in from..self.slots() {
            if !self.has(PageKey {
                segment,
                space,
                number,
            }) {
                return Some(number);
            }
        }
        None
    }

    fn note(&mut self, key: PageKey, number: u16) {
        let at = self.place(key);
        let Some(stored) = self.places[at] else {
            unreachable!()
        };
        let page = stored.page;
        self.places[at] = Some(Stored {
            key,
            page,
            note: Some(number),
        });
    }

    fn first_noted(&self, segment: u8, space: Space, from: u32, least: u16) -> Option<u32> {
        for number in from..self.slots() {
            let key = PageKey {
                segment,
                space,
                number,
            };
            if self.may_do(key, least) {
                return Some(number);
            }
        }
        None
    }

    fn load(&mut self, _key: PageKey) -> Result<(), PageFault> {
        self.reads = self.reads.saturating_add(1);
        Ok(())
    }

    #[tactic(auto, unfolding(crate::specs::MemPages::placed_in))]
    fn loaded(&self, key: PageKey) -> &Page {
        let Some(stored) = stored_of(self.places.as_slice(), key) else {
            unreachable!()
        };
        &stored.page
    }

    fn read(&mut self, key: PageKey, into: &mut Page) -> Result<(), PageFault> {
        self.load(key)?;
        *into = *self.loaded(key);
        Ok(())
    }

    fn write(&mut self, key: PageKey, from: &Page) -> Result<(), PageFault> {
        let at = self.place(key);
        self.places[at] = Some(Stored {
            key,
            page: *from,
            note: None,
        });
        Ok(())
    }

    fn take(&mut self, segment: u8, space: Space) -> Result<u32, PageFault> {
        let Some(number) = self.first_unmapped(segment, space, 0) else {
            unreachable!()
        };
        self.map(PageKey {
            segment,
            space,
            number,
        });
        Ok(number)
    }

    fn take_at(&mut self, key: PageKey) -> Result<(), PageFault> {
        self.map(key);
        Ok(())
    }

    fn give(&mut self, key: PageKey) -> Result<(), PageFault> {
        let at = self.place(key);
        self.places[at] = None;
        Ok(())
    }
}
