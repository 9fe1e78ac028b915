// The current map and the shadow map.
ghost use Rattle.std.specs.Prelude.{◌≡◌, ◌≢◌, ◌+◌, ◌*◌, ◌<◌, ◌≤◌, ℕ, ◌&&◌, if◌then◌else◌, length};
ghost use Rattle.std.specs.Prelude.{slice_index_or, true, None, Some, is_some, IfOk, IfSome};
ghost use Rattle.std.specs.Prelude.{IfNone};
ghost use Rattle.rss_base.specs.Sizes.{slots_most, segments};
ghost use Rattle.rss_base.specs.PageMap.{IsKey, owner_of, page_count};
ghost use Rattle.rss_base.specs.declared.key.Space.TheVariants.{System, Image};
ghost use Rattle.rss_base.specs.Paged.{page_key, mapped_of, IsMappedAt, IsUnmappedAt, IsFirstFrom, NoneFrom};
ghost use Rattle.rss_base.specs.StoredPages.{mapped_by};
ghost use Rattle.rss_shadow.specs.Maps.{AreMaps, is_heap_space, is_image_space, heap_pages_of, spare};
ghost use Rattle.rss_shadow.specs.Maps.{HasPage, LacksPage, GainsPage, LosesPage, MovesPage, IsLeastLacking};

use crate::index::PageIndex;
use crate::numbers::NumberSet;
use rss_base::{PageKey, Space};
use rss_pagemap::SlotTable;
use std::alloc::{AllocError, Global};
use std::marker::Model;

/// The map of a store as it is now, and its shadow: the map as it was last saved.
///
/// A slot that the shadow map uses is never given to another page, so whatever is written to the
/// slots of changed pages, a stop still finds the saved pages. There is always a slot for a page
/// that is to be changed, as long as the pages of both maps together are no more than the slots.
/// After `new` no call takes memory, and each takes constant time but `adopt`, whose time grows
/// with the number of slots.
#[derive(Drop)]
pub struct Shadow {
    current: SlotTable,
    /// The page of each slot when the map was last saved.
    shadow: Vec<Option<PageKey>>,
    /// The slots of the current map's pages.
    index: PageIndex,
    /// The slots that either map uses.
    used: NumberSet,
    /// How many pages the current map has.
    pages: u32,
    /// How many of them are home and overflow pages.
    heap: u32,
    /// How many of them are pages of images.
    images: u32,
    /// How many pages the shadow map has.
    shadow_pages: u32,
}

impl Model for Shadow {
    ghost use Rattle.rss_shadow.specs.Maps.{Maps};
    ghost use Rattle.rss_shadow.specs.Shadow.{IsShadow};

    ghost Value = { Maps };

    ghost view = { λ s. record { current = s.current; shadow = s.shadow.items } };

    ghost invariant = { λ s. IsShadow (record { current = s.current; shadow = s.shadow.items })
        s.index s.used s.pages s.heap s.images s.shadow_pages };
}

impl Shadow {
    /// Both maps are this one, as after it was saved.
    pub fn new(alloc: Global, table: SlotTable) -> Result<Self, AllocError>
        requires { 2 * page_count table ≤ length table }
        ensures { IfOk result (λ maps. maps ≡ record { current = table; shadow = table }) }
    {
        let slots = table.slots();
        let shadow = Vec::from_slice(alloc, table.as_slice())?;
        let mut index = PageIndex::new(alloc, slots)?;
        let mut used = NumberSet::new(alloc, slots)?;
        let mut pages = 0;
        let mut heap = 0;
        let mut images = 0;
        for (slot, owner) in table.as_slice().iter().enumerate() {
            if let Some(key) = owner {
                index.put(*key, slot as u16);
                used.insert(slot as u32);
                pages += 1;
                heap += heap_pages(key.space);
                images += image_pages(key.space);
            }
        }
        Ok(Shadow {
            current: table,
            shadow,
            index,
            used,
            pages,
            heap,
            images,
            shadow_pages: pages,
        })
    }

    /// The slot of a page, if the current map has it.
    pub fn slot_of(&self, key: PageKey) -> Option<u32>
        ensures some { IfSome result (λ slot. owner_of self.now.current slot ≡ Some key) }
        ensures none { IfNone result (LacksPage self.now.current key) }
    {
        if key.is_allowed(self.current.slots()) {
            self.index.slot(key).map(u32::from)
        } else {
            None
        }
    }

    /// The slot to which a page is to be written: the one that it has, or, if the shadow map uses
    /// that one, a free slot, which the page has from now on.
    pub fn first_write(&mut self, key: PageKey) -> u32
        requires { HasPage self.old.current key }
        ensures moves { MovesPage self.old self.new key result }
        ensures outside { owner_of self.new.shadow result ≡ None }
        ensures spare { spare self.new ≡ spare self.old }
    {
        let Some(from) = self.index.slot(key) else {
            unreachable!()
        };
        if self.shadow[usize::from(from)].is_none() {
            return u32::from(from);
        }
        let Some(to) = self.used.first_absent(0) else {
            unreachable!()
        };
        self.current.set(u32::from(from), None);
        self.current.set(to, Some(key));
        self.index.put(key, to as u16);
        self.used.insert(to);
        to
    }

    /// The first number from this one on, of a segment and a space, whose page is mapped.
    pub fn first_mapped(&self, segment: u8, space: Space, from: u32) -> Option<u32>
        requires low { 1 ≤ segment }
        requires high { segment ≤ segments }
        requires space { space ≢ System }
        ensures some { IfSome result (IsFirstFrom
            (IsMappedAt (mapped_by self.now.current) segment space) from) }
        ensures none { IfNone result (NoneFrom
            (IsMappedAt (mapped_by self.now.current) segment space) from) }
    {
        self.index.first_mapped(segment, space, from)
    }

    /// The first number from this one on, below the number of slots, whose page isn't mapped.
    pub fn first_unmapped(&self, segment: u8, space: Space, from: u32) -> Option<u32>
        requires low { 1 ≤ segment }
        requires high { segment ≤ segments }
        requires space { space ≢ System }
        ensures some { IfSome result (IsFirstFrom
            (IsUnmappedAt (length self.now.current) (mapped_by self.now.current) segment space)
            from) }
        ensures none { IfNone result (NoneFrom
            (IsUnmappedAt (length self.now.current) (mapped_by self.now.current) segment space)
            from) }
    {
        self.index.first_unmapped(segment, space, from)
    }

    /// Maps the least page of a segment and a space that isn't mapped, and answers its number.
    pub fn take(&mut self, segment: u8, space: Space) -> u32
        requires low { 1 ≤ segment }
        requires high { segment ≤ segments }
        requires space { space ≢ System }
        requires room { 0 < spare self.old }
        ensures least { IsLeastLacking self.old.current segment space result }
        ensures gains { GainsPage self.old self.new (page_key segment space result) }
        ensures spare { spare self.new + 1 ≡ spare self.old }
    {
        let Some(number) = self.index.least_free(segment, space) else {
            unreachable!()
        };
        self.take_at(PageKey {
            segment,
            space,
            number,
        });
        number
    }

    /// Maps this page.
    pub fn take_at(&mut self, key: PageKey)
        requires allowed { IsKey (length self.old.current) key }
        requires lacking { LacksPage self.old.current key }
        requires room { 0 < spare self.old }
        ensures gains { GainsPage self.old self.new key }
        ensures spare { spare self.new + 1 ≡ spare self.old }
    {
        let Some(slot) = self.used.first_absent(0) else {
            unreachable!()
        };
        self.current.set(slot, Some(key));
        self.index.put(key, slot as u16);
        self.used.insert(slot);
        self.pages += 1;
        self.heap += heap_pages(key.space);
        self.images += image_pages(key.space);
    }

    /// Unmaps a page. Its slot is free from now on, unless the shadow map uses it.
    pub fn give(&mut self, key: PageKey)
        requires { HasPage self.old.current key }
        ensures loses { LosesPage self.old self.new key }
        ensures spare { spare self.new ≡ spare self.old + 1 }
    {
        let Some(slot) = self.index.slot(key) else {
            unreachable!()
        };
        self.current.set(u32::from(slot), None);
        self.index.clear(key);
        self.pages -= 1;
        self.heap -= heap_pages(key.space);
        self.images -= image_pages(key.space);
        if self.shadow[usize::from(slot)].is_none() {
            self.used.remove(u32::from(slot));
        }
    }

    /// Makes the current map the shadow map, once it is saved. The slots that only the old shadow
    /// map used are free from now on.
    pub fn adopt(&mut self)
        requires { 2 * page_count self.old.current ≤ length self.old.current }
        ensures { self.new ≡ record { current = self.old.current; shadow = self.old.current } }
    {
        let owners = self.current.as_slice();
        self.shadow.copy_from_slice(owners);
        remove_unowned(&mut self.used, owners);
        self.shadow_pages = self.pages;
    }

    /// The current map, as the table that is saved.
    pub fn current(&self) -> &SlotTable
        ensures current { result.now ≡ self.now.current }
        ensures maps { AreMaps self.now }
    {
        &self.current
    }

    /// How many pages can be taken: the slots less the pages of the shadow map less those of the
    /// current map.
    pub fn spare(&self) -> u32
        ensures { result ≡ spare self.now }
    {
        self.current.slots() - self.shadow_pages - self.pages
    }

    /// How many pages the current map has.
    pub fn mapped(&self) -> u32
        ensures { result ≡ page_count self.now.current }
    {
        self.pages
    }

    /// How many home and overflow pages the current map has.
    pub fn heap(&self) -> u32
        ensures { result ≡ heap_pages_of self.now.current }
    {
        self.heap
    }

    /// How many pages of images the current map has.
    pub fn image_pages(&self) -> u32
        ensures { result ≡ mapped_of (mapped_by self.now.current) Image (length self.now.current) }
    {
        self.images
    }
}

/// Takes each slot out of the set that has no owner.
fn remove_unowned(used: &mut NumberSet, owners: &[Option<PageKey>])
    requires count { length used.old ≡ length owners.now }
    requires few { length owners.now ≤ slots_most }
    ensures count { length used.new ≡ length used.old }
    ensures left { (slot : ℕ) → slot < length owners.now
        → slice_index_or used.new slot true
        ≡ (is_some (owner_of owners.now slot) && slice_index_or used.old slot true) }
{
    for (slot, owner) in owners.iter().enumerate() {
        if owner.is_none() {
            used.remove(slot as u32);
        }
    }
}

/// 1 for the spaces whose pages are counted as heap, otherwise 0.
fn heap_pages(space: Space) -> u32
    ensures { result ≡ (if is_heap_space space then 1 else 0) }
{
    match space {
        Space::Home | Space::Overflow => 1,
        Space::Image | Space::System => 0,
    }
}

/// 1 for the space of images, otherwise 0.
fn image_pages(space: Space) -> u32
    ensures { result ≡ (if is_image_space space then 1 else 0) }
{
    match space {
        Space::Image => 1,
        Space::Home | Space::Overflow | Space::System => 0,
    }
}
