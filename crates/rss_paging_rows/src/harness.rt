// Devices with roots, and calls that are made only where they may be.
ghost use Rattle.std.specs.Prelude.{◌*◌, ◌≤◌, length, IsTrue};
ghost use Rattle.rss_base.specs.PageMap.{page_count};

use rss_base::{Device, Failed, OpenFault, Page, PageKey, Root, Space, Tail, VERSION, map_pages};
use rss_device::MemDevice;
use rss_images::filled_pages;
use rss_pagemap::{SlotTable, read_table};
use rss_root::{encode, load, switch};
use rss_shadow::Shadow;
use std::alloc::Global;
use std::test::Fail;

/// The first root of a store with 8 log pages: the log ends after its first record, a Checkpoint of
/// two bytes.
pub(crate) fn first_root(slots: u32, area: u8) -> Root {
    Root {
        version: VERSION,
        slots,
        log_pages: 8,
        area,
        head: 0,
        checkpoint: 0,
        end: 2,
        tail: Tail::from_slice(b"\x09\0"),
    }
}

/// So many pages. The selector names root 1, which is this one, and all others are zeros.
pub(crate) fn pages_with_root(alloc: Global, pages: usize, root: &Root) -> Result<Vec<Page>, Fail> {
    let mut all = filled_pages(alloc, pages, 0)?;
    if let Some(page) = all.get_mut(1) {
        *page = encode(root);
    }
    Ok(all)
}

/// How many pages the device of a store of 64 slots and 8 log pages has.
pub(crate) const SMALL_PAGES: usize = 77;

/// The pages of such a store with its first root.
pub(crate) fn small_store(alloc: Global) -> Result<Vec<Page>, Fail> {
    pages_with_root(alloc, SMALL_PAGES, &first_root(64, 0))
}

/// Puts an entry of a map into pages: the one at this place of this page.
pub(crate) fn put_entry(
    pages: &mut [Page],
    at: usize,
    place: usize,
    entry: [u8; 8],
) -> Result<(), Fail> {
    let page = pages.get_mut(at).ok_or("a page that isn't there")?;
    let first = place % 512 * 8;
    page[first..first + 8].copy_from_slice(&entry);
    Ok(())
}

/// The bytes of a page that aren't 0, from a place on.
pub(crate) fn others_from(
    alloc: Global,
    page: &Page,
    first: usize,
) -> Result<Vec<(usize, u8)>, Fail> {
    let mut others = Vec::new(alloc);
    for (at, byte) in page.iter().enumerate() {
        if at >= first && *byte != 0 {
            others.push((at, *byte))?;
        }
    }
    Ok(others)
}

/// A page of a device.
pub(crate) fn page_at(device: &MemDevice, at: usize) -> Result<Page, Fail> {
    match device.pages().get(at) {
        Some(page) => Ok(*page),
        None => Err("a page that isn't there".into()),
    }
}

/// Switches a device to a root, if the device has the pages of the roots and the number is that of
/// one.
pub(crate) fn switch_from(
    device: &mut MemDevice,
    valid: u8,
    root: &Root,
) -> Result<Result<u8, Failed>, Fail> {
    if device.pages().len() < 3 || valid < 1 || valid > 2 {
        return Err("no such root".into());
    }
    Ok(switch(device, valid, root))
}

/// Reads the table of the selected root.
pub(crate) fn load_table<D: Device>(alloc: Global, device: &mut D) -> Result<SlotTable, OpenFault> {
    let (root, _) = load(device)?;
    read_table(alloc, device, &root)
}

/// Writes a table to an area, if the device has the pages of both.
pub(crate) fn write_to(
    device: &mut MemDevice,
    table: &SlotTable,
    area: u8,
) -> Result<Result<(), Failed>, Fail> {
    let needed = 3 + 2 * map_pages(table.slots());
    if (device.pages().len() as u64) < needed || area > 1 {
        return Err("no such area".into());
    }
    Ok(table.write_table(device, area))
}

/// The maps of a store of so many slots, all free.
pub(crate) fn no_pages(alloc: Global, slots: u32) -> Result<Shadow, Fail> {
    if slots < 64 || slots > 65_536 {
        return Err("no such table".into());
    }
    let table = SlotTable::new(alloc, slots)?;
    shadow_of(alloc, table)
}

/// Whether half of the slots or fewer have pages.
pub(crate) fn is_half_free(table: &SlotTable) -> bool
    ensures { IsTrue result → 2 * page_count table.now ≤ length table.now }
{
    let owned = table
        .as_slice()
        .iter()
        .filter(|owner| owner.is_some())
        .count();
    2 * owned <= table.as_slice().len()
}

/// The maps of a store whose table has pages in half of its slots or fewer.
pub(crate) fn shadow_of(alloc: Global, table: SlotTable) -> Result<Shadow, Fail> {
    if !is_half_free(&table) {
        return Err("too many pages".into());
    }
    Ok(Shadow::new(alloc, table)?)
}

pub(crate) fn key_of(segment: u8, space: Space, number: u32) -> PageKey {
    PageKey {
        segment,
        space,
        number,
    }
}

pub(crate) fn home(segment: u8, number: u32) -> PageKey {
    key_of(segment, Space::Home, number)
}

/// The two maps of a store. What asks for something of them is done if it may be done.
pub(crate) trait Maps {
    fn counts(&self) -> Counts;

    fn slot_of(&self, key: PageKey) -> Option<u32>;

    /// The first mapped page of a segment and a space, from a number on, and the first unmapped one.
    fn try_firsts(&self, segment: u8, space: Space, from: u32) -> Result<Firsts, Fail>;

    /// Whether a slot has a page.
    fn is_owned(&self, slot: u32) -> Result<bool, Fail>;

    fn try_take(&mut self, segment: u8, space: Space) -> Result<u32, Fail>;

    fn try_take_at(&mut self, key: PageKey) -> Result<(), Fail>;

    fn try_give(&mut self, key: PageKey) -> Result<(), Fail>;

    /// The slot to which a page is to be written.
    fn try_first_write(&mut self, key: PageKey) -> Result<u32, Fail>;

    /// Makes the current map the shadow map.
    fn try_adopt(&mut self) -> Result<(), Fail>;
}

/// How many pages can be taken, how many the current map has, and how many of these are heap pages.
#[derive(Clone, Copy, Debug, PartialEq, Eq)]
pub(crate) struct Counts {
    pub(crate) spare: u32,
    pub(crate) mapped: u32,
    pub(crate) heap: u32,
}

/// The first page that is mapped, and the first that isn't, if there is one.
#[derive(Clone, Copy, Debug, PartialEq, Eq)]
pub(crate) struct Firsts {
    pub(crate) mapped: Option<u32>,
    pub(crate) unmapped: Option<u32>,
}

impl Maps for Shadow {
    fn counts(&self) -> Counts {
        Counts {
            spare: self.spare(),
            mapped: self.mapped(),
            heap: self.heap(),
        }
    }

    fn slot_of(&self, key: PageKey) -> Option<u32> {
        Shadow::slot_of(self, key)
    }

    fn try_firsts(&self, segment: u8, space: Space, from: u32) -> Result<Firsts, Fail> {
        if segment < 1 || segment > 8 || space == Space::System {
            return Err("no segment has such pages".into());
        }
        Ok(Firsts {
            mapped: self.first_mapped(segment, space, from),
            unmapped: self.first_unmapped(segment, space, from),
        })
    }

    fn is_owned(&self, slot: u32) -> Result<bool, Fail> {
        match self.current().as_slice().get(slot as usize) {
            Some(owner) => Ok(owner.is_some()),
            None => Err("a slot that isn't there".into()),
        }
    }

    fn try_take(&mut self, segment: u8, space: Space) -> Result<u32, Fail> {
        if self.spare() == 0 || segment < 1 || segment > 8 || space == Space::System {
            return Err("no page can be taken".into());
        }
        Ok(self.take(segment, space))
    }

    fn try_take_at(&mut self, key: PageKey) -> Result<(), Fail> {
        if self.spare() == 0
            || !key.is_allowed(self.current().slots())
            || Shadow::slot_of(self, key).is_some()
        {
            return Err("the page can't be taken".into());
        }
        self.take_at(key);
        Ok(())
    }

    fn try_give(&mut self, key: PageKey) -> Result<(), Fail> {
        let Some(_) = Shadow::slot_of(self, key) else {
            return Err("the page isn't mapped".into());
        };
        self.give(key);
        Ok(())
    }

    fn try_first_write(&mut self, key: PageKey) -> Result<u32, Fail> {
        let Some(_) = Shadow::slot_of(self, key) else {
            return Err("the page isn't mapped".into());
        };
        Ok(self.first_write(key))
    }

    fn try_adopt(&mut self) -> Result<(), Fail> {
        if self.mapped() > self.current().slots() / 2 {
            return Err("too many pages".into());
        }
        self.adopt();
        Ok(())
    }
}
