// A table, written to a map area.
ghost use Rattle.std.specs.Prelude.{◌≡◌, ◌+◌, ◌*◌, ◌/◌, ◌<◌, ◌≤◌, length, OnOk};
ghost use Rattle.rss_base.specs.DiskRule.{Told};
ghost use Rattle.rss_base.specs.Devices.{WritesPages};
ghost use Rattle.rss_base.specs.Sizes.{map_entries, slots_most};
ghost use Rattle.rss_base.specs.Layout.{map_pages, map_at, log_at, IsAreaPage};
ghost use Rattle.rss_base.specs.PageMap.{owner_of, entry_bytes, HoldsMap};
ghost use Rattle.rss_pagemap.specs.Spelling.{HasEntries, HasPages};

use crate::SlotTable;
use crate::entry::{ENTRY_BYTES, Entry, encode};
use rss_base::{
    Device, ENTRIES_OF_PAGE, Failed, PAGE_BYTES, Page, RUN_PAGES, map_at, map_pages, put_bytes,
};

impl SlotTable {
    /// Writes the table to a map area, 0 or 1, and no other page. It is sure to outlast a stop only
    /// after the next sync: until then a stop may leave any bytes in the pages of the area.
    pub fn write_table<D: Device>(&self, device: &mut D, area: u8) -> Result<(), Failed>
        requires area { area < 2 }
        requires size { log_at (length self.now) ≤ (D.view device.old).size }
        ensures written { OnOk result (Told (D.view device.old).disk (λ pages.
            HoldsMap pages (map_at (length self.now) area) self.now
            (D.view device.new).disk.contents)) }
        ensures did { WritesPages (IsAreaPage (length self.now) area) (map_pages (length self.now))
            (D.view device.old) (D.view device.new) result }
    {
        let slots = self.slots();
        let first = map_at(slots, area);
        let pages = map_pages(slots);
        let mut buffer = [[0u8; PAGE_BYTES]; RUN_PAGES];
        let mut done = 0u64;
        while done < pages {
            let count = (pages - done).min(RUN_PAGES as u64);
            let run = &mut buffer[..count as usize];
            self.fill_run(done as u32, run);
            device.write_run(first + done, run)?;
            done += count;
        }
        Ok(())
    }

    /// Fills pages with those of the map area, from this one on.
    fn fill_run(&self, at: u32, run: &mut [Page])
        requires { at + length run.old ≤ slots_most / map_entries }
        ensures { HasPages self.now at (length run.new) run.new }
    {
        for (place, page) in run.iter_mut().enumerate() {
            self.fill_page(at + place as u32, page);
        }
    }

    /// Fills a page with the entries of its slots, and zeros after the last one.
    fn fill_page(&self, at: u32, page: &mut Page)
        requires { at < slots_most / map_entries }
        ensures { HasEntries self.now (map_entries * at) map_entries page.new }
    {
        let first = at * ENTRIES_OF_PAGE;
        for place in 0..ENTRIES_OF_PAGE {
            let entry = self.entry(first + place);
            put_bytes(page, place as usize * ENTRY_BYTES, &entry);
        }
    }

    /// The entry of a slot, or zeros after the last one.
    fn entry(&self, slot: u32) -> Entry
        ensures { result ≡ entry_bytes (owner_of self.now slot) }
    {
        if slot < self.slots() {
            encode(self.owner(slot))
        } else {
            [0; ENTRY_BYTES]
        }
    }
}
