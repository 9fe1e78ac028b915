// A table, read from a map area.
ghost use Rattle.std.specs.Prelude.{◌≡◌, ◌⊎◌, ◌+◌, ◌≤◌, List, [], Option, length, min, Err, IfOk};
ghost use Rattle.std.specs.Prelude.{IfErr, OnOk};
ghost use Rattle.rss_base.specs.DiskRule.{Told};
ghost use Rattle.rss_base.specs.Devices.{ReadsStore};
ghost use Rattle.rss_base.specs.Sizes.{map_entries, slots_least, slots_most};
ghost use Rattle.rss_base.specs.Layout.{IsWellFormed, device_pages, IsLayoutFault};
ghost use Rattle.rss_base.specs.PageMap.{IsTable, HasMap, HasMapFault};
ghost use Rattle.rss_base.specs.declared.key.PageKey.{PageKey as Key};
ghost use Rattle.rss_base.specs.declared.place.Place.{Place};
ghost use Rattle.rss_base.specs.declared.fault.OpenFault.TheVariants.{Device as DeviceFailed};
ghost use Rattle.rss_base.specs.declared.fault.OpenFault.TheVariants.{NoMemory as LacksMemory};
ghost use Rattle.rss_base.specs.declared.fault.OpenFault.TheVariants.{NotAStore};
ghost use Rattle.rss_pagemap.specs.Places.{IsSlotPlace};
ghost use Rattle.rss_pagemap.specs.Taking.{IsReading, TakesEntry, RefusesEntry, TakesPage};
ghost use Rattle.rss_pagemap.specs.Taking.{RefusesPage};

use crate::SlotTable;
use crate::entry::{ENTRY_BYTES, Entry, decode};
use rss_base::{
    Device, ENTRIES_OF_PAGE, OpenFault, PAGE_BYTES, Page, PageKey, Place, Root, map_at, map_pages,
};
use std::alloc::Global;
use std::collections::HashSet;

/// Reads the table in the map area of a root. It writes nothing, and takes time and memory in
/// proportion to the number of slots.
pub fn read_table<D: Device>(
    alloc: Global,
    device: &mut D,
    root: &Root,
) -> Result<SlotTable, OpenFault>
    requires formed { IsWellFormed root.now }
    requires size { (D.view device.old).size ≡ device_pages root.now }
    ensures count { IfOk result (λ table. length table ≡ root.now.slots) }
    ensures table { IfOk result IsTable }
    ensures layout { IfErr result IsLayoutFault }

    // It is what the bytes say, and else the place is named at which they are out of form.
    ensures found { IfOk result (λ table. Told (D.view device.old).disk (HasMap root.now table)) }
    ensures only { (owners : List (Option Key)) → Told (D.view device.old).disk (λ pages.
        HasMap root.now owners pages → IfOk result (λ table. table ≡ owners)) }
    ensures fault { (place : Place) → result ≡ Err (NotAStore place)
        → Told (D.view device.old).disk (HasMapFault root.now place) }
    ensures broken { (place : Place) → Told (D.view device.old).disk (λ pages.
        HasMapFault root.now place pages
        → (result ≡ Err (NotAStore place)) ⊎ (result ≡ Err DeviceFailed)
        ⊎ (result ≡ Err LacksMemory)) }
    ensures place { (place : Place) → result ≡ Err (NotAStore place)
        → IsSlotPlace root.now.slots place }
    ensures did { ReadsStore (D.view device.old) (D.view device.new) result }
    ensures size { (D.view device.new).size ≡ (D.view device.old).size }
{
    let first = map_at(root.slots, root.area);
    let mut reading = Reading::new(alloc, root.slots)?;
    let mut page = [0u8; PAGE_BYTES];
    for at in 0..map_pages(root.slots) {
        device.read(first + at, &mut page)?;
        reading.take_page(&page)?;
    }
    Ok(reading.into_table())
}

/// A table, as far as its entries were read.
#[derive(Drop)]
struct Reading {
    slots: u32,
    owners: Vec<Option<PageKey>>,
    /// The pages that have a slot.
    seen: HashSet<PageKey>,
}

impl Reading {
    fn new(alloc: Global, slots: u32) -> Result<Self, OpenFault>
        requires least { slots_least ≤ slots }
        requires most { slots ≤ slots_most }
        ensures reading { IfOk result IsReading }
        ensures slots { IfOk result (λ reading. reading.slots ≡ slots) }
        ensures none { IfOk result (λ reading. reading.owners.items ≡ []) }
        ensures fault { IfErr result (λ fault. fault ≡ LacksMemory) }
    {
        let owners = match Vec::with_capacity(alloc, slots as usize) {
            Ok(owners) => owners,
            Err(_) => return Err(OpenFault::NoMemory),
        };
        Ok(Reading {
            slots,
            owners,
            seen: HashSet::new(alloc),
        })
    }

    /// Takes the entries of the next page.
    fn take_page(&mut self, page: &Page) -> Result<(), OpenFault>
        requires { IsReading self.old }
        ensures reading { OnOk result (IsReading self.new) }
        ensures slots { OnOk result (self.new.slots ≡ self.old.slots) }
        ensures long { OnOk result (length self.new.owners.items
            ≡ min (length self.old.owners.items + map_entries) self.old.slots) }
        ensures taken { OnOk result (TakesPage self.old.slots page.now
            self.old.owners.items self.new.owners.items) }
        ensures refused { IfErr result (RefusesPage self.old.slots page.now self.old.owners.items) }
    {
        for place in 0..ENTRIES_OF_PAGE as usize {
            let mut entry = [0u8; ENTRY_BYTES];
            entry.copy_from_slice(&page[place * ENTRY_BYTES..(place + 1) * ENTRY_BYTES]);
            self.take_entry(&entry)?;
        }
        Ok(())
    }

    /// Takes the next entry, or, after the last one, zeros.
    fn take_entry(&mut self, entry: &Entry) -> Result<(), OpenFault>
        requires { IsReading self.old }
        ensures reading { OnOk result (IsReading self.new) }
        ensures slots { OnOk result (self.new.slots ≡ self.old.slots) }
        ensures taken { OnOk result (TakesEntry self.old.slots entry.now
            self.old.owners.items self.new.owners.items) }
        ensures refused { IfErr result
            (RefusesEntry self.old.slots entry.now self.old.owners.items) }
    {
        let slot = self.owners.len() as u32;
        if slot == self.slots {
            if *entry != [0; ENTRY_BYTES] {
                return Err(OpenFault::NotAStore(Place::Slot(slot)));
            }
            return Ok(());
        }
        let Some(owner) = decode(entry, self.slots) else {
            return Err(OpenFault::NotAStore(Place::Slot(slot)));
        };
        if let Some(key) = owner {
            match self.seen.insert(key) {
                Ok(true) => {}
                Ok(false) => return Err(OpenFault::NotAStore(Place::Slot(slot))),
                Err(_) => return Err(OpenFault::NoMemory),
            }
        }
        self.owners.push_reserved(owner);
        Ok(())
    }

    /// The table, if all its entries were taken.
    fn into_table(self) -> SlotTable
        requires reading { IsReading self }
        requires all { length self.owners.items ≡ self.slots }
        ensures { result ≡ self.owners.items }
    {
        SlotTable::of(self.owners)
    }
}
