// Maps, as bytes and on a device.
use crate::harness::{
    first_root, key_of, load_table, others_from, page_at, pages_with_root, put_entry, small_store,
    switch_from, write_to,
};
use rss_base::{Device, Failed, OpenFault, Page, PageKey, Place, Space};
use rss_device::MemDevice;
use rss_images::{assert_same, assert_same_slices, failing_at, filled_pages, turn};
use rss_pagemap::SlotTable;
use std::alloc::Global;
use std::test::Fail;

type Entry = [u8; 8];

/// The page of the system space that has the greatest number.
const LAST_SYSTEM: PageKey = PageKey {
    segment: 0,
    space: Space::System,
    number: 9,
};

/// The pages of both map areas, and their bytes that aren't 0, by their places, if slot 9 has that
/// page in area 0.
const AREAS: [(usize, &[(usize, u8)]); 2] = [(3, &[(72, 4), (79, 9)]), (4, &[])];

/// The entry of slot 0 in the tests of single entries: home page 0 of segment 1.
const FIRST: Entry = [1, 1, 0, 0, 0, 0, 0, 0];

/// Entries of a map of 64 slots, and the pages that they spell by segment, space and number.
const SOUND: [(Entry, Option<(u8, Space, u32)>); 5] = [
    ([0, 0, 0, 0, 0, 0, 0, 0], None),
    ([1, 8, 0, 0, 0, 0, 0, 63], Some((8, Space::Home, 63))),
    ([2, 1, 0, 0, 0, 0, 0, 0], Some((1, Space::Overflow, 0))),
    ([3, 1, 0, 0, 0, 0, 0, 0], Some((1, Space::Image, 0))),
    ([4, 0, 0, 0, 0, 0, 0, 9], Some((0, Space::System, 9))),
];

/// Entries that are none, in a map of 64 slots.
const WRONG: [(&str, Entry); 12] = [
    ("space 5", [5, 1, 0, 0, 0, 0, 0, 1]),
    ("segment 0", [1, 0, 0, 0, 0, 0, 0, 1]),
    ("segment 9", [3, 9, 0, 0, 0, 0, 0, 1]),
    ("a system page with a segment", [4, 1, 0, 0, 0, 0, 0, 1]),
    ("number 64", [2, 1, 0, 0, 0, 0, 0, 64]),
    ("number 2 ^ 24", [1, 1, 0, 0, 1, 0, 0, 0]),
    ("system number 10", [4, 0, 0, 0, 0, 0, 0, 10]),
    ("the third byte", [1, 1, 1, 0, 0, 0, 0, 1]),
    ("the fourth byte", [1, 1, 0, 1, 0, 0, 0, 1]),
    ("a free slot with a number", [0, 0, 0, 0, 0, 0, 0, 1]),
    ("a free slot with a segment", [0, 1, 0, 0, 0, 0, 0, 0]),
    ("the page of slot 0", FIRST),
];

/// The slots in which they are put.
const SLOTS: [u32; 3] = [1, 9, 63];

/// Entries of the second page of a map area of 513 slots, by their places there, and why the map
/// can't be read.
const IN_SECOND: [(usize, Entry, Option<OpenFault>); 5] = [
    (0, [1, 1, 0, 0, 0, 0, 2, 0], None),
    (
        0,
        [1, 1, 0, 0, 0, 0, 2, 1],
        Some(OpenFault::NotAStore(Place::Slot(512))),
    ),
    (0, FIRST, Some(OpenFault::NotAStore(Place::Slot(512)))),
    (
        1,
        [1, 1, 0, 0, 0, 0, 2, 0],
        Some(OpenFault::NotAStore(Place::Slot(513))),
    ),
    (
        511,
        [0, 0, 0, 0, 0, 0, 0, 1],
        Some(OpenFault::NotAStore(Place::Slot(513))),
    ),
];

/// The bytes of a page of the device that aren't 0.
fn bytes_at(alloc: Global, device: &MemDevice, at: usize) -> Result<Vec<(usize, u8)>, Fail> {
    others_from(alloc, &page_at(device, at)?, 0)
}

/// The device of a store of 64 slots whose slot 0 has a page, and another slot this entry.
fn device_with(alloc: Global, slot: u32, entry: Entry) -> Result<MemDevice, Fail> {
    let mut pages = small_store(alloc)?;
    put_entry(pages.as_mut_slice(), 3, 0, FIRST)?;
    put_entry(pages.as_mut_slice(), 3, slot as usize, entry)?;
    Ok(MemDevice::new(alloc, pages)?)
}

/// The same device, but that only slot 0 has an entry, and a byte of the map area isn't 0.
fn device_with_byte(alloc: Global, offset: usize) -> Result<MemDevice, Fail> {
    let mut pages = small_store(alloc)?;
    put_entry(pages.as_mut_slice(), 3, 0, FIRST)?;
    turn(pages.as_mut_slice(), 3, offset, 1)?;
    Ok(MemDevice::new(alloc, pages)?)
}

/// The device of a store of 513 slots whose slot 0 has a page, and an entry at this place of the
/// second page of its map area.
fn device_of_513(alloc: Global, place: usize, entry: Entry) -> Result<MemDevice, Fail> {
    let mut pages = pages_with_root(alloc, 528, &first_root(513, 0))?;
    put_entry(pages.as_mut_slice(), 3, 0, FIRST)?;
    put_entry(pages.as_mut_slice(), 4, place, entry)?;
    Ok(MemDevice::new(alloc, pages)?)
}

/// Why the table of a device can't be read.
fn fault_of<D: Device>(alloc: Global, device: &mut D) -> Option<OpenFault> {
    load_table(alloc, device).err()
}

/// Which page has a slot in the table of a device.
fn owner_on<D: Device>(alloc: Global, device: &mut D, slot: u32) -> Result<Option<PageKey>, Fail> {
    let table = load_table(alloc, device)?;
    match table.as_slice().get(slot as usize) {
        Some(owner) => Ok(*owner),
        None => Err("a slot that isn't there".into()),
    }
}

/// How an entry is read in a slot.
fn owner_by(alloc: Global, slot: u32, entry: Entry) -> Result<Option<PageKey>, Fail> {
    let mut device = device_with(alloc, slot, entry)?;
    owner_on(alloc, &mut device, slot)
}

/// Why an entry can't be read in a slot.
fn fault_by(alloc: Global, slot: u32, entry: Entry) -> Result<Option<OpenFault>, Fail> {
    let mut device = device_with(alloc, slot, entry)?;
    Ok(fault_of(alloc, &mut device))
}

/// Why a map area with a byte after its entries can't be read.
fn fault_by_byte(alloc: Global, offset: usize) -> Result<Option<OpenFault>, Fail> {
    let mut device = device_with_byte(alloc, offset)?;
    Ok(fault_of(alloc, &mut device))
}

/// Why an entry in the second page of a map area can't be read.
fn fault_in_second(alloc: Global, place: usize, entry: Entry) -> Result<Option<OpenFault>, Fail> {
    let mut device = device_of_513(alloc, place, entry)?;
    Ok(fault_of(alloc, &mut device))
}

/// A table of 64 slots of which slot 9 has the last page of the system space.
fn table_of_last_system(alloc: Global) -> Result<SlotTable, Fail> {
    let mut table = SlotTable::new(alloc, 64)?;
    table.set(9, Some(LAST_SYSTEM));
    Ok(table)
}

/// The device of a store of 64 slots with this table in area 0.
fn device_of(alloc: Global, table: &SlotTable) -> Result<MemDevice, Fail> {
    let mut device = MemDevice::new(alloc, small_store(alloc)?)?;
    write_to(&mut device, table, 0)??;
    Ok(device)
}

/// Both areas of a device on which a table was written to area 0.
fn assert_areas(alloc: Global, table: &SlotTable) -> Result<(), Fail> {
    let device = device_of(alloc, table)?;
    for (at, want) in &AREAS {
        let bytes = bytes_at(alloc, &device, *at)?;
        assert_same_slices(bytes.as_slice(), want, ("page", *at))?;
    }
    Ok(())
}

/// An entry is read as its page in each of the slots.
fn assert_sound(alloc: Global, entry: Entry, want: Option<PageKey>) -> Result<(), Fail> {
    for slot in &SLOTS {
        let owner = owner_by(alloc, *slot, entry)?;
        assert_same(&owner, &want, (entry, "in slot", *slot))?;
    }
    Ok(())
}

/// An entry is named by its slot in each of the slots.
fn assert_wrong(alloc: Global, name: &str, entry: Entry) -> Result<(), Fail> {
    for slot in &SLOTS {
        let fault = fault_by(alloc, *slot, entry)?;
        let want = Some(OpenFault::NotAStore(Place::Slot(*slot)));
        assert_same(&fault, &want, (name, "in slot", *slot))?;
    }
    Ok(())
}

/// The calls of a device whose areas have 20 pages each, and what a write of a table answers if one
/// fails: the first writes 16 pages, the second four. There is no third call.
const WRITE_CALLS: [(u64, Result<(), Failed>); 3] = [
    (0, Err(Failed)),
    (1, Err(Failed)),
    (2, Ok(())),
];

/// A device of 43 pages of which this call fails.
fn two_areas(alloc: Global, call: u64) -> Result<MemDevice, Fail> {
    let device = MemDevice::new(alloc, filled_pages(alloc, 43, 0)?)?;
    Ok(failing_at(alloc, device, call)?)
}

/// Writes a table to a device of which this call fails.
fn write_failing(alloc: Global, table: &SlotTable, call: u64) -> Result<Result<(), Failed>, Fail> {
    let mut device = two_areas(alloc, call)?;
    write_to(&mut device, table, 1)
}

fn assert_write_calls(alloc: Global, table: &SlotTable) -> Result<(), Fail> {
    for (call, want) in &WRITE_CALLS {
        let written = write_failing(alloc, table, *call)?;
        assert_same(&written, want, ("call", *call))?;
    }
    Ok(())
}

#[test]
fn a_new_table_is_free(rt: HostRuntime) -> Result<(), Fail> {
    let table = SlotTable::new(rt.alloc(), 64)?;
    assert_same(&table.slots(), &64, "how many slots")?;
    assert_same_slices(table.as_slice(), &[None; 64], "the slots")?;
    Ok(())
}

#[test]
fn an_entry_has_the_bytes_of_its_format(rt: HostRuntime) -> Result<(), Fail> {
    let table = table_of_last_system(rt.alloc())?;
    assert_areas(rt.alloc(), &table)
}

#[test]
fn a_sound_entry_is_read_as_its_page(rt: HostRuntime) -> Result<(), Fail> {
    for (entry, want) in &SOUND {
        let want = want.map(|(segment, space, number)| key_of(segment, space, number));
        assert_sound(rt.alloc(), *entry, want)?;
    }
    Ok(())
}

#[test]
fn each_entry_turned_wrong_is_named(rt: HostRuntime) -> Result<(), Fail> {
    for (name, entry) in &WRONG {
        assert_wrong(rt.alloc(), name, *entry)?;
    }
    Ok(())
}

#[test]
fn bytes_behind_the_last_entry_are_named(rt: HostRuntime) -> Result<(), Fail> {
    let want = Some(OpenFault::NotAStore(Place::Slot(64)));
    for offset in &[512, 4095] {
        let fault = fault_by_byte(rt.alloc(), *offset)?;
        assert_same(&fault, &want, ("byte", *offset))?;
    }
    Ok(())
}

#[test]
fn a_failed_read_of_a_table_is_a_device_fault(rt: HostRuntime) -> Result<(), Fail> {
    let device = device_with(rt.alloc(), 1, [0; 8])?;
    // The call behind the four of the root's.
    let mut device = failing_at(rt.alloc(), device, 4)?;
    let fault = fault_of(rt.alloc(), &mut device);
    assert_same(&fault, &Some(OpenFault::Device), "the fifth call")?;
    Ok(())
}

#[test]
fn a_failed_write_of_a_table_is_a_failure(rt: HostRuntime) -> Result<(), Fail> {
    let table = SlotTable::new(rt.alloc(), 10_000)?;
    assert_write_calls(rt.alloc(), &table)
}

#[test]
fn the_second_page_of_an_area_goes_on_behind_the_first(rt: HostRuntime) -> Result<(), Fail> {
    for (place, entry, want) in &IN_SECOND {
        let fault = fault_in_second(rt.alloc(), *place, *entry)?;
        assert_same(&fault, want, (*entry, "at place", *place))?;
    }
    Ok(())
}

// ---- a table of the greatest size

/// How many slots it has, in 128 pages of each area, the last of them, and how many pages its device
/// has.
const MOST: u32 = 65_536;

const LAST: u32 = 65_535;

const MOST_PAGES: usize = 65_803;

/// The page of a slot in the largest table: every third slot has one, of all spaces and segments in
/// turn.
fn owner_in_turn(slot: u32) -> Option<PageKey> {
    if slot % 3 != 0 {
        return None;
    }
    let turn = slot / 3;
    Some(PageKey {
        segment: 1 + (turn % 8) as u8,
        space: match turn / 8 % 3 {
            0 => Space::Home,
            1 => Space::Overflow,
            _ => Space::Image,
        },
        number: LAST.saturating_sub(slot),
    })
}

/// Its entry.
fn entry_in_turn(slot: u32) -> Entry {
    if slot % 3 != 0 {
        return [0; 8];
    }
    let turn = slot / 3;
    let number = LAST.saturating_sub(slot);
    [
        1 + (turn / 8 % 3) as u8,
        1 + (turn % 8) as u8,
        0,
        0,
        0,
        0,
        (number / 256 % 256) as u8,
        (number % 256) as u8,
    ]
}

/// The pages of a store of the greatest size, with that table in area 0.
fn largest_store(alloc: Global) -> Result<Vec<Page>, Fail> {
    let mut pages = pages_with_root(alloc, MOST_PAGES, &first_root(MOST, 0))?;
    for slot in 0..MOST {
        put_entry(
            pages.as_mut_slice(),
            3 + slot as usize / 512,
            slot as usize % 512,
            entry_in_turn(slot),
        )?;
    }
    Ok(pages)
}

/// The first slot whose page isn't that of the largest table.
fn first_other(table: &SlotTable) -> Option<usize> {
    table
        .as_slice()
        .iter()
        .enumerate()
        .position(|(slot, owner)| *owner != owner_in_turn(slot as u32))
}

/// Reads the largest table from an area.
fn assert_read<D: Device>(alloc: Global, device: &mut D, area: u8) -> Result<SlotTable, Fail> {
    let table = load_table(alloc, device)?;
    assert_same(&table.slots(), &65_536, ("slots in area", area))?;
    let other = first_other(&table);
    assert_same(&other, &None, ("as it was read from area", area))?;
    Ok(table)
}

/// Writes a table to area 1, and selects that.
fn assert_moved(device: &mut MemDevice, table: &SlotTable) -> Result<(), Fail> {
    assert_same(&write_to(device, table, 1)?, &Ok(()), "the write")?;
    let switched = switch_from(device, 1, &first_root(MOST, 1))?;
    assert_same(&switched, &Ok(2), "the switch")?;
    Ok(())
}

/// Reads the largest table from area 0, and moves it to area 1.
fn assert_read_and_moved(alloc: Global, device: &mut MemDevice) -> Result<(), Fail> {
    let table = assert_read(alloc, device, 0)?;
    assert_moved(device, &table)
}

fn assert_largest(alloc: Global, device: &mut MemDevice) -> Result<(), Fail> {
    assert_read_and_moved(alloc, device)?;
    assert_read(alloc, device, 1)?;
    Ok(())
}

#[test]
fn a_table_of_65536_slots_is_read_as_it_was_written(rt: HostRuntime) -> Result<(), Fail> {
    let mut device = MemDevice::new(rt.alloc(), largest_store(rt.alloc())?)?;
    assert_largest(rt.alloc(), &mut device)
}
