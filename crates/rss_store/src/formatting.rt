// An empty store, made on a device.
ghost use Rattle.std.specs.Prelude.{◌≡◌, ◌↔◌, ◌+◌, ◌^◌, ◌<◌, ◌≤◌, [], IsTrue, Err, IfOk, OnOk};
ghost use Rattle.std.specs.Prelude.{IsErrOf};
ghost use Rattle.rss_base.specs.DiskRule.{Told, IsWithin, GoesOn};
ghost use Rattle.rss_base.specs.Devices.{WritesPages};
ghost use Rattle.rss_base.specs.Faults.{HasCause, Rises};
ghost use Rattle.rss_base.specs.Sizes.{slots_least, slots_most};
ghost use Rattle.rss_base.specs.declared.place.Place.{Place};
ghost use Rattle.rss_base.specs.declared.fault.OpenFault.TheVariants.{NotAStore, Damaged};
ghost use Rattle.rss_base.specs.declared.fault.OpenFault.TheVariants.{WrongSize};
ghost use Rattle.rss_model.specs.Tables.{no_tables};
ghost use Rattle.rss_stored.specs.Store.{OpensTo};
ghost use Rattle.rss_store.specs.Formatted.{AreSizes, first_root, first_owners, HoldsZeros};
ghost use Rattle.rss_store.specs.Formatted.{HoldsFormatted};

use rss_base::{
    Device, Failed, LOG_PAGES_LEAST, LOG_PAGES_MOST, OpenFault, PAGE_BYTES, PageKey, Root,
    SLOTS_LEAST, SLOTS_MOST, SYSTEM_PAGES, Space, Tail, VERSION, device_pages, put, slots_at,
};
use rss_pagemap::SlotTable;
use rss_root::encode;
use std::alloc::{AllocError, Global};

/// Makes a device an empty store of so many data slots and log pages, whatever the device held.
///
/// It sets the size of the device, and writes the selector, root 1, a map area, and the ten pages
/// of the system space, which are zeros. Then it syncs. Memory is taken in proportion to the slots.
///
/// A store has 64 to 65,536 slots and 8 to 4096 log pages: at other sizes the error is `WrongSize`,
/// and at want of memory `NoMemory`, and the device isn't touched. After any other failure, and
/// after a stop within, nothing is known of what the device holds.
pub fn format<D: Device>(
    alloc: Global,
    device: &mut D,
    slots: u32,
    log_pages: u32,
) -> Result<(), OpenFault>
    ensures made { OnOk result (HoldsFormatted slots log_pages (D.view device.new).disk) }
    ensures opens { OnOk result (Told (D.view device.new).disk (λ pages.
        OpensTo pages (record { slots = slots; log_pages = log_pages }) no_tables)) }

    // The sizes are tested before anything is done.
    ensures sizes { OnOk result (AreSizes slots log_pages) }
    ensures wrong { (AreSizes slots log_pages → ⊥) → result ≡ Err WrongSize }
    ensures right { result ≡ Err WrongSize → AreSizes slots log_pages → ⊥ }
    ensures untouched { result ≡ Err WrongSize → device.new ≡ device.old }
    ensures memory { IsErrOf result OpenFault.NoMemory → device.new ≡ device.old }

    ensures goes_on { GoesOn (D.view device.old).disk (D.view device.new).disk }
    ensures not_broken { (place : Place) → result ≡ Err (NotAStore place) → ⊥ }
    ensures not_damaged { (place : Place) → result ≡ Err (Damaged place) → ⊥ }
    ensures later { (D.view device.old).faults ≤ (D.view device.new).faults }
    ensures cause { IsErrOf result OpenFault.Device
        → Rises (D.view device.old).faults (D.view device.new).faults }
{
    if !are_sizes(slots, log_pages) {
        return Err(OpenFault::WrongSize);
    }
    let Ok(table) = first_table(alloc, slots) else {
        return Err(OpenFault::NoMemory);
    };
    write_store(device, slots, log_pages, &table)?;
    Ok(())
}

/// Whether a store can have these sizes.
fn are_sizes(slots: u32, log_pages: u32) -> bool
    ensures { IsTrue result ↔ AreSizes slots log_pages }
{
    slots >= SLOTS_LEAST
        && slots <= SLOTS_MOST
        && log_pages >= LOG_PAGES_LEAST
        && log_pages <= LOG_PAGES_MOST
}

/// The root of an empty store. Its log has one record, a Checkpoint with no transaction open.
fn first_root(slots: u32, log_pages: u32) -> Root
    ensures { result ≡ first_root slots log_pages }
{
    Root {
        version: VERSION,
        slots,
        log_pages,
        area: 0,
        head: 0,
        checkpoint: 0,
        end: 2,
        tail: Tail::from_slice(&[9, 0]),
    }
}

/// The slots of an empty store: the first ones have the pages of the system space.
fn first_table(alloc: Global, slots: u32) -> Result<SlotTable, AllocError>
    requires least { slots_least ≤ slots }
    requires most { slots ≤ slots_most }
    ensures { IfOk result (λ table. table ≡ first_owners slots) }
{
    let mut table = SlotTable::new(alloc, slots)?;
    for number in 0..SYSTEM_PAGES {
        let key = PageKey {
            segment: 0,
            space: Space::System,
            number,
        };
        table.set(number, Some(key));
    }
    Ok(table)
}

/// Makes the device as many pages as an empty store has, and writes it.
fn write_store<D: Device>(
    device: &mut D,
    slots: u32,
    log_pages: u32,
    table: &SlotTable,
) -> Result<(), Failed>
    requires sizes { AreSizes slots log_pages }
    requires table { table.now ≡ first_owners slots }
    ensures made { OnOk result (HoldsFormatted slots log_pages (D.view device.new).disk) }
    ensures goes_on { GoesOn (D.view device.old).disk (D.view device.new).disk }
    ensures cause { HasCause (D.view device.old).faults (D.view device.new).faults result }
{
    let root = first_root(slots, log_pages);
    device.set_size(device_pages(&root))?;
    write_zeros(device, slots_at(slots, log_pages), u64::from(SYSTEM_PAGES))?;
    table.write_table(device, root.area)?;
    device.write(1, &encode(&root))?;
    put(device, 0, &[0u8; PAGE_BYTES])?;
    Ok(())
}

/// Writes zeros to so many pages.
fn write_zeros<D: Device>(device: &mut D, first: u64, count: u64) -> Result<(), Failed>
    requires size { first + count ≤ (D.view device.old).size }
    requires fits { first + count < 2 ^ 64 }
    ensures zeros { OnOk result (Told (D.view device.old).disk (λ pages.
        HoldsZeros pages first count (D.view device.new).disk.contents)) }
    ensures did { WritesPages (IsWithin first count) count
        (D.view device.old) (D.view device.new) result }
{
    for at in 0..count {
        device.write(first + at, &[0u8; PAGE_BYTES])?;
    }
    Ok(())
}
