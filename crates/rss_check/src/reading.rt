// The layout of a store, as it is read.
ghost use Rattle.std.specs.Prelude.{◌≡◌, IfOk, IfErr, OnOk};
ghost use Rattle.rss_base.specs.DiskRule.{Told, LeavesOnly};
ghost use Rattle.rss_base.specs.Devices.{ReadsStore};
ghost use Rattle.rss_base.specs.Layout.{IsWellFormed, device_pages};
ghost use Rattle.rss_base.specs.PageMap.{IsTable, page_count};
ghost use Rattle.rss_check.specs.Layouts.{IsLayout, HasLayout, IsLogRead, HasLogBytes};
ghost use Rattle.rss_check.specs.Refused.{IsUnopened};

use rss_base::{Device, OpenFault, Place, Root, log_at};
use rss_log::Log;
use rss_pagemap::{SlotTable, read_table};
use rss_root::load;
use std::alloc::Global;

/// A store whose log ends here or later isn't opened, so that the positions of a session stay
/// numbers.
const POSITION_MOST: u64 = 1 << 62;

/// The selected root with its number, the map that it names, and its log.
#[derive(Drop)]
pub struct Layout {
    pub root: Root,
    pub number: u8,
    pub table: SlotTable,
    pub log: Log,
}

/// How many pages a map has.
fn pages_in(table: &SlotTable) -> u32
    ensures pages { result ≡ page_count table.now }
    ensures table { IsTable table.now }
{
    table
        .as_slice()
        .iter()
        .filter(|owner| owner.is_some())
        .count() as u32
}

/// Reads the log of a root.
fn read_log<D: Device>(alloc: Global, device: &mut D, root: &Root) -> Result<Log, OpenFault>
    requires formed { IsWellFormed root.now }
    requires size { (D.view device.old).size ≡ device_pages root.now }
    ensures log { IfOk result (IsLogRead root.now) }
    ensures bytes { IfOk result (λ log. Told (D.view device.old).disk (λ pages.
        HasLogBytes pages root.now log)) }
    ensures refused { IfErr result (IsUnopened (D.view device.old)) }
    ensures size { (D.view device.new).size ≡ (D.view device.old).size }
    ensures did { ReadsStore (D.view device.old) (D.view device.new) result }
{
    Log::load(
        alloc,
        device,
        log_at(root.slots),
        root.log_pages,
        root.head,
        root.end,
        &root.tail,
    )
}

/// Reads the layout of a store. If it is refused, the fault says why.
pub fn read_layout<D: Device>(alloc: Global, device: &mut D) -> Result<Layout, OpenFault>
    ensures layout { IfOk result (λ l. IsLayout l.root l.number l.table) }
    ensures log { IfOk result (λ l. IsLogRead l.root l.log) }
    ensures size { IfOk result (λ l. (D.view device.new).size ≡ device_pages l.root) }
    ensures holds { IfOk result (λ l. Told (D.view device.old).disk (λ pages.
        HasLayout pages l.root l.number l.table)) }
    ensures bytes { IfOk result (λ l. Told (D.view device.old).disk (λ pages.
        HasLogBytes pages l.root l.log)) }
    ensures synced { OnOk result
        (Told (D.view device.old).disk (LeavesOnly (D.view device.new).disk)) }
    ensures refused { IfErr result (IsUnopened (D.view device.old)) }
    ensures did { ReadsStore (D.view device.old) (D.view device.new) result }
{
    let (root, number) = load(device)?;
    let table = read_table(alloc, device, &root)?;
    if 2 * pages_in(&table) > root.slots {
        return Err(OpenFault::Damaged(Place::Room));
    }
    if root.end >= POSITION_MOST {
        return Err(OpenFault::NoMemory);
    }
    let log = read_log(alloc, device, &root)?;
    Ok(Layout {
        root,
        number,
        table,
        log,
    })
}
