// The moments of a device: what was done at each, and what a stop there leaves.
ghost use Rattle.std.specs.Prelude.{◌≤◌};
ghost use Rattle.rss_device.specs.MemDevice.{view_of};

use crate::pages::page_name;
use crate::tables::values_in;
use anyhow::Result;
use rss_base::Page;
use rss_device::{MemDevice, Unsynced};
use std::alloc::{AllocError, Global};

/// The first page that differs.
fn first_other(before: &[Page], after: &[Page]) -> Option<u64> {
    for (at, (old, new)) in before.iter().zip(after).enumerate() {
        if old != new {
            return Some(at as u64);
        }
    }
    None
}

/// The first page that a stop leaves otherwise than one a moment earlier, if the pages that weren't
/// synced are left so.
fn first_change(
    alloc: Global,
    device: &MemDevice,
    moment: usize,
    unsynced: Unsynced,
) -> Result<Option<u64>, AllocError>
    requires { moment ≤ (view_of device.now).disk.moment }
{
    let before = device.image_at(alloc, moment.saturating_sub(1), unsynced)?;
    let after = device.image_at(alloc, moment, unsynced)?;
    Ok(first_other(&before, &after))
}

/// The name of the page that was written at a moment: one that a stop may tear from then on, or one
/// that was written again.
fn written(alloc: Global, device: &MemDevice, moment: usize) -> Result<String, AllocError>
    requires { moment ≤ (view_of device.now).disk.moment }
{
    if let Some(at) = first_change(alloc, device, moment, Unsynced::Filled(255))? {
        return page_name(alloc, at);
    }
    match first_change(alloc, device, moment, Unsynced::New)? {
        Some(at) => page_name(alloc, at),
        None => String::from_str(alloc, "a page again"),
    }
}

/// What was done at a moment. Of the writes so many came before it.
pub(crate) fn done_at(
    alloc: Global,
    device: &MemDevice,
    moment: usize,
    writes: usize,
) -> Result<String, AllocError>
    requires { moment ≤ (view_of device.now).disk.moment }
{
    if device.moment_of_write(writes) == Some(moment) {
        written(alloc, device, moment)
    } else {
        String::from_str(alloc, "sync")
    }
}

/// The tuples that a stop at a moment leaves, as text.
fn left(alloc: Global, device: &MemDevice, moment: usize, unsynced: Unsynced) -> Result<String>
    requires { moment ≤ (view_of device.now).disk.moment }
{
    let values = values_in(alloc, device.image_at(alloc, moment, unsynced)?)?;
    Ok(format!(in alloc; "{values:?}")?)
}

/// The same for pages that weren't synced and are old, new, and all ones.
pub(crate) fn left_at(alloc: Global, device: &MemDevice, moment: usize) -> Result<[String; 3]>
    requires { moment ≤ (view_of device.now).disk.moment }
{
    Ok([
        left(alloc, device, moment, Unsynced::Old)?,
        left(alloc, device, moment, Unsynced::New)?,
        left(alloc, device, moment, Unsynced::Filled(255))?,
    ])
}
