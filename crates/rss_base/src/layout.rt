// Where the parts of a device lie.
ghost use Rattle.std.specs.Prelude.{◌≡◌, ◌<◌, ◌≤◌};
ghost use Rattle.rss_base.specs.Layout.{map_pages, map_at, log_at, slots_at, device_pages};

use crate::Root;

/// How many entries of the map a page has.
pub const ENTRIES_OF_PAGE: u32 = 512;

/// The pages in front of the map areas: the selector and the two roots.
pub const HEAD_PAGES: u64 = 3;

/// How many pages a map area has, for so many slots.
pub fn map_pages(slots: u32) -> u64
    ensures { result ≡ map_pages slots }
{
    let entries = u64::from(ENTRIES_OF_PAGE);
    (u64::from(slots) + (entries - 1)) / entries
}

/// Where a map area begins.
pub fn map_at(slots: u32, area: u8) -> u64
    requires { area < 2 }
    ensures { result ≡ map_at slots area }
{
    HEAD_PAGES + u64::from(area) * map_pages(slots)
}

/// Where the log pages begin.
pub fn log_at(slots: u32) -> u64
    ensures { result ≡ log_at slots }
{
    HEAD_PAGES + 2 * map_pages(slots)
}

/// Where the data slots begin.
pub fn slots_at(slots: u32, log_pages: u32) -> u64
    ensures { result ≡ slots_at slots log_pages }
{
    log_at(slots) + u64::from(log_pages)
}

/// How many pages the device of a root has.
pub fn device_pages(root: &Root) -> u64
    ensures { result ≡ device_pages root.now }
{
    slots_at(root.slots, root.log_pages) + u64::from(root.slots)
}
