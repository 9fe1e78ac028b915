// The pages of the store's device, by their names.
use rss_base::{log_at, map_at, slots_at};
use std::alloc::{AllocError, Global};

/// How large the store is.
pub(crate) const SLOTS: u32 = 64;

pub(crate) const LOG_PAGES: u32 = 8;

/// The name of the page at a place of the device.
pub(crate) fn page_name(alloc: Global, at: u64) -> Result<String, AllocError> {
    let areas = [map_at(SLOTS, 0), map_at(SLOTS, 1)];
    let log = log_at(SLOTS);
    let slots = slots_at(SLOTS, LOG_PAGES);
    if at == 0 {
        String::from_str(alloc, "the selector")
    } else if at < areas[0] {
        format!(in alloc; "root {at}")
    } else if at < areas[1] {
        format!(in alloc; "map area 0")
    } else if at < log {
        format!(in alloc; "map area 1")
    } else if at < slots {
        format!(in alloc; "log page {}", at - log)
    } else {
        format!(in alloc; "slot {}", at - slots)
    }
}
