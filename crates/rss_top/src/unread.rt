// Words that are a command, and that memory ran out for.
ghost use Rattle.std.specs.Prelude.{◌↔◌, IsTrue, map, string_bytes};
ghost use Rattle.rss_store.specs.Formatted.{AreSizes};
ghost use Rattle.rss_top.specs.Programs.{IsUnread};

use crate::Status;
use rss_base::{LOG_PAGES_LEAST, LOG_PAGES_MOST, SLOTS_LEAST, SLOTS_MOST};
use rss_words::format_sizes;

/// Whether a store can have these sizes.
fn are_sizes(slots: u64, log_pages: u64) -> bool
    ensures { IsTrue result ↔ AreSizes slots log_pages }
{
    slots >= u64::from(SLOTS_LEAST)
        && slots <= u64::from(SLOTS_MOST)
        && log_pages >= u64::from(LOG_PAGES_LEAST)
        && log_pages <= u64::from(LOG_PAGES_MOST)
}

/// How a run ends whose words could not be read for want of memory. A size that no store has is told
/// as such all the same.
pub fn unread(words: &[String]) -> Status
    ensures { IsUnread (map string_bytes words.now) result }
{
    match format_sizes(words) {
        Some((slots, log_pages)) => {
            if are_sizes(slots, log_pages) {
                Status::NoMemory
            } else {
                Status::WrongSize
            }
        }
        None => Status::NoMemory,
    }
}
