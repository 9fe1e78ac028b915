// The directory of a page.
ghost use Rattle.std.specs.Prelude.{◌≡◌, ℕ, ◌+◌, ◌*◌, ◌<◌, List, Option, IfSome, IfNone, slice_index_or};
ghost use Rattle.rss_base.specs.Sizes.{page_entries};
ghost use Rattle.rss_page.specs.Content.{Content, Here};
ghost use Rattle.rss_page.specs.Slotted.{put, entry_bytes, entry_at, entry_of, content_of, entries, IsSlotted};
ghost use Rattle.rss_page.specs.Surveyed.{held_at};

use crate::entry_form::{ENTRY_BYTES, Entry};
use rss_base::{Page, put_bytes};

/// How many bytes the header has.
pub const HEADER_BYTES: usize = 16;

/// The bytes of an entry.
#[inline(always)]
pub fn entry_bytes_at(page: &Page, slot: u8) -> [u8; ENTRY_BYTES]
    requires { slot < page_entries }
    ensures { result ≡ entry_at page.now slot }
{
    let at = HEADER_BYTES + ENTRY_BYTES * usize::from(slot);
    let mut bytes = [0u8; ENTRY_BYTES];
    bytes.copy_from_slice(&page[at..at + ENTRY_BYTES]);
    bytes
}

/// An entry of a well-formed page.
#[inline(always)]
pub fn entry(page: &Page, slot: u8) -> Entry
    requires { slot < page_entries }
    ensures spelled { result ≡ entry_of page.now slot }
    ensures holds { held_at (entries page.now) slot ≡ content_of page.now result }
{
    Entry::decode(&entry_bytes_at(page, slot))
}

/// Lends the body of an entry that has one in this page.
pub fn body(page: &Page, slot: u8) -> Option<&[u8]>
    requires slotted { IsSlotted page.now }
    requires slot { slot < page_entries }
    ensures some { IfSome result (λ body. held_at (entries page.now) slot ≡ Here body.now) }
    ensures none { IfNone result ((body : List ℕ)
        → held_at (entries page.now) slot ≡ Here body → ⊥) }
{
    let Entry::Here { place, length } = entry(page, slot) else {
        return None;
    };
    let from = usize::from(place);
    Some(&page[from..from + usize::from(length)])
}

/// Writes an entry.
pub fn set_entry(page: &mut Page, slot: u8, entry: Entry)
    requires { slot < page_entries }
    ensures { page.new ≡ put page.old (16 + 8 * slot) (entry_bytes entry) }
{
    let at = HEADER_BYTES + ENTRY_BYTES * usize::from(slot);
    put_bytes(page, at, &entry.encode());
}
