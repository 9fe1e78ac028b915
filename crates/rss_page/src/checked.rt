// Entries of bytes that may be no page.
ghost use Rattle.std.specs.Prelude.{◌≡◌, ◌↔◌, ◌<◌, IsSome, IfSome, slice_index_or};
ghost use Rattle.rss_base.specs.Sizes.{page_entries};
ghost use Rattle.rss_page.specs.Slotted.{part, entry_at, entry_of, content_of, entries, IsBody, IsEntry};
ghost use Rattle.rss_page.specs.Surveyed.{held_at};

use crate::directory::entry_bytes_at;
use crate::entry_form::Entry;
use rss_base::Page;

/// The entry of a slot, if it is spelled as it should be and may stand in a page of this space.
/// Nothing else of the page is looked at.
#[inline(always)]
pub fn checked_entry(page: &Page, slot: u8) -> Option<Entry>
    requires { slot < page_entries }
    ensures spelled { IfSome result (λ found. found ≡ entry_of page.now slot) }
    ensures holds { IfSome result
        (λ found. held_at (entries page.now) slot ≡ content_of page.now found) }
    ensures exact { IsSome result ↔ IsEntry (slice_index_or page.now 0 0) (entry_at page.now slot) }
{
    let found = Entry::spelled(&entry_bytes_at(page, slot))?;
    if found.is_allowed(page[0]) {
        Some(found)
    } else {
        None
    }
}

/// Lends so many bytes of a page from a place on, if a body may stand there.
pub fn bytes_at(page: &Page, place: u16, length: u16) -> &[u8]
    requires { IsBody place length }
    ensures { result.now ≡ part page.now place length }
{
    let from = usize::from(place);
    &page[from..from + usize::from(length)]
}
