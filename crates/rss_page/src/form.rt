// When a page is well-formed.
ghost use Rattle.std.specs.Prelude.{◌≡◌, ◌≢◌, ◌↔◌, ◌+◌, ◌<◌, ◌≤◌, ℕ, Bool, true, false, replicate, slice_index_or, IsTrue, IsSome, IfSome};
ghost use Rattle.rss_base.specs.Sizes.{page_entries};
ghost use Rattle.rss_page.specs.Content.{Empty};
ghost use Rattle.rss_page.specs.Slotted.{entries, header_bytes, IsAllowed, IsHeader, IsHeapKey, IsSlotted, IsWellFormed};
ghost use Rattle.rss_page.specs.Surveyed.{IsSurvey};

use crate::checked::checked_entry;
use crate::directory::HEADER_BYTES;
use crate::entry_form::ENTRIES;
use crate::marks::{Marks, claim};
use crate::surveying::Survey;
use rss_base::{PAGE_BYTES, Page, PageKey, Space, put_bytes};

/// The page of a key of the home or the overflow space, with all its entries empty.
pub fn blank(key: PageKey) -> Page
    requires { IsHeapKey key }
    ensures formed { IsWellFormed key result }
    ensures empty { entries result ≡ replicate page_entries Empty }
{
    let mut page = [0u8; PAGE_BYTES];
    put_bytes(&mut page, 0, &header(key));
    page
}

/// What a walk over the directory finds, if the bytes are a well-formed page of this key. Then the
/// header is that of the key, and each entry is one of the three kinds. It has zeros where there
/// are to be zeros, and a place and a length, or a slot, that are in range. No byte belongs to two
/// bodies. Whether a forward leads to a body is not tested.
///
/// One walk is enough if the bodies stand in the order of their slots, as in a page that was filled
/// slot by slot or compacted.
pub fn survey(page: &Page, key: PageKey) -> Option<Survey>
    ensures formed { IsSome result ↔ IsWellFormed key page.now }
    ensures found { IfSome result (IsSurvey page.now) }
{
    if !has_header(page, key) {
        return None;
    }
    if let Some(found) = Survey::of_ordered(page) {
        return Some(found);
    }
    if is_slotted(page) {
        Some(Survey::of(page))
    } else {
        None
    }
}

/// Whether a page begins with the header of a key that names a home or an overflow page. Its entries
/// are not looked at.
pub fn has_header(page: &Page, key: PageKey) -> bool
    ensures { IsTrue result ↔ IsHeader key page.now }
{
    let heap = match key.space {
        Space::Home | Space::Overflow => true,
        Space::Image | Space::System => false,
    };
    let expected = header(key);
    heap && &page[..HEADER_BYTES] == &expected[..]
}

/// The header of a page.
fn header(key: PageKey) -> [u8; HEADER_BYTES]
    ensures { result ≡ header_bytes key }
{
    let space = match key.space {
        Space::Home => 1,
        Space::Overflow => 2,
        Space::Image => 3,
        Space::System => 4,
    };
    let [a, b, c, d] = key.number.to_be_bytes();
    [space, key.segment, 0, 0, a, b, c, d, 0, 0, 0, 0, 0, 0, 0, 0]
}

/// Whether the directory and the bodies are as they should be.
fn is_slotted(page: &Page) -> bool
    ensures { IsTrue result ↔ IsSlotted page.now }
{
    let mut marks: Marks = [0; PAGE_BYTES / 64];
    for slot in 0..ENTRIES {
        let Some(entry) = checked_entry(page, slot) else {
            return false;
        };
        if !claim(&mut marks, entry) {
            return false;
        }
    }
    true
}
