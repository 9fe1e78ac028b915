// Pages that are written out.
ghost use Rattle.std.specs.Prelude.{◌≡◌, length, IfOk};

use rss_base::{PAGE_BYTES, Page};
use std::alloc::{AllocError, Global};
use std::test::Fail;

/// So many pages, of which each byte is this one.
pub fn filled_pages(alloc: Global, count: usize, byte: u8) -> Result<Vec<Page>, AllocError>
    ensures { IfOk result (λ pages. length pages.items ≡ count) }
{
    vec![in alloc; [byte; PAGE_BYTES]; count]
}

/// Turns bits of a byte of pages. The error is that there is no such byte.
pub fn turn(pages: &mut [Page], at: usize, offset: usize, bits: u8) -> Result<(), Fail> {
    let page = pages.get_mut(at).ok_or("a page that isn't there")?;
    let byte = page.get_mut(offset).ok_or("a byte that isn't there")?;
    *byte ^= bits;
    Ok(())
}
