// A page, as C gets it.
ghost use Rattle.std.specs.Prelude.{◌≡◌};

use rss_base::{PAGE_BYTES, Page};

/// The bytes of a page.
#[repr(C)]
#[derive(Drop)]
pub struct RssPage {
    bytes: [u8; PAGE_BYTES],
}

impl RssPage {
    pub(crate) fn put(&mut self, page: &Page)
        ensures { self.new.bytes ≡ page.now }
    {
        self.bytes = *page;
    }
}
