// Where a body stands in a page.
ghost use Rattle.std.specs.Prelude.{◌≡◌, length as count};
ghost use Rattle.rss_page.specs.Slotted.{part, IsBody};

use rss_base::{Page, PageKey};
use rss_page::bytes_at;

/// Where the body of a tuple stands: so many bytes of a page, from a place on.
#[derive(Clone, Copy)]
pub struct BodyAt {
    pub key: PageKey,
    pub place: u16,
    pub length: u16,
}

impl BodyAt {
    /// Lends the bytes that stand there in its page.
    pub(crate) fn bytes_in(self, page: &Page) -> &[u8]
        requires { IsBody self.place self.length }
        ensures are { result.now ≡ part page.now self.place self.length }
        ensures many { count result.now ≡ self.length }
    {
        bytes_at(page, self.place, self.length)
    }
}
