// A step of a store's device, as C gets it.
ghost use Rattle.std.specs.Prelude.{◌≡◌};
ghost use Rattle.rss_c.specs.Steps.{HasStep};

use crate::page::RssPage;
use rss_device::Step;

/// What a file is to do next: write a page, bring what was written to the disk, or become so many
/// pages long.
#[repr(C)]
#[derive(Drop)]
pub struct RssStep {
    /// 1, 2 and 3.
    kind: u32,
    /// The place of the page; or how many pages the file is to have.
    at: u64,
    page: RssPage,
}

impl RssStep {
    pub(crate) fn put(&mut self, step: &Step)
        ensures { HasStep step.now self.new }
    {
        match step {
            Step::Write(at, bytes) => {
                self.kind = 1;
                self.at = *at;
                self.page.put(bytes);
            }
            Step::Sync => self.kind = 2,
            Step::Resize(pages) => {
                self.kind = 3;
                self.at = *pages;
            }
        }
    }
}
