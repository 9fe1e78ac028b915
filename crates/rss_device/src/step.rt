// What a device did.
use rss_base::Page;

/// What a device did, and another one is to do after it.
#[derive(Clone, Copy)]
pub enum Step {
    /// The page at this place was written.
    Write(u64, Page),
    /// What was written was brought to the disk.
    Sync,
    /// The device was made so many pages. Those that are new hold zeros.
    Resize(u64),
}
