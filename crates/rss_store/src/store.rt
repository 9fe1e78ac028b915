// The parts of a durable store.
use rss_base::Root;
use rss_buffer::Saving;
use rss_catalog::Catalog;
use rss_log::Log;
use rss_tuple::Store;

/// A store on a device: the tables in its pages, and its log.
///
/// A change goes to the pages and to the log in memory at once. What a stop leaves changes only
/// with `commit` and `checkpoint`. A call that fails leaves the store as it may not be called
/// again: a stop then leaves what it left before the call, or what the call was to bring there.
pub struct DurableStore<S: Saving> {
    /// For looks at tuples. Changes of them go by `change` and `undo`.
    pub tuples: Store<S>,
    /// What is defined. A new definition is on the disk after the next checkpoint.
    pub catalog: Catalog,
    pub(crate) log: Log,
    /// The selected root, and its number.
    pub(crate) root: Root,
    pub(crate) number: u8,
}
