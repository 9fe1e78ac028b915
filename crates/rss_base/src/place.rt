// Where a store is out of form.
use crate::{PageKey, Tid};

/// The first place at which a device isn't a store.
#[derive(Clone, Copy, Debug, PartialEq, Eq)]
pub enum Place {
    /// The number of the device's pages.
    Size,
    /// The selected root, 1 or 2.
    Root(u8),
    /// The map's entry of a slot, or, by the number of slots, the bytes after the last entry.
    Slot(u32),
    /// A page of the catalog.
    Catalog(u8),
    /// A home, overflow or image page.
    Page(PageKey),
    /// A tuple, by its segment.
    Tuple(u8, Tid),
    /// The count of a relation's tuples.
    Count(u8),
    Image(u8),
    Link(u8),
    /// A position in the log.
    Log(u64),
    /// The room that the changes of the log may need.
    Room,
}
