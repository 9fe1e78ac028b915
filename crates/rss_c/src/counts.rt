// What is counted of a store, as C gets it.

/// What is counted of a store.
#[repr(C)]
#[derive(Drop)]
pub struct RssCounts {
    /// How many pages its device has.
    pub pages: u64,
    /// How many slots may be needed, by the rule of room.
    pub room: u64,
    /// How many bytes the log has room for.
    pub log_free: u64,
    /// How many calls it was asked for.
    pub calls: u32,
    /// How many slots its device has for pages.
    pub slots: u32,
}
