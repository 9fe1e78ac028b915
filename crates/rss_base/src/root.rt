// What a root says.
use crate::Tail;

/// The least and the greatest number of slots of a store.
pub const SLOTS_LEAST: u32 = 64;

pub const SLOTS_MOST: u32 = 65_536;

/// The least and the greatest number of log pages of a store.
pub const LOG_PAGES_LEAST: u32 = 8;

pub const LOG_PAGES_MOST: u32 = 4096;

/// The version of the format that a store has as it is made, and from each checkpoint on. Those of
/// before, from 1 on, are read.
pub const VERSION: u8 = 3;

/// A root of a store: the version of its format, the sizes of the device's parts, the map area in
/// use, and the log's positions, which count its bytes from 0.
#[derive(Drop)]
pub struct Root {
    /// The version of the format, 1 to 3.
    pub version: u8,
    /// How many data slots there are.
    pub slots: u32,
    /// How many log pages there are.
    pub log_pages: u32,
    /// The map area in use, 0 or 1.
    pub area: u8,
    /// The first position of the log that is kept.
    pub head: u64,
    /// The position of the last Checkpoint record.
    pub checkpoint: u64,
    /// The next position of the log.
    pub end: u64,
    /// The bytes of the log after its last full piece.
    pub tail: Tail,
}
