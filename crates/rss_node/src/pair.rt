// The names of an image's nodes, and pairs.
use rss_base::BoundedBytes;

/// How many bytes a pair has at most: those of a key, and six of an identifier.
pub const PAIR_BYTES: usize = 126;

/// The bytes of a key and those of an identifier, by which entries are ordered.
pub type Pair = BoundedBytes<PAIR_BYTES>;

/// The nodes of an image: its segment, its number and the width of its keys.
#[derive(Clone, Copy, Debug, PartialEq, Eq)]
pub struct Nodes {
    pub segment: u8,
    pub image: u8,
    pub width: u8,
}

/// Stands in place of a next leaf if there is none.
pub const NO_PAGE: u32 = 0xffff_ffff;
