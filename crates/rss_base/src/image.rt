// An image as the catalog has it.
use crate::{MOST_FIELDS, Name};

/// An image by its definition, and the page at which its tree begins.
#[derive(Clone, Copy, Debug, PartialEq, Eq)]
pub struct ImageEntry {
    pub name: Name,
    /// The number of its relation, 1 to 48.
    pub relation: u8,
    pub is_unique: bool,
    /// How many fields a key has.
    pub count: u8,
    /// Their numbers in the relation, counted from 1, and zeros after them.
    pub fields: [u8; MOST_FIELDS],
    /// How many levels of nodes there are.
    pub levels: u8,
    /// The number of the root's page.
    pub root: u32,
}

/// How many images there may be.
pub const IMAGES_MOST: u8 = 128;
