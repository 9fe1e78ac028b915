// A relation as the catalog has it.
use crate::{Fields, Name};

/// A relation by its definition, and how many tuples it has.
#[derive(Debug, Drop)]
pub struct RelationEntry {
    pub name: Name,
    /// The number of its segment, 1 to 8.
    pub segment: u8,
    pub fields: Fields,
    /// How many tuples it has.
    pub live: u32,
}

/// How many relations there may be.
pub const RELATIONS_MOST: u8 = 48;
