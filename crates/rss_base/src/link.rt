// A link as the catalog has it.
use crate::{Name, Tid};

/// A link by its definition, and the ends of its chain if it has only one.
#[derive(Clone, Copy, Debug, PartialEq, Eq)]
pub struct LinkEntry {
    pub name: Name,
    /// The number of the relation whose tuples have chains, and none of a link with one chain.
    pub parent: Option<u8>,
    /// The number of the relation whose tuples stand in chains.
    pub child: u8,
    /// It has a block in a tuple's body only while the block says something. The block of a link
    /// that isn't late stands in each body of its relations.
    pub late: bool,
    /// The ends of the one chain, if there is no parent.
    pub first: Option<Tid>,
    pub last: Option<Tid>,
}

/// How many links there may be.
pub const LINKS_MOST: u8 = 64;
