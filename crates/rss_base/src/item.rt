// What transactions lock.
use crate::{Name, Tid, Tuple};

/// What can be locked. A tuple and a chain also have a content.
#[derive(Debug, PartialEq, Eq, Hash, Drop)]
pub enum Item {
    Segment(Name),
    Relation(Name),
    Tuple(Name, Tid),
    /// The chain of a link below this parent, or the one chain of a unary link.
    Chain(Name, Option<Tid>),
    /// The values of a key of a unique image.
    Key(Name, Tuple),
}
