// How transactions lock items.
use crate::Item;

/// In which way a transaction holds an item: shared or exclusive, or with the intent to hold parts
/// of it so.
#[derive(Clone, Copy, Debug, PartialEq, Eq)]
pub enum Mode {
    IS,
    IX,
    S,
    /// Shared, with the intent to hold parts of it exclusively.
    SIX,
    X,
}

/// A lock that a call asks for.
#[derive(Debug, Drop)]
pub struct Need {
    pub item: Item,
    pub mode: Mode,
}
