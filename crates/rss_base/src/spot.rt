// Places in chains.
use crate::Tid;

/// Where a tuple is put into a chain.
#[derive(Clone, Copy, Debug, PartialEq, Eq)]
pub enum Spot {
    First,
    Last,
    /// Right after this one.
    After(Tid),
}
