// Sums over the open transactions.

/// Sums over the open transactions, of all changes or of those in one relation.
#[derive(Clone, Copy, Debug, PartialEq, Eq)]
pub struct Sums {
    /// The changes that aren't undone.
    pub p: u64,
    /// The transactions that have one.
    pub q: u64,
    /// The changes since the last checkpoint, those that were undone and of transactions that are
    /// gone included.
    pub s: u64,
    /// The changes that aren't undone and take a tuple away.
    pub d: u64,
}
