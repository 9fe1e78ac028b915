// Changes, as an open transaction keeps them.

/// A change that a transaction has made and not undone.
#[derive(Clone, Copy, Debug)]
pub struct Noted {
    /// Where its record begins in the log.
    pub position: u64,
    /// The relation whose tuple it changes, if it is one of a tuple.
    pub relation: Option<u8>,
    /// It takes a tuple away.
    pub is_delete: bool,
}
