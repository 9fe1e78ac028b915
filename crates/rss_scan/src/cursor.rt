// One open scan.
use rss_base::{Key, Name, Tid};

/// What a scan goes over.
#[derive(Drop)]
pub enum Path {
    Relation(Name),
    /// The pairs of an image from this key on.
    Image(Name, Key),
    /// The members of a chain, below this parent or in a unary link.
    Link(Name, Option<Tid>),
}

/// Where a scan is.
#[derive(Drop)]
pub struct Cursor {
    pub path: Path,
    /// The key and the identifier that it gave last, if it gave any.
    pub last: Option<(Key, Tid)>,
}

/// An open scan, and the transaction that opened it.
#[derive(Drop)]
pub struct Scan {
    pub owner: u32,
    pub cursor: Cursor,
}
