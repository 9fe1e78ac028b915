// Changes of tuples and of chains.
use crate::{Body, Tid};

/// What a transaction did to one tuple or to one place of a chain, with what stood there before.
/// Relations and links are named by their numbers in the catalog, and values are the bytes after a
/// body's prefix.
#[derive(Drop)]
pub enum Change {
    Insert {
        relation: u8,
        tid: Tid,
        values: Body,
    },
    Delete {
        relation: u8,
        tid: Tid,
        values: Body,
    },
    Update {
        relation: u8,
        tid: Tid,
        from: Body,
        to: Body,
    },
    /// The parent is none in a unary link, and the left neighbour if the child is first.
    Connect {
        link: u8,
        parent: Option<Tid>,
        child: Tid,
        left: Option<Tid>,
    },
    Disconnect {
        link: u8,
        parent: Option<Tid>,
        child: Tid,
        left: Option<Tid>,
    },
}
