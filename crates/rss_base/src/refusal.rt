// Why a call is refused.
use crate::{Item, Name, Tid};

/// What a call may name that isn't there.
#[derive(Clone, Copy, Debug, PartialEq, Eq)]
pub enum Kind {
    Segment,
    Relation,
    Image,
    Link,
    Field,
    Scan,
}

/// The limit that a call would pass.
#[derive(Clone, Copy, Debug, PartialEq, Eq)]
pub enum LimitKind {
    Segments,
    Relations,
    Images,
    Links,
    Fields,
    Width,
    KeyWidth,
    Roles,
    Tuples,
    Identifiers,
    Scans,
}

/// Why a line or a call is refused, numbered from 1 in this order.
#[derive(Debug, Drop)]
pub enum Refusal {
    /// The line is none of the script's.
    Words,
    NoTransaction,
    AlreadyOpen,
    /// As many transactions are open as may be.
    TooMany,
    NoSuch(Kind),
    NameTaken,
    Limit(LimitKind),
    /// The first field, counted from 1, whose value doesn't fit.
    BadTuple(u8),
    NoTuple(Name, Tid),
    /// A unique image, and the tuple that has the key.
    Duplicate(Name, Tid),
    Connected(Name),
    NotConnected(Name),
    NotEmpty,
    /// Another transaction holds the item.
    Busy { item: Item, holder: u32 },
    /// The change would need this many slots of the device.
    Full { slots: u32, needed: u64 },
    /// The change would need this many bytes of the log.
    LogFull { free: u64, needed: u64 },
    /// The least of the open transactions.
    TransactionsOpen(u32),
    NoSave,
}
