// Where a tuple stands.
use rss_base::Tid;

/// A tuple in the chain of a parent, or in the one chain of a unary link: right after `left`, or
/// first.
#[derive(Clone, Copy, Debug, PartialEq, Eq)]
pub struct Membership {
    /// The link's number.
    pub link: u8,
    pub parent: Option<Tid>,
    pub child: Tid,
    pub left: Option<Tid>,
}
