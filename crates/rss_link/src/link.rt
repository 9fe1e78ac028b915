// A link, and the ends of a chain.
use rss_base::Tid;

/// A link, and the places of its blocks in the bodies of its tuples.
///
/// A unary link orders tuples of one relation, its members, in one chain. A binary link has a chain
/// of children for each parent. The block of a member has 13 bytes, that of a child 18 and that of
/// a parent 12.
///
/// Its calls fail if the device does. They answer `Damaged` with a tuple that isn't there, whose
/// body is too short or whose bytes there are no block. That never comes over a device that tells
/// its contents.
#[derive(Clone, Copy, Debug, PartialEq, Eq)]
pub struct Chains {
    /// Its number in the catalog.
    pub link: u8,
    pub unary: bool,
    /// From 1 to 8, and of no meaning if the link is unary.
    pub parent_segment: u8,
    pub child_segment: u8,
    /// The place of the link's block in the body of a parent.
    pub parent_at: u16,
    /// The same of a child or a member.
    pub child_at: u16,
}

/// The ends of a chain: both are there, or it is empty.
#[derive(Clone, Copy, Debug, PartialEq, Eq)]
pub struct Ends {
    pub first: Option<Tid>,
    pub last: Option<Tid>,
}

/// Which tuples are of a link's relations: those whose body begins with the number of one.
#[derive(Clone, Copy, Debug, PartialEq, Eq)]
pub struct Relations {
    pub child: u8,
    /// Of no meaning if the link is unary.
    pub parent: u8,
}
