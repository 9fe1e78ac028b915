// The blocks of a link, in the bytes of bodies.
ghost use Rattle.std.specs.Prelude.{◌≡◌, ◌+◌, ◌≤◌, length, take, drop, true, false};
ghost use Rattle.rss_base.specs.LogRecords.{place_bytes};
ghost use Rattle.rss_link.specs.Blocks.{IsPointer, standing_bytes, HasStanding, HasEnds};
ghost use Rattle.rss_link.specs.Blocks.{IsFound, pointer_in, end_in, kept_ends};

use crate::link::Ends;
use rss_base::{BoundedBytes, Tid};

/// How many bytes a pointer has.
const POINTER_BYTES: usize = 6;

/// How many bytes the blocks have, of a member of a unary link, and of a child and a parent of a
/// binary link.
const MEMBER_BYTES: usize = 13;

const CHILD_BYTES: usize = 18;

const PARENT_BYTES: usize = 12;

/// Where a child stands: in no chain, or in that of a parent, between two others. A unary link has
/// no parents.
#[derive(Clone, Copy)]
pub(crate) enum Standing {
    Outside,
    Within {
        parent: Option<Tid>,
        previous: Option<Tid>,
        next: Option<Tid>,
    },
}

/// Which of two pointers: that to the tuple after a child, or to the one before it. At the ends of
/// a chain the next of what is before all is the first, and the previous of what is after all the
/// last.
#[derive(Clone, Copy)]
pub(crate) enum Pointer {
    Next,
    Previous,
}

/// The bytes of a child's block.
pub(crate) type Block = BoundedBytes<CHILD_BYTES>;

/// The identifier in the six bytes from a place on, if they have one.
pub(crate) fn pointer_at(bytes: &[u8], at: usize) -> Option<Tid>
    requires { at + 6 ≤ length bytes.now }
    ensures spelled { place_bytes result ≡ take 6 (drop at bytes.now) }
    ensures fits { IsPointer result }
{
    let mut page = [0u8; 4];
    page.copy_from_slice(&bytes[at..at + 4]);
    let mut slot = [0u8; 2];
    slot.copy_from_slice(&bytes[at + 4..at + 6]);
    let page = u32::from_be_bytes(page);
    let slot = u16::from_be_bytes(slot);
    if page == u32::MAX && slot == u16::MAX {
        None
    } else {
        Some(Tid { page, slot })
    }
}

/// The six bytes of a pointer.
pub(crate) fn pointer_bytes(pointer: Option<Tid>) -> [u8; POINTER_BYTES]
    ensures { result ≡ place_bytes pointer }
{
    match pointer {
        None => [u8::MAX; POINTER_BYTES],
        Some(tid) => {
            let page = tid.page.to_be_bytes();
            let slot = tid.slot.to_be_bytes();
            [page[0], page[1], page[2], page[3], slot[0], slot[1]]
        }
    }
}

/// What the block at a place of a body says of a child. None exactly if the body is too short, or
/// its bytes there are no such block.
pub(crate) fn standing_at(body: &[u8], at: usize, unary: bool) -> Option<Standing>
    requires { at ≤ 65535 }
    ensures { IsFound (HasStanding unary body.now at) result }
{
    if unary {
        member_at(body, at)
    } else {
        child_at(body, at)
    }
}

fn member_at(body: &[u8], at: usize) -> Option<Standing>
    requires { at ≤ 65535 }
    ensures { IsFound (HasStanding true body.now at) result }
{
    if body.len() < at + MEMBER_BYTES {
        return None;
    }
    let flag = body[at];
    let previous = pointer_at(body, at + 1);
    let next = pointer_at(body, at + 7);
    if flag == 1 {
        Some(Standing::Within {
            parent: None,
            previous,
            next,
        })
    } else if flag == 0 && previous.is_none() && next.is_none() {
        Some(Standing::Outside)
    } else {
        None
    }
}

fn child_at(body: &[u8], at: usize) -> Option<Standing>
    requires { at ≤ 65535 }
    ensures { IsFound (HasStanding false body.now at) result }
{
    if body.len() < at + CHILD_BYTES {
        return None;
    }
    let parent = pointer_at(body, at);
    let previous = pointer_at(body, at + 6);
    let next = pointer_at(body, at + 12);
    if parent.is_some() {
        Some(Standing::Within {
            parent,
            previous,
            next,
        })
    } else if previous.is_none() && next.is_none() {
        Some(Standing::Outside)
    } else {
        None
    }
}

/// The block of a child that stands so.
pub(crate) fn standing_bytes(standing: Standing, unary: bool) -> Block
    ensures { result ≡ standing_bytes unary standing }
{
    let mut block = Block::new();
    let (parent, previous, next) = match standing {
        Standing::Outside => (None, None, None),
        Standing::Within {
            parent,
            previous,
            next,
        } => (parent, previous, next),
    };
    if unary {
        block.push(matches!(standing, Standing::Within { .. }) as u8);
    } else {
        block.extend_from_slice(&pointer_bytes(parent));
    }
    block.extend_from_slice(&pointer_bytes(previous));
    block.extend_from_slice(&pointer_bytes(next));
    block
}

/// The ends that the block at a place of a parent's body says. None exactly if the body is too
/// short.
pub(crate) fn ends_at(body: &[u8], at: usize) -> Option<Ends>
    requires { at ≤ 65535 }
    ensures { IsFound (λ ends. HasEnds body.now at (kept_ends ends)) result }
{
    if body.len() < at + PARENT_BYTES {
        return None;
    }
    Some(Ends {
        first: pointer_at(body, at),
        last: pointer_at(body, at + 6),
    })
}

/// Where a pointer stands in the block of a child.
pub(crate) fn pointer_in(which: Pointer, unary: bool) -> usize
    ensures { result ≡ pointer_in unary which }
{
    match (which, unary) {
        (Pointer::Next, true) => 7,
        (Pointer::Next, false) => 12,
        (Pointer::Previous, true) => 1,
        (Pointer::Previous, false) => 6,
    }
}

/// Where an end of a chain stands in the block of a parent.
pub(crate) fn end_in(which: Pointer) -> usize
    ensures { result ≡ end_in which }
{
    match which {
        Pointer::Next => 0,
        Pointer::Previous => POINTER_BYTES,
    }
}
