// Calls on links over tuples of which proofs know nothing.
use crate::untold::Untold;
use rss_base::{PageFault, Tid};
use rss_link::{Chains, Ends, Relations};
use std::alloc::Global;
use std::test::Fail;

/// The segment of all tuples.
pub(crate) const SEGMENT: u8 = 1;

/// No end of a chain.
pub(crate) const NO_ENDS: Ends = Ends {
    first: None,
    last: None,
};

pub(crate) fn tid(slot: u16) -> Tid {
    Tid { page: 0, slot }
}

#[tactic(auto, using(rss_images::specs::Silent::never_told))]
pub(crate) fn connect(
    link: &Chains,
    ends: &mut Ends,
    store: &mut Untold,
    child: u16,
    parent: Option<u16>,
    left: Option<u16>,
) -> Result<(), PageFault> {
    if link.child_segment != SEGMENT || link.parent_segment != SEGMENT {
        return Ok(());
    }
    if link.unary != parent.is_none() {
        return Ok(());
    }
    let parent = parent.map(|slot| tid(slot));
    let left = left.map(|slot| tid(slot));
    link.connect(ends, store, tid(child), parent, left)
}

#[tactic(auto, using(rss_images::specs::Silent::never_told))]
pub(crate) fn disconnect(
    link: &Chains,
    ends: &mut Ends,
    store: &mut Untold,
    child: u16,
) -> Result<(), PageFault> {
    if link.child_segment != SEGMENT || link.parent_segment != SEGMENT {
        return Ok(());
    }
    link.disconnect(ends, store, tid(child))
}

#[tactic(auto, using(rss_images::specs::Silent::never_told))]
pub(crate) fn check(
    link: &Chains,
    ends: &Ends,
    store: &mut Untold,
    relations: Relations,
) -> Result<bool, PageFault> {
    if link.child_segment != SEGMENT || link.parent_segment != SEGMENT {
        return Ok(false);
    }
    link.check(ends, store, relations)
}

/// The slots of a chain, from its first on, and 20 of them at most.
#[tactic(auto, using(rss_images::specs::Silent::never_told))]
pub(crate) fn forwards(
    alloc: Global,
    link: &Chains,
    ends: &Ends,
    store: &mut Untold,
    parent: Option<u16>,
) -> Result<Vec<u16>, Fail> {
    let mut slots = Vec::new(alloc);
    let parent = parent.map(|slot| tid(slot));
    let mut next = link.first(ends, store, parent)?;
    for _ in 0..20 {
        let Some(child) = next else {
            break;
        };
        slots.push(child.slot)?;
        next = link.after(store, child)?;
    }
    Ok(slots)
}

/// The same from its last on.
#[tactic(auto, using(rss_images::specs::Silent::never_told))]
pub(crate) fn backwards(
    alloc: Global,
    link: &Chains,
    ends: &Ends,
    store: &mut Untold,
    parent: Option<u16>,
) -> Result<Vec<u16>, Fail> {
    let mut slots = Vec::new(alloc);
    let parent = parent.map(|slot| tid(slot));
    let mut previous = link.last(ends, store, parent)?;
    for _ in 0..20 {
        let Some(child) = previous else {
            break;
        };
        slots.push(child.slot)?;
        previous = link.before(store, child)?;
    }
    Ok(slots)
}

/// Whether a child is in a chain, and its parent.
#[tactic(auto, using(rss_images::specs::Silent::never_told))]
pub(crate) fn place_of(
    link: &Chains,
    store: &mut Untold,
    child: u16,
) -> Result<(bool, Option<Tid>), PageFault> {
    let stands = link.stands(store, tid(child))?;
    let parent = link.parent(store, tid(child))?;
    Ok((stands, parent))
}
