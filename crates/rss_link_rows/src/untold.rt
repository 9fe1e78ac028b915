// Tuples in memory of which proofs know nothing: a test needs no proof of what they are, and bodies
// that no store has may stand there too.
ghost use Rattle.std.specs.Prelude.{◌≡◌, IfSome};
ghost use Rattle.rss_base.specs.Paged.{page_key};
ghost use Rattle.rss_base.specs.declared.key.Space.TheVariants.{Home};
ghost use Rattle.rss_base.specs.Tids.{IsAfter};
ghost use Rattle.rss_link_rows.specs.Silent.{untold};

use rss_base::{BODY_BYTES, Body, PAGE_ENTRIES, PageFault, PageKey, Place, Space, Tid};
use rss_tuple::{BodyAt, Tuples};
use std::alloc::Global;
use std::test::Fail;

/// How many changes are noted.
const NOTED: usize = 8;

/// Where the first body of a page may stand.
const BODIES_AT: u16 = 1040;

/// The tuples in slots 0, 1 and so on of page 0 of each segment, how many of them were fetched, and
/// the slots of those that got another body, in order.
#[derive(Drop)]
pub(crate) struct Untold {
    bodies: Vec<Body>,
    fetches: u32,
    replaced: [u16; NOTED],
    replaces: usize,
    /// What is lent where no tuple stands.
    blank: [u8; BODY_BYTES],
}

impl Untold {
    pub(crate) fn new(alloc: Global, bodies: &[&[u8]]) -> Result<Self, Fail> {
        let mut all = Vec::new(alloc);
        for bytes in bodies {
            let bytes = *bytes;
            let mut body = Body::new();
            if bytes.len() <= 2400 {
                body.extend_from_slice(bytes);
            }
            all.push(body)?;
        }
        Ok(Untold {
            bodies: all,
            fetches: 0,
            replaced: [0; NOTED],
            replaces: 0,
            blank: [0; BODY_BYTES],
        })
    }

    /// The bytes of a body, and none if there is no such tuple.
    pub(crate) fn bytes(&self, slot: u16) -> &[u8] {
        match self.bodies.get(usize::from(slot)) {
            Some(body) => body.as_slice(),
            None => &[],
        }
    }

    /// How many tuples were fetched since it was last asked.
    pub(crate) fn take_fetches(&mut self) -> u32 {
        let fetches = self.fetches;
        self.fetches = 0;
        fetches
    }

    /// The slots of the tuples that got another body since it was last asked, in order, and 8 at most.
    pub(crate) fn take_replaced(&mut self, alloc: Global) -> Result<Vec<u16>, Fail> {
        let mut slots = Vec::new(alloc);
        for (index, slot) in self.replaced.iter().enumerate() {
            if index < self.replaces {
                slots.push(*slot)?;
            }
        }
        self.replaces = 0;
        Ok(slots)
    }
}

#[tactic(auto, using(rss_images::specs::Silent::never_told, crate::proofs::Nothing::answered, crate::proofs::Nothing::refused))]
impl Tuples for Untold {
    ghost view = { λ tuples. untold };

    ghost are_in_pages = { λ tuples i. untold.bodies };

    fn choose(
        &mut self,
        _segment: u8,
        _length: u16,
        _barred: &[Tid],
    ) -> Result<Option<Tid>, PageFault> {
        Ok(None)
    }

    fn insert_at(&mut self, segment: u8, tid: Tid, _body: &[u8]) -> Result<(), PageFault> {
        Err(PageFault::Damaged(Place::Tuple(segment, tid)))
    }

    // The place tells the slot: no page is looked at.
    fn locate(&mut self, segment: u8, tid: Tid) -> Result<Option<BodyAt>, PageFault> {
        self.fetches = self.fetches.saturating_add(1);
        let slot = usize::from(tid.slot);
        if tid.page != 0 || slot >= PAGE_ENTRIES {
            return Ok(None);
        }
        let Some(body) = self.bodies.get(slot) else {
            return Ok(None);
        };
        let length = body.as_slice().len();
        if length == 0 {
            return Ok(None);
        }
        Ok(Some(BodyAt {
            key: home(segment, tid),
            place: BODIES_AT + tid.slot,
            length: length as u16,
        }))
    }

    fn body(&self, at: BodyAt) -> &[u8] {
        let length = usize::from(at.length);
        match self.bodies.get(usize::from(at.place - BODIES_AT)) {
            Some(body) if body.as_slice().len() == length => body.as_slice(),
            _ => &self.blank[..length],
        }
    }

    fn replace(&mut self, segment: u8, tid: Tid, body: &[u8]) -> Result<(), PageFault> {
        let slot = usize::from(tid.slot);
        if tid.page != 0 || slot >= self.bodies.len() || slot >= PAGE_ENTRIES {
            return Err(PageFault::Damaged(Place::Page(home(segment, tid))));
        }
        if self.replaces < NOTED {
            self.replaced[self.replaces] = tid.slot;
            self.replaces += 1;
        }
        let mut new = Body::new();
        new.extend_from_slice(body);
        self.bodies[slot] = new;
        Ok(())
    }

    fn remove(&mut self, segment: u8, tid: Tid) -> Result<(), PageFault> {
        Err(PageFault::Damaged(Place::Page(home(segment, tid))))
    }

    fn next_live(&mut self, _segment: u8, after: Option<Tid>) -> Result<Option<Tid>, PageFault> {
        match behind(after) {
            Some(tid) if usize::from(tid.slot) < self.bodies.len() => Ok(Some(tid)),
            _ => Ok(None),
        }
    }
}

/// The next identifier of page 0.
fn behind(after: Option<Tid>) -> Option<Tid>
    ensures { IfSome result (IsAfter after) }
{
    let Some(after) = after else {
        return Some(Tid { page: 0, slot: 0 });
    };
    if after.page != 0 || after.slot == u16::MAX {
        return None;
    }
    Some(Tid {
        page: 0,
        slot: after.slot + 1,
    })
}

/// The home page of an identifier.
fn home(segment: u8, tid: Tid) -> PageKey
    ensures { result ≡ page_key segment Home tid.page }
{
    PageKey {
        segment,
        space: Space::Home,
        number: tid.page,
    }
}
