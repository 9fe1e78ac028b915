// The same tuples in plain lists of pages, each body where the rule puts it.
use crate::calls::{SLOTS, tid};
use rss_base::Tid;
use std::alloc::{AllocError, Global};
use std::test::Fail;

/// How many bytes the bodies of a page have at most.
const ROOM: usize = 3056;

/// What an entry holds. The bytes of a body count up from the first one.
#[derive(Clone, Copy, Debug, PartialEq)]
pub(crate) enum Held {
    Nothing,
    Body { length: u16, first: u8 },
    Forward(Tid),
}

type PlainPage = [Held; 128];

#[derive(Drop)]
pub(crate) struct Plain {
    homes: Vec<PlainPage>,
    overflows: Vec<PlainPage>,
}

fn length_of(held: Held) -> usize {
    match held {
        Held::Body { length, .. } => usize::from(length),
        Held::Nothing | Held::Forward(_) => 0,
    }
}

fn is_vacant(page: &PlainPage) -> bool {
    page.iter().all(|held| *held == Held::Nothing)
}

/// How many bytes the bodies of a page have, without that of a slot.
fn bytes_beside(page: &PlainPage, slot: Option<u16>) -> usize {
    let mut bytes = 0usize;
    for (place, held) in page.iter().enumerate() {
        if slot.map(usize::from) != Some(place) {
            bytes = bytes.saturating_add(length_of(*held));
        }
    }
    bytes
}

fn has_room(page: &PlainPage, slot: Option<u16>, length: u16) -> bool {
    bytes_beside(page, slot).saturating_add(usize::from(length)) <= ROOM
}

fn first_open(page: &PlainPage, number: u32, barred: &[Tid]) -> Option<Tid> {
    for (place, held) in page.iter().enumerate() {
        let there = tid(number, place as u16);
        if *held == Held::Nothing && !barred.contains(&there) {
            return Some(there);
        }
    }
    None
}

/// The first open entry of a page that isn't vacant and has the room, or of a vacant one.
fn first_in(pages: &[PlainPage], vacant: bool, length: u16, barred: &[Tid]) -> Option<Tid> {
    let mut number = 0u32;
    for page in pages {
        if is_vacant(page) == vacant && has_room(page, None, length) {
            let found = first_open(page, number, barred);
            if found.is_some() {
                return found;
            }
        }
        number = number.saturating_add(1);
    }
    None
}

fn held_in(pages: &[PlainPage], at: Tid) -> Held {
    match pages.get(at.page as usize) {
        None => Held::Nothing,
        Some(page) => page
            .get(usize::from(at.slot))
            .copied()
            .unwrap_or(Held::Nothing),
    }
}

fn set_in(pages: &mut [PlainPage], at: Tid, held: Held) -> Result<(), Fail> {
    let page = pages.get_mut(at.page as usize).ok_or("no such page")?;
    let there = page.get_mut(usize::from(at.slot)).ok_or("no such slot")?;
    *there = held;
    Ok(())
}

fn fits(pages: &[PlainPage], at: Tid, length: u16) -> bool {
    match pages.get(at.page as usize) {
        None => false,
        Some(page) => has_room(page, Some(at.slot), length),
    }
}

fn pages_of(pages: &[PlainPage]) -> u32 {
    let mut count = 0u32;
    for page in pages {
        if !is_vacant(page) {
            count = count.saturating_add(1);
        }
    }
    count
}

impl Plain {
    pub(crate) fn new(alloc: Global) -> Result<Self, AllocError> {
        let homes = vec![in alloc; [Held::Nothing; 128]; SLOTS as usize]?;
        let overflows = vec![in alloc; [Held::Nothing; 128]; SLOTS as usize]?;
        Ok(Plain { homes, overflows })
    }

    /// What a home entry holds.
    pub(crate) fn home(&self, at: Tid) -> Held {
        held_in(self.homes.as_slice(), at)
    }

    pub(crate) fn overflow(&self, at: Tid) -> Held {
        held_in(self.overflows.as_slice(), at)
    }

    /// The body of a tuple, or nothing.
    pub(crate) fn body(&self, at: Tid) -> Held {
        match self.home(at) {
            Held::Forward(to) => self.overflow(to),
            held => held,
        }
    }

    /// How many pages there are.
    pub(crate) fn pages(&self) -> u32 {
        let homes = pages_of(self.homes.as_slice());
        homes.saturating_add(pages_of(self.overflows.as_slice()))
    }

    /// The identifier that a new tuple gets.
    pub(crate) fn choose(&self, length: u16, barred: &[Tid]) -> Option<Tid> {
        let homes = self.homes.as_slice();
        let found = first_in(homes, false, length, barred);
        if found.is_some() {
            return found;
        }
        let found = first_in(homes, true, 0, barred);
        if found.is_some() {
            return found;
        }
        first_in(homes, false, 0, barred)
    }

    /// Puts a body at an identifier, in place of what it has.
    pub(crate) fn put(&mut self, at: Tid, length: u16, first: u8) -> Result<(), Fail> {
        let body = Held::Body { length, first };
        let was = self.home(at);
        if fits(self.homes.as_slice(), at, length) {
            set_in(self.homes.as_mut_slice(), at, body)?;
            return self.leave(was);
        }
        if let Held::Forward(there) = was {
            if fits(self.overflows.as_slice(), there, length) {
                return set_in(self.overflows.as_mut_slice(), there, body);
            }
        }
        let overflows = self.overflows.as_slice();
        let to = match first_in(overflows, false, length, &[]) {
            Some(to) => to,
            None => first_in(overflows, true, length, &[]).ok_or("no overflow page")?,
        };
        set_in(self.overflows.as_mut_slice(), to, body)?;
        set_in(self.homes.as_mut_slice(), at, Held::Forward(to))?;
        self.leave(was)
    }

    /// Empties the overflow entry to which a home entry led.
    fn leave(&mut self, was: Held) -> Result<(), Fail> {
        match was {
            Held::Forward(there) => set_in(self.overflows.as_mut_slice(), there, Held::Nothing),
            Held::Nothing | Held::Body { .. } => Ok(()),
        }
    }

    pub(crate) fn remove(&mut self, at: Tid) -> Result<(), Fail> {
        let was = self.home(at);
        set_in(self.homes.as_mut_slice(), at, Held::Nothing)?;
        self.leave(was)
    }
}
