// Tuples that are put, replaced and taken away at random, beside the same in plain lists.
use crate::calls::{
    SLOTS, Tried, choose, empty, entries_of, entry_at, fetch, insert_at, key_of, next_live, remove,
    replace, tid,
};
use crate::plain::{Held, Plain};
use rss_base::{Body, Pages, Space, Tid};
use rss_images::{Draws, assert_same, assert_same_slices};
use rss_page::Entry;
use std::alloc::Global;
use std::test::Fail;

/// How many changes are made from each seed, and after how many all is compared.
const CHANGES: u32 = 25_000;

const TURN: u32 = 2_500;

/// The bytes of a body.
type Bytes = [u8; 2400];

fn fill(bytes: &mut Bytes, first: u8) {
    for (place, byte) in bytes.iter_mut().enumerate() {
        *byte = first.wrapping_add((place % 251) as u8);
    }
}

/// The length of a body: one of 1 to 16, 200, 1,284 or 2,400 bytes.
fn draw_length(draws: &mut Draws) -> u16 {
    let most = match draws.below(4) {
        0 => 16,
        1 => 200,
        2 => 1284,
        _ => 2400,
    };
    (draws.below(most) as u16).saturating_add(1)
}

/// A store, the same in plain lists, and the tuples that there are.
#[derive(Drop)]
struct Beside {
    store: Tried,
    plain: Plain,
    live: Vec<Tid>,
}

fn is_entry(found: Entry, want: Held) -> bool {
    match (found, want) {
        (Entry::Empty, Held::Nothing) => true,
        (Entry::Here { length, .. }, Held::Body { length: wanted, .. }) => length == wanted,
        (Entry::Forward { page, slot }, Held::Forward(to)) => to == tid(page, u16::from(slot)),
        _ => false,
    }
}

/// How many pages a fetch asks for.
fn asks_of(home: Held, is_mapped: bool) -> u32 {
    match home {
        Held::Forward(_) => 2,
        Held::Nothing | Held::Body { .. } => u32::from(is_mapped),
    }
}

impl Beside {
    fn new(alloc: Global) -> Result<Self, Fail> {
        let store = empty(alloc)?;
        let plain = Plain::new(alloc)?;
        let live = Vec::new(alloc);
        Ok(Beside { store, plain, live })
    }

    /// One of the tuples.
    fn draw(&self, draws: &mut Draws) -> Option<usize> {
        if self.live.is_empty() {
            return None;
        }
        let count = u32::try_from(self.live.len()).unwrap_or(u32::MAX);
        Some(draws.below(count) as usize)
    }

    /// Puts a tuple where it is to stand.
    fn insert(&mut self, draws: &mut Draws) -> Result<Option<Tid>, Fail> {
        let length = draw_length(draws);
        let first = draws.below(256) as u8;
        let mut bytes = [0u8; 2400];
        fill(&mut bytes, first);
        let body = bytes.get(..usize::from(length)).ok_or("too long a body")?;
        let found = choose(&mut self.store, length, &[])?;
        assert_same(&found, &self.plain.choose(length, &[]), length)?;
        let Some(at) = found else { return Ok(None) };
        insert_at(&mut self.store, at, body)?;
        self.plain.put(at, length, first)?;
        self.live.push(at)?;
        Ok(Some(at))
    }

    /// Gives one of the tuples another body.
    fn replace(&mut self, draws: &mut Draws) -> Result<Option<Tid>, Fail> {
        let Some(place) = self.draw(draws) else {
            return Ok(None)
        };
        let at = *self.live.get(place).ok_or("no such tuple")?;
        let length = draw_length(draws);
        let first = draws.below(256) as u8;
        let mut bytes = [0u8; 2400];
        fill(&mut bytes, first);
        let body = bytes.get(..usize::from(length)).ok_or("too long a body")?;
        replace(&mut self.store, at, body)?;
        self.plain.put(at, length, first)?;
        Ok(Some(at))
    }

    /// Takes one of the tuples away.
    fn remove(&mut self, draws: &mut Draws) -> Result<Option<Tid>, Fail> {
        let Some(place) = self.draw(draws) else {
            return Ok(None)
        };
        if place >= self.live.len() {
            return Ok(None);
        }
        let at = self.live.swap_remove(place);
        remove(&mut self.store, at)?;
        self.plain.remove(at)?;
        Ok(Some(at))
    }

    /// One change: of each turn's halves, the first has more that are put, the second more that are
    /// taken away. If no page is spare, a tuple is taken away.
    fn change(&mut self, draws: &mut Draws, number: u32) -> Result<Option<Tid>, Fail> {
        let kind = draws.below(8);
        if self.store.pages.spare() == 0 {
            return self.remove(draws);
        }
        let puts = if number % TURN < TURN / 2 { 4 } else { 2 };
        if kind < puts {
            self.insert(draws)
        } else if kind < 6 {
            self.replace(draws)
        } else {
            self.remove(draws)
        }
    }

    /// The tuple has its body, and it stands where it is to be.
    fn assert_tuple(&mut self, at: Tid) -> Result<(), Fail> {
        let home = self.plain.home(at);
        let entry = entry_at(&mut self.store, Space::Home, at)?;
        assert_same(&is_entry(entry, home), &true, (at, entry, home))?;
        let is_mapped = self.store.pages.has(key_of(Space::Home, at.page));
        let before = self.store.pages.asks();
        let mut body = Body::new();
        let live = fetch(&mut self.store, at, &mut body)?;
        let asks = self.store.pages.asks().saturating_sub(before);
        assert_same(&asks, &asks_of(home, is_mapped), (at, home))?;
        let Held::Body { length, first } = self.plain.body(at) else {
            return assert_same(&live, &false, at);
        };
        assert_same(&live, &true, at)?;
        let mut bytes = [0u8; 2400];
        fill(&mut bytes, first);
        let want = bytes.get(..usize::from(length)).ok_or("too long a body")?;
        assert_same_slices(body.as_slice(), want, at)
    }

    /// Each entry of each page is as it is to be, and the tuples come one after another.
    fn assert_all(&mut self) -> Result<(), Fail> {
        let spare = SLOTS.saturating_sub(self.plain.pages());
        assert_same(&self.store.pages.spare(), &spare, "pages")?;
        let mut last = None;
        for page in 0..SLOTS {
            self.assert_page(page)?;
            for slot in 0..128u16 {
                let at = tid(page, slot);
                if self.plain.home(at) != Held::Nothing {
                    self.assert_tuple(at)?;
                    assert_same(&next_live(&mut self.store, last)?, &Some(at), at)?;
                    last = Some(at);
                }
            }
        }
        assert_same(&next_live(&mut self.store, last)?, &None, last)
    }

    fn assert_page(&mut self, number: u32) -> Result<(), Fail> {
        let homes = entries_of(&mut self.store, Space::Home, number)?;
        for (slot, found) in homes.iter().enumerate() {
            let at = tid(number, slot as u16);
            assert_same(&is_entry(*found, self.plain.home(at)), &true, at)?;
        }
        let overflows = entries_of(&mut self.store, Space::Overflow, number)?;
        for (slot, found) in overflows.iter().enumerate() {
            let at = tid(number, slot as u16);
            assert_same(&is_entry(*found, self.plain.overflow(at)), &true, at)?;
        }
        Ok(())
    }
}

fn change_from(alloc: Global, seed: u64) -> Result<(), Fail> {
    let mut beside = Beside::new(alloc)?;
    let mut draws = Draws::new(seed);
    for number in 0..CHANGES {
        if let Some(at) = beside.change(&mut draws, number)? {
            beside.assert_tuple(at)?;
        }
        if number % TURN == TURN / 2 {
            beside.assert_all()?;
        }
    }
    beside.assert_all()
}

#[test]
fn tuples_are_as_in_plain_lists(rt: HostRuntime) -> Result<(), Fail> {
    change_from(rt.alloc(), 1)
}

#[test]
fn and_from_a_second_seed(rt: HostRuntime) -> Result<(), Fail> {
    change_from(rt.alloc(), 2)
}

#[test]
fn and_from_a_third_seed(rt: HostRuntime) -> Result<(), Fail> {
    change_from(rt.alloc(), 3)
}

#[test]
fn and_from_a_fourth_seed(rt: HostRuntime) -> Result<(), Fail> {
    change_from(rt.alloc(), 4)
}
