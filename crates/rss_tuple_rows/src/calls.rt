// Calls on a store that are made only where they may be.
ghost use Rattle.std.specs.Prelude.{ℕ, ◌<◌, length, IsTrue};
ghost use Rattle.rss_base.specs.PageMap.{IsKey};
ghost use Rattle.rss_tuple.specs.Calls.{IsBodyLength};

use rss_base::{BODY_BYTES, Body, Page, PageFault, PageKey, Pages, Space, Tid};
use rss_device::MemPages;
use rss_images::Untold;
use rss_page::{ENTRIES, Entry, entry};
use rss_tuple::{Store, Tuples};
use std::alloc::Global;
use std::test::Fail;

/// How many pages a store has room for.
pub(crate) const SLOTS: u32 = 64;

/// The segment of all tuples.
const SEGMENT: u8 = 1;

/// Tuples in pages in memory.
pub(crate) type Tried = Store<Untold<MemPages>>;

/// Why a call was not made, or not answered.
#[derive(Clone, Copy, Debug, PartialEq)]
pub(crate) enum Undone {
    Fault(PageFault),
    /// It may not be made, for this reason.
    Refused(&'static str),
}

impl From<PageFault> for Undone {
    fn from(fault: PageFault) -> Self {
        Undone::Fault(fault)
    }
}

pub(crate) fn empty(alloc: Global) -> Result<Tried, Fail> {
    let pages = MemPages::new(alloc, SLOTS)?;
    Ok(Store::new(Untold::new(pages)))
}

pub(crate) fn tid(page: u32, slot: u16) -> Tid {
    Tid { page, slot }
}

pub(crate) fn key_of(space: Space, number: u32) -> PageKey {
    PageKey {
        segment: SEGMENT,
        space,
        number,
    }
}

fn is_body(body: &[u8]) -> bool
    ensures { IsTrue result → IsBodyLength (length body.now) }
{
    !body.is_empty() && body.len() <= BODY_BYTES
}

#[tactic(auto, using(rss_images::specs::Silent::never_told))]
pub(crate) fn choose(
    store: &mut Tried,
    length: u16,
    barred: &[Tid],
) -> Result<Option<Tid>, Undone> {
    if length < 1 || length > 2400 {
        return Err(Undone::Refused("no body of a tuple"));
    }
    Ok(store.choose(SEGMENT, length, barred)?)
}

#[tactic(auto, using(rss_images::specs::Silent::never_told))]
pub(crate) fn insert_at(store: &mut Tried, tid: Tid, body: &[u8]) -> Result<(), Undone> {
    if !is_body(body) {
        return Err(Undone::Refused("no body of a tuple"));
    }
    if tid.page >= store.pages.slots() || tid.slot >= u16::from(ENTRIES) {
        return Err(Undone::Refused("no identifier"));
    }
    if store.pages.spare() == 0 {
        return Err(Undone::Refused("no page is spare"));
    }
    Ok(store.insert_at(SEGMENT, tid, body)?)
}

#[tactic(auto, using(rss_images::specs::Silent::never_told))]
pub(crate) fn replace(store: &mut Tried, tid: Tid, body: &[u8]) -> Result<(), Undone> {
    if !is_body(body) {
        return Err(Undone::Refused("no body of a tuple"));
    }
    Ok(store.replace(SEGMENT, tid, body)?)
}

#[tactic(auto, using(rss_images::specs::Silent::never_told))]
pub(crate) fn remove(store: &mut Tried, tid: Tid) -> Result<(), Undone> {
    Ok(store.remove(SEGMENT, tid)?)
}

#[tactic(auto, using(rss_images::specs::Silent::never_told))]
pub(crate) fn fetch(store: &mut Tried, tid: Tid, into: &mut Body) -> Result<bool, Undone> {
    Ok(store.fetch(SEGMENT, tid, into)?)
}

#[tactic(auto, using(rss_images::specs::Silent::never_told))]
pub(crate) fn next_live(store: &mut Tried, after: Option<Tid>) -> Result<Option<Tid>, Undone> {
    Ok(store.next_live(SEGMENT, after)?)
}

/// Puts any bytes as a home page that isn't mapped.
pub(crate) fn put_home(store: &mut Tried, number: u32, page: &Page) -> Result<(), Undone> {
    let key = PageKey {
        segment: SEGMENT,
        space: Space::Home,
        number,
    };
    put_page(store, key, page)
}

/// The same of an overflow page.
pub(crate) fn put_overflow(store: &mut Tried, number: u32, page: &Page) -> Result<(), Undone> {
    let key = PageKey {
        segment: SEGMENT,
        space: Space::Overflow,
        number,
    };
    put_page(store, key, page)
}

fn put_page(store: &mut Tried, key: PageKey, page: &Page) -> Result<(), Undone>
    requires { (slots : ℕ) → key.number < slots → IsKey slots key }
{
    if store.pages.has(key) || key.number >= store.pages.slots() || store.pages.spare() == 0 {
        return Err(Undone::Refused("no page can be taken"));
    }
    store.pages.take_at(key)?;
    if store.pages.has(key) {
        store.pages.write(key, page)?;
    }
    Ok(())
}

/// What the entries of a page hold, which is nothing if the page isn't mapped.
pub(crate) fn entries_of(
    store: &mut Tried,
    space: Space,
    number: u32,
) -> Result<[Entry; 128], Undone> {
    let mut entries = [Entry::Empty; 128];
    let key = key_of(space, number);
    if !store.pages.has(key) {
        return Ok(entries);
    }
    store.pages.load(key)?;
    let page = store.pages.loaded(key);
    for slot in 0..ENTRIES {
        entries[usize::from(slot)] = entry(page, slot);
    }
    Ok(entries)
}

/// What an entry of a page holds.
pub(crate) fn entry_at(store: &mut Tried, space: Space, at: Tid) -> Result<Entry, Undone> {
    let key = key_of(space, at.page);
    if !store.pages.has(key) || at.slot >= u16::from(ENTRIES) {
        return Ok(Entry::Empty);
    }
    store.pages.load(key)?;
    Ok(entry(store.pages.loaded(key), at.slot as u8))
}
