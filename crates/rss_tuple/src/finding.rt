// The first page of a space with a free entry and enough free bytes.
ghost use Rattle.std.specs.Prelude.{◌≡◌, ◌<◌, ◌≤◌, ◌↔◌, true, None, IsTrue, MatchOption, IfOk};
ghost use Rattle.rss_base.specs.DiskRule.{IsTold};
ghost use Rattle.rss_base.specs.Sizes.{page_entries};
ghost use Rattle.rss_base.specs.Notes.{is_noted_space};
ghost use Rattle.rss_base.specs.Steps.{PagesCall, only, pages_in};
ghost use Rattle.rss_page.specs.Slotted.{entries};
ghost use Rattle.rss_tuple.specs.Directory.{contents};
ghost use Rattle.rss_page.specs.Content.{Empty};
ghost use Rattle.rss_page.specs.Surveyed.{held_at, IsSurvey};
ghost use Rattle.rss_tuple.specs.Heaps.{body_most, AreFormed};
ghost use Rattle.rss_tuple.specs.Calls.{IsSegment};
ghost use Rattle.rss_tuple.specs.Edits.{KeepsEntries};
ghost use Rattle.rss_tuple.specs.Spots.{AreBarred, IsFirstOpen, NoneOpen, HasSpot, HasNoSpot};
ghost use Rattle.rss_tuple.specs.Spots.{IsRoom, IsPassedBy, ReadsSpot, FindsSpot};

use crate::keys::damaged;
use rss_base::{PAGE_ENTRIES, Page, PageFault, PageKey, Pages, Space, Tid};
use rss_page::{ENTRIES, Entry, Survey, entry, survey};

/// For each slot of a page, whether its identifier is barred.
type Slots = [bool; PAGE_ENTRIES];

/// The slots of the page `number` that are barred.
fn barred_slots(number: u32, barred: &[Tid]) -> Slots
    ensures { AreBarred barred.now number result }
{
    let mut slots = [false; PAGE_ENTRIES];
    for tid in barred {
        if tid.page == number && tid.slot < u16::from(ENTRIES) {
            slots[usize::from(tid.slot)] = true;
        }
    }
    slots
}

/// The first slot of a page whose entry is empty, and whose identifier isn't barred.
pub(crate) fn first_open(page: &Page, number: u32, barred: &[Tid]) -> Option<u8>
    ensures { MatchOption result (NoneOpen (entries page.now) barred.now number)
        (IsFirstOpen (entries page.now) barred.now number) }
{
    let slots = barred_slots(number, barred);
    for slot in 0..ENTRIES {
        if !slots[usize::from(slot)] && is_empty(page, slot) {
            return Some(slot);
        }
    }
    None
}

/// Whether an entry holds nothing.
pub(crate) fn is_empty(page: &Page, slot: u8) -> bool
    requires { slot < page_entries }
    ensures { IsTrue result ↔ (held_at (entries page.now) slot ≡ Empty) }
{
    match entry(page, slot) {
        Entry::Empty => true,
        Entry::Here { .. } | Entry::Forward { .. } => false,
    }
}

/// The first such slot of a page that has so many free bytes.
fn spot_in(page: &Page, number: u32, length: u16, barred: &[Tid], found: &Survey) -> Option<u8>
    requires { IsSurvey page.now found.now }
    ensures { MatchOption result (HasNoSpot (entries page.now) length barred.now number)
        (HasSpot (entries page.now) length barred.now number) }
{
    if found.free < length {
        return None;
    }
    if barred.is_empty() {
        return found.first_empty;
    }
    first_open(page, number, barred)
}

/// What is noted on a page: 0 if no entry is empty, otherwise 1 and the free bytes.
pub(crate) fn room_of(page: &Page, found: &Survey) -> u16
    requires { IsSurvey page.now found.now }
    ensures { IsRoom (entries page.now) result }
{
    match found.first_empty {
        None => 0,
        Some(_) => found.free + 1,
    }
}

/// A free entry that was found, and what a walk over its page found.
#[derive(Clone, Copy)]
pub(crate) struct Spot {
    pub(crate) tid: Tid,
    pub(crate) found: Survey,
}

/// Looks for such a slot in a mapped page. If there is one, the page is left in `into`; if there is
/// none, the page's room is noted.
fn try_page<P: Pages>(
    pages: &mut P,
    key: PageKey,
    length: u16,
    barred: &[Tid],
    into: &mut Page,
) -> Result<Option<Spot>, PageFault>
    requires noted { is_noted_space key.space ≡ true }
    requires mapped { (P.view pages.old).mapped key ≡ true }
    requires formed { IsTold (P.view pages.old).disk → AreFormed (P.view pages.old) }
    ensures found { IfOk result (λ found. MatchOption found (IsTold (P.view pages.old).disk
        → HasNoSpot (contents (P.view pages.old).held key) length barred.now key.number)
        (ReadsSpot (P.view pages.new) key into.new length barred.now)) }
    ensures noted { IfOk result (λ found. found ≡ None
        → IsPassedBy (P.view pages.new) key length barred.now) }
    ensures kept { KeepsEntries (P.view pages.old) (P.view pages.new) }
    ensures did { PagesCall (only key) 1 1 (P.view pages.old) (P.view pages.new) result }
{
    pages.load(key)?;
    let page = pages.loaded(key);
    let Some(found) = survey(page, key) else {
        return Err(damaged(key));
    };
    if let Some(slot) = spot_in(page, key.number, length, barred, &found) {
        *into = *page;
        let tid = Tid {
            page: key.number,
            slot: u16::from(slot),
        };
        return Ok(Some(Spot { tid, found }));
    }
    let room = room_of(page, &found);
    pages.note(key, room);
    Ok(None)
}

/// Finds the first page of a segment and a space that has a free entry whose identifier isn't barred
/// and so many free bytes, and there the first such entry. The page is left in `into`.
pub(crate) fn find_page<P: Pages>(
    pages: &mut P,
    segment: u8,
    space: Space,
    length: u16,
    barred: &[Tid],
    into: &mut Page,
) -> Result<Option<Spot>, PageFault>
    requires segment { IsSegment segment }
    requires noted { is_noted_space space ≡ true }
    requires most { length ≤ body_most }
    requires formed { IsTold (P.view pages.old).disk → AreFormed (P.view pages.old) }
    ensures found { IfOk result (FindsSpot (P.view pages.old) (P.view pages.new)
        (record { segment = segment; space = space; length = length; barred = barred.now })
        into.new) }
    ensures kept { KeepsEntries (P.view pages.old) (P.view pages.new) }
    ensures did { PagesCall (pages_in segment space) (P.view pages.old).slots
        (P.view pages.old).slots (P.view pages.old) (P.view pages.new) result }
{
    let mut from = 0;
    while let Some(number) = pages.first_noted(segment, space, from, length + 1) {
        let key = PageKey {
            segment,
            space,
            number,
        };
        if let Some(spot) = try_page(pages, key, length, barred, into)? {
            return Ok(Some(spot));
        }
        from = number + 1;
    }
    Ok(None)
}
