// Tuples that are put, moved and taken away.
ghost use Rattle.std.specs.Prelude.{◌≡◌, ◌+◌, ◌<◌, length, true, false, None, IfOk, IfErr, IfSome, IfNone, OnOk, OnErr};
ghost use Rattle.rss_base.specs.DiskRule.{IsTold};
ghost use Rattle.rss_base.specs.Sizes.{page_entries};
ghost use Rattle.rss_base.specs.Paged.{page_key};
ghost use Rattle.rss_base.specs.Steps.{PagesCall, no_page, only, pages_in};
ghost use Rattle.rss_base.specs.declared.key.Space.TheVariants.{Home, Overflow};
ghost use Rattle.rss_base.specs.declared.fault.PageFault.TheVariants.{Damaged as PageDamaged};
ghost use Rattle.rss_base.specs.declared.place.Place.TheVariants.{Page as PagePlace};
ghost use Rattle.rss_page.specs.Content.{Forward};
ghost use Rattle.rss_page.specs.Slotted.{entries, IsSlotted};
ghost use Rattle.rss_page.specs.Surveyed.{held_at, IsSurvey};
ghost use Rattle.rss_tuple.specs.Directory.{contents, content_at, tid_at};
ghost use Rattle.rss_tuple.specs.Heaps.{AreFormed, AreHeaps, HasBody};
ghost use Rattle.rss_tuple.specs.TupleSteps.{tuples_in, pages_for};
ghost use Rattle.rss_tuple.specs.Placing.{FitsHome, MayMove, TakesOnly, TakesOne};
ghost use Rattle.rss_tuple.specs.Calls.{MayPut, MayInsert, HasTuple, HasSpare, MayReplace, IsNowhere, damaged_home};
ghost use Rattle.rss_tuple.specs.Edits.{IsRead, IsCopied, HoldsAt, MayRead};
ghost use Rattle.rss_tuple.specs.Puts.{Changed, TakesAway, PutsAway, Puts, MovesBody, HomeRead, Stays};

use crate::entries::{
    clear, clear_in, entry_in, fill, load_there, put_forward, put_here, put_over, take_here, walk,
};
use crate::finding::{Spot, find_page, is_empty};
use crate::keys::{damaged, home, overflow};
use rss_base::{PAGE_BYTES, Page, PageFault, PageKey, Pages, Space, Tid};
use rss_page::{ENTRIES, Entry, Survey, entry, own_place};

// ---- a body and its place

/// Puts a body into the first entry of a new overflow page, and answers the page's number.
fn put_on_new<P: Pages>(pages: &mut P, segment: u8, body: &[u8]) -> Result<u32, PageFault>
    requires may { MayPut segment (length body.now) }
    requires room { 0 < (P.view pages.old).spare }
    requires formed { IsTold (P.view pages.old).disk → AreFormed (P.view pages.old) }
    ensures takes { IfOk result (λ number. IsTold (P.view pages.old).disk
        → TakesAway segment body.now (tid_at number 0) (P.view pages.old) (P.view pages.new)) }
    ensures one { IfOk result (λ number. TakesOnly (only (page_key segment Overflow number))
        (P.view pages.old) (P.view pages.new)) }
    ensures did { PagesCall (pages_in segment Overflow) 0 2 (P.view pages.old)
        (P.view pages.new) result }
{
    let number = pages.take(segment, Space::Overflow)?;
    fill(pages, overflow(segment, number), 0, body)?;
    Ok(number)
}

/// Tests that a page is spare for a tuple's body. If none is, the tuple's home page isn't what it
/// should be.
fn have_spare<P: Pages>(pages: &P, segment: u8, tid: Tid) -> Result<(), PageFault>
    ensures spare { OnOk result (0 < (P.view pages.now).spare) }
    ensures none { OnErr result ((P.view pages.now).spare ≡ 0) }
    ensures damaged { IfErr result
        (λ fault. fault ≡ PageDamaged (PagePlace (page_key segment Home tid.page))) }
{
    if pages.spare() == 0 {
        return Err(damaged(home(segment, tid.page)));
    }
    Ok(())
}

/// Puts a body into the first overflow page with a free entry and the bytes, or into a new one, and
/// answers where it stands. If no page is spare, the tuple's home page isn't what it should be.
fn put_away<P: Pages>(pages: &mut P, segment: u8, tid: Tid, body: &[u8]) -> Result<Tid, PageFault>
    requires may { MayPut segment (length body.now) }
    requires room { IsTold (P.view pages.old).disk → 0 < (P.view pages.old).spare }
    requires formed { IsTold (P.view pages.old).disk → AreFormed (P.view pages.old) }
    ensures puts { IfOk result (λ to. IsTold (P.view pages.old).disk
        → PutsAway segment body.now to (P.view pages.old) (P.view pages.new)) }
    ensures one { IfOk result (λ to. TakesOnly (only (page_key segment Overflow to.page))
        (P.view pages.old) (P.view pages.new)) }
    ensures low { IfOk result (λ to. to.slot < page_entries) }
    ensures did { PagesCall (pages_in segment Overflow) ((P.view pages.old).slots + 2)
        ((P.view pages.old).slots + 2) (P.view pages.old) (P.view pages.new) result }
{
    let length = body.len() as u16;
    let mut page = [0u8; PAGE_BYTES];
    match find_page(pages, segment, Space::Overflow, length, &[], &mut page)? {
        Some(Spot { tid: to, found }) => {
            let key = overflow(segment, to.page);
            put_here(pages, key, &mut page, to.slot as u8, body, &found)?;
            Ok(to)
        }
        None => {
            have_spare(pages, segment, tid)?;
            let page = put_on_new(pages, segment, body)?;
            Ok(Tid { page, slot: 0 })
        }
    }
}

/// Puts a body into its home entry if it fits there, otherwise into an overflow page, to which the
/// home entry leads then.
fn place<P: Pages>(
    pages: &mut P,
    segment: u8,
    tid: Tid,
    page: &mut Page,
    body: &[u8],
    found: &Survey,
) -> Result<(), PageFault>
    requires may { MayPut segment (length body.now) }
    requires home { HomeRead (P.view pages.old) segment tid page.old }
    requires found { IsSurvey page.old found.now }
    requires formed { IsTold (P.view pages.old).disk → AreFormed (P.view pages.old) }
    requires away { IsTold (P.view pages.old).disk
        → (FitsHome (P.view pages.old) segment tid (length body.now) → ⊥)
        → MayMove (P.view pages.old) segment tid (length body.now) }
    ensures puts { OnOk result (IsTold (P.view pages.old).disk
        → Puts segment tid body.now (P.view pages.old) (P.view pages.new)) }
    ensures takes { OnOk result (TakesOne segment tid body.now (P.view pages.old)
        (P.view pages.new)) }
    ensures did { PagesCall (pages_for segment tid) ((P.view pages.old).slots + 3)
        ((P.view pages.old).slots + 3) (P.view pages.old) (P.view pages.new) result }
{
    let key = home(segment, tid.page);
    let slot = tid.slot as u8;
    if found.has_room(page, slot, body.len() as u16) {
        return put_here(pages, key, page, slot, body, found);
    }
    let to = put_away(pages, segment, tid, body)?;
    put_forward(pages, key, page, slot, to)
}

// ---- the calls, by the entries of pages

/// Puts a tuple at an identifier that none has. The home page is taken if it isn't mapped.
pub(crate) fn insert_at<P: Pages>(
    pages: &mut P,
    segment: u8,
    tid: Tid,
    body: &[u8],
) -> Result<(), PageFault>
    requires { MayInsert (tuples_in (P.view pages.old)) segment tid (length body.now) }
    ensures { MovesBody segment tid body.now ((P.view pages.old).slots + 4) (P.view pages.old)
        (P.view pages.new) result }
{
    let key = home(segment, tid.page);
    if !pages.has(key) {
        return take_here(pages, key, tid.slot as u8, body);
    }
    load_there(pages, key)?;
    let mut page = *pages.loaded(key);
    let found = walk(&page, key)?;
    place(pages, segment, tid, &mut page, body, &found)
}

/// Takes a tuple away. A page whose entries are all empty then is given back.
pub(crate) fn remove<P: Pages>(pages: &mut P, segment: u8, tid: Tid) -> Result<(), PageFault>
    requires { HasTuple (tuples_in (P.view pages.old)) segment tid }
    ensures changed { OnOk result (IsTold (P.view pages.old).disk
        → Changed segment tid None (P.view pages.old) (P.view pages.new)) }
    ensures takes { OnOk result (TakesOnly no_page (P.view pages.old) (P.view pages.new)) }
    ensures did { PagesCall (pages_for segment tid) 4 4 (P.view pages.old)
        (P.view pages.new) result }
    ensures nowhere { IsNowhere (tuples_in (P.view pages.old)) segment tid
        → result ≡ damaged_home segment tid }
{
    let key = home(segment, tid.page);
    if tid.slot >= u16::from(ENTRIES) {
        return Err(damaged(key));
    }
    load_there(pages, key)?;
    let mut page = *pages.loaded(key);
    remove_from(pages, segment, tid, &mut page)
}

/// Takes a tuple away whose home page was copied. If the page isn't that of this key, or has no
/// tuple there, it is damaged.
fn remove_from<P: Pages>(
    pages: &mut P,
    segment: u8,
    tid: Tid,
    page: &mut Page,
) -> Result<(), PageFault>
    requires copied { IsCopied (P.view pages.old) (page_key segment Home tid.page) page.old }
    requires low { tid.slot < page_entries }
    requires there { HasTuple (tuples_in (P.view pages.old)) segment tid }
    ensures changed { OnOk result (IsTold (P.view pages.old).disk
        → Changed segment tid None (P.view pages.old) (P.view pages.new)) }
    ensures takes { OnOk result (TakesOnly no_page (P.view pages.old) (P.view pages.new)) }
    ensures ill { (HoldsAt (page_key segment Home tid.page) tid.slot page.old → ⊥)
        → result ≡ damaged_home segment tid }
    ensures did { PagesCall (pages_for segment tid) 3 3 (P.view pages.old)
        (P.view pages.new) result }
{
    let key = home(segment, tid.page);
    let slot = tid.slot as u8;
    match entry_in(page, key, slot)? {
        Entry::Empty => Err(damaged(key)),
        Entry::Here { .. } => clear_in(pages, key, page, slot),
        Entry::Forward {
            page: to,
            slot: to_slot,
        } => {
            clear_in(pages, key, page, slot)?;
            clear(pages, overflow(segment, to), to_slot)
        }
    }
}

/// Puts another body in place of that of a tuple. One that stands in its home page and isn't shorter
/// is written over.
pub(crate) fn replace<P: Pages>(
    pages: &mut P,
    segment: u8,
    tid: Tid,
    body: &[u8],
) -> Result<(), PageFault>
    requires { MayReplace (tuples_in (P.view pages.old)) segment tid (length body.now) }
    ensures moves { MovesBody segment tid body.now ((P.view pages.old).slots + 7)
        (P.view pages.old) (P.view pages.new) result }
    ensures nowhere { IsNowhere (tuples_in (P.view pages.old)) segment tid
        → result ≡ damaged_home segment tid }
{
    let key = home(segment, tid.page);
    if tid.slot >= u16::from(ENTRIES) {
        return Err(damaged(key));
    }
    load_there(pages, key)?;
    let mut page = *pages.loaded(key);
    replace_in(pages, segment, tid, &mut page, body)
}

/// Puts another body in place of that of a tuple whose home page was copied. If the page isn't that
/// of this key, or has no tuple there, it is damaged.
fn replace_in<P: Pages>(
    pages: &mut P,
    segment: u8,
    tid: Tid,
    page: &mut Page,
    body: &[u8],
) -> Result<(), PageFault>
    requires copied { IsCopied (P.view pages.old) (page_key segment Home tid.page) page.old }
    requires low { tid.slot < page_entries }
    requires may { MayReplace (tuples_in (P.view pages.old)) segment tid (length body.now) }
    ensures moves { MovesBody segment tid body.now ((P.view pages.old).slots + 6)
        (P.view pages.old) (P.view pages.new) result }
    ensures ill { (HoldsAt (page_key segment Home tid.page) tid.slot page.old → ⊥)
        → result ≡ damaged_home segment tid }
{
    let key = home(segment, tid.page);
    let slot = tid.slot as u8;
    entry_in(page, key, slot)?;
    if let Some(place) = own_place(page, slot, body.len() as u16) {
        return put_over(pages, key, page, slot, place, body);
    }
    let found = walk(page, key)?;
    match entry(page, slot) {
        Entry::Empty => Err(damaged(key)),
        Entry::Here { .. } => place(pages, segment, tid, page, body, &found),
        Entry::Forward {
            page: to,
            slot: to_slot,
        } => move_on(pages, segment, tid, page, to, to_slot, body, &found),
    }
}

/// Whether a body of this length stays in the overflow page where it stands: it fits there, and not
/// at home. Then the page is left in `away`, and what a walk over it finds is answered. If no body
/// stands there, the page is damaged.
fn stays<P: Pages>(
    pages: &mut P,
    home: &Page,
    found: &Survey,
    slot: u8,
    key: PageKey,
    away: &mut Page,
    to_slot: u8,
    length: u16,
) -> Result<Option<Survey>, PageFault>
    requires slotted { IsSlotted home.now }
    requires found { IsSurvey home.now found.now }
    requires slot { slot < page_entries }
    requires to_slot { to_slot < page_entries }
    requires may { MayRead (P.view pages.old) key }
    requires body { IsTold (P.view pages.old).disk
        → HasBody (content_at (P.view pages.old).held key to_slot) }
    ensures holds { IfOk result (λ stays. IfSome stays (λ _. HoldsAt key to_slot away.new)) }
    ensures read { IfOk result (λ stays. IfSome stays
        (λ _. IsRead (P.view pages.new) key away.new)) }
    ensures found { IfOk result (λ stays. IfSome stays (IsSurvey away.new)) }
    ensures stays { IfOk result (λ stays. IfSome stays
        (λ _. Stays (entries home.now) slot (entries away.new) to_slot length)) }
    ensures leaves { IfOk result (λ stays. IfNone stays (IsTold (P.view pages.old).disk
        → Stays (entries home.now) slot (contents (P.view pages.old).held key) to_slot length → ⊥)) }
    ensures did { PagesCall no_page 1 1 (P.view pages.old) (P.view pages.new) result }
{
    if found.has_room(home, slot, length) {
        return Ok(None);
    }
    load_there(pages, key)?;
    *away = *pages.loaded(key);
    let there = walk(away, key)?;
    if is_empty(away, to_slot) {
        return Err(damaged(key));
    }
    if there.has_room(away, to_slot, length) {
        Ok(Some(there))
    } else {
        Ok(None)
    }
}

/// Puts another body in place of one that stands in an overflow page.
fn move_on<P: Pages>(
    pages: &mut P,
    segment: u8,
    tid: Tid,
    page: &mut Page,
    to: u32,
    to_slot: u8,
    body: &[u8],
    found: &Survey,
) -> Result<(), PageFault>
    requires may { MayPut segment (length body.now) }
    requires home { HomeRead (P.view pages.old) segment tid page.old }
    requires found { IsSurvey page.old found.now }
    requires leads { held_at (entries page.old) tid.slot ≡ Forward to to_slot }
    requires to_slot { to_slot < page_entries }
    requires heaps { IsTold (P.view pages.old).disk → AreHeaps (P.view pages.old) }
    requires room { HasSpare (tuples_in (P.view pages.old)) segment tid (length body.now) }
    ensures { MovesBody segment tid body.now ((P.view pages.old).slots + 6) (P.view pages.old)
        (P.view pages.new) result }
{
    let key = overflow(segment, to);
    let mut away = [0u8; PAGE_BYTES];
    let length = body.len() as u16;
    let slot = tid.slot as u8;
    match stays(pages, page, found, slot, key, &mut away, to_slot, length)? {
        Some(there) => put_here(pages, key, &mut away, to_slot, body, &there),
        None => {
            place(pages, segment, tid, page, body, found)?;
            clear(pages, key, to_slot)
        }
    }
}
