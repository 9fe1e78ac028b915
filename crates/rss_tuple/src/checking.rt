// A look through all pages of a segment, whatever they hold.
ghost use Rattle.std.specs.Prelude.{◌≡◌, ◌↔◌, ◌*◌, ◌-◌, ◌<◌, ◌≤◌, ◌++◌, ◌∷◌, [], Some, Bool, List, length, ℕ, true, false, IsTrue, OnOk, IfOk, IfSome, IfNone, Err, IsErrOf};
ghost use Rattle.rss_base.specs.DiskRule.{IsTold};
ghost use Rattle.rss_base.specs.Notes.{is_noted_space, note_most};
ghost use Rattle.rss_base.specs.Paged.{page_key};
ghost use Rattle.rss_base.specs.Sizes.{page_entries};
ghost use Rattle.rss_base.specs.Steps.{no_page, only, pages_in};
ghost use Rattle.rss_base.specs.declared.key.Space.TheVariants.{Home, Overflow};
ghost use Rattle.rss_base.specs.declared.fault.PageFault.TheVariants.{Damaged as PageDamaged, Device as PageDevice};
ghost use Rattle.rss_base.specs.declared.place.Place.{Place as AnyPlace};
ghost use Rattle.rss_base.specs.declared.place.Place.TheVariants.{Room};
ghost use Rattle.rss_page.specs.Content.{Forward};
ghost use Rattle.rss_page.specs.Slotted.{entries, IsSlotted, IsWellFormed};
ghost use Rattle.rss_page.specs.Surveyed.{held_at};
ghost use Rattle.rss_tuple.specs.Calls.{IsSegment};
ghost use Rattle.rss_tuple.specs.Directory.{contents, homes, overflows, body_in, body_by};
ghost use Rattle.rss_tuple.specs.Heaps.{CoversRoom};
ghost use Rattle.rss_tuple.specs.Flaws.{IsPageRight, ArePagesRight, NamesPage, IsBodyRight, IsFirstFlaw, flaw_of};
ghost use Rattle.rss_tuple.specs.Spots.{IsRoom};
ghost use Rattle.rss_base.specs.Looking.{ChecksPages};
ghost use Rattle.rss_tuple.specs.Checked.{Rows, row_of, rows_on, tuples_of, pages_of, IsSound, AreNoted};
ghost use Rattle.rss_tuple.specs.Looks.{LooksCall, nowhere, pages_from, Sees, IsNotedAt, LooksAt, StopsAt};
ghost use Rattle.rss_tuple.specs.Looks.{IsMarked, MarksGoal, AreMarked, AreAllMarked, HasUnmarked, IsFirstUnmarked, HasGood, MayHold, MayStand, in_front, AreSeen};

use crate::entries::entry_in;
use crate::finding::{is_empty, room_of};
use crate::flaw::Flaw;
use crate::keys::{damaged, home, overflow};
use rss_base::{BODY_BYTES, PAGE_BYTES, Page, PageFault, PageKey, Pages, Space, Tid};
use rss_page::{ENTRIES, Entry, bytes_at, entry, survey};
use std::alloc::Global;

/// What sees each tuple of a segment once, in the order of their identifiers.
pub trait Visitor {
    /// Which bodies may stand there.
    ghost is_good: { Self → List ℕ → Bool };

    /// It has seen these tuples, the first one first.
    ghost saw: { Self → Rows → Type 0 };

    /// Sees a tuple, and tells whether the body may stand there.
    fn see(&mut self, tid: Tid, body: &[u8]) -> bool
        ensures good { result ≡ is_good self.old body.now }
        ensures same { is_good self.new ≡ is_good self.old }
        ensures saw { (rows : Rows) → saw self.old rows
            → saw self.new (rows ++ (tid, body.now) ∷ []) };
}

/// Looks through the home and the overflow pages of a segment, in the order of their numbers. It
/// shows the visitor each tuple once, in the order of their identifiers, up to the first entry that
/// isn't right. `Damaged` names the first page that isn't well-formed or has only empty entries. If
/// there is none, the answer is the first flaw. Without a flaw, each page's room is noted. Memory
/// is taken in proportion to the slots.
pub fn check<P: Pages, V: Visitor>(
    alloc: Global,
    pages: &mut P,
    segment: u8,
    visitor: &mut V,
) -> Result<Option<Flaw>, PageFault>
    requires segment { IsSegment segment }
    ensures sound { IfOk result (λ flaw. IfNone flaw (IsTold (P.view pages.old).disk
        → IsSound (P.view pages.old).held segment (V.is_good visitor.old))) }
    ensures saw { IfOk result (λ flaw. IfNone flaw (IsTold (P.view pages.old).disk
        → Sees V.is_good V.saw visitor.old visitor.new (tuples_of (P.view pages.old).held segment
        (P.view pages.old).slots))) }
    ensures noted { IfOk result (λ flaw. IfNone flaw (IsTold (P.view pages.old).disk
        → AreNoted segment (P.view pages.new))) }
    ensures formed { OnOk result (IsTold (P.view pages.old).disk
        → ArePagesRight (P.view pages.old).held (pages_of segment)) }
    ensures flaw { IfOk result (λ flaw. IfSome flaw (λ which. IsTold (P.view pages.old).disk
        → IsFirstFlaw (P.view pages.old).held segment (V.is_good visitor.old) which)) }
    ensures damaged { (place : AnyPlace) → result ≡ Err (PageDamaged place)
        → IsTold (P.view pages.old).disk
        → NamesPage (P.view pages.old).held (pages_of segment) place }
    ensures elsewhere { IsErrOf result (PageDamaged Room) → ⊥ }
    ensures did { ChecksPages (pages_of segment) (130 * (P.view pages.old).slots)
        (P.view pages.old) (P.view pages.new) result }
{
    let slots = pages.slots();
    let Ok(mut led) = vec![in alloc; 0u128; slots as usize] else {
        return Err(PageFault::NoMemory);
    };
    let wrong = look_at_homes(pages, segment, led.as_mut_slice(), visitor)?;
    let unled = look_at_overflows(pages, segment, led.as_slice())?;
    Ok(first_flaw(wrong, unled))
}

/// The first flaw, if `wrong` is the first entry that isn't right, and `unled` the first overflow
/// page with an entry that isn't led to.
fn first_flaw(wrong: Option<Tid>, unled: Option<u32>) -> Option<Flaw>
    ensures { result ≡ flaw_of wrong unled }
{
    match wrong {
        Some(tid) => Some(Flaw::Entry(tid)),
        None => unled.map(Flaw::Unled),
    }
}

/// Looks at each home page, and up to the first entry that isn't right at each of their entries. It
/// answers the identifier of that one.
fn look_at_homes<P: Pages, V: Visitor>(
    pages: &mut P,
    segment: u8,
    led: &mut [u128],
    visitor: &mut V,
) -> Result<Option<Tid>, PageFault>
    requires segment { IsSegment segment }
    requires size { length led.old ≡ (P.view pages.old).slots }
    requires none { (page slot : ℕ) → IsMarked led.old page slot → ⊥ }
    ensures formed { OnOk result (IsTold (P.view pages.old).disk
        → ArePagesRight (P.view pages.old).held (pages_in segment Home)) }
    ensures noted { IfOk result (λ wrong. IfNone wrong (IsTold (P.view pages.old).disk
        → (number : ℕ)
        → IsNotedAt (P.view pages.old).held (P.view pages.new) (page_key segment Home number))) }
    ensures seen { IfOk result (λ wrong. IfNone wrong (IsTold (P.view pages.old).disk
        → AreSeen (homes (P.view pages.old).held segment) (overflows (P.view pages.old).held segment)
        (V.is_good visitor.old) led.new (in_front (P.view pages.old).slots 0))) }
    ensures saw { IfOk result (λ wrong. IfNone wrong (IsTold (P.view pages.old).disk
        → Sees V.is_good V.saw visitor.old visitor.new (tuples_of (P.view pages.old).held segment
        (P.view pages.old).slots))) }
    ensures stops { IfOk result (λ wrong. IfSome wrong (λ tid. IsTold (P.view pages.old).disk
        → StopsAt (P.view pages.old).held segment (V.is_good visitor.old) tid)) }
    ensures size { OnOk result (length led.new ≡ (P.view pages.old).slots) }
    ensures did { LooksCall (NamesPage (P.view pages.old).held (pages_in segment Home))
        (pages_in segment Home) (129 * (P.view pages.old).slots)
        (P.view pages.old) (P.view pages.new) result }
{
    let mut from = 0;
    while let Some(number) = pages.first_mapped(segment, Space::Home, from) {
        let wrong = look_at_home(pages, segment, number, led, visitor)?;
        if let Some(tid) = wrong {
            look_at_forms(pages, segment, Space::Home, number + 1)?;
            return Ok(Some(tid));
        }
        from = number + 1;
    }
    Ok(None)
}

/// Looks at a home page: at each of its entries up to the first that isn't right, and at what they
/// lead to. It answers the identifier of that one.
fn look_at_home<P: Pages, V: Visitor>(
    pages: &mut P,
    segment: u8,
    number: u32,
    led: &mut [u128],
    visitor: &mut V,
) -> Result<Option<Tid>, PageFault>
    requires mapped { (P.view pages.old).mapped (page_key segment Home number) ≡ true }
    requires size { length led.old ≡ (P.view pages.old).slots }
    requires seen { IsTold (P.view pages.old).disk
        → AreSeen (homes (P.view pages.old).held segment) (overflows (P.view pages.old).held segment)
        (V.is_good visitor.old) led.old (in_front number 0) }
    ensures noted { OnOk result (IsTold (P.view pages.old).disk
        → IsNotedAt (P.view pages.old).held (P.view pages.new) (page_key segment Home number)) }
    ensures seen { IfOk result (λ wrong. IfNone wrong (IsTold (P.view pages.old).disk
        → AreSeen (homes (P.view pages.old).held segment) (overflows (P.view pages.old).held segment)
        (V.is_good visitor.old) led.new (in_front number page_entries))) }
    ensures saw { IfOk result (λ wrong. IfNone wrong (IsTold (P.view pages.old).disk
        → Sees V.is_good V.saw visitor.old visitor.new
        (rows_on (P.view pages.old).held segment number))) }
    ensures stops { IfOk result (λ wrong. IfSome wrong (λ tid. IsTold (P.view pages.old).disk
        → StopsAt (P.view pages.old).held segment (V.is_good visitor.old) tid)) }
    ensures size { OnOk result (length led.new ≡ (P.view pages.old).slots) }
    ensures did { LooksCall (NamesPage (P.view pages.old).held (only (page_key segment Home number)))
        (only (page_key segment Home number)) 129 (P.view pages.old) (P.view pages.new) result }
{
    let mut page = [0u8; PAGE_BYTES];
    look_at(pages, home(segment, number), &mut page)?;
    for slot in 0..ENTRIES {
        let tid = Tid {
            page: number,
            slot: u16::from(slot),
        };
        let is_right = look_in(pages, &page, segment, tid, led, visitor)?;
        if !is_right {
            return Ok(Some(tid));
        }
    }
    Ok(None)
}

/// Looks at an entry of a home page and at what it leads to, and tells whether it is right.
fn look_in<P: Pages, V: Visitor>(
    pages: &mut P,
    page: &Page,
    segment: u8,
    tid: Tid,
    led: &mut [u128],
    visitor: &mut V,
) -> Result<bool, PageFault>
    requires slot { tid.slot < page_entries }
    requires slotted { IsSlotted page.now }
    requires size { length led.old ≡ (P.view pages.old).slots }
    ensures holds { IfOk result (λ right. right ≡ true → IsTold (P.view pages.old).disk
        → MayHold (overflows (P.view pages.old).held segment) led.old (V.is_good visitor.old)
        (held_at (entries page.now) tid.slot)) }
    ensures wrong { IfOk result (λ right. right ≡ false → IsTold (P.view pages.old).disk
        → MayStand (P.view pages.old).held segment led.old (V.is_good visitor.old)
        (held_at (entries page.now) tid.slot) → ⊥) }
    ensures saw { IfOk result (λ right. right ≡ true → IsTold (P.view pages.old).disk
        → Sees V.is_good V.saw visitor.old visitor.new (row_of tid
        (body_by (overflows (P.view pages.old).held segment) (held_at (entries page.now) tid.slot)))) }
    ensures marks { IfOk result (λ right. right ≡ true
        → MarksGoal (held_at (entries page.now) tid.slot) led.old led.new) }
    ensures size { OnOk result (length led.new ≡ length led.old) }
    ensures did { LooksCall nowhere no_page 1 (P.view pages.old) (P.view pages.new) result }
{
    match entry(page, tid.slot as u8) {
        Entry::Empty => Ok(true),
        Entry::Here { place, length } => Ok(show(tid, bytes_at(page, place, length), visitor)),
        Entry::Forward { page: to, slot } => {
            let to = Tid {
                page: to,
                slot: u16::from(slot),
            };
            follow(pages, segment, tid, to, led, visitor)
        }
    }
}

/// Looks at the entry of an overflow page to which a tuple's home entry leads, and marks it. It tells
/// whether a body stands there that may, and that wasn't marked.
fn follow<P: Pages, V: Visitor>(
    pages: &mut P,
    segment: u8,
    tid: Tid,
    to: Tid,
    led: &mut [u128],
    visitor: &mut V,
) -> Result<bool, PageFault>
    requires slot { to.slot < page_entries }
    requires size { length led.old ≡ (P.view pages.old).slots }
    ensures holds { IfOk result (λ right. right ≡ true → IsTold (P.view pages.old).disk
        → MayHold (overflows (P.view pages.old).held segment) led.old (V.is_good visitor.old)
        (Forward to.page to.slot)) }
    ensures wrong { IfOk result (λ right. right ≡ false → IsTold (P.view pages.old).disk
        → MayStand (P.view pages.old).held segment led.old (V.is_good visitor.old)
        (Forward to.page to.slot) → ⊥) }
    ensures saw { IfOk result (λ right. right ≡ true → IsTold (P.view pages.old).disk
        → Sees V.is_good V.saw visitor.old visitor.new (row_of tid
        (body_in (overflows (P.view pages.old).held segment to.page to.slot)))) }
    ensures marks { IfOk result (λ right. right ≡ true
        → MarksGoal (Forward to.page to.slot) led.old led.new) }
    ensures size { OnOk result (length led.new ≡ length led.old) }
    ensures did { LooksCall nowhere no_page 1 (P.view pages.old) (P.view pages.new) result }
{
    let key = overflow(segment, to.page);
    if !pages.has(key) {
        return Ok(false);
    }
    if !mark(led, to.page, to.slot as u8) {
        return Ok(false);
    }
    bring(pages, key)?;
    Ok(show_moved(pages.loaded(key), segment, tid, to, visitor))
}

/// Shows the visitor the body that is to stand in an entry of an overflow page, and tells whether one
/// stands there that may. The page's header is tested.
fn show_moved<V: Visitor>(page: &Page, segment: u8, tid: Tid, to: Tid, visitor: &mut V) -> bool
    requires slot { to.slot < page_entries }
    ensures good { result ≡ true → HasGood (V.is_good visitor.old) (held_at (entries page.now) to.slot) }
    ensures saw { result ≡ true → Sees V.is_good V.saw visitor.old visitor.new (row_of tid
        (body_in (held_at (entries page.now) to.slot))) }
    ensures wrong { result ≡ false → IsWellFormed (page_key segment Overflow to.page) page.now
        → HasGood (V.is_good visitor.old) (held_at (entries page.now) to.slot) → ⊥ }
{
    let Ok(found) = entry_in(page, overflow(segment, to.page), to.slot as u8) else {
        return false;
    };
    match found {
        Entry::Here { place, length } => show(tid, bytes_at(page, place, length), visitor),
        Entry::Empty | Entry::Forward { .. } => false,
    }
}

/// Shows the visitor a body, and tells whether it may stand there. One that is too long isn't shown.
fn show<V: Visitor>(tid: Tid, body: &[u8], visitor: &mut V) -> bool
    ensures good { result ≡ true → IsBodyRight (V.is_good visitor.old) body.now }
    ensures saw { result ≡ true → Sees V.is_good V.saw visitor.old visitor.new
        (row_of tid (Some body.now)) }
    ensures wrong { result ≡ false → IsBodyRight (V.is_good visitor.old) body.now → ⊥ }
{
    if body.len() > BODY_BYTES {
        return false;
    }
    visitor.see(tid, body)
}

/// Marks an entry of an overflow page, and tells whether it wasn't marked before.
fn mark(led: &mut [u128], page: u32, slot: u8) -> bool
    requires page { page < length led.old }
    requires slot { slot < page_entries }
    ensures fresh { IsTrue result ↔ (IsMarked led.old page slot → ⊥) }
    ensures marks { MarksGoal (Forward page slot) led.old led.new }
{
    let word = led[page as usize];
    led[page as usize] = word | 1 << slot;
    word >> slot & 1 == 0
}

/// Looks at each overflow page, and up to the first one with such an entry whether each that holds
/// something is marked. It answers the number of that one.
fn look_at_overflows<P: Pages>(
    pages: &mut P,
    segment: u8,
    led: &[u128],
) -> Result<Option<u32>, PageFault>
    requires segment { IsSegment segment }
    requires size { length led.now ≡ (P.view pages.old).slots }
    ensures formed { OnOk result (IsTold (P.view pages.old).disk
        → ArePagesRight (P.view pages.old).held (pages_in segment Overflow)) }
    ensures noted { IfOk result (λ unled. IfNone unled (IsTold (P.view pages.old).disk
        → (number : ℕ)
        → IsNotedAt (P.view pages.old).held (P.view pages.new) (page_key segment Overflow number))) }
    ensures led { IfOk result (λ unled. IfNone unled (IsTold (P.view pages.old).disk
        → AreAllMarked (P.view pages.old).held segment led.now)) }
    ensures unled { IfOk result (λ unled. IfSome unled (λ page. IsTold (P.view pages.old).disk
        → IsFirstUnmarked (P.view pages.old).held segment led.now page)) }
    ensures did { LooksCall (NamesPage (P.view pages.old).held (pages_in segment Overflow))
        (pages_in segment Overflow) (P.view pages.old).slots
        (P.view pages.old) (P.view pages.new) result }
{
    let mut from = 0;
    while let Some(number) = pages.first_mapped(segment, Space::Overflow, from) {
        let is_led = look_at_overflow(pages, segment, number, led[number as usize])?;
        if !is_led {
            look_at_forms(pages, segment, Space::Overflow, number + 1)?;
            return Ok(Some(number));
        }
        from = number + 1;
    }
    Ok(None)
}

/// Looks at an overflow page, of which these entries are marked, and tells whether each that holds
/// something is.
fn look_at_overflow<P: Pages>(
    pages: &mut P,
    segment: u8,
    number: u32,
    marks: u128,
) -> Result<bool, PageFault>
    requires mapped { (P.view pages.old).mapped (page_key segment Overflow number) ≡ true }
    ensures noted { OnOk result (IsTold (P.view pages.old).disk
        → IsNotedAt (P.view pages.old).held (P.view pages.new) (page_key segment Overflow number)) }
    ensures led { IfOk result (λ all. all ≡ true → IsTold (P.view pages.old).disk
        → AreMarked (contents (P.view pages.old).held (page_key segment Overflow number)) marks) }
    ensures unled { IfOk result (λ all. all ≡ false → IsTold (P.view pages.old).disk
        → HasUnmarked (contents (P.view pages.old).held (page_key segment Overflow number)) marks) }
    ensures did { LooksCall
        (NamesPage (P.view pages.old).held (only (page_key segment Overflow number)))
        (only (page_key segment Overflow number)) 1 (P.view pages.old) (P.view pages.new) result }
{
    let mut page = [0u8; PAGE_BYTES];
    look_at(pages, overflow(segment, number), &mut page)?;
    Ok(are_marked(&page, marks))
}

/// Whether each entry of a page that holds something is marked.
fn are_marked(page: &Page, marks: u128) -> bool
    ensures all { result ≡ true → AreMarked (entries page.now) marks }
    ensures one { result ≡ false → HasUnmarked (entries page.now) marks }
{
    for slot in 0..ENTRIES {
        if !is_empty(page, slot) && marks >> slot & 1 == 0 {
            return false;
        }
    }
    true
}

/// Looks at each page of a space from a number on, by itself.
fn look_at_forms<P: Pages>(
    pages: &mut P,
    segment: u8,
    space: Space,
    first: u32,
) -> Result<(), PageFault>
    requires segment { IsSegment segment }
    requires space { is_noted_space space ≡ true }
    requires first { first ≤ (P.view pages.old).slots }
    ensures formed { OnOk result (IsTold (P.view pages.old).disk
        → ArePagesRight (P.view pages.old).held (pages_from segment space first)) }
    ensures did { LooksCall (NamesPage (P.view pages.old).held (pages_from segment space first))
        (pages_in segment space) ((P.view pages.old).slots - first)
        (P.view pages.old) (P.view pages.new) result }
{
    let mut page = [0u8; PAGE_BYTES];
    let mut from = first;
    while let Some(number) = pages.first_mapped(segment, space, from) {
        let key = PageKey {
            segment,
            space,
            number,
        };
        look_at(pages, key, &mut page)?;
        from = number + 1;
    }
    Ok(())
}

/// Looks at a page by itself, notes its room, and copies it.
fn look_at<P: Pages>(pages: &mut P, key: PageKey, into: &mut Page) -> Result<(), PageFault>
    requires mapped { (P.view pages.old).mapped key ≡ true }
    requires space { is_noted_space key.space ≡ true }
    ensures looks { OnOk result (LooksAt key into.new (P.view pages.old) (P.view pages.new)) }
    ensures did { LooksCall (NamesPage (P.view pages.old).held (only key)) (only key) 1
        (P.view pages.old) (P.view pages.new) result }
{
    bring(pages, key)?;
    *into = *pages.loaded(key);
    let Some(room) = room_in(into, key) else {
        return Err(damaged(key));
    };
    pages.note(key, room);
    Ok(())
}

/// Brings a page into memory. If it is found to be damaged, it is named.
fn bring<P: Pages>(pages: &mut P, key: PageKey) -> Result<(), PageFault>
    requires { (P.view pages.old).mapped key ≡ true }
    ensures there { OnOk result ((P.view pages.new).in_memory key ≡ true) }
    ensures did { LooksCall nowhere no_page 1 (P.view pages.old) (P.view pages.new) result }
{
    match pages.load(key) {
        Ok(()) => Ok(()),
        Err(fault) => Err(fault_at(key, fault)),
    }
}

/// Why a page can't be read; damage is that of this page.
fn fault_at(key: PageKey, fault: PageFault) -> PageFault
    ensures failed { result ≡ PageDevice → fault ≡ PageDevice }
    ensures damaged { (place : AnyPlace) → result ≡ PageDamaged place
        → ((other : AnyPlace) → fault ≡ PageDamaged other → ⊥) → ⊥ }
    ensures elsewhere { result ≡ PageDamaged Room → ⊥ }
{
    match fault {
        PageFault::Damaged(_) => damaged(key),
        PageFault::Device | PageFault::NoMemory => fault,
    }
}

/// What is to be noted on a page, if it is right for this key.
fn room_in(page: &Page, key: PageKey) -> Option<u16>
    ensures right { IfSome result (λ room. IsPageRight key page.now) }
    ensures covers { IfSome result (CoversRoom (entries page.now)) }
    ensures exact { IfSome result (IsRoom (entries page.now)) }
    ensures most { IfSome result (λ room. room ≤ note_most) }
    ensures none { IfNone result (IsPageRight key page.now → ⊥) }
{
    let found = survey(page, key)?;
    if found.is_vacant {
        return None;
    }
    Some(room_of(page, &found))
}
