// The next tuple of a segment.
ghost use Rattle.std.specs.Prelude.{◌≡◌, ◌↔◌, ◌+◌, ◌<◌, ◌≤◌, ℕ, true, List, length, slice_index_or};
ghost use Rattle.std.specs.Prelude.{MatchOption, IfOk, IfSome, IfErr, OnErr};
ghost use Rattle.rss_base.specs.DiskRule.{IsTold};
ghost use Rattle.rss_base.specs.Sizes.{page_entries};
ghost use Rattle.rss_base.specs.Paged.{page_key};
ghost use Rattle.rss_base.specs.Steps.{PagesCall, no_page};
ghost use Rattle.rss_base.specs.declared.key.Space.TheVariants.{Home};
ghost use Rattle.rss_base.specs.declared.fault.PageFault.TheVariants.{Damaged as PageDamaged};
ghost use Rattle.rss_base.specs.declared.place.Place.TheVariants.{Page as PagePlace};
ghost use Rattle.rss_base.specs.declared.tid.Tid.{Tid as Identifier};
ghost use Rattle.rss_page.specs.Content.{Here};
ghost use Rattle.rss_page.specs.Slotted.{content_of, entries, length_of, IsAllowed, IsHeapKey, IsWellFormed};
ghost use Rattle.rss_page.specs.Surveyed.{held_at};
ghost use Rattle.rss_tuple.specs.Directory.{contents, content_at};
ghost use Rattle.rss_tuple.specs.Heaps.{body_most, AreFormed, AreHeaps};
ghost use Rattle.rss_tuple.specs.Located.{IsInMemory};
ghost use Rattle.rss_tuple.specs.TupleSteps.{tuples_in, IsLeast, NoneIs};
ghost use Rattle.rss_base.specs.Tids.{IsAfter};
ghost use Rattle.rss_tuple.specs.Finding.{IsFrom, IsFirstTaken, NoneTaken, IsNext, FindsNext, FindsNextAt};
ghost use Rattle.rss_tuple.specs.Finding.{IsHeldAt, IsHeldBy, IsInForm};
ghost use Rattle.rss_tuple.specs.Calls.{IsSegment};

use crate::body_at::BodyAt;
use crate::finding::is_empty;
use crate::keys::{damaged, home};
use crate::reading::{led, look_in};
use rss_base::{Page, PageFault, PageKey, Pages, Space, Tid};
use rss_page::{ENTRIES, Entry, has_header};

/// The last slot of a page.
const LAST_SLOT: u16 = ENTRIES as u16 - 1;

/// The first identifier after this one, or the first of all.
fn start_of(after: Option<Tid>) -> Tid
    ensures from { (tid : Identifier) → tid.slot < page_entries
        → IsFrom result tid ↔ IsAfter after tid }
    ensures low { result.slot ≤ page_entries }
{
    match after {
        None => Tid { page: 0, slot: 0 },
        Some(tid) => Tid {
            page: tid.page,
            slot: tid.slot.min(LAST_SLOT) + 1,
        },
    }
}

/// The first slot of a page from one on that holds something.
fn taken_from(page: &Page, from: u8) -> Option<u8>
    ensures { MatchOption result (NoneTaken (entries page.now) from)
        (IsFirstTaken (entries page.now) from) }
{
    for slot in from..ENTRIES {
        if !is_empty(page, slot) {
            return Some(slot);
        }
    }
    None
}

/// The same of a page that is to be well-formed, with only bodies of tuples, and the slot's entry.
/// Its header is tested.
fn taken_on(page: &Page, key: PageKey, from: u8) -> Result<Option<(u8, Entry)>, PageFault>
    ensures found { IfOk result (λ found. MatchOption found (NoneTaken (entries page.now) from)
        (λ taken. IsFirstTaken (entries page.now) from taken.0)) }
    ensures holds { IfOk result (λ found. IfSome found
        (λ taken. held_at (entries page.now) taken.0 ≡ content_of page.now taken.1)) }
    ensures allowed { IfOk result (λ found. IfSome found
        (λ taken. IsAllowed (slice_index_or page.now 0 0) taken.1)) }
    ensures short { IfOk result (λ found. IfSome found
        (λ taken. length_of taken.1 ≤ body_most)) }
    ensures damaged { IfErr result (λ fault. fault ≡ PageDamaged (PagePlace key)) }
    ensures ill { OnErr result (IsWellFormed key page.now
        → ((slot : ℕ) (body : List ℕ) → held_at (entries page.now) slot ≡ Here body
        → length body ≤ body_most) → ⊥) }
{
    if !has_header(page, key) {
        return Err(damaged(key));
    }
    let Some(slot) = taken_from(page, from) else {
        return Ok(None);
    };
    let found = look_in(page, key, slot)?;
    Ok(Some((slot, found)))
}

/// The same of a mapped page.
fn taken_in<P: Pages>(
    pages: &mut P,
    key: PageKey,
    from: u8,
) -> Result<Option<(u8, Entry)>, PageFault>
    requires mapped { (P.view pages.old).mapped key ≡ true }
    requires heap { IsHeapKey key }
    requires formed { IsTold (P.view pages.old).disk → AreFormed (P.view pages.old) }
    ensures found { IfOk result (λ found. IsTold (P.view pages.old).disk
        → MatchOption found (NoneTaken (contents (P.view pages.old).held key) from)
        (λ taken. IsFirstTaken (contents (P.view pages.old).held key) from taken.0)) }
    ensures holds { IfOk result (λ found. IsTold (P.view pages.old).disk
        → IfSome found (λ taken. IsHeldBy (P.view pages.new).held key
        (content_at (P.view pages.old).held key taken.0) taken.1)) }
    ensures formed { IfOk result (λ found.
        IfSome found (λ taken. IsInForm (P.view pages.new) key taken.1)) }
    ensures within { IfOk result (λ found.
        IfSome found (λ taken. (from ≤ taken.0) × (taken.0 < page_entries))) }
    ensures did { PagesCall no_page 1 1 (P.view pages.old) (P.view pages.new) result }
{
    pages.load(key)?;
    taken_on(pages.loaded(key), key, from)
}

/// Where to begin in a page: at the slot of `from`, if it is its page, otherwise at the first one.
fn slot_in(from: Tid, number: u32) -> u8
    requires { from.slot ≤ page_entries }
    ensures same { from.page ≡ number → result ≡ from.slot }
    ensures other { (from.page ≡ number → ⊥) → result ≡ 0 }
{
    if from.page == number {
        from.slot as u8
    } else {
        0
    }
}

/// The least identifier after this one at which a tuple stands, or the least of all if none is
/// given, and its entry.
fn next_taken<P: Pages>(
    pages: &mut P,
    segment: u8,
    after: Option<Tid>,
) -> Result<Option<(Tid, Entry)>, PageFault>
    requires segment { IsSegment segment }
    requires heaps { IsTold (P.view pages.old).disk → AreHeaps (P.view pages.old) }
    ensures next { IfOk result (λ found. IsTold (P.view pages.old).disk
        → MatchOption found (NoneIs (IsNext (tuples_in (P.view pages.old)) segment after))
        (λ next. IsLeast (IsNext (tuples_in (P.view pages.old)) segment after) next.0)) }
    ensures holds { IfOk result (λ found. IsTold (P.view pages.old).disk
        → IfSome found (λ next. IsHeldAt (P.view pages.old) (P.view pages.new)
        segment next.0 next.1)) }
    ensures formed { IfOk result (λ found. IfSome found (λ next.
        IsInForm (P.view pages.new) (page_key segment Home next.0.page) next.1)) }
    ensures behind { IfOk result (λ found. IfSome found (λ next. IsAfter after next.0)) }
    ensures did { PagesCall no_page (P.view pages.old).slots (P.view pages.old).slots
        (P.view pages.old) (P.view pages.new) result }
{
    let mut from = start_of(after);
    while let Some(number) = pages.first_mapped(segment, Space::Home, from.page) {
        let low = slot_in(from, number);
        if let Some((slot, found)) = taken_in(pages, home(segment, number), low)? {
            let tid = Tid {
                page: number,
                slot: u16::from(slot),
            };
            return Ok(Some((tid, found)));
        }
        from = Tid {
            page: number + 1,
            slot: 0,
        };
    }
    Ok(None)
}

/// The least identifier after this one at which a tuple stands, or the least of all if none is
/// given.
pub(crate) fn next_live<P: Pages>(
    pages: &mut P,
    segment: u8,
    after: Option<Tid>,
) -> Result<Option<Tid>, PageFault>
    requires segment { IsSegment segment }
    requires heaps { IsTold (P.view pages.old).disk → AreHeaps (P.view pages.old) }
    ensures next { IfOk result (λ found. IsTold (P.view pages.old).disk
        → FindsNext (tuples_in (P.view pages.old)) segment after found) }
    ensures behind { IfOk result (λ found. IfSome found (IsAfter after)) }
    ensures did { PagesCall no_page (P.view pages.old).slots (P.view pages.old).slots
        (P.view pages.old) (P.view pages.new) result }
{
    match next_taken(pages, segment, after)? {
        Some((tid, _)) => Ok(Some(tid)),
        None => Ok(None),
    }
}

/// The same, with the place of that tuple's body. If its home page has none, and leads to none, it
/// is damaged.
pub(crate) fn next_body<P: Pages>(
    pages: &mut P,
    segment: u8,
    after: Option<Tid>,
) -> Result<Option<(Tid, BodyAt)>, PageFault>
    requires segment { IsSegment segment }
    requires heaps { IsTold (P.view pages.old).disk → AreHeaps (P.view pages.old) }
    ensures next { IfOk result (λ found. IsTold (P.view pages.old).disk
        → FindsNextAt (tuples_in (P.view pages.old)) segment after (P.view pages.new).held found) }
    ensures behind { IfOk result (λ found. IfSome found (λ next. IsAfter after next.0)) }
    ensures there { IfOk result (λ found.
        IfSome found (λ next. IsInMemory (P.view pages.new) next.1)) }
    ensures did { PagesCall no_page ((P.view pages.old).slots + 1) ((P.view pages.old).slots + 1)
        (P.view pages.old) (P.view pages.new) result }
{
    let Some((tid, found)) = next_taken(pages, segment, after)? else {
        return Ok(None);
    };
    let key = home(segment, tid.page);
    match led(pages, segment, tid, key, found)? {
        Some(at) => Ok(Some((tid, at))),
        None => Err(damaged(key)),
    }
}
