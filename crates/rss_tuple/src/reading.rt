// Where a tuple stands, by its identifier.
ghost use Rattle.std.specs.Prelude.{◌≡◌, ◌<◌, ◌≤◌, ℕ, List, length, slice_index_or};
ghost use Rattle.std.specs.Prelude.{IfOk, IfErr, IfSome, OnOk, OnErr};
ghost use Rattle.rss_base.specs.DiskRule.{IsTold};
ghost use Rattle.rss_base.specs.Paged.{page_key};
ghost use Rattle.rss_base.specs.Sizes.{page_entries};
ghost use Rattle.rss_base.specs.Steps.{PagesCall, no_page};
ghost use Rattle.rss_base.specs.declared.key.Space.TheVariants.{Home};
ghost use Rattle.rss_base.specs.declared.fault.PageFault.TheVariants.{Damaged as PageDamaged};
ghost use Rattle.rss_base.specs.declared.place.Place.TheVariants.{Page as PagePlace};
ghost use Rattle.rss_page.specs.Content.{Here};
ghost use Rattle.rss_page.specs.Slotted.{content_of, entries, length_of, IsAllowed, IsHeader, IsWellFormed};
ghost use Rattle.rss_page.specs.Surveyed.{held_at};
ghost use Rattle.rss_tuple.specs.Directory.{content_at, bodies_of};
ghost use Rattle.rss_tuple.specs.Heaps.{body_most, AreHeaps, HasBody};
ghost use Rattle.rss_tuple.specs.Edits.{NamesEntry};
ghost use Rattle.rss_tuple.specs.Finding.{IsHeldBy, IsInForm};
ghost use Rattle.rss_tuple.specs.Located.{IsInMemory, IsLocated, StandsAt};

use crate::body_at::BodyAt;
use crate::entries::entry_in;
use crate::keys::{damaged, home, overflow};
use rss_base::{BODY_BYTES, Page, PageFault, PageKey, Pages, Tid};
use rss_page::{ENTRIES, Entry};

/// Finds out where the body of a tuple stands, if there is one. Asks for two pages at most.
pub(crate) fn locate<P: Pages>(
    pages: &mut P,
    segment: u8,
    tid: Tid,
) -> Result<Option<BodyAt>, PageFault>
    requires { IsTold (P.view pages.old).disk → AreHeaps (P.view pages.old) }
    ensures found { IfOk result (λ found. IsTold (P.view pages.old).disk
        → IsLocated (P.view pages.new).held (bodies_of (P.view pages.old).held segment tid) found) }
    ensures there { IfOk result (λ found. IfSome found (IsInMemory (P.view pages.new))) }
    ensures did { PagesCall no_page 2 2 (P.view pages.old) (P.view pages.new) result }
{
    if tid.slot >= u16::from(ENTRIES) {
        return Ok(None);
    }
    let key = home(segment, tid.page);
    let found = look(pages, key, tid.slot as u8)?;
    led(pages, segment, tid, key, found)
}

/// Where the body stands that the entry of a tuple's home page has or leads to, if it holds anything.
pub(crate) fn led<P: Pages>(
    pages: &mut P,
    segment: u8,
    tid: Tid,
    key: PageKey,
    found: Entry,
) -> Result<Option<BodyAt>, PageFault>
    requires key { key ≡ page_key segment Home tid.page }
    requires heaps { IsTold (P.view pages.old).disk → AreHeaps (P.view pages.old) }
    requires holds { IsTold (P.view pages.old).disk → IsHeldBy (P.view pages.old).held key
        (content_at (P.view pages.old).held key tid.slot) found }
    requires formed { IsInForm (P.view pages.old) key found }
    ensures found { IfOk result (λ found. IsTold (P.view pages.old).disk
        → IsLocated (P.view pages.new).held (bodies_of (P.view pages.old).held segment tid) found) }
    ensures there { IfOk result (λ found. IfSome found (IsInMemory (P.view pages.new))) }
    ensures did { PagesCall no_page 1 1 (P.view pages.old) (P.view pages.new) result }
{
    match found {
        Entry::Empty => Ok(None),
        Entry::Here { place, length } => Ok(Some(BodyAt { key, place, length })),
        Entry::Forward { page, slot } => {
            let at = follow(pages, overflow(segment, page), slot)?;
            Ok(Some(at))
        }
    }
}

/// Where the body stands that an entry of an overflow page has. If it has none, the page is
/// damaged.
fn follow<P: Pages>(pages: &mut P, key: PageKey, slot: u8) -> Result<BodyAt, PageFault>
    requires may { NamesEntry (P.view pages.old) key slot }
    requires body { IsTold (P.view pages.old).disk
        → HasBody (content_at (P.view pages.old).held key slot) }
    ensures body { IfOk result (λ at. IsTold (P.view pages.old).disk
        → StandsAt (P.view pages.new).held
        (λ bytes. content_at (P.view pages.old).held key slot ≡ Here bytes) at) }
    ensures there { IfOk result (IsInMemory (P.view pages.new)) }
    ensures did { PagesCall no_page 1 1 (P.view pages.old) (P.view pages.new) result }
{
    match look(pages, key, slot)? {
        Entry::Here { place, length } => Ok(BodyAt { key, place, length }),
        Entry::Empty | Entry::Forward { .. } => Err(damaged(key)),
    }
}

/// The entry of a slot of a page, and an empty one if the page isn't mapped.
fn look<P: Pages>(pages: &mut P, key: PageKey, slot: u8) -> Result<Entry, PageFault>
    requires { NamesEntry (P.view pages.old) key slot }
    ensures found { IfOk result (λ found. IsTold (P.view pages.old).disk
        → IsHeldBy (P.view pages.new).held key (content_at (P.view pages.old).held key slot) found) }
    ensures formed { IfOk result (IsInForm (P.view pages.new) key) }
    ensures did { PagesCall no_page 1 1 (P.view pages.old) (P.view pages.new) result }
{
    if !pages.has(key) {
        return Ok(Entry::Empty);
    }
    pages.load(key)?;
    look_in(pages.loaded(key), key, slot)
}

/// The entry of a slot, in a page that is to be well-formed, with only bodies of tuples.
pub(crate) fn look_in(page: &Page, key: PageKey, slot: u8) -> Result<Entry, PageFault>
    requires { slot < page_entries }
    ensures header { OnOk result (IsHeader key page.now) }
    ensures holds { IfOk result
        (λ found. held_at (entries page.now) slot ≡ content_of page.now found) }
    ensures allowed { IfOk result (IsAllowed (slice_index_or page.now 0 0)) }
    ensures short { IfOk result (λ found. length_of found ≤ body_most) }
    ensures damaged { IfErr result (λ fault. fault ≡ PageDamaged (PagePlace key)) }
    ensures ill { OnErr result (IsWellFormed key page.now
        → ((body : List ℕ) → held_at (entries page.now) slot ≡ Here body
        → length body ≤ body_most) → ⊥) }
{
    match entry_in(page, key, slot)? {
        Entry::Empty => Ok(Entry::Empty),
        Entry::Forward { page: to, slot } => Ok(Entry::Forward { page: to, slot }),
        Entry::Here { place, length } => {
            if usize::from(length) > BODY_BYTES {
                return Err(damaged(key));
            }
            Ok(Entry::Here { place, length })
        }
    }
}
