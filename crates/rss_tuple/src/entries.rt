// One entry of a page that is changed.
ghost use Rattle.std.specs.Prelude.{◌≡◌, ◌↔◌, ◌<◌, length, slice_index_or, true, false, Err, IsTrue, IfOk, IfErr, OnOk, OnErr};
ghost use Rattle.rss_base.specs.DiskRule.{IsTold};
ghost use Rattle.rss_base.specs.Sizes.{page_entries};
ghost use Rattle.rss_base.specs.PageMap.{IsKey};
ghost use Rattle.rss_base.specs.Steps.{PagesCall, no_page, only};
ghost use Rattle.rss_base.specs.declared.key.Space.TheVariants.{Home};
ghost use Rattle.rss_base.specs.declared.fault.PageFault.TheVariants.{Damaged as PageDamaged};
ghost use Rattle.rss_base.specs.declared.place.Place.TheVariants.{Page as PagePlace};
ghost use Rattle.rss_page.specs.Content.{Empty, Here, Forward};
ghost use Rattle.rss_page.specs.Slotted.{content_of, entries, HasRoom, IsAllowed, IsBody, IsHeader, IsHeapKey, IsSlotted, IsWellFormed};
ghost use Rattle.rss_page.specs.Surveyed.{held_at, IsOwnPlace, IsSurvey, IsVacant};
ghost use Rattle.rss_tuple.specs.Calls.{IsBodyLength};
ghost use Rattle.rss_tuple.specs.Directory.{content_at};
ghost use Rattle.rss_tuple.specs.Heaps.{AreFormed, HasBody};
ghost use Rattle.rss_tuple.specs.Edits.{MayRead, NamesEntry, IsCopied, HoldsAt, MayChange, MayEdit, Edits, FillsPage};

use crate::keys::damaged;
use rss_base::{Page, PageFault, PageKey, Pages, Tid};
use rss_page::{
    ENTRIES, Entry, Survey, blank, checked_entry, forward_at, has_header, overwrite, put_found,
    remove, survey,
};

/// Brings a page into memory that is to be mapped; if it isn't, it is damaged. A caller copies it
/// from there, since a buffer to read it into would have to be zeroed before.
pub(crate) fn load_there<P: Pages>(pages: &mut P, key: PageKey) -> Result<(), PageFault>
    requires { MayRead (P.view pages.old) key }
    ensures absent { (P.view pages.old).mapped key ≡ false
        → result ≡ Err (PageDamaged (PagePlace key)) }
    ensures mapped { OnOk result ((P.view pages.new).mapped key ≡ true) }
    ensures there { OnOk result ((P.view pages.new).in_memory key ≡ true) }
    ensures did { PagesCall no_page 1 1 (P.view pages.old) (P.view pages.new) result }
{
    if !pages.has(key) {
        return Err(damaged(key));
    }
    pages.load(key)?;
    Ok(())
}

/// What a walk over a page finds that is to be well-formed.
pub(crate) fn walk(page: &Page, key: PageKey) -> Result<Survey, PageFault>
    ensures formed { OnOk result (IsWellFormed key page.now) }
    ensures found { IfOk result (IsSurvey page.now) }
    ensures damaged { IfErr result (λ fault. fault ≡ PageDamaged (PagePlace key)) }
    ensures ill { OnErr result (IsWellFormed key page.now → ⊥) }
{
    match survey(page, key) {
        Some(found) => Ok(found),
        None => Err(damaged(key)),
    }
}

/// The entry of a slot, in a page that is to be well-formed. Its header is tested, and of the other
/// entries none is looked at, which takes less than a walk.
pub(crate) fn entry_in(page: &Page, key: PageKey, slot: u8) -> Result<Entry, PageFault>
    requires { slot < page_entries }
    ensures header { OnOk result (IsHeader key page.now) }
    ensures holds { IfOk result
        (λ found. held_at (entries page.now) slot ≡ content_of page.now found) }
    ensures allowed { IfOk result (IsAllowed (slice_index_or page.now 0 0)) }
    ensures damaged { IfErr result (λ fault. fault ≡ PageDamaged (PagePlace key)) }
    ensures ill { OnErr result (IsWellFormed key page.now → ⊥) }
{
    if !has_header(page, key) {
        return Err(damaged(key));
    }
    match checked_entry(page, slot) {
        Some(found) => Ok(found),
        None => Err(damaged(key)),
    }
}

/// Gives an entry of a page that was read and walked over a body, whatever it held.
pub(crate) fn put_here<P: Pages>(
    pages: &mut P,
    key: PageKey,
    page: &mut Page,
    slot: u8,
    body: &[u8],
    found: &Survey,
) -> Result<(), PageFault>
    requires may { MayEdit (P.view pages.old) key slot page.old }
    requires found { IsSurvey page.old found.now }
    requires length { IsBodyLength (length body.now) }
    requires room { HasRoom (entries page.old) slot (length body.now) }
    ensures { Edits key slot (Here body.now) 1 (P.view pages.old) (P.view pages.new) result }
{
    put_found(page, slot, body, found);
    pages.write(key, page)?;
    Ok(())
}

/// Writes a body over one that stands in an entry of a page that was copied, and that isn't shorter.
pub(crate) fn put_over<P: Pages>(
    pages: &mut P,
    key: PageKey,
    page: &mut Page,
    slot: u8,
    place: u16,
    body: &[u8],
) -> Result<(), PageFault>
    requires may { MayChange (P.view pages.old) key slot page.old }
    requires length { IsBodyLength (length body.now) }
    requires place { IsBody place (length body.now) }
    requires own { IsOwnPlace page.old slot (length body.now) place }
    ensures { Edits key slot (Here body.now) 1 (P.view pages.old) (P.view pages.new) result }
{
    overwrite(page, slot, place, body);
    pages.write(key, page)?;
    Ok(())
}

/// Makes an entry of a home page that was read lead to an entry of an overflow page, whatever it
/// held.
pub(crate) fn put_forward<P: Pages>(
    pages: &mut P,
    key: PageKey,
    page: &mut Page,
    slot: u8,
    to: Tid,
) -> Result<(), PageFault>
    requires may { MayEdit (P.view pages.old) key slot page.old }
    requires home { key.space ≡ Home }
    requires to { to.slot < page_entries }
    ensures { Edits key slot (Forward to.page to.slot) 1 (P.view pages.old)
        (P.view pages.new) result }
{
    forward_at(page, slot, to.page, to.slot as u8);
    pages.write(key, page)?;
    Ok(())
}

/// Whether an entry of any bytes is in form, and holds nothing.
fn is_clear(page: &Page, slot: u8) -> bool
    requires { slot < page_entries }
    ensures empty { IsTrue result → held_at (entries page.now) slot ≡ Empty }
    ensures exact { IsSlotted page.now → held_at (entries page.now) slot ≡ Empty
        → IsTrue result }
{
    match checked_entry(page, slot) {
        Some(Entry::Empty) => true,
        Some(Entry::Here { .. } | Entry::Forward { .. }) | None => false,
    }
}

/// Whether all entries of any bytes are in form, and hold nothing. So a page of which something isn't
/// in form is never given back.
fn is_vacant(page: &Page) -> bool
    ensures vacant { IsTrue result → IsVacant (entries page.now) }
    ensures exact { IsSlotted page.now → IsVacant (entries page.now) → IsTrue result }
{
    for slot in 0..ENTRIES {
        if !is_clear(page, slot) {
            return false;
        }
    }
    true
}

/// Empties an entry of a page that was copied. A page whose entries are all empty then is given back.
pub(crate) fn clear_in<P: Pages>(
    pages: &mut P,
    key: PageKey,
    page: &mut Page,
    slot: u8,
) -> Result<(), PageFault>
    requires { MayChange (P.view pages.old) key slot page.old }
    ensures { Edits key slot Empty 1 (P.view pages.old) (P.view pages.new) result }
{
    remove(page, slot);
    if is_vacant(page) {
        pages.give(key)?;
        return Ok(());
    }
    pages.write(key, page)?;
    Ok(())
}

/// Empties an entry of a page that was copied, in which a body is to stand. If the page isn't that
/// of this key, or has no body there, it is damaged.
fn clear_body<P: Pages>(
    pages: &mut P,
    key: PageKey,
    page: &mut Page,
    slot: u8,
) -> Result<(), PageFault>
    requires copied { IsCopied (P.view pages.old) key page.old }
    requires heap { IsHeapKey key }
    requires low { slot < page_entries }
    requires formed { IsTold (P.view pages.old).disk → AreFormed (P.view pages.old) }
    requires body { IsTold (P.view pages.old).disk
        → HasBody (content_at (P.view pages.old).held key slot) }
    ensures ill { (HoldsAt key slot page.old → ⊥)
        → result ≡ Err (PageDamaged (PagePlace key)) }
    ensures edits { Edits key slot Empty 1 (P.view pages.old) (P.view pages.new) result }
{
    match entry_in(page, key, slot)? {
        Entry::Here { .. } => clear_in(pages, key, page, slot),
        Entry::Empty | Entry::Forward { .. } => Err(damaged(key)),
    }
}

/// Empties an entry of a page, in which a body is to stand.
pub(crate) fn clear<P: Pages>(pages: &mut P, key: PageKey, slot: u8) -> Result<(), PageFault>
    requires may { MayRead (P.view pages.old) key }
    requires low { slot < page_entries }
    requires body { IsTold (P.view pages.old).disk
        → HasBody (content_at (P.view pages.old).held key slot) }
    ensures there { OnOk result ((P.view pages.old).mapped key ≡ true) }
    ensures edits { Edits key slot Empty 2 (P.view pages.old) (P.view pages.new) result }
{
    load_there(pages, key)?;
    let mut page = *pages.loaded(key);
    clear_body(pages, key, &mut page, slot)
}

/// Makes a page that was just taken one whose only body stands at this slot.
pub(crate) fn fill<P: Pages>(
    pages: &mut P,
    key: PageKey,
    slot: u8,
    body: &[u8],
) -> Result<(), PageFault>
    requires heap { IsHeapKey key }
    requires low { slot < page_entries }
    requires length { IsBodyLength (length body.now) }
    requires mapped { (P.view pages.old).mapped key ≡ true }
    ensures fills { OnOk result (FillsPage key slot body.now (P.view pages.old)
        (P.view pages.new)) }
    ensures did { PagesCall (only key) 0 1 (P.view pages.old) (P.view pages.new) result }
{
    let mut page = blank(key);
    put_found(&mut page, slot, body, &Survey::of_blank());
    pages.write(key, &page)?;
    Ok(())
}

/// Takes a page whose only body stands at this slot.
pub(crate) fn take_here<P: Pages>(
    pages: &mut P,
    key: PageKey,
    slot: u8,
    body: &[u8],
) -> Result<(), PageFault>
    requires may { NamesEntry (P.view pages.old) key slot }
    requires length { IsBodyLength (length body.now) }
    requires allowed { IsKey (P.view pages.old).slots key }
    requires unmapped { (P.view pages.old).mapped key ≡ false }
    requires room { 0 < (P.view pages.old).spare }
    ensures { Edits key slot (Here body.now) 2 (P.view pages.old) (P.view pages.new) result }
{
    pages.take_at(key)?;
    fill(pages, key, slot, body)
}
