// Changes of a page.
ghost use Rattle.std.specs.Prelude.{◌≡◌, ◌+◌, ◌-◌, ◌<◌, ◌≤◌, ℕ, length, replicate, IfSome, IfNone};
ghost use Rattle.rss_base.specs.Sizes.{page_entries, page_bytes, bodies_room};
ghost use Rattle.rss_page.specs.Content.{Empty, Here, Forward, body_length};
ghost use Rattle.rss_page.specs.Slotted.{bodies_at, part, entries, body_bytes, HasRoom, IsBody, IsSlotted, IsHome, Becomes, Sets, EndBy, MayPut, Overwrites, OthersBeside, OthersStay, OthersStayIfRoom};
ghost use Rattle.rss_page.specs.Surveyed.{held_at, HasNoneAsLong, IsOwnPlace, IsSurvey};

use crate::checked::checked_entry;
use crate::directory::{HEADER_BYTES, entry, set_entry};
use crate::entry_form::{BODIES_AT, ENTRIES, Entry, PAGE_END};
use crate::surveying::Survey;
use rss_base::{Page, put_bytes};

/// How many bytes the directory has.
const DIRECTORY_BYTES: usize = 1024;

/// Empties an entry, whatever it holds. Nothing of the page is looked at, so it may be any bytes.
pub fn remove(page: &mut Page, slot: u8)
    requires { slot < page_entries }
    ensures becomes { IsSlotted page.old → Sets page.old page.new slot Empty }
    ensures stay { IsSlotted page.old → OthersStay page.old page.new slot }
{
    set_entry(page, slot, Entry::Empty);
}

/// Makes an entry of a home page lead to a slot of an overflow page, whatever it held.
pub fn forward_at(page: &mut Page, slot: u8, to_page: u32, to_slot: u8)
    requires slotted { IsSlotted page.old }
    requires home { IsHome page.old }
    requires slot { slot < page_entries }
    requires to_slot { to_slot < page_entries }
    ensures becomes { Sets page.old page.new slot (Forward to_page to_slot) }
    ensures stay { OthersStay page.old page.new slot }
{
    let forward = Entry::Forward {
        page: to_page,
        slot: to_slot,
    };
    set_entry(page, slot, forward);
}

/// Gives an entry a body, whatever it held. If the free bytes after the last of the other bodies
/// suffice, the body goes there and these stay in their places; otherwise they are moved together
/// first.
pub fn put_at(page: &mut Page, slot: u8, body: &[u8])
    requires slotted { IsSlotted page.old }
    requires slot { slot < page_entries }
    requires some { 1 ≤ length body.now }
    requires room { HasRoom (entries page.old) slot (length body.now) }
    ensures becomes { Sets page.old page.new slot (Here body.now) }
    ensures stay { OthersStayIfRoom page.old page.new slot (length body.now) }
{
    remove(page, slot);
    let end = make_room(page, body.len() as u16);
    overwrite(page, slot, end, body);
}

/// The same, by what a walk has found in the page. A body that isn't longer than the one that
/// stands there takes its place. Then, and if the free bytes after the last body suffice, no other
/// entry is looked at.
pub fn put_found(page: &mut Page, slot: u8, body: &[u8], found: &Survey)
    requires may { MayPut page.old slot body.now }
    requires found { IsSurvey page.old found.now }
    ensures becomes { Sets page.old page.new slot (Here body.now) }
    ensures stay { OthersStayIfRoom page.old page.new slot (length body.now) }
{
    if let Some(place) = own_place(page, slot, body.len() as u16) {
        overwrite(page, slot, place, body);
    } else if found.end <= PAGE_END - body.len() as u16 {
        overwrite(page, slot, found.end, body);
    } else {
        put_at(page, slot, body);
    }
}

/// Where the body of a slot stands, if its entry is in form and has one of so many bytes or more.
/// Nothing else of the page is looked at, so it may be any bytes.
pub fn own_place(page: &Page, slot: u8, length: u16) -> Option<u16>
    requires slot { slot < page_entries }
    requires some { 1 ≤ length }
    ensures place { IfSome result (λ place. IsBody place length) }
    ensures own { IfSome result (IsOwnPlace page.now slot length) }
    ensures none { IfNone result (HasNoneAsLong page.now slot length) }
{
    let Entry::Here { place, length: own } = checked_entry(page, slot)? else {
        return None;
    };
    if length <= own { Some(place) } else { None }
}

/// Finds the place after all bodies, with so many free bytes there.
fn make_room(page: &mut Page, length: u16) -> u16
    requires slotted { IsSlotted page.old }
    requires room { body_bytes (entries page.old) + length ≤ bodies_room }
    ensures becomes { Becomes page.old page.new (entries page.old) }
    ensures ends { EndBy page.new result }
    ensures low { bodies_at ≤ result }
    ensures high { result + length ≤ page_bytes }
    ensures stay { (end : ℕ) → EndBy page.old end → bodies_at ≤ end → end + length ≤ page_bytes
        → page.new ≡ page.old }
{
    let found = Survey::of(page);
    if found.end <= PAGE_END - length {
        return found.end;
    }
    compact(page);
    PAGE_END - found.free
}

/// Moves the bodies together, so that all free bytes stand after the last one. Each entry holds
/// what it held.
pub fn compact(page: &mut Page)
    requires { IsSlotted page.old }
    ensures becomes { Becomes page.old page.new (entries page.old) }
    ensures close { EndBy page.new (bodies_at + body_bytes (entries page.old)) }
{
    let from = *page;
    let mut end = BODIES_AT;
    clear(page);
    for slot in 0..ENTRIES {
        end = carry(&from, page, slot, end);
    }
}

/// Empties all entries.
fn clear(page: &mut Page)
    requires { IsSlotted page.old }
    ensures becomes { Becomes page.old page.new (replicate page_entries Empty) }
    ensures ends { EndBy page.new bodies_at }
{
    put_bytes(page, HEADER_BYTES, &[0; DIRECTORY_BYTES]);
}

/// Gives an entry what it holds in another page, with the body, if there is one, after all others.
/// Answers where the last body ends then.
fn carry(from: &Page, page: &mut Page, slot: u8, end: u16) -> u16
    requires from { IsSlotted from.now }
    requires slotted { IsSlotted page.old }
    requires header { part page.old 0 16 ≡ part from.now 0 16 }
    requires slot { slot < page_entries }
    requires ends { EndBy page.old end }
    requires low { bodies_at ≤ end }
    requires high { end + body_length (held_at (entries from.now) slot) ≤ page_bytes }
    ensures becomes { Sets page.old page.new slot (held_at (entries from.now) slot) }
    ensures ends { EndBy page.new result }
    ensures close { result ≡ end + body_length (held_at (entries from.now) slot) }
{
    match entry(from, slot) {
        Entry::Empty => {
            remove(page, slot);
            end
        }
        Entry::Here { place, length } => {
            let start = usize::from(place);
            overwrite(page, slot, end, &from[start..start + usize::from(length)]);
            end + length
        }
        Entry::Forward {
            page: to_page,
            slot: to_slot,
        } => {
            forward_at(page, slot, to_page, to_slot);
            end
        }
    }
}

/// Gives an entry a body at a place. Nothing of the page is looked at, so it may be any bytes; in a
/// page no other body may be there.
pub fn overwrite(page: &mut Page, slot: u8, place: u16, body: &[u8])
    requires slot { slot < page_entries }
    requires place { IsBody place (length body.now) }
    ensures { IsSlotted page.old → OthersBeside page.old slot place (length body.now)
        → Overwrites page.old page.new slot place body.now }
{
    put_bytes(page, usize::from(place), body);
    let here = Entry::Here {
        place,
        length: body.len() as u16,
    };
    set_entry(page, slot, here);
}
