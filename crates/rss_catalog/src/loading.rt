// The pages of the system space, as they are read.
ghost use Rattle.std.specs.Prelude.{◌≡◌, ◌+◌, ◌<◌, ◌≤◌, ℕ, true, Err, IfOk, OnOk, IfSome, IfNone};
ghost use Rattle.rss_base.specs.DiskRule.{IsTold};
ghost use Rattle.rss_base.specs.Looking.{ChecksPages};
ghost use Rattle.rss_base.specs.Paged.{page_key};
ghost use Rattle.rss_base.specs.Sizes.{system_pages};
ghost use Rattle.rss_base.specs.Steps.{no_page};
ghost use Rattle.rss_base.specs.declared.fault.PageFault.TheVariants.{Damaged as PageDamaged, Device as PageDevice};
ghost use Rattle.rss_base.specs.declared.key.Space.TheVariants.{System};
ghost use Rattle.rss_base.specs.declared.place.Place.{Place as AnyPlace};
ghost use Rattle.rss_base.specs.declared.place.Place.TheVariants.{Catalog as CatalogPlace};
ghost use Rattle.rss_catalog.specs.Catalogs.{IsCatalogPlace, HasSystemPages};
ghost use Rattle.rss_catalog.specs.Loading.{IsUnread, IsFirstUnmapped, LoadsSegments, HasForm, AddsPage, GoesRight, LoadsEntries};

use crate::decoding::read_segments;
use crate::encoding::{IMAGES_OF_PAGE, LINKS_OF_PAGE, RELATIONS_OF_PAGE, segments_page};
use crate::entries::Entry;
use rss_base::{
    IMAGES_MOST, LINKS_MOST, Name, PageFault, PageKey, Pages, Place, RELATIONS_MOST, SYSTEM_PAGES,
    Space,
};
use std::alloc::Global;

/// How many pages the system space has.
pub(crate) const PAGE_COUNT: u8 = SYSTEM_PAGES as u8;

/// How many pages have relations: those from 1 on.
pub(crate) const RELATION_PAGES: u8 = RELATIONS_MOST / RELATIONS_OF_PAGE;

/// How many pages have images: those after the relations.
pub(crate) const IMAGE_PAGES: u8 = IMAGES_MOST / IMAGES_OF_PAGE;

/// How many pages have links: that after the images.
pub(crate) const LINK_PAGES: u8 = LINKS_MOST / LINKS_OF_PAGE;

/// The first page of the images.
pub(crate) const IMAGE_PAGE: u8 = 1 + RELATION_PAGES;

/// The page of the links.
pub(crate) const LINK_PAGE: u8 = 1 + RELATION_PAGES + IMAGE_PAGES;

/// The page `number` of the system space.
pub(crate) fn key_of(number: u8) -> PageKey
    ensures { result ≡ page_key 0 System number }
{
    PageKey {
        segment: 0,
        space: Space::System,
        number: u32::from(number),
    }
}

/// The first page of the system space that isn't there.
pub(crate) fn first_unmapped<P: Pages>(pages: &P) -> Option<u8>
    ensures some { IfSome result (IsFirstUnmapped (P.view pages.now).mapped) }
    ensures none { IfNone result (HasSystemPages (P.view pages.now).mapped) }
{
    for number in 0..PAGE_COUNT {
        if !pages.has(key_of(number)) {
            return Some(number);
        }
    }
    None
}

/// The segments, from their page. `right` is 1 then if the page is in form, otherwise 0.
pub(crate) fn load_segments<P: Pages>(
    alloc: Global,
    pages: &mut P,
    right: &mut u8,
) -> Result<Vec<Option<Name>>, PageFault>
    requires mapped { HasSystemPages (P.view pages.old).mapped }
    ensures loads { IfOk result (λ segments. LoadsSegments (P.view pages.old) segments.items right.new) }
    ensures unread { (place : AnyPlace) → result ≡ Err (PageDamaged place)
        → IsUnread (P.view pages.old) place }
    ensures did { ChecksPages no_page 1 (P.view pages.old) (P.view pages.new) result }
{
    load_page(pages, 0)?;
    let page = pages.loaded(key_of(0));
    let Ok(segments) = read_segments(alloc, page) else {
        return Err(PageFault::NoMemory);
    };
    let is_right = *page == segments_page(&segments);
    *right = with_page(0, 0, is_right);
    Ok(segments)
}

/// The entries of so many pages, from this one on. `right` pages were in form before, from the first
/// one on, and are so then.
pub(crate) fn load_entries<E: Entry, P: Pages>(
    alloc: Global,
    pages: &mut P,
    first: u8,
    count: u8,
    right: &mut u8,
) -> Result<Vec<Option<E>>, PageFault>
    requires form { HasForm E.form first count }
    requires mapped { HasSystemPages (P.view pages.old).mapped }
    requires before { right.old ≤ first }
    ensures loads { IfOk result (λ entries.
        LoadsEntries E.form first count (P.view pages.old) entries.items right.old right.new) }
    ensures unread { (place : AnyPlace) → result ≡ Err (PageDamaged place)
        → IsUnread (P.view pages.old) place }
    ensures did { ChecksPages no_page count (P.view pages.old) (P.view pages.new) result }
{
    let Ok(mut entries) = Vec::with_capacity(alloc, usize::from(E::MOST)) else {
        return Err(PageFault::NoMemory);
    };
    for before in 0..count {
        let is_right = load_entry_page(alloc, pages, first + before, &mut entries)?;
        *right = with_page(*right, first + before, is_right);
    }
    Ok(entries)
}

/// How many pages are in form from the first one on, if so many of those before this one are.
fn with_page(right: u8, number: u8, is_right: bool) -> u8
    requires few { right ≤ number }
    requires within { number < system_pages }
    ensures { GoesRight number right is_right result }
{
    if is_right && right == number {
        number + 1
    } else {
        right
    }
}

/// Puts the entries of a page after those that are there, and answers whether it is in form.
fn load_entry_page<E: Entry, P: Pages>(
    alloc: Global,
    pages: &mut P,
    number: u8,
    entries: &mut Vec<Option<E>>,
) -> Result<bool, PageFault>
    requires within { number < system_pages }
    requires mapped { HasSystemPages (P.view pages.old).mapped }
    ensures loads { IfOk result (λ is.
        AddsPage E.form (P.view pages.old) number entries.old.items entries.new.items is) }
    ensures unread { (place : AnyPlace) → result ≡ Err (PageDamaged place)
        → IsUnread (P.view pages.old) place }
    ensures did { ChecksPages no_page 1 (P.view pages.old) (P.view pages.new) result }
{
    load_page(pages, number)?;
    match E::read_page(alloc, pages.loaded(key_of(number)), entries) {
        Ok(is_right) => Ok(is_right),
        Err(_) => Err(PageFault::NoMemory),
    }
}

/// Brings a page of the system space into memory.
fn load_page<P: Pages>(pages: &mut P, number: u8) -> Result<(), PageFault>
    requires within { number < system_pages }
    requires mapped { HasSystemPages (P.view pages.old).mapped }
    ensures there { OnOk result
        ((P.view pages.new).in_memory (page_key 0 System number) ≡ true) }
    ensures unread { (place : AnyPlace) → result ≡ Err (PageDamaged place)
        → IsUnread (P.view pages.old) place }
    ensures did { ChecksPages no_page 1 (P.view pages.old) (P.view pages.new) result }
{
    match pages.load(key_of(number)) {
        Ok(()) => Ok(()),
        Err(fault) => Err(fault_of(number, fault)),
    }
}

/// Why a page of the system space can't be read; damage is that of this page.
fn fault_of(number: u8, fault: PageFault) -> PageFault
    requires { number < system_pages }
    ensures failed { result ≡ PageDevice → fault ≡ PageDevice }
    ensures damaged { (place : AnyPlace) → result ≡ PageDamaged place
        → IsCatalogPlace place × ((found : AnyPlace) × (fault ≡ PageDamaged found)) }
{
    match fault {
        PageFault::Damaged(_) => damaged(number),
        PageFault::Device | PageFault::NoMemory => fault,
    }
}

/// A page of the system space is out of form.
pub(crate) fn damaged(number: u8) -> PageFault
    ensures { result ≡ PageDamaged (CatalogPlace number) }
{
    PageFault::Damaged(Place::Catalog(number))
}
