// What the pages behind the first one list: relations, images and links.
ghost use Rattle.std.specs.Prelude.{◌≡◌, ◌↔◌, ◌≤◌, ◌++◌, ◌==◌, ℕ, Bool, Some, length, count_by, map, option_map, IfOk, OnOk, IfSome, IfNone, IsTrue};
ghost use Rattle.rss_base.specs.Sizes.{links_most, images_most};
ghost use Rattle.rss_catalog.specs.Defined.{has_level, leveled, is_end, has_ends, is_fine, mended, AreRight, IsFirstWrong};
ghost use Rattle.rss_base.specs.Listings.{has_role};
ghost use Rattle.rss_base.specs.declared.name.Name.{Name as AnyName};
ghost use Rattle.rss_catalog.specs.Loading.{Form, relation_form, image_form, link_form, page_with};
ghost use Rattle.rss_catalog.specs.Checking.{HasEntryOf};

use crate::decoding::{read_images, read_links, read_relations};
use crate::encoding::{images_page, links_page, relations_page};
use rss_base::{
    IMAGES_MOST, ImageEntry, LINKS_MOST, LinkEntry, Name, PAGE_ENTRIES, Page, RELATIONS_MOST,
    RelationEntry, Tid,
};
use std::alloc::{AllocError, Global};

/// A definition that stands on pages of its kind, so many on each.
pub(crate) trait Entry: Drop {
    /// How they stand on their pages.
    ghost form: { Form Self };

    ghost named: { Self → AnyName };

    /// Whether it belongs to a number: a relation to a segment, an image to a relation, a link to
    /// each of its relations.
    ghost belongs: { Self → ℕ → Bool };

    /// How many there may be.
    const MOST: u8;

    fn name(&self) -> Name
        ensures { result ≡ named self.now };

    fn belongs(&self, number: u8) -> bool
        ensures { result ≡ belongs self.now number };

    /// Puts the entries of a page after those that are there, and answers whether the page is in
    /// form: whether it is what these entries are spelled by.
    fn read_page(
        alloc: Global,
        page: &Page,
        entries: &mut Vec<Option<Self>>,
    ) -> Result<bool, AllocError>
        ensures read { OnOk result
            (entries.new.items ≡ entries.old.items ++ form.read page.now) }
        ensures formed { IfOk result (λ is.
            IsTrue is ↔ (page.now ≡ page_with form (form.read page.now))) };
}

/// Whether one of these belongs to the number `number`.
pub(crate) fn has_entry_of<E: Entry>(entries: &[Option<E>], number: u8) -> bool
    ensures { IsTrue result ↔ HasEntryOf E.belongs entries.now number }
{
    for entry in entries {
        if let Some(entry) = entry
            && entry.belongs(number)
        {
            return true;
        }
    }
    false
}

/// In how many of these links a relation is.
pub(crate) fn roles_in(links: &[Option<LinkEntry>], relation: u8) -> u8
    requires { length links.now ≤ links_most }
    ensures { result ≡ count_by (has_role relation) links.now }
{
    let mut roles = 0;
    for link in links {
        if has_role(link, relation) {
            roles += 1;
        }
    }
    roles
}

/// Whether there is a link, and a relation has a part in it.
fn has_role(link: &Option<LinkEntry>, relation: u8) -> bool
    ensures { result ≡ has_role relation link.now }
{
    match link {
        Some(link) => link.belongs(relation),
        None => false,
    }
}

impl Entry for RelationEntry {
    ghost form = { relation_form };

    ghost named = { λ relation. relation.name };

    ghost belongs = { λ relation number. relation.segment == number };

    const MOST: u8 = RELATIONS_MOST;

    fn name(&self) -> Name {
        self.name
    }

    fn belongs(&self, number: u8) -> bool {
        self.segment == number
    }

    fn read_page(
        alloc: Global,
        page: &Page,
        entries: &mut Vec<Option<RelationEntry>>,
    ) -> Result<bool, AllocError> {
        let first = entries.len();
        read_relations(alloc, page, entries)?;
        Ok(*page == relations_page(&entries[first..]))
    }
}

impl Entry for ImageEntry {
    ghost form = { image_form };

    ghost named = { λ image. image.name };

    ghost belongs = { λ image number. image.relation == number };

    const MOST: u8 = IMAGES_MOST;

    fn name(&self) -> Name {
        self.name
    }

    fn belongs(&self, number: u8) -> bool {
        self.relation == number
    }

    fn read_page(
        _alloc: Global,
        page: &Page,
        entries: &mut Vec<Option<ImageEntry>>,
    ) -> Result<bool, AllocError> {
        let first = entries.len();
        read_images(page, entries)?;
        Ok(*page == images_page(&entries[first..]))
    }
}

impl Entry for LinkEntry {
    ghost form = { link_form };

    ghost named = { λ link. link.name };

    ghost belongs = { λ link number. has_role number (Some link) };

    const MOST: u8 = LINKS_MOST;

    fn name(&self) -> Name {
        self.name
    }

    fn belongs(&self, number: u8) -> bool {
        let is_parent = match self.parent {
            Some(parent) => parent == number,
            None => false,
        };
        self.child == number || is_parent
    }

    fn read_page(
        _alloc: Global,
        page: &Page,
        entries: &mut Vec<Option<LinkEntry>>,
    ) -> Result<bool, AllocError> {
        let first = entries.len();
        read_links(page, entries)?;
        Ok(*page == links_page(&entries[first..]))
    }
}

// ---- what other tests than those of the catalog look at

/// A definition that has a place elsewhere in the store: the tree of an image, the chain of a link.
pub(crate) trait Placed: Copy {
    /// Whether it can be the place that it says.
    ghost right: { Self → Bool };

    /// With a place that can be one, if its own can't.
    ghost mended: { Self → Self };

    fn is_right(&self) -> bool
        ensures { result ≡ right self.now };

    fn mended(&self) -> Self
        ensures { result ≡ mended self.now };
}

/// The number of the first one that can't be as it says.
pub(crate) fn first_wrong<E: Placed>(entries: &[Option<E>]) -> Option<u8>
    requires { length entries.now ≤ images_most }
    ensures some { IfSome result (IsFirstWrong E.right entries.now) }
    ensures none { IfNone result (AreRight E.right entries.now) }
{
    for (place, entry) in entries.iter().enumerate() {
        if !is_fine(entry) {
            return Some(place as u8 + 1);
        }
    }
    None
}

/// Whether the one at a place, if there is one, can be as it says.
fn is_fine<E: Placed>(entry: &Option<E>) -> bool
    ensures { result ≡ is_fine E.right entry.now }
{
    match entry {
        Some(entry) => entry.is_right(),
        None => true,
    }
}

/// Puts each as it can be.
pub(crate) fn mend<E: Placed>(entries: &mut [Option<E>])
    ensures { entries.new ≡ map (option_map E.mended) entries.old }
{
    for place in 0..entries.len() {
        entries[place] = mended(entries[place]);
    }
}

fn mended<E: Placed>(entry: Option<E>) -> Option<E>
    ensures { result ≡ option_map E.mended entry }
{
    match entry {
        Some(entry) => Some(entry.mended()),
        None => None,
    }
}

/// Whether an end of a chain, if there is one, is an entry of a page.
fn is_end(end: Option<Tid>) -> bool
    ensures { result ≡ is_end end }
{
    match end {
        Some(tid) => usize::from(tid.slot) < PAGE_ENTRIES,
        None => true,
    }
}

impl Placed for ImageEntry {
    ghost right = { has_level };

    ghost mended = { leveled };

    fn is_right(&self) -> bool {
        self.levels >= 1
    }

    fn mended(&self) -> ImageEntry {
        let mut image = *self;
        if !self.is_right() {
            image.levels = 1;
        }
        image
    }
}

impl Placed for LinkEntry {
    ghost right = { has_ends };

    ghost mended = { mended };

    fn is_right(&self) -> bool {
        is_end(self.first) && is_end(self.last)
    }

    fn mended(&self) -> LinkEntry {
        let mut link = *self;
        if !self.is_right() {
            link.first = None;
            link.last = None;
        }
        link
    }
}
