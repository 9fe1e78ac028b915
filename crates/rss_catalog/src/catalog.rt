// The catalog, and the calls on it.
ghost use Rattle.std.specs.Prelude.{◌≡◌, ◌⊎◌, ◌↔◌, ℕ, ◌≤◌, ◌<◌, true, None, length, replicate, is_some, count_by, Option, Some, Err, IsTrue, IfOk, IfSome, IfNone, OnOk, OnErr, Contains};
ghost use Rattle.rss_base.specs.DiskRule.{IsTold};
ghost use Rattle.rss_base.specs.Looking.{ChecksPages};
ghost use Rattle.rss_base.specs.Names.{IsName};
ghost use Rattle.rss_base.specs.Sizes.{segments as segments_most, relations_most, images_most, links_most, system_pages};
ghost use Rattle.rss_base.specs.Steps.{PagesCall, no_page};
ghost use Rattle.rss_base.specs.Listings.{numbered, names_of, segment_at, relation_at, image_at, link_at, IsNumberOf, IsUnlisted};
ghost use Rattle.rss_base.specs.Listings.{IsLeastUnused, AreAllUsed, EntryFits, ImageFits, LinkFits, IsSpelled, ListingFits};
ghost use Rattle.rss_base.specs.Listings.{no_listing, with_segment, with_relation, with_image, with_link, with_count, with_root, roles_of, SuitsVersion, catalog_page};
ghost use Rattle.rss_base.specs.declared.fault.PageFault.TheVariants.{Damaged as PageDamaged};
ghost use Rattle.rss_base.specs.declared.name.Name.{Name as AnyName};
ghost use Rattle.rss_base.specs.declared.place.Place.{Place as AnyPlace};
ghost use Rattle.rss_base.specs.declared.relation.RelationEntry.{RelationEntry as Entry};
ghost use Rattle.rss_base.specs.declared.image.ImageEntry.{ImageEntry as AnImage};
ghost use Rattle.rss_base.specs.declared.link.LinkEntry.{LinkEntry as ALink};
ghost use Rattle.rss_base.specs.declared.refusal.Kind.TheVariants.{Segment, Relation, Image, Link};
ghost use Rattle.rss_catalog.specs.Catalogs.{none_pending, pending_pages, page_of, Loads, IsCatalogPlace};
ghost use Rattle.rss_catalog.specs.Catalogs.{StoresListing, HasSystemPages, Lists, without, HasNoLesser, HasRelationIn, HasImageOf, IsNamedIn};
ghost use Rattle.rss_catalog.specs.Catalogs.{IsSafe, IsSafeImage, IsSafeLink, HasLinkOf, HasRoleLeft, with_ends};
ghost use Rattle.rss_catalog.specs.Checking.{AreSafeIn, AreSafeLinks, listing_of};
ghost use Rattle.rss_catalog.specs.Defined.{AreDefinitions, IsCatalogOf, LoadsDefined, NamesFirst};
ghost use Rattle.std.proofs.Props.{props};

use crate::checking::{are_all_early, are_all_original, first_bad};
use crate::encoding::{
    IMAGES_OF_PAGE, RELATIONS_OF_PAGE, images_page, links_page, relations_page, segments_page,
};
use crate::entries::{first_wrong, has_entry_of, mend, roles_in};
use crate::loading::{
    IMAGE_PAGE, IMAGE_PAGES, LINK_PAGE, LINK_PAGES, PAGE_COUNT, RELATION_PAGES, damaged,
    first_unmapped, key_of, load_entries, load_segments,
};
use rss_base::{
    IMAGES_MOST, ImageEntry, Kind, LINKS_MOST, LinkEntry, Name, Page, PageFault, Pages,
    RELATIONS_MOST, RelationEntry, SEGMENTS, SYSTEM_PAGES, Tid,
};
use std::alloc::{AllocError, Global};
use std::marker::Model;

/// How many pages the system space has.
const PAGES: usize = SYSTEM_PAGES as usize;

/// The page that spells a relation.
pub(crate) fn page_of(number: u8) -> u8
    requires low { 1 ≤ number }
    requires high { number ≤ relations_most }
    ensures page { result ≡ page_of Relation number }
    ensures within { result < system_pages }
{
    1 + (number - 1) / RELATIONS_OF_PAGE
}

/// The page that spells an image.
pub fn image_page_of(number: u8) -> u8
    requires low { 1 ≤ number }
    requires high { number ≤ images_most }
    ensures page { result ≡ page_of Image number }
    ensures within { result < system_pages }
{
    1 + RELATION_PAGES + (number - 1) / IMAGES_OF_PAGE
}

/// So many places, with nothing at any of them.
fn free_places<T: Drop>(alloc: Global, count: u8) -> Result<Vec<Option<T>>, AllocError>
    ensures { IfOk result (λ places. places.items ≡ replicate count None) }
{
    let mut places = Vec::with_capacity(alloc, usize::from(count))?;
    for _ in 0..count {
        places.push(None)?;
    }
    Ok(places)
}

/// What has the number `number`, if anything does.
pub(crate) fn at<T>(items: &[Option<T>], number: u8) -> Option<&T>
    ensures some { IfSome result (λ item. numbered items.now number ≡ Some item.now) }
    ensures none { IfNone result (numbered items.now number ≡ None) }
{
    let number = usize::from(number);
    if number == 0 || number > items.len() {
        return None;
    }
    items[number - 1].as_ref()
}

/// The number of the last of these, or 0 if there is none.
fn last_used<T>(items: &[Option<T>]) -> u8
    requires { length items.now ≤ images_most }
    ensures none { (number : ℕ) → result < number → numbered items.now number ≡ None }
    ensures some { 1 ≤ result → is_some (numbered items.now result) ≡ true }
    ensures few { result ≤ length items.now }
{
    match items.iter().rposition(|item| item.is_some()) {
        Some(place) => place as u8 + 1,
        None => 0,
    }
}

/// The definitions of a store by their numbers, which count from 1, and the counts of its tuples.
///
/// They are kept in memory, and written to the pages of the system space by `store`. The form of
/// these pages is that of `docs/CATALOG.md`.
#[derive(Drop)]
pub struct Catalog {
    segments: Vec<Option<Name>>,
    relations: Vec<Option<RelationEntry>>,
    images: Vec<Option<ImageEntry>>,
    /// No image has a number above this one.
    last_image: u8,
    links: Vec<Option<LinkEntry>>,
    /// The number of the last link, or 0 if there is none.
    last_link: u8,
    /// Which pages have changed since they were written.
    pending: [bool; PAGES],
    ghost segment_places: { length segments.items ≡ segments_most },
    ghost relation_places: { length relations.items ≡ relations_most },
    ghost safe: { (number : ℕ) (relation : Entry) → numbered relations.items number ≡ Some relation
        → IsSafe relation },
    ghost image_places: { length images.items ≡ images_most },
    ghost safe_images: { AreSafeIn relations.items images.items },
    ghost none_behind: { (number : ℕ) → last_image < number
        → numbered images.items number ≡ None },
    ghost few_images: { last_image ≤ images_most },
    ghost link_places: { length links.items ≡ links_most },
    ghost safe_links: { AreSafeLinks relations.items links.items } by { Prim.hlevel props },
    ghost no_link_behind: { (number : ℕ) → last_link < number
        → numbered links.items number ≡ None },
    ghost few_links: { last_link ≤ links_most },
    ghost last_used: { 1 ≤ last_link → is_some (numbered links.items last_link) ≡ true },
}

impl Model for Catalog {
    ghost use Rattle.rss_catalog.specs.Catalogs.{CatalogView};
    ghost use Rattle.rss_catalog.specs.Checking.{listing_of};

    ghost Value = { CatalogView };

    ghost view = { λ c. record {
      listing = listing_of c.segments.items c.relations.items c.images.items c.links.items;
      pending = c.pending;
    } };
}

/// A catalog that was loaded. An image whose tree has no levels has one in it, and a link of which an
/// end is no entry of a page has none.
#[derive(Drop)]
pub struct Loaded {
    pub catalog: Catalog,
    /// The number of the first image that has no levels.
    pub image: Option<u8>,
    /// The number of the first link of which an end is no entry of a page.
    pub link: Option<u8>,
}

/// The catalog of what was read.
fn completed(
    segments: Vec<Option<Name>>,
    relations: Vec<Option<RelationEntry>>,
    mut images: Vec<Option<ImageEntry>>,
    mut links: Vec<Option<LinkEntry>>,
) -> Loaded
    requires { AreDefinitions (listing_of segments.items relations.items images.items links.items) }
    ensures { IsCatalogOf (listing_of segments.items relations.items images.items links.items)
        result.catalog result.image result.link }
{
    let image = first_wrong(&images);
    let link = first_wrong(&links);
    mend(&mut images);
    mend(&mut links);
    let last_image = last_used(&images);
    let last_link = last_used(&links);
    let catalog = Catalog {
        segments,
        relations,
        images,
        last_image,
        links,
        last_link,
        pending: [false; PAGES],
    };
    Loaded {
        catalog,
        image,
        link,
    }
}

impl Catalog {
    /// Nothing is defined.
    pub fn empty(alloc: Global) -> Result<Self, AllocError>
        ensures { IfOk result (λ catalog.
            catalog ≡ record { listing = no_listing; pending = none_pending }) }
    {
        Ok(Catalog {
            segments: free_places(alloc, SEGMENTS)?,
            relations: free_places(alloc, RELATIONS_MOST)?,
            images: free_places(alloc, IMAGES_MOST)?,
            last_image: 0,
            links: free_places(alloc, LINKS_MOST)?,
            last_link: 0,
            pending: [false; PAGES],
        })
    }

    /// The catalog in the pages of the system space. `Damaged` names the first of them that isn't
    /// there, or, if all are there, the first one that isn't in form. Out of form are an entry that
    /// isn't spelled as `docs/CATALOG.md` says, and a name that stands twice up to there. So is a
    /// relation of no segment, with fields that no relation has or with more than 2^20 tuples. So are
    /// an image of no relation or with a key that no image has, a link of no relation or whose
    /// parents are its children, and a relation of too many links.
    pub fn load<P: Pages>(alloc: Global, pages: &mut P) -> Result<Loaded, PageFault>
        ensures finds { IfOk result (λ loaded.
            LoadsDefined (P.view pages.old) loaded.catalog loaded.image loaded.link) }
        ensures loaded { IfOk result (λ loaded. loaded.image ≡ None → loaded.link ≡ None
            → Loads (P.view pages.old) loaded.catalog) }
        ensures first { (place : AnyPlace) → result ≡ Err (PageDamaged place)
            → IsTold (P.view pages.old).disk → NamesFirst (P.view pages.old).held place }
        ensures named { (place : AnyPlace) → result ≡ Err (PageDamaged place)
            → IsCatalogPlace place }
        ensures did { ChecksPages no_page system_pages
            (P.view pages.old) (P.view pages.new) result }
    {
        if let Some(page) = first_unmapped(pages) {
            return Err(damaged(page));
        }
        let mut right = 0;
        let segments = load_segments(alloc, pages, &mut right)?;
        let relations = load_entries::<RelationEntry, P>(
            alloc,
            pages,
            1,
            RELATION_PAGES,
            &mut right,
        )?;
        let images = load_entries::<ImageEntry, P>(
            alloc,
            pages,
            IMAGE_PAGE,
            IMAGE_PAGES,
            &mut right,
        )?;
        let links = load_entries::<LinkEntry, P>(alloc, pages, LINK_PAGE, LINK_PAGES, &mut right)?;
        let page = first_bad(&segments, &relations, &images, &links).min(right);
        if page < PAGE_COUNT {
            return Err(damaged(page));
        }
        Ok(completed(segments, relations, images, links))
    }

    /// Writes the pages of the system space that have changed since they were written, and no other.
    pub fn store<P: Pages>(&mut self, pages: &mut P) -> Result<(), PageFault>
        requires { HasSystemPages (P.view pages.old).mapped }
        ensures stores { OnOk result (StoresListing self.old (P.view pages.old) (P.view pages.new)) }
        ensures written { OnOk result (self.new.pending ≡ none_pending) }
        ensures same { self.new.listing ≡ self.old.listing }
        ensures failed { OnErr result (self.new ≡ self.old) }
        ensures did { PagesCall (pending_pages self.old) 0 (count_by (λ b. b) self.old.pending)
            (P.view pages.old) (P.view pages.new) result }
    {
        for number in 0..PAGES {
            if self.pending[number] {
                let number = number as u8;
                pages.write(key_of(number), &self.page(number))?;
            }
        }
        self.pending = [false; PAGES];
        Ok(())
    }

    /// The number of the definition of a kind that has this name.
    pub fn find(&self, kind: Kind, name: &Name) -> Option<u8>
        ensures some { IfSome result (IsNumberOf kind self.now.listing name.now) }
        ensures first { IfSome result (HasNoLesser kind self.now.listing name.now) }
        ensures none { IfNone result (IsUnlisted kind self.now.listing name.now) }
    {
        for place in 0..self.places(kind) {
            if self.name_at(kind, place + 1) == Some(*name) {
                return Some(place + 1);
            }
        }
        None
    }

    /// Whether a number of a kind is in use.
    pub fn used(&self, kind: Kind, number: u8) -> bool
        ensures { result ≡ is_some (numbered (names_of kind self.now.listing) number) }
    {
        self.name_at(kind, number).is_some()
    }

    /// Whether no more of a kind can be defined.
    pub fn is_full(&self, kind: Kind) -> bool
        ensures { IsTrue result ↔ AreAllUsed kind self.now.listing }
    {
        self.first_unused(kind).is_none()
    }

    /// The name of a segment.
    pub fn segment(&self, number: u8) -> Name
        requires { is_some (segment_at self.now.listing number) ≡ true }
        ensures { segment_at self.now.listing number ≡ Some result }
    {
        match at(&self.segments, number) {
            Some(name) => *name,
            None => unreachable!(),
        }
    }

    pub fn relation(&self, number: u8) -> &RelationEntry
        requires { is_some (relation_at self.now.listing number) ≡ true }
        ensures is { relation_at self.now.listing number ≡ Some result.now }
        ensures safe { IsSafe result.now }
    {
        match at(&self.relations, number) {
            Some(relation) => relation,
            None => unreachable!(),
        }
    }

    pub fn image(&self, number: u8) -> &ImageEntry
        requires { is_some (image_at self.now.listing number) ≡ true }
        ensures is { image_at self.now.listing number ≡ Some result.now }
        ensures safe { IsSafeImage self.now.listing result.now }
    {
        match at(&self.images, number) {
            Some(image) => image,
            None => unreachable!(),
        }
    }

    /// No image has a number above this one.
    pub fn last_image(&self) -> u8
        ensures none { (number : ℕ) → result < number → image_at self.now.listing number ≡ None }
        ensures few { result ≤ images_most }
    {
        self.last_image
    }

    pub fn link(&self, number: u8) -> &LinkEntry
        requires { is_some (link_at self.now.listing number) ≡ true }
        ensures is { link_at self.now.listing number ≡ Some result.now }
        ensures safe { IsSafeLink self.now.listing result.now }
    {
        match at(&self.links, number) {
            Some(link) => link,
            None => unreachable!(),
        }
    }

    /// The number of the last link, or 0 if there is none.
    pub fn last_link(&self) -> u8
        ensures none { (number : ℕ) → result < number → link_at self.now.listing number ≡ None }
        ensures some { 1 ≤ result → is_some (link_at self.now.listing result) ≡ true }
        ensures few { result ≤ links_most }
    {
        self.last_link
    }

    /// No relation has a number above this one.
    pub fn last_relation(&self) -> u8
        ensures none { (number : ℕ) → result < number → relation_at self.now.listing number ≡ None }
        ensures few { result ≤ relations_most }
    {
        self.relations.len() as u8
    }

    /// Whether a relation of this segment is defined.
    pub fn has_relation_in(&self, segment: u8) -> bool
        ensures { IsTrue result ↔ HasRelationIn self.now.listing segment }
    {
        has_entry_of(&self.relations, segment)
    }

    /// Whether an image of this relation is defined.
    pub fn has_image_of(&self, relation: u8) -> bool
        ensures { IsTrue result ↔ HasImageOf self.now.listing relation }
    {
        has_entry_of(&self.images[..usize::from(self.last_image)], relation)
    }

    /// Whether a relation has a part in a link.
    pub fn has_link_of(&self, relation: u8) -> bool
        ensures { IsTrue result ↔ HasLinkOf self.now.listing relation }
    {
        has_entry_of(&self.links, relation)
    }

    /// In how many links a relation is.
    pub fn roles_of(&self, relation: u8) -> u8
        ensures { result ≡ roles_of self.now.listing relation }
    {
        roles_in(&self.links, relation)
    }

    /// The names of the relations of a segment, by their numbers.
    pub fn relations_in(&self, alloc: Global, segment: u8) -> Result<Vec<Name>, AllocError>
        ensures { IfOk result (λ names. (name : AnyName)
            → Contains names.items name ↔ IsNamedIn self.now.listing segment name) }
    {
        let mut names = Vec::new(alloc);
        for relation in &self.relations {
            if let Some(relation) = relation
                && relation.segment == segment
            {
                names.push(relation.name)?;
            }
        }
        Ok(names)
    }

    /// Whether a store of this version of the format may have these definitions.
    pub fn suits_version(&self, version: u8) -> bool
        ensures { IsTrue result ↔ SuitsVersion version self.now.listing }
    {
        if version < 2 && !are_all_original(&self.relations) {
            return false;
        }
        version >= 3 || are_all_early(&self.links)
    }

    /// Defines a segment by the least number that is not in use, and answers this.
    pub fn add_segment(&mut self, name: Name) -> u8
        requires name { IsName name }
        requires fresh { IsUnlisted Segment self.old.listing name }
        requires room { AreAllUsed Segment self.old.listing → ⊥ }
        ensures least { IsLeastUnused Segment self.old.listing result }
        ensures lists { Lists (with_segment self.old.listing result (Some name)) 0
            self.old self.new }
        ensures fits { ListingFits self.old.listing → ListingFits self.new.listing }
    {
        let number = self.first_unused(Kind::Segment).unwrap();
        self.set_segment(number, Some(name));
        number
    }

    /// Defines a relation by the least number that is not in use, and answers this.
    pub fn add_relation(&mut self, relation: RelationEntry) -> u8
        requires entry { EntryFits self.old.listing relation }
        requires fresh { IsUnlisted Relation self.old.listing relation.name }
        requires room { AreAllUsed Relation self.old.listing → ⊥ }
        ensures least { IsLeastUnused Relation self.old.listing result }
        ensures lists { Lists (with_relation self.old.listing result (Some relation))
            (page_of Relation result) self.old self.new }
        ensures none { HasImageOf self.old.listing result → ⊥ }
        ensures unlinked { HasLinkOf self.old.listing result → ⊥ }
        ensures fits { ListingFits self.old.listing → ListingFits self.new.listing }
    {
        let number = self.first_unused(Kind::Relation).unwrap();
        self.set_relation(number, Some(relation));
        number
    }

    /// Defines an image by the least number that is not in use, and answers this.
    pub fn add_image(&mut self, image: ImageEntry) -> u8
        requires entry { ImageFits self.old.listing image }
        requires fresh { IsUnlisted Image self.old.listing image.name }
        requires room { AreAllUsed Image self.old.listing → ⊥ }
        ensures least { IsLeastUnused Image self.old.listing result }
        ensures lists { Lists (with_image self.old.listing result (Some image))
            (page_of Image result) self.old self.new }
        ensures fits { ListingFits self.old.listing → ListingFits self.new.listing }
    {
        let number = self.first_unused(Kind::Image).unwrap();
        self.set_image(number, Some(image));
        number
    }

    /// Defines a link by the least number that is not in use, and answers this.
    pub fn add_link(&mut self, link: LinkEntry) -> u8
        requires entry { LinkFits self.old.listing link }
        requires fresh { IsUnlisted Link self.old.listing link.name }
        requires room { AreAllUsed Link self.old.listing → ⊥ }
        requires roles { HasRoleLeft self.old.listing link }
        ensures least { IsLeastUnused Link self.old.listing result }
        ensures lists { Lists (with_link self.old.listing result (Some link))
            (page_of Link result) self.old self.new }
        ensures fits { ListingFits self.old.listing → ListingFits self.new.listing }
    {
        let number = self.first_unused(Kind::Link).unwrap();
        self.set_link(number, Some(link));
        number
    }

    /// Takes a definition away.
    pub fn remove(&mut self, kind: Kind, number: u8)
        requires kind { (kind ≡ Segment) ⊎ ((kind ≡ Relation) ⊎ ((kind ≡ Image) ⊎ (kind ≡ Link))) }
        requires used { is_some (numbered (names_of kind self.old.listing) number) ≡ true }
        requires no_image { kind ≡ Relation → HasImageOf self.old.listing number → ⊥ }
        requires no_link { kind ≡ Relation → HasLinkOf self.old.listing number → ⊥ }
        ensures lists { Lists (without kind self.old.listing number) (page_of kind number)
            self.old self.new }
        ensures fits { (kind ≡ Segment → HasRelationIn self.old.listing number → ⊥)
            → ListingFits self.old.listing → ListingFits self.new.listing }
    {
        match kind {
            Kind::Segment => self.set_segment(number, None),
            Kind::Relation => self.set_relation(number, None),
            Kind::Image => self.set_image(number, None),
            Kind::Link => self.set_link(number, None),
            Kind::Field | Kind::Scan => unreachable!(),
        }
    }

    /// Sets where the tree of an image begins, and how many levels it has.
    pub fn set_root(&mut self, number: u8, root: u32, levels: u8)
        requires there { is_some (image_at self.old.listing number) ≡ true }
        requires low { 1 ≤ levels }
        ensures lists { (image : AnImage) → image_at self.old.listing number ≡ Some image
            → Lists (with_image self.old.listing number (Some (with_root root levels image)))
            (page_of Image number) self.old self.new }
        ensures fits { ListingFits self.old.listing → ListingFits self.new.listing }
    {
        let mut image = *self.image(number);
        image.root = root;
        image.levels = levels;
        self.set_image(number, Some(image));
    }

    /// Sets the ends of the one chain of a link without parents.
    pub fn set_ends(&mut self, number: u8, first: Option<Tid>, last: Option<Tid>)
        requires there { is_some (link_at self.old.listing number) ≡ true }
        requires first { IfSome first IsSpelled }
        requires last { IfSome last IsSpelled }
        ensures lists { (link : ALink) → link_at self.old.listing number ≡ Some link
            → Lists (with_link self.old.listing number (Some (with_ends first last link)))
            (page_of Link number) self.old self.new }
        ensures fits { ListingFits self.old.listing → ListingFits self.new.listing }
    {
        let mut link = *self.link(number);
        link.first = first;
        link.last = last;
        self.set_link(number, Some(link));
    }

    /// Sets how many tuples a relation has.
    pub fn set_count(&mut self, number: u8, live: u32)
        requires { is_some (relation_at self.old.listing number) ≡ true }
        ensures lists { (relation : Entry) → relation_at self.old.listing number ≡ Some relation
            → Lists (with_relation self.old.listing number (Some (with_count live relation)))
            (page_of Relation number) self.old self.new }
        ensures fits { ListingFits self.old.listing → ListingFits self.new.listing }
    {
        let Some(relation) = &mut self.relations[usize::from(number) - 1] else {
            unreachable!()
        };
        relation.live = live;
        self.pending[usize::from(page_of(number))] = true;
    }

    /// The page `number` of the system space.
    fn page(&self, number: u8) -> Page
        requires { number < system_pages }
        ensures { result ≡ catalog_page self.now.listing number }
    {
        if number == 0 {
            return segments_page(&self.segments);
        }
        if number <= RELATION_PAGES {
            let first = usize::from((number - 1) * RELATIONS_OF_PAGE);
            return relations_page(&self.relations[first..first + usize::from(RELATIONS_OF_PAGE)]);
        }
        if number <= RELATION_PAGES + IMAGE_PAGES {
            let first = usize::from((number - 1 - RELATION_PAGES) * IMAGES_OF_PAGE);
            return images_page(&self.images[first..first + usize::from(IMAGES_OF_PAGE)]);
        }
        links_page(&self.links)
    }

    /// How many places a kind has.
    fn places(&self, kind: Kind) -> u8
        ensures places { result ≡ length (names_of kind self.now.listing) }
        ensures few { result ≤ images_most }
    {
        match kind {
            Kind::Segment => self.segments.len() as u8,
            Kind::Relation => self.relations.len() as u8,
            Kind::Image => self.images.len() as u8,
            Kind::Link => self.links.len() as u8,
            Kind::Field | Kind::Scan => 0,
        }
    }

    /// The name of a number of a kind, if it is in use.
    pub fn name_at(&self, kind: Kind, number: u8) -> Option<Name>
        ensures { result ≡ numbered (names_of kind self.now.listing) number }
    {
        match kind {
            Kind::Segment => at(&self.segments, number).copied(),
            Kind::Relation => at(&self.relations, number).map(|relation| relation.name),
            Kind::Image => at(&self.images, number).map(|image| image.name),
            Kind::Link => at(&self.links, number).map(|link| link.name),
            Kind::Field | Kind::Scan => None,
        }
    }

    /// The least number of a kind that is not in use.
    fn first_unused(&self, kind: Kind) -> Option<u8>
        ensures some { IfSome result (IsLeastUnused kind self.now.listing) }
        ensures none { IfNone result (AreAllUsed kind self.now.listing) }
    {
        for place in 0..self.places(kind) {
            if !self.used(kind, place + 1) {
                return Some(place + 1);
            }
        }
        None
    }

    /// Puts this at the place of a segment.
    fn set_segment(&mut self, number: u8, segment: Option<Name>)
        requires low { 1 ≤ number }
        requires high { number ≤ length self.old.listing.segments }
        ensures { Lists (with_segment self.old.listing number segment) 0 self.old self.new }
    {
        self.segments[usize::from(number) - 1] = segment;
        self.pending[0] = true;
    }

    /// Puts this at the place of a relation, in place of one that no image is of, and no link.
    fn set_relation(&mut self, number: u8, relation: Option<RelationEntry>)
        requires low { 1 ≤ number }
        requires high { number ≤ length self.old.listing.relations }
        requires fits { IfSome relation (EntryFits self.old.listing) }
        requires no_image { is_some (relation_at self.old.listing number) ≡ true
            → HasImageOf self.old.listing number → ⊥ }
        requires no_link { is_some (relation_at self.old.listing number) ≡ true
            → HasLinkOf self.old.listing number → ⊥ }
        ensures lists { Lists (with_relation self.old.listing number relation) (page_of Relation number)
            self.old self.new }
        ensures none { HasImageOf self.old.listing number → ⊥ }
        ensures unlinked { HasLinkOf self.old.listing number → ⊥ }
    {
        self.relations[usize::from(number) - 1] = relation;
        self.pending[usize::from(page_of(number))] = true;
    }

    /// Puts this at the place of an image.
    fn set_image(&mut self, number: u8, image: Option<ImageEntry>)
        requires low { 1 ≤ number }
        requires high { number ≤ length self.old.listing.images }
        requires safe { IfSome image (IsSafeImage self.old.listing) }
        ensures { Lists (with_image self.old.listing number image) (page_of Image number)
            self.old self.new }
    {
        self.images[usize::from(number) - 1] = image;
        self.last_image = self.last_image.max(number);
        self.pending[usize::from(image_page_of(number))] = true;
    }

    /// Puts this at the place of a link.
    fn set_link(&mut self, number: u8, link: Option<LinkEntry>)
        requires low { 1 ≤ number }
        requires high { number ≤ length self.old.listing.links }
        requires safe { IfSome link (IsSafeLink self.old.listing) }
        ensures { Lists (with_link self.old.listing number link) (page_of Link number)
            self.old self.new }
    {
        self.links[usize::from(number) - 1] = link;
        self.last_link = last_used(&self.links);
        self.pending[usize::from(LINK_PAGE)] = true;
    }
}
