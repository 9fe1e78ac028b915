// What the pages of a store hold.
ghost use Rattle.std.specs.Prelude.{◌≡◌, ◌↔◌, IsTrue, ◌≢◌, ◌+◌, ◌*◌, ◌<◌, ◌≤◌, ℕ, length, true, false, Some, None, is_some, IfSome, IfNone, IfOk, OnOk, Err};
ghost use Rattle.rss_base.specs.DiskRule.{Pages as DevicePages, IsTold};
ghost use Rattle.rss_base.specs.Looking.{ChecksPages};
ghost use Rattle.rss_base.specs.Sizes.{relations_most, segments as segments_most, system_pages};
ghost use Rattle.rss_base.specs.Steps.{no_page};
ghost use Rattle.rss_base.specs.Listings.{ListingFits, segment_at, link_at};
ghost use Rattle.rss_base.specs.declared.fault.PageFault.TheVariants.{Damaged as PageDamaged};
ghost use Rattle.rss_base.specs.declared.link.LinkEntry.{LinkEntry as ALink};
ghost use Rattle.rss_base.specs.declared.place.Place.{Place as AnyPlace};
ghost use Rattle.rss_base.specs.declared.place.Place.TheVariants.{Room as RoomPlace};
ghost use Rattle.rss_base.specs.declared.key.PageKey.{PageKey as Key};
ghost use Rattle.rss_base.specs.declared.key.Space.TheVariants.{System};
ghost use Rattle.rss_page.specs.Slotted.{IsHeapKey};
ghost use Rattle.rss_tuple.specs.Checked.{pages_of};
ghost use Rattle.rss_tuple.specs.Heaps.{AreHeaps};
ghost use Rattle.rss_tuple.specs.TupleSteps.{TuplesCall, no_tuple, tuples_in};
ghost use Rattle.rss_stored.specs.Store.{IsStorePage};
ghost use Rattle.rss_catalog.specs.Catalogs.{Loads};
ghost use Rattle.rss_catalog.specs.Defined.{HasFewTuples, LoadsDefined};
ghost use Rattle.rss_access.specs.Bodies.{is_body};
ghost use Rattle.rss_access.specs.Changes.{both};
ghost use Rattle.rss_check.specs.Checks.{AreSeen, ChecksSegment, MissesSegment, IsCountOf};
ghost use Rattle.rss_check.specs.Checks.{ChecksSegments, MissesTuples, AreListed};
ghost use Rattle.rss_check.specs.Checks.{HasOwnEnds, HasLink, ChecksLinks};
ghost use Rattle.rss_check.specs.Lines.{HeapPages, Links, IsFirst, IsLeast, AreUnbroken, IsFirstIfAny};
ghost use Rattle.rss_check.specs.Faults.{IsFirstFault, ArePassed};
ghost use Rattle.rss_check.specs.Looks.{FindsTables, FindsNone};
ghost use Rattle.rss_check.specs.Passed.{IsViewOf, PassesTuples, OfWrongLink};
ghost use Rattle.rss_check.specs.Refused.{IsEarlyPlace};
ghost use Rattle.rss_check.specs.Tuples.{BreaksAt, BreaksOf, PathsOf};
ghost use Rattle.rss_check.specs.Tuples.{IsFirstMapped, place_of_flaw, rank_of, earlier_of};

use crate::marking::{is_named, look_at_images};
use rss_access::TUPLES_MOST;
use rss_base::{
    Kind, LinkEntry, PageFault, PageKey, Pages, Place, RELATIONS_MOST, SEGMENTS, Space, Tid,
};
use rss_catalog::{Catalog, Loaded};
use rss_link::{Ends, Relations};
use rss_members::{chains_of, prefix_len};
use rss_tuple::{Flaw, Store, Visitor, check};
use rss_value::spells;
use std::alloc::Global;

/// How many places there are for the numbers of relations.
const RELATIONS: usize = RELATIONS_MOST as usize;

/// The catalog of the pages, which are looked through. `Damaged` names the first place that isn't
/// sound, up to the last link. What is found of the room on each page is noted there.
pub fn look_through<P: Pages>(alloc: Global, tuples: &mut Store<P>) -> Result<Catalog, PageFault>
    ensures finds { IfOk result
        (FindsTables (P.view tuples.old.pages) (P.view tuples.new.pages)) }
    ensures passes { OnOk result (IsTold (P.view tuples.old.pages).disk
        → (device : DevicePages) → IsViewOf device (P.view tuples.old.pages)
        → ArePassed device Links) }
    ensures first { (place : AnyPlace) → result ≡ Err (PageDamaged place)
        → IsTold (P.view tuples.old.pages).disk
        → (device : DevicePages) → IsViewOf device (P.view tuples.old.pages)
        → IsFirstFault device place }
    ensures early { (place : AnyPlace) → result ≡ Err (PageDamaged place)
        → IsTold (P.view tuples.old.pages).disk → IsEarlyPlace place }
    ensures none { (place : AnyPlace) → result ≡ Err (PageDamaged place)
        → FindsNone (P.view tuples.old.pages) place }
    ensures did { (most : ℕ) × ChecksPages IsHeapKey most
        (P.view tuples.old.pages) (P.view tuples.new.pages) result }
{
    let Loaded {
        catalog,
        image,
        link,
    } = look_at_tuples(alloc, &mut tuples.pages)?;
    look_at_images(alloc, tuples, &catalog, image)?;
    look_at_links(tuples, &catalog, link)?;
    Ok(catalog)
}

/// The catalog of the pages, whose tuples are looked through. `Damaged` names the first place that
/// isn't sound: a page of the system space, a home or an overflow page, a tuple, or a count. What is
/// found of the room on each page is noted there.
fn look_at_tuples<P: Pages>(alloc: Global, pages: &mut P) -> Result<Loaded, PageFault>
    ensures finds { IfOk result (λ loaded.
        LoadsDefined (P.view pages.old) loaded.catalog loaded.image loaded.link) }
    ensures loaded { IfOk result (λ loaded. loaded.image ≡ None → loaded.link ≡ None
        → Loads (P.view pages.old) loaded.catalog) }
    ensures checks { IfOk result (λ loaded.
        ChecksSegments loaded.catalog.listing (P.view pages.old) (P.view pages.new)) }
    ensures listed { IfOk result (λ loaded.
        AreListed IsHeapKey loaded.catalog.listing (P.view pages.old).mapped) }
    ensures passes { IfOk result (λ loaded. IsTold (P.view pages.old).disk
        → (device : DevicePages) → IsViewOf device (P.view pages.old)
        → PassesTuples device loaded.catalog loaded.image loaded.link) }
    ensures first { (place : AnyPlace) → result ≡ Err (PageDamaged place)
        → IsTold (P.view pages.old).disk
        → (device : DevicePages) → IsViewOf device (P.view pages.old)
        → IsFirstFault device place }
    ensures early { (place : AnyPlace) → result ≡ Err (PageDamaged place)
        → IsTold (P.view pages.old).disk → IsEarlyPlace place }
    ensures none { (place : AnyPlace) → result ≡ Err (PageDamaged place)
        → FindsNone (P.view pages.old) place }
    ensures did { ChecksPages IsHeapKey (system_pages + 1040 * (P.view pages.old).slots)
        (P.view pages.old) (P.view pages.new) result }
{
    let loaded = Catalog::load(alloc, pages)?;
    look_at_segments(alloc, pages, &loaded.catalog)?;
    Ok(loaded)
}

/// The first home or overflow page with the number of this segment, if the segment isn't defined.
fn foreign_heap_in<P: Pages>(pages: &P, catalog: &Catalog, segment: u8) -> Option<PageKey>
    requires low { 1 ≤ segment }
    requires high { segment ≤ segments_most }
    ensures some { IfSome result (λ key. (P.view pages.now).mapped key ≡ true
        × (IsStorePage catalog.now.listing key → ⊥)) }
    ensures unlisted { IfSome result
        (λ key. is_some (segment_at catalog.now.listing segment) ≡ false) }
    ensures first { IfSome result (IsFirstMapped (P.view pages.now).mapped segment) }
    ensures none { IfNone result (is_some (segment_at catalog.now.listing segment) ≡ false
        → (key : Key) → pages_of segment key → (P.view pages.now).mapped key ≡ true → ⊥) }
{
    if catalog.used(Kind::Segment, segment) {
        return None;
    }
    if let Some(key) = first_of(pages, segment, Space::Home) {
        return Some(key);
    }
    first_of(pages, segment, Space::Overflow)
}

/// The first page of a segment and a space.
fn first_of<P: Pages>(pages: &P, segment: u8, space: Space) -> Option<PageKey>
    requires low { 1 ≤ segment }
    requires high { segment ≤ segments_most }
    requires space { space ≢ System }
    ensures some { IfSome result (λ key. (P.view pages.now).mapped key ≡ true
        × (key.segment ≡ segment) × (key.space ≡ space)) }
    ensures first { IfSome result (λ key. (other : Key) → other.segment ≡ segment
        → other.space ≡ space → other.number < key.number
        → (P.view pages.now).mapped other ≡ true → ⊥) }
    ensures none { IfNone result ((key : Key) → key.segment ≡ segment → key.space ≡ space
        → (P.view pages.now).mapped key ≡ true → ⊥) }
{
    let number = pages.first_mapped(segment, space, 0)?;
    Some(PageKey {
        segment,
        space,
        number,
    })
}

/// Looks through the pages of each segment. Of what is wrong, pages out of form, or of a segment that
/// isn't defined, come first. Then come entries, and after them overflow pages with an entry that none
/// leads to. Relations whose tuples aren't as many as the catalog counts come last.
fn look_at_segments<P: Pages>(
    alloc: Global,
    pages: &mut P,
    catalog: &Catalog,
) -> Result<(), PageFault>
    requires { ListingFits catalog.now.listing }
    ensures checks { OnOk result
        (ChecksSegments catalog.now.listing (P.view pages.old) (P.view pages.new)) }
    ensures listed { OnOk result
        (AreListed IsHeapKey catalog.now.listing (P.view pages.old).mapped) }
    ensures misses { (place : AnyPlace) → result ≡ Err (PageDamaged place)
        → MissesTuples catalog.now.listing (P.view pages.old) place }
    ensures first { (place : AnyPlace) → result ≡ Err (PageDamaged place)
        → IsTold (P.view pages.old).disk → HasFewTuples catalog.now.listing
        → IsFirst (BreaksOf (P.view pages.old) catalog.now.listing) place }
    ensures passed { OnOk result (IsTold (P.view pages.old).disk → HasFewTuples catalog.now.listing
        → AreUnbroken (BreaksOf (P.view pages.old) catalog.now.listing)) }
    ensures did { ChecksPages IsHeapKey (1040 * (P.view pages.old).slots)
        (P.view pages.old) (P.view pages.new) result }
{
    let mut wrong = None;
    for segment in 1..=SEGMENTS {
        if let Some(key) = foreign_heap_in(pages, catalog, segment) {
            return Err(PageFault::Damaged(Place::Page(key)));
        }
        if catalog.used(Kind::Segment, segment) {
            let found = look_at_segment(alloc, pages, catalog, segment)?;
            wrong = earlier(wrong, found);
        }
    }
    match wrong {
        None => Ok(()),
        Some(place) => Err(PageFault::Damaged(place)),
    }
}

/// Of two places at which tuples are wrong the earlier one, if there is any. An entry comes before an
/// overflow page, and that before a count. Of two counts it is that of the lesser number, and otherwise
/// the first.
fn earlier(first: Option<Place>, second: Option<Place>) -> Option<Place>
    ensures { result ≡ earlier_of first second }
{
    let Some(one) = first else {
        return second;
    };
    match second {
        Some(other) if order_of(other) < order_of(one) => second,
        _ => first,
    }
}

/// The order of what is wrong in tuples.
fn order_of(place: Place) -> u16
    ensures { result ≡ rank_of place }
{
    match place {
        Place::Tuple(_, _) => 0,
        Place::Page(_) => 1,
        Place::Count(number) => 2 + u16::from(number),
        _ => u16::MAX,
    }
}

/// Looks at each link that is listed. `Damaged` names the first one whose tuples' bodies don't spell
/// chains with the ends that are listed, or that is `wrong` by itself.
fn look_at_links<P: Pages>(
    tuples: &mut Store<P>,
    catalog: &Catalog,
    wrong: Option<u8>,
) -> Result<(), PageFault>
    requires heaps { IsTold (P.view tuples.old.pages).disk → AreHeaps (P.view tuples.old.pages) }
    ensures checks { OnOk result (IsTold (P.view tuples.old.pages).disk
        → ChecksLinks (both (P.view tuples.old.pages) catalog.now)) }
    ensures right { OnOk result ((number : ℕ)
        → is_some (link_at catalog.now.listing number) ≡ true → wrong ≡ Some number → ⊥) }
    ensures first { (place : AnyPlace) → result ≡ Err (PageDamaged place)
        → IsTold (P.view tuples.old.pages).disk → OfWrongLink catalog.now wrong
        (λ listing. IsLeast (PathsOf (P.view tuples.old.pages) listing Links) place) }
    ensures did { (most : ℕ) × ChecksPages no_page most
        (P.view tuples.old.pages) (P.view tuples.new.pages) result }
{
    for place in 0..catalog.last_link() {
        if is_named(wrong, place + 1) {
            return Err(PageFault::Damaged(Place::Link(place + 1)));
        }
        if catalog.used(Kind::Link, place + 1) && !has_chains(tuples, catalog, place + 1)? {
            return Err(PageFault::Damaged(Place::Link(place + 1)));
        }
    }
    Ok(())
}

/// Whether a link has its chains: the bodies of its tuples spell some, and no ends are listed but those
/// of the one chain of a link without parents.
fn has_chains<P: Pages>(
    tuples: &mut Store<P>,
    catalog: &Catalog,
    number: u8,
) -> Result<bool, PageFault>
    requires listed { is_some (link_at catalog.now.listing number) ≡ true }
    requires heaps { IsTold (P.view tuples.old.pages).disk → AreHeaps (P.view tuples.old.pages) }
    ensures yes { IfOk result (λ has. has ≡ true → IsTold (P.view tuples.old.pages).disk
        → (link : ALink) → link_at catalog.now.listing number ≡ Some link
        → HasLink (both (P.view tuples.old.pages) catalog.now) number link) }
    ensures no { IfOk result (λ has. has ≡ false → IsTold (P.view tuples.old.pages).disk
        → (link : ALink) → link_at catalog.now.listing number ≡ Some link
        → HasLink (both (P.view tuples.old.pages) catalog.now) number link → ⊥) }
    ensures did { (most : ℕ) × TuplesCall no_page no_tuple most
        (tuples_in (P.view tuples.old.pages)) (tuples_in (P.view tuples.new.pages)) result }
{
    let link = catalog.link(number);
    if !has_own_ends(link) {
        return Ok(false);
    }
    let ends = Ends {
        first: link.first,
        last: link.last,
    };
    let relations = Relations {
        child: link.child,
        parent: link.parent.unwrap_or(0),
    };
    chains_of(catalog, number).check(&ends, tuples, relations)
}

/// Whether ends are listed of no other link than one without parents.
fn has_own_ends(link: &LinkEntry) -> bool
    ensures { IsTrue result ↔ HasOwnEnds link.now }
{
    link.parent.is_none() || (link.first.is_none() && link.last.is_none())
}

/// Counts the tuples of a segment that it sees by their relations, each up to 2^32 - 1.
#[derive(Drop)]
struct Census<'a> {
    catalog: &'a Catalog,
    segment: u8,
    live: [u32; RELATIONS],
    ghost places: { length catalog.now.listing.relations ≡ relations_most },
}

impl<'a> Visitor for Census<'a> {
    ghost is_good = { λ census. is_body census.catalog.now.listing census.segment };

    ghost saw = { λ census. AreSeen census.live };

    fn see(&mut self, _tid: Tid, body: &[u8]) -> bool {
        let Some((number, rest)) = body.split_first() else {
            return false;
        };
        if *number == 0 || *number > RELATIONS_MOST {
            return false;
        }
        let place = usize::from(*number) - 1;
        self.live[place] = self.live[place].saturating_add(1);
        if !self.catalog.used(Kind::Relation, *number) {
            return false;
        }
        let blocks = prefix_len(self.catalog, *number);
        if blocks > rest.len() {
            return false;
        }
        let relation = self.catalog.relation(*number);
        relation.segment == self.segment && spells(relation.fields.as_slice(), &rest[blocks..])
    }
}

/// Looks through the pages of a segment: its tuples are those of its relations, as many as the
/// catalog counts. A page out of form is `Damaged`. If there is none, the answer is what else is
/// wrong first.
fn look_at_segment<P: Pages>(
    alloc: Global,
    pages: &mut P,
    catalog: &Catalog,
    segment: u8,
) -> Result<Option<Place>, PageFault>
    requires listed { is_some (segment_at catalog.now.listing segment) ≡ true }
    requires fits { ListingFits catalog.now.listing }
    ensures checks { IfOk result (λ wrong. IfNone wrong
        (ChecksSegment catalog.now.listing segment (P.view pages.old) (P.view pages.new))) }
    ensures wrong { IfOk result (λ wrong. IfSome wrong
        (MissesSegment catalog.now.listing segment (P.view pages.old))) }
    ensures misses { (place : AnyPlace) → result ≡ Err (PageDamaged place)
        → MissesSegment catalog.now.listing segment (P.view pages.old) place }
    ensures page { (place : AnyPlace) → result ≡ Err (PageDamaged place)
        → IsTold (P.view pages.old).disk
        → IsLeast (BreaksAt (P.view pages.old) catalog.now.listing segment HeapPages) place }
    ensures formed { OnOk result (IsTold (P.view pages.old).disk → (place : AnyPlace)
        → BreaksAt (P.view pages.old) catalog.now.listing segment HeapPages place → ⊥) }
    ensures first { IfOk result (λ wrong. IsTold (P.view pages.old).disk
        → HasFewTuples catalog.now.listing
        → IsFirstIfAny (BreaksAt (P.view pages.old) catalog.now.listing segment) wrong) }
    ensures did { ChecksPages (pages_of segment) (130 * (P.view pages.old).slots)
        (P.view pages.old) (P.view pages.new) result }
{
    let mut census = Census {
        catalog,
        segment,
        live: [0; RELATIONS],
    };
    if let Some(flaw) = check(alloc, pages, segment, &mut census)? {
        return Ok(Some(flaw_place(segment, flaw)));
    }
    for number in 1..=RELATIONS_MOST {
        let seen = census.live[usize::from(number) - 1];
        if !has_count(catalog, segment, number, seen) {
            return Ok(Some(Place::Count(number)));
        }
    }
    Ok(None)
}

/// Where a flaw of a segment shows: at the tuple, or at the overflow page.
fn flaw_place(segment: u8, flaw: Flaw) -> Place
    ensures is { result ≡ place_of_flaw segment flaw }
    ensures elsewhere { result ≢ RoomPlace }
{
    match flaw {
        Flaw::Entry(tid) => Place::Tuple(segment, tid),
        Flaw::Unled(number) => Place::Page(PageKey {
            segment,
            space: Space::Overflow,
            number,
        }),
    }
}

/// Whether the relation `number`, if it is one of the segment, has as many tuples as were seen, and
/// no more than a relation may have.
fn has_count(catalog: &Catalog, segment: u8, number: u8, seen: u32) -> bool
    ensures yes { result ≡ true → IsCountOf catalog.now.listing segment number seen }
    ensures no { result ≡ false → IsCountOf catalog.now.listing segment number seen → ⊥ }
{
    if !catalog.used(Kind::Relation, number) {
        return true;
    }
    let relation = catalog.relation(number);
    relation.segment != segment || (relation.live == seen && seen <= TUPLES_MOST)
}
