// Changes that are applied and undone.
ghost use Rattle.std.specs.Prelude.{◌≡◌, ◌+◌, ◌*◌, ◌<◌, ◌≤◌, ◌++◌, true, length, is_some, Some, None, Err, IfOk, IfSome, OnOk};
ghost use Rattle.rss_base.specs.DiskRule.{IsTold};
ghost use Rattle.rss_base.specs.Sizes.{page_entries};
ghost use Rattle.rss_base.specs.Steps.{PagesCall, no_page};
ghost use Rattle.rss_base.specs.Prefixes.{prefix_size};
ghost use Rattle.rss_base.specs.Listings.{ListingFits, relation_at, with_relation, with_count};
ghost use Rattle.rss_base.specs.declared.fault.PageFault.TheVariants.{Damaged as PageDamaged};
ghost use Rattle.rss_base.specs.declared.place.Place.{Place as AnyPlace};
ghost use Rattle.rss_base.specs.declared.relation.RelationEntry.{RelationEntry as Entry};
ghost use Rattle.rss_tuple.specs.Calls.{IsSegment};
ghost use Rattle.rss_tuple.specs.Checked.{pages_of};
ghost use Rattle.rss_tuple.specs.Heaps.{AreHeaps, body_most};
ghost use Rattle.rss_members.specs.Members.{front_most};
ghost use Rattle.rss_entries.specs.Rooms.{images_cost};
ghost use Rattle.rss_model.specs.Fits.{IsIdentifier};
ghost use Rattle.rss_access.specs.Told.{AreValuesOf, reversed, values_after};
ghost use Rattle.rss_access.specs.Changes.{CanAlter, HasRoomFor};
ghost use Rattle.rss_access.specs.Changes.{both, Applies, Undoes, NoneApplies, NoneUndoes, Makes};
ghost use Rattle.rss_access.specs.Changes.{MayMoveAll, MovesAll, AllNodesStay, own_image_pages};
ghost use Rattle.rss_access.specs.Edits.{told_by};
ghost use Rattle.rss_access.specs.Alterations.{told_as, IsFront, IsFound, IsNotFound, with_front};
ghost use Rattle.rss_access.specs.Relisted.{KeepsSpelled, Rerooted};
ghost use Rattle.rss_access.specs.Tuples.{body_at, CanPut, IsShortBody, ChangesTuple};

use crate::chains::{put_in, take_out};
use crate::edit::{Alteration, Edit, TupleChange};
use crate::moving::move_images;
use crate::rooms::has_room;
use crate::tuples::{delete, put_at, update};
use rss_base::{Body, Change, Kind, PageFault, Pages, Place};
use rss_catalog::Catalog;
use rss_members::Front;
use rss_tuple::{Store, Tuples};

/// Applies a change. Of a tuple: what it tells as old becomes what it tells as new, and the count
/// of the relation goes with it; its entries in the images of its relation move along. Of a chain:
/// the tuple comes into it, or goes out of it.
///
/// The fault is `Damaged` at the tuple if it isn't as the change tells it, or can't become what it
/// tells, or if there is no room. It is at the count of the relation if that can't go with it, or
/// no such relation is defined. It is at the tuple or the link if the tuple can't come into the
/// chain, or doesn't stand in it where the change tells. It is at the link if there is no room for
/// a change of a chain. Nothing is changed then. It takes two pages at most, and what its images
/// need; a change of a chain takes none over a device that tells its contents.
pub fn apply<P: Pages>(
    tuples: &mut Store<P>,
    catalog: &mut Catalog,
    change: &Change,
) -> Result<(), PageFault>
    requires may { CanAlter (both (P.view tuples.old.pages) catalog.old) }
    ensures applies { OnOk result (Applies change.now
        (both (P.view tuples.old.pages) catalog.old) (both (P.view tuples.new.pages) catalog.new)) }
    ensures sound { (place : AnyPlace) → result ≡ Err (PageDamaged place)
        → IsTold (P.view tuples.old.pages).disk
        → HasRoomFor (both (P.view tuples.old.pages) catalog.old) change.now
        → NoneApplies change.now (both (P.view tuples.old.pages) catalog.old) }
    ensures makes { Makes change.now (both (P.view tuples.old.pages) catalog.old)
        (both (P.view tuples.new.pages) catalog.new) result }
{
    make(tuples, catalog, Alteration::of(change))
}

/// Undoes a change: what it tells as new becomes what it tells as old. It is the change turned round,
/// applied.
pub fn undo<P: Pages>(
    tuples: &mut Store<P>,
    catalog: &mut Catalog,
    change: &Change,
) -> Result<(), PageFault>
    requires may { CanAlter (both (P.view tuples.old.pages) catalog.old) }
    ensures undoes { OnOk result (Undoes change.now
        (both (P.view tuples.old.pages) catalog.old) (both (P.view tuples.new.pages) catalog.new)) }
    ensures sound { (place : AnyPlace) → result ≡ Err (PageDamaged place)
        → IsTold (P.view tuples.old.pages).disk
        → HasRoomFor (both (P.view tuples.old.pages) catalog.old) change.now
        → NoneUndoes change.now (both (P.view tuples.old.pages) catalog.old) }
    ensures makes { Makes (reversed change.now) (both (P.view tuples.old.pages) catalog.old)
        (both (P.view tuples.new.pages) catalog.new) result }
{
    make(tuples, catalog, Alteration::of(change).reversed())
}

/// Makes a change.
fn make<P: Pages>(
    tuples: &mut Store<P>,
    catalog: &mut Catalog,
    alteration: Alteration<'_>,
) -> Result<(), PageFault>
    requires { CanAlter (both (P.view tuples.old.pages) catalog.old) }
    ensures { Makes (told_as alteration.entry) (both (P.view tuples.old.pages) catalog.old)
        (both (P.view tuples.new.pages) catalog.new) result }
{
    match alteration {
        Alteration::Tuple(change) => alter(tuples, catalog, change),
        Alteration::Connect(membership) => put_in(tuples, catalog, membership),
        Alteration::Disconnect(membership) => take_out(tuples, catalog, membership),
    }
}

/// Makes a change of a tuple, once it is tested.
fn alter<P: Pages>(
    tuples: &mut Store<P>,
    catalog: &mut Catalog,
    change: TupleChange<'_>,
) -> Result<(), PageFault>
    requires { CanAlter (both (P.view tuples.old.pages) catalog.old) }
    ensures { Makes (told_by change.entry) (both (P.view tuples.old.pages) catalog.old)
        (both (P.view tuples.new.pages) catalog.new) result }
{
    let number = change.number;
    if !catalog.used(Kind::Relation, number) {
        return Err(PageFault::Damaged(Place::Count(number)));
    }
    let relation = catalog.relation(number);
    let segment = relation.segment;
    let live = relation.live;
    let damaged = PageFault::Damaged(Place::Tuple(segment, change.tid));
    if !change.may_become(tuples.pages.slots(), catalog, relation.fields.as_slice()) {
        return Err(damaged);
    }
    if !has_room(&tuples.pages, catalog, number) {
        return Err(damaged);
    }
    let Some(front) = front_of(tuples, catalog, segment, change)? else {
        return Err(damaged);
    };
    let Some(count) = change.count(live) else {
        return Err(PageFault::Damaged(Place::Count(number)));
    };
    put(tuples, segment, change, front)?;
    move_entries(&mut tuples.pages, catalog, change)?;
    recount(catalog, number, count);
    Ok(())
}

/// What stands before the values in the body of a segment's tuple. None if the tuple isn't as the
/// change finds it.
fn front_of<P: Pages>(
    tuples: &mut Store<P>,
    catalog: &Catalog,
    segment: u8,
    change: TupleChange<'_>,
) -> Result<Option<Front>, PageFault>
    requires heaps { IsTold (P.view tuples.old.pages).disk → AreHeaps (P.view tuples.old.pages) }
    requires short { 1 + prefix_size catalog.now.listing.links change.number ≤ front_most }
    ensures front { IfOk result
        (λ found. IfSome found (IsFront catalog.now.listing (told_by change.entry))) }
    ensures some { IfOk result (λ found. IfSome found (λ front. IsTold (P.view tuples.old.pages).disk
        → IsFound (told_by change.entry)
        (body_at (P.view tuples.old.pages) segment change.entry.tid) front)) }
    ensures none { IfOk result (λ found. found ≡ None → IsTold (P.view tuples.old.pages).disk
        → IsNotFound catalog.now.listing (told_by change.entry)
        (body_at (P.view tuples.old.pages) segment change.entry.tid)) }
    ensures heaps { OnOk result (IsTold (P.view tuples.old.pages).disk
        → AreHeaps (P.view tuples.new.pages)) }
    ensures did { PagesCall no_page 2 2 (P.view tuples.old.pages) (P.view tuples.new.pages) result }
{
    let Some(at) = tuples.locate(segment, change.tid)? else {
        return Ok(change.front_in(catalog, None));
    };
    Ok(change.front_in(catalog, Some(tuples.body(at))))
}

/// Puts the tuple of a segment as the change leaves it, with `front` before the values.
fn put<P: Pages>(
    tuples: &mut Store<P>,
    segment: u8,
    change: TupleChange<'_>,
    front: Front,
) -> Result<(), PageFault>
    requires may { CanPut (P.view tuples.old.pages) }
    requires segment { IsSegment segment }
    requires named { IsIdentifier (P.view tuples.old.pages).slots change.tid }
    requires begun { 1 ≤ length front }
    requires short { IsShortBody (with_front front (values_after (told_by change))) }
    requires found { IsTold (P.view tuples.old.pages).disk
        → IsFound (told_by change) (body_at (P.view tuples.old.pages) segment change.tid) front }
    ensures changes { OnOk result (ChangesTuple segment change.entry.tid
        (with_front front (values_after (told_by change.entry)))
        (P.view tuples.old.pages) (P.view tuples.new.pages)) }
    ensures did { PagesCall (pages_of segment) (3 * (P.view tuples.old.pages).slots + 7)
        (3 * (P.view tuples.old.pages).slots + 7)
        (P.view tuples.old.pages) (P.view tuples.new.pages) result }
{
    match change.edit {
        Edit::Insert(values) => {
            let body = with_values(front.as_slice(), values);
            put_at(tuples, segment, change.tid, body.as_slice())
        }
        Edit::Delete(_) => delete(tuples, segment, change.tid),
        Edit::Update { from: _, to } => {
            let body = with_values(front.as_slice(), to);
            update(tuples, segment, change.tid, body.as_slice())
        }
    }
}

/// A body with these bytes of values after what stands before them.
fn with_values(front: &[u8], values: &[u8]) -> Body
    requires { length (front.now ++ values.now) ≤ body_most }
    ensures { result ≡ front.now ++ values.now }
{
    let mut body = Body::new();
    body.extend_from_slice(front);
    body.extend_from_slice(values);
    body
}

/// Moves the entries of a tuple, if its relation has images.
fn move_entries<P: Pages>(
    pages: &mut P,
    catalog: &mut Catalog,
    change: TupleChange<'_>,
) -> Result<(), PageFault>
    requires slot { change.tid.slot < page_entries }
    requires values { (relation : Entry)
        → relation_at catalog.old.listing change.number ≡ Some relation
        → AreValuesOf relation.fields (told_by change) }
    requires may { IsTold (P.view pages.old).disk
        → ∥ MayMoveAll (both (P.view pages.old) catalog.old) (told_by change) ∥₁ }
    ensures moves { OnOk result (IsTold (P.view pages.old).disk
        → MovesAll (both (P.view pages.old) catalog.old) (both (P.view pages.new) catalog.new)
        (told_by change.entry)) }
    ensures nodes { OnOk result (IsTold (P.view pages.old).disk
        → AllNodesStay (both (P.view pages.old) catalog.old) (both (P.view pages.new) catalog.new)
        (told_by change.entry)) }
    ensures rerooted { Rerooted catalog.old catalog.new }
    ensures did { PagesCall (own_image_pages catalog.old.listing change.entry.number)
        images_cost images_cost (P.view pages.old) (P.view pages.new) result }
{
    if catalog.has_image_of(change.number) {
        move_images(pages, catalog, change)?;
    }
    Ok(())
}

/// Sets the count of a relation, if it has another one.
fn recount(catalog: &mut Catalog, number: u8, count: u32)
    requires { is_some (relation_at catalog.old.listing number) ≡ true }
    ensures lists { (relation : Entry) → relation_at catalog.old.listing number ≡ Some relation
        → catalog.new.listing
        ≡ with_relation catalog.old.listing number (Some (with_count count relation)) }
    ensures keeps { KeepsSpelled catalog.old catalog.new }
    ensures fits { ListingFits catalog.old.listing → ListingFits catalog.new.listing }
{
    if catalog.relation(number).live != count {
        catalog.set_count(number, count);
    }
}
