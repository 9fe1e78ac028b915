// The entries of a tuple in the images of its relation.
ghost use Rattle.std.specs.Prelude.{◌≡◌, ◌↔◌, ◌<◌, ◌≤◌, true, is_some, Some, IsTrue, OnOk};
ghost use Rattle.rss_base.specs.DiskRule.{IsTold};
ghost use Rattle.rss_base.specs.Sizes.{images_most, page_entries};
ghost use Rattle.rss_base.specs.Steps.{PagesCall};
ghost use Rattle.rss_base.specs.Listings.{relation_at, image_at};
ghost use Rattle.rss_base.specs.declared.image.ImageEntry.{ImageEntry as AnImage};
ghost use Rattle.rss_base.specs.declared.relation.RelationEntry.{RelationEntry as Entry};
ghost use Rattle.rss_entries.specs.Rooms.{images_cost};
ghost use Rattle.rss_access.specs.Told.{AreValuesOf};
ghost use Rattle.rss_access.specs.Changes.{both, image_pages_of, MayMoveAll, MovesAll, AllNodesStay};
ghost use Rattle.rss_access.specs.Edits.{told_by};
ghost use Rattle.rss_access.specs.Moved.{image_cost, IsImageOf, KeepsKeys, MayMoveAt, MovesAt, NodesStayAt, Reroots, StaysAsItWas};
ghost use Rattle.rss_access.specs.Relisted.{Rerooted};

use crate::edit::TupleChange;
use crate::imaging::{image_of, key_fields};
use rss_base::{Kind, PageFault, Pages};
use rss_catalog::Catalog;
use rss_entries::move_entry;

/// Moves the entries of a tuple in the images of its relation: those of its old values go, and
/// those of its new values come. If a key stays, nothing is done.
pub(crate) fn move_images<P: Pages>(
    pages: &mut P,
    catalog: &mut Catalog,
    change: TupleChange<'_>,
) -> Result<(), PageFault>
    requires slot { change.tid.slot < page_entries }
    requires values { (relation : Entry)
        → relation_at catalog.old.listing change.number ≡ Some relation
        → AreValuesOf relation.fields (told_by change) }
    requires may { IsTold (P.view pages.old).disk
        → ∥ MayMoveAll (both (P.view pages.old) catalog.old) (told_by change) ∥₁ }
    ensures moves { OnOk result (IsTold (P.view pages.old).disk
        → MovesAll (both (P.view pages.old) catalog.old) (both (P.view pages.new) catalog.new)
        (told_by change.entry)) }
    ensures nodes { OnOk result (IsTold (P.view pages.old).disk
        → AllNodesStay (both (P.view pages.old) catalog.old) (both (P.view pages.new) catalog.new)
        (told_by change.entry)) }
    ensures stays { KeepsKeys catalog.old.listing (told_by change.entry)
        → StaysAsItWas (both (P.view pages.old) catalog.old) (both (P.view pages.new) catalog.new) }
    ensures rerooted { Rerooted catalog.old catalog.new }
    ensures did { PagesCall (image_pages_of (relation_at catalog.old.listing change.entry.number))
        images_cost images_cost (P.view pages.old) (P.view pages.new) result }
{
    for place in 0..catalog.last_image() {
        move_at(pages, catalog, place + 1, change)?;
    }
    Ok(())
}

/// Moves the entry of a tuple in the image `number`, if it is one of the tuple's relation.
fn move_at<P: Pages>(
    pages: &mut P,
    catalog: &mut Catalog,
    number: u8,
    change: TupleChange<'_>,
) -> Result<(), PageFault>
    requires few { number ≤ images_most }
    requires slot { change.tid.slot < page_entries }
    requires values { (relation : Entry)
        → relation_at catalog.old.listing change.number ≡ Some relation
        → AreValuesOf relation.fields (told_by change) }
    requires may { IsTold (P.view pages.old).disk
        → ∥ MayMoveAt number (both (P.view pages.old) catalog.old) (told_by change) ∥₁ }
    ensures moves { OnOk result (IsTold (P.view pages.old).disk
        → MovesAt number (both (P.view pages.old) catalog.old) (both (P.view pages.new) catalog.new)
        (told_by change.entry)) }
    ensures nodes { OnOk result (IsTold (P.view pages.old).disk
        → NodesStayAt number (both (P.view pages.old) catalog.old)
        (both (P.view pages.new) catalog.new) (told_by change.entry)) }
    ensures stays { KeepsKeys catalog.old.listing (told_by change.entry)
        → StaysAsItWas (both (P.view pages.old) catalog.old) (both (P.view pages.new) catalog.new) }
    ensures rerooted { Rerooted catalog.old catalog.new }
    ensures did { PagesCall (image_pages_of (relation_at catalog.old.listing change.entry.number))
        image_cost image_cost (P.view pages.old) (P.view pages.new) result }
{
    if is_image_of(catalog, number, change.number) {
        move_image(pages, catalog, number, change)
    } else {
        Ok(())
    }
}

/// Whether the image `number` is one of a relation.
fn is_image_of(catalog: &Catalog, number: u8, relation: u8) -> bool
    ensures { IsTrue result ↔ IsImageOf catalog.now.listing number relation }
{
    catalog.used(Kind::Image, number) && catalog.image(number).relation == relation
}

/// Moves the entry of a tuple in one image of its relation.
fn move_image<P: Pages>(
    pages: &mut P,
    catalog: &mut Catalog,
    number: u8,
    change: TupleChange<'_>,
) -> Result<(), PageFault>
    requires few { number ≤ images_most }
    requires of { IsImageOf catalog.old.listing number change.number }
    requires slot { change.tid.slot < page_entries }
    requires values { (relation : Entry)
        → relation_at catalog.old.listing change.number ≡ Some relation
        → AreValuesOf relation.fields (told_by change) }
    requires may { IsTold (P.view pages.old).disk
        → ∥ MayMoveAt number (both (P.view pages.old) catalog.old) (told_by change) ∥₁ }
    ensures moves { OnOk result (IsTold (P.view pages.old).disk
        → MovesAt number (both (P.view pages.old) catalog.old) (both (P.view pages.new) catalog.new)
        (told_by change.entry)) }
    ensures nodes { OnOk result (IsTold (P.view pages.old).disk
        → NodesStayAt number (both (P.view pages.old) catalog.old)
        (both (P.view pages.new) catalog.new) (told_by change.entry)) }
    ensures stays { KeepsKeys catalog.old.listing (told_by change.entry)
        → StaysAsItWas (both (P.view pages.old) catalog.old) (both (P.view pages.new) catalog.new) }
    ensures rerooted { Rerooted catalog.old catalog.new }
    ensures did { PagesCall (image_pages_of (relation_at catalog.old.listing change.entry.number))
        image_cost image_cost (P.view pages.old) (P.view pages.new) result }
{
    let mut image = image_of(catalog, number);
    let key = key_fields(catalog, number);
    move_entry(
        pages,
        &mut image,
        key,
        change.tid,
        change.was(),
        change.next(),
    )?;
    reroot(catalog, number, image.root, image.levels);
    Ok(())
}

/// Sets where the tree of an image begins, if that has changed.
fn reroot(catalog: &mut Catalog, number: u8, root: u32, levels: u8)
    requires few { number ≤ images_most }
    requires there { is_some (image_at catalog.old.listing number) ≡ true }
    requires low { 1 ≤ levels }
    ensures reroots { (image : AnImage) → image_at catalog.old.listing number ≡ Some image
        → Reroots number root levels image catalog.old catalog.new }
    ensures same { (image : AnImage) → image_at catalog.old.listing number ≡ Some image
        → image.root ≡ root → image.levels ≡ levels → catalog.new ≡ catalog.old }
{
    let image = catalog.image(number);
    if image.root != root || image.levels != levels {
        catalog.set_root(number, root, levels);
    }
}
