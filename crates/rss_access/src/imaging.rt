// Looks into images.
ghost use Rattle.std.specs.Prelude.{◌≡◌, ◌+◌, ◌*◌, ◌≤◌, true, Some, All, is_some, IfOk, IfSome, OnOk};
ghost use Rattle.rss_base.specs.DiskRule.{IsTold};
ghost use Rattle.rss_base.specs.Steps.{PagesCall, no_page};
ghost use Rattle.rss_base.specs.Listings.{image_at};
ghost use Rattle.rss_base.specs.TupleTypes.{kinds, SpellsSome};
ghost use Rattle.rss_base.specs.declared.image.ImageEntry.{ImageEntry as AnImage};
ghost use Rattle.rss_base.specs.declared.relation.RelationEntry.{RelationEntry as Entry};
ghost use Rattle.rss_value.specs.Numbers.{IsNumberOf};
ghost use Rattle.rss_tuple.specs.Heaps.{AreHeaps};
ghost use Rattle.rss_node.specs.Nodes.{AreNodes};
ghost use Rattle.rss_image.specs.Images.{nodes_of};
ghost use Rattle.rss_stored.specs.Store.{IsListedImage};
ghost use Rattle.rss_entries.specs.Images.{image_of, key_of};
ghost use Rattle.rss_entries.specs.Keyed.{kinds_of};
ghost use Rattle.rss_access.specs.Changes.{both, CanAlter};
ghost use Rattle.rss_access.specs.Imaging.{FindsOwner, FindsNextEntry, IsKeyLong, ListsImage};

use crate::rooms::image_width;
use rss_base::{Key, PageFault, Pages, Tid};
use rss_catalog::Catalog;
use rss_entries::{KeyFields, find_owner as owner_in, next_pair};
use rss_image::Image;
use rss_tuple::Store;

/// The image `number`, as the catalog lists it.
pub(crate) fn image_of(catalog: &Catalog, number: u8) -> Image
    requires { is_some (image_at catalog.now.listing number) ≡ true }
    ensures is { (image : AnImage) (relation : Entry)
        → IsListedImage catalog.now.listing number image relation
        → result ≡ image_of number image relation }
    ensures listed { ListsImage catalog.now.listing number }
    ensures of { AreNodes (nodes_of result) }
    ensures low { 1 ≤ result.levels }
{
    let entry = catalog.image(number);
    let relation = catalog.relation(entry.relation);
    Image {
        segment: relation.segment,
        number,
        width: image_width(relation, entry),
        root: entry.root,
        levels: entry.levels,
    }
}

/// The fields of the relation of an image, and the numbers of those that its keys have.
pub(crate) fn key_fields(catalog: &Catalog, number: u8) -> KeyFields<'_>
    requires { is_some (image_at catalog.now.listing number) ≡ true }
    ensures is { (image : AnImage) (relation : Entry)
        → IsListedImage catalog.now.listing number image relation
        → kinds_of result ≡ key_of image relation }
    ensures numbers { All (IsNumberOf result.fields.now) result.which.now }
{
    let entry = catalog.image(number);
    KeyFields {
        fields: catalog.relation(entry.relation).fields.as_slice(),
        which: &entry.fields[..usize::from(entry.count)],
    }
}

/// The tuple other than `own` that has, in the unique image `number`, the key of a tuple with the
/// values of these bytes, if there is one. `own` is the tuple that the key is for.
pub fn find_owner<P: Pages>(
    tuples: &mut Store<P>,
    catalog: &Catalog,
    number: u8,
    values: &[u8],
    own: Option<Tid>,
) -> Result<Option<Tid>, PageFault>
    requires may { CanAlter (both (P.view tuples.old.pages) catalog.now) }
    requires there { is_some (image_at catalog.now.listing number) ≡ true }
    requires spelled { (image : AnImage) (relation : Entry)
        → IsListedImage catalog.now.listing number image relation
        → SpellsSome (kinds relation.fields) values.now }
    ensures owner { IfOk result
        (FindsOwner (both (P.view tuples.old.pages) catalog.now) number values.now own) }
    ensures heaps { OnOk result (IsTold (P.view tuples.old.pages).disk
        → AreHeaps (P.view tuples.new.pages)) }
    ensures did { (image : AnImage) → image_at catalog.now.listing number ≡ Some image
        → PagesCall no_page (2 * (image.levels + 1)) (2 * (image.levels + 1))
        (P.view tuples.old.pages) (P.view tuples.new.pages) result }
{
    let image = image_of(catalog, number);
    let key = key_fields(catalog, number);
    owner_in(&mut tuples.pages, &image, key, values, own)
}

/// The pair of the image `number` after the one that was given last, if there is one; before the
/// first, the first pair whose key is at or above `start`.
pub fn next_entry<P: Pages>(
    tuples: &mut Store<P>,
    catalog: &Catalog,
    number: u8,
    start: &Key,
    last: &Option<(Key, Tid)>,
) -> Result<Option<(Key, Tid)>, PageFault>
    requires may { CanAlter (both (P.view tuples.old.pages) catalog.now) }
    requires there { is_some (image_at catalog.now.listing number) ≡ true }
    requires long { IsKeyLong catalog.now.listing number start.now }
    requires last_long { IfSome last.now (λ pair. IsKeyLong catalog.now.listing number pair.0) }
    ensures next { IfOk result (FindsNextEntry (both (P.view tuples.old.pages) catalog.now)
        number start.now last.now) }
    ensures wide { IfOk result (λ found. IfSome found (λ pair.
        IsKeyLong catalog.now.listing number pair.0)) }
    ensures heaps { OnOk result (IsTold (P.view tuples.old.pages).disk
        → AreHeaps (P.view tuples.new.pages)) }
    ensures did { (image : AnImage) → image_at catalog.now.listing number ≡ Some image
        → PagesCall no_page (image.levels + 1) (image.levels + 1)
        (P.view tuples.old.pages) (P.view tuples.new.pages) result }
{
    let image = image_of(catalog, number);
    next_pair(&mut tuples.pages, &image, start, last)
}
