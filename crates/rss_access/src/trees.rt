// The trees of images that are listed, built and taken away.
ghost use Rattle.std.specs.Prelude.{◌≡◌, ◌+◌, ◌-◌, ◌*◌, ◌<◌, ◌≤◌, true, is_some, All, length, OnOk, OnErr};
ghost use Rattle.rss_base.specs.Sizes.{page_entries};
ghost use Rattle.rss_base.specs.Steps.{PagesCall, pages_in};
ghost use Rattle.rss_base.specs.Listings.{image_at};
ghost use Rattle.rss_base.specs.declared.key.Space.TheVariants.{Image as ImageSpace};
ghost use Rattle.rss_base.specs.declared.image.ImageEntry.{ImageEntry as AnImage};
ghost use Rattle.rss_base.specs.declared.relation.RelationEntry.{RelationEntry as Entry};
ghost use Rattle.rss_image.specs.Emptied.{inner_most};
ghost use Rattle.rss_image.specs.Images.{page_bound, pairs_most};
ghost use Rattle.rss_stored.specs.Store.{IsListedImage};
ghost use Rattle.rss_entries.specs.Building.{pair_list, AreRising};
ghost use Rattle.rss_entries.specs.Rooms.{width_of};
ghost use Rattle.rss_access.specs.Changes.{both, CanAlter};
ghost use Rattle.rss_access.specs.Imaging.{IsKeyLong};
ghost use Rattle.rss_access.specs.Trees.{FillsImage, TakesImage};

use crate::imaging::image_of;
use rss_base::{Key, Kind, PageFault, Pages, Tid};
use rss_catalog::Catalog;
use rss_entries::build;

/// Builds the tree of an image that was just listed, of these entries, which rise, and lists where
/// it begins. If this fails, some of its pages may still be mapped.
pub fn fill_image<P: Pages>(
    pages: &mut P,
    catalog: &mut Catalog,
    number: u8,
    entries: &[(Key, Tid)],
) -> Result<(), PageFault>
    requires there { is_some (image_at catalog.old.listing number) ≡ true }
    requires long { All (λ entry. IsKeyLong catalog.old.listing number entry.0) entries.now }
    requires slots { All (λ entry. entry.1.slot < page_entries) entries.now }
    requires rising { AreRising entries.now }
    requires few { length entries.now ≤ pairs_most }
    requires room { (image : AnImage) (relation : Entry)
        → IsListedImage catalog.old.listing number image relation
        → page_bound (width_of image relation) (length entries.now) ≤ (P.view pages.old).spare }
    ensures fills { OnOk result (FillsImage number (pair_list entries.now)
        (both (P.view pages.old) catalog.old) (both (P.view pages.new) catalog.new)) }
    ensures kept { OnErr result (catalog.new ≡ catalog.old) }
    ensures did { (image : AnImage) (relation : Entry)
        → IsListedImage catalog.old.listing number image relation
        → PagesCall (pages_in relation.segment ImageSpace) (255 * length entries.now)
        (1022 * length entries.now + 2) (P.view pages.old) (P.view pages.new) result }
{
    let listed = image_of(catalog, number);
    let image = build(pages, listed.segment, number, listed.width, entries)?;
    catalog.set_root(number, image.root, image.levels);
    Ok(())
}

/// Gives all pages of an image back, and takes its definition away. If this fails, some of the
/// pages may still be mapped.
pub fn take_image<P: Pages>(
    pages: &mut P,
    catalog: &mut Catalog,
    number: u8,
) -> Result<(), PageFault>
    requires may { CanAlter (both (P.view pages.old) catalog.old) }
    requires there { is_some (image_at catalog.old.listing number) ≡ true }
    ensures takes { OnOk result (TakesImage number
        (both (P.view pages.old) catalog.old) (both (P.view pages.new) catalog.new)) }
    ensures kept { OnErr result (catalog.new ≡ catalog.old) }
    ensures did { (image : AnImage) (relation : Entry)
        → IsListedImage catalog.old.listing number image relation
        → PagesCall (pages_in relation.segment ImageSpace)
        (inner_most (width_of image relation) (image.levels - 1))
        (inner_most (width_of image relation) (image.levels - 1))
        (P.view pages.old) (P.view pages.new) result }
{
    let image = image_of(catalog, number);
    image.destroy(pages)?;
    catalog.remove(Kind::Image, number);
    Ok(())
}
