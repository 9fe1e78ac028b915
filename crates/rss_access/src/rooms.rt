// Room for a change.
ghost use Rattle.std.specs.Prelude.{◌≡◌, ◌+◌, ◌*◌, ◌^◌, ◌<◌, ◌≤◌, true, false, length, Some, All};
ghost use Rattle.rss_base.specs.DiskRule.{IsTold};
ghost use Rattle.rss_base.specs.Listings.{field_numbers};
ghost use Rattle.rss_base.specs.Sizes.{images_most};
ghost use Rattle.rss_base.specs.TupleTypes.{most_fields, most_key_width};
ghost use Rattle.rss_image.specs.Images.{page_bound};
ghost use Rattle.rss_value.specs.Numbers.{IsNumberOf};
ghost use Rattle.rss_entries.specs.Rooms.{width_of, room_of, images_room};
ghost use Rattle.rss_access.specs.Changes.{both, HasTables, HasRoom};

use rss_base::{ImageEntry, Kind, Pages, RelationEntry, node_most};
use rss_catalog::Catalog;
use rss_value::key_width;

/// How many home and overflow pages a change may take.
pub(crate) const PAGES_TAKEN: u32 = 2;

/// Whether there is room for two pages more, and for a pair more in each image of the relation
/// `number`.
pub(crate) fn has_room<P: Pages>(pages: &P, catalog: &Catalog, number: u8) -> bool
    ensures spare { result ≡ true → 2 ≤ (P.view pages.now).spare }
    ensures room { result ≡ true → HasRoom (both (P.view pages.now) catalog.now) number }
    ensures none { result ≡ false → IsTold (P.view pages.now).disk
        → HasTables (both (P.view pages.now) catalog.now)
        → HasRoom (both (P.view pages.now) catalog.now) number → ⊥ }
{
    let spare = pages.spare();
    let places = u64::from(spare) + u64::from(pages.image_pages());
    spare >= PAGES_TAKEN && u64::from(PAGES_TAKEN) + images_room(catalog, number) <= places
}

/// How many pages all images may have, with a pair more in those of the relation `number`.
fn images_room(catalog: &Catalog, number: u8) -> u64
    ensures is { result ≡ images_room catalog.now.listing number }
    ensures small { result ≤ images_most * (2 ^ 32 + 2) }
{
    let mut room = 0;
    for place in 0..catalog.last_image() {
        if catalog.used(Kind::Image, place + 1) {
            let image = catalog.image(place + 1);
            room += image_room(catalog.relation(image.relation), image, number);
        }
    }
    room
}

/// How many pages an image of a relation may have.
fn image_room(relation: &RelationEntry, image: &ImageEntry, number: u8) -> u64
    requires few { image.now.count ≤ most_fields }
    requires within { All (IsNumberOf relation.now.fields) (field_numbers image.now) }
    requires narrow { width_of image.now relation.now ≤ most_key_width }
    ensures is { result ≡ room_of number image.now (Some relation.now) }
    ensures small { result ≤ 2 ^ 32 + 2 }
{
    let pairs = u64::from(relation.live) + u64::from(image.relation == number);
    image_bound(relation, image, pairs)
}

/// How many pages an image of a relation may have that has so many pairs.
pub fn image_bound(relation: &RelationEntry, image: &ImageEntry, pairs: u64) -> u64
    requires few { image.now.count ≤ most_fields }
    requires within { All (IsNumberOf relation.now.fields) (field_numbers image.now) }
    requires narrow { width_of image.now relation.now ≤ most_key_width }
    requires pairs { pairs < 2 ^ 63 }
    ensures is { result ≡ page_bound (width_of image.now relation.now) pairs }
    ensures small { result ≤ pairs + 2 }
{
    let least = (node_most(image_width(relation, image)) / 2) as u64;
    pairs / (least - 1) + 2
}

/// How many bytes the keys of an image have.
pub(crate) fn image_width(relation: &RelationEntry, image: &ImageEntry) -> u8
    requires few { image.now.count ≤ most_fields }
    requires within { All (IsNumberOf relation.now.fields) (field_numbers image.now) }
    requires narrow { width_of image.now relation.now ≤ most_key_width }
    ensures is { result ≡ width_of image.now relation.now }
    ensures places { length image.now.fields ≡ most_fields }
{
    let which = &image.fields[..usize::from(image.count)];
    key_width(relation.fields.as_slice(), which) as u8
}
