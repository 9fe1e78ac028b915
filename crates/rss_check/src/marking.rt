// The images of a store, whose pages are marked as they are looked at.
ghost use Rattle.std.specs.Prelude.{◌≡◌, ◌*◌, ◌≤◌, ℕ, length, true, false, Some, is_some, IfSome, IfNone, IfOk, OnOk, Err};
ghost use Rattle.rss_base.specs.DiskRule.{IsTold};
ghost use Rattle.rss_base.specs.Looking.{ChecksPages};
ghost use Rattle.rss_base.specs.Paged.{IsFirstFrom, NoneFrom};
ghost use Rattle.rss_base.specs.Sizes.{segments as segments_most};
ghost use Rattle.rss_base.specs.Steps.{no_page};
ghost use Rattle.rss_base.specs.Listings.{ListingFits, image_at};
ghost use Rattle.rss_base.specs.declared.fault.PageFault.TheVariants.{Damaged as PageDamaged};
ghost use Rattle.rss_base.specs.declared.image.ImageEntry.{ImageEntry as AnImage};
ghost use Rattle.rss_base.specs.declared.relation.RelationEntry.{RelationEntry as ARelation};
ghost use Rattle.rss_base.specs.declared.key.PageKey.{PageKey as Key};
ghost use Rattle.rss_base.specs.declared.key.Space.TheVariants.{Image as ImageSpace};
ghost use Rattle.rss_base.specs.declared.place.Place.{Place as AnyPlace};
ghost use Rattle.rss_base.specs.declared.place.Place.TheVariants.{Image as ImagePlace};
ghost use Rattle.rss_image.specs.Marks.{IsMarked};
ghost use Rattle.rss_tuple.specs.Heaps.{AreHeaps};
ghost use Rattle.rss_stored.specs.Store.{IsListedImage};
ghost use Rattle.rss_access.specs.Changes.{both};
ghost use Rattle.rss_access.specs.Checking.{LooksAt};
ghost use Rattle.rss_access.specs.Rows.{ShowsRows, ShowsNoRows};
ghost use Rattle.rss_check.specs.Checks.{AreListed};
ghost use Rattle.rss_check.specs.Lines.{IsFirst};
ghost use Rattle.rss_check.specs.Marks.{AreZeros, AreRows, AreBlank, KeepsRows, MarksRows};
ghost use Rattle.rss_check.specs.Marks.{AreMarked, AreOwnMarks};
ghost use Rattle.rss_check.specs.Marks.{IsUnmarkedIn, IsUnmarked, IsFirstUnmarked};
ghost use Rattle.rss_check.specs.Passed.{OfWrongImage};
ghost use Rattle.rss_check.specs.Rows.{HasImages};
ghost use Rattle.rss_check.specs.Tuples.{PathsOf};

use rss_access::check_rows;
use rss_base::{Kind, PageFault, PageKey, Pages, Place, SEGMENTS, Space};
use rss_catalog::Catalog;
use rss_image::is_marked;
use rss_tuple::Store;
use std::alloc::{AllocError, Global};

/// How many rows of marks there are: one for each segment.
const ROWS: usize = SEGMENTS as usize;

/// How many marks a word has.
const WORD_MARKS: usize = 64;

/// Looks at each image that is listed. `Damaged` names the first one that hasn't the rows of its
/// relation, or is `wrong` by itself. If there is none, it names the first page of the space of images
/// that is none of theirs.
pub(crate) fn look_at_images<P: Pages>(
    alloc: Global,
    tuples: &mut Store<P>,
    catalog: &Catalog,
    wrong: Option<u8>,
) -> Result<(), PageFault>
    requires fits { ListingFits catalog.now.listing }
    requires heaps { IsTold (P.view tuples.old.pages).disk → AreHeaps (P.view tuples.old.pages) }
    ensures has { OnOk result (IsTold (P.view tuples.old.pages).disk → HasImages
        (P.view tuples.old.pages).held (P.view tuples.old.pages).slots catalog.now.listing) }
    ensures right { OnOk result ((number : ℕ)
        → is_some (image_at catalog.now.listing number) ≡ true → wrong ≡ Some number → ⊥) }
    ensures listed { OnOk result (AreListed (λ key. key.space ≡ ImageSpace)
        catalog.now.listing (P.view tuples.old.pages).mapped) }
    ensures first { (place : AnyPlace) → result ≡ Err (PageDamaged place)
        → IsTold (P.view tuples.old.pages).disk → OfWrongImage catalog.now wrong
        (λ listing. IsFirst (PathsOf (P.view tuples.old.pages) listing) place) }
    ensures did { (most : ℕ) × ChecksPages no_page most
        (P.view tuples.old.pages) (P.view tuples.new.pages) result }
{
    let Ok(mut rows) = no_marks(alloc, words_for(tuples.pages.slots())) else {
        return Err(PageFault::NoMemory);
    };
    mark_images(tuples, catalog, wrong, &mut rows)?;
    match first_unmarked(&tuples.pages, rows.as_slice()) {
        Some(key) => Err(PageFault::Damaged(Place::Page(key))),
        None => Ok(()),
    }
}

/// How many words have a bit for each slot.
fn words_for(slots: u32) -> usize
    ensures { slots ≤ 64 * result }
{
    (slots as usize + WORD_MARKS - 1) / WORD_MARKS
}

/// Rows of so many words, one for each segment. No page is marked.
fn no_marks(alloc: Global, words: usize) -> Result<Vec<Vec<u64>>, AllocError>
    ensures { IfOk result (λ rows. AreZeros segments_most words rows.items) }
{
    let mut rows = Vec::with_capacity(alloc, ROWS)?;
    for _ in 0..ROWS {
        rows.push_reserved(vec![in alloc; 0u64; words]?);
    }
    Ok(rows)
}

/// Looks at each image up to the first that isn't right, and marks their pages.
fn mark_images<P: Pages>(
    tuples: &mut Store<P>,
    catalog: &Catalog,
    wrong: Option<u8>,
    rows: &mut Vec<Vec<u64>>,
) -> Result<(), PageFault>
    requires fits { ListingFits catalog.now.listing }
    requires heaps { IsTold (P.view tuples.old.pages).disk → AreHeaps (P.view tuples.old.pages) }
    requires rows { AreRows (P.view tuples.old.pages).slots rows.old.items }
    requires blank { AreBlank rows.old.items }
    ensures marked { OnOk result (IsTold (P.view tuples.old.pages).disk → (most : ℕ)
        → AreMarked most (P.view tuples.old.pages).held (P.view tuples.old.pages).slots
        catalog.now.listing rows.new.items) }
    ensures own { OnOk result (AreOwnMarks catalog.now.listing rows.new.items) }
    ensures eight { OnOk result (length rows.new.items ≡ segments_most) }
    ensures right { OnOk result ((number : ℕ)
        → is_some (image_at catalog.now.listing number) ≡ true → wrong ≡ Some number → ⊥) }
    ensures first { (place : AnyPlace) → result ≡ Err (PageDamaged place)
        → IsTold (P.view tuples.old.pages).disk → OfWrongImage catalog.now wrong
        (λ listing. IsFirst (PathsOf (P.view tuples.old.pages) listing) place) }
    ensures did { (most : ℕ) × ChecksPages no_page most
        (P.view tuples.old.pages) (P.view tuples.new.pages) result }
{
    let last = catalog.last_image();
    for place in 0..last {
        if is_named(wrong, place + 1) {
            return Err(PageFault::Damaged(Place::Image(place + 1)));
        }
        if catalog.used(Kind::Image, place + 1) {
            check_marked(tuples, catalog, place + 1, rows)?;
        }
    }
    Ok(())
}

/// Whether this is the number that is named, if one is.
pub(crate) fn is_named(named: Option<u8>, number: u8) -> bool
    ensures yes { result ≡ true → named ≡ Some number }
    ensures no { result ≡ false → named ≡ Some number → ⊥ }
{
    match named {
        Some(other) => other == number,
        None => false,
    }
}

/// Checks the rows of an image, and marks its pages in the row of its segment.
fn check_marked<P: Pages>(
    tuples: &mut Store<P>,
    catalog: &Catalog,
    number: u8,
    rows: &mut Vec<Vec<u64>>,
) -> Result<u32, PageFault>
    requires there { is_some (image_at catalog.now.listing number) ≡ true }
    requires heaps { IsTold (P.view tuples.old.pages).disk → AreHeaps (P.view tuples.old.pages) }
    requires eight { length rows.old.items ≡ segments_most }
    ensures rows { IfOk result (λ count. IsTold (P.view tuples.old.pages).disk → MarksRows
        (both (P.view tuples.old.pages) catalog.now) number count rows.old.items rows.new.items) }
    ensures kept { (image : AnImage) (relation : ARelation)
        → IsListedImage catalog.now.listing number image relation
        → KeepsRows relation.segment rows.old.items rows.new.items }
    ensures place { (place : AnyPlace) → result ≡ Err (PageDamaged place)
        → IsTold (P.view tuples.old.pages).disk → place ≡ ImagePlace number }
    ensures none { (place : AnyPlace) → result ≡ Err (PageDamaged place)
        → IsTold (P.view tuples.old.pages).disk
        → ShowsNoRows (both (P.view tuples.old.pages) catalog.now) number }
    ensures heaps { OnOk result (IsTold (P.view tuples.old.pages).disk
        → AreHeaps (P.view tuples.new.pages)) }
    ensures did { LooksAt (P.view tuples.old.pages) (P.view tuples.new.pages) result }
{
    let relation = catalog.relation(catalog.image(number).relation);
    let row = &mut rows[usize::from(relation.segment) - 1];
    check_in(tuples, catalog, number, row)
}

/// Checks the rows of an image, and marks its pages in this row.
fn check_in<P: Pages>(
    tuples: &mut Store<P>,
    catalog: &Catalog,
    number: u8,
    row: &mut Vec<u64>,
) -> Result<u32, PageFault>
    requires there { is_some (image_at catalog.now.listing number) ≡ true }
    requires heaps { IsTold (P.view tuples.old.pages).disk → AreHeaps (P.view tuples.old.pages) }
    ensures rows { IfOk result (λ count. IsTold (P.view tuples.old.pages).disk → ShowsRows
        (both (P.view tuples.old.pages) catalog.now) number count row.old.items row.new.items) }
    ensures size { length row.new.items ≡ length row.old.items }
    ensures place { (place : AnyPlace) → result ≡ Err (PageDamaged place)
        → IsTold (P.view tuples.old.pages).disk → place ≡ ImagePlace number }
    ensures none { (place : AnyPlace) → result ≡ Err (PageDamaged place)
        → IsTold (P.view tuples.old.pages).disk
        → ShowsNoRows (both (P.view tuples.old.pages) catalog.now) number }
    ensures heaps { OnOk result (IsTold (P.view tuples.old.pages).disk
        → AreHeaps (P.view tuples.new.pages)) }
    ensures did { LooksAt (P.view tuples.old.pages) (P.view tuples.new.pages) result }
{
    check_rows(tuples, catalog, number, row.as_mut_slice())
}

/// The first page of the space of images that is mapped and isn't marked.
fn first_unmarked<P: Pages>(pages: &P, rows: &[Vec<u64>]) -> Option<PageKey>
    requires { length rows.now ≡ segments_most }
    ensures some { IfSome result (IsFirstUnmarked (P.view pages.now).mapped rows.now) }
    ensures none { IfNone result
        ((key : Key) → IsUnmarked (P.view pages.now).mapped rows.now key → ⊥) }
{
    for segment in 1..=SEGMENTS {
        let row = rows[usize::from(segment) - 1].as_slice();
        if let Some(number) = unmarked_in(pages, segment, row) {
            return Some(PageKey {
                segment,
                space: Space::Image,
                number,
            });
        }
    }
    None
}

/// The number of the first such page of a segment, whose marks these are.
fn unmarked_in<P: Pages>(pages: &P, segment: u8, row: &[u64]) -> Option<u32>
    requires low { 1 ≤ segment }
    requires high { segment ≤ segments_most }
    ensures some { IfSome result
        (IsFirstFrom (IsUnmarkedIn (P.view pages.now).mapped segment row.now) 0) }
    ensures none { IfNone result
        (NoneFrom (IsUnmarkedIn (P.view pages.now).mapped segment row.now) 0) }
{
    let mut from = 0;
    while let Some(number) = pages.first_mapped(segment, Space::Image, from) {
        if is_unused(row, number) {
            return Some(number);
        }
        from = number + 1;
    }
    None
}

/// Whether the marks of the pages that images have leave out this page.
fn is_unused(row: &[u64], number: u32) -> bool
    ensures yes { result ≡ true → IsMarked row.now number → ⊥ }
    ensures no { result ≡ false → IsMarked row.now number }
{
    !is_marked(row, number)
}
