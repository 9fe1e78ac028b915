// Images that are checked against the tuples of their relations.
ghost use Rattle.std.specs.Prelude.{◌≡◌, ◌+◌, ◌≤◌, ℕ, true, false, is_some, Err, None, All, IfOk, IfSome, OnOk};
ghost use Rattle.rss_base.specs.DiskRule.{IsTold};
ghost use Rattle.rss_base.specs.Steps.{PagesCall, no_page};
ghost use Rattle.rss_base.specs.TupleTypes.{kinds, chosen, key_width};
ghost use Rattle.rss_base.specs.Listings.{image_at};
ghost use Rattle.rss_base.specs.declared.fault.PageFault.TheVariants.{Damaged as PageDamaged};
ghost use Rattle.rss_base.specs.declared.place.Place.{Place as AnyPlace};
ghost use Rattle.rss_base.specs.declared.place.Place.TheVariants.{Image as ImagePlace};
ghost use Rattle.rss_value.specs.Numbers.{IsNumberOf};
ghost use Rattle.rss_node.specs.Nodes.{AreNodes};
ghost use Rattle.rss_image.specs.Images.{nodes_of, HasImage};
ghost use Rattle.rss_tuple.specs.Calls.{IsSegment};
ghost use Rattle.rss_tuple.specs.Heaps.{AreHeaps};
ghost use Rattle.rss_entries.specs.Keyed.{kinds_of};
ghost use Rattle.rss_access.specs.Changes.{both};
ghost use Rattle.rss_access.specs.Checking.{ShowsThem, ShowsNone, LooksAt};
ghost use Rattle.rss_access.specs.Rows.{ShowsRows, ShowsNoRows, MarksReached, CountsRow, CountsRows, LacksRow};

use crate::bodies::key_in;
use crate::rooms::image_width;
use crate::tuples::find;
use rss_base::{PageFault, Pages, Place, Tid};
use rss_catalog::Catalog;
use rss_entries::KeyFields;
use rss_image::Image;
use rss_tuple::{Store, Tuples};

/// Checks an image: its pages are a tree, which has the entry of each tuple of its relation and no
/// other; and if it is unique, no key twice. Answers how many pages it has; if it isn't so, the
/// fault is `Damaged` at the image. Nothing is changed.
pub fn check_image<P: Pages>(
    tuples: &mut Store<P>,
    catalog: &Catalog,
    number: u8,
) -> Result<u32, PageFault>
    requires there { is_some (image_at catalog.now.listing number) ≡ true }
    requires heaps { IsTold (P.view tuples.old.pages).disk → AreHeaps (P.view tuples.old.pages) }
    ensures shows { IfOk result (λ count. IsTold (P.view tuples.old.pages).disk
        → ShowsThem (both (P.view tuples.old.pages) catalog.now) number count) }
    ensures place { (place : AnyPlace) → result ≡ Err (PageDamaged place)
        → IsTold (P.view tuples.old.pages).disk → place ≡ ImagePlace number }
    ensures none { (place : AnyPlace) → result ≡ Err (PageDamaged place)
        → IsTold (P.view tuples.old.pages).disk
        → ShowsNone (both (P.view tuples.old.pages) catalog.now) number }
    ensures heaps { OnOk result (IsTold (P.view tuples.old.pages).disk
        → AreHeaps (P.view tuples.new.pages)) }
    ensures did { LooksAt (P.view tuples.old.pages) (P.view tuples.new.pages) result }
{
    check_rows(tuples, catalog, number, &mut [])
}

/// Checks the same of an image over the bodies of tuples, whatever else these hold: a tuple whose bytes
/// spell no values has no pair. The pages of the tree are marked, each by its number, if there is a
/// bit for it.
pub fn check_rows<P: Pages>(
    tuples: &mut Store<P>,
    catalog: &Catalog,
    number: u8,
    marks: &mut [u64],
) -> Result<u32, PageFault>
    requires there { is_some (image_at catalog.now.listing number) ≡ true }
    requires heaps { IsTold (P.view tuples.old.pages).disk → AreHeaps (P.view tuples.old.pages) }
    ensures rows { IfOk result (λ count. IsTold (P.view tuples.old.pages).disk → ShowsRows
        (both (P.view tuples.old.pages) catalog.now) number count marks.old marks.new) }
    ensures place { (place : AnyPlace) → result ≡ Err (PageDamaged place)
        → IsTold (P.view tuples.old.pages).disk → place ≡ ImagePlace number }
    ensures none { (place : AnyPlace) → result ≡ Err (PageDamaged place)
        → IsTold (P.view tuples.old.pages).disk
        → ShowsNoRows (both (P.view tuples.old.pages) catalog.now) number }
    ensures reached { MarksReached (both (P.view tuples.old.pages) catalog.now) number
        marks.old marks.new }
    ensures heaps { OnOk result (IsTold (P.view tuples.old.pages).disk
        → AreHeaps (P.view tuples.new.pages)) }
    ensures did { LooksAt (P.view tuples.old.pages) (P.view tuples.new.pages) result }
{
    let damaged = PageFault::Damaged(Place::Image(number));
    let entry = *catalog.image(number);
    let relation = catalog.relation(entry.relation);
    let key = KeyFields {
        fields: relation.fields.as_slice(),
        which: &entry.fields[..usize::from(entry.count)],
    };
    let image = Image {
        segment: relation.segment,
        number,
        width: image_width(relation, &entry),
        root: entry.root,
        levels: entry.levels,
    };
    let Some(census) = image.check_marking(&mut tuples.pages, marks)? else {
        return Err(damaged);
    };
    if is_doubled(entry.is_unique, census.repeats) {
        return Err(damaged);
    }
    let Some(rows) = count_rows(tuples, catalog, &image, key, entry.relation)? else {
        return Err(damaged);
    };
    if rows != census.pairs {
        return Err(damaged);
    }
    Ok(census.pages)
}

/// Whether an image is unique and has a key twice.
fn is_doubled(is_unique: bool, repeats: Option<Tid>) -> bool
    ensures yes { result ≡ true → (is_unique ≡ true) × (repeats ≡ None → ⊥) }
    ensures no { result ≡ false → is_unique ≡ true → repeats ≡ None }
{
    is_unique && repeats.is_some()
}

/// How many tuples of the relation `number` have values. `None` if an image lacks the pair of one of
/// them.
fn count_rows<P: Pages>(
    tuples: &mut Store<P>,
    catalog: &Catalog,
    image: &Image,
    key: KeyFields<'_>,
    number: u8,
) -> Result<Option<u64>, PageFault>
    requires of { AreNodes (nodes_of image.now) }
    requires low { 1 ≤ image.now.levels }
    requires segment { IsSegment image.now.segment }
    requires numbers { All (IsNumberOf key.fields.now) key.which.now }
    requires width { image.now.width ≡ key_width (chosen key.which.now (kinds key.fields.now)) }
    requires heaps { IsTold (P.view tuples.old.pages).disk → AreHeaps (P.view tuples.old.pages) }
    requires there { IsTold (P.view tuples.old.pages).disk
        → ∥ HasImage image.now (P.view tuples.old.pages).held ∥₁ }
    ensures all { IfOk result (λ found. IfSome found (λ count.
        IsTold (P.view tuples.old.pages).disk → CountsRows catalog.now.listing number
        (kinds_of key.entry) image.now (P.view tuples.old.pages).held count)) }
    ensures none { IfOk result (λ found. found ≡ None → IsTold (P.view tuples.old.pages).disk
        → LacksRow catalog.now.listing number (kinds_of key.entry) image.now
        (P.view tuples.old.pages).held) }
    ensures did { (most : ℕ) × PagesCall no_page most most
        (P.view tuples.old.pages) (P.view tuples.new.pages) result }
{
    let mut count = 0;
    let mut last = None;
    while let Some(tid) = tuples.next_live(image.segment, last)? {
        let Some(rows) = count_row(tuples, catalog, image, key, number, tid)? else {
            return Ok(None);
        };
        count += rows;
        last = Some(tid);
    }
    Ok(Some(count))
}

/// How many tuples of the relation `number` with values have this identifier: one or none. `None` if
/// an image lacks its pair.
fn count_row<P: Pages>(
    tuples: &mut Store<P>,
    catalog: &Catalog,
    image: &Image,
    key: KeyFields<'_>,
    number: u8,
    tid: Tid,
) -> Result<Option<u64>, PageFault>
    requires of { AreNodes (nodes_of image.now) }
    requires low { 1 ≤ image.now.levels }
    requires numbers { All (IsNumberOf key.fields.now) key.which.now }
    requires width { image.now.width ≡ key_width (chosen key.which.now (kinds key.fields.now)) }
    requires heaps { IsTold (P.view tuples.old.pages).disk → AreHeaps (P.view tuples.old.pages) }
    requires there { IsTold (P.view tuples.old.pages).disk
        → ∥ HasImage image.now (P.view tuples.old.pages).held ∥₁ }
    ensures few { IfOk result (λ found. IfSome found (λ count. count ≤ 1)) }
    ensures counts { IfOk result (λ found. IfSome found (λ count.
        IsTold (P.view tuples.old.pages).disk → CountsRow catalog.now.listing number
        (kinds_of key.entry) image.now (P.view tuples.old.pages).held tid count)) }
    ensures lacks { IfOk result (λ found. found ≡ None → IsTold (P.view tuples.old.pages).disk
        → LacksRow catalog.now.listing number (kinds_of key.entry) image.now
        (P.view tuples.old.pages).held) }
    ensures did { (most : ℕ) × PagesCall no_page most most
        (P.view tuples.old.pages) (P.view tuples.new.pages) result }
{
    let Some(at) = find(tuples, image.segment, number, tid)? else {
        return Ok(Some(0));
    };
    let Some(made) = key_in(catalog, number, key, tuples.body(at)) else {
        return Ok(Some(0));
    };
    if !image.has(&mut tuples.pages, &made, tid)? {
        return Ok(None);
    }
    Ok(Some(1))
}
