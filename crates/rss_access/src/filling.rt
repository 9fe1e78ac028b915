// The entries of all tuples of a relation, for an image that is made over them.
ghost use Rattle.std.specs.Prelude.{◌≡◌, ◌<◌, ◌≤◌, ℕ, true, is_some, List, length, All, Err, Some, IfOk, IfErr, IfSome, OnOk, OnErr, IsErrOf};
ghost use Rattle.rss_base.specs.DiskRule.{IsTold};
ghost use Rattle.rss_base.specs.TupleTypes.{kinds, chosen, key_width, most_key_width};
ghost use Rattle.rss_base.specs.Listings.{relation_at};
ghost use Rattle.rss_base.specs.declared.fault.PageFault.TheVariants.{Damaged as PageDamaged, NoMemory as PageNoMemory};
ghost use Rattle.rss_base.specs.declared.place.Place.{Place as AnyPlace};
ghost use Rattle.rss_base.specs.declared.place.Place.TheVariants.{Tuple as TuplePlace};
ghost use Rattle.rss_base.specs.Sizes.{page_entries};
ghost use Rattle.rss_base.specs.declared.relation.RelationEntry.{RelationEntry as Entry};
ghost use Rattle.rss_value.specs.Numbers.{IsNumberOf};
ghost use Rattle.rss_image.specs.Images.{pairs_most};
ghost use Rattle.rss_tuple.specs.Heaps.{AreHeaps};
ghost use Rattle.rss_entries.specs.Building.{AreRising};
ghost use Rattle.rss_access.specs.Bodies.{IsKeyIn, IsSpelledIn};
ghost use Rattle.rss_access.specs.Changes.{both};
ghost use Rattle.rss_access.specs.Filling.{keys_by, IsEntryLong, AreEntries, HasNoTables, SearchesPages, FindsKey, IsMisspelled, entry_order, repeated_key};

use crate::bodies::key_in;
use crate::edit::TUPLES_MOST;
use crate::tuples::find;
use rss_base::{Key, PAGE_ENTRIES, PageFault, Pages, Place, RelationEntry, Tid};
use rss_catalog::Catalog;
use rss_entries::KeyFields;
use rss_tuple::{Store, Tuples};
use rss_value::compare_keys;
use std::alloc::Global;
use std::cmp::Ordering;

/// The entries of all tuples of the relation `number` in an image with these of its fields, in the
/// image's order. If a tuple's bytes aren't those of its fields, or there are more tuples than the
/// relation counts or may have, the fault is `Damaged`. Nothing is changed.
pub fn entries_of<P: Pages>(
    alloc: Global,
    tuples: &mut Store<P>,
    catalog: &Catalog,
    number: u8,
    which: &[u8],
) -> Result<Vec<(Key, Tid)>, PageFault>
    requires there { is_some (relation_at catalog.now.listing number) ≡ true }
    requires numbers { (relation : Entry) → relation_at catalog.now.listing number ≡ Some relation
        → All (IsNumberOf relation.fields) which.now }
    requires narrow { (relation : Entry) → relation_at catalog.now.listing number ≡ Some relation
        → key_width (chosen which.now (kinds relation.fields)) ≤ most_key_width }
    requires heaps { IsTold (P.view tuples.old.pages).disk → AreHeaps (P.view tuples.old.pages) }
    ensures long { (relation : Entry) → relation_at catalog.now.listing number ≡ Some relation
        → IfOk result (λ entries. All (IsEntryLong (keys_by relation which.now)) entries.items) }
    ensures few { (relation : Entry) → relation_at catalog.now.listing number ≡ Some relation
        → IfOk result (λ entries. (length entries.items ≤ relation.live)
        × (length entries.items ≤ pairs_most)) }
    ensures are { (relation : Entry) → IfOk result (λ entries.
        IsTold (P.view tuples.old.pages).disk
        → AreEntries (both (P.view tuples.old.pages) catalog.now)
        number relation which.now entries.items) }
    ensures rising { IfOk result (λ entries. AreRising entries.items) }
    ensures fault { (relation : Entry) (place : AnyPlace) → result ≡ Err (PageDamaged place)
        → IsTold (P.view tuples.old.pages).disk
        → HasNoTables (both (P.view tuples.old.pages) catalog.now) number relation }
    ensures heaps { OnOk result (IsTold (P.view tuples.old.pages).disk
        → AreHeaps (P.view tuples.new.pages)) }
    ensures did { SearchesPages (P.view tuples.old.pages) (P.view tuples.new.pages) result }
{
    let relation = catalog.relation(number);
    let damaged = PageFault::Damaged(Place::Count(number));
    if relation.live > TUPLES_MOST {
        return Err(damaged);
    }
    let most = relation.live as usize;
    let Ok(mut entries) = Vec::with_capacity(alloc, most) else {
        return Err(PageFault::NoMemory);
    };
    let mut last = None;
    while let Some(tid) = tuples.next_live(relation.segment, last)? {
        if let Some(key) = key_at(tuples, catalog, relation, number, which, tid)? {
            if entries.len() == most {
                return Err(damaged);
            }
            if entries.push((key, tid)).is_err() {
                return Err(PageFault::NoMemory);
            }
        }
        last = Some(tid);
    }
    entries.sort_unstable_by(|a, b| compare_entries(a, b));
    Ok(entries)
}

/// The key of the tuple with this identifier, if it is one of this relation, whose number is
/// `number`.
fn key_at<P: Pages>(
    tuples: &mut Store<P>,
    catalog: &Catalog,
    relation: &RelationEntry,
    number: u8,
    which: &[u8],
    tid: Tid,
) -> Result<Option<Key>, PageFault>
    requires numbers { All (IsNumberOf relation.now.fields) which.now }
    requires narrow { key_width (chosen which.now (kinds relation.now.fields)) ≤ most_key_width }
    requires heaps { IsTold (P.view tuples.old.pages).disk → AreHeaps (P.view tuples.old.pages) }
    ensures long { IfOk result (λ found. IfSome found
        (λ key. IsEntryLong (keys_by relation.now which.now) (key, tid))) }
    ensures finds { IfOk result (λ found. IsTold (P.view tuples.old.pages).disk
        → FindsKey (both (P.view tuples.old.pages) catalog.now)
        number relation.now which.now tid found) }
    ensures fault { (place : AnyPlace) → result ≡ Err (PageDamaged place)
        → IsTold (P.view tuples.old.pages).disk
        → IsMisspelled (both (P.view tuples.old.pages) catalog.now) number relation.now tid }
    ensures memory { IsErrOf result PageNoMemory → ⊥ }
    ensures did { SearchesPages (P.view tuples.old.pages) (P.view tuples.new.pages) result }
{
    let Some(at) = find(tuples, relation.segment, number, tid)? else {
        return Ok(None);
    };
    let key = key_of(catalog, relation, number, which, tid, tuples.body(at))?;
    Ok(Some(key))
}

/// The key of the tuple with this identifier, whose body this is. It takes no memory, and its one
/// error is damage at the tuple, if the body is that of no tuple of the relation, or no page has
/// such an entry.
fn key_of(
    catalog: &Catalog,
    relation: &RelationEntry,
    number: u8,
    which: &[u8],
    tid: Tid,
    body: &[u8],
) -> Result<Key, PageFault>
    requires numbers { All (IsNumberOf relation.now.fields) which.now }
    requires narrow { key_width (chosen which.now (kinds relation.now.fields)) ≤ most_key_width }
    ensures is { IfOk result
        (IsKeyIn catalog.now.listing number (keys_by relation.now which.now) body.now) }
    ensures slot { OnOk result (tid.slot < page_entries) }
    ensures damaged { IfErr result
        (λ fault. fault ≡ PageDamaged (TuplePlace relation.now.segment tid)) }
    ensures ill { OnErr result ((bytes : List ℕ)
        → IsSpelledIn catalog.now.listing number (kinds relation.now.fields) body.now bytes
        → tid.slot < page_entries → ⊥) }
{
    let damaged = PageFault::Damaged(Place::Tuple(relation.segment, tid));
    if usize::from(tid.slot) >= PAGE_ENTRIES {
        return Err(damaged);
    }
    let key = KeyFields {
        fields: relation.fields.as_slice(),
        which,
    };
    match key_in(catalog, number, key, body) {
        Some(made) => Ok(made),
        None => Err(damaged),
    }
}

/// The order of entries in an image.
fn compare_entries(a: &(Key, Tid), b: &(Key, Tid)) -> Ordering
    ensures { result ≡ entry_order a.now b.now }
{
    compare_keys(&a.0, &b.0).then(a.1.cmp(&b.1))
}

/// The identifier of the first entry that has the key of the one before it.
pub fn repeated(entries: &[(Key, Tid)]) -> Option<Tid>
    ensures { result ≡ repeated_key entries.now }
{
    let mut before: Option<&Key> = None;
    for (key, tid) in entries {
        if let Some(other) = before {
            if compare_keys(other, key).is_eq() {
                return Some(*tid);
            }
        }
        before = Some(key);
    }
    None
}
