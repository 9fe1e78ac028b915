// Whether keys are free now.
ghost use Rattle.std.specs.Prelude.{◌≡◌, ◌↔◌, true, Some, is_some, IsTrue, IfOk};
ghost use Rattle.rss_base.specs.Listings.{relation_at};
ghost use Rattle.rss_base.specs.TupleTypes.{kinds, SpellsSome};
ghost use Rattle.rss_base.specs.declared.relation.RelationEntry.{RelationEntry as Entry};
ghost use Rattle.rss_access.specs.Changes.{both, CanAlter};
ghost use Rattle.rss_draft.specs.Views.{said};
ghost use Rattle.rss_draft.specs.Looks.{Searches, SoLookedUp};
ghost use Rattle.rss_draft.specs.FitLooks.{IsUniqueOf, IsTakenIn, AreFreeNow};

use crate::draft::Draft;
use crate::keys::owner_now;
use rss_base::{Kind, PageFault, Pages, Tid};
use rss_catalog::Catalog;
use rss_tuple::Store;
use std::alloc::Global;

/// Whether no other tuple has now, in a unique image of the relation `number`, the key of a tuple
/// with the values of these bytes.
pub(crate) fn are_free_now<P: Pages>(
    alloc: Global,
    draft: &Draft,
    tuples: &mut Store<P>,
    catalog: &Catalog,
    number: u8,
    tid: Tid,
    values: &[u8],
) -> Result<bool, PageFault>
    requires listed { is_some (relation_at catalog.now.listing number) ≡ true }
    requires may { CanAlter (both (P.view tuples.old.pages) catalog.now) }
    requires spelled { (relation : Entry) → relation_at catalog.now.listing number ≡ Some relation
        → SpellsSome (kinds relation.fields) values.now }
    ensures are { IfOk result (AreFreeNow (both (P.view tuples.old.pages) catalog.now)
        (said draft.now) number tid values.now) }
    ensures did { Searches (P.view tuples.old.pages) (P.view tuples.new.pages) result }
{
    for place in 0..catalog.last_image() {
        let taken = is_taken_in(
            alloc,
            draft,
            tuples,
            catalog,
            number,
            tid,
            values,
            place + 1,
        )?;
        if taken {
            return Ok(false);
        }
    }
    Ok(true)
}

/// Whether another tuple has that key now in the image `image`, if that is a unique one of the
/// relation.
fn is_taken_in<P: Pages>(
    alloc: Global,
    draft: &Draft,
    tuples: &mut Store<P>,
    catalog: &Catalog,
    number: u8,
    tid: Tid,
    values: &[u8],
    image: u8,
) -> Result<bool, PageFault>
    requires listed { is_some (relation_at catalog.now.listing number) ≡ true }
    requires may { CanAlter (both (P.view tuples.old.pages) catalog.now) }
    requires spelled { (relation : Entry) → relation_at catalog.now.listing number ≡ Some relation
        → SpellsSome (kinds relation.fields) values.now }
    ensures is { IfOk result (λ found. SoLookedUp (both (P.view tuples.old.pages) catalog.now)
        (said draft.now) (λ tables. IsTrue found
        ↔ IsTakenIn catalog.now.listing tables number tid values.now image)) }
    ensures did { Searches (P.view tuples.old.pages) (P.view tuples.new.pages) result }
{
    if !is_unique_of(catalog, number, image) {
        return Ok(false);
    }
    let owner = owner_now(alloc, draft, tuples, catalog, image, values)?;
    match owner {
        Some(owner) => Ok(owner != tid),
        None => Ok(false),
    }
}

/// Whether this is the number of a unique image of a relation.
fn is_unique_of(catalog: &Catalog, number: u8, image: u8) -> bool
    ensures { IsTrue result ↔ IsUniqueOf catalog.now.listing number image }
{
    if !catalog.used(Kind::Image, image) {
        return false;
    }
    let entry = catalog.image(image);
    if !entry.is_unique {
        return false;
    }
    entry.relation == number
}
