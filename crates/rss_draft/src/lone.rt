// Whether an identifier is that of one tuple in its segment now.
ghost use Rattle.std.specs.Prelude.{◌≡◌, ◌↔◌, true, is_some, IsTrue, IfOk};
ghost use Rattle.rss_base.specs.Listings.{relation_at};
ghost use Rattle.rss_base.specs.Steps.{PagesCall, no_page};
ghost use Rattle.rss_access.specs.Changes.{both, CanAlter};
ghost use Rattle.rss_draft.specs.Views.{said};
ghost use Rattle.rss_draft.specs.Looks.{Searches, SoNow};
ghost use Rattle.rss_draft.specs.FitLooks.{IsOtherIn, IsInOther, IsLoneNow};

use crate::draft::Draft;
use crate::tuples::is_there_now;
use rss_base::{Kind, PageFault, Pages, Tid};
use rss_catalog::Catalog;
use rss_tuple::Store;

/// Whether no other relation of the segment of the relation `number` has a tuple with this
/// identifier now.
pub(crate) fn is_lone_now<P: Pages>(
    draft: &Draft,
    tuples: &mut Store<P>,
    catalog: &Catalog,
    number: u8,
    tid: Tid,
) -> Result<bool, PageFault>
    requires listed { is_some (relation_at catalog.now.listing number) ≡ true }
    requires may { CanAlter (both (P.view tuples.old.pages) catalog.now) }
    ensures is { IfOk result (IsLoneNow (both (P.view tuples.old.pages) catalog.now)
        (said draft.now) number tid) }
    ensures did { Searches (P.view tuples.old.pages) (P.view tuples.new.pages) result }
{
    for place in 0..catalog.last_relation() {
        let found = is_in_other(draft, tuples, catalog, number, tid, place + 1)?;
        if found {
            return Ok(false);
        }
    }
    Ok(true)
}

/// Whether another relation of the segment, which has the number `other`, has a tuple with this
/// identifier now.
fn is_in_other<P: Pages>(
    draft: &Draft,
    tuples: &mut Store<P>,
    catalog: &Catalog,
    number: u8,
    tid: Tid,
    other: u8,
) -> Result<bool, PageFault>
    requires listed { is_some (relation_at catalog.now.listing number) ≡ true }
    requires may { CanAlter (both (P.view tuples.old.pages) catalog.now) }
    ensures is { IfOk result (λ found. SoNow (both (P.view tuples.old.pages) catalog.now)
        (said draft.now)
        (λ tables. IsTrue found ↔ IsInOther catalog.now.listing tables number tid other)) }
    ensures did { PagesCall no_page 2 2 (P.view tuples.old.pages) (P.view tuples.new.pages) result }
{
    if !is_other_in(catalog, number, other) {
        return Ok(false);
    }
    is_there_now(draft, tuples, catalog, other, tid)
}

/// Whether this is the number of another relation in the segment of a relation.
fn is_other_in(catalog: &Catalog, number: u8, other: u8) -> bool
    requires { is_some (relation_at catalog.now.listing number) ≡ true }
    ensures { IsTrue result ↔ IsOtherIn catalog.now.listing number other }
{
    if other == number {
        return false;
    }
    if !catalog.used(Kind::Relation, other) {
        return false;
    }
    catalog.relation(other).segment == catalog.relation(number).segment
}
