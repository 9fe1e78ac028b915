// Tuples as they are now.
ghost use Rattle.std.specs.Prelude.{◌≡◌, ◌↔◌, true, is_some, IsTrue, IfOk, option_copied};
ghost use Rattle.rss_base.specs.DiskRule.{IsTold};
ghost use Rattle.rss_base.specs.Listings.{relation_at};
ghost use Rattle.rss_base.specs.Steps.{PagesCall, no_page};
ghost use Rattle.rss_tuple.specs.Heaps.{AreHeaps};
ghost use Rattle.rss_access.specs.Changes.{both, CanAlter};
ghost use Rattle.rss_draft.specs.Views.{said};
ghost use Rattle.rss_draft.specs.Looks.{IsTupleNow, IsThereNow};

use crate::draft::Draft;
use rss_access::{find, spelled_in};
use rss_base::{PageFault, Pages, Tid};
use rss_catalog::Catalog;
use rss_members::is_there;
use rss_tuple::{Store, Tuples};

/// Whether a tuple of the relation `number` has values with these bytes now, or, if none are given,
/// whether there is none.
pub(crate) fn is_tuple_now<P: Pages>(
    draft: &Draft,
    tuples: &mut Store<P>,
    catalog: &Catalog,
    number: u8,
    tid: Tid,
    values: Option<&[u8]>,
) -> Result<bool, PageFault>
    requires listed { is_some (relation_at catalog.now.listing number) ≡ true }
    requires heaps { IsTold (P.view tuples.old.pages).disk → AreHeaps (P.view tuples.old.pages) }
    ensures is { IfOk result (IsTupleNow (both (P.view tuples.old.pages) catalog.now)
        (said draft.now) number tid (option_copied values.entry)) }
    ensures did { PagesCall no_page 2 2 (P.view tuples.old.pages) (P.view tuples.new.pages) result }
{
    let relation = catalog.relation(number);
    if let Some(said) = draft.tuple(relation.name, tid) {
        return Ok(are_same(said, values));
    }
    let Some(at) = find(tuples, relation.segment, number, tid)? else {
        return Ok(are_same(None, values));
    };
    let fields = relation.fields.as_slice();
    let stored = spelled_in(catalog, number, fields, tuples.body(at));
    Ok(are_same(stored, values))
}

/// Whether both are the same bytes, or neither is any.
fn are_same(one: Option<&[u8]>, other: Option<&[u8]>) -> bool
    ensures { IsTrue result ↔ (option_copied one.entry ≡ option_copied other.entry) }
{
    let Some(one) = one else {
        return other.is_none();
    };
    let Some(other) = other else {
        return false;
    };
    one == other
}

/// Whether there is a tuple of the relation `number` with this identifier now.
pub(crate) fn is_there_now<P: Pages>(
    draft: &Draft,
    tuples: &mut Store<P>,
    catalog: &Catalog,
    number: u8,
    tid: Tid,
) -> Result<bool, PageFault>
    requires listed { is_some (relation_at catalog.now.listing number) ≡ true }
    requires may { CanAlter (both (P.view tuples.old.pages) catalog.now) }
    ensures is { IfOk result (IsThereNow (both (P.view tuples.old.pages) catalog.now)
        (said draft.now) number tid) }
    ensures did { PagesCall no_page 2 2 (P.view tuples.old.pages) (P.view tuples.new.pages) result }
{
    match draft.tuple(catalog.relation(number).name, tid) {
        Some(said) => Ok(said.is_some()),
        None => is_there(tuples, catalog, number, tid),
    }
}
