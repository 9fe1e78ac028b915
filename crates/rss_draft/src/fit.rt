// Whether tables fit after a change.
ghost use Rattle.std.specs.Prelude.{◌≡◌, ◌↔◌, true, false, is_some, IsTrue, IfOk};
ghost use Rattle.rss_base.specs.Listings.{relation_at, link_at};
ghost use Rattle.rss_base.specs.Steps.{PagesCall, no_page};
ghost use Rattle.rss_model.specs.Fits.{IsIdentifier};
ghost use Rattle.rss_access.specs.Changes.{both, CanAlter};
ghost use Rattle.rss_draft.specs.Views.{said};
ghost use Rattle.rss_draft.specs.Looks.{Searches};
ghost use Rattle.rss_draft.specs.FitLooks.{IsRow, IsRowFitting, IsGoneFitting, IsConnectFitting, IsCountNow, HasParentNow, FitsAfter};

use crate::draft::Draft;
use crate::free::are_free_now;
use crate::linked::{is_unlinked_now, stands_now};
use crate::lone::is_lone_now;
use crate::tuples::is_there_now;
use rss_access::TUPLES_MOST;
use rss_base::{Change, Kind, PAGE_ENTRIES, PageFault, Pages, Tid};
use rss_catalog::Catalog;
use rss_tuple::Store;
use rss_value::spells;
use std::alloc::Global;

/// Whether tables that fit still do after a change that finds what it tells (`finds`): what comes
/// may, and what goes is in no link.
pub fn fits<P: Pages>(
    alloc: Global,
    draft: &Draft,
    tuples: &mut Store<P>,
    catalog: &Catalog,
    change: &Change,
) -> Result<bool, PageFault>
    requires { CanAlter (both (P.view tuples.old.pages) catalog.now) }
    ensures fits { IfOk result (FitsAfter (both (P.view tuples.old.pages) catalog.now)
        (said draft.now) change.now) }
    ensures did { Searches (P.view tuples.old.pages) (P.view tuples.new.pages) result }
{
    match change {
        Change::Insert {
            relation,
            tid,
            values,
        } => fits_new(
            alloc,
            draft,
            tuples,
            catalog,
            *relation,
            *tid,
            values.as_slice(),
        ),
        Change::Delete {
            relation,
            tid,
            values: _values,
        } => fits_gone(draft, tuples, catalog, *relation, *tid),
        Change::Update {
            relation,
            tid,
            from: _from,
            to,
        } => fits_other(
            alloc,
            draft,
            tuples,
            catalog,
            *relation,
            *tid,
            to.as_slice(),
        ),
        Change::Connect {
            link,
            parent,
            child,
            left: _left,
        } => fits_connect(draft, tuples, catalog, *link, *parent, *child),
        Change::Disconnect { .. } => Ok(true),
    }
}

/// Whether a tuple with the values of these bytes may come.
fn fits_new<P: Pages>(
    alloc: Global,
    draft: &Draft,
    tuples: &mut Store<P>,
    catalog: &Catalog,
    number: u8,
    tid: Tid,
    values: &[u8],
) -> Result<bool, PageFault>
    requires { CanAlter (both (P.view tuples.old.pages) catalog.now) }
    ensures fits { IfOk result (IsRowFitting (both (P.view tuples.old.pages) catalog.now)
        (said draft.now) number tid false values.now) }
    ensures did { Searches (P.view tuples.old.pages) (P.view tuples.new.pages) result }
{
    if !is_row(catalog, number, values) {
        return Ok(false);
    }
    if !is_identifier(tuples.pages.slots(), tid) {
        return Ok(false);
    }
    if count_now(draft, catalog, number) >= TUPLES_MOST {
        return Ok(false);
    }
    let lone = is_lone_now(draft, tuples, catalog, number, tid)?;
    if !lone {
        return Ok(false);
    }
    are_free_now(alloc, draft, tuples, catalog, number, tid, values)
}

/// Whether a tuple may come to have the values of these bytes instead of others.
fn fits_other<P: Pages>(
    alloc: Global,
    draft: &Draft,
    tuples: &mut Store<P>,
    catalog: &Catalog,
    number: u8,
    tid: Tid,
    values: &[u8],
) -> Result<bool, PageFault>
    requires { CanAlter (both (P.view tuples.old.pages) catalog.now) }
    ensures fits { IfOk result (IsRowFitting (both (P.view tuples.old.pages) catalog.now)
        (said draft.now) number tid true values.now) }
    ensures did { Searches (P.view tuples.old.pages) (P.view tuples.new.pages) result }
{
    if !is_row(catalog, number, values) {
        return Ok(false);
    }
    are_free_now(alloc, draft, tuples, catalog, number, tid, values)
}

/// Whether a tuple may go.
fn fits_gone<P: Pages>(
    draft: &Draft,
    tuples: &mut Store<P>,
    catalog: &Catalog,
    number: u8,
    tid: Tid,
) -> Result<bool, PageFault>
    requires { CanAlter (both (P.view tuples.old.pages) catalog.now) }
    ensures fits { IfOk result (IsGoneFitting (both (P.view tuples.old.pages) catalog.now)
        (said draft.now) number tid) }
    ensures did { Searches (P.view tuples.old.pages) (P.view tuples.new.pages) result }
{
    if !catalog.used(Kind::Relation, number) {
        return Ok(false);
    }
    is_unlinked_now(draft, tuples, catalog, number, tid)
}

/// Whether a tuple may come into a chain: it and the parent are there, and it stands in no chain of
/// the link.
fn fits_connect<P: Pages>(
    draft: &Draft,
    tuples: &mut Store<P>,
    catalog: &Catalog,
    link: u8,
    parent: Option<Tid>,
    child: Tid,
) -> Result<bool, PageFault>
    requires { CanAlter (both (P.view tuples.old.pages) catalog.now) }
    ensures fits { IfOk result (IsConnectFitting (both (P.view tuples.old.pages) catalog.now)
        (said draft.now) link parent child) }
    ensures did { Searches (P.view tuples.old.pages) (P.view tuples.new.pages) result }
{
    if !catalog.used(Kind::Link, link) {
        return Ok(false);
    }
    let under = has_parent_now(draft, tuples, catalog, link, parent)?;
    if !under {
        return Ok(false);
    }
    let there = is_there_now(draft, tuples, catalog, catalog.link(link).child, child)?;
    if !there {
        return Ok(false);
    }
    let stands = stands_now(draft, tuples, catalog, link, child)?;
    Ok(!stands)
}

/// Whether the parent of a chain of the link `link` is there, or there is none. The link has
/// parents exactly if one is given.
fn has_parent_now<P: Pages>(
    draft: &Draft,
    tuples: &mut Store<P>,
    catalog: &Catalog,
    link: u8,
    parent: Option<Tid>,
) -> Result<bool, PageFault>
    requires listed { is_some (link_at catalog.now.listing link) ≡ true }
    requires may { CanAlter (both (P.view tuples.old.pages) catalog.now) }
    ensures has { IfOk result (HasParentNow (both (P.view tuples.old.pages) catalog.now)
        (said draft.now) link parent) }
    ensures did { PagesCall no_page 2 2 (P.view tuples.old.pages) (P.view tuples.new.pages) result }
{
    let Some(above) = catalog.link(link).parent else {
        return Ok(true);
    };
    match parent {
        Some(parent) => is_there_now(draft, tuples, catalog, above, parent),
        None => Ok(false),
    }
}

/// How many tuples a relation has now.
fn count_now(draft: &Draft, catalog: &Catalog, number: u8) -> u32
    requires { is_some (relation_at catalog.now.listing number) ≡ true }
    ensures { IsCountNow catalog.now.listing (said draft.now) number result }
{
    let relation = catalog.relation(number);
    match draft.count(relation.name) {
        Some(said) => said,
        None => relation.live,
    }
}

/// Whether bytes are those of values of a listed relation.
fn is_row(catalog: &Catalog, number: u8, values: &[u8]) -> bool
    ensures { IsTrue result ↔ IsRow catalog.now.listing number values.now }
{
    if !catalog.used(Kind::Relation, number) {
        return false;
    }
    spells(catalog.relation(number).fields.as_slice(), values)
}

/// Whether this is an identifier of a store of so many slots.
fn is_identifier(slots: u32, tid: Tid) -> bool
    ensures { IsTrue result ↔ IsIdentifier slots tid }
{
    if tid.page >= slots {
        return false;
    }
    usize::from(tid.slot) < PAGE_ENTRIES
}
