// Whether a tuple stands in chains now, or has some.
ghost use Rattle.std.specs.Prelude.{◌≡◌, ◌↔◌, true, Some, is_some, IsTrue, IfOk};
ghost use Rattle.rss_base.specs.Prefixes.{first_of};
ghost use Rattle.rss_base.specs.Listings.{relation_at, link_at};
ghost use Rattle.rss_base.specs.Steps.{PagesCall, no_page};
ghost use Rattle.rss_base.specs.declared.link.LinkEntry.{LinkEntry as AnyLink};
ghost use Rattle.rss_model.specs.Chains.{chain_with};
ghost use Rattle.rss_tuple.specs.TupleSteps.{TuplesCall, no_tuple};
ghost use Rattle.rss_members.specs.Calls.{both as seen, HasForm, MayAskChain, AnswersChain};
ghost use Rattle.rss_access.specs.Changes.{both, CanAlter};
ghost use Rattle.rss_draft.specs.Views.{said};
ghost use Rattle.rss_draft.specs.Looks.{Searches, SoOfChain, SoLookedUp};
ghost use Rattle.rss_draft.specs.FitLooks.{IsChildIn, IsParentIn, IsLinkedIn, IsUnlinkedNow};

use crate::draft::{Draft, Standing};
use crate::lists::whole;
use crate::places::standing_now;
use rss_base::{Kind, PageFault, Pages, Tid};
use rss_catalog::Catalog;
use rss_members::next_member;
use rss_tuple::{Store, Tuples};

/// Whether a tuple of the relation `number` stands now in no chain, and has none.
pub(crate) fn is_unlinked_now<P: Pages>(
    draft: &Draft,
    tuples: &mut Store<P>,
    catalog: &Catalog,
    number: u8,
    tid: Tid,
) -> Result<bool, PageFault>
    requires listed { is_some (relation_at catalog.now.listing number) ≡ true }
    requires may { CanAlter (both (P.view tuples.old.pages) catalog.now) }
    ensures is { IfOk result (IsUnlinkedNow (both (P.view tuples.old.pages) catalog.now)
        (said draft.now) number tid) }
    ensures did { Searches (P.view tuples.old.pages) (P.view tuples.new.pages) result }
{
    for place in 0..catalog.last_link() {
        let linked = is_linked_in(draft, tuples, catalog, number, tid, place + 1)?;
        if linked {
            return Ok(false);
        }
    }
    Ok(true)
}

/// Whether it stands in a chain of the link `link` now, or has one.
fn is_linked_in<P: Pages>(
    draft: &Draft,
    tuples: &mut Store<P>,
    catalog: &Catalog,
    number: u8,
    tid: Tid,
    link: u8,
) -> Result<bool, PageFault>
    requires listed { is_some (relation_at catalog.now.listing number) ≡ true }
    requires may { CanAlter (both (P.view tuples.old.pages) catalog.now) }
    ensures is { IfOk result (λ found. SoLookedUp (both (P.view tuples.old.pages) catalog.now)
        (said draft.now)
        (λ tables. IsTrue found ↔ IsLinkedIn catalog.now.listing tables number tid link)) }
    ensures did { PagesCall no_page 10 10
        (P.view tuples.old.pages) (P.view tuples.new.pages) result }
{
    if is_child_in(catalog, number, link) {
        return stands_now(draft, tuples, catalog, link, tid);
    }
    if is_parent_in(catalog, number, link) {
        return has_chain_now(draft, tuples, catalog, link, tid);
    }
    Ok(false)
}

/// Whether the relation `number` is that of a link's children.
fn is_child_in(catalog: &Catalog, number: u8, link: u8) -> bool
    ensures { IsTrue result ↔ IsChildIn catalog.now.listing number link }
{
    if !catalog.used(Kind::Link, link) {
        return false;
    }
    catalog.link(link).child == number
}

/// Whether it is that of its parents.
fn is_parent_in(catalog: &Catalog, number: u8, link: u8) -> bool
    ensures { IsTrue result ↔ IsParentIn catalog.now.listing number link }
{
    if !catalog.used(Kind::Link, link) {
        return false;
    }
    match catalog.link(link).parent {
        Some(parent) => parent == number,
        None => false,
    }
}

/// Whether a tuple, which may be there or not, stands in a chain of the link `link` now.
pub(crate) fn stands_now<P: Pages>(
    draft: &Draft,
    tuples: &mut Store<P>,
    catalog: &Catalog,
    link: u8,
    child: Tid,
) -> Result<bool, PageFault>
    requires listed { is_some (link_at catalog.now.listing link) ≡ true }
    requires may { CanAlter (both (P.view tuples.old.pages) catalog.now) }
    ensures is { IfOk result (λ found. SoLookedUp (both (P.view tuples.old.pages) catalog.now)
        (said draft.now) (λ tables. (entry : AnyLink) → link_at catalog.now.listing link ≡ Some entry
        → found ≡ is_some (chain_with tables.contents entry.name child))) }
    ensures did { PagesCall no_page 6 6 (P.view tuples.old.pages) (P.view tuples.new.pages) result }
{
    let standing = standing_now(draft, tuples, catalog, link, child)?;
    match standing {
        Standing::Off => Ok(false),
        Standing::In(_parent) => Ok(true),
    }
}

/// Whether a tuple has a chain of the link `link` now.
fn has_chain_now<P: Pages>(
    draft: &Draft,
    tuples: &mut Store<P>,
    catalog: &Catalog,
    link: u8,
    parent: Tid,
) -> Result<bool, PageFault>
    requires listed { is_some (link_at catalog.now.listing link) ≡ true }
    requires form { HasForm catalog.now.listing link (Some parent) }
    requires may { CanAlter (both (P.view tuples.old.pages) catalog.now) }
    ensures has { IfOk result (λ found. SoOfChain (both (P.view tuples.old.pages) catalog.now)
        (said draft.now) link (Some parent) (λ tids. found ≡ is_some (first_of tids))) }
    ensures did { PagesCall no_page 10 10
        (P.view tuples.old.pages) (P.view tuples.new.pages) result }
{
    match draft.chain(catalog.link(link).name, Some(parent)) {
        Some(tids) => Ok(!tids.is_empty()),
        None => has_saved_chain(tuples, catalog, link, parent),
    }
}

/// Whether it has one on the pages.
fn has_saved_chain<T: Tuples>(
    tuples: &mut T,
    catalog: &Catalog,
    link: u8,
    parent: Tid,
) -> Result<bool, PageFault>
    requires { MayAskChain (seen (T.view tuples.old) catalog.now) link (Some parent) }
    ensures has { IfOk result (λ found. AnswersChain (seen (T.view tuples.old) catalog.now)
        link (Some parent) (λ tids. found ≡ is_some (first_of tids))) }
    ensures did { TuplesCall no_page no_tuple 10 (T.view tuples.old) (T.view tuples.new) result }
{
    let found = next_member(tuples, catalog, link, Some(parent), None)?;
    match whole(found) {
        Some(_first) => Ok(true),
        None => Ok(false),
    }
}
