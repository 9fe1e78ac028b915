// What is asked of the links that a catalog lists.
ghost use Rattle.std.specs.Prelude.{◌≡◌, ◌↔◌, Some, true, is_some, IfOk, IsTrue};
ghost use Rattle.rss_base.specs.Prefixes.{first_of as first_in, last_of as last_in};
ghost use Rattle.rss_base.specs.Steps.{no_page};
ghost use Rattle.rss_base.specs.Listings.{relation_at, link_at};
ghost use Rattle.rss_tuple.specs.TupleSteps.{TuplesCall, no_tuple};
ghost use Rattle.rss_model.specs.Chains.{chain, chain_with, stands_in};
ghost use Rattle.rss_link.specs.Calls.{HoldsHeaps, Follows, IsTheOne};
ghost use Rattle.rss_members.specs.Calls.{both, MayAskAbove, AnswersAbove, MayAskBelow, AnswersBelow};
ghost use Rattle.rss_members.specs.Calls.{MayAskChain, AnswersChain, FindsPlace, FindsParent};
ghost use Rattle.rss_members.specs.Calls.{above_in, begins, next_behind, IsUnder, FindsForm, FindsTuple};

use crate::membership::Membership;
use crate::places::{chains_of, ends_of};
use rss_base::{Body, PageFault, Tid};
use rss_catalog::Catalog;
use rss_tuple::Tuples;

/// Whether a tuple of a relation, by its number, stands at an identifier.
pub fn is_there<T: Tuples>(
    tuples: &mut T,
    catalog: &Catalog,
    relation: u8,
    tid: Tid,
) -> Result<bool, PageFault>
    requires listed { is_some (relation_at catalog.now.listing relation) ≡ true }
    requires heaps { HoldsHeaps (T.view tuples.old) }
    ensures finds { IfOk result
        (FindsTuple (both (T.view tuples.old) catalog.now) relation tid) }
    ensures did { TuplesCall no_page no_tuple 2 (T.view tuples.old) (T.view tuples.new) result }
{
    let mut body = Body::new();
    let live = tuples.fetch(catalog.relation(relation).segment, tid, &mut body)?;
    Ok(live && begins(body.as_slice(), relation))
}

/// Whether a body is that of a tuple of a relation, by its number.
fn begins(body: &[u8], relation: u8) -> bool
    ensures { result ≡ begins relation body.now }
{
    match body.first() {
        Some(first) => *first == relation,
        None => false,
    }
}

/// The first child of a parent, or the first member of a unary link, which has no parent.
pub fn first_of<T: Tuples>(
    tuples: &mut T,
    catalog: &Catalog,
    link: u8,
    parent: Option<Tid>,
) -> Result<Option<Tid>, PageFault>
    requires { MayAskAbove (both (T.view tuples.old) catalog.now) link parent }
    ensures first { IfOk result (λ found. AnswersAbove (both (T.view tuples.old) catalog.now)
        link parent (λ chain. found ≡ first_in chain)) }
    ensures did { TuplesCall no_page no_tuple 2 (T.view tuples.old) (T.view tuples.new) result }
{
    let ends = ends_of(catalog.link(link));
    chains_of(catalog, link).first(&ends, tuples, parent)
}

/// Whether a tuple stands in a chain of a link.
pub fn stands<T: Tuples>(
    tuples: &mut T,
    catalog: &Catalog,
    link: u8,
    child: Tid,
) -> Result<bool, PageFault>
    requires { MayAskBelow (both (T.view tuples.old) catalog.now) link child }
    ensures stands { IfOk result (λ found. AnswersBelow (both (T.view tuples.old) catalog.now)
        link child (λ contents name. found ≡ is_some (chain_with contents name child))) }
    ensures did { TuplesCall no_page no_tuple 2 (T.view tuples.old) (T.view tuples.new) result }
{
    chains_of(catalog, link).stands(tuples, child)
}

/// The parent of the chain in which a tuple stands. None if it stands in none, or the link has no
/// parents.
pub fn parent_of<T: Tuples>(
    tuples: &mut T,
    catalog: &Catalog,
    link: u8,
    child: Tid,
) -> Result<Option<Tid>, PageFault>
    requires { MayAskBelow (both (T.view tuples.old) catalog.now) link child }
    ensures parent { IfOk result (λ found. AnswersBelow (both (T.view tuples.old) catalog.now)
        link child (λ contents name. found ≡ above_in (chain_with contents name child))) }
    ensures did { TuplesCall no_page no_tuple 2 (T.view tuples.old) (T.view tuples.new) result }
{
    chains_of(catalog, link).parent(tuples, child)
}

/// Whether a tuple has a chain of a link.
pub fn has_chain<T: Tuples>(
    tuples: &mut T,
    catalog: &Catalog,
    link: u8,
    parent: Tid,
) -> Result<bool, PageFault>
    requires { MayAskAbove (both (T.view tuples.old) catalog.now) link (Some parent) }
    ensures has { IfOk result (λ found. AnswersAbove (both (T.view tuples.old) catalog.now)
        link (Some parent) (λ chain. found ≡ is_some (first_in chain))) }
    ensures did { TuplesCall no_page no_tuple 2 (T.view tuples.old) (T.view tuples.new) result }
{
    Ok(first_of(tuples, catalog, link, Some(parent))?.is_some())
}

/// The last child of a parent, or the last member of a unary link.
pub fn last_of<T: Tuples>(
    tuples: &mut T,
    catalog: &Catalog,
    link: u8,
    parent: Option<Tid>,
) -> Result<Option<Tid>, PageFault>
    requires { MayAskAbove (both (T.view tuples.old) catalog.now) link parent }
    ensures last { IfOk result (λ found. AnswersAbove (both (T.view tuples.old) catalog.now)
        link parent (λ chain. found ≡ last_in chain)) }
    ensures did { TuplesCall no_page no_tuple 2 (T.view tuples.old) (T.view tuples.new) result }
{
    let ends = ends_of(catalog.link(link));
    chains_of(catalog, link).last(&ends, tuples, parent)
}

/// Where a tuple stands in the chains of a link. None if it stands in none.
pub fn place_of<T: Tuples>(
    tuples: &mut T,
    catalog: &Catalog,
    link: u8,
    child: Tid,
) -> Result<Option<Membership>, PageFault>
    requires { MayAskBelow (both (T.view tuples.old) catalog.now) link child }
    ensures finds { IfOk result (λ found. AnswersBelow (both (T.view tuples.old) catalog.now)
        link child (λ contents name. FindsPlace link child contents name found)) }
    ensures did { TuplesCall no_page no_tuple 6 (T.view tuples.old) (T.view tuples.new) result }
{
    if !stands(tuples, catalog, link, child)? {
        return Ok(None);
    }
    let parent = parent_of(tuples, catalog, link, child)?;
    let left = left_of(tuples, catalog, link, child)?;
    Ok(Some(Membership {
        link,
        parent,
        child,
        left,
    }))
}

/// The tuple right before a child in its chain.
fn left_of<T: Tuples>(
    tuples: &mut T,
    catalog: &Catalog,
    link: u8,
    child: Tid,
) -> Result<Option<Tid>, PageFault>
    requires { MayAskBelow (both (T.view tuples.old) catalog.now) link child }
    ensures left { IfOk result (λ found. AnswersBelow (both (T.view tuples.old) catalog.now) link
        child (λ contents name. IsTheOne (λ left. Follows (chain contents name) left child) found)) }
    ensures did { TuplesCall no_page no_tuple 2 (T.view tuples.old) (T.view tuples.new) result }
{
    let left = chains_of(catalog, link).before(tuples, child)?;
    Ok(left)
}

/// The tuple right after it.
fn right_of<T: Tuples>(
    tuples: &mut T,
    catalog: &Catalog,
    link: u8,
    child: Tid,
) -> Result<Option<Tid>, PageFault>
    requires { MayAskBelow (both (T.view tuples.old) catalog.now) link child }
    ensures right { IfOk result (λ found. AnswersBelow (both (T.view tuples.old) catalog.now) link
        child (λ contents name. IsTheOne (λ right. Follows (chain contents name) child right) found)) }
    ensures did { TuplesCall no_page no_tuple 2 (T.view tuples.old) (T.view tuples.new) result }
{
    chains_of(catalog, link).after(tuples, child)
}

/// Whether a tuple, which may be there or not, stands in the chain of a parent, which may be there or
/// not; a link without parents has one chain.
pub fn stands_under<T: Tuples>(
    tuples: &mut T,
    catalog: &Catalog,
    link: u8,
    parent: Option<Tid>,
    tid: Tid,
) -> Result<bool, PageFault>
    requires { MayAskChain (both (T.view tuples.old) catalog.now) link parent }
    ensures stands { IfOk result (λ found. AnswersChain (both (T.view tuples.old) catalog.now)
        link parent (λ chain. found ≡ stands_in tid chain)) }
    ensures did { TuplesCall no_page no_tuple 8 (T.view tuples.old) (T.view tuples.new) result }
{
    let relation = catalog.link(link).child;
    if !is_there(tuples, catalog, relation, tid)? {
        return Ok(false);
    }
    let place = place_of(tuples, catalog, link, tid)?;
    Ok(is_under(place, parent))
}

/// Whether a place is in the chain of this parent.
fn is_under(place: Option<Membership>, parent: Option<Tid>) -> bool
    ensures { IsTrue result ↔ IsUnder parent place }
{
    match place {
        Some(place) => place.parent == parent,
        None => false,
    }
}

/// What comes after a tuple in the chain of a parent, or first in it if no tuple is given; a link
/// without parents has one chain. None if the tuple isn't in that chain.
pub fn next_member<T: Tuples>(
    tuples: &mut T,
    catalog: &Catalog,
    link: u8,
    parent: Option<Tid>,
    last: Option<Tid>,
) -> Result<Option<Option<Tid>>, PageFault>
    requires { MayAskChain (both (T.view tuples.old) catalog.now) link parent }
    ensures next { IfOk result (λ found. AnswersChain (both (T.view tuples.old) catalog.now)
        link parent (λ chain. found ≡ next_behind last chain)) }
    ensures did { TuplesCall no_page no_tuple 10 (T.view tuples.old) (T.view tuples.new) result }
{
    match last {
        Some(tid) => next_of(tuples, catalog, link, parent, tid),
        None => {
            let first = first_under(tuples, catalog, link, parent)?;
            Ok(Some(first))
        }
    }
}

/// What comes after a tuple in the chain of a parent. None if the tuple isn't in that chain.
fn next_of<T: Tuples>(
    tuples: &mut T,
    catalog: &Catalog,
    link: u8,
    parent: Option<Tid>,
    tid: Tid,
) -> Result<Option<Option<Tid>>, PageFault>
    requires { MayAskChain (both (T.view tuples.old) catalog.now) link parent }
    ensures next { IfOk result (λ found. AnswersChain (both (T.view tuples.old) catalog.now)
        link parent (λ chain. found ≡ next_behind (Some tid) chain)) }
    ensures did { TuplesCall no_page no_tuple 10 (T.view tuples.old) (T.view tuples.new) result }
{
    if !stands_under(tuples, catalog, link, parent, tid)? {
        return Ok(None);
    }
    let right = right_of(tuples, catalog, link, tid)?;
    Ok(Some(right))
}

/// The first tuple in the chain of a parent, which may be there or not.
fn first_under<T: Tuples>(
    tuples: &mut T,
    catalog: &Catalog,
    link: u8,
    parent: Option<Tid>,
) -> Result<Option<Tid>, PageFault>
    requires { MayAskChain (both (T.view tuples.old) catalog.now) link parent }
    ensures first { IfOk result (λ found. AnswersChain (both (T.view tuples.old) catalog.now)
        link parent (λ chain. found ≡ first_in chain)) }
    ensures did { TuplesCall no_page no_tuple 4 (T.view tuples.old) (T.view tuples.new) result }
{
    if !has_parent(tuples, catalog, link, parent)? {
        return Ok(None);
    }
    first_of(tuples, catalog, link, parent)
}

/// Whether a parent of a link is there, if it has parents, and none is given if it has none.
pub(crate) fn has_parent<T: Tuples>(
    tuples: &mut T,
    catalog: &Catalog,
    link: u8,
    parent: Option<Tid>,
) -> Result<bool, PageFault>
    requires listed { is_some (link_at catalog.now.listing link) ≡ true }
    requires heaps { HoldsHeaps (T.view tuples.old) }
    ensures has { IfOk result (FindsParent (both (T.view tuples.old) catalog.now) link parent) }
    ensures form { IfOk result (FindsForm catalog.now.listing link parent) }
    ensures did { TuplesCall no_page no_tuple 2 (T.view tuples.old) (T.view tuples.new) result }
{
    match (catalog.link(link).parent, parent) {
        (Some(relation), Some(tid)) => is_there(tuples, catalog, relation, tid),
        (None, None) => Ok(true),
        _ => Ok(false),
    }
}
