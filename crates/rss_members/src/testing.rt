// Whether a tuple can come into a chain, or go out of it.
ghost use Rattle.std.specs.Prelude.{◌≡◌, ◌↔◌, true, is_some, IsTrue, IfOk};
ghost use Rattle.rss_base.specs.Steps.{no_page};
ghost use Rattle.rss_base.specs.Listings.{link_at};
ghost use Rattle.rss_tuple.specs.TupleSteps.{TuplesCall, no_tuple};
ghost use Rattle.rss_members.specs.Calls.{both, MayRelink, MayAskChain, AnswersChain};
ghost use Rattle.rss_members.specs.Calls.{FindsForm, TestsConnect, TestsDisconnect, TestsFree, HasLeft, IsRightThere};

use crate::membership::Membership;
use crate::reading::{has_parent, is_there, place_of, stands, stands_under};
use rss_base::{PageFault, Tid};
use rss_catalog::Catalog;
use rss_tuple::Tuples;

/// Whether a tuple can come into a chain of a listed link.
pub(crate) fn can_connect<T: Tuples>(
    tuples: &mut T,
    catalog: &Catalog,
    membership: Membership,
) -> Result<bool, PageFault>
    requires listed { is_some (link_at catalog.now.listing membership.link) ≡ true }
    requires may { MayRelink (both (T.view tuples.old) catalog.now) }
    ensures can { IfOk result (TestsConnect (both (T.view tuples.old) catalog.now) membership) }
    ensures form { IfOk result
        (FindsForm catalog.now.listing membership.link membership.parent) }
    ensures did { TuplesCall no_page no_tuple 16 (T.view tuples.old) (T.view tuples.new) result }
{
    let Membership {
        link,
        parent,
        child,
        left,
    } = membership;
    if !has_parent(tuples, catalog, link, parent)? {
        return Ok(false);
    }
    if !is_free(tuples, catalog, link, child)? {
        return Ok(false);
    }
    has_left(tuples, catalog, link, parent, left)
}

/// Whether a tuple is a child of a listed link, and stands in no chain of it.
fn is_free<T: Tuples>(
    tuples: &mut T,
    catalog: &Catalog,
    link: u8,
    child: Tid,
) -> Result<bool, PageFault>
    requires listed { is_some (link_at catalog.now.listing link) ≡ true }
    requires may { MayRelink (both (T.view tuples.old) catalog.now) }
    ensures is { IfOk result (TestsFree (both (T.view tuples.old) catalog.now) link child) }
    ensures did { TuplesCall no_page no_tuple 4 (T.view tuples.old) (T.view tuples.new) result }
{
    let relation = catalog.link(link).child;
    if !is_there(tuples, catalog, relation, child)? {
        return Ok(false);
    }
    let taken = stands(tuples, catalog, link, child)?;
    Ok(!taken)
}

/// Whether a tuple, if there is one, stands in the chain of a parent.
fn has_left<T: Tuples>(
    tuples: &mut T,
    catalog: &Catalog,
    link: u8,
    parent: Option<Tid>,
    left: Option<Tid>,
) -> Result<bool, PageFault>
    requires { MayAskChain (both (T.view tuples.old) catalog.now) link parent }
    ensures has { IfOk result (λ found. AnswersChain (both (T.view tuples.old) catalog.now)
        link parent (λ chain. IsTrue found ↔ HasLeft left chain)) }
    ensures did { TuplesCall no_page no_tuple 8 (T.view tuples.old) (T.view tuples.new) result }
{
    match left {
        Some(left) => stands_under(tuples, catalog, link, parent, left),
        None => Ok(true),
    }
}

/// Whether a tuple stands right there in a chain of a listed link.
pub(crate) fn can_disconnect<T: Tuples>(
    tuples: &mut T,
    catalog: &Catalog,
    membership: Membership,
) -> Result<bool, PageFault>
    requires listed { is_some (link_at catalog.now.listing membership.link) ≡ true }
    requires may { MayRelink (both (T.view tuples.old) catalog.now) }
    ensures can { IfOk result (TestsDisconnect (both (T.view tuples.old) catalog.now) membership) }
    ensures did { TuplesCall no_page no_tuple 16 (T.view tuples.old) (T.view tuples.new) result }
{
    let Membership {
        link,
        parent,
        child,
        left,
    } = membership;
    let relation = catalog.link(link).child;
    if !is_there(tuples, catalog, relation, child)? {
        return Ok(false);
    }
    let place = place_of(tuples, catalog, link, child)?;
    Ok(is_right_there(place, parent, left))
}

/// Whether a place is in the chain of this parent, right after this tuple or first.
fn is_right_there(place: Option<Membership>, parent: Option<Tid>, left: Option<Tid>) -> bool
    ensures { IsTrue result ↔ IsRightThere parent left place }
{
    match place {
        Some(place) => place.parent == parent && place.left == left,
        None => false,
    }
}
