// Chains as they are now.
ghost use Rattle.std.specs.Prelude.{◌≡◌, ◌↔◌, true, is_some, IsTrue, IfOk};
ghost use Rattle.rss_base.specs.Listings.{link_at};
ghost use Rattle.rss_base.specs.Steps.{PagesCall, no_page};
ghost use Rattle.rss_tuple.specs.TupleSteps.{TuplesCall, no_tuple};
ghost use Rattle.rss_members.specs.Calls.{both as seen, HasForm, MayAskChain, AnswersChain};
ghost use Rattle.rss_access.specs.Changes.{both, CanAlter};
ghost use Rattle.rss_draft.specs.Views.{said};
ghost use Rattle.rss_draft.specs.Looks.{SoOfChain, HasGap, StandsBehind};

use crate::draft::Draft;
use crate::lists::{has_gap, stands_behind, whole};
use rss_base::{PageFault, Pages};
use rss_catalog::Catalog;
use rss_members::{Membership, next_member, stands_under};
use rss_tuple::{Store, Tuples};

/// Whether a tuple can come into the chain of a parent now, right after another one or first. The
/// link has parents exactly if one is given.
pub(crate) fn has_gap_now<P: Pages>(
    draft: &Draft,
    tuples: &mut Store<P>,
    catalog: &Catalog,
    membership: Membership,
) -> Result<bool, PageFault>
    requires listed { is_some (link_at catalog.now.listing membership.link) ≡ true }
    requires form { HasForm catalog.now.listing membership.link membership.parent }
    requires may { CanAlter (both (P.view tuples.old.pages) catalog.now) }
    ensures has { IfOk result (λ found. SoOfChain (both (P.view tuples.old.pages) catalog.now)
        (said draft.now) membership.link membership.parent
        (λ tids. IsTrue found ↔ HasGap membership.child membership.left tids)) }
    ensures did { PagesCall no_page 16 16
        (P.view tuples.old.pages) (P.view tuples.new.pages) result }
{
    match draft.chain(catalog.link(membership.link).name, membership.parent) {
        Some(tids) => Ok(has_gap(tids, membership.child, membership.left)),
        None => has_saved_gap(tuples, catalog, membership),
    }
}

/// Whether it can come into that chain on the pages.
fn has_saved_gap<T: Tuples>(
    tuples: &mut T,
    catalog: &Catalog,
    membership: Membership,
) -> Result<bool, PageFault>
    requires { MayAskChain (seen (T.view tuples.old) catalog.now)
        membership.link membership.parent }
    ensures has { IfOk result (λ found. AnswersChain (seen (T.view tuples.old) catalog.now)
        membership.link membership.parent
        (λ tids. IsTrue found ↔ HasGap membership.child membership.left tids)) }
    ensures did { TuplesCall no_page no_tuple 16 (T.view tuples.old) (T.view tuples.new) result }
{
    let Membership {
        link,
        parent,
        child,
        left,
    } = membership;
    if stands_under(tuples, catalog, link, parent, child)? {
        return Ok(false);
    }
    match left {
        Some(left) => stands_under(tuples, catalog, link, parent, left),
        None => Ok(true),
    }
}

/// Whether a tuple stands once in the chain of a parent now: right after another one, or first.
/// The link has parents exactly if one is given.
pub(crate) fn stands_behind_now<P: Pages>(
    draft: &Draft,
    tuples: &mut Store<P>,
    catalog: &Catalog,
    membership: Membership,
) -> Result<bool, PageFault>
    requires listed { is_some (link_at catalog.now.listing membership.link) ≡ true }
    requires form { HasForm catalog.now.listing membership.link membership.parent }
    requires may { CanAlter (both (P.view tuples.old.pages) catalog.now) }
    ensures stands { IfOk result (λ found. SoOfChain (both (P.view tuples.old.pages) catalog.now)
        (said draft.now) membership.link membership.parent
        (λ tids. IsTrue found ↔ StandsBehind membership.child membership.left tids)) }
    ensures did { PagesCall no_page 16 16
        (P.view tuples.old.pages) (P.view tuples.new.pages) result }
{
    match draft.chain(catalog.link(membership.link).name, membership.parent) {
        Some(tids) => Ok(stands_behind(tids, membership.child, membership.left)),
        None => stands_behind_saved(tuples, catalog, membership),
    }
}

/// Whether it stands there in that chain on the pages, where no tuple stands twice.
fn stands_behind_saved<T: Tuples>(
    tuples: &mut T,
    catalog: &Catalog,
    membership: Membership,
) -> Result<bool, PageFault>
    requires { MayAskChain (seen (T.view tuples.old) catalog.now)
        membership.link membership.parent }
    ensures stands { IfOk result (λ found. AnswersChain (seen (T.view tuples.old) catalog.now)
        membership.link membership.parent
        (λ tids. IsTrue found ↔ StandsBehind membership.child membership.left tids)) }
    ensures did { TuplesCall no_page no_tuple 16 (T.view tuples.old) (T.view tuples.new) result }
{
    let Membership {
        link,
        parent,
        child,
        left,
    } = membership;
    let found = next_member(tuples, catalog, link, parent, left)?;
    let Some(next) = whole(found) else {
        return Ok(false);
    };
    Ok(next == child)
}
