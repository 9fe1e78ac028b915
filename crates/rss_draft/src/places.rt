// Where tuples stand in links now.
ghost use Rattle.std.specs.Prelude.{◌≡◌, true, is_some, IfOk};
ghost use Rattle.rss_base.specs.Listings.{link_at};
ghost use Rattle.rss_base.specs.Steps.{PagesCall, no_page};
ghost use Rattle.rss_tuple.specs.TupleSteps.{TuplesCall, no_tuple};
ghost use Rattle.rss_members.specs.Calls.{both as seen, MayRelink};
ghost use Rattle.rss_access.specs.Changes.{both, CanAlter};
ghost use Rattle.rss_draft.specs.Views.{said};
ghost use Rattle.rss_draft.specs.Looks.{IsStandingNow, IsSavedStanding};

use crate::draft::{Draft, Standing};
use rss_base::{PageFault, Pages, Tid};
use rss_catalog::Catalog;
use rss_members::{is_there, parent_of, stands};
use rss_tuple::{Store, Tuples};

/// Where a tuple, which may be there or not, stands in the link `link` now.
pub(crate) fn standing_now<P: Pages>(
    draft: &Draft,
    tuples: &mut Store<P>,
    catalog: &Catalog,
    link: u8,
    child: Tid,
) -> Result<Standing, PageFault>
    requires listed { is_some (link_at catalog.now.listing link) ≡ true }
    requires may { CanAlter (both (P.view tuples.old.pages) catalog.now) }
    ensures is { IfOk result (IsStandingNow (both (P.view tuples.old.pages) catalog.now)
        (said draft.now) link child) }
    ensures did { PagesCall no_page 6 6 (P.view tuples.old.pages) (P.view tuples.new.pages) result }
{
    match draft.standing(catalog.link(link).name, child) {
        Some(said) => Ok(said),
        None => saved_standing(tuples, catalog, link, child),
    }
}

/// Where it stands on the pages.
fn saved_standing<T: Tuples>(
    tuples: &mut T,
    catalog: &Catalog,
    link: u8,
    child: Tid,
) -> Result<Standing, PageFault>
    requires listed { is_some (link_at catalog.now.listing link) ≡ true }
    requires may { MayRelink (seen (T.view tuples.old) catalog.now) }
    ensures is { IfOk result (IsSavedStanding (seen (T.view tuples.old) catalog.now) link child) }
    ensures did { TuplesCall no_page no_tuple 6 (T.view tuples.old) (T.view tuples.new) result }
{
    let relation = catalog.link(link).child;
    if !is_there(tuples, catalog, relation, child)? {
        return Ok(Standing::Off);
    }
    if !stands(tuples, catalog, link, child)? {
        return Ok(Standing::Off);
    }
    let parent = parent_of(tuples, catalog, link, child)?;
    Ok(Standing::In(parent))
}
