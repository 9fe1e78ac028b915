// Chains that are read as a whole.
ghost use Rattle.std.specs.Prelude.{◌≡◌, true, is_some, IfOk};
ghost use Rattle.rss_base.specs.Listings.{link_at};
ghost use Rattle.rss_members.specs.Calls.{HasForm};
ghost use Rattle.rss_access.specs.Changes.{both, CanAlter};
ghost use Rattle.rss_draft.specs.Views.{said};
ghost use Rattle.rss_draft.specs.Looks.{Searches, SoOfChain, IsSavedChain};

use crate::draft::Draft;
use crate::lists::whole;
use rss_base::{PageFault, Pages, Tid};
use rss_catalog::Catalog;
use rss_members::next_member;
use rss_tuple::Store;
use std::alloc::Global;

/// The tuples of the chain of a parent now, in their order. The link has parents exactly if one is
/// given.
pub(crate) fn chain_now<P: Pages>(
    alloc: Global,
    draft: &Draft,
    tuples: &mut Store<P>,
    catalog: &Catalog,
    link: u8,
    parent: Option<Tid>,
) -> Result<Vec<Tid>, PageFault>
    requires listed { is_some (link_at catalog.now.listing link) ≡ true }
    requires form { HasForm catalog.now.listing link parent }
    requires may { CanAlter (both (P.view tuples.old.pages) catalog.now) }
    ensures are { IfOk result (λ tids. SoOfChain (both (P.view tuples.old.pages) catalog.now)
        (said draft.now) link parent (λ chain. chain ≡ tids.items)) }
    ensures did { Searches (P.view tuples.old.pages) (P.view tuples.new.pages) result }
{
    let Some(tids) = draft.chain(catalog.link(link).name, parent) else {
        return saved_chain(alloc, tuples, catalog, link, parent);
    };
    match Vec::from_slice(alloc, tids) {
        Ok(copy) => Ok(copy),
        Err(_) => Err(PageFault::NoMemory),
    }
}

/// The tuples of that chain on the pages. On any device they are no more than the relation of the
/// children counts.
fn saved_chain<P: Pages>(
    alloc: Global,
    tuples: &mut Store<P>,
    catalog: &Catalog,
    link: u8,
    parent: Option<Tid>,
) -> Result<Vec<Tid>, PageFault>
    requires listed { is_some (link_at catalog.now.listing link) ≡ true }
    requires form { HasForm catalog.now.listing link parent }
    requires may { CanAlter (both (P.view tuples.old.pages) catalog.now) }
    ensures are { IfOk result (λ tids. IsSavedChain (both (P.view tuples.old.pages) catalog.now)
        link parent tids.items) }
    ensures did { Searches (P.view tuples.old.pages) (P.view tuples.new.pages) result }
{
    let child = catalog.link(link).child;
    let most = catalog.relation(child).live;
    let mut tids = Vec::new(alloc);
    let mut last = None;
    for _place in 0..most {
        let found = next_member(tuples, catalog, link, parent, last)?;
        let Some(tid) = whole(found) else {
            return Ok(tids);
        };
        if tids.push(tid).is_err() {
            return Err(PageFault::NoMemory);
        }
        last = Some(tid);
    }
    Ok(tids)
}
