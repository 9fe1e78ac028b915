// Changes of chains.
ghost use Rattle.std.specs.Prelude.{◌≡◌, ◌+◌, ◌<◌, ◌≤◌, true, is_some, Some, IfSome, IfErr, OnOk, OnErr};
ghost use Rattle.rss_base.specs.DiskRule.{IsTold};
ghost use Rattle.rss_base.specs.Listings.{IsSpelled, link_at, with_link};
ghost use Rattle.rss_base.specs.declared.change.Change.TheVariants.{Connect as ConnectTold};
ghost use Rattle.rss_base.specs.declared.change.Change.TheVariants.{Disconnect as DisconnectTold};
ghost use Rattle.rss_base.specs.declared.fault.PageFault.TheVariants.{Damaged as PageDamaged};
ghost use Rattle.rss_base.specs.declared.link.LinkEntry.{LinkEntry as ALink};
ghost use Rattle.rss_base.specs.declared.place.Place.TheVariants.{Link as LinkPlace};
ghost use Rattle.rss_base.specs.declared.refusal.Kind.TheVariants.{Link as LinkKind};
ghost use Rattle.rss_catalog.specs.Catalogs.{Lists, page_of, with_ends};
ghost use Rattle.rss_access.specs.Changes.{both, CanAlter, HasTables, HasRoom, Makes};

use crate::rooms::{PAGES_TAKEN, has_room};
use rss_base::{Kind, PageFault, Pages, Place, Tid};
use rss_catalog::Catalog;
use rss_members::{Membership, connect, disconnect};
use rss_tuple::Store;

/// Puts a tuple into a chain: right after `left`, or first. If it can't come there, or if there is
/// no room, the fault is `Damaged`, and nothing is changed. No page is taken over a device that
/// tells its contents.
pub(crate) fn put_in<P: Pages>(
    tuples: &mut Store<P>,
    catalog: &mut Catalog,
    membership: Membership,
) -> Result<(), PageFault>
    requires { CanAlter (both (P.view tuples.old.pages) catalog.old) }
    ensures { Makes
        (ConnectTold membership.link membership.parent membership.child membership.left)
        (both (P.view tuples.old.pages) catalog.old) (both (P.view tuples.new.pages) catalog.new)
        result }
{
    try_room(&tuples.pages, catalog, membership.link)?;
    let before = Before::of(&tuples.pages, catalog, membership.link);
    connect(tuples, catalog, membership)?;
    before.settle(&tuples.pages, catalog, membership.link)
}

/// Takes a tuple out of the chain where it stands, right after `left` or first. If it doesn't stand
/// there, or if there is no room, the fault is `Damaged`, and nothing is changed. No page is taken
/// over a device that tells its contents.
pub(crate) fn take_out<P: Pages>(
    tuples: &mut Store<P>,
    catalog: &mut Catalog,
    membership: Membership,
) -> Result<(), PageFault>
    requires { CanAlter (both (P.view tuples.old.pages) catalog.old) }
    ensures { Makes
        (DisconnectTold membership.link membership.parent membership.child membership.left)
        (both (P.view tuples.old.pages) catalog.old) (both (P.view tuples.new.pages) catalog.new)
        result }
{
    try_room(&tuples.pages, catalog, membership.link)?;
    let before = Before::of(&tuples.pages, catalog, membership.link);
    disconnect(tuples, catalog, membership)?;
    before.settle(&tuples.pages, catalog, membership.link)
}

/// Tests that there is room for a change of a chain of the link. It puts no pair into an image, and no
/// relation has the number 0.
fn try_room<P: Pages>(pages: &P, catalog: &Catalog, link: u8) -> Result<(), PageFault>
    ensures room { OnOk result (HasRoom (both (P.view pages.now) catalog.now) 0) }
    ensures place { IfErr result (λ fault. fault ≡ PageDamaged (LinkPlace link)) }
    ensures none { OnErr result (IsTold (P.view pages.now).disk
        → HasTables (both (P.view pages.now) catalog.now)
        → HasRoom (both (P.view pages.now) catalog.now) 0 → ⊥) }
{
    if has_room(pages, catalog, 0) {
        Ok(())
    } else {
        Err(PageFault::Damaged(Place::Link(link)))
    }
}

/// How many pages were spare before a chain was changed, and the ends that its link had.
#[derive(Clone, Copy)]
struct Before {
    spare: u32,
    first: Option<Tid>,
    last: Option<Tid>,
}

impl Before {
    fn of<P: Pages>(pages: &P, catalog: &Catalog, link: u8) -> Self
        ensures spare { result.spare ≡ (P.view pages.now).spare }
        ensures ends { (entry : ALink) → link_at catalog.now.listing link ≡ Some entry
            → (result.first ≡ entry.first) × (result.last ≡ entry.last) }
        ensures first { IfSome result.first IsSpelled }
        ensures last { IfSome result.last IsSpelled }
    {
        let spare = pages.spare();
        if !catalog.used(Kind::Link, link) {
            return Before {
                spare,
                first: None,
                last: None,
            };
        }
        let entry = catalog.link(link);
        Before {
            spare,
            first: entry.first,
            last: entry.last,
        }
    }

    /// A device that tells nothing may have had more pages taken than there is room for. Then the
    /// catalog lists the ends that the link had, and the fault is `Damaged`.
    fn settle<P: Pages>(self, pages: &P, catalog: &mut Catalog, link: u8) -> Result<(), PageFault>
        requires listed { is_some (link_at catalog.old.listing link) ≡ true }
        requires first { IfSome self.first IsSpelled }
        requires last { IfSome self.last IsSpelled }
        ensures room { OnOk result (self.spare ≤ (P.view pages.now).spare + 2) }
        ensures same { OnOk result (catalog.new ≡ catalog.old) }
        ensures taken { IfErr result (λ fault. (fault ≡ PageDamaged (LinkPlace link))
            × ((P.view pages.now).spare + 2 < self.spare)) }
        ensures back { OnErr result ((entry : ALink)
            → link_at catalog.old.listing link ≡ Some entry
            → Lists (with_link catalog.old.listing link (Some (with_ends self.first self.last entry)))
            (page_of LinkKind link) catalog.old catalog.new) }
    {
        if self.spare.saturating_sub(pages.spare()) <= PAGES_TAKEN {
            return Ok(());
        }
        catalog.set_ends(link, self.first, self.last);
        Err(PageFault::Damaged(Place::Link(link)))
    }
}
