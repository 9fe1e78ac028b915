// How a tuple of a listed link gets into a chain, and out of it.
ghost use Rattle.std.specs.Prelude.{◌≡◌, ◌↔◌, Some, true, is_some, Err, OnOk, OnErr, IfErr, IfSome, IsTrue};
ghost use Rattle.rss_base.specs.Listings.{IsSpelled, link_at};
ghost use Rattle.rss_base.specs.declared.fault.PageFault.TheVariants.{Damaged as PageDamaged};
ghost use Rattle.rss_base.specs.declared.link.LinkEntry.{LinkEntry as ALink};
ghost use Rattle.rss_base.specs.declared.place.Place.{Place as AnyPlace};
ghost use Rattle.rss_base.specs.declared.place.Place.TheVariants.{Tuple as TuplePlace, Link as LinkPlace};
ghost use Rattle.rss_link.specs.Blocks.{kept_ends};
ghost use Rattle.rss_link.specs.Calls.{TellsBodies};
ghost use Rattle.rss_members.specs.Members.{segment_of};
ghost use Rattle.rss_members.specs.Calls.{both, MayRelink, Relinks, SetsEnds};
ghost use Rattle.rss_members.specs.Calls.{Connects, Disconnects, NoneConnects, NoneDisconnects};

use crate::membership::Membership;
use crate::places::{chains_of, ends_of};
use crate::testing::{can_connect, can_disconnect};
use rss_base::{Kind, PAGE_ENTRIES, PageFault, Place, Tid};
use rss_catalog::Catalog;
use rss_link::Ends;
use rss_tuple::Tuples;

/// Puts a tuple into a chain: right after `left`, or first. The catalog lists the ends of a chain
/// that has no parent.
///
/// The fault is `Damaged`, and nothing is changed, if the link isn't listed, has parents and none
/// is given, or has none and one is given. So it is if the tuple isn't one of its children or
/// stands in a chain of it already, or if the parent isn't there, or `left` not in its chain.
pub fn connect<T: Tuples>(
    tuples: &mut T,
    catalog: &mut Catalog,
    membership: Membership,
) -> Result<(), PageFault>
    requires { MayRelink (both (T.view tuples.old) catalog.old) }
    ensures connects { OnOk result (Connects (both (T.view tuples.old) catalog.old)
        (both (T.view tuples.new) catalog.new) membership) }
    ensures none { (place : AnyPlace) → result ≡ Err (PageDamaged place)
        → TellsBodies (T.view tuples.old)
        → NoneConnects (both (T.view tuples.old) catalog.old) membership }
    ensures relinks { Relinks membership.link (both (T.view tuples.old) catalog.old)
        (both (T.view tuples.new) catalog.new) result }
{
    if !catalog.used(Kind::Link, membership.link) {
        return Err(PageFault::Damaged(Place::Link(membership.link)));
    }
    if !can_connect(tuples, catalog, membership)? {
        return Err(misplaced(catalog, membership));
    }
    let Membership {
        link,
        parent,
        child,
        left,
    } = membership;
    let mut ends = ends_of(catalog.link(link));
    chains_of(catalog, link).connect(&mut ends, tuples, child, parent, left)?;
    set_ends(catalog, link, ends)
}

/// Takes a tuple out of the chain where it stands, right after `left` or first. If it doesn't stand
/// there, the fault is `Damaged`, and nothing is changed.
pub fn disconnect<T: Tuples>(
    tuples: &mut T,
    catalog: &mut Catalog,
    membership: Membership,
) -> Result<(), PageFault>
    requires { MayRelink (both (T.view tuples.old) catalog.old) }
    ensures disconnects { OnOk result (Disconnects (both (T.view tuples.old) catalog.old)
        (both (T.view tuples.new) catalog.new) membership) }
    ensures none { (place : AnyPlace) → result ≡ Err (PageDamaged place)
        → TellsBodies (T.view tuples.old)
        → NoneDisconnects (both (T.view tuples.old) catalog.old) membership }
    ensures relinks { Relinks membership.link (both (T.view tuples.old) catalog.old)
        (both (T.view tuples.new) catalog.new) result }
{
    if !catalog.used(Kind::Link, membership.link) {
        return Err(PageFault::Damaged(Place::Link(membership.link)));
    }
    if !can_disconnect(tuples, catalog, membership)? {
        return Err(misplaced(catalog, membership));
    }
    let Membership { link, child, .. } = membership;
    let mut ends = ends_of(catalog.link(link));
    chains_of(catalog, link).disconnect(&mut ends, tuples, child)?;
    set_ends(catalog, link, ends)
}

/// The fault if a tuple can't come into a chain, or doesn't stand there.
fn misplaced(catalog: &Catalog, membership: Membership) -> PageFault
    requires { is_some (link_at catalog.now.listing membership.link) ≡ true }
    ensures { (link : ALink) → link_at catalog.now.listing membership.link ≡ Some link → result
        ≡ PageDamaged (TuplePlace (segment_of catalog.now.listing link.child) membership.child) }
{
    let child = catalog.link(membership.link).child;
    PageFault::Damaged(Place::Tuple(catalog.relation(child).segment, membership.child))
}

/// Has the catalog list the ends of a link's one chain, if they are others now. If they are such as
/// none may be listed, the fault is `Damaged`.
fn set_ends(catalog: &mut Catalog, link: u8, ends: Ends) -> Result<(), PageFault>
    requires { is_some (link_at catalog.old.listing link) ≡ true }
    ensures sets { OnOk result (SetsEnds link (kept_ends ends) catalog.old catalog.new) }
    ensures kept { OnErr result (catalog.new ≡ catalog.old) }
    ensures fault { IfErr result (λ fault. fault ≡ PageDamaged (LinkPlace link)) }
    ensures unspelled { OnErr result
        (IfSome ends.first IsSpelled → IfSome ends.last IsSpelled → ⊥) }
{
    let listed = ends_of(catalog.link(link));
    if listed.first == ends.first && listed.last == ends.last {
        return Ok(());
    }
    if !is_end(ends.first) || !is_end(ends.last) {
        return Err(PageFault::Damaged(Place::Link(link)));
    }
    catalog.set_ends(link, ends.first, ends.last);
    Ok(())
}

/// Whether an end of a chain, if there is one, is an identifier that can be spelled.
fn is_end(end: Option<Tid>) -> bool
    ensures { IsTrue result ↔ IfSome end IsSpelled }
{
    match end {
        Some(tid) => usize::from(tid.slot) < PAGE_ENTRIES,
        None => true,
    }
}
