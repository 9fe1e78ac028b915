// In which links a tuple stands.
ghost use Rattle.std.specs.Prelude.{◌≡◌, ◌↔◌, ◌+◌, ◌*◌, Some, true, is_some, IsTrue, IfOk};
ghost use Rattle.std.specs.declared.cmp.Ordering.TheVariants.{Less};
ghost use Rattle.rss_base.specs.Listings.{link_at};
ghost use Rattle.rss_base.specs.Sizes.{links_most};
ghost use Rattle.rss_base.specs.Steps.{no_page};
ghost use Rattle.rss_base.specs.declared.link.LinkEntry.{LinkEntry as ALink};
ghost use Rattle.rss_base.specs.declared.relation.RelationEntry.{RelationEntry as Entry};
ghost use Rattle.rss_tuple.specs.TupleSteps.{TuplesCall, no_tuple};
ghost use Rattle.rss_model.specs.Items.{name_cmp};
ghost use Rattle.rss_model.specs.Chains.{is_connected};
ghost use Rattle.rss_stored.specs.Store.{IsListedLink, link_definition};
ghost use Rattle.rss_members.specs.Calls.{both, MayAskTuple, AnswersTuple, FindsConnected};
ghost use Rattle.rss_members.specs.Calls.{IsFirstBelow, IsLesser};

use crate::reading::{has_chain, stands};
use rss_base::{Kind, Name, PageFault, Tid};
use rss_catalog::Catalog;
use rss_tuple::Tuples;
use std::cmp::Ordering;

/// The first link by name in which a tuple of a relation, by its number, stands in a chain or has one.
pub fn connected<T: Tuples>(
    tuples: &mut T,
    catalog: &Catalog,
    relation: u8,
    tid: Tid,
) -> Result<Option<Name>, PageFault>
    requires { MayAskTuple (both (T.view tuples.old) catalog.now) relation tid }
    ensures finds { IfOk result
        (FindsConnected (both (T.view tuples.old) catalog.now) relation tid) }
    ensures did { TuplesCall no_page no_tuple (2 * links_most)
        (T.view tuples.old) (T.view tuples.new) result }
{
    let mut least = None;
    for place in 0..catalog.last_link() {
        least = least_of(tuples, catalog, relation, tid, place + 1, least)?;
    }
    Ok(least)
}

/// The first by name of the links up to `link`; `least` is that of those below it.
fn least_of<T: Tuples>(
    tuples: &mut T,
    catalog: &Catalog,
    relation: u8,
    tid: Tid,
    link: u8,
    least: Option<Name>,
) -> Result<Option<Name>, PageFault>
    requires { MayAskTuple (both (T.view tuples.old) catalog.now) relation tid }
    ensures finds { IfOk result (λ found. AnswersTuple (both (T.view tuples.old) catalog.now)
        relation tid (λ tables name.
        IsFirstBelow catalog.now.listing tables name tid link least
        → IsFirstBelow catalog.now.listing tables name tid (link + 1) found)) }
    ensures did { TuplesCall no_page no_tuple 2 (T.view tuples.old) (T.view tuples.new) result }
{
    if !catalog.used(Kind::Link, link) {
        return Ok(least);
    }
    if !is_connected(tuples, catalog, link, relation, tid)? {
        return Ok(least);
    }
    let name = catalog.link(link).name;
    Ok(Some(lesser_of(name, least)))
}

/// Whether a tuple of a relation stands in a chain of a link or has one.
fn is_connected<T: Tuples>(
    tuples: &mut T,
    catalog: &Catalog,
    link: u8,
    relation: u8,
    tid: Tid,
) -> Result<bool, PageFault>
    requires listed { is_some (link_at catalog.now.listing link) ≡ true }
    requires may { MayAskTuple (both (T.view tuples.old) catalog.now) relation tid }
    ensures is { IfOk result (λ found. AnswersTuple (both (T.view tuples.old) catalog.now)
        relation tid (λ tables name. (listed : ALink) (child : Entry)
        → IsListedLink catalog.now.listing link listed child → found ≡ is_connected
        tables.contents name tid (listed.name, link_definition catalog.now.listing listed child))) }
    ensures did { TuplesCall no_page no_tuple 2 (T.view tuples.old) (T.view tuples.new) result }
{
    let entry = catalog.link(link);
    if entry.child == relation {
        stands(tuples, catalog, link, tid)
    } else if entry.parent == Some(relation) {
        has_chain(tuples, catalog, link, tid)
    } else {
        Ok(false)
    }
}

/// The lesser of two names, or the one that there is.
fn lesser_of(name: Name, other: Option<Name>) -> Name
    ensures { IsLesser name other result }
{
    match other {
        Some(other) => { if is_less(&name, &other) { name } else { other } }
        None => name,
    }
}

/// Whether a name stands before another one.
fn is_less(one: &Name, other: &Name) -> bool
    ensures { IsTrue result ↔ (name_cmp one.now other.now ≡ Less) }
{
    one.bytes[..].cmp(&other.bytes[..]) == Ordering::Less
}
