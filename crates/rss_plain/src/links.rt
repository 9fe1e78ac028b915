// Where tuples stand in links.
ghost use Rattle.std.specs.Prelude.{◌≡◌, Some, find, is_some, option_map};
ghost use Rattle.rss_base.specs.declared.item.Item.TheVariants.{Chain};
ghost use Rattle.rss_model.specs.Chains.{chain_with, connected, has_part, is_connected, is_parent_relation};
ghost use Rattle.rss_model.specs.Items.{parent_of};
ghost use Rattle.rss_model.specs.Machine.{now};
ghost use Rattle.rss_model.specs.Refusals.{if_connected, is_in_chain};
ghost use Rattle.rss_model.specs.Tables.{content};
ghost use Rattle.rss_plain.specs.Tests.{if_in_chain, is_chain_with, unless_in_chain_of};
ghost use Rattle.rss_plain.specs.View.{machine};

use crate::contents::Content;
use crate::definitions::Link;
use crate::places::{Place, same_name, stands_in};
use crate::plain::Plain;
use crate::refusals::{refused_if, refused_unless};
use rss_base::{Name, Refusal, Tid};

/// Whether the relation's tuples have chains in the link.
pub(crate) fn is_parent_relation(link: &Link, relation: &Name) -> bool
    ensures { result ≡ is_parent_relation link.now relation.now }
{
    match link.parent() {
        Some(parent) => same_name(&parent, relation),
        None => false,
    }
}

/// Whether the relation has a part in the link.
pub(crate) fn has_part(relation: &Name, link: &Link) -> bool
    ensures { result ≡ has_part relation.now link.now }
{
    same_name(relation, &link.child()) || is_parent_relation(link, relation)
}

/// Whether what an item holds is a chain of a link that has the tuple.
fn is_chain_with(link: &Name, child: Tid, held: &(Place, Content)) -> bool
    ensures { result ≡ is_chain_with link.now child held.now }
{
    held.0.is_chain_of(link) && stands_in(child, held.1.tuples())
}

fn parent_among(held: &[(Place, Content)], link: &Name, child: Tid) -> Option<Option<Tid>>
    ensures { result
        ≡ option_map (λ one. parent_of one.0) (find (is_chain_with link.now child) held.now) }
{
    held.iter()
        .find(|one| is_chain_with(link, child, one))
        .map(|one| one.0.parent())
}

impl Plain {
    /// The parent of the chain of a link in which a tuple stands, if it stands in one.
    pub(crate) fn parent_in(&self, link: &Name, child: Tid) -> Option<Option<Tid>>
        ensures { chain_with (now (machine self.now)).contents link.now child
            ≡ option_map (λ parent. Chain link.now parent) result }
    {
        parent_among(self.entries(), link, child)
    }

    pub(crate) fn is_in_chain(&self, link: &Name, child: Tid) -> bool
        ensures { result ≡ is_in_chain (machine self.now) link.now child }
    {
        self.parent_in(link, child).is_some()
    }

    pub(crate) fn if_in_chain(&self, link: &Name, child: Tid) -> Option<Refusal>
        ensures { result ≡ if_in_chain (machine self.now) link.now child }
    {
        refused_if(self.is_in_chain(link, child), Refusal::Connected(*link))
    }

    pub(crate) fn unless_in_chain_of(&self, link: &Name, child: Tid) -> Option<Refusal>
        ensures { result ≡ unless_in_chain_of (machine self.now) link.now child }
    {
        refused_unless(self.is_in_chain(link, child), Refusal::NotConnected(*link))
    }

    /// Whether a tuple of a relation stands in a chain of this link, or has one.
    fn is_connected(&self, relation: &Name, tid: Tid, link: &(Name, Link)) -> bool
        ensures { result
            ≡ is_connected (now (machine self.now)).contents relation.now tid link.now }
    {
        let (name, link) = link;
        let stands = same_name(relation, &link.child()) && self.is_in_chain(name, tid);
        let has = is_parent_relation(link, relation) && self.has_chain(*name, tid);
        stands || has
    }

    fn has_chain(&self, link: Name, parent: Tid) -> bool
        ensures { result
            ≡ is_some (content (now (machine self.now)).contents (Chain link (Some parent))) }
    {
        self.content(&Place::chain(link, Some(parent))).is_some()
    }

    /// The first link, by name, in which a tuple stands in a chain or has one.
    fn connected(&self, relation: &Name, tid: Tid) -> Option<Name>
        ensures { result ≡ connected (now (machine self.now)) relation.now tid }
    {
        self.connected_among(self.definitions.links.entries(), relation, tid)
    }

    fn connected_among(&self, links: &[(Name, Link)], relation: &Name, tid: Tid) -> Option<Name>
        ensures { result ≡ option_map (λ link. link.0)
            (find (is_connected (now (machine self.now)).contents relation.now tid) links.now) }
    {
        links
            .iter()
            .find(|link| self.is_connected(relation, tid, link))
            .map(|link| link.0)
    }

    pub(crate) fn if_connected(&self, relation: &Name, tid: Tid) -> Option<Refusal>
        ensures { result ≡ if_connected (machine self.now) relation.now tid }
    {
        Some(Refusal::Connected(self.connected(relation, tid)?))
    }
}
