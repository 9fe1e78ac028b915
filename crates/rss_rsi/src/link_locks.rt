// The locks of the calls on links.
ghost use Rattle.std.specs.Prelude.{◌≡◌, ◌+◌, ◌≤◌, vec_len, IfOk, OnOk};
ghost use Rattle.std.specs.FinMap.{get};
ghost use Rattle.rss_base.specs.Listings.{IsNumberOf};
ghost use Rattle.rss_base.specs.declared.item.Item.TheVariants.{Chain};
ghost use Rattle.rss_base.specs.declared.need.Mode.TheVariants.{X};
ghost use Rattle.rss_base.specs.declared.refusal.Kind.TheVariants.{Link as LinkKind};
ghost use Rattle.rss_members.specs.Calls.{HasForm};
ghost use Rattle.rss_model.specs.Needs.{need, connect_needs, link_scan_needs};
ghost use Rattle.rss_rsi.specs.Locking.{AreSayable, IsSayable, Lists};
ghost use Rattle.rss_rsi.specs.Linking.{ListsBehind, ListsPlaced, child_list, chain_list, upper_list};

use crate::Rss;
use crate::locking::{Access, tuple_need};
use rss_base::{Item, Mode, Name, Need, Tid, name_is_whole, tid_is_spelled};
use rss_buffer::Saving;
use rss_members::Membership;
use std::alloc::AllocError;

impl<S: Saving> Rss<S> {
    ghost use Rattle.rss_rsi.specs.Parts.{parts_of, session_of};

    /// The locks with which a tuple comes into the chain of a parent in the link `number`, or into
    /// the chain of a link without parents.
    pub(crate) fn connect_needs(
        &self,
        link: &Name,
        number: u8,
        child: Tid,
        parent: Option<Tid>,
    ) -> Result<Vec<Need>, AllocError>
        requires known { IsNumberOf LinkKind (session_of self.now).store.catalog.listing
            link.now number }
        requires form { HasForm (session_of self.now).store.catalog.listing number parent }
        ensures lists { IfOk result (λ needs. Lists (parts_of self.now)
            (λ tables. connect_needs tables link.now child parent
            (get tables.definitions.links link.now)) needs.items) }
        ensures few { IfOk result (λ needs. vec_len needs ≤ 7) }
        ensures sayable { IfOk result (λ needs. AreSayable needs.items) }
    {
        let mut needs = self.child_needs(link, number, child, Access::Change)?;
        self.push_chain(&mut needs, link, number, parent)?;
        Ok(needs)
    }

    /// Those with which it goes out of the chain in which it stands, if it stands in one.
    pub(crate) fn disconnect_needs(
        &self,
        link: &Name,
        number: u8,
        child: Tid,
        place: &Option<Membership>,
    ) -> Result<Vec<Need>, AllocError>
        requires known { IsNumberOf LinkKind (session_of self.now).store.catalog.listing
            link.now number }
        ensures lists { IfOk result (λ needs. ListsPlaced (parts_of self.now) link.now child
            place.now needs.items) }
        ensures few { IfOk result (λ needs. vec_len needs ≤ 7) }
        ensures sayable { IfOk result (λ needs. AreSayable needs.items) }
    {
        let mut needs = self.child_needs(link, number, child, Access::Change)?;
        if let Some(place) = place {
            self.push_chain(&mut needs, link, number, place.parent)?;
        }
        Ok(needs)
    }

    /// Those of a scan of the chain of a parent, or of the chain of a link without parents: its child
    /// relation is read.
    pub(crate) fn link_needs(
        &self,
        link: &Name,
        number: u8,
        parent: Option<Tid>,
    ) -> Result<Vec<Need>, AllocError>
        requires known { IsNumberOf LinkKind (session_of self.now).store.catalog.listing
            link.now number }
        ensures lists { IfOk result (λ needs. Lists (parts_of self.now)
            (λ tables. link_scan_needs tables parent (get tables.definitions.links link.now))
            needs.items) }
        ensures few { IfOk result (λ needs. vec_len needs ≤ 7) }
        ensures sayable { IfOk result (λ needs. AreSayable needs.items) }
    {
        let mut needs = Vec::new(self.alloc);
        self.push_upper(&mut needs, link, number, parent)?;
        let child = self.session.store.catalog.link(number).child;
        let name = self.session.store.catalog.relation(child).name;
        self.push_relation(&mut needs, child, &name, Mode::IS, Mode::S)?;
        Ok(needs)
    }

    /// Those with which a tuple of the child relation is read, or changed.
    pub(crate) fn child_needs(
        &self,
        link: &Name,
        number: u8,
        child: Tid,
        access: Access,
    ) -> Result<Vec<Need>, AllocError>
        requires known { IsNumberOf LinkKind (session_of self.now).store.catalog.listing
            link.now number }
        ensures lists { IfOk result (λ needs. Lists (parts_of self.now)
            (λ tables. child_list tables access child (get tables.definitions.links link.now))
            needs.items) }
        ensures few { IfOk result (λ needs. vec_len needs ≤ 3) }
        ensures sayable { IfOk result (λ needs. AreSayable needs.items) }
    {
        let relation = self.session.store.catalog.link(number).child;
        let name = self.session.store.catalog.relation(relation).name;
        match access {
            Access::Read => self.plain_needs(relation, &name, child, Mode::IS, Mode::S),
            Access::Change => self.plain_needs(relation, &name, child, Mode::IX, Mode::X),
        }
    }

    /// Puts the locks of a chain after others, and before its own those with which its parent is
    /// read, if it has one.
    fn push_chain(
        &self,
        needs: &mut Vec<Need>,
        link: &Name,
        number: u8,
        parent: Option<Tid>,
    ) -> Result<(), AllocError>
        requires known { IsNumberOf LinkKind (session_of self.now).store.catalog.listing
            link.now number }
        requires sayable { AreSayable needs.old.items }
        ensures pushed { OnOk result (HasForm (session_of self.now).store.catalog.listing number parent
            → ListsBehind (parts_of self.now)
            (λ tables. chain_list tables link.now parent (get tables.definitions.links link.now))
            needs.old.items needs.new.items) }
        ensures few { OnOk result (vec_len needs.new ≤ vec_len needs.old + 4) }
        ensures sayable { OnOk result (AreSayable needs.new.items) }
    {
        self.push_upper(needs, link, number, parent)?;
        needs.push(chain_need(link, parent))?;
        Ok(())
    }

    /// Puts the locks with which the parent of a chain is read after others, if it has one.
    fn push_upper(
        &self,
        needs: &mut Vec<Need>,
        link: &Name,
        number: u8,
        parent: Option<Tid>,
    ) -> Result<(), AllocError>
        requires known { IsNumberOf LinkKind (session_of self.now).store.catalog.listing
            link.now number }
        requires sayable { AreSayable needs.old.items }
        ensures pushed { OnOk result (ListsBehind (parts_of self.now)
            (λ tables. upper_list tables parent (get tables.definitions.links link.now))
            needs.old.items needs.new.items) }
        ensures few { OnOk result (vec_len needs.new ≤ vec_len needs.old + 3) }
        ensures sayable { OnOk result (AreSayable needs.new.items) }
    {
        let Some(relation) = self.session.store.catalog.link(number).parent else {
            return Ok(());
        };
        let Some(tid) = parent else {
            return Ok(());
        };
        let name = self.session.store.catalog.relation(relation).name;
        self.push_relation(needs, relation, &name, Mode::IS, Mode::IS)?;
        needs.push(tuple_need(&name, tid, Mode::S))?;
        Ok(())
    }
}

/// The lock of the chain of a parent, or of the chain of a link without parents.
fn chain_need(link: &Name, parent: Option<Tid>) -> Need
    ensures is { result ≡ need (Chain link.now parent) X }
    ensures sayable { IsSayable (Chain link.now parent) }
{
    tid_is_spelled(parent);
    name_is_whole(*link);
    Need {
        item: Item::Chain(*link, parent),
        mode: Mode::X,
    }
}
