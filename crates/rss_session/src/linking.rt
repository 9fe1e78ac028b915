// Links: what a call on one is refused for first, and looks at their chains.
ghost use Rattle.std.specs.Prelude.{◌≡◌, true, Some, is_some, OnOk, IfOk, IfSome};
ghost use Rattle.rss_base.specs.Listings.{relation_at, link_at, IsNumberOf};
ghost use Rattle.rss_base.specs.Prefixes.{last_of as last_in};
ghost use Rattle.rss_base.specs.declared.spot.Spot.TheVariants.{After};
ghost use Rattle.rss_base.specs.declared.refusal.Kind.TheVariants.{Link as LinkKind};
ghost use Rattle.rss_catalog.specs.Catalogs.{HasNoLesser};
ghost use Rattle.rss_members.specs.Calls.{HasForm};
ghost use Rattle.rss_session.specs.Admissions.{Tests, link_admission, HasParents};
ghost use Rattle.rss_session.specs.Linking.{SaysOfChain, FindsMembership, FindsLeft, FindsNextMember, FindsConnected};
ghost use Rattle.rss_session.specs.Looks.{LooksOn, CostsNothing};
ghost use Rattle.rss_session.specs.Sessions.{IsReady};
ghost use Rattle.rss_trans.specs.Transactions.{is_open};

use crate::Session;
use rss_base::{Kind, Name, PageFault, Refusal, Spot, Tid};
use rss_buffer::Saving;
use rss_members::{Membership, connected, is_there, last_of, next_member, place_of, stands_under};

impl<S: Saving> Session<S> {
    ghost use Rattle.rss_session.specs.Parts.{view};

    /// The transaction is open, and the link is there; if it is told whether a parent is given, the
    /// link has parents exactly if one is. Answers its number.
    pub fn admit_link(
        &self,
        transaction: u32,
        link: &Name,
        has_parent: Option<bool>,
    ) -> Result<u8, Refusal>
        ensures open { OnOk result (is_open (view S.view self.now).opened transaction ≡ true) }
        ensures known { IfOk result
            (IsNumberOf LinkKind (view S.view self.now).store.catalog.listing link.now) }
        ensures first { IfOk result
            (HasNoLesser LinkKind (view S.view self.now).store.catalog.listing link.now) }
        ensures form { IfOk result (λ number. IfSome has_parent
            (HasParents (view S.view self.now).store.catalog.listing number)) }
        ensures tests { Tests (view S.view self.now)
            (λ state. link_admission state transaction link.now has_parent) result }
    {
        self.test_open(transaction)?;
        let Some(number) = self.store.catalog.find(Kind::Link, link) else {
            return Err(Refusal::NoSuch(Kind::Link));
        };
        let Some(has_parent) = has_parent else {
            return Ok(number);
        };
        if self.store.catalog.link(number).parent.is_some() != has_parent {
            return Err(Refusal::NoSuch(Kind::Link));
        }
        Ok(number)
    }

    /// Where a tuple stands in the chains of the link `link`. None if it isn't there, or stands in
    /// no chain.
    pub fn find_place(&mut self, link: u8, child: Tid) -> Result<Option<Membership>, PageFault>
        requires ready { IsReady (view S.view self.old) }
        requires listed { is_some (link_at (view S.view self.old).store.catalog.listing link) ≡ true }
        ensures looks { LooksOn (view S.view self.old) (view S.view self.new) result }
        ensures idle { CostsNothing (view S.view self.old) (view S.view self.new) }
        ensures finds { IfOk result (FindsMembership (view S.view self.old) link child) }
    {
        let relation = self.store.catalog.link(link).child;
        if !is_there(&mut self.store.tuples, &self.store.catalog, relation, child)? {
            return Ok(None);
        }
        place_of(&mut self.store.tuples, &self.store.catalog, link, child)
    }

    /// The tuple after which a spot is in the chain of a parent, which may be there or not, and no
    /// tuple if the spot is the first; a link without parents has one chain. None if there is no
    /// such spot.
    pub fn find_left(
        &mut self,
        link: u8,
        parent: Option<Tid>,
        spot: &Spot,
    ) -> Result<Option<Option<Tid>>, PageFault>
        requires ready { IsReady (view S.view self.old) }
        requires listed { is_some (link_at (view S.view self.old).store.catalog.listing link) ≡ true }
        requires form { HasForm (view S.view self.old).store.catalog.listing link parent }
        ensures looks { LooksOn (view S.view self.old) (view S.view self.new) result }
        ensures idle { CostsNothing (view S.view self.old) (view S.view self.new) }
        ensures finds { IfOk result (FindsLeft (view S.view self.old) link parent spot.now) }
    {
        match spot {
            Spot::First => Ok(Some(None)),
            Spot::Last => Ok(Some(self.find_last(link, parent)?)),
            Spot::After(tid) => self.find_behind(link, parent, *tid),
        }
    }

    /// The last tuple in the chain of a parent, which may be there or not.
    fn find_last(&mut self, link: u8, parent: Option<Tid>) -> Result<Option<Tid>, PageFault>
        requires ready { IsReady (view S.view self.old) }
        requires listed { is_some (link_at (view S.view self.old).store.catalog.listing link) ≡ true }
        requires form { HasForm (view S.view self.old).store.catalog.listing link parent }
        ensures looks { LooksOn (view S.view self.old) (view S.view self.new) result }
        ensures idle { CostsNothing (view S.view self.old) (view S.view self.new) }
        ensures finds { IfOk result (λ last. SaysOfChain (view S.view self.old) link parent
            (λ chain. last ≡ last_in chain)) }
    {
        match parent {
            Some(tid) => self.find_last_below(link, tid),
            None => last_of(&mut self.store.tuples, &self.store.catalog, link, None),
        }
    }

    /// The last child of a parent, which may be there or not.
    fn find_last_below(&mut self, link: u8, parent: Tid) -> Result<Option<Tid>, PageFault>
        requires ready { IsReady (view S.view self.old) }
        requires listed { is_some (link_at (view S.view self.old).store.catalog.listing link) ≡ true }
        requires form { HasForm (view S.view self.old).store.catalog.listing link (Some parent) }
        ensures looks { LooksOn (view S.view self.old) (view S.view self.new) result }
        ensures idle { CostsNothing (view S.view self.old) (view S.view self.new) }
        ensures finds { IfOk result (λ last. SaysOfChain (view S.view self.old) link (Some parent)
            (λ chain. last ≡ last_in chain)) }
    {
        let Some(relation) = self.store.catalog.link(link).parent else {
            unreachable!();
        };
        if !is_there(
            &mut self.store.tuples,
            &self.store.catalog,
            relation,
            parent,
        )? {
            return Ok(None);
        }
        last_of(
            &mut self.store.tuples,
            &self.store.catalog,
            link,
            Some(parent),
        )
    }

    /// The spot right after a tuple, which is there if the tuple stands in the chain of a parent.
    fn find_behind(
        &mut self,
        link: u8,
        parent: Option<Tid>,
        tid: Tid,
    ) -> Result<Option<Option<Tid>>, PageFault>
        requires ready { IsReady (view S.view self.old) }
        requires listed { is_some (link_at (view S.view self.old).store.catalog.listing link) ≡ true }
        requires form { HasForm (view S.view self.old).store.catalog.listing link parent }
        ensures looks { LooksOn (view S.view self.old) (view S.view self.new) result }
        ensures idle { CostsNothing (view S.view self.old) (view S.view self.new) }
        ensures finds { IfOk result
            (FindsLeft (view S.view self.old) link parent (After tid)) }
    {
        if stands_under(
            &mut self.store.tuples,
            &self.store.catalog,
            link,
            parent,
            tid,
        )? {
            Ok(Some(Some(tid)))
        } else {
            Ok(None)
        }
    }

    /// What comes after a tuple in the chain of a parent, which may be there or not, or first in it
    /// if no tuple is given; a link without parents has one chain. None if the tuple isn't in that
    /// chain.
    pub fn next_member(
        &mut self,
        link: u8,
        parent: Option<Tid>,
        last: Option<Tid>,
    ) -> Result<Option<Option<Tid>>, PageFault>
        requires ready { IsReady (view S.view self.old) }
        requires listed { is_some (link_at (view S.view self.old).store.catalog.listing link) ≡ true }
        requires form { HasForm (view S.view self.old).store.catalog.listing link parent }
        ensures looks { LooksOn (view S.view self.old) (view S.view self.new) result }
        ensures idle { CostsNothing (view S.view self.old) (view S.view self.new) }
        ensures finds { IfOk result (FindsNextMember (view S.view self.old) link parent last) }
    {
        next_member(
            &mut self.store.tuples,
            &self.store.catalog,
            link,
            parent,
            last,
        )
    }

    /// The first link by its name in which a tuple of the relation `relation` stands in a chain or
    /// has one. None if the tuple isn't there.
    pub fn find_connected(&mut self, relation: u8, tid: Tid) -> Result<Option<Name>, PageFault>
        requires ready { IsReady (view S.view self.old) }
        requires listed { is_some (relation_at (view S.view self.old).store.catalog.listing relation)
            ≡ true }
        ensures looks { LooksOn (view S.view self.old) (view S.view self.new) result }
        ensures idle { CostsNothing (view S.view self.old) (view S.view self.new) }
        ensures finds { IfOk result (FindsConnected (view S.view self.old) relation tid) }
    {
        if !is_there(&mut self.store.tuples, &self.store.catalog, relation, tid)? {
            return Ok(None);
        }
        connected(&mut self.store.tuples, &self.store.catalog, relation, tid)
    }
}
