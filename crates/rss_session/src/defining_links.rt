// Links are defined and taken away.
ghost use Rattle.std.specs.Prelude.{◌≡◌, true, is_some, IfOk, IfErr, IfSome, option_copied};
ghost use Rattle.rss_base.specs.Listings.{IsNumberOf, IsUnlisted, relation_at, is_parent_in};
ghost use Rattle.rss_base.specs.Names.{IsName};
ghost use Rattle.rss_base.specs.declared.call.Call.TheVariants.{MakeLink, DropLink};
ghost use Rattle.rss_base.specs.declared.refusal.Kind.TheVariants.{Relation as RelationKind};
ghost use Rattle.rss_base.specs.declared.refusal.Refusal.TheVariants.{NoSuch};
ghost use Rattle.rss_session.specs.Definitions.{IsParentNumber, HasUnlisted, Defining, any_of_link, is_in_most, is_filled};

use crate::Session;
use rss_base::{Kind, LimitKind, LinkEntry, Name, Refusal};
use rss_buffer::Saving;

/// In how many links a relation may have a part.
const ROLES_MOST: u8 = 16;

impl<S: Saving> Session<S> {
    ghost use Rattle.rss_session.specs.Parts.{view};

    /// Defines a link of the tuples of two relations, of which one has the chains, or of those of one,
    /// with one chain. No relation of it has tuples. `redefine` commits it.
    pub fn make_link(
        &mut self,
        name: &Name,
        parent: Option<&Name>,
        child: &Name,
    ) -> Result<(), Refusal>
        requires { IsName name.now }
        ensures { Defining S.view self.old self.new
            (MakeLink name.now (option_copied parent.entry) child.now) result }
    {
        self.test_rest()?;
        let parent = self.number_of_parent(parent)?;
        let child = self.number_of_relation(child)?;
        if self.store.catalog.find(Kind::Link, name).is_some() || is_parent(parent, child) {
            return Err(Refusal::NameTaken);
        }
        if self.store.catalog.is_full(Kind::Link) {
            return Err(Refusal::Limit(LimitKind::Links));
        }
        if self.has_no_role_left(parent, child) {
            return Err(Refusal::Limit(LimitKind::Roles));
        }
        if self.has_tuples(parent, child) {
            return Err(Refusal::NotEmpty);
        }
        self.store.catalog.add_link(LinkEntry {
            name: *name,
            parent,
            child,
            late: false,
            first: None,
            last: None,
        });
        Ok(())
    }

    /// Takes a link away whose relations have no tuples. `redefine` commits it.
    pub fn drop_link(&mut self, name: &Name) -> Result<(), Refusal>
        ensures { Defining S.view self.old self.new (DropLink name.now) result }
    {
        self.test_rest()?;
        let Some(number) = self.store.catalog.find(Kind::Link, name) else {
            return Err(Refusal::NoSuch(Kind::Link));
        };
        let link = self.store.catalog.link(number);
        if self.has_tuples(link.parent, link.child) {
            return Err(Refusal::NotEmpty);
        }
        self.store.catalog.remove(Kind::Link, number);
        Ok(())
    }

    /// The number of the parents' relation, which is there, if there is to be one.
    fn number_of_parent(&self, name: Option<&Name>) -> Result<Option<u8>, Refusal>
        ensures known { IfOk result (IsParentNumber (view S.view self.now).store.catalog.listing
            (option_copied name.entry)) }
        ensures unlisted { IfErr result (λ why. HasUnlisted
            (view S.view self.now).store.catalog.listing (option_copied name.entry)) }
        ensures refused { IfErr result (λ why. why ≡ NoSuch RelationKind) }
    {
        match name {
            Some(name) => Ok(Some(self.number_of_relation(name)?)),
            None => Ok(None),
        }
    }

    /// The number of a relation, which is there.
    fn number_of_relation(&self, name: &Name) -> Result<u8, Refusal>
        ensures known { IfOk result
            (IsNumberOf RelationKind (view S.view self.now).store.catalog.listing name.now) }
        ensures unlisted { IfErr result (λ why.
            IsUnlisted RelationKind (view S.view self.now).store.catalog.listing name.now) }
        ensures refused { IfErr result (λ why. why ≡ NoSuch RelationKind) }
    {
        match self.store.catalog.find(Kind::Relation, name) {
            Some(number) => Ok(number),
            None => Err(Refusal::NoSuch(Kind::Relation)),
        }
    }

    /// Whether a relation of such a link has a part in as many links as it may.
    fn has_no_role_left(&self, parent: Option<u8>, child: u8) -> bool
        ensures { result ≡ any_of_link (is_in_most (view S.view self.now).store.catalog.listing)
            parent child }
    {
        match parent {
            Some(number) => self.is_in_most_links(number) || self.is_in_most_links(child),
            None => self.is_in_most_links(child),
        }
    }

    fn is_in_most_links(&self, relation: u8) -> bool
        ensures { result ≡ is_in_most (view S.view self.now).store.catalog.listing relation }
    {
        self.store.catalog.roles_of(relation) >= ROLES_MOST
    }

    /// Whether a relation of such a link has tuples.
    fn has_tuples(&self, parent: Option<u8>, child: u8) -> bool
        requires child { is_some (relation_at (view S.view self.now).store.catalog.listing child)
            ≡ true }
        requires parent { IfSome parent (λ number.
            is_some (relation_at (view S.view self.now).store.catalog.listing number) ≡ true) }
        ensures { result ≡ any_of_link (is_filled (view S.view self.now).store.catalog.listing)
            parent child }
    {
        match parent {
            Some(number) => self.is_filled(number) || self.is_filled(child),
            None => self.is_filled(child),
        }
    }

    fn is_filled(&self, relation: u8) -> bool
        requires { is_some (relation_at (view S.view self.now).store.catalog.listing relation) ≡ true }
        ensures { result ≡ is_filled (view S.view self.now).store.catalog.listing relation }
    {
        self.store.catalog.relation(relation).live > 0
    }
}

/// Whether the parents' relation, if there is one, is the children's.
fn is_parent(parent: Option<u8>, child: u8) -> bool
    ensures { result ≡ is_parent_in parent child }
{
    match parent {
        Some(number) => number == child,
        None => false,
    }
}
