// Which items have a content, and the orders of keys.
ghost use Rattle.std.specs.Prelude.{◌≡◌, Some, None};
ghost use Rattle.std.specs.List.{list_any};
ghost use Rattle.std.specs.Ordering.{nat_cmp, ordering_then};
ghost use Rattle.std.specs.Cmp.{nat_cmp_total};
ghost use Rattle.std.specs.Cmp.Lexicographic.{slice_cmp};
ghost use Rattle.rss_base.specs.Prefixes.{is_tid};
ghost use Rattle.rss_base.specs.declared.item.Item.TheVariants.{Tuple, Chain};
ghost use Rattle.rss_model.specs.Chains.{stands_in};
ghost use Rattle.rss_model.specs.Images.{tid_of};
ghost use Rattle.rss_model.specs.Items.{is_chain_of, is_name, is_tuple_of, item_cmp, name_cmp, parent_of};
ghost use Rattle.rss_model.proofs.Codes.{item_total, name_total};

use crate::sorted::Keyed;
use rss_base::{Name, Tid};
use std::cmp::Ordering;
use std::marker::Model;

/// A tuple of a relation, or the chain of a link below a parent or without one.
#[derive(Drop)]
pub(crate) enum At {
    Tuple(Name, Tid),
    Chain(Name, Option<Tid>),
}

/// An item that has a content.
#[derive(Drop)]
pub(crate) struct Place {
    pub(crate) at: At,
}

impl Model for Place {
    ghost use Rattle.rss_base.specs.declared.item.Item.{Item};

    ghost Value = { Item };

    ghost use Rattle.rss_plain.specs.Kinds.{item_of};

    ghost view = { λ p. item_of p.at };
}

impl Place {
    pub(crate) fn tuple(relation: Name, tid: Tid) -> Self
        ensures { result ≡ Tuple relation tid }
    {
        Place {
            at: At::Tuple(relation, tid),
        }
    }

    pub(crate) fn chain(link: Name, parent: Option<Tid>) -> Self
        ensures { result ≡ Chain link parent }
    {
        Place {
            at: At::Chain(link, parent),
        }
    }

    /// The identifier of a tuple.
    pub(crate) fn tid(&self) -> Option<Tid>
        ensures { result ≡ tid_of self.now }
    {
        match &self.at {
            At::Tuple(_, tid) => Some(*tid),
            At::Chain(_, _) => None,
        }
    }

    pub(crate) fn is_tuple_of(&self, relation: &Name) -> bool
        ensures { result ≡ is_tuple_of relation.now self.now }
    {
        match &self.at {
            At::Tuple(name, _) => same_name(relation, name),
            At::Chain(_, _) => false,
        }
    }

    /// The parent of a chain, if there is one.
    pub(crate) fn parent(&self) -> Option<Tid>
        ensures { result ≡ parent_of self.now }
    {
        match &self.at {
            At::Tuple(_, _) => None,
            At::Chain(_, parent) => *parent,
        }
    }

    pub(crate) fn is_chain_of(&self, link: &Name) -> bool
        ensures { result ≡ is_chain_of link.now self.now }
    {
        match &self.at {
            At::Tuple(_, _) => false,
            At::Chain(name, _) => same_name(link, name),
        }
    }
}

impl Keyed for u32 {
    ghost order = { nat_cmp };

    fn compare(&self, other: &u32) -> Ordering {
        self.cmp(other)
    }

    ghost total = { nat_cmp_total };
}

impl Keyed for Name {
    ghost order = { name_cmp };

    fn compare(&self, other: &Name) -> Ordering {
        self.bytes.cmp(&other.bytes)
    }

    ghost total = { name_total };
}

impl Keyed for Place {
    ghost order = { item_cmp };

    fn compare(&self, other: &Place) -> Ordering {
        match (&self.at, &other.at) {
            (At::Tuple(a, s), At::Tuple(b, t)) => compare_at(*s, a, *t, b),
            (At::Tuple(_, _), At::Chain(_, _)) => Ordering::Less,
            (At::Chain(_, _), At::Tuple(_, _)) => Ordering::Greater,
            (At::Chain(a, s), At::Chain(b, t)) => compare_chains(a, *s, b, *t),
        }
    }

    ghost total = { item_total };
}

/// By the identifier, and then by the name.
fn compare_at(s: Tid, a: &Name, t: Tid, b: &Name) -> Ordering
    ensures { result ≡ item_cmp (Tuple a.now s) (Tuple b.now t) }
{
    s.page
        .cmp(&t.page)
        .then(s.slot.cmp(&t.slot).then(a.compare(b)))
}

/// The chain of a link without parents comes before those that have one.
fn compare_chains(a: &Name, s: Option<Tid>, b: &Name, t: Option<Tid>) -> Ordering
    ensures { result ≡ item_cmp (Chain a.now s) (Chain b.now t) }
{
    match (s, t) {
        (None, None) => a.compare(b),
        (None, Some(_)) => Ordering::Less,
        (Some(_), None) => Ordering::Greater,
        (Some(s), Some(t)) => compare_at(s, a, t, b),
    }
}

pub(crate) fn same_name(a: &Name, b: &Name) -> bool
    ensures { result ≡ is_name a.now b.now }
{
    a.compare(b).is_eq()
}

pub(crate) fn same_tid(a: Tid, b: Tid) -> bool
    ensures { result ≡ is_tid a b }
{
    a.page == b.page && a.slot == b.slot
}

/// Whether a tuple is one of these.
pub(crate) fn stands_in(tid: Tid, tids: &[Tid]) -> bool
    ensures { result ≡ stands_in tid tids.now }
{
    tids.iter().any(|other| same_tid(tid, *other))
}
