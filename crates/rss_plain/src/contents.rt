// What the items hold.
ghost use Rattle.std.specs.Prelude.{◌≡◌, Some, count_by, option_copied};
ghost use Rattle.rss_model.specs.Chains.{tuples_in};
ghost use Rattle.rss_model.specs.Refusals.{values_in};
ghost use Rattle.rss_model.specs.Items.{is_tuple_of, item_cmp};
ghost use Rattle.rss_model.specs.Tables.{tuple_count};
ghost use Rattle.rss_plain.specs.Maps.{mapped};

use crate::places::Place;
use crate::sorted::Sorted;
use rss_base::{Name, Tid, Tuple};
use std::marker::Model;

/// The values of a tuple, or the tuples of a chain in their order.
#[derive(Drop)]
pub(crate) enum Held {
    Values(Tuple),
    Tuples(Vec<Tid>),
}

/// What an item holds.
#[derive(Drop)]
pub(crate) struct Content {
    pub(crate) held: Held,
}

impl Model for Content {
    ghost use Rattle.rss_model.specs.Items.{Content as Holding};

    ghost Value = { Holding };

    ghost use Rattle.rss_plain.specs.Kinds.{content_of};

    ghost view = { λ c. content_of c.held };
}

impl Content {
    /// The values, if it is that of a tuple.
    pub(crate) fn values(&self) -> Option<&Tuple>
        ensures { option_copied result ≡ values_in (Some self.now) }
    {
        match &self.held {
            Held::Values(values) => Some(values),
            Held::Tuples(_) => None,
        }
    }

    /// The tuples, if it is that of a chain.
    pub(crate) fn tuples(&self) -> &[Tid]
        ensures { result.now ≡ tuples_in (Some self.now) }
    {
        match &self.held {
            Held::Values(_) => &[],
            Held::Tuples(tids) => tids.as_slice(),
        }
    }
}

/// How many tuples a relation has.
pub(crate) fn count_tuples(contents: &Sorted<Place, Content>, relation: &Name) -> usize
    ensures { result ≡ tuple_count (mapped item_cmp contents.now) relation.now }
{
    count_in(contents.entries(), relation)
}

pub(crate) fn count_in(held: &[(Place, Content)], relation: &Name) -> usize
    ensures { result ≡ count_by (λ one. is_tuple_of relation.now one.0) held.now }
{
    held.iter()
        .filter(|one| one.0.is_tuple_of(relation))
        .count()
}
