// The changes of open transactions, and their save points.
ghost use Rattle.std.specs.Prelude.{◌≡◌, length};
ghost use Rattle.rss_model.specs.Changes.{is_delete_of};

use crate::contents::Content;
use crate::places::Place;
use rss_base::Name;
use std::marker::Model;

/// A transaction sets what an item holds.
#[derive(Drop)]
pub(crate) struct Change {
    pub(crate) by: u32,
    pub(crate) place: Place,
    pub(crate) old: Option<Content>,
    pub(crate) new: Option<Content>,
}

impl Model for Change {
    ghost use Rattle.rss_model.specs.Changes.{Change as Made};

    ghost Value = { Made };

    ghost view = { λ c. record { by = c.by; item = c.place; old = c.old; new = c.new } };
}

impl Change {
    /// Whether a tuple of this relation is deleted.
    pub(crate) fn is_delete_of(&self, relation: &Name) -> bool
        ensures { result ≡ is_delete_of relation.now self.now }
    {
        self.place.is_tuple_of(relation) && self.old.is_some() && self.new.is_none()
    }
}

/// For each save point of a transaction, how many changes it had made before.
#[derive(Drop)]
pub(crate) struct Saves {
    pub(crate) counts: Vec<u32>,
}

impl Model for Saves {
    ghost use Rattle.std.specs.Prelude.{List, ℕ};

    ghost Value = { List ℕ };

    ghost view = { λ s. s.counts.items };
}

impl Saves {
    pub(crate) fn len(&self) -> usize
        ensures { result ≡ length self.now }
    {
        self.counts.len()
    }
}
