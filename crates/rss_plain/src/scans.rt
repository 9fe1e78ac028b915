// Open scans.
use rss_base::{Name, Tid, Tuple};
use std::marker::Model;

/// Which tuples a scan gives: those of a relation, those of an image from a key on, or those of a
/// chain.
#[derive(Drop)]
pub(crate) enum Along {
    Relation(Name),
    Image(Name, Option<Tuple>),
    Link(Name, Option<Tid>),
}

/// A key, and the tuple that has it. Along a relation or a link keys have no values.
#[derive(Drop)]
pub(crate) struct Entry {
    pub(crate) key: Tuple,
    pub(crate) tid: Tid,
}

impl Model for Entry {
    ghost use Rattle.rss_model.specs.Images.{Entry as Pair};

    ghost Value = { Pair };

    ghost view = { λ e. record { key = e.key; tid = e.tid } };
}

/// An open scan: the transaction that opened it, along what it goes, and what it gave last.
#[derive(Drop)]
pub(crate) struct Scan {
    pub(crate) by: u32,
    pub(crate) along: Along,
    pub(crate) last: Option<Entry>,
}

impl Model for Scan {
    ghost use Rattle.rss_model.specs.Scans.{Scan as Opened};

    ghost Value = { Opened };

    ghost use Rattle.rss_plain.specs.Kinds.{path_of};

    ghost view = { λ s. record { by = s.by; path = path_of s.along; last = s.last } };
}
