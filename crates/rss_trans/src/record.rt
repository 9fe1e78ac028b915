// What is kept of one open transaction.
ghost use Rattle.std.specs.Prelude.{◌≡◌, ◌+◌, ◌-◌, ◌^◌, ◌<◌, ◌≤◌, ◌++◌, ◌∷◌, [], length, take, IfOk};
ghost use Rattle.std.specs.Prelude.{OnOk, OnErr};
ghost use Rattle.rss_trans.specs.Transactions.{change_count, changes_most, count_at};
ghost use Rattle.rss_trans.specs.Transactions.{cut_at, delete_count, first_position, kind};
ghost use Rattle.rss_trans.specs.Transactions.{newest_after, nothing, with_change, with_save};
ghost use Rattle.rss_trans.specs.Transactions.{without_newest};

use crate::noted::Noted;
use crate::tally::Tally;
use std::alloc::{AllocError, Global};
use std::marker::Model;

/// How many changes a transaction may have that it hasn't undone.
const CHANGES_MOST: usize = 1 << 58;

/// How many numbers of relations there are.
pub(crate) const RELATIONS: usize = 256;

/// The changes of a transaction that it hasn't undone, and its save points, with counts of the
/// changes: of all, and of those in each relation.
#[derive(Drop)]
pub(crate) struct Record {
    changes: Vec<Noted>,
    /// For each save point how many changes there were.
    saves: Vec<usize>,
    all: Tally,
    of_relations: Vec<Tally>,
}

impl Model for Record {
    ghost use Rattle.std.specs.Prelude.{◌-◌, ◌^◌, ◌<◌, min, vec_capacity, vec_len};
    ghost use Rattle.rss_trans.specs.Transactions.{Transaction, changes_most};
    ghost use Rattle.rss_trans.specs.Tallies.{Kept, AreTallies};

    ghost Value = { Kept };

    ghost view = { λ r. record {
      transaction = record { changes = r.changes.items; saves = r.saves.items };
      room = min (vec_capacity r.changes - vec_len r.changes) (changes_most - vec_len r.changes);
    } };

    ghost invariant = { λ r. (vec_len r.saves < 2 ^ 32)
        × AreTallies r.changes.items r.all r.of_relations.items };
}

impl Record {
    /// Nothing was done.
    pub(crate) fn new(alloc: Global) -> Result<Self, AllocError>
        ensures { IfOk result (λ kept. kept.transaction ≡ nothing) }
    {
        Ok(Record {
            changes: Vec::new(alloc),
            saves: Vec::new(alloc),
            all: Tally::ZERO,
            of_relations: vec![in alloc; Tally::ZERO; RELATIONS]?,
        })
    }

    /// Makes room for one change.
    pub(crate) fn reserve(&mut self) -> Result<(), AllocError>
        ensures ok { OnOk result (1 ≤ self.new.room) }
        ensures same { self.new.transaction ≡ self.old.transaction }
    {
        if self.changes.len() >= CHANGES_MOST {
            return Err(AllocError);
        }
        self.changes.reserve(1)
    }

    pub(crate) fn note(&mut self, change: Noted)
        requires { 1 ≤ self.old.room }
        ensures { self.new.transaction ≡ with_change change self.old.transaction }
    {
        self.changes.push_reserved(change);
        self.all = self.all.more(change.is_delete);
        if let Some(relation) = change.relation {
            let relation = usize::from(relation);
            self.of_relations[relation] = self.of_relations[relation].more(change.is_delete);
        }
    }

    /// The newest change, if it was made after this save point.
    pub(crate) fn newest(&self, save: u32) -> Option<u64>
        requires { save ≤ length self.now.transaction.saves }
        ensures { result ≡ newest_after self.now.transaction save }
    {
        if self.changes.len() > self.count_at(save) {
            self.changes.last().map(|change| change.position)
        } else {
            None
        }
    }

    /// How many changes there were at a save point.
    fn count_at(&self, save: u32) -> usize
        requires { save ≤ length self.now.transaction.saves }
        ensures { result ≡ count_at self.now.transaction save }
    {
        match save {
            0 => 0,
            _ => self.saves[save as usize - 1],
        }
    }

    pub(crate) fn take_newest(&mut self)
        requires { 1 ≤ length self.old.transaction.changes }
        ensures { self.new.transaction ≡ without_newest self.old.transaction }
    {
        let Some(change) = self.changes.pop() else {
            unreachable!()
        };
        self.all = self.all.less(change.is_delete);
        if let Some(relation) = change.relation {
            let relation = usize::from(relation);
            self.of_relations[relation] = self.of_relations[relation].less(change.is_delete);
        }
    }

    pub(crate) fn save(&mut self) -> Result<u32, AllocError>
        requires { length self.old.transaction.saves + 1 < 2 ^ 32 }
        ensures number { IfOk result (λ save. save ≡ length self.old.transaction.saves + 1) }
        ensures ok { OnOk result (self.new.transaction ≡ with_save self.old.transaction) }
        ensures err { OnErr result (self.new.transaction ≡ self.old.transaction) }
    {
        self.saves.push(self.changes.len())?;
        Ok(self.saves.len() as u32)
    }

    pub(crate) fn cut(&mut self, save: u32)
        requires { save ≤ length self.old.transaction.saves }
        ensures { self.new.transaction ≡ cut_at save self.old.transaction }
    {
        self.saves.truncate(save as usize);
    }

    pub(crate) fn saves(&self) -> u32
        ensures { result ≡ length self.now.transaction.saves }
    {
        self.saves.len() as u32
    }

    /// The position of its first change.
    pub(crate) fn first(&self) -> Option<u64>
        ensures { result ≡ first_position self.now.transaction }
    {
        self.changes.first().map(|change| change.position)
    }

    /// The counts of its changes, or of those in a relation.
    pub(crate) fn tally(&self, relation: Option<u8>) -> Tally
        ensures changes { result.changes ≡ change_count (kind relation) self.now.transaction }
        ensures deletes { result.deletes ≡ delete_count (kind relation) self.now.transaction }
        ensures few { result.changes ≤ changes_most }
        ensures fewer { result.deletes ≤ changes_most }
    {
        match relation {
            Some(relation) => self.of_relations[usize::from(relation)],
            None => self.all,
        }
    }
}
