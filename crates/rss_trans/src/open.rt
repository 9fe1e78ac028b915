// The open transactions.
ghost use Rattle.std.specs.Prelude.{◌≡◌, ◌+◌, ◌^◌, ◌<◌, ◌≤◌, ℕ, [], Some, IsSome, true, false};
ghost use Rattle.std.specs.Prelude.{IfOk, OnErr, OnOk, length, slice_get, slice_index};
ghost use Rattle.std.specs.BTreeMap.{get};
ghost use Rattle.std.specs.FinMap.{empty, entries, keys, len, values};
ghost use Rattle.std.specs.Map.{values_of};
ghost use Rattle.std.specs.Ordering.{nat_cmp};
ghost use Rattle.rss_trans.specs.Transactions.{Begins, Checkpoints, Ends, IsSame, Notes, Steps};
ghost use Rattle.rss_trans.specs.Transactions.{any, cut_at, is_open, kind, marks_of};
ghost use Rattle.rss_trans.specs.Transactions.{newest_after, of_relation, sums_of};
ghost use Rattle.rss_trans.specs.Transactions.{transaction_in, with_save, without_newest};
ghost use Rattle.rss_trans.specs.Tables.{shown, told};

use crate::noted::Noted;
use crate::record::{RELATIONS, Record};
use crate::sums::Sums;
use rss_base::Marks;
use slab::Slab;
use std::alloc::{AllocError, Global};
use std::collections::BTreeMap;
use std::marker::Model;

/// The open transactions: where their changes stand in the log, their save points, and the sums
/// that the rules on room and on the log read. At most 32 are open at a time.
///
/// Only `cut` and `gone` take time in proportion to the changes or save points that they drop. No
/// other call looks at more than one of them for each transaction.
#[derive(Drop)]
pub struct Open {
    alloc: Global,
    /// Where the record of each transaction is.
    keys: BTreeMap<u32, usize>,
    records: Slab<Record>,
    /// How many changes were made since the last checkpoint.
    since: u64,
    /// And how many of them in each relation.
    since_of: [u64; RELATIONS],
}

impl Model for Open {
    ghost use Rattle.rss_trans.specs.Tables.{Table, IsTable, table};

    ghost Value = { Table };

    ghost view = { λ o. table o.keys.entries o.records.slots o.since o.since_of };

    ghost invariant = { λ o. IsTable (table o.keys.entries o.records.slots o.since o.since_of) };
}

impl Open {
    /// No transaction is open. Takes no memory.
    pub fn new(alloc: Global) -> Self
        ensures none { (told result).transactions ≡ empty }
        ensures since { (told result).since ≡ 0 }
        ensures since_of { (relation : ℕ) → (told result).since_of relation ≡ 0 }
    {
        Open {
            alloc,
            keys: BTreeMap::new(alloc),
            records: Slab::new(alloc),
            since: 0,
            since_of: no_changes(),
        }
    }

    /// Opens a transaction that has done nothing.
    pub fn begin(&mut self, transaction: u32) -> Result<(), AllocError>
        requires closed { is_open (told self.old) transaction ≡ false }
        requires few { len (told self.old).transactions < 32 }
        ensures ok { OnOk result (Begins transaction (told self.old) (told self.new)) }
        ensures err { OnErr result (IsSame (told self.old) (told self.new)) }
    {
        let record = Record::new(self.alloc)?;
        self.records.reserve(1)?;
        self.keys.insert(transaction, self.records.vacant_key())?;
        self.records.insert_reserved(record);
        Ok(())
    }

    /// How many transactions are open.
    pub fn count(&self) -> u32
        ensures is { result ≡ len (told self.now).transactions }
        ensures most { result ≤ 32 }
    {
        self.keys.len() as u32
    }

    /// Whether the transaction is open.
    pub fn is_open(&self, transaction: u32) -> bool
        ensures { result ≡ is_open (told self.now) transaction }
    {
        self.keys.contains_key(&transaction)
    }

    /// Makes room for one change of a transaction.
    pub fn reserve(&mut self, transaction: u32) -> Result<(), AllocError>
        requires { is_open (told self.old) transaction ≡ true }
        ensures ok { OnOk result (1 ≤ (told self.new).room transaction) }
        ensures same { IsSame (told self.old) (told self.new) }
    {
        let key = key_of(&self.keys, transaction);
        let Some(record) = self.records.get_mut(key) else {
            unreachable!()
        };
        record.reserve()
    }

    /// Notes a change of a transaction.
    pub fn note(&mut self, transaction: u32, position: u64, relation: Option<u8>, delete: bool)
        requires { 1 ≤ (told self.old).room transaction }
        ensures { Notes transaction
            (record { position = position; relation = relation; is_delete = delete })
            (told self.old) (told self.new) }
    {
        let key = key_of(&self.keys, transaction);
        let Some(record) = self.records.get_mut(key) else {
            unreachable!()
        };
        record.note(Noted {
            position,
            relation,
            is_delete: delete,
        });
        self.since = self.since.saturating_add(1);
        if let Some(relation) = relation {
            let relation = usize::from(relation);
            self.since_of[relation] = self.since_of[relation].saturating_add(1);
        }
    }

    /// The transaction's newest change, if it was made after this save point; 0 is its begin.
    pub fn newest(&self, transaction: u32, save: u32) -> Option<u64>
        requires open { is_open (told self.now) transaction ≡ true }
        requires save { save ≤ length (transaction_in (told self.now) transaction).saves }
        ensures { result ≡ newest_after (transaction_in (told self.now) transaction) save }
    {
        let key = key_of(&self.keys, transaction);
        let Some(record) = self.records.get(key) else {
            unreachable!()
        };
        record.newest(save)
    }

    /// The transaction's newest change is undone.
    pub fn take_newest(&mut self, transaction: u32)
        requires open { is_open (told self.old) transaction ≡ true }
        requires some { 1 ≤ length (transaction_in (told self.old) transaction).changes }
        ensures { Steps transaction without_newest (told self.old) (told self.new) }
    {
        let key = key_of(&self.keys, transaction);
        let Some(record) = self.records.get_mut(key) else {
            unreachable!()
        };
        record.take_newest();
    }

    /// Sets a save point, and answers its number.
    pub fn save(&mut self, transaction: u32) -> Result<u32, AllocError>
        requires open { is_open (told self.old) transaction ≡ true }
        requires few { length (transaction_in (told self.old) transaction).saves + 1 < 2 ^ 32 }
        ensures number { IfOk result (λ save. save
            ≡ length (transaction_in (told self.old) transaction).saves + 1) }
        ensures ok { OnOk result (Steps transaction with_save (told self.old) (told self.new)) }
        ensures err { OnErr result (IsSame (told self.old) (told self.new)) }
    {
        let key = key_of(&self.keys, transaction);
        let Some(record) = self.records.get_mut(key) else {
            unreachable!()
        };
        record.save()
    }

    /// The save points after this one are gone.
    pub fn cut(&mut self, transaction: u32, save: u32)
        requires open { is_open (told self.old) transaction ≡ true }
        requires save { save ≤ length (transaction_in (told self.old) transaction).saves }
        ensures { Steps transaction (cut_at save) (told self.old) (told self.new) }
    {
        let key = key_of(&self.keys, transaction);
        let Some(record) = self.records.get_mut(key) else {
            unreachable!()
        };
        record.cut(save);
    }

    /// How many save points the transaction has.
    pub fn saves(&self, transaction: u32) -> u32
        requires { is_open (told self.now) transaction ≡ true }
        ensures { result ≡ length (transaction_in (told self.now) transaction).saves }
    {
        let key = key_of(&self.keys, transaction);
        let Some(record) = self.records.get(key) else {
            unreachable!()
        };
        record.saves()
    }

    /// The transaction is open no longer.
    pub fn gone(&mut self, transaction: u32)
        requires { is_open (told self.old) transaction ≡ true }
        ensures { Ends transaction (told self.old) (told self.new) }
    {
        let Some(key) = self.keys.remove(&transaction) else {
            unreachable!()
        };
        self.records.try_remove(key);
    }

    /// A checkpoint was taken: no change was made since.
    pub fn checkpointed(&mut self)
        ensures did { Checkpoints (told self.old) (told self.new) }
        ensures room { (told self.new).room ≡ (told self.old).room }
    {
        self.since = 0;
        self.since_of = no_changes();
    }

    /// The least open transaction.
    pub fn least(&self) -> Option<u32>
        ensures { result ≡ slice_get (keys (told self.now).transactions) 0 }
    {
        match self.keys.first_key_value() {
            Some((transaction, _)) => Some(*transaction),
            None => None,
        }
    }

    /// The sums over all changes.
    pub fn sums(&self) -> Sums
        ensures { result
            ≡ sums_of any (told self.now).since (values (told self.now).transactions) }
    {
        self.sums_of(None, self.since)
    }

    /// The sums over the changes in a relation.
    pub fn relation_sums(&self, relation: u8) -> Sums
        ensures { result ≡ sums_of (of_relation relation) ((told self.now).since_of relation)
            (values (told self.now).transactions) }
    {
        self.sums_of(Some(relation), self.since_of[usize::from(relation)])
    }

    fn sums_of(&self, relation: Option<u8>, since: u64) -> Sums
        ensures { result
            ≡ sums_of (kind relation) since (values_of (shown self.now.keys self.now.slots)) }
    {
        let mut sums = Sums {
            p: 0,
            q: 0,
            s: since,
            d: 0,
        };
        for (_, key) in self.keys.iter() {
            let Some(record) = self.records.get(*key) else {
                unreachable!()
            };
            let tally = record.tally(relation);
            sums.p += tally.changes;
            sums.q += u64::from(tally.changes > 0);
            sums.d += tally.deletes;
        }
        sums
    }

    /// The open transactions that have a change, each with the position of its first one, as a
    /// checkpoint names them.
    pub fn marks(&self, into: &mut Marks)
        requires { into.old ≡ [] }
        ensures { into.new ≡ marks_of (entries (told self.now).transactions) }
    {
        for (transaction, key) in self.keys.iter() {
            let Some(record) = self.records.get(*key) else {
                unreachable!()
            };
            if let Some(position) = record.first() {
                into.push((*transaction, position));
            }
        }
    }
}

/// No change in any relation.
fn no_changes() -> [u64; RELATIONS]
    ensures { (relation : ℕ) → slice_index result relation ≡ 0 }
{
    [0; RELATIONS]
}

/// Where the record of an open transaction is.
fn key_of(keys: &BTreeMap<u32, usize>, transaction: u32) -> usize
    requires { IsSome (get nat_cmp keys.now transaction) }
    ensures { get nat_cmp keys.now transaction ≡ Some result }
{
    let Some(key) = keys.get(&transaction) else {
        unreachable!()
    };
    *key
}
