// The lock table.
ghost use Rattle.std.specs.Prelude.{◌≡◌, ◌+◌, ◌^◌, ◌<◌, ◌≤◌, ◌↔◌, None, true, Contains, length};
ghost use Rattle.std.specs.Prelude.{vec_len, IsTrue, IfSome, IfNone, OnOk};
ghost use Rattle.std.specs.FinMap.{empty};
ghost use Rattle.std.specs.List.Sorted.{IsStrictlySortedBy};
ghost use Rattle.rss_base.specs.declared.tid.Tid.{Tid as TupleId};
ghost use Rattle.rss_model.specs.Locks.{AreApart, first_bar, granted, least_holder, released};
ghost use Rattle.rss_lock.specs.Locks.{AreFew, HoldsAlone, IsFirstBar, is_barred, tid_cmp};
ghost use Rattle.rss_lock.specs.Table.{AllAgree, Disagrees, HoldersAreFew, IsLeastOf, IsUnbarred};
ghost use Rattle.rss_lock.specs.Table.{given, mode_of, told};

use crate::modes::{covers, with_mode};
use crate::places::{Grants, Holders, barred_tid, current, is_held, least_disagreeing, modes_on};
use rss_base::{Item, Mode, Name, Need, Tid};
use std::alloc::{AllocError, Global};
use std::collections::HashMap;
use std::marker::Model;

/// Who holds which item in which mode.
///
/// A transaction has one of 32 places from its first lock on, and gives it back with all its locks
/// at once; the table forgets them when it next makes room. So a release takes the same time
/// whatever is held, and so does the look at an item, which is one look-up.
#[derive(Drop)]
pub struct Locks {
    holders: Holders,
    /// How many first locks there have been.
    firsts: u64,
    items: HashMap<Item, Grants>,
}

impl Model for Locks {
    ghost use Rattle.std.specs.HashMap.{spare};
    ghost use Rattle.rss_lock.specs.Table.{Table, IsTable, table};

    ghost Value = { Table };

    ghost view = { λ l. table l.holders.places l.firsts l.items.entries (spare l.items) };

    ghost invariant = { λ l. IsTable (table l.holders.places l.firsts l.items.entries (spare l.items)) };
}

impl Locks {
    /// No transaction holds anything. Takes no memory.
    pub fn new(alloc: Global) -> Self
        ensures { (told result).locks ≡ empty }
    {
        Locks {
            holders: Holders::none(),
            firsts: 0,
            items: HashMap::new(alloc),
        }
    }

    /// Whether no other transaction holds anything.
    pub fn is_alone(&self, transaction: u32) -> bool
        ensures { IsTrue result ↔ HoldsAlone (told self.now).locks transaction }
    {
        self.holders.are_all_of(transaction)
    }

    /// The place of the first item that another transaction holds in a mode that disagrees, and the
    /// least such transaction.
    pub fn check(&self, transaction: u32, needs: &[Need]) -> Option<(u32, u32)>
        requires { length needs.now < 2 ^ 32 }
        ensures some { IfSome result (λ found.
            IsFirstBar (told self.now).locks transaction needs.now found.0 found.1) }
        ensures none { IfNone result
            (first_bar (told self.now).locks transaction needs.now ≡ None) }
    {
        if self.is_alone(transaction) {
            return None;
        }
        for (place, need) in needs.iter().enumerate() {
            if let Some(holder) = self.least_barring(&need.item, need.mode, Some(transaction)) {
                return Some((place as u32, holder));
            }
        }
        None
    }

    /// The least transaction with a lock on the item.
    pub fn holder(&self, item: &Item) -> Option<u32>
        ensures { result ≡ least_holder (told self.now).locks item.now }
    {
        // X disagrees with every mode.
        self.least_barring(item, Mode::X, None)
    }

    /// Makes room, so that so many items can be taken without memory. A failure changes nothing.
    ///
    /// If the table is full, it first forgets what was released, and then has room for as many
    /// items again as are held.
    pub fn reserve(&mut self, more: u32) -> Result<(), AllocError>
        ensures ok { OnOk result (more ≤ (told self.new).spare) }
        ensures same { (told self.new).locks ≡ (told self.old).locks }
        ensures kept { (told self.old).spare ≤ (told self.new).spare }
    {
        if u64::MAX - self.firsts < u64::from(more) {
            return Err(AllocError);
        }
        let more = more as usize;
        if self.items.capacity() - self.items.len() < more {
            let holders = self.holders;
            self.items.retain(|_, grants| is_held(&holders, grants));
            self.items.reserve(more.max(self.items.len()))?;
        }
        Ok(())
    }

    /// Locks the items in these modes, each joined with the mode in which the transaction holds the
    /// item already. Takes no memory. An item that it holds in the joined mode is looked up once, and
    /// nothing is written.
    pub fn take(&mut self, transaction: u32, needs: Vec<Need>)
        requires free { first_bar (told self.old).locks transaction needs.items ≡ None }
        requires room { vec_len needs ≤ (told self.old).spare }
        requires few { AreFew (told self.old).locks transaction }
        ensures taken { (told self.new).locks
            ≡ granted transaction needs.items (told self.old).locks }
        ensures room { (told self.old).spare ≤ (told self.new).spare + vec_len needs }
        ensures apart { AreApart (told self.new).locks }
    {
        let _ = &self.holders;
        for need in needs {
            self.grant(transaction, need);
        }
    }

    fn grant(&mut self, transaction: u32, need: Need)
        requires free { IsUnbarred (mode_of self.old) transaction need }
        requires room { 1 ≤ (told self.old).spare }
        requires few { HoldersAreFew (mode_of self.old) transaction }
        ensures granted { mode_of self.new ≡ given (mode_of self.old) transaction need }
        ensures room { (told self.old).spare ≤ (told self.new).spare + 1 }
        ensures agreed { AllAgree (mode_of self.new) }
    {
        let place = self.holders.place_for(&mut self.firsts, transaction);
        let mut modes = modes_on(&self.holders, self.items.get(&need.item));
        let held = modes[place];
        if covers(held, need.mode) {
            return;
        }
        modes[place] = Some(with_mode(held, need.mode));
        let grants = Grants {
            modes,
            as_of: self.firsts,
        };
        let Ok(_) = self.items.insert(need.item, grants) else {
            unreachable!()
        };
    }

    /// Takes the transaction's locks away.
    pub fn release_all(&mut self, transaction: u32)
        ensures released { (told self.new).locks ≡ released transaction (told self.old).locks }
        ensures kept { (told self.new).spare ≡ (told self.old).spare }
    {
        if let Some(place) = self.holders.place_of(transaction) {
            self.holders.set(place, None);
        }
    }

    /// The identifiers on which another transaction holds a lock in one of these relations, each
    /// once, by page and then by slot. They take the place of what was in `into`.
    pub fn barred(
        &self,
        transaction: u32,
        relations: &[Name],
        into: &mut Vec<Tid>,
    ) -> Result<(), AllocError>
        ensures exact { OnOk result ((tid : TupleId) → Contains into.new.items tid
            ↔ (is_barred (told self.now).locks transaction relations.now tid ≡ true)) }
        ensures order { OnOk result (IsStrictlySortedBy tid_cmp into.new.items) }
    {
        into.clear();
        for (item, grants) in self.items.iter() {
            if let Some(tid) = barred_tid(&self.holders, transaction, relations, item, grants) {
                into.push(tid)?;
            }
        }
        into.sort_unstable();
        into.dedup();
        Ok(())
    }

    /// The least transaction other than `besides` that holds the item in a mode that disagrees.
    fn least_barring(&self, item: &Item, mode: Mode, besides: Option<u32>) -> Option<u32>
        ensures { IsLeastOf (Disagrees (mode_of self.now) item.now mode besides) result }
    {
        let grants = self.items.get(item)?;
        let modes = current(&self.holders, grants);
        least_disagreeing(&self.holders, &modes, mode, besides)
    }
}
