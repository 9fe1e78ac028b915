// Tables whose calls are made only where they may be.
ghost use Rattle.std.specs.Prelude.{◌<◌};
ghost use Rattle.rss_lock.specs.Table.{told};
ghost use Rattle.rss_tables_rows.specs.Few.{HeldBelow};

use rss_base::{Item, Key, Name, Need, Tid};
use rss_lock::Locks;
use rss_scan::{Cursor, Path, Scans};
use rss_trans::{Open, Sums};
use std::alloc::Global;
use std::test::Fail;

/// How many transactions there are at most, numbered from 0.
pub(crate) const TRANSACTIONS: u32 = 32;

/// A name that begins with this byte, and has no other.
pub(crate) fn name(first: u8) -> Name {
    let mut bytes = [0u8; 16];
    bytes[0] = first;
    Name { bytes }
}

/// A lock table of these transactions.
#[derive(Drop)]
pub(crate) struct LockTable {
    locks: Locks,
    ghost few: { HeldBelow (told locks).locks },
}

impl LockTable {
    pub(crate) fn new(alloc: Global) -> Self {
        LockTable {
            locks: Locks::new(alloc),
        }
    }

    pub(crate) fn check(
        &self,
        transaction: u32,
        needs: &[Need],
    ) -> Result<Option<(u32, u32)>, Fail> {
        if needs.len() > 1000 {
            return Err("too many needs".into());
        }
        Ok(self.locks.check(transaction, needs))
    }

    pub(crate) fn take(&mut self, transaction: u32, needs: Vec<Need>) -> Result<(), Fail> {
        if transaction >= TRANSACTIONS || needs.len() > 1000 {
            return Err("too many".into());
        }
        if self.locks.check(transaction, &needs).is_some() {
            return Err("what is barred was taken".into());
        }
        self.locks.reserve(needs.len() as u32)?;
        self.locks.take(transaction, needs);
        Ok(())
    }

    pub(crate) fn release_all(&mut self, transaction: u32) {
        self.locks.release_all(transaction);
    }

    pub(crate) fn holder(&self, item: &Item) -> Option<u32> {
        self.locks.holder(item)
    }

    pub(crate) fn barred(
        &self,
        alloc: Global,
        transaction: u32,
        relations: &[Name],
    ) -> Result<Vec<Tid>, Fail> {
        let mut tids = Vec::new(alloc);
        self.locks.barred(transaction, relations, &mut tids)?;
        Ok(tids)
    }
}

/// Opens a transaction.
pub(crate) fn begin(open: &mut Open, transaction: u32) -> Result<(), Fail> {
    if open.is_open(transaction) || open.count() >= TRANSACTIONS {
        return Err("a transaction that can't begin".into());
    }
    open.begin(transaction)?;
    Ok(())
}

/// Makes room for a change, and notes it.
pub(crate) fn note(
    open: &mut Open,
    transaction: u32,
    position: u64,
    relation: Option<u8>,
    delete: bool,
) -> Result<(), Fail> {
    if !open.is_open(transaction) {
        return Err("no open transaction".into());
    }
    open.reserve(transaction)?;
    open.note(transaction, position, relation, delete);
    Ok(())
}

pub(crate) fn save(open: &mut Open, transaction: u32) -> Result<u32, Fail> {
    if !open.is_open(transaction) || open.saves(transaction) >= 1000 {
        return Err("no save point can be set".into());
    }
    Ok(open.save(transaction)?)
}

pub(crate) fn saves(open: &Open, transaction: u32) -> Result<u32, Fail> {
    if !open.is_open(transaction) {
        return Err("no open transaction".into());
    }
    Ok(open.saves(transaction))
}

pub(crate) fn newest(open: &Open, transaction: u32, save: u32) -> Result<Option<u64>, Fail> {
    if !open.is_open(transaction) || save > open.saves(transaction) {
        return Err("no save point".into());
    }
    Ok(open.newest(transaction, save))
}

pub(crate) fn take_newest(open: &mut Open, transaction: u32) -> Result<(), Fail> {
    if !open.is_open(transaction) || open.newest(transaction, 0).is_none() {
        return Err("no change".into());
    }
    open.take_newest(transaction);
    Ok(())
}

pub(crate) fn cut(open: &mut Open, transaction: u32, save: u32) -> Result<(), Fail> {
    if !open.is_open(transaction) || save > open.saves(transaction) {
        return Err("no save point".into());
    }
    open.cut(transaction, save);
    Ok(())
}

pub(crate) fn gone(open: &mut Open, transaction: u32) -> Result<(), Fail> {
    if !open.is_open(transaction) {
        return Err("no open transaction".into());
    }
    open.gone(transaction);
    Ok(())
}

/// A scan of a transaction gives a tuple.
pub(crate) fn gave(
    scans: &mut Scans,
    transaction: u32,
    scan: u32,
    key: &Key,
    tid: Tid,
) -> Result<(), Fail> {
    if scans.get(transaction, scan).is_none() {
        return Err("no such scan".into());
    }
    scans.gave(scan, key, tid);
    Ok(())
}

pub(crate) fn close(scans: &mut Scans, transaction: u32, scan: u32) -> Result<(), Fail> {
    if scans.get(transaction, scan).is_none() {
        return Err("no such scan".into());
    }
    scans.close(scan);
    Ok(())
}
