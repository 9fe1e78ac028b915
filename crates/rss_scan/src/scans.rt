// The table of open scans.
ghost use Rattle.std.specs.Prelude.{◌≡◌, ◌↔◌, ◌<◌, ℕ, None, Some, IsSome, IsTrue, IfNone, IfOk, IfSome, length};
ghost use Rattle.std.specs.Prelude.{option_copied, slice_index_or};
ghost use Rattle.std.specs.FinMap.{empty, get, insert, len, remove};
ghost use Rattle.rss_model.specs.Scans.{scans_most};
ghost use Rattle.rss_scan.specs.declared.cursor.Scan.{Scan as OpenScan};
ghost use Rattle.rss_scan.specs.Scans.{IsLeastFree, begun, closed_for, cursor_in, cursor_of};
ghost use Rattle.rss_scan.specs.Scans.{given, is_of, told};

use crate::cursor::{Cursor, Path, Scan};
use rss_base::{Key, Tid};
use std::alloc::{AllocError, Global};
use std::marker::Model;

/// How many scans may be open at a time. They are numbered from 0.
pub const SCANS_MOST: usize = 256;

/// The open scans, by their numbers.
#[derive(Drop)]
pub struct Scans {
    scans: Vec<Option<Scan>>,
}

impl Model for Scans {
    ghost use Rattle.std.specs.Prelude.{◌≡◌, List, Option, length};
    ghost use Rattle.rss_scan.specs.declared.cursor.Scan.{Scan as OpenScan};

    ghost Value = { List (Option OpenScan) };

    ghost view = { λ s. s.scans.items };

    ghost invariant = { λ s. length s.scans.items ≡ 256 };
}

impl Scans {
    /// No scan is open. The one call that takes memory.
    pub fn new(alloc: Global) -> Result<Self, AllocError>
        ensures { IfOk result (λ scans. told scans ≡ empty) }
    {
        let mut scans = Vec::with_capacity(alloc, SCANS_MOST)?;
        for _ in 0..SCANS_MOST {
            scans.push_reserved(None);
        }
        Ok(Scans { scans })
    }

    /// Opens a scan that has given nothing, under the least number that isn't in use; none if 256
    /// are open.
    pub fn add(&mut self, transaction: u32, path: Path) -> Option<u32>
        ensures least { IfSome result (IsLeastFree (told self.old)) }
        ensures added { IfSome result (λ number.
            told self.new ≡ insert (told self.old) number (begun transaction path)) }
        ensures full { IfNone result (len (told self.old) ≡ scans_most) }
        ensures same { IfNone result (told self.new ≡ told self.old) }
    {
        let number = free_place(&self.scans)?;
        self.scans[number] = Some(Scan {
            owner: transaction,
            cursor: Cursor { path, last: None },
        });
        Some(number as u32)
    }

    /// The scan `scan`, if it is the transaction's.
    pub fn get(&self, transaction: u32, scan: u32) -> Option<&Cursor>
        ensures { option_copied result ≡ cursor_of (told self.now) transaction scan }
    {
        cursor_at(&self.scans, scan, transaction)
    }

    /// The scan gave this pair last.
    pub fn gave(&mut self, scan: u32, key: &Key, tid: Tid)
        requires { IsSome (get (told self.old) scan) }
        ensures { (was : OpenScan) → get (told self.old) scan ≡ Some was
            → told self.new ≡ insert (told self.old) scan (given key.now tid was) }
    {
        let Some(open) = &mut self.scans[scan as usize] else {
            unreachable!()
        };
        open.cursor.last = Some((copy_of(key), tid));
    }

    /// Whether as many scans are open as may be.
    pub fn is_full(&self) -> bool
        ensures { IsTrue result ↔ (len (told self.now) ≡ scans_most) }
    {
        free_place(&self.scans).is_none()
    }

    pub fn close(&mut self, scan: u32)
        requires { IsSome (get (told self.old) scan) }
        ensures { told self.new ≡ remove (told self.old) scan }
    {
        self.scans[scan as usize] = None;
    }

    /// Closes all scans of a transaction.
    pub fn close_all(&mut self, transaction: u32)
        ensures { told self.new ≡ closed_for transaction (told self.old) }
    {
        for scan in self.scans.iter_mut() {
            if is_of(scan, transaction) {
                *scan = None;
            }
        }
    }
}

/// The first place that has no scan.
fn free_place(scans: &[Option<Scan>]) -> Option<usize>
    ensures within { IfSome result (λ place. place < length scans.now) }
    ensures free { IfSome result (λ place. slice_index_or scans.now place None ≡ None) }
    ensures least { IfSome result (λ place. (k : ℕ) → k < place
        → IsSome (slice_index_or scans.now k None)) }
    ensures full { IfNone result ((k : ℕ) → k < length scans.now
        → IsSome (slice_index_or scans.now k None)) }
{
    scans.iter().position(|scan| scan.is_none())
}

/// The cursor of the scan in a place, if it is the transaction's.
fn cursor_at(scans: &[Option<Scan>], place: u32, transaction: u32) -> Option<&Cursor>
    ensures { option_copied result
        ≡ cursor_in transaction (slice_index_or scans.now place None) }
{
    match scans.get(place as usize) {
        Some(Some(open)) if open.owner == transaction => Some(&open.cursor),
        _ => None,
    }
}

fn is_of(scan: &Option<Scan>, transaction: u32) -> bool
    ensures { result ≡ is_of transaction scan.now }
{
    match scan {
        Some(open) => open.owner == transaction,
        None => false,
    }
}

fn copy_of(key: &Key) -> Key
    ensures { result ≡ key.now }
{
    let mut copy = Key::new();
    copy.extend_from_slice(key.as_slice());
    copy
}
