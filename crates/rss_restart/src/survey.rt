// What a restart is to undo and what it is to do again.
ghost use Rattle.std.specs.Prelude.{◌≡◌, ◌≤◌, All, Err, IfOk, IsErrOf, List};
ghost use Rattle.rss_base.specs.Listings.{Listing};
ghost use Rattle.rss_base.specs.declared.fault.PageFault.TheVariants.{Damaged};
ghost use Rattle.rss_base.specs.declared.fault.PageFault.TheVariants.{Device as DeviceFailed};
ghost use Rattle.rss_base.specs.declared.place.Place.{Place};
ghost use Rattle.rss_model.specs.Meanings.{Logged};
ghost use Rattle.rss_restart.specs.Events.{redone_in, undone_in};
ghost use Rattle.rss_restart.specs.Surveys.{IsChangeAt, IsLogOf, IsLogPlace, Surveys};

use crate::survey::bounds::Bounds;
use crate::survey::reading::read_records;
use crate::survey::walk::{Placed, kept_changes, lost, turned};
use rss_base::PageFault;
use rss_log::Log;
use std::alloc::{AllocError, Global};

mod bounds;
mod reading;
mod walk;

/// What a restart is to undo and what it is to do again, by positions in the log.
#[derive(Drop)]
pub(crate) struct Found {
    /// The newest first.
    pub(crate) undone: Vec<u64>,
    /// In the order of the log.
    pub(crate) redone: Vec<u64>,
}

/// Looks through a log, whose last Checkpoint record begins at this position, for what is to be
/// undone of the changes before it, and done again of those after it. Its time and its memory grow
/// with the count of records. It touches no page.
///
/// If no record begins at a position of the log, it is `Damaged` there; if a record before the
/// checkpoint goes beyond it, at the checkpoint. Whether a Checkpoint record stands there isn't
/// tested.
pub(crate) fn survey(alloc: Global, log: &Log, checkpoint: u64) -> Result<Found, PageFault>
    requires low { log.now.head ≤ checkpoint }
    requires high { checkpoint ≤ log.now.end }
    ensures finds { IfOk result (λ found. (listing : Listing) (older newer : List Logged)
        → IsLogOf listing log.now checkpoint older newer
        → Surveys older newer found.undone.items found.redone.items) }
    ensures undone { IfOk result (λ found. All (IsChangeAt log.now) found.undone.items) }
    ensures redone { IfOk result (λ found. All (IsChangeAt log.now) found.redone.items) }
    ensures sound { (place : Place) → result ≡ Err (Damaged place)
        → (listing : Listing) (older newer : List Logged)
        → IsLogOf listing log.now checkpoint older newer → ⊥ }
    ensures place { (place : Place) → result ≡ Err (Damaged place) → IsLogPlace log.now place }
    ensures device { IsErrOf result DeviceFailed → ⊥ }
{
    let older = read_records(alloc, log, log.head(), checkpoint)?;
    let newer = read_records(alloc, log, checkpoint, log.end())?;
    match decide(alloc, older.as_slice(), newer.as_slice()) {
        Ok(found) => Ok(found),
        Err(_) => Err(PageFault::NoMemory),
    }
}

/// What is to be undone of the changes before a checkpoint, and done again of those after it.
fn decide(alloc: Global, older: &[Placed], newer: &[Placed]) -> Result<Found, AllocError>
    ensures undone { IfOk result (λ found.
        found.undone.items ≡ undone_in older.now newer.now) }
    ensures redone { IfOk result (λ found. found.redone.items ≡ redone_in newer.now) }
{
    let mut surviving = Bounds::of_survival(alloc);
    let survivors = kept_changes(alloc, newer, &mut surviving)?;
    let redone = turned(alloc, survivors.as_slice())?;
    let mut listed = Bounds::of_lists(alloc);
    let saved = kept_changes(alloc, older, &mut listed)?;
    let undone = lost(alloc, saved.as_slice(), &surviving)?;
    Ok(Found { undone, redone })
}
