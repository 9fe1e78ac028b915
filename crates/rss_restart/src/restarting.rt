// Restart: what is undone, and what is done again.
ghost use Rattle.std.specs.Prelude.{◌≡◌, ℕ, ◌≤◌, length, map, take, List, All, IfSome, IfNone, Err, OnOk};
ghost use Rattle.rss_base.specs.DiskRule.{IsTold};
ghost use Rattle.rss_base.specs.declared.fault.PageFault.TheVariants.{Damaged};
ghost use Rattle.rss_base.specs.declared.place.Place.{Place as AnyPlace};
ghost use Rattle.rss_model.specs.Meanings.{Logged};
ghost use Rattle.rss_access.specs.Changes.{both, CanAlter, Makes};
ghost use Rattle.rss_restart.specs.Restarting.{Recovered, NoneRecovered, RestartPasses};
ghost use Rattle.rss_restart.specs.Surveys.{IsChangeAt, IsLogOf};
ghost use Rattle.rss_restart.specs.Walks.{turn, directed, recorded, TellsAt, TellsNone, StepsTo, NoStep};
ghost use Rattle.rss_restart.specs.Walks.{Leads, NoWalk, Walks, Counted, turns_in};

use crate::survey::survey;
use rss_access::{apply, undo};
use rss_base::{Change, LogRecord, PageFault, Pages, Place};
use rss_catalog::Catalog;
use rss_log::Log;
use rss_tuple::Store;
use std::alloc::Global;

/// Which way a change is made.
#[derive(Clone, Copy)]
enum Way {
    /// It is undone.
    Back,
    /// It is done again.
    Again,
}

/// Brings the pages, which have the tables of a log's last checkpoint, to the tables that the log
/// recovers. It undoes what was listed at the checkpoint and doesn't survive, the newest first.
/// Then it does again what survives after it, in the order of the log: changes of tuples and of
/// chains.
///
/// A record is `Damaged` at its position if it is out of form, or tells no change though one is to
/// be made. So it is if its change isn't found as it is told, or there is no room for it. Whether a
/// Checkpoint record stands at `checkpoint` isn't tested. After such a fault, or one of the device,
/// some of the changes are made; if memory ran out, none is.
pub fn restart<P: Pages>(
    alloc: Global,
    tuples: &mut Store<P>,
    catalog: &mut Catalog,
    log: &Log,
    checkpoint: u64,
) -> Result<(), PageFault>
    requires may { CanAlter (both (P.view tuples.old.pages) catalog.old) }
    requires low { log.now.head ≤ checkpoint }
    requires high { checkpoint ≤ log.now.end }
    ensures recovers { OnOk result (Recovered log.now checkpoint
        (both (P.view tuples.old.pages) catalog.old) (both (P.view tuples.new.pages) catalog.new)) }
    ensures counted { OnOk result ((older newer : List Logged)
        → IsLogOf catalog.old.listing log.now checkpoint older newer
        → Counted log.now (turns_in older newer) catalog.old catalog.new) }
    ensures sound { (place : AnyPlace) → result ≡ Err (Damaged place)
        → IsTold (P.view tuples.old.pages).disk
        → NoneRecovered log.now checkpoint (both (P.view tuples.old.pages) catalog.old) }
    ensures still { OnOk result (CanAlter (both (P.view tuples.new.pages) catalog.new)) }
    ensures did { RestartPasses log.now checkpoint (both (P.view tuples.old.pages) catalog.old)
        (both (P.view tuples.new.pages) catalog.new) result }
{
    let found = survey(alloc, log, checkpoint)?;
    walk(tuples, catalog, log, &found.undone, Way::Back)?;
    walk(tuples, catalog, log, &found.redone, Way::Again)
}

/// Makes the changes at these positions, one after another.
fn walk<P: Pages>(
    tuples: &mut Store<P>,
    catalog: &mut Catalog,
    log: &Log,
    positions: &[u64],
    way: Way,
) -> Result<(), PageFault>
    requires may { CanAlter (both (P.view tuples.old.pages) catalog.old) }
    requires within { All (IsChangeAt log.now) positions.now }
    ensures leads { OnOk result (Leads log.now (map (turn way) positions.now)
        (both (P.view tuples.old.pages) catalog.old) (both (P.view tuples.new.pages) catalog.new)) }
    ensures counted { OnOk result
        (Counted log.now (map (turn way) positions.now) catalog.old catalog.new) }
    ensures sound { (place : AnyPlace) → result ≡ Err (Damaged place)
        → IsTold (P.view tuples.old.pages).disk
        → NoWalk log.now (map (turn way) positions.now)
        (both (P.view tuples.old.pages) catalog.old) }
    ensures still { OnOk result (CanAlter (both (P.view tuples.new.pages) catalog.new)) }
    ensures did { Walks log.now (length positions.now) (both (P.view tuples.old.pages) catalog.old)
        (both (P.view tuples.new.pages) catalog.new) result }
{
    for position in positions {
        make(tuples, catalog, log, *position, way)?;
    }
    Ok(())
}

/// Makes the change at a position.
fn make<P: Pages>(
    tuples: &mut Store<P>,
    catalog: &mut Catalog,
    log: &Log,
    position: u64,
    way: Way,
) -> Result<(), PageFault>
    requires may { CanAlter (both (P.view tuples.old.pages) catalog.old) }
    requires low { log.now.head ≤ position }
    requires high { position ≤ log.now.end }
    ensures steps { OnOk result (StepsTo log.now (turn way position)
        (both (P.view tuples.old.pages) catalog.old) (both (P.view tuples.new.pages) catalog.new)) }
    ensures still { OnOk result (CanAlter (both (P.view tuples.new.pages) catalog.new)) }
    ensures sound { (place : AnyPlace) → result ≡ Err (Damaged place)
        → IsTold (P.view tuples.old.pages).disk
        → NoStep log.now (turn way position) (both (P.view tuples.old.pages) catalog.old) }
    ensures did { Walks log.now 1 (both (P.view tuples.old.pages) catalog.old)
        (both (P.view tuples.new.pages) catalog.new) result }
{
    let damaged = PageFault::Damaged(Place::Log(position));
    let Some(change) = change_at(log, position) else {
        return Err(damaged);
    };
    match direct(tuples, catalog, &change, way) {
        Ok(()) => Ok(()),
        Err(fault) => Err(at_record(fault, position)),
    }
}

/// Undoes a change, or does it again.
fn direct<P: Pages>(
    tuples: &mut Store<P>,
    catalog: &mut Catalog,
    change: &Change,
    way: Way,
) -> Result<(), PageFault>
    requires may { CanAlter (both (P.view tuples.old.pages) catalog.old) }
    ensures { Makes (directed way change.now) (both (P.view tuples.old.pages) catalog.old)
        (both (P.view tuples.new.pages) catalog.new) result }
{
    match way {
        Way::Back => undo(tuples, catalog, change),
        Way::Again => apply(tuples, catalog, change),
    }
}

/// A fault of a change: what is damaged is the record that tells it.
fn at_record(fault: PageFault, position: u64) -> PageFault
    ensures { result ≡ recorded position fault }
{
    match fault {
        PageFault::Device => PageFault::Device,
        PageFault::Damaged(_) => PageFault::Damaged(Place::Log(position)),
        PageFault::NoMemory => PageFault::NoMemory,
    }
}

/// The change whose record begins at a position.
pub fn change_at(log: &Log, position: u64) -> Option<Change>
    requires low { log.now.head ≤ position }
    requires high { position ≤ log.now.end }
    ensures some { IfSome result (TellsAt log.now position) }
    ensures none { IfNone result (TellsNone log.now position) }
{
    let (LogRecord::Change(_, change), _) = log.try_at(position)? else {
        return None;
    };
    Some(change)
}
