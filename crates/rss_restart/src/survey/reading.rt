// The records of a log, read from one position up to another.
ghost use Rattle.std.specs.Prelude.{◌≡◌, ◌<◌, ◌≤◌, Err, IfErr, IfOk, List};
ghost use Rattle.rss_base.specs.LogRecords.{Placed as PlacedRecord};
ghost use Rattle.rss_base.specs.declared.fault.PageFault.TheVariants.{Damaged as PageDamaged};
ghost use Rattle.rss_base.specs.declared.place.Place.{Place as AnyPlace};
ghost use Rattle.rss_restart.specs.Reading.{Finds, IsBroken, IsReadFault, Reads, Stand, event_told};

use crate::survey::bounds::Event;
use crate::survey::walk::Placed;
use rss_base::{LogRecord, PageFault, Place};
use rss_log::Log;
use std::alloc::Global;

/// Reads the records from one position up to another. It is `Damaged` at a position at which no
/// record begins, and at the other position if a record goes beyond it.
pub(crate) fn read_records(
    alloc: Global,
    log: &Log,
    from: u64,
    until: u64,
) -> Result<Vec<Placed>, PageFault>
    requires low { log.now.head ≤ from }
    requires order { from ≤ until }
    requires high { until ≤ log.now.end }
    ensures read { IfOk result (λ events. Reads log.now from until events.items) }
    ensures sound { (place : AnyPlace) → result ≡ Err (PageDamaged place)
        → (ps : List PlacedRecord) → Stand log.now from ps until → ⊥ }
    ensures fault { IfErr result (IsReadFault log.now) }
{
    let mut events = Vec::new(alloc);
    let mut at = from;
    while at < until {
        let (event, next) = next_record(log, at, until)?;
        if events.push(event).is_err() {
            return Err(PageFault::NoMemory);
        }
        at = next;
    }
    Ok(events)
}

/// The record that begins at a position and ends at another one at most, and the position after it.
/// It takes no memory. Its one error is damage: at the position where no record begins, and at the
/// other one if a record goes beyond it.
fn next_record(log: &Log, at: u64, until: u64) -> Result<(Placed, u64), PageFault>
    requires low { log.now.head ≤ at }
    requires some { at < until }
    requires high { until ≤ log.now.end }
    ensures found { IfOk result (λ found. Finds log.now at found.1 found.0) }
    ensures within { IfOk result (λ found. found.1 ≤ until) }
    ensures later { IfOk result (λ found. at < found.1) }
    ensures sound { IfErr result (λ fault.
        (ps : List PlacedRecord) → Stand log.now at ps until → ⊥) }
    ensures fault { IfErr result (IsBroken log.now at until) }
{
    let Some((found, next)) = log.try_at(at) else {
        return Err(PageFault::Damaged(Place::Log(at)));
    };
    if until < next {
        return Err(PageFault::Damaged(Place::Log(until)));
    }
    let event = event_of(&found);
    Ok((Placed { at, event }, next))
}

fn event_of(found: &LogRecord) -> Event
    ensures { result ≡ event_told found.now }
{
    match found {
        LogRecord::Change(by, _) => Event::Change(*by),
        LogRecord::Restore(by, position) => Event::Restore(*by, *position),
        LogRecord::End(by) => Event::End(*by),
        LogRecord::Abort(by) => Event::Abort(*by),
        LogRecord::Checkpoint(_) => Event::Checkpoint,
    }
}
