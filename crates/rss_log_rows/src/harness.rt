// Calls that are made only where they may be.
ghost use Rattle.std.specs.Prelude.{◌≡◌, IsTrue, IfOk, IfSome, length};
ghost use Rattle.rss_base.specs.LogRecords.{record_size, IsBounded, IsChangeBounded, HasSlot, IsShort};

use rss_base::{Body, Change, Device, LogRecord, OpenFault, Page, Tail, Tid};
use rss_log::Log;
use rss_record::{RECORD_BYTES, write_record};
use std::alloc::Global;
use std::test::Fail;

/// How many bytes of values a record has at most.
pub(crate) const VALUES_MOST: usize = 2048;

fn is_short(values: &Body) -> bool
    ensures { IsTrue result → IsShort values.now }
{
    values.as_slice().len() <= VALUES_MOST
}

fn is_slot(tid: Tid) -> bool
    ensures { IsTrue result → HasSlot tid }
{
    tid.slot < 128
}

fn is_place(place: Option<Tid>) -> bool
    ensures { IsTrue result → IfSome place HasSlot }
{
    match place {
        None => true,
        Some(tid) => is_slot(tid),
    }
}

fn is_change_bounded(change: &Change) -> bool
    ensures { IsTrue result → IsChangeBounded change.now }
{
    match change {
        Change::Insert { tid, values, .. } => is_slot(*tid) && is_short(values),
        Change::Delete { tid, values, .. } => is_slot(*tid) && is_short(values),
        Change::Update { tid, from, to, .. } => is_slot(*tid) && is_short(from) && is_short(to),
        Change::Connect {
            parent,
            child,
            left,
            ..
        } => is_place(*parent) && is_slot(*child) && is_place(*left),
        Change::Disconnect {
            parent,
            child,
            left,
            ..
        } => is_place(*parent) && is_slot(*child) && is_place(*left),
    }
}

/// Whether a record can be spelled.
pub(crate) fn is_bounded(record_value: &LogRecord) -> bool
    ensures { IsTrue result → IsBounded record_value.now }
{
    match record_value {
        LogRecord::Change(_, change) => is_change_bounded(change),
        LogRecord::Checkpoint(marks) => marks.as_slice().len() <= 32,
        LogRecord::Restore(_, _) => true,
        LogRecord::End(_) => true,
        LogRecord::Abort(_) => true,
    }
}

/// The bytes of a record.
pub(crate) fn bytes_of(alloc: Global, record_value: &LogRecord) -> Result<Vec<u8>, Fail>
    ensures bounded { IfOk result (λ _. IsBounded record_value.now) }
    ensures size { IfOk result (λ bytes. length bytes.items ≡ record_size record_value.now) }
{
    if !is_bounded(record_value) {
        return Err("no such record".into());
    }
    let mut into = [0u8; RECORD_BYTES];
    let size = write_record(record_value, &mut into) as usize;
    Ok(Vec::from_slice(alloc, &into[..size])?)
}

/// A body of these bytes.
pub(crate) fn body_of(bytes: &[u8]) -> Result<Body, Fail> {
    if bytes.len() > VALUES_MOST {
        return Err("too many bytes".into());
    }
    let mut body = Body::new();
    body.extend_from_slice(bytes);
    Ok(body)
}

/// Appends a record, if it has room.
pub(crate) fn append(
    alloc: Global,
    log: &mut Log,
    record_value: &LogRecord,
) -> Result<Option<u64>, Fail> {
    let size = bytes_of(alloc, record_value)?.len() as u64;
    if log.free() < size || log.end().checked_add(size).is_none() {
        return Ok(None);
    }
    Ok(Some(log.append(record_value)))
}

/// The record at a position from head to end, and the position after it.
pub(crate) fn try_at(log: &Log, position: u64) -> Result<Option<(LogRecord, u64)>, Fail> {
    if position < log.head() || position > log.end() {
        return Err("no position of the log".into());
    }
    Ok(log.try_at(position))
}

pub(crate) fn set_head(log: &mut Log, head: u64) -> Result<(), Fail> {
    if head < log.head() || head > log.end() {
        return Err("no position of the log".into());
    }
    log.set_head(head);
    Ok(())
}

/// A full piece, if it is kept.
pub(crate) fn piece(log: &Log, number: u64, into: &mut Page) -> Result<(), Fail> {
    if number < log.head() / 4000 || number >= log.end() / 4000 {
        return Err("no full piece of the log".into());
    }
    log.pieces(number, into);
    Ok(())
}

/// Loads a log whose pages are the last of a device, if its numbers are those of a log.
pub(crate) fn load<D: Device>(
    alloc: Global,
    device: &mut D,
    pages: u32,
    head: u64,
    end: u64,
    tail: &Tail,
) -> Result<Result<Log, OpenFault>, Fail> {
    let size = device.size()?;
    let room = (u64::from(pages) + 1) * 4000;
    let held = tail.as_slice().len() as u64 == end % 4000;
    if pages < 1 || pages > 4096 || size < u64::from(pages) || head > end || !held {
        return Err("no log".into());
    }
    if end - head / 4000 * 4000 >= room {
        return Err("no log".into());
    }
    let first = size - u64::from(pages);
    Ok(Log::load(alloc, device, first, pages, head, end, tail))
}
