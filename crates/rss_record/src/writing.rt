// Records, written as bytes.
ghost use Rattle.std.specs.Prelude.{◌≡◌, ◌+◌, ◌≤◌, ◌++◌, [], ◌∷◌, length, drop, IfSome};
ghost use Rattle.std.specs.Int.{w16, w32, w64, to_be_bytes};
ghost use Rattle.std.specs.List.{AllByRecursion};
ghost use Rattle.rss_base.specs.LogRecords.{tid_bytes, place_bytes, sized_bytes, marks_bytes, tuple_bytes, chain_bytes, change_bytes, record_bytes, record_size, IsShort, HasPage, IsChangeBounded, IsBounded, IsSpellable, DoesChangeFit, DoesMarkFit, marks_most, longest_record};
ghost use Rattle.rss_base.specs.declared.log_record.LogRecord.{LogRecord as SomeRecord};
ghost use Rattle.rss_record.specs.Writing.{Puts};

use crate::kinds::{ABORT, CHECKPOINT, CONNECT, DELETE, DISCONNECT, END, INSERT, RESTORE, UPDATE};
use byteorder::{BigEndian, ByteOrder};
use rss_base::{Body, Change, LogRecord, Marks, Tid};

/// How many bytes hold any record.
pub const RECORD_BYTES: usize = 4400;

/// Bytes that hold any record.
pub type RecordBytes = [u8; RECORD_BYTES];

/// Writes a record to the front of a buffer, and answers its size. The rest of the buffer is as it
/// was. It takes no memory.
pub fn write_record(record_value: &LogRecord, into: &mut RecordBytes) -> u32
    requires { IsBounded record_value.now }
    ensures written { into.new
        ≡ record_bytes record_value.now ++ drop (record_size record_value.now) into.old }
    ensures size { result ≡ record_size record_value.now }
    ensures spellable { IsSpellable record_value.now }
    ensures within { result ≤ longest_record }
{
    let end = match record_value {
        LogRecord::Change(by, change) => put_change(into, *by, change),
        LogRecord::Restore(by, position) => put_restore(into, *by, *position),
        LogRecord::End(by) => put_head(into, END, *by),
        LogRecord::Abort(by) => put_head(into, ABORT, *by),
        LogRecord::Checkpoint(marks) => put_checkpoint(into, marks),
    };
    end as u32
}

fn put_restore(into: &mut RecordBytes, by: u32, position: u64) -> usize
    ensures written { Puts 0 (record_bytes (SomeRecord.Restore by position)) into.old into.new }
    ensures end { result ≡ 13 }
{
    let at = put_head(into, RESTORE, by);
    put_u64(into, at, position)
}

fn put_checkpoint(into: &mut RecordBytes, marks: &Marks) -> usize
    ensures written { Puts 0 (record_bytes (SomeRecord.Checkpoint marks.now)) into.old into.new }
    ensures end { result ≡ record_size (SomeRecord.Checkpoint marks.now) }
    ensures few { length marks.now ≤ marks_most }
    ensures fits { AllByRecursion DoesMarkFit marks.now }
{
    let marks = marks.as_slice();
    let mut end = put(into, 0, &[CHECKPOINT, marks.len() as u8]);
    for (by, position) in marks {
        end = put_u32(into, end, *by);
        end = put_u64(into, end, *position);
    }
    end
}

fn put_change(into: &mut RecordBytes, by: u32, change: &Change) -> usize
    requires { IsChangeBounded change.now }
    ensures written { Puts 0 (change_bytes by change.now) into.old into.new }
    ensures end { result ≡ length (change_bytes by change.now) }
    ensures within { result ≤ longest_record }
    ensures fits { DoesChangeFit change.now }
{
    match change {
        Change::Insert {
            relation,
            tid,
            values,
        } => put_tuple(into, INSERT, by, *relation, *tid, values),
        Change::Delete {
            relation,
            tid,
            values,
        } => put_tuple(into, DELETE, by, *relation, *tid, values),
        Change::Update {
            relation,
            tid,
            from,
            to,
        } => {
            let at = put_tuple(into, UPDATE, by, *relation, *tid, from);
            put_values(into, at, to)
        }
        Change::Connect {
            link,
            parent,
            child,
            left,
        } => put_chain(into, CONNECT, by, *link, *parent, *child, *left),
        Change::Disconnect {
            link,
            parent,
            child,
            left,
        } => put_chain(into, DISCONNECT, by, *link, *parent, *child, *left),
    }
}

/// Writes the record of a tuple, up to its first values.
fn put_tuple(
    into: &mut RecordBytes,
    kind: u8,
    by: u32,
    relation: u8,
    tid: Tid,
    values: &Body,
) -> usize
    requires { IsShort values.now }
    ensures written { Puts 0 (tuple_bytes kind by relation tid ++ sized_bytes values.now)
        into.old into.new }
    ensures end { result ≡ 14 + length values.now }
    ensures fits { HasPage tid }
{
    let at = put_head(into, kind, by);
    let at = put(into, at, &[relation]);
    let at = put_tid(into, at, tid);
    put_values(into, at, values)
}

fn put_chain(
    into: &mut RecordBytes,
    kind: u8,
    by: u32,
    link: u8,
    parent: Option<Tid>,
    child: Tid,
    left: Option<Tid>,
) -> usize
    ensures written { Puts 0 (chain_bytes kind by link parent child left) into.old into.new }
    ensures end { result ≡ 24 }
    ensures parent { IfSome parent HasPage }
    ensures child { HasPage child }
    ensures left { IfSome left HasPage }
{
    let at = put_head(into, kind, by);
    let at = put(into, at, &[link]);
    let at = put_place(into, at, parent);
    let at = put_tid(into, at, child);
    put_place(into, at, left)
}

/// Writes the kind of a record and its transaction.
fn put_head(into: &mut RecordBytes, kind: u8, by: u32) -> usize
    ensures written { Puts 0 (kind ∷ to_be_bytes w32 by) into.old into.new }
    ensures end { result ≡ 5 }
{
    let at = put(into, 0, &[kind]);
    put_u32(into, at, by)
}

/// Writes an identifier, or six bytes of 255 if there is none.
fn put_place(into: &mut RecordBytes, at: usize, place: Option<Tid>) -> usize
    requires { at + 6 ≤ RECORD_BYTES }
    ensures written { Puts at (place_bytes place) into.old into.new }
    ensures end { result ≡ at + 6 }
    ensures fits { IfSome place HasPage }
{
    match place {
        Some(tid) => put_tid(into, at, tid),
        None => put(into, at, &[u8::MAX; 6]),
    }
}

fn put_tid(into: &mut RecordBytes, at: usize, tid: Tid) -> usize
    requires { at + 6 ≤ RECORD_BYTES }
    ensures written { Puts at (tid_bytes tid) into.old into.new }
    ensures end { result ≡ at + 6 }
    ensures fits { HasPage tid }
{
    let at = put_u32(into, at, tid.page);
    put_u16(into, at, tid.slot)
}

/// Writes values after their length.
fn put_values(into: &mut RecordBytes, at: usize, values: &Body) -> usize
    requires short { IsShort values.now }
    requires room { at + 2 + length values.now ≤ RECORD_BYTES }
    ensures written { Puts at (sized_bytes values.now) into.old into.new }
    ensures end { result ≡ at + 2 + length values.now }
{
    let bytes = values.as_slice();
    let at = put_u16(into, at, bytes.len() as u16);
    put(into, at, bytes)
}

/// Writes a number in the two bytes from a place on, and answers the place after them.
fn put_u16(into: &mut RecordBytes, at: usize, number: u16) -> usize
    requires { at + 2 ≤ RECORD_BYTES }
    ensures written { Puts at (to_be_bytes w16 number) into.old into.new }
    ensures end { result ≡ at + 2 }
{
    BigEndian::write_u16(&mut into[at..at + 2], number);
    at + 2
}

/// The same in four bytes.
fn put_u32(into: &mut RecordBytes, at: usize, number: u32) -> usize
    requires { at + 4 ≤ RECORD_BYTES }
    ensures written { Puts at (to_be_bytes w32 number) into.old into.new }
    ensures end { result ≡ at + 4 }
{
    BigEndian::write_u32(&mut into[at..at + 4], number);
    at + 4
}

/// And in eight.
fn put_u64(into: &mut RecordBytes, at: usize, number: u64) -> usize
    requires { at + 8 ≤ RECORD_BYTES }
    ensures written { Puts at (to_be_bytes w64 number) into.old into.new }
    ensures end { result ≡ at + 8 }
{
    BigEndian::write_u64(&mut into[at..at + 8], number);
    at + 8
}

/// Writes bytes from a place on, and answers the place after them.
fn put(into: &mut RecordBytes, at: usize, bytes: &[u8]) -> usize
    requires { at + length bytes.now ≤ RECORD_BYTES }
    ensures written { Puts at bytes.now into.old into.new }
    ensures end { result ≡ at + length bytes.now }
{
    let end = at + bytes.len();
    into[at..end].copy_from_slice(bytes);
    end
}
