// The bytes of records.
use crate::harness::{body_of, bytes_of};
use rss_base::{Change, LogRecord, Marks, Tid};
use rss_images::{assert_same, assert_same_slices, assert_some};
use rss_record::read_record;
use std::alloc::Global;
use std::test::Fail;

const FIRST: Tid = Tid { page: 0, slot: 0 };

const TID: Tid = Tid { page: 1, slot: 2 };

const LAST: Tid = Tid { page: 5, slot: 127 };

/// A record, and its bytes.
#[derive(Drop)]
struct Row {
    name: &'static str,
    written: LogRecord,
    bytes: &'static [u8],
}

fn insert(relation: u8, tid: Tid, values: &[u8]) -> Result<Change, Fail> {
    let values = body_of(values)?;
    Ok(Change::Insert {
        relation,
        tid,
        values,
    })
}

fn delete(relation: u8, tid: Tid, values: &[u8]) -> Result<Change, Fail> {
    let values = body_of(values)?;
    Ok(Change::Delete {
        relation,
        tid,
        values,
    })
}

fn update(relation: u8, tid: Tid, from: &[u8], to: &[u8]) -> Result<Change, Fail> {
    let from = body_of(from)?;
    let to = body_of(to)?;
    Ok(Change::Update {
        relation,
        tid,
        from,
        to,
    })
}

/// A child that gets no parent and no left neighbour.
fn connect_alone(link: u8, child: Tid) -> Change {
    Change::Connect {
        link,
        parent: None,
        child,
        left: None,
    }
}

fn disconnect(link: u8, parent: Tid, child: Tid, left: Tid) -> Change {
    Change::Disconnect {
        link,
        parent: Some(parent),
        child,
        left: Some(left),
    }
}

/// A Checkpoint of so many transactions.
fn checkpoint(count: u32) -> LogRecord {
    let mut marks = Marks::new();
    for by in 0..count {
        if marks.as_slice().len() < 32 {
            marks.push((by + 1, 10 * u64::from(by)));
        }
    }
    LogRecord::Checkpoint(marks)
}

/// Each kind of record.
fn rows() -> Result<[Row; 10], Fail> {
    let insert = insert(1, FIRST, b"\0\0\0\0\0\0\0\x07")?;
    let delete = delete(2, TID, b"")?;
    let update = update(3, TID, b"a", b"bc")?;
    Ok([
        Row {
            name: "an insert",
            written: LogRecord::Change(1, insert),
            bytes: b"\x01\0\0\0\x01\x01\0\0\0\0\0\0\0\x08\0\0\0\0\0\0\0\x07",
        },
        Row {
            name: "a delete of no bytes",
            written: LogRecord::Change(258, delete),
            bytes: b"\x02\0\0\x01\x02\x02\0\0\0\x01\0\x02\0\0",
        },
        Row {
            name: "an update",
            written: LogRecord::Change(1, update),
            bytes: b"\x03\0\0\0\x01\x03\0\0\0\x01\0\x02\0\x01a\0\x02bc",
        },
        Row {
            name: "a connect where there is no other identifier",
            written: LogRecord::Change(1, connect_alone(4, TID)),
            bytes: b"\x04\0\0\0\x01\x04\xff\xff\xff\xff\xff\xff\
                \0\0\0\x01\0\x02\xff\xff\xff\xff\xff\xff",
        },
        Row {
            name: "a disconnect",
            written: LogRecord::Change(1, disconnect(4, LAST, TID, TID)),
            bytes: b"\x05\0\0\0\x01\x04\0\0\0\x05\0\x7f\0\0\0\x01\0\x02\0\0\0\x01\0\x02",
        },
        Row {
            name: "a restore",
            written: LogRecord::Restore(1, 258),
            bytes: b"\x06\0\0\0\x01\0\0\0\0\0\0\x01\x02",
        },
        Row {
            name: "an end",
            written: LogRecord::End(1),
            bytes: b"\x07\0\0\0\x01",
        },
        Row {
            name: "an abort",
            written: LogRecord::Abort(1),
            bytes: b"\x08\0\0\0\x01",
        },
        Row {
            name: "a checkpoint of none",
            written: checkpoint(0),
            bytes: b"\x09\0",
        },
        Row {
            name: "a checkpoint of two",
            written: checkpoint(2),
            bytes: b"\x09\x02\0\0\0\x01\0\0\0\0\0\0\0\0\0\0\0\x02\0\0\0\0\0\0\0\x0a",
        },
    ])
}

/// The record is written so, and what begins with its bytes is read as it, and no cut of them is.
fn assert_spelled(alloc: Global, row: &Row) -> Result<(), Fail> {
    let mut bytes = bytes_of(alloc, &row.written)?;
    assert_same_slices(bytes.as_slice(), row.bytes, row.name)?;
    bytes.extend_from_slice(b"\x07\0")?;
    let (again, size) = assert_some(read_record(&bytes), row.name)?;
    assert_same(&(size as usize), &row.bytes.len(), row.name)?;
    let bytes = bytes_of(alloc, &again)?;
    assert_same_slices(bytes.as_slice(), row.bytes, (row.name, "again"))?;
    for cut in 0..row.bytes.len() {
        let is_read = read_record(&row.bytes[..cut]).is_some();
        assert_same(&is_read, &false, (row.name, "cut at", cut))?;
    }
    Ok(())
}

#[test]
fn each_kind_has_its_bytes(rt: HostRuntime) -> Result<(), Fail> {
    for row in &rows()? {
        assert_spelled(rt.alloc(), row)?;
    }
    Ok(())
}

#[test]
fn the_longest_records_have_these_sizes(rt: HostRuntime) -> Result<(), Fail> {
    let longest = update(1, TID, &[7; 2048], &[8; 2048])?;
    let rows = [
        ("a checkpoint of 32", checkpoint(32), 386),
        ("an update", LogRecord::Change(1, longest), 4112),
    ];
    for (name, written, size) in &rows {
        let bytes = bytes_of(rt.alloc(), written)?;
        assert_same(&bytes.len(), size, *name)?;
        assert_same(&read_record(&bytes).is_some(), &true, *name)?;
    }
    Ok(())
}

/// Bytes that begin with no record: of no kind, with a length, a count or a slot past its bound, or
/// with no identifier where one must be.
const NO_RECORDS: [(&str, &[u8]); 9] = [
    ("no kind", b"\0\0\0\0\x01"),
    ("kind 10", b"\x0a\0\0\0\x01"),
    ("kind 255", b"\xff\0\0\0\x01"),
    (
        "an insert at slot 128",
        b"\x01\0\0\0\x01\x01\0\0\0\0\0\x80\0\0",
    ),
    (
        "an insert with no identifier",
        b"\x01\0\0\0\x01\x01\xff\xff\xff\xff\xff\xff\0\0",
    ),
    (
        "a delete of 2,049 bytes",
        b"\x02\0\0\0\x01\x01\0\0\0\0\0\0\x08\x01",
    ),
    (
        "a connect to a parent at slot 128",
        b"\x04\0\0\0\x01\x04\0\0\0\0\0\x80\0\0\0\x01\0\x02\0\0\0\x01\0\x02",
    ),
    (
        "a connect with no child",
        b"\x04\0\0\0\x01\x04\0\0\0\0\0\0\xff\xff\xff\xff\xff\xff\0\0\0\x01\0\x02",
    ),
    ("a checkpoint of 33", b"\x09\x21"),
];

/// Neither such bytes are read nor they with zeros after them.
fn assert_unread(alloc: Global, name: &str, front: &[u8]) -> Result<(), Fail> {
    let mut bytes = Vec::from_slice(alloc, front)?;
    assert_same(&read_record(&bytes).is_some(), &false, name)?;
    bytes.extend_from_slice(&[0; 4400])?;
    assert_same(&read_record(&bytes).is_some(), &false, (name, "and zeros"))?;
    Ok(())
}

#[test]
fn what_is_no_record_is_not_read(rt: HostRuntime) -> Result<(), Fail> {
    assert_same(&read_record(b"").is_some(), &false, "no bytes")?;
    for (name, front) in &NO_RECORDS {
        assert_unread(rt.alloc(), name, front)?;
    }
    Ok(())
}
