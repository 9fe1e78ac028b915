// Commits that insert, update and delete tuples on several pages, and what is left of them.
use crate::harness::{Row, WHOLE, assert_script, store_with_r};
use crate::lines::{write_inserted, write_inserts, write_lines};
use crate::stops::{Commit, Probe, assert_commit, assert_failures};
use rss_device::MemDevice;
use rss_images::UNSYNCED;
use rss_scripts::without_moments;
use std::alloc::Global;
use std::test::Fail;

/// How many slots the store has: as many as each transaction needs with no checkpoint within it.
const SLOTS: u32 = 128;

/// How many tuples it has, each with its place as its value, and how many a transaction inserted. The
/// last one stands on a second page.
const TUPLES: u32 = 129;

const INSERTS: u32 = 10;

/// It updates a tuple, deletes one in the middle of a page and the only one of another, whose page is
/// given back and taken again, and gets their identifiers for others.
static CHANGED: Commit<'static> = Commit {
    number: 1,
    row: Row {
        script: b"\
begin 1
update 1 r 0.0 -1
delete 1 r 0.5
delete 1 r 1.0
insert 1 r 500
insert 1 r 501
insert 1 r 502
update 1 r 1.1 503
delete 1 r 0.127
fetch 1 r 0.127
update 1 r 0.127 1
delete 1 r 0.127
end 1
",
        replies: b"\
ok
ok
ok
ok
ok 0.5
ok 1.0
ok 1.1
ok
ok
refused 9 no tuple r 0.127
refused 9 no tuple r 0.127
refused 9 no tuple r 0.127
ok
",
    },
    probe: Probe {
        script: b"\
begin 1
fetch 1 r 0.0
fetch 1 r 0.5
fetch 1 r 0.127
fetch 1 r 1.0
fetch 1 r 1.1
",
        before: b"\
ok
ok 0
ok 5
ok 127
ok 128
refused 9 no tuple r 1.1
",
        after: b"\
ok
ok -1
ok 500
refused 9 no tuple r 0.127
ok 501
ok 503
",
    },
    opening: 0,
    writes: 2,
    root: 2,
};

/// It deletes all tuples of the second page, and takes back one of its own inserts.
static EMPTIED: Commit<'static> = Commit {
    number: 2,
    row: Row {
        script: b"\
begin 1
delete 1 r 1.1
delete 1 r 1.0
update 1 r 0.1 1000
insert 1 r 7
delete 1 r 0.127
end 1
",
        replies: b"\
ok
ok
ok
ok
ok 0.127
ok
ok
",
    },
    probe: Probe {
        script: b"\
begin 1
fetch 1 r 0.1
fetch 1 r 0.127
fetch 1 r 1.0
insert 1 r 8
insert 1 r 9
",
        before: b"\
ok
ok 1
refused 9 no tuple r 0.127
ok 501
ok 0.127
ok 1.2
",
        after: b"\
ok
ok 1000
refused 9 no tuple r 0.127
refused 9 no tuple r 1.0
ok 0.127
ok 1.0
",
    },
    // Two pages with tuples, that of their count, the map, root 1 and the selector.
    opening: 6,
    writes: 2,
    root: 2,
};

/// Writes the transaction that inserts the tuples of these places, with a checkpoint behind it, and
/// what it gets.
fn write_transaction(
    script: &mut String,
    replies: &mut String,
    first: u32,
    end: u32,
) -> Result<(), Fail> {
    write_lines(script, "begin 1\n")?;
    write_inserts(script, first, end)?;
    write_lines(script, "end 1\ncheckpoint\n")?;
    write_lines(replies, "ok\n")?;
    write_inserted(replies, first, end)?;
    write_lines(replies, "ok\nok\n")?;
    Ok(())
}

/// A store of all tuples, at rest, with no moments yet.
fn store_with_tuples(alloc: Global) -> Result<MemDevice, Fail> {
    let mut script = String::new(alloc);
    let mut replies = String::new(alloc);
    for number in 0..TUPLES.div_ceil(INSERTS) {
        let first = number * INSERTS;
        let end = TUPLES.min(first + INSERTS);
        write_transaction(&mut script, &mut replies, first, end)?;
    }
    let row = Row {
        script: script.as_bytes(),
        replies: replies.as_bytes(),
    };
    let device = store_with_r(alloc, SLOTS)?;
    let device = assert_script(alloc, device, &row, WHOLE, "129 inserts")?;
    Ok(without_moments(alloc, &device)?)
}

#[test]
fn changes_stopped_at_each_moment_open_to_the_tables_before_or_after(
    rt: HostRuntime,
) -> Result<(), Fail> {
    let mut device = store_with_tuples(rt.alloc())?;
    for commit in [&CHANGED, &EMPTIED] {
        device = assert_commit(rt.alloc(), device, commit, &UNSYNCED)?;
    }
    Ok(())
}

#[test]
fn changes_with_a_device_call_that_fails_leave_the_tables_before_or_after(
    rt: HostRuntime,
) -> Result<(), Fail> {
    let mut device = store_with_tuples(rt.alloc())?;
    for commit in [&CHANGED, &EMPTIED] {
        assert_failures(rt.alloc(), &device, commit)?;
        device = assert_commit(rt.alloc(), device, commit, &[])?;
    }
    Ok(())
}
