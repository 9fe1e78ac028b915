// Trials: scripts that are generated, run over a store, and counted.
use crate::harness::{NEVER, new_store};
use crate::lines::count_lines;
use rss_base::Source;
use rss_device::{MemDevice, MemSink, MemSource};
use rss_images::{assert_same, assert_same_slices};
use rss_scripts::{run_script, run_words};
use rss_top::Status;
use std::alloc::Global;
use std::test::Fail;

/// A script that isn't read.
const UNREAD: &[u8] = b"begin 1";

/// A new store, the script that is tried over it, and what the trial writes.
struct Row {
    slots: &'static str,
    log_pages: &'static str,
    number: &'static str,
    count: &'static str,
    tally: &'static [u8],
}

static ROWS: [Row; 3] = [
    Row {
        slots: "256",
        log_pages: "8",
        number: "1",
        count: "1",
        tally: b"lines 32 ok 32 refused 0\n",
    },
    Row {
        slots: "4096",
        log_pages: "64",
        number: "1",
        count: "1000",
        tally: b"lines 2330 ok 2230 refused 100\n",
    },
    Row {
        slots: "4096",
        log_pages: "64",
        number: "18446744073709551615",
        count: "1000",
        tally: b"lines 2330 ok 2230 refused 100\n",
    },
];

/// Tries a script over a device, with a sink that fails at a write. The source isn't read.
fn try_script(
    alloc: Global,
    device: MemDevice,
    number: &str,
    count: &str,
    write: u64,
) -> Result<(Status, MemSink), Fail> {
    let mut source = MemSource::new(UNREAD);
    let mut sink = MemSink::new(alloc).failing_at(write);
    let words = ["trial", "FILE", number, count];
    let (status, _) = run_words(alloc, &words, &mut source, &mut sink, device)?;
    assert_same(&source.read(&mut [0; 100]), &Ok(UNREAD.len()), words)?;
    Ok((status, sink))
}

/// The replies that a generated script gets of `run`.
fn replies_of(
    alloc: Global,
    device: MemDevice,
    number: &str,
    count: &str,
) -> Result<Vec<u8>, Fail> {
    let mut source = MemSource::new(UNREAD);
    let mut script = MemSink::new(alloc);
    let words = ["gen", number, count];
    let nothing = MemDevice::empty(alloc);
    let (status, _) = run_words(alloc, &words, &mut source, &mut script, nothing)?;
    assert_same(&status, &Status::Ok, words)?;
    let (status, replies, _) = run_script(alloc, device, script.bytes(), 65_536)?;
    assert_same(&status, &Status::Ok, words)?;
    Ok(replies)
}

#[test]
fn a_trial_writes_its_tally(rt: HostRuntime) -> Result<(), Fail> {
    for row in &ROWS {
        let device = new_store(rt.alloc(), row.slots, row.log_pages)?;
        let (status, sink) = try_script(rt.alloc(), device, row.number, row.count, NEVER)?;
        assert_same(&status, &Status::Ok, row.number)?;
        assert_same_slices(sink.bytes(), row.tally, row.number)?;
    }
    Ok(())
}

#[test]
fn a_script_that_is_tried_meets_no_want_of_room(rt: HostRuntime) -> Result<(), Fail> {
    for row in &ROWS {
        let device = new_store(rt.alloc(), row.slots, row.log_pages)?;
        let replies = replies_of(rt.alloc(), device, row.number, row.count)?;
        let refused = count_lines(replies.as_slice(), b"refused");
        let busy = count_lines(replies.as_slice(), b"refused 14 busy ");
        let lines = count_lines(replies.as_slice(), b"");
        let ok = lines.saturating_sub(refused);
        let tally = format!(in rt.alloc(); "lines {lines} ok {ok} refused {refused}\n")?;
        assert_same_slices(tally.as_bytes(), row.tally, row.number)?;
        assert_same(&busy, &refused, row.number)?;
    }
    Ok(())
}

#[test]
fn a_fault_of_the_sink_leaves_no_tally(rt: HostRuntime) -> Result<(), Fail> {
    let device = new_store(rt.alloc(), "64", "8")?;
    let (status, sink) = try_script(rt.alloc(), device, "1", "1", 0)?;
    assert_same(&status, &Status::WriteFault, 0)?;
    assert_same_slices(sink.bytes(), b"", 0)
}

#[test]
fn a_trial_over_no_store_is_refused_as_a_run(rt: HostRuntime) -> Result<(), Fail> {
    let device = MemDevice::empty(rt.alloc());
    let (_, replies, device) = run_script(rt.alloc(), device, UNREAD, 100)?;
    let (_, sink) = try_script(rt.alloc(), device, "1", "1", NEVER)?;
    assert_same_slices(sink.bytes(), replies.as_slice(), "no store")
}
