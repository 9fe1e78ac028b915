// Stores in memory, and what they answer.
use rss_base::{Device, Page, Source};
use rss_device::{MemDevice, MemSink, MemSource};
use rss_images::{assert_same, assert_same_slices, copy_of_pages};
use rss_scripts::{format_device, run_script, run_words, without_moments};
use rss_top::Status;
use std::alloc::Global;
use std::fmt::Debug;
use std::test::Fail;

/// How many slots the smallest store has.
pub(crate) const SMALL: u32 = 64;

/// A piece that holds a whole script.
pub(crate) const WHOLE: usize = 65_536;

/// No call has this number.
pub(crate) const NEVER: u64 = u64::MAX;

/// A script that defines a relation of one INT.
const DEFINITIONS: &[u8] = b"segment s\nrelation r s a:int\n";

/// A script with one commit, and one that tells whether it was made.
const COMMIT: &[u8] = b"begin 1\ninsert 1 r 8\nend 1\n";

/// The commit with a checkpoint behind it, which brings the tuple from the log to the pages.
const SAVED: &[u8] = b"begin 1\ninsert 1 r 8\nend 1\ncheckpoint\n";

pub(crate) const PROBE: &[u8] = b"begin 1\nfetch 1 r 0.0\n";

/// What the probe gets where nothing is defined, where no commit of a tuple was made, and where one
/// was.
pub(crate) const UNDEFINED: &[u8] = b"ok\nrefused 5 no such relation\n";

pub(crate) const ABSENT: &[u8] = b"ok\nrefused 9 no tuple r 0.0\n";

pub(crate) const PRESENT: &[u8] = b"ok\nok 8\n";

/// A script, and what it gets.
#[derive(Clone, Copy)]
pub(crate) struct Row<'a> {
    pub(crate) script: &'a [u8],
    pub(crate) replies: &'a [u8],
}

/// Runs a row's script to its end, and it gets its replies. Answers the device that it left.
pub(crate) fn assert_script<D: Device + Drop, C: Debug + Copy>(
    alloc: Global,
    device: D,
    row: &Row,
    piece: usize,
    case: C,
) -> Result<D, Fail> {
    let (status, replies, device) = run_script(alloc, device, row.script, piece)?;
    assert_same(&status, &Status::Ok, case)?;
    assert_same_slices(replies.as_slice(), row.replies, case)?;
    Ok(device)
}

/// Runs the probe over a store, and it gets these replies.
pub(crate) fn assert_probe<D: Device + Drop, C: Debug + Copy>(
    alloc: Global,
    device: D,
    replies: &[u8],
    case: C,
) -> Result<(), Fail> {
    let row = Row {
        script: PROBE,
        replies,
    };
    assert_script(alloc, device, &row, 100, ("the probe", case))?;
    Ok(())
}

/// Does a command over a device of no pages, which ends so with nothing read, written or done.
pub(crate) fn assert_untouched<C: Debug + Copy>(
    alloc: Global,
    words: &[&str],
    want: Status,
    case: C,
) -> Result<(), Fail> {
    let mut source = MemSource::new(COMMIT);
    let mut sink = MemSink::new(alloc);
    let device = MemDevice::empty(alloc);
    let (status, device) = run_words(alloc, words, &mut source, &mut sink, device)?;
    assert_same(&status, &want, case)?;
    assert_same_slices(sink.bytes(), &[], case)?;
    assert_same(&device.moment(), &0, case)?;
    assert_same(&source.read(&mut [0; 100]), &Ok(COMMIT.len()), case)?;
    Ok(())
}

/// An empty store of so many slots and log pages.
pub(crate) fn new_store(alloc: Global, slots: &str, log_pages: &str) -> Result<MemDevice, Fail> {
    let device = MemDevice::empty(alloc);
    let (status, _, device) = format_device(alloc, device, slots, log_pages)?;
    assert_same(&status, &Status::Ok, slots)?;
    Ok(device)
}

/// One of so many slots and 8 log pages, all synced, with no moments yet.
pub(crate) fn empty_store(alloc: Global, slots: u32) -> Result<MemDevice, Fail> {
    let slots = format!(in alloc; "{slots}")?;
    let device = new_store(alloc, slots.as_str(), "8")?;
    Ok(without_moments(alloc, &device)?)
}

/// A store after a script of which no line is refused, all synced, with no moments yet.
pub(crate) fn store_after(
    alloc: Global,
    device: MemDevice,
    script: &[u8],
) -> Result<MemDevice, Fail> {
    let (status, replies, after) = run_script(alloc, device, script, WHOLE)?;
    assert_same(&status, &Status::Ok, script)?;
    // An `ok` has no such byte.
    let is_refused = replies.iter().any(|byte| *byte == b'f');
    assert_same(&is_refused, &false, script)?;
    Ok(without_moments(alloc, &after)?)
}

/// A store of so many slots in which a segment `s` and a relation `r` of one INT are defined.
pub(crate) fn store_with_r(alloc: Global, slots: u32) -> Result<MemDevice, Fail> {
    store_after(alloc, empty_store(alloc, slots)?, DEFINITIONS)
}

/// The pages of a small store at rest with one tuple in `r`, whose value is 8.
pub(crate) fn store_with_tuple(alloc: Global) -> Result<Vec<Page>, Fail> {
    let device = store_after(alloc, store_with_r(alloc, SMALL)?, SAVED)?;
    Ok(copy_of_pages(alloc, &device)?)
}

/// Whether exactly so many pages were written.
pub(crate) fn has_writes(device: &MemDevice, count: usize) -> bool {
    device.moment_of_write(count).is_none()
        && (count == 0 || device.moment_of_write(count - 1).is_some())
}
