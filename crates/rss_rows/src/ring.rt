// A log that goes round its pages.
use crate::harness::{WHOLE, empty_store};
use crate::lines::{write_lines, write_text};
use rss_device::MemDevice;
use rss_images::{UNSYNCED, assert_same, assert_same_slices, image_at};
use rss_scripts::{run_script, without_moments};
use std::alloc::Global;
use std::fmt::Write;
use std::test::Fail;

/// A relation of a number and a long text, with one tuple.
const DEFINITIONS: &[u8] = b"\
segment s
relation t s n:int x:text255
begin 1
insert 1 t 0 \"\"
end 1
checkpoint
";

/// How many transactions there are. Each has 552 bytes in the log, which goes round 8 pages of 4,000.
const TRANSACTIONS: u32 = 130;

/// How many slots their store has: room for 60 changes and more behind a checkpoint.
const SLOTS: u32 = 512;

/// Writes a text of so many letters, and the end of the line.
fn write_letters(line: &mut String, length: u32) -> Result<(), Fail> {
    write_text(line, 'x', length)?;
    line.push('\n')?;
    Ok(())
}

/// How long the text of the tuple is behind the transaction of this number: none is there before the
/// first.
fn length_behind(number: u32) -> u32 {
    if number == 0 { 0 } else { 255 }
}

/// The script of all transactions. That of each number makes the tuple one of this number.
fn transactions(alloc: Global) -> Result<String, Fail> {
    let mut script = String::new(alloc);
    for number in 1..TRANSACTIONS + 1 {
        write!(script, "begin 1\nupdate 1 t 0.0 {number}")?;
        write_letters(&mut script, 255)?;
        write_lines(&mut script, "end 1\n")?;
    }
    Ok(script)
}

/// What a fetch gets behind the transaction of this number.
fn fetched(alloc: Global, number: u32) -> Result<String, Fail> {
    let mut replies = String::new(alloc);
    write!(replies, "ok\nok {number}")?;
    write_letters(&mut replies, length_behind(number))?;
    Ok(replies)
}

/// Of so many transactions that were committed, a stop at a moment leaves all; or one more. Answers how
/// many it leaves.
fn assert_stop(
    alloc: Global,
    device: &MemDevice,
    moment: usize,
    committed: u32,
) -> Result<u32, Fail> {
    let left = image_at(alloc, device, moment, UNSYNCED[moment % UNSYNCED.len()])?;
    let script = b"begin 1\nfetch 1 t 0.0\n";
    let (_, replies, _) = run_script(alloc, MemDevice::new(alloc, left)?, script, WHOLE)?;
    if replies.as_slice() == fetched(alloc, committed)?.as_bytes() {
        return Ok(committed);
    }
    let next = committed.saturating_add(1);
    assert_same_slices(
        replies.as_slice(),
        fetched(alloc, next)?.as_bytes(),
        ("moment", moment),
    )?;
    Ok(next)
}

/// Stops the run of all transactions at each moment, with one of what the stop may leave. Answers how
/// many transactions the last stop leaves.
fn assert_stops(alloc: Global, device: &MemDevice) -> Result<u32, Fail> {
    let mut committed = 0;
    for moment in 0..=device.moment() {
        committed = assert_stop(alloc, device, moment, committed)?;
    }
    Ok(committed)
}

/// A store of so many slots with the tuple.
fn store(alloc: Global, slots: u32) -> Result<MemDevice, Fail> {
    let (_, _, device) = run_script(alloc, empty_store(alloc, slots)?, DEFINITIONS, WHOLE)?;
    Ok(without_moments(alloc, &device)?)
}

#[test]
fn a_log_that_goes_round_keeps_what_was_committed(rt: HostRuntime) -> Result<(), Fail> {
    let alloc = rt.alloc();
    let script = transactions(alloc)?;
    let (_, replies, device) = run_script(alloc, store(alloc, SLOTS)?, script.as_bytes(), WHOLE)?;
    assert_same(&replies.len(), &(9 * TRANSACTIONS as usize), "the replies")?;
    let committed = assert_stops(alloc, &device)?;
    assert_same(&committed, &TRANSACTIONS, "the transactions")
}
