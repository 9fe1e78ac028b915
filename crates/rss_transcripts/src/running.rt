// Lines that are run, and their replies compared with those that are written.
use crate::lines::Lines;
use anyhow::{Result, bail, ensure};
use rss_device::MemDevice;
use rss_rsi::LEAST_FRAMES;
use rss_scripts::{format_device, run_in_frames, run_script, without_moments};
use rss_top::Status;
use std::alloc::Global;
use std::str;

/// A piece that holds a whole script.
pub(crate) const WHOLE: usize = 65_536;

/// Each script comes in pieces of so many bytes.
const PIECE: usize = 100;

/// Bytes as they are told.
pub(crate) fn text(bytes: &[u8]) -> &str {
    str::from_utf8(bytes).unwrap_or("(no text)")
}

/// Tells each reply that isn't the one that stands beside its line.
fn tell_others<R: Print>(rt: &R, name: &str, lines: &Lines, found: &[u8]) -> Result<()> {
    let wanted = lines.replies.as_slice().split(|byte| *byte == b'\n');
    let got = found.split(|byte| *byte == b'\n');
    for ((got, wanted), place) in got.zip(wanted).zip(lines.places.as_slice()) {
        if got != wanted {
            println!(rt; "{name}:{place}: {}, and not {}", text(got), text(wanted))?;
        }
    }
    Ok(())
}

/// The replies are those that are written.
fn assert_replies<R: Print>(rt: &R, name: &str, lines: &Lines, found: &[u8]) -> Result<()> {
    if found != lines.replies.as_slice() {
        tell_others(rt, name, lines, found)?;
        bail!("other replies");
    }
    Ok(())
}

/// Runs lines over a copy of a store, with as few pages in memory as there may be.
fn run_in_few<R: AllocGlobal + Print>(
    rt: &R,
    name: &str,
    lines: &Lines,
    store: &MemDevice,
) -> Result<()> {
    let alloc = rt.alloc();
    let device = without_moments(alloc, store)?;
    let script = lines.script.as_slice();
    let Ok((status, found)) = run_in_frames(alloc, device, script, LEAST_FRAMES) else {
        bail!("it is no store");
    };
    assert_replies(rt, name, lines, found.as_slice())?;
    ensure!(status == Status::Ok, "it ended with {status:?}");
    Ok(())
}

/// Runs lines over a copy of a store, in pieces and with few pages in memory, and they get their replies.
/// Answers what they left.
pub(crate) fn run_lines<R: AllocGlobal + Print>(
    rt: &R,
    name: &str,
    lines: &Lines,
    store: &MemDevice,
) -> Result<MemDevice> {
    let alloc = rt.alloc();
    let device = without_moments(alloc, store)?;
    let (status, found, after) = run_script(alloc, device, lines.script.as_slice(), PIECE)?;
    assert_replies(rt, name, lines, found.as_slice())?;
    ensure!(status == Status::Ok, "it ended with {status:?}");
    run_in_few(rt, name, lines, store)?;
    Ok(after)
}

/// An empty store of so many slots and log pages.
pub(crate) fn new_store(alloc: Global, slots: u32, log_pages: u32) -> Result<MemDevice> {
    let slots = format!(in alloc; "{slots}")?;
    let log_pages = format!(in alloc; "{log_pages}")?;
    let device = MemDevice::empty(alloc);
    let (status, _, made) = format_device(alloc, device, slots.as_str(), log_pages.as_str())?;
    ensure!(status == Status::Ok, "there is no such store");
    Ok(made)
}
