// One example: a script over a store, and the replies that it gets.
use anyhow::{Context, Result, bail, ensure};
use rss_device::MemDevice;
use rss_rsi::LEAST_FRAMES;
use rss_scripts::{format_device, run_in_frames, run_script, without_moments};
use rss_top::Status;
use std::alloc::Global;
use std::fs;
use std::rt::Files;

/// Each script comes in pieces of so many bytes. The last one holds each whole.
const PIECES: [usize; 3] = [1, 3, 65_536];

/// The words of a line of the list.
#[derive(Clone, Copy)]
struct Words<'a> {
    name: &'a str,
    /// How many slots and log pages the store has; none if it is the one that the example before
    /// left.
    size: Option<(&'a str, &'a str)>,
}

fn read_words(line: &str) -> Option<Words<'_>> {
    let (name, store) = line.split_once(' ')?;
    Some(Words {
        name,
        size: store.split_once(' '),
    })
}

/// The store that an example wants.
fn store_for(alloc: Global, words: &Words, before: MemDevice) -> Result<MemDevice> {
    let Some((slots, log_pages)) = words.size else {
        return Ok(before);
    };
    let (status, _, device) = format_device(alloc, MemDevice::empty(alloc), slots, log_pages)?;
    ensure!(status == Status::Ok, "{}: no such store", words.name);
    Ok(device)
}

/// Runs a script over a copy of a store, and it gets these replies. Answers what it left.
fn run_pieces(
    alloc: Global,
    name: &str,
    store: &MemDevice,
    (script, replies): (&[u8], &[u8]),
    piece: usize,
) -> Result<MemDevice> {
    let (status, found, after) = run_script(alloc, without_moments(alloc, store)?, script, piece)?;
    ensure!(status == Status::Ok, "{name}: ended with {status:?}");
    ensure!(
        found.as_slice() == replies,
        "{name}: other replies, in pieces of {piece}"
    );
    Ok(after)
}

/// Runs a script over a copy of a store with as few pages in memory as there may be, and it gets
/// these replies.
fn run_in_few(
    alloc: Global,
    name: &str,
    store: &MemDevice,
    (script, replies): (&[u8], &[u8]),
) -> Result<()> {
    let device = without_moments(alloc, store)?;
    let Ok((status, found)) = run_in_frames(alloc, device, script, LEAST_FRAMES) else {
        bail!("{name}: no store");
    };
    ensure!(status == Status::Ok, "{name}: ended with {status:?}");
    ensure!(
        found.as_slice() == replies,
        "{name}: other replies, with {LEAST_FRAMES} pages in memory"
    );
    Ok(())
}

/// The bytes of a file of an example.
fn read<R: Files + AllocGlobal>(rt: &R, folder: &str, name: &str, ending: &str) -> Result<Vec<u8>> {
    let path = format!(in rt.alloc(); "{folder}{name}.{ending}")?;
    fs::read(rt, path.as_str()).context(format_args!("reading {path}"))
}

/// Runs the example of a line of the list. This device is what the one before left. Answers what it
/// leaves.
pub(crate) fn run_example<R: Files + AllocGlobal + Print>(
    rt: &R,
    folder: &str,
    line: &str,
    before: MemDevice,
) -> Result<MemDevice> {
    let Some(words) = read_words(line) else {
        bail!("a line of the list that names no store: {line}");
    };
    let script = read(rt, folder, words.name, "script")?;
    let replies = read(rt, folder, words.name, "replies")?;
    let store = store_for(rt.alloc(), &words, before)?;
    let texts = (script.as_slice(), replies.as_slice());
    let mut after = without_moments(rt.alloc(), &store)?;
    for piece in PIECES {
        after = run_pieces(rt.alloc(), words.name, &store, texts, piece)?;
    }
    run_in_few(rt.alloc(), words.name, &store, texts)?;
    println!(rt; "{}", words.name)?;
    Ok(after)
}
