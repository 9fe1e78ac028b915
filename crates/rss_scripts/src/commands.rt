// Commands, with how they ended, what they wrote, and the device that they left.
ghost use Rattle.std.specs.Prelude.{◌≤◌, length, IfOk};
ghost use Rattle.rss_base.specs.DiskRule.{Told};
ghost use Rattle.rss_device.specs.MemDevice.{view_of, IsFresh};

use rss_base::{Device, Sink, Source, Unopened};
use rss_device::{MemDevice, MemSink, MemSource};
use rss_line::Names;
use rss_rsi::{LEAST_FRAMES, MOST_FRAMES, open};
use rss_stored::{CALLS_MOST, Engine};
use rss_top::{Status, run, run_line};
use std::alloc::{AllocError, Global};

/// The words of a command, with the program's own name first.
fn push_words(alloc: Global, words: &[&str], command: &mut Vec<String>) -> Result<(), AllocError> {
    command.push(String::from_str(alloc, "rss")?)?;
    for word in words {
        command.push(String::from_str(alloc, word)?)?;
    }
    Ok(())
}

/// Does a command, by its words after the program's own name. Answers how it ended, and the device
/// that it left. The error is want of memory for the words.
pub fn run_words<O: Source, K: Sink, D: Device + Drop>(
    alloc: Global,
    words: &[&str],
    source: &mut O,
    sink: &mut K,
    device: D,
) -> Result<(Status, D), AllocError> {
    let mut command = Vec::new(alloc);
    push_words(alloc, words, &mut command)?;
    Ok(run(alloc, command.as_slice(), source, sink, device))
}

/// Runs a script that comes in pieces of so many bytes, at least 1. Answers how it ended, the
/// replies, and the device that it left.
pub fn run_script<D: Device + Drop>(
    alloc: Global,
    device: D,
    script: &[u8],
    piece: usize,
) -> Result<(Status, Vec<u8>, D), AllocError> {
    let mut source = MemSource::new(script).in_pieces(piece);
    let mut sink = MemSink::new(alloc);
    let (status, device) = run_words(alloc, &["run", "FILE"], &mut source, &mut sink, device)?;
    Ok((status, sink.into_bytes(), device))
}

/// How many bytes the first line of these has.
fn line_length(bytes: &[u8]) -> usize
    ensures { result ≤ length bytes.now }
{
    match bytes.iter().position(|byte| *byte == b'\n') {
        Some(at) => at,
        None => bytes.len(),
    }
}

/// Runs the lines of a script over a store that is open, up to the first that stops the run. A script
/// is too long that has more lines than the store may be asked for calls.
pub fn run_lines<E: Engine>(
    store: &mut E,
    alloc: Global,
    script: &[u8],
    sink: &mut MemSink,
) -> Status
    requires { (E.view store.old).is_up }
{
    let mut names = Names::new(alloc);
    let mut reply = Vec::new(alloc);
    let mut done = 0;
    while done < script.len() {
        if store.calls() >= CALLS_MOST {
            return Status::TooLong;
        }
        let end = done + line_length(&script[done..]);
        if let Err(status) = run_line(
            store,
            alloc,
            &mut names,
            &script[done..end],
            &mut reply,
            sink,
        ) {
            return status;
        }
        done = end + 1;
    }
    Status::Ok
}

/// Runs a script with so many pages in memory, as `run` does with the most: from 8 to 1,024. Answers
/// how it ended, and the replies.
pub fn run_in_frames<D: Device + Drop>(
    alloc: Global,
    device: D,
    script: &[u8],
    frames: u32,
) -> Result<(Status, Vec<u8>), Unopened<D>>
    requires least { LEAST_FRAMES ≤ frames }
    requires most { frames ≤ MOST_FRAMES }
{
    let mut store = open(alloc, device, frames)?;
    let mut sink = MemSink::new(alloc);
    let status = run_lines(&mut store, alloc, script, &mut sink);
    let _ = store.into_pages().into_device();
    Ok((status, sink.into_bytes()))
}

/// Makes a device an empty store of so many slots and log pages, as decimals. Answers how that
/// ended, what was written, and the device.
pub fn format_device<D: Device + Drop>(
    alloc: Global,
    device: D,
    slots: &str,
    log_pages: &str,
) -> Result<(Status, Vec<u8>, D), AllocError> {
    let mut source = MemSource::new(b"");
    let mut sink = MemSink::new(alloc);
    let words = ["format", "FILE", slots, log_pages];
    let (status, device) = run_words(alloc, &words, &mut source, &mut sink, device)?;
    Ok((status, sink.into_bytes(), device))
}

/// A device of the same pages, all synced, with no moments yet.
pub fn without_moments(alloc: Global, device: &MemDevice) -> Result<MemDevice, AllocError>
    ensures { IfOk result (λ copy. Told (view_of device.now).disk (λ pages. IsFresh pages copy)) }
{
    MemDevice::new(alloc, Vec::from_slice(alloc, device.pages())?)
}
