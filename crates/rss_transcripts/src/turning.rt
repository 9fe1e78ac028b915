// Stores whose pages are changed.
use crate::lines::Lines;
use crate::running::text;
use crate::spelling::number_of;
use anyhow::{Result, bail, ensure};
use rss_base::{PAGE_BYTES, Page, Source};
use rss_device::{MemDevice, MemSink, MemSource};
use rss_images::{copy_of_pages, filled_pages};
use rss_scripts::run_words;
use rss_top::Status;
use std::alloc::Global;

/// The numbers that words spell.
fn numbers_of(alloc: Global, words: &str) -> Result<Vec<usize>> {
    let mut numbers = Vec::new(alloc);
    for word in words.split_whitespace() {
        numbers.push(number_of(word)? as usize)?;
    }
    Ok(numbers)
}

fn byte_of(number: usize) -> Result<u8> {
    match u8::try_from(number) {
        Ok(byte) => Ok(byte),
        Err(_) => bail!("no byte: {number}"),
    }
}

/// Turns bits of a byte of a page.
fn turn(pages: &mut [Page], at: usize, place: usize, bits: u8) -> Result<()> {
    let Some(page) = pages.get_mut(at) else {
        bail!("there is no page {at}");
    };
    let Some(byte) = page.get_mut(place) else {
        bail!("there is no byte {place}");
    };
    *byte ^= bits;
    Ok(())
}

/// Puts bytes into a page, from a place on.
fn set(pages: &mut [Page], at: usize, place: usize, bytes: &[usize]) -> Result<()> {
    let Some(page) = pages.get_mut(at) else {
        bail!("there is no page {at}");
    };
    let Some(rest) = page.get_mut(place..) else {
        bail!("there is no byte {place}");
    };
    for (into, byte) in rest.iter_mut().zip(bytes) {
        *into = byte_of(*byte)?;
    }
    Ok(())
}

/// Puts a page in the place of another one.
fn copy(pages: &mut [Page], from: usize, to: usize) -> Result<()> {
    let Some(page) = pages.get(from) else {
        bail!("there is no page {from}");
    };
    let copied = *page;
    let Some(into) = pages.get_mut(to) else {
        bail!("there is no page {to}");
    };
    *into = copied;
    Ok(())
}

/// Makes one change to pages: `turn PAGE PLACE BITS`, `set PAGE PLACE BYTE..`, `copy PAGE PAGE`,
/// `size PAGES` or `zeros PAGES`.
fn edit(alloc: Global, pages: &mut Vec<Page>, words: &str) -> Result<()> {
    let Some((what, rest)) = words.split_once(" ") else {
        bail!("no change: {words}");
    };
    let numbers = numbers_of(alloc, rest)?;
    match (what.as_bytes(), numbers.as_slice()) {
        (b"turn", [at, place, bits]) => turn(pages.as_mut_slice(), *at, *place, byte_of(*bits)?)?,
        (b"set", [at, place, bytes @ ..]) => set(pages.as_mut_slice(), *at, *place, bytes)?,
        (b"copy", [from, to]) => copy(pages.as_mut_slice(), *from, *to)?,
        (b"size", [count]) => pages.resize(*count, [0; PAGE_BYTES])?,
        (b"zeros", [count]) => *pages = filled_pages(alloc, *count, 0)?,
        _ => bail!("no change: {words}"),
    }
    Ok(())
}

/// Makes the changes of a line.
fn edit_all(alloc: Global, pages: &mut Vec<Page>, line: &[u8]) -> Result<()> {
    for words in text(line).split("; ") {
        edit(alloc, pages, words)?;
    }
    Ok(())
}

/// A device of the pages of a store, with the changes of all lines.
pub(crate) fn made(alloc: Global, store: &MemDevice, lines: &Lines) -> Result<MemDevice> {
    let mut pages = copy_of_pages(alloc, store)?;
    for line in lines.script.as_slice().split(|byte| *byte == b'\n') {
        if !line.is_empty() {
            edit_all(alloc, &mut pages, line)?;
        }
    }
    Ok(MemDevice::new(alloc, pages)?)
}

/// Whether a run ends so that writes such replies.
fn is_ending(status: Status, replies: &[u8]) -> bool {
    match status {
        Status::Ok => replies.starts_with(b"ok\n"),
        Status::NotAStore(_) => replies.starts_with(b"not a store "),
        Status::Damaged(_) => replies.starts_with(b"damaged "),
        _ => false,
    }
}

/// Replies as they stand after an arrow: their lines with bars between them.
fn in_one_line(alloc: Global, replies: &[u8]) -> Result<Vec<u8>> {
    let mut line = Vec::new(alloc);
    for (number, reply) in replies.split(|byte| *byte == b'\n').enumerate() {
        if number > 0 && !reply.is_empty() {
            line.extend_from_slice(b" | ")?;
        }
        line.extend_from_slice(reply)?;
    }
    Ok(line)
}

/// Runs the probe over pages, which answers this. If it is refused, it has read nothing.
fn assert_ending(
    alloc: Global,
    pages: Vec<Page>,
    probe: &[u8],
    wanted: &[u8],
) -> Result<MemDevice> {
    let device = MemDevice::new(alloc, pages)?;
    let mut source = MemSource::new(probe);
    let mut sink = MemSink::new(alloc);
    let (status, after) = run_words(alloc, &["run", "FILE"], &mut source, &mut sink, device)?;
    let found = in_one_line(alloc, sink.bytes())?;
    ensure!(
        found.as_slice() == wanted,
        "{}, and not {}",
        text(found.as_slice()),
        text(wanted)
    );
    ensure!(is_ending(status, sink.bytes()), "it ended with {status:?}");
    if status != Status::Ok {
        let unread = source.read(&mut [0; 100]);
        ensure!(unread == Ok(probe.len()), "a part of the script was read");
    }
    Ok(after)
}

/// Makes the changes of each line to the pages of a store, and the probe then gets its replies. It
/// writes nothing, if that is asked.
pub(crate) fn assert_turned(
    alloc: Global,
    store: &MemDevice,
    probe: &[u8],
    lines: &Lines,
    is_unwritten: bool,
) -> Result<()> {
    let script = lines.script.as_slice().split(|byte| *byte == b'\n');
    let replies = lines.replies.as_slice().split(|byte| *byte == b'\n');
    for ((line, wanted), place) in script.zip(replies).zip(lines.places.as_slice()) {
        let mut pages = copy_of_pages(alloc, store)?;
        edit_all(alloc, &mut pages, line)?;
        match assert_ending(alloc, pages, probe, wanted) {
            Ok(after) => {
                let is_written = after.moment_of_write(0).is_some();
                ensure!(!(is_unwritten && is_written), "line {place}: it wrote");
            }
            Err(error) => bail!("line {place}: {error}"),
        }
    }
    Ok(())
}
