// Replies come from the pages of the device: where a page reads as another, a reply changes.
ghost use Rattle.rss_images.specs.Silent.{silent, never_told};

use crate::harness::{WHOLE, new_store};
use crate::lines::{write_lines, write_text};
use rss_base::{Device, Failed, Page};
use rss_device::MemDevice;
use rss_images::{assert_same, assert_same_slices, assert_some, copy_of_pages};
use rss_rsi::LEAST_FRAMES;
use rss_scripts::{run_in_frames, run_script};
use rss_top::Status;
use std::alloc::Global;
use std::fmt::Write;
use std::test::Fail;

/// A relation of a number and seven long texts.
const DEFINITIONS: &str = "\
segment s
relation w s a:int b:text255 c:text255 d:text255 e:text255 f:text255 g:text255 h:text255
";

const TEXTS: u32 = 7;

/// How many tuples there are, each on a page of its own.
const TUPLES: u32 = 21;

const SLOTS: usize = 4096;

/// A device of which proofs know nothing. From its first write on it answers a read of one page with
/// another.
#[derive(Drop)]
struct Changing<D: Device> {
    device: D,
    at: u64,
    other: Page,
    is_written: bool,
}

#[tactic(auto, using(rss_images::specs::Silent::never_told))]
impl<D: Device> Device for Changing<D> {
    ghost view = { λ d. record {
      disk = silent;
      size = (D.view d.device).size;
      writes = (D.view d.device).writes;
      faults = (D.view d.device).faults;
    } };

    ghost reads_as_image = { λ d pages told.
        absurd (never_told (record { pages = pages; is = told })) };

    ghost sized = { λ d pages told. absurd (never_told (record { pages = pages; is = told })) };

    ghost limited = { λ d. D.limited d.device };

    fn size(&mut self) -> Result<u64, Failed> {
        self.device.size()
    }

    fn set_size(&mut self, pages: u64) -> Result<(), Failed> {
        self.device.set_size(pages)
    }

    fn read(&mut self, at: u64, into: &mut Page) -> Result<(), Failed> {
        let read = self.device.read(at, into);
        if self.is_written && at == self.at {
            *into = self.other;
        }
        read
    }

    fn write(&mut self, at: u64, from: &Page) -> Result<(), Failed> {
        self.is_written = true;
        self.device.write(at, from)
    }

    fn write_run(&mut self, at: u64, from: &[Page]) -> Result<(), Failed> {
        self.is_written = true;
        self.device.write_run(at, from)
    }

    fn sync(&mut self) -> Result<(), Failed> {
        self.device.sync()
    }
}

/// Writes the values of a tuple as they stand in a line, and the end of the line.
fn write_values(lines: &mut String, number: u32) -> Result<(), Fail> {
    write!(lines, " {number}")?;
    for _ in 0..TEXTS {
        write_text(lines, 'x', 255)?;
    }
    lines.push('\n')?;
    Ok(())
}

/// The pages of a store of these tuples, at rest. The first has this number, and each other that of its
/// page.
fn filled(alloc: Global, first: u32) -> Result<Vec<Page>, Fail> {
    let mut script = String::new(alloc);
    write_lines(&mut script, DEFINITIONS)?;
    write_lines(&mut script, "begin 1\n")?;
    for page in 0..TUPLES {
        write_lines(&mut script, "insert 1 w")?;
        write_values(&mut script, if page == 0 { first } else { page })?;
    }
    write_lines(&mut script, "end 1\ncheckpoint\n")?;
    let device = new_store(alloc, "4096", "64")?;
    let (status, _, device) = run_script(alloc, device, script.as_bytes(), WHOLE)?;
    assert_same(&status, &Status::Ok, "the tuples")?;
    Ok(copy_of_pages(alloc, &device)?)
}

/// The first slot that has other bytes in one device than in another.
fn other_slot(one: &[Page], other: &[Page]) -> Option<usize> {
    let first = one.len().saturating_sub(SLOTS);
    for (at, page) in one.iter().enumerate() {
        if at >= first && other.get(at) != Some(page) {
            return Some(at);
        }
    }
    None
}

/// A script that writes, fetches each tuple but the first, by which that leaves memory, and then the
/// first.
fn fetches(alloc: Global) -> Result<String, Fail> {
    let mut script = String::new(alloc);
    write_lines(&mut script, "checkpoint\nbegin 1\n")?;
    for page in 1..TUPLES {
        writeln!(script, "fetch 1 w {page}.0")?;
    }
    write_lines(&mut script, "fetch 1 w 0.0\n")?;
    Ok(script)
}

/// Its replies, where the first tuple has this number.
fn fetched(alloc: Global, first: u32) -> Result<String, Fail> {
    let mut replies = String::new(alloc);
    write_lines(&mut replies, "ok\nok\n")?;
    for page in 1..TUPLES {
        write_lines(&mut replies, "ok")?;
        write_values(&mut replies, page)?;
    }
    write_lines(&mut replies, "ok")?;
    write_values(&mut replies, first)?;
    Ok(replies)
}

#[test]
fn a_reply_comes_from_the_page_as_it_is_read(rt: HostRuntime) -> Result<(), Fail> {
    let alloc = rt.alloc();
    let seven = filled(alloc, 7)?;
    let eight = filled(alloc, 8)?;
    let at = assert_some(other_slot(seven.as_slice(), eight.as_slice()), "the slot")?;
    let device = Changing {
        at: at as u64,
        other: *assert_some(eight.get(at), "its page")?,
        device: MemDevice::new(alloc, seven)?,
        is_written: false,
    };
    let script = fetches(alloc)?;
    let Ok((status, replies)) = run_in_frames(alloc, device, script.as_bytes(), LEAST_FRAMES) else {
        return Err("there is no store".into());
    };
    assert_same(&status, &Status::Ok, "the fetches")?;
    assert_same_slices(
        replies.as_slice(),
        fetched(alloc, 8)?.as_bytes(),
        "the fetches",
    )
}
