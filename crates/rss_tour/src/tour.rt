// The tour: line by line, and moment by moment.
ghost use Rattle.std.specs.Prelude.{◌≤◌};
ghost use Rattle.rss_device.specs.MemDevice.{view_of};

use crate::pages::{LOG_PAGES, SLOTS};
use crate::stops::{done_at, left_at};
use anyhow::{Result, ensure};
use rss_device::MemDevice;
use rss_rsi::format;
use rss_scripts::{run_script, without_moments};
use rss_top::Status;
use std::alloc::Global;
use std::str;

/// A read of the script gives so many bytes at most.
const PIECE: usize = 65_536;

/// A script that is taken byte by byte, and how much of its run was told. At the end of each line
/// the script up to there is run over the store, and what is new in that run is told.
#[derive(Drop)]
pub(crate) struct Tour {
    alloc: Global,
    store: MemDevice,
    script: Vec<u8>,
    line: Vec<u8>,
    replies: usize,
    moments: usize,
    writes: usize,
}

/// Part of the replies as text, or of a line.
fn text(bytes: &[u8]) -> &str {
    str::from_utf8(bytes).unwrap_or("(no text)")
}

impl Tour {
    /// Over a new store.
    pub(crate) fn new(alloc: Global) -> Result<Self> {
        let mut device = MemDevice::empty(alloc);
        format(alloc, &mut device, SLOTS, LOG_PAGES)?;
        Ok(Tour {
            alloc,
            store: without_moments(alloc, &device)?,
            script: Vec::new(alloc),
            line: Vec::new(alloc),
            replies: 0,
            moments: 0,
            writes: 0,
        })
    }

    /// Tells of the opening.
    pub(crate) fn begin(&mut self, rt: &impl Print) -> Result<()> {
        println!(rt; "{:<20}{:<15} {:<15} ones", "", "old", "new")?;
        println!(rt; "opening")?;
        self.tell_moments(rt)
    }

    /// Takes the next byte of the script.
    pub(crate) fn take(&mut self, rt: &impl Print, byte: u8) -> Result<()> {
        self.script.push(byte)?;
        if byte == b'\n' {
            self.tell_line(rt)
        } else {
            self.line.push(byte)?;
            Ok(())
        }
    }

    /// The script is at its end. Its last line needs no end.
    pub(crate) fn end(&mut self, rt: &impl Print) -> Result<()> {
        if !self.line.is_empty() {
            self.tell_line(rt)?;
        }
        Ok(())
    }

    /// Tells of the line that was taken.
    fn tell_line(&mut self, rt: &impl Print) -> Result<()> {
        println!(rt; "> {}", text(&self.line))?;
        self.line.clear();
        self.tell_moments(rt)
    }

    /// Runs the script so far, and tells of its new moments and of its new reply.
    fn tell_moments(&mut self, rt: &impl Print) -> Result<()> {
        let store = without_moments(self.alloc, &self.store)?;
        let (status, replies, device) = run_script(self.alloc, store, &self.script, PIECE)?;
        ensure!(status == Status::Ok, "the run ended with {status:?}");
        let last = device.moment();
        for moment in self.moments.saturating_add(1)..=last {
            self.tell_moment(rt, &device, moment)?;
        }
        self.moments = last;
        let told = self.replies.min(replies.len());
        print!(rt; "{}", text(&replies[told..]))?;
        self.replies = replies.len();
        Ok(())
    }

    /// Tells what was done at a moment, and which tables a stop there leaves.
    fn tell_moment(&mut self, rt: &impl Print, device: &MemDevice, moment: usize) -> Result<()>
        requires { moment ≤ (view_of device.now).disk.moment }
    {
        let done = done_at(self.alloc, device, moment, self.writes)?;
        let [old, new, ones] = left_at(self.alloc, device, moment)?;
        println!(rt; "    {done:<16}{old:<15} {new:<15} {ones}")?;
        if device.moment_of_write(self.writes) == Some(moment) {
            self.writes = self.writes.saturating_add(1);
        }
        Ok(())
    }
}
