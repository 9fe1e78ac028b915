// A device in memory. It keeps what it held at first and each event, and so each past moment.
ghost use Rattle.std.specs.Prelude.{◌≡◌, ◌+◌, ◌-◌, ◌^◌, ◌<◌, ◌≤◌, length, min, IsTrue, Some};
ghost use Rattle.rss_device.specs.Memory.{disk_of, IsKept};

use crate::event::{Event, events_to_write};
use crate::failing::{FailingCalls, failed};
use crate::image::{Unsynced, image_after};
use rss_base::{Device, Failed, PAGE_BYTES, Page};
use std::alloc::{AllocError, Global};

/// Pages in memory, with every moment so far. Each page that is written, each sync that succeeds
/// and each new size makes a moment, so a stop may come between two pages of a run. A write that
/// fails on purpose tears its pages, each at a moment of its own, and they still read as before. A
/// call that finds no memory for what is to be kept fails.
#[derive(Drop)]
pub struct MemDevice {
    first: Vec<Page>,
    events: Vec<Event>,
    pages: Vec<Page>,
    calls: FailingCalls,
    faults: u64,
    writes: u64,
    ghost kept: { IsKept first.items events.items pages.items },
    ghost counts: { writes < 2 ^ 64 },
}

impl MemDevice {
    ghost use Rattle.std.specs.Prelude.{◌≡◌, ◌+◌, ◌-◌, ◌<◌, ◌≤◌, [], IfOk, OnOk, IfSome, IsNone};
    ghost use Rattle.std.specs.Prelude.{Some, slice_set};
    ghost use Rattle.rss_base.specs.DiskRule.{IsAt};
    ghost use Rattle.rss_base.specs.Devices.{OnlyReads};
    ghost use Rattle.rss_device.specs.Stop.{IsLeft};
    ghost use Rattle.rss_device.specs.MemDevice.{view_of, IsFresh, held_at, writes_by};
    ghost use Rattle.rss_device.specs.MemDevice.{failing_calls, next_call};
    ghost use Rattle.rss_device.specs.Memory.{OnlyTouches};

    /// A device of these pages, all synced.
    pub fn new(alloc: Global, pages: Vec<Page>) -> Result<Self, AllocError>
        ensures { IfOk result (IsFresh pages.items) }
    {
        Ok(MemDevice {
            first: Vec::from_slice(alloc, pages.as_slice())?,
            events: Vec::new(alloc),
            pages,
            calls: FailingCalls::none(alloc),
            faults: 0,
            writes: 0,
        })
    }

    /// A device of no pages.
    pub fn empty(alloc: Global) -> Self
        ensures { IsFresh [] result }
    {
        MemDevice {
            first: Vec::new(alloc),
            events: Vec::new(alloc),
            pages: Vec::new(alloc),
            calls: FailingCalls::none(alloc),
            faults: 0,
            writes: 0,
        }
    }

    /// Fails the calls whose numbers are in `calls`, counted from 0 over all calls of the device,
    /// and no others.
    pub fn failing_at(self, calls: Vec<u64>) -> Self
        ensures reads { OnlyReads (view_of self) (view_of result) }
        ensures moment { (view_of result).disk.moment ≡ (view_of self).disk.moment }
        ensures faults { (view_of result).faults ≡ (view_of self).faults }
        ensures failing { failing_calls result ≡ calls.items }
        ensures next { next_call result ≡ next_call self }
    {
        let mut device = self;
        device.calls.fail_at(calls);
        device
    }

    /// The number of this moment.
    pub fn moment(&self) -> usize
        ensures { result ≡ (view_of self.now).disk.moment }
    {
        self.events.len()
    }

    /// The moment right after the write of page number `k`, counted from 0 over all pages that were
    /// written, each page of a run and those of writes that failed among them. A stop before it comes
    /// at the moment before, and one within it leaves old or other bytes in its page.
    pub fn moment_of_write(&self, k: usize) -> Option<usize>
        ensures within { IfSome result (λ t. t ≤ (view_of self.now).disk.moment) }
        ensures before { IfSome result (λ t. writes_by self.now (t - 1) ≡ k) }
        ensures after { IfSome result (λ t. writes_by self.now t ≡ k + 1) }
        ensures none { IsNone result
            → writes_by self.now (view_of self.now).disk.moment ≤ k }
    {
        events_to_write(self.events.as_slice(), k)
    }

    /// What a read gives.
    pub fn pages(&self) -> &[Page]
        ensures { (view_of self.now).disk.contents ≡ Some result.now }
    {
        self.pages.as_slice()
    }

    /// What a stop at a moment may leave.
    pub fn image_at(
        &self,
        alloc: Global,
        moment: usize,
        unsynced: Unsynced,
    ) -> Result<Vec<Page>, AllocError>
        requires { moment ≤ (view_of self.now).disk.moment }
        ensures image { IfOk result (λ image. (view_of self.now).disk.images moment image.items) }
        ensures left { IfOk result (λ image.
            IsLeft unsynced (held_at self.now moment) image.items) }
    {
        image_after(
            alloc,
            self.first.as_slice(),
            &self.events[..moment],
            unsynced,
        )
    }

    /// Writes a page. If no memory is found for the event, nothing is written.
    fn put(&mut self, at: u64, from: &Page) -> Result<(), AllocError>
        requires { at < (view_of self.old).size }
        ensures written { OnOk result (self.new.pages.items
            ≡ slice_set self.old.pages.items at from.now) }
        ensures only { OnlyTouches (IsAt at) (view_of self.old) (view_of self.new) }
        ensures calls { self.new.calls ≡ self.old.calls }
    {
        self.events.push(Event::Wrote(at, *from))?;
        self.pages[at as usize] = *from;
        Ok(())
    }

    /// Tears a page, if memory is found for the event. It still reads as before.
    fn tear(&mut self, at: u64)
        requires { at < (view_of self.old).size }
        ensures only { OnlyTouches (IsAt at) (view_of self.old) (view_of self.new) }
        ensures calls { self.new.calls ≡ self.old.calls }
    {
        let _ = self.events.push(Event::Torn(at));
    }
}

// A call states what it does on every device, and that it fails where its number is named.
impl Device for MemDevice {
    ghost use Rattle.std.specs.Prelude.{◌≡◌, ◌+◌, ◌<◌, ◌≤◌, length, Some, IfOk, OnOk, slice_set};
    ghost use Rattle.rss_base.specs.Faults.{counted, counted_by, HasCause};
    ghost use Rattle.rss_base.specs.DiskRule.{page, IsTold, Told, IsResized, LeavesOnly};
    ghost use Rattle.rss_base.specs.DiskRule.{IsAt, IsWithin, GoesOn};
    ghost use Rattle.rss_base.specs.Devices.{OnlyReads, ReadsPages, WritesPages};
    ghost use Rattle.rss_base.specs.Runs.{run_pages, HoldsRun};
    ghost use Rattle.rss_device.specs.MemDevice.{view_of, IsNumbered, FailsAsNumbered};
    ghost use Rattle.rss_device.specs.MemoryLaws.{reads, same_some};
    ghost use Rattle.std.proofs.Common.{ap, arith, sym};

    ghost view = { λ m. view_of m };

    ghost reads_as_image = { λ m pages told.
        reads m.first.items m.events.items m.pages.items m.kept pages told };

    ghost sized = { λ m pages told. ap length (sym (same_some told)) };

    ghost limited = { λ m. Prim.omega (arith, m.counts) };

    fn size(&mut self) -> Result<u64, Failed>
        ensures size { IfOk result (λ n. n ≡ (view_of self.new).size) }
        ensures same_size { Told (view_of self.old).disk (λ _.
            (view_of self.new).size ≡ (view_of self.old).size) }
        ensures reads { OnlyReads (view_of self.old) (view_of self.new) }
        ensures cause { HasCause (view_of self.old).faults (view_of self.new).faults result }
        ensures numbered { IsNumbered self.old self.new result }
        ensures only_numbered { FailsAsNumbered self.old result }
    {
        if self.calls.next_fails() {
            return Err(failed(&mut self.faults));
        }
        Ok(self.pages.len() as u64)
    }

    fn set_size(&mut self, pages: u64) -> Result<(), Failed>
        ensures size { OnOk result ((view_of self.new).size ≡ pages) }
        ensures kept { OnOk result (Told (view_of self.old).disk (λ before.
            IsResized before (view_of self.new).disk.contents)) }
        ensures goes_on { GoesOn (view_of self.old).disk (view_of self.new).disk }
        ensures writes { (view_of self.new).writes ≡ (view_of self.old).writes }
        ensures cause { HasCause (view_of self.old).faults (view_of self.new).faults result }
        ensures numbered { IsNumbered self.old self.new result }
    {
        if self.calls.next_fails() || self.events.push(Event::Sized(pages)).is_err() {
            return Err(failed(&mut self.faults));
        }
        if self
            .pages
            .resize(pages as usize, [0u8; PAGE_BYTES])
            .is_err()
        {
            let _ = self.events.pop();
            return Err(failed(&mut self.faults));
        }
        Ok(())
    }

    fn read(&mut self, at: u64, into: &mut Page) -> Result<(), Failed>
        requires { at < (view_of self.old).size }
        ensures page { OnOk result (Told (view_of self.old).disk (λ pages.
            into.new ≡ page pages at)) }
        ensures did { ReadsPages (view_of self.old) (view_of self.new) result }
        ensures numbered { IsNumbered self.old self.new result }
        ensures only_numbered { FailsAsNumbered self.old result }
    {
        if self.calls.next_fails() {
            return Err(failed(&mut self.faults));
        }
        *into = self.pages[at as usize];
        Ok(())
    }

    fn write(&mut self, at: u64, from: &Page) -> Result<(), Failed>
        requires { at < (view_of self.old).size }
        ensures written { OnOk result (Told (view_of self.old).disk (λ pages.
            (view_of self.new).disk.contents ≡ Some (slice_set pages at from.now))) }
        ensures counts { (view_of self.new).writes ≡ counted (view_of self.old).writes }
        ensures did { WritesPages (IsAt at) 1 (view_of self.old) (view_of self.new) result }
        ensures numbered { IsNumbered self.old self.new result }
    {
        self.writes = self.writes.saturating_add(1);
        if self.calls.next_fails() {
            self.tear(at);
            return Err(failed(&mut self.faults));
        }
        if self.put(at, from).is_err() {
            return Err(failed(&mut self.faults));
        }
        Ok(())
    }

    fn write_run(&mut self, at: u64, from: &[Page]) -> Result<(), Failed>
        requires few { length from.now ≤ run_pages }
        requires within { at + length from.now ≤ (view_of self.old).size }
        ensures written { OnOk result (IsTold (view_of self.old).disk
            → Told (view_of self.new).disk (HoldsRun at from.now)) }
        ensures counts { (view_of self.new).writes
            ≡ counted_by (length from.now) (view_of self.old).writes }
        ensures did { WritesPages (IsWithin at (length from.now)) (length from.now)
            (view_of self.old) (view_of self.new) result }
        ensures numbered { IsNumbered self.old self.new result }
    {
        self.writes = self.writes.saturating_add(from.len() as u64);
        let fails = self.calls.next_fails();
        for (k, page) in from.iter().enumerate() {
            let place = at + k as u64;
            if fails {
                self.tear(place);
            } else if self.put(place, page).is_err() {
                return Err(failed(&mut self.faults));
            }
        }
        if fails {
            return Err(failed(&mut self.faults));
        }
        Ok(())
    }

    fn sync(&mut self) -> Result<(), Failed>
        ensures synced { OnOk result
            (Told (view_of self.old).disk (LeavesOnly (view_of self.new).disk)) }
        ensures did { ReadsPages (view_of self.old) (view_of self.new) result }
        ensures numbered { IsNumbered self.old self.new result }
    {
        if self.calls.next_fails() || self.events.push(Event::Synced).is_err() {
            return Err(failed(&mut self.faults));
        }
        Ok(())
    }
}
