// A device in memory that another one follows.
ghost use Rattle.std.specs.Prelude.{◌≡◌, ◌^◌, ◌<◌};
ghost use Rattle.rss_device.specs.Memory.{IsKept};
ghost use Rattle.rss_device.specs.Steps.{events_in};

use crate::failing::failed;
use crate::step::Step;
use crate::steps::Steps;
use rss_base::{Device, Failed, PAGE_BYTES, Page};
use std::alloc::{AllocError, Global};

/// Pages in memory. Each page that is written, each sync and each new size is a step. A device that
/// holds the same pages at first and takes these steps, in this order, holds the same pages after
/// them. A step is kept until its reader says that it was taken. A call that finds no memory for
/// its step fails.
#[derive(Drop)]
pub struct StepDevice {
    pages: Vec<Page>,
    steps: Steps,
    faults: u64,
    writes: u64,
    ghost kept: { IsKept steps.past.first (events_in steps) pages.items },
    ghost counts: { writes < 2 ^ 64 },
}

impl StepDevice {
    ghost use Rattle.std.specs.Prelude.{◌⊎◌, ◌≤◌, length, Some, IfSome, IsNone, OnOk, slice_set};
    ghost use Rattle.rss_base.specs.DiskRule.{IsAt};
    ghost use Rattle.rss_device.specs.Steps.{IsStep};
    ghost use Rattle.rss_device.specs.StepDevice.{view_of, steps_of, gone_of, IsFresh};
    ghost use Rattle.rss_device.specs.Memory.{OnlyTouches};

    /// A device of these pages, all synced.
    pub fn new(alloc: Global, pages: Vec<Page>) -> StepDevice
        ensures { IsFresh pages.items result }
    {
        let steps = Steps::new(alloc, pages.as_slice());
        StepDevice {
            pages,
            steps,
            faults: 0,
            writes: 0,
        }
    }

    /// Its pages, as a read gives them.
    pub fn pages(&self) -> &[Page]
        ensures { (view_of self.now).disk.contents ≡ Some result.now }
    {
        self.pages.as_slice()
    }

    /// Step number `k`, counted from 0 over all steps since `new`, if it is kept.
    pub fn step(&self, k: u64) -> Option<&Step>
        ensures step { IfSome result (λ step. IsStep (steps_of self.now) k step.now) }
        ensures none { IsNone result → (length (steps_of self.now) ≤ k) ⊎ (k < gone_of self.now) }
    {
        self.steps.get(k)
    }

    /// How many of its steps, from the first on, are kept no more.
    pub fn gone(&self) -> u64
        ensures { result ≡ gone_of self.now }
    {
        self.steps.gone()
    }

    /// The first `k` steps were taken, and needn't be kept. A later call may let them go.
    pub fn forget(&self, k: u64)
        requires there { k ≤ length (steps_of self.now) }
    {
        self.steps.forget(k);
    }

    /// Writes a page. If no memory is found for the step, nothing is written.
    fn put(&mut self, at: u64, from: &Page) -> Result<(), AllocError>
        requires { at < (view_of self.old).size }
        ensures written { OnOk result (self.new.pages.items
            ≡ slice_set self.old.pages.items at from.now) }
        ensures only { OnlyTouches (IsAt at) (view_of self.old) (view_of self.new) }
    {
        self.steps.note(Step::Write(at, *from))?;
        self.pages[at as usize] = *from;
        Ok(())
    }
}

impl Device for StepDevice {
    ghost use Rattle.rss_device.specs.StepDevice.{view_of};
    ghost use Rattle.rss_device.specs.MemoryLaws.{reads, same_some};
    ghost use Rattle.std.specs.Prelude.{◌≡◌, ◌<◌, length, IfOk, OnOk, IsOk};
    ghost use Rattle.std.proofs.Common.{ap, arith, sym};
    ghost use Rattle.rss_base.specs.Faults.{HasCause};
    ghost use Rattle.rss_base.specs.DiskRule.{page, Told};
    ghost use Rattle.rss_base.specs.Devices.{OnlyReads, ReadsPages};

    ghost view = { λ d. view_of d };

    ghost reads_as_image = { λ d pages told.
        reads d.steps.past.first (events_in d.steps) d.pages.items d.kept pages told };

    ghost sized = { λ d pages told. ap length (sym (same_some told)) };

    ghost limited = { λ d. Prim.omega (arith, d.counts) };

    fn size(&mut self) -> Result<u64, Failed>
        ensures size { IfOk result (λ n. n ≡ (view_of self.new).size) }
        ensures same_size { Told (view_of self.old).disk (λ _.
            (view_of self.new).size ≡ (view_of self.old).size) }
        ensures reads { OnlyReads (view_of self.old) (view_of self.new) }
        ensures cause { HasCause (view_of self.old).faults (view_of self.new).faults result }
        ensures never_fails { IsOk result }
    {
        Ok(self.pages.len() as u64)
    }

    fn set_size(&mut self, pages: u64) -> Result<(), Failed> {
        let more = (pages as usize).saturating_sub(self.pages.len());
        if self.pages.reserve(more).is_err() || self.steps.note(Step::Resize(pages)).is_err() {
            return Err(failed(&mut self.faults));
        }
        // there is room for them
        let _ = self.pages.resize(pages as usize, [0u8; PAGE_BYTES]);
        Ok(())
    }

    fn read(&mut self, at: u64, into: &mut Page) -> Result<(), Failed>
        requires { at < (view_of self.old).size }
        ensures page { OnOk result (Told (view_of self.old).disk (λ pages.
            into.new ≡ page pages at)) }
        ensures did { ReadsPages (view_of self.old) (view_of self.new) result }
        ensures never_fails { IsOk result }
    {
        *into = self.pages[at as usize];
        Ok(())
    }

    fn write(&mut self, at: u64, from: &Page) -> Result<(), Failed> {
        self.writes = self.writes.saturating_add(1);
        if self.put(at, from).is_err() {
            return Err(failed(&mut self.faults));
        }
        Ok(())
    }

    fn write_run(&mut self, at: u64, from: &[Page]) -> Result<(), Failed> {
        self.writes = self.writes.saturating_add(from.len() as u64);
        for (k, page) in from.iter().enumerate() {
            if self.put(at + k as u64, page).is_err() {
                return Err(failed(&mut self.faults));
            }
        }
        Ok(())
    }

    fn sync(&mut self) -> Result<(), Failed> {
        if self.steps.note(Step::Sync).is_err() {
            return Err(failed(&mut self.faults));
        }
        Ok(())
    }
}
