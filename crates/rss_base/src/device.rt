// What a store is kept on.
ghost use Rattle.std.specs.Prelude.{◌≡◌, ◌+◌, ◌<◌, ◌≤◌, length, Some, IfOk, OnOk, slice_set};
ghost use Rattle.rss_base.specs.Faults.{count_limit, counted, counted_by, HasCause};
ghost use Rattle.rss_base.specs.DiskRule.{page, IsTold, Told, IsResized, Leaves, LeavesOnly};
ghost use Rattle.rss_base.specs.DiskRule.{IsAt, IsWithin, GoesOn};
ghost use Rattle.rss_base.specs.Devices.{DeviceView, OnlyReads, ReadsPages, WritesPages};
ghost use Rattle.rss_base.specs.Runs.{run_pages, HoldsRun};

use crate::{Failed, Page};

/// How many pages a run has at most.
pub const RUN_PAGES: usize = 16;

/// Pages that are read one at a time, and written one at a time or as a run of neighbours.
///
/// Between two syncs a page that was written, also by a write that failed, may hold any bytes after
/// a stop, and every other page stays. After a sync that succeeds a stop leaves what a read gives.
pub trait Device {
    /// What there is to see of it.
    ghost view: { Self → DeviceView };

    /// How many pages there are.
    fn size(&mut self) -> Result<u64, Failed>
        ensures size { IfOk result (λ n. n ≡ (view self.new).size) }
        ensures same_size { Told (view self.old).disk (λ _.
            (view self.new).size ≡ (view self.old).size) }
        ensures reads { OnlyReads (view self.old) (view self.new) }
        ensures cause { HasCause (view self.old).faults (view self.new).faults result };

    /// Makes the device this many pages. The pages that are new hold any bytes. After a failure the
    /// device has any size.
    fn set_size(&mut self, pages: u64) -> Result<(), Failed>
        ensures size { OnOk result ((view self.new).size ≡ pages) }
        ensures kept { OnOk result (Told (view self.old).disk (λ before.
            IsResized before (view self.new).disk.contents)) }
        ensures goes_on { GoesOn (view self.old).disk (view self.new).disk }
        ensures writes { (view self.new).writes ≡ (view self.old).writes }
        ensures cause { HasCause (view self.old).faults (view self.new).faults result };

    fn read(&mut self, at: u64, into: &mut Page) -> Result<(), Failed>
        requires { at < (view self.old).size }
        ensures page { OnOk result (Told (view self.old).disk (λ pages. into.new ≡ page pages at)) }
        ensures did { ReadsPages (view self.old) (view self.new) result };

    /// Writes a page. It is sure to outlast a stop only after the next sync.
    fn write(&mut self, at: u64, from: &Page) -> Result<(), Failed>
        requires { at < (view self.old).size }
        ensures written { OnOk result (Told (view self.old).disk (λ pages.
            (view self.new).disk.contents ≡ Some (slice_set pages at from.now))) }
        ensures counts { (view self.new).writes ≡ counted (view self.old).writes }
        ensures did { WritesPages (IsAt at) 1 (view self.old) (view self.new) result };

    /// Writes a run of neighbouring pages from this place on. They are sure to outlast a stop only
    /// after the next sync.
    fn write_run(&mut self, at: u64, from: &[Page]) -> Result<(), Failed>
        requires few { length from.now ≤ run_pages }
        requires within { at + length from.now ≤ (view self.old).size }
        ensures written { OnOk result (IsTold (view self.old).disk
            → Told (view self.new).disk (HoldsRun at from.now)) }
        ensures counts { (view self.new).writes
            ≡ counted_by (length from.now) (view self.old).writes }
        ensures did { WritesPages (IsWithin at (length from.now)) (length from.now)
            (view self.old) (view self.new) result };

    /// Brings every page that was written to the disk.
    fn sync(&mut self) -> Result<(), Failed>
        ensures synced { OnOk result (Told (view self.old).disk (LeavesOnly (view self.new).disk)) }
        ensures did { ReadsPages (view self.old) (view self.new) result };

    /// A device as it reads is one of its images.
    ghost reads_as_image: { (device : Self) → Told (view device).disk (Leaves (view device).disk) };

    /// The size is that of the pages.
    ghost sized: { (device : Self) → Told (view device).disk (λ pages.
        length pages ≡ (view device).size) };

    /// A count of writes stays at its limit.
    ghost limited: { (device : Self) → (view device).writes ≤ count_limit };
}
