// A page, written and brought to the disk.
ghost use Rattle.std.specs.Prelude.{◌≡◌, ◌<◌, Some, OnOk, slice_set};
ghost use Rattle.rss_base.specs.DiskRule.{Told, LeavesOnly, IsAt};
ghost use Rattle.rss_base.specs.Devices.{WritesPages};

use crate::{Device, Failed, Page};

/// Writes a page and syncs. Until that is done, a stop may leave any bytes in the page; after it,
/// a stop leaves what a read gives.
pub fn put<D: Device>(device: &mut D, at: u64, from: &Page) -> Result<(), Failed>
    requires { at < (D.view device.old).size }
    ensures written { OnOk result (Told (D.view device.old).disk (λ pages.
        (D.view device.new).disk.contents ≡ Some (slice_set pages at from.now))) }
    ensures durable { OnOk result (Told (D.view device.old).disk (λ pages.
        LeavesOnly (D.view device.new).disk (slice_set pages at from.now))) }
    ensures did { WritesPages (IsAt at) 1 (D.view device.old) (D.view device.new) result }
{
    device.write(at, from)?;
    device.sync()?;
    Ok(())
}
