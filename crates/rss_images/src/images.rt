// Calls that fail, and what a stop leaves.
ghost use Rattle.std.specs.Prelude.{◌≡◌, [], ◌∷◌, Some, IfOk};
ghost use Rattle.rss_base.specs.DiskRule.{Told};
ghost use Rattle.rss_device.specs.Stop.{IsLeft};
ghost use Rattle.rss_device.specs.MemDevice.{view_of, held_at, failing_calls, next_call};

use rss_base::Page;
use rss_device::{MemDevice, Unsynced};
use std::alloc::{AllocError, Global};
use std::test::Fail;

/// What a test tries of pages that aren't synced where a stop comes. Of a selector the fill of 0
/// names root 1, and the fill of 255 names root 2.
pub const UNSYNCED: [Unsynced; 4] = [
    Unsynced::Old,
    Unsynced::New,
    Unsynced::Filled(0),
    Unsynced::Filled(255),
];

/// What a stop leaves at a moment. The error is that there is no such moment, or want of memory.
pub fn image_at(
    alloc: Global,
    device: &MemDevice,
    moment: usize,
    unsynced: Unsynced,
) -> Result<Vec<Page>, Fail>
    ensures image { IfOk result (λ image.
        (view_of device.now).disk.images moment image.items) }
    ensures left { IfOk result (λ image.
        IsLeft unsynced (held_at device.now moment) image.items) }
{
    if moment > device.moment() {
        return Err("a moment that isn't there".into());
    }
    Ok(device.image_at(alloc, moment, unsynced)?)
}

/// The device, but that its call `call` fails and no other, counted from 0 over all its calls.
pub fn failing_at(alloc: Global, device: MemDevice, call: u64) -> Result<MemDevice, AllocError>
    ensures failing { IfOk result (λ failing. failing_calls failing ≡ call ∷ []) }
    ensures next { IfOk result (λ failing. next_call failing ≡ next_call device) }
    ensures contents { IfOk result (λ failing.
        (view_of failing).disk.contents ≡ (view_of device).disk.contents) }
{
    Ok(device.failing_at(vec![in alloc; call]?))
}

/// The pages of a device, as a read gives them.
pub fn copy_of_pages(alloc: Global, device: &MemDevice) -> Result<Vec<Page>, AllocError>
    ensures { IfOk result (λ pages. (view_of device.now).disk.contents ≡ Some pages.items) }
{
    Vec::from_slice(alloc, device.pages())
}
