// The selected root of a device.
ghost use Rattle.std.specs.Prelude.{◌≡◌, ◌⊎◌, ◌≤◌, Err, IfOk, IfErr, OnOk, IsErrOf};
ghost use Rattle.rss_base.specs.DiskRule.{Told, LeavesOnly};
ghost use Rattle.rss_base.specs.Devices.{ReadsStore};
ghost use Rattle.rss_base.specs.Layout.{device_pages, IsWellFormed, HasRoot, IsRootFault};
ghost use Rattle.rss_base.specs.Layout.{IsLayoutFault};
ghost use Rattle.rss_base.specs.declared.place.Place.{Place};
ghost use Rattle.rss_base.specs.declared.fault.OpenFault.TheVariants.{Device as DeviceFailed};
ghost use Rattle.rss_base.specs.declared.fault.OpenFault.TheVariants.{NotAStore};
ghost use Rattle.rss_root.specs.Roots.{IsRootPlace};

use crate::root_page::decode;
use rss_base::{Device, HEAD_PAGES, OpenFault, PAGE_BYTES, Place, Root, device_pages};

/// Syncs a device, and reads its selected root. Answers the root and its number, 1 or 2. It writes
/// nothing, and takes no memory.
pub fn load<D: Device>(device: &mut D) -> Result<(Root, u8), OpenFault>
    ensures formed { IfOk result (λ r. IsWellFormed r.0) }
    ensures number { IfOk result (λ r. (1 ≤ r.1) × (r.1 ≤ 2)) }
    ensures size { IfOk result (λ r. (D.view device.new).size ≡ device_pages r.0) }

    // It is what the bytes say, and else the place is named at which they are out of form.
    ensures found { IfOk result (λ r. Told (D.view device.old).disk (λ pages.
        HasRoot pages r.1 r.0)) }
    ensures fault { (place : Place) → result ≡ Err (NotAStore place)
        → Told (D.view device.old).disk (λ pages. IsRootFault pages place) }
    ensures broken { (place : Place) → Told (D.view device.old).disk (λ pages.
        IsRootFault pages place
        → (result ≡ Err (NotAStore place)) ⊎ (result ≡ Err DeviceFailed)) }
    ensures place { (place : Place) → result ≡ Err (NotAStore place) → IsRootPlace place }
    ensures layout { IfErr result IsLayoutFault }
    ensures memory { IsErrOf result OpenFault.NoMemory → ⊥ }

    // A stop afterwards leaves what a read gives.
    ensures synced { OnOk result
        (Told (D.view device.old).disk (LeavesOnly (D.view device.new).disk)) }
    ensures did { ReadsStore (D.view device.old) (D.view device.new) result }
{
    device.sync()?;
    let size = device.size()?;
    if size < HEAD_PAGES {
        return Err(OpenFault::NotAStore(Place::Size));
    }
    let mut page = [0u8; PAGE_BYTES];
    device.read(0, &mut page)?;
    let number = 1 + page[0] % 2;
    device.read(u64::from(number), &mut page)?;
    let Some(root) = decode(&page) else {
        return Err(OpenFault::NotAStore(Place::Root(number)));
    };
    if size != device_pages(&root) {
        return Err(OpenFault::NotAStore(Place::Size));
    }
    Ok((root, number))
}
