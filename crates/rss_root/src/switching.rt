// The change from one root to the other.
ghost use Rattle.std.specs.Prelude.{◌≡◌, ◌-◌, ◌<◌, ◌≤◌, List, ℕ, IfOk, OnOk};
ghost use Rattle.rss_base.specs.DiskRule.{Told, IsTold, Passes};
ghost use Rattle.rss_base.specs.Devices.{WritesPages};
ghost use Rattle.rss_base.specs.Sizes.{head_pages};
ghost use Rattle.rss_base.specs.Layout.{root_page, selected_by};
ghost use Rattle.rss_root.specs.Roots.{Selects, SelectsEither, IsSwitchPlace, IsSwitching, IsSwitched};

use crate::root_page::encode;
use rss_base::{Device, Failed, PAGE_BYTES, Page, Root, put};

/// Writes a root to the place of the other one, brings it to the disk, and then does the same with
/// a selector that names it. Answers its number.
///
/// All that was written before is synced with the root, so it stands before the root is selected.
pub fn switch<D: Device>(device: &mut D, valid: u8, root: &Root) -> Result<u8, Failed>
    requires low { 0 < valid }
    requires high { valid < 3 }
    requires size { head_pages ≤ (D.view device.old).size }

    // At each moment a stop leaves the root that was selected or the new one, and every other page
    // as it was.
    ensures phases { IsSwitching (3 - valid) (root_page root.now)
        (D.view device.old).disk (D.view device.new).disk }
    ensures switched { OnOk result (Told (D.view device.old).disk (λ pages.
        IsSwitched pages (3 - valid) (root_page root.now) (D.view device.new).disk)) }
    ensures either { IsTold (D.view device.old).disk → (before : List ℕ)
        → Selects (D.view device.old).disk valid before
        → Passes (D.view device.old).disk (D.view device.new).disk
        (SelectsEither before (root_page root.now)) }
    ensures selects { IfOk result (λ now. IsTold (D.view device.old).disk → (before : List ℕ)
        → Selects (D.view device.old).disk valid before
        → Selects (D.view device.new).disk now (root_page root.now)) }

    ensures number { IfOk result (λ now. now ≡ 3 - valid) }
    ensures did { WritesPages (IsSwitchPlace (3 - valid)) 2
        (D.view device.old) (D.view device.new) result }
{
    let other = 3 - valid;
    put(device, u64::from(other), &encode(root))?;
    put(device, 0, &selector_of(other))?;
    Ok(other)
}

/// A selector that names this root.
fn selector_of(number: u8) -> Page
    requires low { 0 < number }
    requires high { number < 3 }
    ensures { selected_by result ≡ number }
{
    let mut selector = [0u8; PAGE_BYTES];
    selector[0] = number - 1;
    selector
}
