// A store whose log has come far: it opens where the log ends below 2^62, and nowhere else.
ghost use Rattle.std.specs.Prelude.{◌+◌, ◌≤◌};
ghost use Rattle.rss_base.specs.Sizes.{page_bytes};

use crate::harness::{PRESENT, PROBE, WHOLE, assert_probe, has_writes, store_with_tuple};
use rss_base::{Page, put_u64, u64_at};
use rss_device::MemDevice;
use rss_images::{assert_same, assert_same_slices};
use rss_scripts::run_script;
use rss_top::Status;
use std::alloc::Global;
use std::test::Fail;

/// How many bytes the log pages have. A log that is moved by a multiple of these has each of its bytes
/// where it was.
const RING: u64 = 8 * 4000;

/// The greatest multiple of these below 2^62. It lies 27,904 below.
const FAR: u64 = 4_611_686_018_427_360_000;

/// Moves the position that stands here in a root.
fn move_position(root: &mut Page, at: usize, by: u64)
    requires { at + 8 ≤ page_bytes }
{
    let position = u64_at(root, at);
    put_u64(root, at, position.wrapping_add(by));
}

/// A small store at rest with a tuple, and its log moved by so much: its head, its last checkpoint, and
/// its end, which is below 100.
fn with_log_moved(alloc: Global, by: u64) -> Result<MemDevice, Fail> {
    let mut pages = store_with_tuple(alloc)?;
    let selector = pages.first().ok_or("a selector")?;
    let selected = 1 + usize::from(selector[0] % 2);
    let root = pages.get_mut(selected).ok_or("a root")?;
    move_position(root, 24, by);
    move_position(root, 32, by);
    move_position(root, 40, by);
    Ok(MemDevice::new(alloc, pages)?)
}

#[test]
fn a_log_whose_positions_are_used_up_is_not_opened(rt: HostRuntime) -> Result<(), Fail> {
    let alloc = rt.alloc();
    assert_probe(alloc, with_log_moved(alloc, FAR)?, PRESENT, "below 2^62")?;
    let device = with_log_moved(alloc, FAR + RING)?;
    let (status, replies, device) = run_script(alloc, device, PROBE, WHOLE)?;
    assert_same(&status, &Status::NoMemory, "beyond 2^62")?;
    assert_same_slices(replies.as_slice(), b"", "beyond 2^62")?;
    assert_same(&has_writes(&device, 0), &true, "beyond 2^62")
}
