// The opening of a store.
ghost use Rattle.std.specs.Prelude.{◌≡◌, ◌≤◌, IfOk, IfErr};
ghost use Rattle.rss_buffer.specs.Devices.{device_of};
ghost use Rattle.rss_store.specs.Opening.{IsHandedBack, HasFrames};
ghost use Rattle.rss_rsi.specs.Parts.{pages_below, view};
ghost use Rattle.rss_rsi.specs.Opening.{OpensOver};

use crate::Rss;
use rss_base::{Device, OpenFault, Pages, Unopened};
use rss_buffer::{Buffer, LEAST_FRAMES, MOST_FRAMES};
use rss_scan::Scans;
use rss_session::Session;
use std::alloc::Global;

/// Opens the store that a device holds, with room in memory for so many of its pages, or for all of
/// them if these are fewer. Room for all that it ever keeps of them is taken here.
///
/// It syncs the device and reads the whole store. Then it brings the tables of the last checkpoint
/// to those that the log recovers, and takes a checkpoint of them, unless the store is at rest;
/// then it writes nothing. No transaction is open.
///
/// The device is handed back if it holds no store, or one whose positions of the log are used up:
/// that is answered as want of memory. Which fault comes when is said at `rss_store::open`.
pub fn open<D: Device>(alloc: Global, device: D, frames: u32) -> Result<Rss<Buffer<D>>, Unopened<D>>
    requires least { LEAST_FRAMES ≤ frames }
    requires most { frames ≤ MOST_FRAMES }
    ensures opened { IfOk result (λ store. OpensOver (D.view device)
        (D.view (device_of (pages_below store))) (view store)) }
    ensures frames { IfOk result (λ store.
        HasFrames frames (⟦<Buffer<D> as Pages>⟧.view (pages_below store))) }
    ensures refused { IfErr result (λ e. IsHandedBack (D.view device) (D.view e.device) e.fault) }
{
    let Ok(scans) = Scans::new(alloc) else {
        return Err(Unopened {
            device,
            fault: OpenFault::NoMemory,
        });
    };
    let store = rss_store::open(alloc, device, frames)?;
    Ok(Rss::new(alloc, Session::new(alloc, store), scans))
}
