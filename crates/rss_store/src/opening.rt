// The opening of a store.
ghost use Rattle.std.specs.Prelude.{◌≡◌, ◌↔◌, ◌<◌, ◌≤◌, IsTrue, IfSome, IfNone, IfOk, IfErr};
ghost use Rattle.rss_base.specs.DiskRule.{Told, LeavesOnly};
ghost use Rattle.rss_base.specs.Devices.{OnlyReads};
ghost use Rattle.rss_base.specs.Layout.{device_pages};
ghost use Rattle.rss_base.specs.Steps.{device_below};
ghost use Rattle.rss_base.specs.Answers.{open_error};
ghost use Rattle.rss_buffer.specs.Devices.{device_of};
ghost use Rattle.rss_stored.specs.LogLaws.{IsRested};
ghost use Rattle.rss_stored.specs.Store.{Stored};
ghost use Rattle.rss_check.specs.Layouts.{IsLayout, HasLayout, IsLogRead, HasLogBytes, position_most};
ghost use Rattle.rss_check.specs.Refused.{look_error};
ghost use Rattle.rss_store.specs.Stores.{IsReady, IsSaved};
ghost use Rattle.rss_store.specs.Opening.{RestsAt, NamesNone, IsReadFrom, Begins};
ghost use Rattle.rss_store.specs.Opening.{IsHandedBack, ReadsFrom, OpensStore, HasFrames};
ghost use Rattle.rss_store.specs.Parts.{view, pages_of};

use crate::DurableStore;
use rss_base::{Device, LogRecord, Marks, OpenFault, PageFault, Pages, Place, Unopened};
use rss_buffer::{Buffer, LEAST_FRAMES, MOST_FRAMES, Saving};
use rss_check::{Layout, look_through, read_layout};
use rss_log::Log;
use rss_restart::restart;
use rss_tuple::Store;
use std::alloc::Global;

/// The fault of an opening whose look has failed so. What the look finds is no store, also on a
/// device that tells nothing.
fn fault_of_look(fault: PageFault) -> OpenFault
    ensures { result ≡ look_error fault }
{
    match fault {
        PageFault::Device => OpenFault::Device,
        PageFault::Damaged(place) => OpenFault::NotAStore(place),
        PageFault::NoMemory => OpenFault::NoMemory,
    }
}

/// The store whose layout was read, with its pages in a buffer of so many frames, if they hold
/// tables.
fn store_of<D: Device>(
    alloc: Global,
    device: D,
    layout: Layout,
    frames: u32,
) -> Result<DurableStore<Buffer<D>>, Unopened<D>>
    requires least { LEAST_FRAMES ≤ frames }
    requires most { frames ≤ MOST_FRAMES }
    requires layout { IsLayout layout.root layout.number layout.table }
    requires log { IsLogRead layout.root layout.log }
    requires size { (D.view device).size ≡ device_pages layout.root }
    requires holds { Told (D.view device).disk (λ pages.
        HasLayout pages layout.root layout.number layout.table) }
    requires bytes { Told (D.view device).disk (λ pages.
        HasLogBytes pages layout.root layout.log) }
    requires synced { Told (D.view device).disk (LeavesOnly (D.view device).disk) }
    ensures read { IfOk result (λ store. ReadsFrom (D.view device) (view (⟦<Buffer<D> as Pages>⟧.view) store)) }
    ensures frames { IfOk result (λ store. HasFrames frames (view (⟦<Buffer<D> as Pages>⟧.view) store).pages) }
    ensures refused { IfErr result (λ e. IsHandedBack (D.view device) (D.view e.device) e.fault) }
{
    let Layout {
        root,
        number,
        table,
        log,
    } = layout;
    let room = root.slots.min(frames);
    let pages = Buffer::new(alloc, device, &root, table, room)?;
    let mut tuples = Store::new(pages);
    let catalog = match look_through(alloc, &mut tuples) {
        Ok(catalog) => catalog,
        Err(fault) => {
            return Err(Unopened {
                device: tuples.into_pages().into_device(),
                fault: fault_of_look(fault),
            });
        }
    };
    Ok(DurableStore {
        tuples,
        catalog,
        log,
        root,
        number,
    })
}

/// Whether the log ends with the Checkpoint record at this position, and that names no transaction.
/// None if no Checkpoint record begins there.
fn rests_at(log: &Log, checkpoint: u64) -> Option<bool>
    requires low { log.now.head ≤ checkpoint }
    requires high { checkpoint ≤ log.now.end }
    ensures some { IfSome result (λ rests. IsTrue rests ↔ RestsAt log.now checkpoint) }
    ensures none { IfNone result (NamesNone log.now checkpoint) }
{
    let Some((found, next)) = log.try_at(checkpoint) else {
        return None;
    };
    let LogRecord::Checkpoint(named) = found else {
        return None;
    };
    Some(named.as_slice().is_empty() && next == log.end())
}

impl<S: Saving> DurableStore<S> {
    /// Brings a store that was just read to rest: the pages to the tables that the log recovers,
    /// and then the disk to these by a checkpoint. If the log is at rest, nothing is done. If there
    /// are more pages than there may be, which no log of a store leads to, it ends before the
    /// checkpoint.
    fn bring_to_rest(&mut self, alloc: Global) -> Result<(), PageFault>
        requires ready { IsReady (view S.view self.old) }
        requires saved { IsSaved (view S.view self.old) }
        requires early { (view S.view self.old).log.end < position_most }
        ensures did { Begins (view S.view self.old) (view S.view self.new) result }
        ensures rested { (stored : Stored) → IsReadFrom stored (view S.view self.old) → IsRested stored
            → OnlyReads (device_below (view S.view self.old).pages) (device_below (view S.view self.new).pages) }
    {
        let checkpoint = self.root.checkpoint;
        match rests_at(&self.log, checkpoint) {
            Some(true) => {
                if self.has_room() {
                    Ok(())
                } else {
                    Err(PageFault::Damaged(Place::Log(checkpoint)))
                }
            }
            Some(false) => self.recover(alloc),
            None => Err(PageFault::Damaged(Place::Log(checkpoint))),
        }
    }

    /// The same of one whose log isn't at rest.
    fn recover(&mut self, alloc: Global) -> Result<(), PageFault>
        requires ready { IsReady (view S.view self.old) }
        requires saved { IsSaved (view S.view self.old) }
        requires early { (view S.view self.old).log.end < position_most }
        ensures { Begins (view S.view self.old) (view S.view self.new) result }
    {
        let checkpoint = self.root.checkpoint;
        restart(
            alloc,
            &mut self.tuples,
            &mut self.catalog,
            &self.log,
            checkpoint,
        )?;
        if !self.has_room() {
            return Err(PageFault::Damaged(Place::Log(checkpoint)));
        }
        self.checkpoint(Marks::new())
    }
}

/// The device of a store that isn't opened, with the fault.
fn refused<D: Device>(store: DurableStore<Buffer<D>>, fault: PageFault) -> Unopened<D>
    ensures device { result.device ≡ device_of (pages_of store) }
    ensures fault { result.fault ≡ open_error fault }
{
    let DurableStore {
        tuples,
        catalog: _,
        log: _,
        root: _,
        number: _,
    } = store;
    Unopened {
        device: tuples.into_pages().into_device(),
        fault: OpenFault::from(fault),
    }
}

/// Opens the store that a device holds, with room in memory for so many of its pages, or for all of
/// them if these are fewer. Room for all that it ever keeps of them is taken here.
///
/// It syncs the device and reads the whole store. Then it brings the tables of the last checkpoint
/// to those that the log recovers, and takes a checkpoint of them. If the log ends with its
/// Checkpoint record and that names no transaction, it writes nothing.
///
/// The device is handed back if it holds no store. All but the log is looked through before anything
/// is written, line by line: the layout, the system pages and what they define, heap pages, their
/// entries, counts, images and links. `NotAStore` names the first place at which a line is broken,
/// and on a device that tells nothing what the look finds.
///
/// After such a look it is `Damaged` at a position of the log. No record stands there that there
/// should be, or one that doesn't fit the tables; or the records from there on lead to more pages
/// than there may be. A map with more pages than half the slots is `Damaged` at `Room`, and isn't
/// looked through. A store whose log ends at 2^62 or later is sound, but there are no positions for
/// what more is logged: the answer is `NoMemory`.
pub fn open<D: Device>(
    alloc: Global,
    device: D,
    frames: u32,
) -> Result<DurableStore<Buffer<D>>, Unopened<D>>
    requires least { LEAST_FRAMES ≤ frames }
    requires most { frames ≤ MOST_FRAMES }
    ensures opened { IfOk result (λ store. OpensStore (D.view device) (view (⟦<Buffer<D> as Pages>⟧.view) store)) }
    ensures frames { IfOk result (λ store. HasFrames frames (view (⟦<Buffer<D> as Pages>⟧.view) store).pages) }
    ensures refused { IfErr result (λ e. IsHandedBack (D.view device) (D.view e.device) e.fault) }
{
    let mut device = device;
    match read_layout(alloc, &mut device) {
        Ok(layout) => open_layout(alloc, device, layout, frames),
        Err(fault) => Err(Unopened { device, fault }),
    }
}

/// Opens the store whose layout was read.
fn open_layout<D: Device>(
    alloc: Global,
    device: D,
    layout: Layout,
    frames: u32,
) -> Result<DurableStore<Buffer<D>>, Unopened<D>>
    requires least { LEAST_FRAMES ≤ frames }
    requires most { frames ≤ MOST_FRAMES }
    requires layout { IsLayout layout.root layout.number layout.table }
    requires log { IsLogRead layout.root layout.log }
    requires size { (D.view device).size ≡ device_pages layout.root }
    requires holds { Told (D.view device).disk (λ pages.
        HasLayout pages layout.root layout.number layout.table) }
    requires bytes { Told (D.view device).disk (λ pages.
        HasLogBytes pages layout.root layout.log) }
    requires synced { Told (D.view device).disk (LeavesOnly (D.view device).disk) }
    ensures opened { IfOk result (λ store. OpensStore (D.view device) (view (⟦<Buffer<D> as Pages>⟧.view) store)) }
    ensures frames { IfOk result (λ store. HasFrames frames (view (⟦<Buffer<D> as Pages>⟧.view) store).pages) }
    ensures refused { IfErr result (λ e. IsHandedBack (D.view device) (D.view e.device) e.fault) }
{
    let mut store = store_of(alloc, device, layout, frames)?;
    match store.bring_to_rest(alloc) {
        Ok(()) => Ok(store),
        Err(fault) => Err(refused(store, fault)),
    }
}
