// Pages over a device.
ghost use Rattle.std.proofs.Props.{props};
ghost use Rattle.rss_base.proofs.Props.{IsSegmentOf-prop};
ghost use Rattle.std.specs.Prelude.{◌≡◌, ◌*◌, ◌<◌, ◌≤◌, ℕ, [], length, None, IfOk, IfErr};
ghost use Rattle.rss_base.specs.DiskRule.{Told, LeavesOnly};
ghost use Rattle.rss_base.specs.Layout.{IsWellFormed, device_pages, slots_at};
ghost use Rattle.rss_base.specs.PageMap.{IsTable, page_count};
ghost use Rattle.rss_base.specs.StoredPages.{StandInSlots};
ghost use Rattle.rss_base.specs.declared.key.PageKey.{PageKey as Key};
ghost use Rattle.rss_base.specs.declared.fault.OpenFault.TheVariants.{NoMemory as LacksMemory};
ghost use Rattle.rss_notes.specs.Marks.{told};
ghost use Rattle.rss_frames.specs.Entries.{room};
ghost use Rattle.rss_frames.specs.Frames.{frame_in};
ghost use Rattle.rss_buffer.specs.Buffered.{HoldsMapAt, AreNotesOf, IsBuffer};
ghost use Rattle.rss_buffer.specs.Saving.{IsFresh};
ghost use Rattle.rss_buffer.specs.declared.stage.Stage.TheVariants.{Saved};

use crate::run::Run;
use crate::{Saving, Stage};
use rss_base::{Device, OpenFault, Pages, Root, Unopened, slots_at};
use rss_frames::Frames;
use rss_notes::Notes;
use rss_pagemap::SlotTable;
use rss_shadow::Shadow;
use std::alloc::{AllocError, Global};

/// The fewest pages that a buffer keeps in memory.
pub const LEAST_FRAMES: u32 = 8;

/// The most pages that a buffer keeps in memory.
pub const MOST_FRAMES: u32 = 1024;

/// The pages of a store. As many as there are frames are kept in memory; of the others, those that
/// were changed stand in slots that no saved page has.
#[derive(Drop)]
pub struct Buffer<D: Device> {
    pub(crate) device: D,
    pub(crate) shadow: Shadow,
    pub(crate) notes: Notes,
    pub(crate) frames: Frames,
    pub(crate) run: Run,
    pub(crate) log_pages: u32,
    /// Where the data slots begin on the device.
    pub(crate) first_slot: u64,
    /// The map area of the selected root.
    pub(crate) area: u8,
    pub(crate) stage: Stage,
    /// No page but a data slot is on its way to the disk.
    pub(crate) settled: bool,
    pub(crate) asks: u64,
    /// How many pages were driven out of memory, those counted that couldn't be written.
    pub(crate) outs: u64,
    ghost saved_area: { (area : ℕ) → stage ≡ Saved area → area < 2 },
    ghost holds: { IsBuffer (record {
      device = D.view device;
      first = first_slot;
      maps = shadow;
      notes = told notes;
      frames = frame_in frames;
      settled = settled;
      log_pages = log_pages;
      area = area;
      stage = stage;
      asks = asks;
      outs = outs;
      room = room frames;
    }) } by { Prim.hlevel (props, IsSegmentOf-prop) },
}

impl<D: Device> Buffer<D> {
    ghost use Rattle.rss_buffer.specs.Devices.{device_of};

    /// The pages of the store that a device holds, with its selected root and its map, so many of
    /// them in memory. Nothing is read or written.
    pub fn new(
        alloc: Global,
        device: D,
        root: &Root,
        table: SlotTable,
        frames: u32,
    ) -> Result<Buffer<D>, Unopened<D>>
        requires least { LEAST_FRAMES ≤ frames }
        requires most { frames ≤ MOST_FRAMES }
        requires formed { IsWellFormed root.now }
        requires size { (D.view device).size ≡ device_pages root.now }
        requires count { length table ≡ root.now.slots }
        requires half { 2 * page_count table ≤ length table }
        requires map { Told (D.view device).disk (HoldsMapAt table root.now.area) }
        requires synced { Told (D.view device).disk (LeavesOnly (D.view device).disk) }
        ensures device { IfOk result (λ buffer. device_of buffer ≡ device) }
        ensures held { IfOk result (λ buffer. Told (D.view device).disk (λ pages.
            StandInSlots (slots_at root.now.slots root.now.log_pages) pages table
            (⟦<Buffer<D> as Pages>⟧.view buffer).held)) }
        ensures fresh { IfOk result (λ buffer. IsFresh root.now table frames (D.view device).writes
            (⟦<Buffer<D> as Pages>⟧.view buffer) (⟦<Buffer<D> as Saving>⟧.saving buffer)) }
        ensures back { IfErr result (λ e. (e.device ≡ device) × (e.fault ≡ LacksMemory)) }
    {
        let Ok((shadow, notes, frames, run)) = new_parts(alloc, table, frames) else {
            return Err(Unopened {
                device,
                fault: OpenFault::NoMemory,
            });
        };
        Ok(Buffer {
            device,
            shadow,
            notes,
            frames,
            run,
            log_pages: root.log_pages,
            first_slot: slots_at(root.slots, root.log_pages),
            area: root.area,
            stage: Stage::Changing,
            settled: true,
            asks: 0,
            outs: 0,
        })
    }
}

/// What a buffer keeps of this map: the map itself, as it is now and as it was saved, no notes, so
/// many frames, all empty, and room for a run of pages.
fn new_parts(
    alloc: Global,
    table: SlotTable,
    frames: u32,
) -> Result<(Shadow, Notes, Frames, Run), AllocError>
    requires least { LEAST_FRAMES ≤ frames }
    requires half { 2 * page_count table ≤ length table }
    ensures table { IfOk result (λ _. IsTable table) }
    ensures maps { IfOk result (λ parts. parts.0 ≡ record { current = table; shadow = table }) }
    ensures notes { IfOk result (λ parts. AreNotesOf table (told parts.1)) }
    ensures none { IfOk result (λ parts. (key : Key) → (told parts.1).notes key ≡ None) }
    ensures frames { IfOk result (λ parts. (key : Key) → frame_in parts.2 key ≡ None) }
    ensures room { IfOk result (λ parts. room parts.2 ≡ frames) }
{
    let notes = new_notes(alloc, &table)?;
    let frames = Frames::new(alloc, frames)?;
    let run = Run::new(alloc)?;
    Ok((Shadow::new(alloc, table)?, notes, frames, run))
}

/// The notes of a map, with none on any page.
fn new_notes(alloc: Global, table: &SlotTable) -> Result<Notes, AllocError>
    ensures notes { IfOk result (λ notes. AreNotesOf table.now (told notes)) }
    ensures none { IfOk result (λ notes. (key : Key) → (told notes).notes key ≡ None) }
{
    let mut notes = Notes::new(alloc, table.slots())?;
    for owner in table.as_slice() {
        if let Some(key) = owner {
            notes.map(*key);
        }
    }
    Ok(notes)
}
