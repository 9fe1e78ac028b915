// The saving of pages.
ghost use Rattle.std.specs.Prelude.{◌≡◌, ◌≢◌, ◌+◌, ◌-◌, ◌*◌, ◌<◌, ◌≤◌, length, refl, slice_set, true, false, Some, IfOk, OnOk, OnErr};
ghost use Rattle.rss_base.specs.DiskRule.{Told, IsTold, IsAt, WritesIn, Passes};
ghost use Rattle.rss_base.specs.Layout.{root_page, map_pages, log_at};
ghost use Rattle.rss_base.specs.PageMap.{page_count};
ghost use Rattle.rss_base.specs.Paged.{WritesWaiting, LeavesFixed};
ghost use Rattle.rss_base.specs.StoredPages.{StandInSlots, SavesPages};
ghost use Rattle.rss_base.specs.declared.key.PageKey.{PageKey as Key};
ghost use Rattle.rss_root.specs.Roots.{IsPhase, IsSwitchPlace, IsSwitched};
ghost use Rattle.rss_buffer.specs.Buffered.{NoneChanged, WritesPages};
ghost use Rattle.rss_buffer.specs.Gathered.{IsWritten};
ghost use Rattle.rss_buffer.specs.Saved.{IsSaveable, AreWritten, unsynced};
ghost use Rattle.rss_buffer.specs.Saving.{SavingView, maps_of, first_slot, AreSaveable, SavingStep, SavingCall, IsRootOf, LeavesSaved, IsAdopted};
ghost use Rattle.rss_buffer.specs.declared.stage.Stage.{Stage as AnyStage};

use crate::{Buffer, Stage};
use rss_base::{Device, Page, PageFault, Pages, Root};
use rss_shadow::Shadow;

/// Pages that are saved all at once. First they are written, with the map of their slots, to where
/// no stop finds them; then a root is selected that names this map, and from there on a stop finds
/// them all. At last the map is adopted, so that its slots are not written again.
pub trait Saving: Pages {
    /// What more there is to see of them.
    ghost saving: { Self → SavingView };

    fn shadow(&self) -> &Shadow
        ensures { result.now ≡ maps_of (Self.view self.now) (saving self.now) };

    fn log_pages(&self) -> u32
        ensures { result ≡ (Self.view self.now).backing.log_pages };

    /// The map area that the selected root names.
    fn area(&self) -> u8
        ensures { result ≡ (Self.view self.now).backing.area };

    fn stage(&self) -> Stage
        ensures { result ≡ (saving self.now).stage };

    /// Writes each changed page to its slot, in the order of the slots.
    fn flush(&mut self) -> Result<(), PageFault>
        ensures stand { OnOk result
            (IsTold (Self.view self.old).disk → Told (Self.view self.new).disk
            (λ pages. StandInSlots (first_slot (Self.view self.old)) pages
            (saving self.old).current (Self.view self.old).held)) }
        ensures none_wait { OnOk result ((key : Key) → (saving self.new).waiting key ≡ false) }
        ensures stage { (saving self.new).stage ≡ (saving self.old).stage }
        ensures backing { (Self.view self.new).backing ≡ (Self.view self.old).backing }
        ensures leaves { LeavesFixed ((Self.view self.old).settled ≡ true)
            ((Self.view self.new).settled ≡ true)
            (Self.view self.old).disk (Self.view self.new).disk (Self.view self.old).fixed
            (Self.view self.new).fixed }
        ensures writes { WritesWaiting (saving self.old).waiting 0 (Self.view self.old).writes
            (Self.view self.new).writes }
        ensures did { SavingCall (Self.view self.old) (Self.view self.new) (saving self.old)
            (saving self.new) result };

    /// Writes each changed page to its slot, and the current map to an area that the selected root
    /// doesn't name.
    fn save(&mut self, area: u8) -> Result<(), PageFault>
        requires area { area < 2 }
        requires other { area ≢ (Self.view self.old).backing.area }
        ensures saved { OnOk result
            (IsTold (Self.view self.old).disk → Told (Self.view self.new).disk
            (λ pages. SavesPages (Self.view self.old).backing.log_pages area pages
            (saving self.old).current (Self.view self.old).held)) }
        ensures none_wait { OnOk result ((key : Key) → (saving self.new).waiting key ≡ false) }
        ensures stage { OnOk result ((saving self.new).stage ≡ AnyStage.Saved area) }
        ensures backing { (Self.view self.new).backing ≡ (Self.view self.old).backing }
        ensures only { WritesIn
            (IsSaveable (first_slot (Self.view self.old)) area (Self.view self.old).backing.shadow)
            (Self.view self.old).disk (Self.view self.new).disk }
        ensures writes { WritesWaiting (saving self.old).waiting
            (map_pages (Self.view self.old).slots) (Self.view self.old).writes
            (Self.view self.new).writes }
        ensures did { SavingCall (Self.view self.old) (Self.view self.new) (saving self.old)
            (saving self.new) result };

    /// Writes a log page, counted on the device, and no other page.
    fn write_piece(&mut self, at: u64, piece: &Page) -> Result<(), PageFault>
        requires low { log_at (Self.view self.old).slots ≤ at }
        requires high { at
            < log_at (Self.view self.old).slots + (Self.view self.old).backing.log_pages }
        ensures written { OnOk result (Told (Self.view self.old).disk
            (λ pages. (Self.view self.new).disk.contents ≡ Some (slice_set pages at piece.now))) }
        ensures stage { (saving self.new).stage ≡ unsynced (saving self.old).stage }
        ensures backing { (Self.view self.new).backing ≡ (Self.view self.old).backing }
        ensures only { WritesIn (IsAt at) (Self.view self.old).disk (Self.view self.new).disk }
        ensures writes { (Self.view self.new).writes ≤ (Self.view self.old).writes + 1 }
        ensures did { SavingCall (Self.view self.old) (Self.view self.new) (saving self.old)
            (saving self.new) result };

    /// Writes a root to the place of the other one, and then selects it. Answers its number.
    ///
    /// At each moment a stop leaves the root that was selected or the new one. After it, if the
    /// current map was saved to the new root's area, it leaves that map with its pages.
    fn switch(&mut self, valid: u8, root: &Root) -> Result<u8, PageFault>
        requires low { 0 < valid }
        requires high { valid < 3 }
        ensures phases { Told (Self.view self.old).disk
            (λ pages. Passes (Self.view self.old).disk (Self.view self.new).disk
            (IsPhase (Self.view self.old).disk pages (3 - valid) (root_page root.now))) }
        ensures switched { OnOk result (Told (Self.view self.old).disk
            (λ pages. IsSwitched pages (3 - valid) (root_page root.now)
            (Self.view self.new).disk)) }
        ensures holds { OnOk result
            (IsTold (Self.view self.old).disk
            → IsRootOf (Self.view self.old) (saving self.old) root.now
            → LeavesSaved (Self.view self.new).disk (3 - valid) root.now (Self.view self.old)
            (saving self.old)) }
        ensures number { IfOk result (λ now. now ≡ 3 - valid) }
        ensures stage { OnOk result
            ((saving self.old).stage ≡ AnyStage.Saved root.now.area
            → (saving self.new).stage ≡ AnyStage.Switched) }
        ensures unsaved { (saving self.old).stage ≢ AnyStage.Saved root.now.area
            → (saving self.new).stage ≡ AnyStage.Changing }
        ensures err_stage { OnErr result ((saving self.new).stage ≡ AnyStage.Changing) }
        ensures area { OnOk result ((Self.view self.new).backing.area ≡ root.now.area) }
        ensures err_area { OnErr result
            ((Self.view self.new).backing.area ≡ (Self.view self.old).backing.area) }
        ensures shadow { (Self.view self.new).backing.shadow ≡ (Self.view self.old).backing.shadow }
        ensures settled { OnOk result ((Self.view self.new).settled ≡ true) }
        ensures only { WritesIn (IsSwitchPlace (3 - valid))
            (Self.view self.old).disk (Self.view self.new).disk }
        ensures writes { (Self.view self.new).writes ≤ (Self.view self.old).writes + 2 }
        ensures did { SavingCall (Self.view self.old) (Self.view self.new) (saving self.old)
            (saving self.new) result };

    /// Makes the current map the shadow map, once it is saved and its root selected. What it holds
    /// is fixed from now on.
    fn adopt(&mut self)
        requires half { 2 * page_count (saving self.old).current ≤ (Self.view self.old).slots }
        requires stage { (saving self.old).stage ≡ AnyStage.Switched }
        ensures adopted { IsAdopted (saving self.old).current (Self.view self.old)
            (Self.view self.new) }
        ensures stage { (saving self.new).stage ≡ AnyStage.Changing }
        ensures did { SavingStep (Self.view self.old) (Self.view self.new) (saving self.old)
            (saving self.new) };

    /// The current map is a table of the slots, and all else follows from it and from what was
    /// saved: which pages are mapped, which were changed, and what is fixed.
    ghost saveable: { (pages : Self) → AreSaveable (Self.view pages) (saving pages) };
}

impl<D: Device> Saving for Buffer<D> {
    ghost use Rattle.rss_buffer.specs.Views.{saving_view};
    ghost use Rattle.rss_buffer.specs.Devices.{buffer_view};
    ghost use Rattle.rss_buffer.specs.BufferLaws.{saveable_by};

    ghost saving = { λ b. saving_view (buffer_view b) };

    ghost saveable = { λ b. saveable_by b.holds };

    fn shadow(&self) -> &Shadow {
        &self.shadow
    }

    fn log_pages(&self) -> u32 {
        self.log_pages
    }

    fn area(&self) -> u8 {
        self.area
    }

    fn stage(&self) -> Stage {
        self.stage
    }

    fn flush(&mut self) -> Result<(), PageFault> {
        self.flush_all()
    }

    fn save(&mut self, area: u8) -> Result<(), PageFault> {
        self.flush_all()?;
        self.settled = false;
        self.stage = Stage::Changing;
        self.shadow.current().write_table(&mut self.device, area)?;
        self.stage = Stage::Saved(area);
        Ok(())
    }

    fn write_piece(&mut self, at: u64, piece: &Page) -> Result<(), PageFault> {
        self.settled = false;
        self.stage = unsynced(self.stage);
        self.device.write(at, piece)?;
        Ok(())
    }

    fn switch(&mut self, valid: u8, root: &Root) -> Result<u8, PageFault> {
        let is_saved = self.stage == Stage::Saved(root.area);
        self.settled = false;
        self.stage = Stage::Changing;
        let number = rss_root::switch(&mut self.device, valid, root)?;
        self.area = root.area;
        self.settled = true;
        if is_saved {
            self.stage = Stage::Switched;
        }
        Ok(number)
    }

    fn adopt(&mut self) {
        self.shadow.adopt();
        self.stage = Stage::Changing;
        self.settled = true;
    }
}

impl<D: Device> Buffer<D> {
    ghost use Rattle.rss_buffer.specs.Devices.{device_of, buffer_view};

    /// Writes each changed page to its slot, in the order of the slots.
    fn flush_all(&mut self) -> Result<(), PageFault>
        ensures none_changed { OnOk result (NoneChanged (buffer_view self.new).frames) }
        ensures did { WritesPages (buffer_view self.old) (buffer_view self.new) result }
    {
        for slot in 0..self.shadow.current().slots() {
            self.flush_slot(slot)?;
        }
        Ok(())
    }

    /// Writes the page of a slot there, if it is in memory and was changed.
    fn flush_slot(&mut self, slot: u32) -> Result<(), PageFault>
        requires { slot < length self.old.shadow.current }
        ensures written { OnOk result
            (IsWritten self.old.shadow.current (buffer_view self.new).frames slot) }
        ensures did { WritesPages (buffer_view self.old) (buffer_view self.new) result }
    {
        // Most slots are free, and are passed over at once.
        match self.shadow.current().owner(slot) {
            Some(_) => self.write_back(slot),
            None => Ok(()),
        }
    }

    /// The device.
    pub fn device(&self) -> &D
        ensures { result.now ≡ device_of self.now }
    {
        &self.device
    }

    /// The device, as the last call left it. Changed pages that were not written are dropped.
    pub fn into_device(self) -> D
        ensures { result ≡ device_of self }
    {
        let Buffer {
            device,
            shadow: _,
            notes: _,
            frames: _,
            run: _,
            log_pages: _,
            first_slot: _,
            area: _,
            stage: _,
            settled: _,
            asks: _,
            outs: _,
        } = self;
        device
    }
}

/// How far the saving has come once some page is on its way to the disk.
fn unsynced(stage: Stage) -> Stage
    ensures { result ≡ unsynced stage }
{
    match stage {
        Stage::Switched => Stage::Changing,
        Stage::Changing | Stage::Saved(_) => stage,
    }
}
