// The pages of a buffer, one at a time.
ghost use Rattle.std.specs.Prelude.{◌≡◌, ◌≢◌, ◌⊎◌, ◌+◌, ◌<◌, ◌≤◌, length, true, None, is_some, IsSome, OnOk, OnErr};
ghost use Rattle.rss_base.specs.Faults.{counted};
ghost use Rattle.rss_base.specs.StoredPages.{mapped_by};
ghost use Rattle.rss_base.specs.declared.key.PageKey.{PageKey as Key};
ghost use Rattle.rss_base.specs.Runs.{run_pages};
ghost use Rattle.rss_base.specs.Sizes.{page_bytes};
ghost use Rattle.rss_base.specs.Steps.{no_page, only, StaysIdle, PagesStep, PagesCall, CopiesBytes};
ghost use Rattle.rss_frames.specs.Frames.{HasRoom, IsNewest};
ghost use Rattle.rss_buffer.specs.Buffered.{asked_for, IsFilled, KeepsPages, MovesPages, WritesPages};
ghost use Rattle.rss_buffer.specs.Gathered.{IsInFrame, IsUnchanged, IsWritten};

use crate::run::settle;
use crate::{Buffer, Stage};
use rss_base::{Device, PAGE_BYTES, Page, PageFault, PageKey, Pages, Space};

impl<D: Device> Buffer<D> {
    ghost use Rattle.rss_buffer.specs.Views.{pages_view};
    ghost use Rattle.rss_buffer.specs.Devices.{buffer_view};

    /// Writes the page of a slot there, if it is in memory and was changed, and in the same run
    /// those of the slots after it, up to the first that isn't so.
    pub(crate) fn write_back(&mut self, slot: u32) -> Result<(), PageFault>
        requires { slot < length self.old.shadow.current }
        ensures written { OnOk result
            (IsWritten self.old.shadow.current (buffer_view self.new).frames slot) }
        ensures same_there { (key : Key) → is_some ((buffer_view self.new).frames key)
            ≡ is_some ((buffer_view self.old).frames key) }
        ensures few { (buffer_view self.new).device.writes
            ≤ (buffer_view self.old).device.writes + run_pages }
        ensures did { WritesPages (buffer_view self.old) (buffer_view self.new) result }
    {
        let owners = self.shadow.current();
        let count = self.run.gather(owners, &self.frames, slot);
        if count == 0 {
            return Ok(());
        }
        let at = self.first_slot + u64::from(slot);
        self.device.write_run(at, self.run.first(count))?;
        settle(&mut self.frames, owners, slot, count);
        Ok(())
    }

    /// Makes sure that a frame is free. The page that leaves is written to its slot first, if it
    /// was changed. It isn't the one that was used last.
    fn make_room(&mut self) -> Result<(), PageFault>
        ensures full { OnErr result (IsFilled (buffer_view self.old)) }
        ensures room { OnOk result (HasRoom self.new.frames) }
        ensures none_more { (key : Key) → (buffer_view self.old).frames key ≡ None
            → (buffer_view self.new).frames key ≡ None }
        ensures stays { (key : Key) → IsNewest key self.old.frames
            → IsSome ((buffer_view self.new).frames key) }
        ensures did { MovesPages (buffer_view self.old) (buffer_view self.new) result }
    {
        if !self.frames.is_full() {
            return Ok(());
        }
        let Some((key, changed)) = self.frames.eldest() else {
            unreachable!()
        };
        self.outs = one_more(self.outs);
        self.write_out(key, changed)?;
        self.frames.remove(key);
        Ok(())
    }

    /// Writes a page that is in memory to its slot, if it was changed.
    fn write_out(&mut self, key: PageKey, changed: bool) -> Result<(), PageFault>
        requires { IsInFrame (buffer_view self.old).frames key changed }
        ensures written { OnOk result (IsUnchanged (buffer_view self.new).frames key) }
        ensures same_there { (other : Key) → is_some ((buffer_view self.new).frames other)
            ≡ is_some ((buffer_view self.old).frames other) }
        ensures few { (buffer_view self.new).device.writes
            ≤ (buffer_view self.old).device.writes + run_pages }
        ensures did { WritesPages (buffer_view self.old) (buffer_view self.new) result }
    {
        if !changed {
            return Ok(());
        }
        let Some(slot) = self.shadow.slot_of(key) else {
            unreachable!()
        };
        self.write_back(slot)
    }

    /// Makes sure that a frame is free, if none has the page.
    fn make_room_for(&mut self, key: PageKey) -> Result<(), PageFault>
        ensures full { OnErr result (IsFilled (buffer_view self.old)) }
        ensures room { OnOk result
            (HasRoom self.new.frames ⊎ IsSome ((buffer_view self.new).frames key)) }
        ensures did { MovesPages (buffer_view self.old) (buffer_view self.new) result }
    {
        if self.frames.has(key) {
            return Ok(());
        }
        self.make_room()
    }

    /// Brings a page into memory that is asked for. The one that was used last before stays there.
    fn ask(&mut self, key: PageKey) -> Result<(), PageFault>
        requires { mapped_by self.old.shadow.current key ≡ true }
        ensures newest { OnOk result (IsNewest key self.new.frames) }
        ensures stays { (other : Key) → IsNewest other self.old.frames
            → IsSome ((buffer_view self.new).frames other) }
        ensures keeps { KeepsPages (asked_for (buffer_view self.old)) (buffer_view self.new) }
        ensures idle { IsSome ((buffer_view self.old).frames key)
            → StaysIdle (pages_view (buffer_view self.old)) (pages_view (buffer_view self.new)) }
        ensures did { PagesCall no_page 1 1
            (pages_view (buffer_view self.old)) (pages_view (buffer_view self.new)) result }
    {
        self.asks = one_more(self.asks);
        self.bring(key)
    }

    /// Brings a page into memory.
    fn bring(&mut self, key: PageKey) -> Result<(), PageFault>
        requires { mapped_by self.old.shadow.current key ≡ true }
        ensures newest { OnOk result (IsNewest key self.new.frames) }
        ensures stays { (other : Key) → IsNewest other self.old.frames
            → IsSome ((buffer_view self.new).frames other) }
        ensures idle { IsSome ((buffer_view self.old).frames key)
            → StaysIdle (pages_view (buffer_view self.old)) (pages_view (buffer_view self.new)) }
        ensures did { MovesPages (buffer_view self.old) (buffer_view self.new) result }
    {
        if self.frames.touch(key) {
            return Ok(());
        }
        self.read_in(key)
    }

    /// Brings a page into memory that isn't there.
    fn read_in(&mut self, key: PageKey) -> Result<(), PageFault>
        requires mapped { mapped_by self.old.shadow.current key ≡ true }
        requires absent { (buffer_view self.old).frames key ≡ None }
        ensures newest { OnOk result (IsNewest key self.new.frames) }
        ensures stays { (other : Key) → IsNewest other self.old.frames
            → IsSome ((buffer_view self.new).frames other) }
        ensures did { MovesPages (buffer_view self.old) (buffer_view self.new) result }
    {
        self.make_room()?;
        let Some(slot) = self.shadow.slot_of(key) else {
            unreachable!()
        };
        let place = self.first_slot + u64::from(slot);
        self.frames.read_in(key, &mut self.device, place)?;
        Ok(())
    }

    /// Copies so many bytes of a page into another one, if both are in memory.
    fn copy_there(&mut self, from: PageKey, from_at: usize, to: PageKey, to_at: usize, count: usize)
        requires from { IsSome ((buffer_view self.old).frames from) }
        requires to { IsSome ((buffer_view self.old).frames to) }
        requires apart { from ≢ to }
        requires from_within { from_at + count ≤ page_bytes }
        requires to_within { to_at + count ≤ page_bytes }
        ensures copied { CopiesBytes from from_at to to_at count
            (pages_view (buffer_view self.old)) (pages_view (buffer_view self.new)) }
        ensures did { PagesStep (only to) 0 0
            (pages_view (buffer_view self.old)) (pages_view (buffer_view self.new)) }
    {
        self.frames.copy(from, from_at, to, to_at, count);
        self.shadow.first_write(to);
        self.notes.forget(to);
        self.stage = Stage::Changing;
    }
}

/// One more, as far as a `u64` counts.
fn one_more(count: u64) -> u64
    ensures is { result ≡ counted count }
    ensures more { count ≤ result }
{
    count.saturating_add(1)
}

impl<D: Device> Pages for Buffer<D> {
    ghost use Rattle.rss_buffer.specs.Views.{pages_view};
    ghost use Rattle.rss_buffer.specs.Devices.{buffer_view};
    ghost use Rattle.rss_buffer.specs.BufferLaws.{stays_by, holds_by, allowed_by, counted_by, few_by, noted_by, changed_mapped};

    ghost view = { λ b. pages_view (buffer_view b) };

    ghost few_slots = { λ b. few_by b.holds };

    ghost reads_as_image = { λ b. D.reads_as_image b.device };

    ghost stays = { λ b settled told. stays_by b.holds settled told };

    ghost holds = { λ b told key. holds_by (buffer_view b) key };

    ghost allowed = { λ b key mapped. allowed_by b.holds key mapped };

    ghost are_counted = { λ b. counted_by b.holds };

    ghost noted_are = { λ b key noted. noted_by b.notes b.holds.noted key noted };

    ghost changed_are = { λ b key changed. changed_mapped b.shadow key changed };

    fn slots(&self) -> u32 {
        self.shadow.current().slots()
    }

    fn spare(&self) -> u32 {
        self.shadow.spare()
    }

    fn image_pages(&self) -> u32 {
        self.shadow.image_pages()
    }

    fn has(&self, key: PageKey) -> bool {
        self.shadow.slot_of(key).is_some()
    }

    fn first_mapped(&self, segment: u8, space: Space, from: u32) -> Option<u32> {
        self.shadow.first_mapped(segment, space, from)
    }

    fn first_unmapped(&self, segment: u8, space: Space, from: u32) -> Option<u32> {
        self.shadow.first_unmapped(segment, space, from)
    }

    fn note(&mut self, key: PageKey, number: u16) {
        self.notes.note(key, number);
    }

    fn first_noted(&self, segment: u8, space: Space, from: u32, least: u16) -> Option<u32> {
        self.notes.first_noted(segment, space, from, least)
    }

    fn load(&mut self, key: PageKey) -> Result<(), PageFault> {
        self.ask(key)
    }

    fn loaded(&self, key: PageKey) -> &Page {
        let Some((page, _)) = self.frames.peek(key) else {
            unreachable!()
        };
        page
    }

    fn read(&mut self, key: PageKey, into: &mut Page) -> Result<(), PageFault> {
        self.load(key)?;
        *into = *self.loaded(key);
        Ok(())
    }

    fn write(&mut self, key: PageKey, from: &Page) -> Result<(), PageFault> {
        self.make_room_for(key)?;
        self.frames.put(key, from);
        self.shadow.first_write(key);
        self.notes.forget(key);
        self.stage = Stage::Changing;
        Ok(())
    }

    fn copy(
        &mut self,
        from: PageKey,
        from_at: usize,
        to: PageKey,
        to_at: usize,
        count: usize,
    ) -> Result<(), PageFault> {
        self.ask(from)?;
        self.ask(to)?;
        self.copy_there(from, from_at, to, to_at, count);
        Ok(())
    }

    fn take(&mut self, segment: u8, space: Space) -> Result<u32, PageFault> {
        self.make_room()?;
        let number = self.shadow.take(segment, space);
        let key = PageKey {
            segment,
            space,
            number,
        };
        self.frames.put(key, &[0; PAGE_BYTES]);
        self.notes.map(key);
        self.stage = Stage::Changing;
        Ok(number)
    }

    fn take_at(&mut self, key: PageKey) -> Result<(), PageFault> {
        self.make_room()?;
        self.frames.put(key, &[0; PAGE_BYTES]);
        self.shadow.take_at(key);
        self.notes.map(key);
        self.stage = Stage::Changing;
        Ok(())
    }

    fn give(&mut self, key: PageKey) -> Result<(), PageFault> {
        self.frames.remove(key);
        self.shadow.give(key);
        self.notes.unmap(key);
        self.stage = Stage::Changing;
        Ok(())
    }
}
