// Pages that are written together.
ghost use Rattle.std.specs.Prelude.{◌≡◌, ◌+◌, ◌<◌, ◌≤◌, length, take, IfSome, IfNone};
ghost use Rattle.rss_base.specs.PageMap.{IsTable};
ghost use Rattle.rss_base.specs.Runs.{run_pages};
ghost use Rattle.rss_frames.specs.Entries.{room};
ghost use Rattle.rss_frames.specs.Frames.{frame_in};
ghost use Rattle.rss_buffer.specs.Gathered.{IsWritten, IsChangedAt, IsGathered, AreSettled};

use rss_base::{PAGE_BYTES, Page, RUN_PAGES};
use rss_frames::Frames;
use rss_pagemap::SlotTable;
use std::alloc::{AllocError, Global};

/// Room for neighbouring pages, which are written together.
#[derive(Drop)]
pub(crate) struct Run {
    pub(crate) pages: Vec<Page>,
    ghost room: { length pages.items ≡ run_pages },
}

impl Run {
    pub(crate) fn new(alloc: Global) -> Result<Self, AllocError> {
        Ok(Run {
            pages: vec![in alloc; [0; PAGE_BYTES]; RUN_PAGES]?,
        })
    }

    /// Copies the pages of the slots from this one on, up to the first slot whose page isn't in
    /// memory or wasn't changed. Answers how many.
    pub(crate) fn gather(&mut self, owners: &SlotTable, frames: &Frames, slot: u32) -> u32
        requires { slot < length owners.now }
        ensures few { result ≤ run_pages }
        ensures within { slot + result ≤ length owners.now }
        ensures gathered { IsGathered owners.now (frame_in frames.now) slot result
            self.new.pages.items }
        ensures none { result ≡ 0
            → IsWritten owners.now (frame_in frames.now) slot }
    {
        let most = (owners.slots() - slot).min(RUN_PAGES as u32);
        for count in 0..most {
            let Some(page) = changed_page(owners, frames, slot + count) else {
                return count;
            };
            self.pages[count as usize] = *page;
        }
        most
    }

    /// The first so many pages.
    pub(crate) fn first(&self, count: u32) -> &[Page]
        requires { count ≤ run_pages }
        ensures { result.now ≡ take count self.now.pages.items }
    {
        &self.pages[..count as usize]
    }
}

/// The page of a slot, if it is in memory and was changed.
fn changed_page<'f>(owners: &SlotTable, frames: &'f Frames, slot: u32) -> Option<&'f Page>
    requires { slot < length owners.now }
    ensures some { IfSome result (λ page.
        IsChangedAt owners.now (frame_in frames.now) slot page.now) }
    ensures none { IfNone result
        (IsWritten owners.now (frame_in frames.now) slot) }
{
    let key = owners.owner(slot)?;
    let (page, changed) = frames.peek(key)?;
    if !changed {
        return None;
    }
    Some(page)
}

/// Takes the pages of so many slots, from this one on, as ones that were written there.
pub(crate) fn settle(frames: &mut Frames, owners: &SlotTable, slot: u32, count: u32)
    requires within { slot + count ≤ length owners.now }
    requires table { IsTable owners.now }
    ensures settled { AreSettled owners.now slot count (frame_in frames.old) (frame_in frames.new) }
    ensures room { room frames.new ≡ room frames.old }
{
    for at in slot..slot + count {
        if let Some(key) = owners.owner(at) {
            frames.settle(key);
        }
    }
}
