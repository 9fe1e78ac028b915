// What a stop of a device in memory leaves.
ghost use Rattle.std.specs.Prelude.{◌≡◌, ◌<◌, ◌≤◌, ℕ, length, take, drop, All, OnOk, IfOk};
ghost use Rattle.std.specs.Prelude.{replicate, slice_set};
ghost use Rattle.rss_device.specs.Memory.{Held, step, replay, at_first, IsImage};
ghost use Rattle.rss_device.specs.Stop.{IsSettled, IsUnsynced, Allows, IsFilled, IsLeft};

use crate::event::Event;
use rss_base::{PAGE_BYTES, Page};
use std::alloc::{AllocError, Global};

/// What a stop leaves of the pages that were written since the last sync. After a new size these
/// are all pages, until the next sync.
#[derive(Clone, Copy, Debug, PartialEq, Eq)]
pub enum Unsynced {
    /// Each is as it was at that sync. One that is new since then holds zeros.
    Old,
    /// Each is as a read gives it.
    New,
    /// Each of their bytes is this one.
    Filled(u8),
}

/// The pages after a stop that comes after these events.
pub(crate) fn image_after(
    alloc: Global,
    first: &[Page],
    events: &[Event],
    unsynced: Unsynced,
) -> Result<Vec<Page>, AllocError>
    ensures image { IfOk result (λ image.
        IsImage (replay (at_first first.now) events.now) image.items) }
    ensures left { IfOk result (λ image.
        IsLeft unsynced (replay (at_first first.now) events.now) image.items) }
{
    let synced = synced_events(events);
    let mut pages = Vec::from_slice(alloc, first)?;
    leave_all(&mut pages, &events[..synced], Unsynced::New)?;
    leave_all(&mut pages, &events[synced..], unsynced)?;
    Ok(pages)
}

/// How many events there are up to the last sync.
fn synced_events(events: &[Event]) -> usize
    ensures within { result ≤ length events.now }
    ensures settled { IsSettled (take result events.now) }
    ensures unsynced { All IsUnsynced (drop result events.now) }
{
    let mut synced = 0;
    for (i, event) in events.iter().enumerate() {
        if event.syncs() {
            synced = i + 1;
        }
    }
    synced
}

/// Leaves of the pages what is left of them after more events.
fn leave_all(pages: &mut Vec<Page>, events: &[Event], unsynced: Unsynced) -> Result<(), AllocError>
    ensures { OnOk result ((held : Held) → All (Allows unsynced) events.now
        → IsLeft unsynced held pages.old.items
        → IsLeft unsynced (replay held events.now) pages.new.items) }
{
    for event in events {
        leave(pages, event, unsynced)?;
    }
    Ok(())
}

fn leave(pages: &mut Vec<Page>, event: &Event, unsynced: Unsynced) -> Result<(), AllocError>
    ensures { OnOk result ((held : Held) → Allows unsynced event.now
        → IsLeft unsynced held pages.old.items
        → IsLeft unsynced (step held event.now) pages.new.items) }
{
    match unsynced {
        Unsynced::Old => leave_old(pages, event)?,
        Unsynced::New => leave_new(pages, event)?,
        Unsynced::Filled(fill) => leave_filled(pages, event, fill)?,
    }
    Ok(())
}

fn leave_old(pages: &mut Vec<Page>, event: &Event) -> Result<(), AllocError>
    ensures { OnOk result ((held : Held) → IsUnsynced event.now → pages.old.items ≡ held.synced
        → pages.new.items ≡ (step held event.now).synced) }
{
    if let Event::Sized(size) = event {
        pages.resize(*size as usize, [0u8; PAGE_BYTES])?;
    }
    Ok(())
}

fn leave_new(pages: &mut Vec<Page>, event: &Event) -> Result<(), AllocError>
    ensures { OnOk result ((held : Held) → pages.old.items ≡ held.pages
        → pages.new.items ≡ (step held event.now).pages) }
{
    match event {
        Event::Wrote(at, bytes) => {
            put(pages, *at, bytes);
            Ok(())
        }
        Event::Torn(_) => Ok(()),
        Event::Synced => Ok(()),
        Event::Sized(size) => {
            pages.resize(*size as usize, [0u8; PAGE_BYTES])?;
            Ok(())
        }
    }
}

fn leave_filled(pages: &mut Vec<Page>, event: &Event, fill: u8) -> Result<(), AllocError>
    ensures { OnOk result ((held : Held) → IsUnsynced event.now → IsFilled fill held pages.old.items
        → IsFilled fill (step held event.now) pages.new.items) }
{
    match event {
        Event::Wrote(at, _) => {
            put(pages, *at, &[fill; PAGE_BYTES]);
            Ok(())
        }
        Event::Torn(at) => {
            put(pages, *at, &[fill; PAGE_BYTES]);
            Ok(())
        }
        Event::Synced => Ok(()),
        Event::Sized(size) => {
            pages.clear();
            pages.resize(*size as usize, [fill; PAGE_BYTES])?;
            Ok(())
        }
    }
}

/// Puts a page at a place, if there is one.
fn put(pages: &mut Vec<Page>, at: u64, bytes: &Page)
    ensures { pages.new.items ≡ slice_set pages.old.items at bytes.now }
{
    if (at as usize) < pages.len() {
        pages[at as usize] = *bytes;
    }
}
