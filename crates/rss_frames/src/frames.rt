// Pages in memory.
ghost use Rattle.std.specs.Prelude.{◌≡◌, ◌≢◌, ◌⊎◌, ◌↔◌, ℕ, ◌+◌, ◌*◌, ◌^◌, ◌<◌, ◌≤◌, List, [], length, Some, None};
ghost use Rattle.std.specs.Prelude.{is_some, option_map, option_copied, IsTrue, IsSome, IfSome, IfNone, IfOk, OnOk, OnErr};
ghost use Rattle.std.specs.Borrow.{sem};
ghost use Rattle.std.specs.Option.{option_copied_mut};
ghost use Rattle.rss_base.specs.Devices.{ReadsPages};
ghost use Rattle.rss_base.specs.Sizes.{page_bytes};
ghost use Rattle.rss_frames.specs.Table.{IsFound, IsAbsent};
ghost use Rattle.rss_frames.specs.Lists.{Has};
ghost use Rattle.rss_frames.specs.Seated.{order_units, past, units_of};

use crate::block::{Lease, Part, Seat};
use crate::key_table::{KEY_BYTES, KeyTable, mask_for};
use crate::pairs::{TwoPages, pair};
use crate::parts::{claim, give, give_back};
use crate::recency::Order;
use crate::rows::{row_of, row_units};
use rss_base::{Device, Failed, PAGE_BYTES, Page, PageKey, copy_bytes};
use std::alloc::{AllocError, Global};
use std::marker::Model;
use std_alloc::vec::Lodged;

/// So many frames, each of which may hold a page. All of it lies in one block of memory.
pub struct Frames {
    /// The frame of each page that is in memory.
    table: KeyTable,
    /// The frames that have a page, by the recency of its use.
    used: Order,
    /// The frames that have none.
    free: Order,
    pages: Vec<Page, Lodged>,
    pages_seat: Seat<Page>,
    changed: Vec<bool, Lodged>,
    changed_seat: Seat<bool>,
    /// The units that no row took.
    rest: Part,
    lease: Lease<Global>,
    alloc: Global,
}

impl Model for Frames {
    ghost use Rattle.rss_frames.specs.State.{State};
    ghost use Rattle.rss_frames.specs.Invariant.{IsFrames};
    ghost use Rattle.rss_frames.specs.Filled.{FillsBlock};
    ghost use Rattle.rss_frames.specs.Seated.{AreSeated};

    ghost Value = { State };

    ghost view = { λ f. record { keys = f.table.keys; used = f.used.frames; pages = f.pages.items; marks = f.changed.items } };

    ghost invariant = { λ f.
        IsFrames (record { keys = f.table.keys; used = f.used.frames; pages = f.pages.items; marks = f.changed.items }) f.used.room f.free
        × AreSeated f.pages f.pages_seat f.changed f.changed_seat
        × FillsBlock (f.table.start, f.table.units) (f.used.start, f.used.units) (f.free.start, f.free.units) f.pages_seat f.changed_seat f.rest f.lease f.alloc };
}

impl Drop for Frames {
    fn drop(self) {
        let Frames {
            table,
            used,
            free,
            pages,
            pages_seat,
            changed,
            changed_seat,
            rest,
            lease,
            alloc,
        } = self;
        let from_marks = give(changed, changed_seat, rest);
        let from_pages = give(pages, pages_seat, from_marks);
        let from_free = free.into_part(from_pages);
        let from_used = used.into_part(from_free);
        let block = table.into_part(from_used);
        give_back(&alloc, block, lease);
    }
}

/// The frame of a page that is in memory.
fn place(table: &KeyTable, key: PageKey) -> u32
    requires { IsAbsent table.now.keys key → ⊥ }
    ensures { IsFound table.now.keys key result }
{
    match table.find(key) {
        Some(frame) => frame,
        None => unreachable!(),
    }
}

/// So many frames, each of them free, at the beginning of a part. Answers the rest.
fn all_free(part: Part, count: u32) -> (Order, Part)
    requires within { order_units count ≤ part.len }
    requires small { part.len * 16 < 2 ^ 63 }
    ensures room { result.0.room ≡ count }
    ensures all { length result.0.frames ≡ count }
    ensures at { result.0.start ≡ part.ptr }
    ensures units { result.0.units ≡ order_units count }
    ensures rest { result.1.ptr ≡ past part.ptr (order_units count) }
    ensures len { result.1.len + order_units count ≡ part.len }
{
    let (mut free, rest) = Order::new(part, count);
    for frame in 0..count {
        free.push_front(frame);
    }
    (free, rest)
}

/// How many units all rows of so many frames take.
fn all_units(frames: usize, mask: usize) -> usize
    requires frames { frames < 2 ^ 32 }
    requires mask { mask < 2 ^ 32 }
    ensures value { result ≡ units_of frames mask }
    ensures small { result * 16 < 2 ^ 63 }
{
    row_units(frames, KEY_BYTES)
        + row_units(frames + mask + 1, 4)
        + 4 * row_units(frames + 1, 4)
        + row_units(frames, PAGE_BYTES)
        + row_units(frames, 1)
}

impl Frames {
    ghost use Rattle.rss_frames.specs.Entries.{Shows, AreDistinct, admitted, bytes_of, entries, entry, room, fronted, written, others, settled, eldest, name_of};
    ghost use Rattle.rss_frames.specs.Frames.{frame_in, HasRoom, Admits, Evicts, IsEmptied, ReadsIn, CopiesFrame};
    ghost use Rattle.rss_frames.specs.Lends.{EndsUsed, LendsPage, LendsAll, LendsFrames, LendsTwo};
    ghost use Rattle.rss_frames.specs.Places.{IsSound, frame_for, marked, with_both};
    ghost use Rattle.rss_frames.specs.Pairs.{page_at};
    ghost use Rattle.rss_frames.specs.Table.{key_at};

    /// So many frames with no page. Nothing else here takes memory.
    pub fn new(alloc: Global, frames: u32) -> Result<Frames, AllocError>
        requires { 0 < frames }
        ensures { IfOk result (λ all. Shows all [] frames) }
    {
        let mask = mask_for(frames);
        let (part, lease) = claim(&alloc, all_units(frames as usize, mask as usize))?;
        Ok(Frames::laid(alloc, part, lease, frames, mask))
    }

    /// So many frames with no page in a block of as many units as they take.
    fn laid(alloc: Global, part: Part, lease: Lease<Global>, frames: u32, mask: u32) -> Frames
        requires some { 0 < frames }
        requires size { part.len ≡ units_of frames mask }
        requires lease { (lease.ptr ≡ part.ptr) × (lease.len ≡ part.len) × (lease.alloc ≡ alloc) }
        requires small { part.len * 16 < 2 ^ 63 }
        ensures { Shows result [] frames }
    {
        let room = frames as usize;
        let (table, part) = KeyTable::new(part, frames, mask);
        let (used, part) = Order::new(part, frames);
        let (free, part) = all_free(part, frames);
        let (pages, pages_seat, part) = row_of(part, room, PAGE_BYTES, [0; PAGE_BYTES]);
        let (changed, changed_seat, rest) = row_of(part, room, 1, false);
        Frames {
            table,
            used,
            free,
            pages,
            pages_seat,
            changed,
            changed_seat,
            rest,
            lease,
            alloc,
        }
    }

    /// Whether each frame has a page.
    pub fn is_full(&self) -> bool
        ensures full { IsTrue result ↔ (room self.now ≤ length (entries self.now)) }
        ensures distinct { AreDistinct (entries self.now) }
    {
        self.used.len() >= self.used.room()
    }

    /// Whether a page is in memory.
    pub fn has(&self, key: PageKey) -> bool
        ensures { result ≡ is_some (frame_in self.now key) }
    {
        self.table.find(key).is_some()
    }

    /// How many pages are in memory.
    pub fn len(&self) -> u32
        ensures { result ≡ length (entries self.now) }
    {
        self.used.len()
    }

    /// A page, if it is in memory. It becomes the one that was used last.
    pub fn get(&mut self, key: PageKey) -> Option<&Page>
        ensures* used { sem 𝓛 (EndsUsed self.entry key) }
        ensures value { option_copied result ≡ bytes_of (entry key (entries self.old)) }
    {
        let frame = self.table.find(key)?;
        self.used.to_front(frame);
        Some(&self.pages[frame as usize])
    }

    /// A page, if it is in memory, to be written. It is marked as changed, and becomes the one that
    /// was used last.
    pub fn get_mut(&mut self, key: PageKey) -> Option<&mut Page>
        ensures* writes_back { sem 𝓛 (LendsPage self.entry key result) }
        ensures value { option_copied_mut result ≡ bytes_of (entry key (entries self.old)) }
    {
        let frame = self.table.find(key)?;
        self.used.to_front(frame);
        self.changed[frame as usize] = true;
        Some(&mut self.pages[frame as usize])
    }

    /// Two different pages that are in memory, both to be written. They are marked as changed, and
    /// become the ones that were used last, `first` before `second`.
    pub fn two_mut(&mut self, first: PageKey, second: PageKey) -> TwoPages<'_>
        requires first { IsSome (frame_in self.old first) }
        requires second { IsSome (frame_in self.old second) }
        requires apart { first ≢ second }
        ensures* writes_back { sem 𝓛 (LendsTwo self.entry first second result) }
        ensures shows { (v w : List ℕ) → Shows (with_both first v second w self.old)
            (written first v (written second w (entries self.old))) (room self.old) }
        ensures first { bytes_of (entry first (entries self.old)) ≡ Some result.first.now }
        ensures second { bytes_of (entry second (entries self.old)) ≡ Some result.second.now }
    {
        let low = self.mark(second);
        let high = self.mark(first);
        self.lend_two(high, low)
    }

    /// A page, if it is in memory, and whether it was changed. This is no use of it.
    pub fn peek(&self, key: PageKey) -> Option<(&Page, bool)>
        ensures some { IfSome result (λ r.
            frame_in self.now key ≡ Some (record { page = r.0.now; changed = r.1 })) }
        ensures none { IfNone result (frame_in self.now key ≡ None) }
    {
        let frame = self.table.find(key)?;
        Some((&self.pages[frame as usize], self.changed[frame as usize]))
    }

    /// Makes a page the one that was used last, if it is in memory, and tells whether it is.
    pub fn touch(&mut self, key: PageKey) -> bool
        ensures there { result ≡ is_some (frame_in self.old key) }
        ensures used { Shows self.new (fronted key (entries self.old)) (room self.old) }
    {
        if let Some(frame) = self.table.find(key) {
            self.used.to_front(frame);
            return true;
        }
        false
    }

    /// Puts a page into memory as one that was changed, in place of what is there of it. It becomes
    /// the one that was used last.
    pub fn put(&mut self, key: PageKey, page: &Page)
        requires { HasRoom self.old ⊎ IsSome (frame_in self.old key) }
        ensures { Shows self.new (written key page.now (entries self.old)) (room self.old) }
    {
        if let Some(own) = self.table.find(key) {
            self.used.to_front(own);
            self.changed[own as usize] = true;
            self.pages[own as usize] = *page;
            return;
        }
        self.admit(key, page, true);
    }

    /// Puts a page that isn't in memory into a free frame, with this mark. It becomes the one that
    /// was used last.
    pub fn admit(&mut self, key: PageKey, page: &Page, changed: bool)
        requires room { HasRoom self.old }
        requires absent { frame_in self.old key ≡ None }
        ensures { Shows self.new (admitted key page.now changed (entries self.old)) (room self.old) }
    {
        let frame = self.give_frame(key, changed);
        self.pages[frame as usize] = *page;
    }

    /// Reads a page that isn't in memory into a frame of its own. It becomes the one that was used
    /// last.
    pub fn read_in<D: Device>(
        &mut self,
        key: PageKey,
        device: &mut D,
        at: u64,
    ) -> Result<(), Failed>
        requires room { HasRoom self.old }
        requires absent { frame_in self.old key ≡ None }
        requires within { at < (D.view device.old).size }
        ensures ok { OnOk result (ReadsIn key at (D.view device.old).disk self.old self.new) }
        ensures err { OnErr result (entries self.new ≡ entries self.old) }
        ensures room { room self.new ≡ room self.old }
        ensures did { ReadsPages (D.view device.old) (D.view device.new) result }
    {
        let frame = self.give_frame(key, false);
        let result = device.read(at, &mut self.pages[frame as usize]);
        if result.is_err() {
            self.remove(key);
        }
        result
    }

    /// Copies so many bytes of a page that is in memory into another one that is, and marks this one
    /// as changed. Both are lent at once, and become the ones that were used last.
    pub fn copy(&mut self, from: PageKey, from_at: usize, to: PageKey, to_at: usize, count: usize)
        requires from { IsSome (frame_in self.old from) }
        requires to { IsSome (frame_in self.old to) }
        requires apart { from ≢ to }
        requires from_within { from_at + count ≤ page_bytes }
        requires to_within { to_at + count ≤ page_bytes }
        ensures { CopiesFrame from from_at to to_at count self.old self.new }
    {
        let low = place(&self.table, to);
        let high = place(&self.table, from);
        self.used.to_front(high);
        self.used.to_front(low);
        self.changed[low as usize] = true;
        let TwoPages { first, second } = pair(self.pages.as_mut_slice(), low, high);
        copy_bytes(second, from_at, first, to_at, count);
    }

    /// The page that wasn't used for the longest time, and whether it was changed.
    pub fn eldest(&self) -> Option<(PageKey, bool)>
        ensures { result ≡ option_map name_of (eldest (entries self.now)) }
    {
        let frame = self.used.last()?;
        let key = self.table.key(frame)?;
        Some((key, self.changed[frame as usize]))
    }

    /// Takes the page out of memory that wasn't used for the longest time, and copies its bytes.
    /// Answers which it is and whether it was changed.
    pub fn evict_last(&mut self, into: &mut Page) -> Option<(PageKey, bool)>
        ensures some { IfSome result (λ r. Evicts r.0 into.new r.1 self.old self.new) }
        ensures none { IfNone result (IsEmptied self.old self.new) }
        ensures kept { IfNone result (into.new ≡ into.old) }
        ensures room { room self.new ≡ room self.old }
    {
        let frame = self.used.last()?;
        let key = self.table.key(frame)?;
        let changed = self.changed[frame as usize];
        *into = self.pages[frame as usize];
        self.remove(key);
        Some((key, changed))
    }

    /// Takes a page out of memory, if it is there.
    pub fn remove(&mut self, key: PageKey)
        ensures gone { Shows self.new (others key (entries self.old)) (room self.old) }
        ensures free { IsSome (frame_in self.old key) → HasRoom self.new }
    {
        if let Some(frame) = self.table.find(key) {
            self.table.remove(frame, key);
            self.used.unlink(frame);
            self.free.push_front(frame);
        }
    }

    /// Marks a page as unchanged, if it is in memory.
    pub fn settle(&mut self, key: PageKey)
        ensures { Shows self.new (settled key (entries self.old)) (room self.old) }
    {
        if let Some(frame) = self.table.find(key) {
            self.changed[frame as usize] = false;
        }
    }

    /// Marks a page that is in memory as changed, and makes it the one that was used last. Answers
    /// its frame.
    fn mark(&mut self, key: PageKey) -> u32
        requires { IsSome (frame_in self.old key) }
        ensures sound { IsSound self.old }
        ensures at { key_at self.old.keys result ≡ Some key }
        ensures frame { result ≡ frame_for key self.old }
        ensures now { self.new ≡ marked key self.old }
    {
        let frame = place(&self.table, key);
        self.used.to_front(frame);
        self.changed[frame as usize] = true;
        frame
    }

    /// The pages of all frames.
    fn lend_all(&mut self) -> &mut [Page]
        ensures* writes_back { sem 𝓛 (LendsAll self.entry result) }
        ensures value { result.now ≡ self.old.pages }
    {
        self.pages.as_mut_slice()
    }

    /// The pages of two frames.
    fn lend_two(&mut self, first: u32, second: u32) -> TwoPages<'_>
        requires apart { first ≢ second }
        requires first_within { first < length self.old.pages }
        requires second_within { second < length self.old.pages }
        ensures* writes_back { sem 𝓛 (LendsFrames self.entry first second result) }
        ensures values { (result.first.now ≡ page_at self.old.pages first)
            × (result.second.now ≡ page_at self.old.pages second) }
    {
        pair(self.lend_all(), first, second)
    }

    /// Gives a page that isn't in memory a free frame. What its bytes are is any. The page becomes
    /// the one that was used last.
    fn give_frame(&mut self, key: PageKey, changed: bool) -> u32
        requires room { HasRoom self.old }
        requires absent { frame_in self.old key ≡ None }
        ensures { Admits key result changed self.old self.new }
    {
        let Some(frame) = self.free.pop_last() else {
            unreachable!()
        };
        self.table.insert(frame, key);
        self.used.push_front(frame);
        self.changed[frame as usize] = changed;
        frame
    }
}
