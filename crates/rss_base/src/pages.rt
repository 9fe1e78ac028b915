// Pages by their keys.
ghost use Rattle.std.specs.Prelude.{◌≡◌, ◌≢◌, ◌+◌, ◌^◌, ◌<◌, ◌≤◌, true, false, is_some, Some, IfOk, IfSome, IfNone, OnOk};
ghost use Rattle.rss_base.specs.Faults.{counted};
ghost use Rattle.rss_base.specs.Sizes.{segments, page_bytes};
ghost use Rattle.rss_base.specs.DiskRule.{Pages as DevicePages, Told, IsTold, Leaves};
ghost use Rattle.rss_base.specs.PageMap.{IsKey};
ghost use Rattle.rss_base.specs.Notes.{is_noted_space, note_most, MayDo};
ghost use Rattle.rss_base.specs.Paged.{page_key, mapped_of, IsLeastUnmapped, IsMappedAt, IsUnmappedAt, IsFirstFrom, NoneFrom, HasFixed};
ghost use Rattle.rss_base.specs.Steps.{PagesView, AreCounted, PagesStep, PagesCall, NotesPage, no_page, only, only_on_ok, taken, WritesPage, CopiesBytes, TakesPage, GivesPage};
ghost use Rattle.rss_base.specs.Steps.{StaysIdle};
ghost use Rattle.rss_base.specs.declared.key.Space.TheVariants.{System, Image};
ghost use Rattle.rss_base.specs.declared.key.PageKey.{PageKey as Key};

use crate::{PAGE_BYTES, Page, PageFault, PageKey, Space, copy_bytes};

/// The pages of a store, by their keys: a finite map from keys to pages, of which each change stays
/// in free slots of the device until all of them are saved together.
///
/// What the device holds outside the slots that are free is fixed: whatever is called here, a stop
/// still finds it. A call that fails has changed no page.
pub trait Pages {
    /// What there is to see of them. The counts go up to 2 ^ 64 - 1.
    ghost view: { Self → PagesView };

    fn slots(&self) -> u32
        ensures { result ≡ (view self.now).slots };

    fn spare(&self) -> u32
        ensures { result ≡ (view self.now).spare };

    /// How many pages of images are mapped.
    fn image_pages(&self) -> u32
        ensures { result ≡ mapped_of (view self.now).mapped Image (view self.now).slots };

    /// Whether the page is mapped.
    fn has(&self, key: PageKey) -> bool
        ensures { result ≡ (view self.now).mapped key };

    /// The first number from this one on, of a segment and a space, whose page is mapped.
    fn first_mapped(&self, segment: u8, space: Space, from: u32) -> Option<u32>
        requires low { 1 ≤ segment }
        requires high { segment ≤ segments }
        requires space { space ≢ System }
        ensures some { IfSome result
            (IsFirstFrom (IsMappedAt (view self.now).mapped segment space) from) }
        ensures none { IfNone result
            (NoneFrom (IsMappedAt (view self.now).mapped segment space) from) };

    /// The first number from this one on, below the number of slots, whose page isn't mapped.
    fn first_unmapped(&self, segment: u8, space: Space, from: u32) -> Option<u32>
        requires low { 1 ≤ segment }
        requires high { segment ≤ segments }
        requires space { space ≢ System }
        ensures some { IfSome result (IsFirstFrom
            (IsUnmappedAt (view self.now).slots (view self.now).mapped segment space) from) }
        ensures none { IfNone result (NoneFrom
            (IsUnmappedAt (view self.now).slots (view self.now).mapped segment space) from) };

    /// Notes a number on a home or an overflow page, in place of what was noted before. The note
    /// stays until the page is written, taken or given. The device is asked for nothing.
    fn note(&mut self, key: PageKey, number: u16)
        requires mapped { (view self.old).mapped key ≡ true }
        requires space { is_noted_space key.space ≡ true }
        requires most { number ≤ note_most }
        ensures noted { NotesPage key number (view self.old) (view self.new) }
        ensures idle { StaysIdle (view self.old) (view self.new) }
        ensures did { PagesStep (only key) 0 0 (view self.old) (view self.new) };

    /// The first number from this one on whose page may do: it is mapped, and has no note or one of
    /// at least `least`.
    fn first_noted(&self, segment: u8, space: Space, from: u32, least: u16) -> Option<u32>
        requires low { 1 ≤ segment }
        requires high { segment ≤ segments }
        requires noted { is_noted_space space ≡ true }
        ensures some { IfSome result (IsFirstFrom
            (MayDo (view self.now).mapped (view self.now).notes least segment space) from) }
        ensures none { IfNone result (NoneFrom
            (MayDo (view self.now).mapped (view self.now).notes least segment space) from) };

    /// Brings a page into memory, where `loaded` lends it. It may leave with the next call that
    /// changes `self`. Of a page that is there the device is asked for nothing, and none leaves.
    fn load(&mut self, key: PageKey) -> Result<(), PageFault>
        requires { (view self.old).mapped key ≡ true }
        ensures there { OnOk result ((view self.new).in_memory key ≡ true) }
        ensures asks { (view self.new).asks ≡ counted (view self.old).asks }
        ensures idle { (view self.old).in_memory key ≡ true
            → StaysIdle (view self.old) (view self.new) }
        ensures did { PagesCall no_page 1 1 (view self.old) (view self.new) result };

    /// Lends a page that is in memory, without a copy of it.
    fn loaded(&self, key: PageKey) -> &Page
        requires { (view self.now).in_memory key ≡ true }
        ensures { IsTold (view self.now).disk → (view self.now).held key ≡ Some result.now };

    fn read(&mut self, key: PageKey, into: &mut Page) -> Result<(), PageFault>
        requires { (view self.old).mapped key ≡ true }
        ensures page { OnOk result (IsTold (view self.old).disk
            → (view self.old).held key ≡ Some into.new) }
        ensures asks { (view self.new).asks ≡ counted (view self.old).asks }
        ensures idle { (view self.old).in_memory key ≡ true
            → StaysIdle (view self.old) (view self.new) }
        ensures did { PagesCall no_page 1 1 (view self.old) (view self.new) result };

    fn write(&mut self, key: PageKey, from: &Page) -> Result<(), PageFault>
        requires { (view self.old).mapped key ≡ true }
        ensures written { OnOk result (WritesPage key from.now (view self.old) (view self.new)) }
        ensures did { PagesCall (only_on_ok key result) 0 1
            (view self.old) (view self.new) result };

    /// Copies so many bytes of a page into another one.
    fn copy(
        &mut self,
        from: PageKey,
        from_at: usize,
        to: PageKey,
        to_at: usize,
        count: usize,
    ) -> Result<(), PageFault>
        requires from { (view self.old).mapped from ≡ true }
        requires to { (view self.old).mapped to ≡ true }
        requires apart { from ≢ to }
        requires from_within { from_at + count ≤ page_bytes }
        requires to_within { to_at + count ≤ page_bytes }
        ensures copied { OnOk result
            (CopiesBytes from from_at to to_at count (view self.old) (view self.new)) }
        ensures did { PagesCall (only_on_ok to result) 2 3
            (view self.old) (view self.new) result }
    {
        let mut source = [0; PAGE_BYTES];
        self.read(from, &mut source)?;
        let mut page = [0; PAGE_BYTES];
        self.read(to, &mut page)?;
        copy_bytes(&source, from_at, &mut page, to_at, count);
        self.write(to, &page)
    }

    /// Maps the least page of a segment and a space that isn't mapped, to a page of zeros, and
    /// answers its number.
    fn take(&mut self, segment: u8, space: Space) -> Result<u32, PageFault>
        requires low { 1 ≤ segment }
        requires high { segment ≤ segments }
        requires space { space ≢ System }
        requires room { 0 < (view self.old).spare }
        ensures least { IfOk result (IsLeastUnmapped (view self.old).mapped segment space) }
        ensures within { IfOk result (λ number. number < (view self.old).slots) }
        ensures taken { IfOk result (λ number.
            TakesPage (page_key segment space number) (view self.old) (view self.new)) }
        ensures did { PagesCall (taken segment space result) 0 1
            (view self.old) (view self.new) result };

    /// Maps this page, to a page of zeros.
    fn take_at(&mut self, key: PageKey) -> Result<(), PageFault>
        requires allowed { IsKey (view self.old).slots key }
        requires unmapped { (view self.old).mapped key ≡ false }
        requires room { 0 < (view self.old).spare }
        ensures taken { OnOk result (TakesPage key (view self.old) (view self.new)) }
        ensures did { PagesCall (only_on_ok key result) 0 1
            (view self.old) (view self.new) result };

    /// Unmaps a page.
    fn give(&mut self, key: PageKey) -> Result<(), PageFault>
        requires { (view self.old).mapped key ≡ true }
        ensures given { OnOk result (GivesPage key (view self.old) (view self.new)) }
        ensures did { PagesCall (only_on_ok key result) 0 0
            (view self.old) (view self.new) result };

    /// There are fewer slots than a `u32` counts, so the number after each page's is a `u32` too.
    ghost few_slots: { (pages : Self) → (view pages).slots < 2 ^ 32 };

    /// A device as it reads is one of its images.
    ghost reads_as_image: { (pages : Self) → Told (view pages).disk (Leaves (view pages).disk) };

    /// A stop between two calls leaves what is fixed.
    ghost stays: { (pages : Self) → (view pages).settled ≡ true → IsTold (view pages).disk
        → (image : DevicePages) → Leaves (view pages).disk image
        → HasFixed (view pages).fixed image };

    /// The mapped pages are those that hold something.
    ghost holds: { (pages : Self) → IsTold (view pages).disk
        → (key : Key) → is_some ((view pages).held key) ≡ (view pages).mapped key };

    /// The map may name each of them, so they are finitely many.
    ghost allowed: { (pages : Self) (key : Key) → (view pages).mapped key ≡ true
        → IsKey (view pages).slots key };

    /// Each slot is spare or one page's, and so `spare` follows from what is mapped.
    ghost are_counted: { (pages : Self) → AreCounted (view pages) };

    /// What is noted is mapped.
    ghost noted_are: { (pages : Self) (key : Key) → is_some ((view pages).notes key) ≡ true
        → (view pages).mapped key ≡ true };

    /// What was changed is mapped.
    ghost changed_are: { (pages : Self) (key : Key) → (view pages).changed key ≡ true
        → (view pages).mapped key ≡ true };
}
