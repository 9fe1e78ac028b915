// The slots of all pages, by the pages.
ghost use Rattle.std.specs.Prelude.{◌≡◌, ◌≢◌, ◌<◌, ◌≤◌, ℕ, Some, None, IsSome, IfOk, IfSome};
ghost use Rattle.std.specs.Prelude.{IfNone};
ghost use Rattle.rss_base.specs.Sizes.{slots_most, segments};
ghost use Rattle.rss_base.specs.PageMap.{IsKey};
ghost use Rattle.rss_base.specs.declared.key.PageKey.{PageKey as Key};
ghost use Rattle.rss_base.specs.declared.key.Space.TheVariants.{System};
ghost use Rattle.rss_shadow.specs.Index.{column_at, slot_in, numbers_of, pages_in, PutsSlot};
ghost use Rattle.rss_shadow.specs.Index.{IsIndexed, IsUnindexed};
ghost use Rattle.rss_base.specs.Paged.{page_key, IsFirstFrom, NoneFrom};

use crate::column::Column;
use rss_base::{PageKey, SYSTEM_PAGES, Space};
use std::alloc::{AllocError, Global};
use std::marker::Model;

/// How many columns there are.
const COLUMNS: usize = 25;

/// The slot of each page that a map may name: a column for the system space, and one for each other
/// space of each segment.
#[derive(Drop)]
pub(crate) struct PageIndex {
    columns: Vec<Column>,
}

impl Model for PageIndex {
    ghost use Rattle.rss_shadow.specs.Index.{Columns, AreColumns};

    ghost Value = { Columns };

    ghost view = { λ i. i.columns.items };

    ghost invariant = { λ i. AreColumns i.columns.items };
}

impl PageIndex {
    /// The index of a store of so many slots. No page has one.
    pub(crate) fn new(alloc: Global, slots: u32) -> Result<Self, AllocError>
        requires some { 0 < slots }
        requires few { slots ≤ slots_most }
        ensures numbers { IfOk result (λ index. numbers_of index ≡ slots) }
        ensures empty { IfOk result (λ index. (key : Key) → slot_in index key ≡ None) }
        ensures pages { IfOk result (λ index. pages_in index ≡ 0) }
    {
        let mut columns = Vec::with_capacity(alloc, COLUMNS)?;
        columns.push_reserved(Column::new(alloc, SYSTEM_PAGES)?);
        for _ in 1..COLUMNS {
            columns.push_reserved(Column::new(alloc, slots)?);
        }
        Ok(PageIndex { columns })
    }

    /// The slot of a page.
    pub(crate) fn slot(&self, key: PageKey) -> Option<u16>
        requires { IsKey (numbers_of self.now) key }
        ensures { result ≡ slot_in self.now key }
    {
        self.columns[column_at(key.space, key.segment)].slot(key.number)
    }

    /// Gives a page this slot in place of the one that it has, if any.
    pub(crate) fn put(&mut self, key: PageKey, slot: u16)
        requires { IsKey (numbers_of self.old) key }
        ensures { PutsSlot self.old self.new key (Some slot) }
    {
        let column = &mut self.columns[column_at(key.space, key.segment)];
        column.put(key.number, slot);
    }

    /// Takes a page's slot from it.
    pub(crate) fn clear(&mut self, key: PageKey)
        requires { IsKey (numbers_of self.old) key }
        ensures { PutsSlot self.old self.new key None }
    {
        let column = &mut self.columns[column_at(key.space, key.segment)];
        column.clear(key.number);
    }

    /// The least number of a segment and a space whose page has no slot. There is one if fewer
    /// pages have a slot than there are numbers.
    pub(crate) fn least_free(&self, segment: u8, space: Space) -> Option<u32>
        requires low { 1 ≤ segment }
        requires high { segment ≤ segments }
        requires space { space ≢ System }
        ensures within { IfSome result (λ number. number < numbers_of self.now) }
        ensures free { IfSome result (λ number.
            slot_in self.now (page_key segment space number) ≡ None) }
        ensures lesser { IfSome result (λ number. (k : ℕ) → k < number
            → IsSome (slot_in self.now (page_key segment space k))) }
        ensures none { IfNone result (numbers_of self.now ≤ pages_in self.now) }
    {
        self.columns[column_at(space, segment)].first_free(0)
    }

    /// The first number from this one on, of a segment and a space, whose page has a slot.
    pub(crate) fn first_mapped(&self, segment: u8, space: Space, from: u32) -> Option<u32>
        requires low { 1 ≤ segment }
        requires high { segment ≤ segments }
        requires space { space ≢ System }
        ensures some { IfSome result (IsFirstFrom (IsIndexed self.now segment space) from) }
        ensures none { IfNone result (NoneFrom (IsIndexed self.now segment space) from) }
    {
        self.columns[column_at(space, segment)].first_slotted(from)
    }

    /// The first number from this one on, of a segment and a space, whose page has none.
    pub(crate) fn first_unmapped(&self, segment: u8, space: Space, from: u32) -> Option<u32>
        requires low { 1 ≤ segment }
        requires high { segment ≤ segments }
        requires space { space ≢ System }
        ensures some { IfSome result (IsFirstFrom (IsUnindexed self.now segment space) from) }
        ensures none { IfNone result (NoneFrom (IsUnindexed self.now segment space) from) }
    {
        self.columns[column_at(space, segment)].first_free(from)
    }
}

/// The column of a space in a segment.
fn column_at(space: Space, segment: u8) -> usize
    requires { segment ≤ segments }
    ensures place { result ≡ column_at space segment }
    ensures within { result < 25 }
{
    let segment = usize::from(segment);
    match space {
        Space::System => 0,
        Space::Home => segment,
        Space::Overflow => 8 + segment,
        Space::Image => 16 + segment,
    }
}
