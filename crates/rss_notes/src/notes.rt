// Notes on pages.
ghost use Rattle.std.specs.Prelude.{◌≡◌, ◌≤◌, ℕ, true, false, None, IfOk, IfSome, IfNone};
ghost use Rattle.rss_base.specs.Sizes.{slots_most};
ghost use Rattle.rss_base.specs.Notes.{MayDo, is_noted_space, note_most};
ghost use Rattle.rss_base.specs.PageMap.{IsKey};
ghost use Rattle.rss_base.specs.Paged.{IsFirstFrom, NoneFrom};
ghost use Rattle.rss_base.specs.declared.key.PageKey.{PageKey as Key};
ghost use Rattle.rss_notes.specs.Marks.{told};
ghost use Rattle.rss_notes.specs.Notes.{Marks, noted_on};

use crate::marks::{COLUMNS, UNMAPPED, UNNOTED, column_at, mark_of, put_mark};
use crate::maxima::Maxima;
use rss_base::{PageKey, Space};
use std::alloc::{AllocError, Global};
use std::marker::Model;

/// Which home and overflow pages of a store are mapped, and the numbers that were noted on them. A
/// key of another space changes nothing here.
///
/// After `new` no call takes memory, and each takes time in proportion to the logarithm of the
/// number of slots at most.
#[derive(Drop)]
pub struct Notes {
    slots: u32,
    columns: Vec<Maxima>,
}

impl Model for Notes {
    ghost use Rattle.rss_notes.specs.Marks.{AreColumns, Marked};

    ghost Value = { Marked };

    ghost view = { λ n. record { slots = n.slots; columns = n.columns.items } };

    ghost invariant = { λ n. AreColumns n.slots n.columns.items };
}

impl Notes {
    /// For a store of so many slots. No page is mapped.
    pub fn new(alloc: Global, slots: u32) -> Result<Self, AllocError>
        requires { slots ≤ slots_most }
        ensures slots { IfOk result (λ notes. (told notes).slots ≡ slots) }
        ensures mapped { IfOk result (λ notes. (key : Key) → (told notes).mapped key ≡ false) }
        ensures notes { IfOk result (λ notes. (key : Key) → (told notes).notes key ≡ None) }
    {
        let mut columns = Vec::with_capacity(alloc, COLUMNS)?;
        for _ in 0..COLUMNS {
            columns.push_reserved(Maxima::new(alloc, slots as usize)?);
        }
        Ok(Notes { slots, columns })
    }

    /// The page is mapped from now on, and has no note.
    pub fn map(&mut self, key: PageKey)
        requires { IsKey (told self.old).slots key }
        ensures { Marks (told self.old) (told self.new) key (is_noted_space key.space) None }
    {
        put_mark(&mut self.columns, key, UNNOTED);
    }

    /// The page is mapped no longer.
    pub fn unmap(&mut self, key: PageKey)
        ensures { Marks (told self.old) (told self.new) key false None }
    {
        put_mark(&mut self.columns, key, UNMAPPED);
    }

    /// The page has no note from now on. Nothing is written if it has none.
    pub fn forget(&mut self, key: PageKey)
        ensures { Marks (told self.old) (told self.new) key ((told self.old).mapped key) None }
    {
        let mark = mark_of(&self.columns, key);
        if mark != UNMAPPED && mark != UNNOTED {
            put_mark(&mut self.columns, key, UNNOTED);
        }
    }

    /// Notes a number on a page, in place of what was noted before. It does nothing if the page
    /// isn't mapped.
    pub fn note(&mut self, key: PageKey, number: u16)
        requires { number ≤ note_most }
        ensures { Marks (told self.old) (told self.new) key ((told self.old).mapped key)
            (noted_on (told self.old) key number) }
    {
        if mark_of(&self.columns, key) != UNMAPPED {
            put_mark(&mut self.columns, key, number + 1);
        }
    }

    /// The first mapped page of a segment and a space, from `from` on, that has no note or one of
    /// at least `least`.
    pub fn first_noted(&self, segment: u8, space: Space, from: u32, least: u16) -> Option<u32>
        ensures some { IfSome result (IsFirstFrom
            (MayDo (told self.now).mapped (told self.now).notes least segment space) from) }
        ensures none { IfNone result (NoneFrom
            (MayDo (told self.now).mapped (told self.now).notes least segment space) from) }
    {
        let column = column_at(space, segment)?;
        let place = self.columns[column].first(from as usize, least.saturating_add(1))?;
        Some(place as u32)
    }
}
