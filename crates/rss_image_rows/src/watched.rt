// Pages that know which of them a call changed.
use crate::calls::SLOTS;
use rss_base::{Page, PageFault, PageKey, Pages, Space};
use std::alloc::{AllocError, Global};

/// Pages, with a mark at the number of each that was written, taken or given since the marks were
/// last taken away.
#[derive(Drop)]
pub(crate) struct Watched<P: Pages> {
    pages: P,
    marks: Vec<bool>,
}

fn mark(marks: &mut Vec<bool>, number: u32) {
    if let Some(mark) = marks.get_mut(number as usize) {
        *mark = true;
    }
}

fn mark_taken(marks: &mut Vec<bool>, taken: Result<u32, PageFault>) {
    if let Ok(number) = taken {
        mark(marks, number);
    }
}

impl<P: Pages + Drop> Watched<P> {
    pub(crate) fn new(alloc: Global, pages: P) -> Result<Self, AllocError> {
        let marks = vec![in alloc; false; SLOTS as usize]?;
        Ok(Watched { pages, marks })
    }

    /// A mark for each number: whether its page was changed.
    pub(crate) fn marks(&self) -> &[bool] {
        self.marks.as_slice()
    }

    pub(crate) fn clear_marks(&mut self) {
        self.marks.as_mut_slice().fill(false);
    }
}

impl<P: Pages> Pages for Watched<P> {
    ghost view = { λ w. P.view w.pages };

    ghost reads_as_image = { λ w. P.reads_as_image w.pages };

    ghost stays = { λ w. P.stays w.pages };

    ghost holds = { λ w. P.holds w.pages };

    ghost allowed = { λ w. P.allowed w.pages };

    ghost few_slots = { λ w. P.few_slots w.pages };

    ghost are_counted = { λ w. P.are_counted w.pages };

    ghost noted_are = { λ w. P.noted_are w.pages };

    ghost changed_are = { λ w. P.changed_are w.pages };

    fn slots(&self) -> u32 {
        self.pages.slots()
    }

    fn spare(&self) -> u32 {
        self.pages.spare()
    }

    fn image_pages(&self) -> u32 {
        self.pages.image_pages()
    }

    fn has(&self, key: PageKey) -> bool {
        self.pages.has(key)
    }

    fn first_mapped(&self, segment: u8, space: Space, from: u32) -> Option<u32> {
        self.pages.first_mapped(segment, space, from)
    }

    fn first_unmapped(&self, segment: u8, space: Space, from: u32) -> Option<u32> {
        self.pages.first_unmapped(segment, space, from)
    }

    fn note(&mut self, key: PageKey, number: u16) {
        self.pages.note(key, number);
    }

    fn first_noted(&self, segment: u8, space: Space, from: u32, least: u16) -> Option<u32> {
        self.pages.first_noted(segment, space, from, least)
    }

    fn load(&mut self, key: PageKey) -> Result<(), PageFault> {
        self.pages.load(key)
    }

    fn loaded(&self, key: PageKey) -> &Page {
        self.pages.loaded(key)
    }

    fn read(&mut self, key: PageKey, into: &mut Page) -> Result<(), PageFault> {
        self.pages.read(key, into)
    }

    fn write(&mut self, key: PageKey, from: &Page) -> Result<(), PageFault> {
        mark(&mut self.marks, key.number);
        self.pages.write(key, from)
    }

    fn take(&mut self, segment: u8, space: Space) -> Result<u32, PageFault> {
        let taken = self.pages.take(segment, space);
        mark_taken(&mut self.marks, taken);
        taken
    }

    fn take_at(&mut self, key: PageKey) -> Result<(), PageFault> {
        mark(&mut self.marks, key.number);
        self.pages.take_at(key)
    }

    fn give(&mut self, key: PageKey) -> Result<(), PageFault> {
        mark(&mut self.marks, key.number);
        self.pages.give(key)
    }
}
