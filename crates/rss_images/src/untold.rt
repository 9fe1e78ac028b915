// Pages of which proofs know no content: a test needs no proof of what stands in them, and damaged
// pages may stand there too.
ghost use Rattle.rss_images.specs.Silent.{untold, never_told};

use rss_base::{Page, PageFault, PageKey, Pages, Space};

/// Pages of which proofs know no content, and that count how often a page is asked for.
#[derive(Drop)]
pub struct Untold<P: Pages> {
    pages: P,
    asks: u32,
}

impl<P: Pages> Untold<P> {
    /// These pages, none of which was asked for.
    pub fn new(pages: P) -> Self {
        Untold { pages, asks: 0 }
    }

    /// How often a page was asked for.
    pub fn asks(&self) -> u32 {
        self.asks
    }
}

impl<P: Pages> Pages for Untold<P> {
    ghost view = { λ u. untold (P.view u.pages) };

    ghost few_slots = { λ u. P.few_slots u.pages };

    ghost reads_as_image = { λ u pages told. absurd (never_told (record { pages = pages; is = told })) };

    ghost stays = { λ u settled told. absurd (never_told told) };

    ghost holds = { λ u told. absurd (never_told told) };

    ghost allowed = { λ u key is. P.allowed u.pages key is };

    ghost are_counted = { λ u. P.are_counted u.pages };

    ghost noted_are = { λ u key noted. P.noted_are u.pages key noted };

    ghost changed_are = { λ u key is. P.changed_are u.pages key is };

    fn slots(&self) -> u32 {
        self.pages.slots()
    }

    fn spare(&self) -> u32 {
        self.pages.spare()
    }

    fn image_pages(&self) -> u32 {
        self.pages.image_pages()
    }

    fn has(&self, key: PageKey) -> bool {
        self.pages.has(key)
    }

    fn first_mapped(&self, segment: u8, space: Space, from: u32) -> Option<u32> {
        self.pages.first_mapped(segment, space, from)
    }

    fn first_unmapped(&self, segment: u8, space: Space, from: u32) -> Option<u32> {
        self.pages.first_unmapped(segment, space, from)
    }

    fn note(&mut self, key: PageKey, number: u16) {
        self.pages.note(key, number);
    }

    fn first_noted(&self, segment: u8, space: Space, from: u32, least: u16) -> Option<u32> {
        self.pages.first_noted(segment, space, from, least)
    }

    fn load(&mut self, key: PageKey) -> Result<(), PageFault> {
        self.asks = self.asks.saturating_add(1);
        self.pages.load(key)
    }

    fn loaded(&self, key: PageKey) -> &Page {
        self.pages.loaded(key)
    }

    fn read(&mut self, key: PageKey, into: &mut Page) -> Result<(), PageFault> {
        self.asks = self.asks.saturating_add(1);
        self.pages.read(key, into)
    }

    fn write(&mut self, key: PageKey, from: &Page) -> Result<(), PageFault> {
        self.pages.write(key, from)
    }

    fn take(&mut self, segment: u8, space: Space) -> Result<u32, PageFault> {
        self.pages.take(segment, space)
    }

    fn take_at(&mut self, key: PageKey) -> Result<(), PageFault> {
        self.pages.take_at(key)
    }

    fn give(&mut self, key: PageKey) -> Result<(), PageFault> {
        self.pages.give(key)
    }
}
