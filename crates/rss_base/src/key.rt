// The names of pages.
ghost use Rattle.std.specs.Prelude.{◌≡◌, ◌↔◌, ℕ, IsTrue};

/// What a page of a segment is for. The pages of the catalog belong to no segment.
#[derive(Clone, Copy, Debug, PartialEq, Eq, PartialOrd, Ord, Hash)]
pub enum Space {
    Home,
    Overflow,
    Image,
    System,
}

/// A page of a store, by its segment, its space and its number there. Segments are numbered from 1
/// to 8, and a page of the system space has the segment 0.
#[derive(Clone, Copy, Debug, PartialEq, Eq, PartialOrd, Ord, Hash)]
pub struct PageKey {
    pub segment: u8,
    pub space: Space,
    pub number: u32,
}

/// How many pages the system space has.
pub const SYSTEM_PAGES: u32 = 10;

/// How many segments there are.
pub const SEGMENTS: u8 = 8;

impl PageKey {
    ghost use Rattle.rss_base.specs.PageMap.{IsKey};

    /// Whether a map of so many slots may name this page.
    pub fn is_allowed(&self, slots: u32) -> bool
        ensures { IsTrue result ↔ IsKey slots self.now }
    {
        match self.space {
            Space::System => self.segment == 0 && self.number < SYSTEM_PAGES,
            Space::Home | Space::Overflow | Space::Image => {
                self.segment >= 1 && self.segment <= SEGMENTS && self.number < slots
            }
        }
    }
}
