// The entry of a slot.
ghost use Rattle.std.specs.Prelude.{◌≡◌, ◌↔◌, ◌+◌, IsTrue, IsSome, IfSome};
ghost use Rattle.rss_page.specs.Slotted.{entry_bytes, entry_from, place_of, length_of, IsAllowed};
ghost use Rattle.rss_page.specs.Surveyed.{StandsFrom};

use rss_base::{PAGE_BYTES, PAGE_ENTRIES};

/// How many bytes an entry has.
pub const ENTRY_BYTES: usize = 8;

/// How many entries a page has.
pub const ENTRIES: u8 = PAGE_ENTRIES as u8;

/// Where the bodies begin.
pub const BODIES_AT: u16 = 1040;

/// How many bytes a page has.
pub const PAGE_END: u16 = PAGE_BYTES as u16;

/// The first two bytes of an entry with a body.
const HERE: u16 = 0x0100;

/// The first byte of an entry with a forward.
const FORWARD: u8 = 2;

/// The code of the home space, the one in which entries may be forwards.
const HOME: u8 = 1;

/// An entry of the directory.
#[derive(Clone, Copy, Debug, PartialEq, Eq)]
pub enum Entry {
    Empty,
    /// The body stands in this page: so many bytes, from a place on.
    Here { place: u16, length: u16 },
    /// The body stands in an overflow page of the segment, at a slot below 128.
    Forward { page: u32, slot: u8 },
}

impl Entry {
    /// The bytes of the entry.
    pub(crate) fn encode(self) -> [u8; ENTRY_BYTES]
        ensures { result ≡ entry_bytes self }
    {
        match self {
            Entry::Empty => [0; ENTRY_BYTES],
            Entry::Here { place, length } => {
                let [a, b] = place.to_be_bytes();
                let [c, d] = length.to_be_bytes();
                [1, 0, a, b, c, d, 0, 0]
            }
            Entry::Forward { page, slot } => {
                let [a, b, c, d] = page.to_be_bytes();
                [2, slot, 0, 0, a, b, c, d]
            }
        }
    }

    /// The entry that the bytes spell, if they spell one.
    #[inline(always)]
    pub(crate) fn decode(bytes: &[u8; ENTRY_BYTES]) -> Self
        ensures { result ≡ entry_from bytes.now }
    {
        let [kind, slot, a, b, c, d, e, f] = *bytes;
        match kind {
            1 => Entry::Here {
                place: u16::from_be_bytes([a, b]),
                length: u16::from_be_bytes([c, d]),
            },
            2 => Entry::Forward {
                page: u32::from_be_bytes([c, d, e, f]),
                slot,
            },
            _ => Entry::Empty,
        }
    }

    /// The entry that the bytes are, if they are those of one.
    #[inline(always)]
    pub(crate) fn spelled(bytes: &[u8; ENTRY_BYTES]) -> Option<Self>
        ensures some { IfSome result (λ entry. entry ≡ entry_from bytes.now) }
        ensures exact { IsSome result ↔ (bytes.now ≡ entry_bytes (entry_from bytes.now)) }
    {
        let word = u64::from_be_bytes(*bytes);
        if word == 0 {
            return Some(Entry::Empty);
        }
        let [kind, slot, a, b, c, d, e, f] = *bytes;
        let place = u16::from_be_bytes([a, b]);
        let length = u16::from_be_bytes([c, d]);
        if u16::from_be_bytes([kind, slot]) == HERE && word % 0x1_0000 == 0 {
            return Some(Entry::Here { place, length });
        }
        if kind == FORWARD && place == 0 {
            let page = u32::from_be_bytes([c, d, e, f]);
            return Some(Entry::Forward { page, slot });
        }
        None
    }

    /// How many bytes the body has, if there is one.
    pub(crate) fn body_length(self) -> u16
        ensures { result ≡ length_of self }
    {
        match self {
            Entry::Here { length, .. } => length,
            Entry::Empty | Entry::Forward { .. } => 0,
        }
    }

    /// Whether the body, if there is one, begins at this place or after it.
    #[inline(always)]
    pub(crate) fn stands_from(self, from: u16) -> bool
        ensures { IsTrue result ↔ StandsFrom from self }
    {
        match self {
            Entry::Here { place, .. } => place >= from,
            Entry::Empty | Entry::Forward { .. } => true,
        }
    }

    /// Whether the entry may stand in a page of the space with this code.
    #[inline(always)]
    pub(crate) fn is_allowed(self, space: u8) -> bool
        ensures { IsTrue result ↔ IsAllowed space self }
    {
        match self {
            Entry::Empty => true,
            Entry::Here { place, length } => {
                let end = u32::from(place) + u32::from(length);
                place >= BODIES_AT && length >= 1 && end <= u32::from(PAGE_END)
            }
            Entry::Forward { slot, .. } => space == HOME && slot < ENTRIES,
        }
    }
}
