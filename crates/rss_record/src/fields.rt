// The fields of records, read one behind the other.
ghost use Rattle.std.specs.Prelude.{◌≡◌, length};
ghost use Rattle.std.specs.Int.{w16, w32, w64};
ghost use Rattle.rss_record.specs.Reading.{Gives, byte_at, number_at, tid_at, place_at, values_at, mark_at, marks_at};

use byteorder::{BigEndian, ByteOrder};
use rss_base::{Body, MARKS_MOST, Marks, PAGE_ENTRIES, Tid};
use std::marker::Model;

/// How many bytes of values a record has at most.
const VALUES_MOST: usize = 2048;

/// How many tuples a page has an entry for.
const ENTRIES: u16 = PAGE_ENTRIES as u16;

/// Bytes that are still to be read. Each call takes a field from their front; if there is none,
/// what is left is of no use.
#[derive(Drop)]
pub(crate) struct Fields<'a> {
    rest: &'a [u8],
}

impl<'a> Model for Fields<'a> {
    ghost use Rattle.std.specs.Prelude.{List, ℕ};

    ghost Value = { List ℕ };

    ghost view = { λ f. f.rest.now };
}

impl<'a> Fields<'a> {
    pub(crate) fn new(bytes: &'a [u8]) -> Self
        ensures { result ≡ bytes.now }
    {
        Fields { rest: bytes }
    }

    /// How many bytes are left.
    pub(crate) fn len(&self) -> usize
        ensures { result ≡ length self.now }
    {
        self.rest.len()
    }

    pub(crate) fn byte(&mut self) -> Option<u8>
        ensures { Gives result self.new (byte_at self.old) }
    {
        let (byte, rest) = self.rest.split_first()?;
        self.rest = rest;
        Some(*byte)
    }

    pub(crate) fn u16(&mut self) -> Option<u16>
        ensures { Gives result self.new (number_at w16 self.old) }
    {
        if self.rest.len() < 2 {
            return None;
        }
        let (front, rest) = self.rest.split_at(2);
        self.rest = rest;
        Some(BigEndian::read_u16(front))
    }

    pub(crate) fn u32(&mut self) -> Option<u32>
        ensures { Gives result self.new (number_at w32 self.old) }
    {
        if self.rest.len() < 4 {
            return None;
        }
        let (front, rest) = self.rest.split_at(4);
        self.rest = rest;
        Some(BigEndian::read_u32(front))
    }

    pub(crate) fn u64(&mut self) -> Option<u64>
        ensures { Gives result self.new (number_at w64 self.old) }
    {
        if self.rest.len() < 8 {
            return None;
        }
        let (front, rest) = self.rest.split_at(8);
        self.rest = rest;
        Some(BigEndian::read_u64(front))
    }

    #[tactic(auto, unfolding(crate::specs::Reading::tid_at))]
    pub(crate) fn tid(&mut self) -> Option<Tid>
        ensures { Gives result self.new (tid_at self.old) }
    {
        let page = self.u32()?;
        let slot = self.u16()?;
        if slot < ENTRIES {
            Some(Tid { page, slot })
        } else {
            None
        }
    }

    /// An identifier, or six bytes of 255 if there is none.
    #[tactic(auto, unfolding(crate::specs::Reading::place_at))]
    pub(crate) fn place(&mut self) -> Option<Option<Tid>>
        ensures { Gives result self.new (place_at self.old) }
    {
        let page = self.u32()?;
        let slot = self.u16()?;
        if slot < ENTRIES {
            Some(Some(Tid { page, slot }))
        } else if page == u32::MAX && slot == u16::MAX {
            Some(None)
        } else {
            None
        }
    }

    /// Values, after their length.
    #[tactic(auto, unfolding(crate::specs::Reading::values_at))]
    pub(crate) fn values(&mut self) -> Option<Body>
        ensures { Gives result self.new (values_at self.old) }
    {
        let size = usize::from(self.u16()?);
        if size > VALUES_MOST || self.rest.len() < size {
            return None;
        }
        let (front, rest) = self.rest.split_at(size);
        self.rest = rest;
        let mut values = Body::new();
        values.extend_from_slice(front);
        Some(values)
    }

    /// The transactions of a checkpoint, after their count.
    #[tactic(auto, unfolding(crate::specs::Reading::marks_at))]
    pub(crate) fn marks(&mut self) -> Option<Marks>
        ensures { Gives result self.new (marks_at self.old) }
    {
        let count = usize::from(self.byte()?);
        if count > MARKS_MOST {
            return None;
        }
        let mut marks = Marks::new();
        for _ in 0..count {
            let mark = self.mark()?;
            marks.push(mark);
        }
        Some(marks)
    }

    #[tactic(auto, unfolding(crate::specs::Reading::mark_at))]
    fn mark(&mut self) -> Option<(u32, u64)>
        ensures { Gives result self.new (mark_at self.old) }
    {
        let by = self.u32()?;
        let position = self.u64()?;
        Some((by, position))
    }
}
