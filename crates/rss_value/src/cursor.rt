// Values that are read from bytes.
ghost use Rattle.std.specs.Prelude.{◌≡◌, ◌↔◌, [], IsTrue};
ghost use Rattle.rss_base.specs.declared.value.FieldKind.TheVariants.{Int as IntField, Text as TextField};
ghost use Rattle.rss_value.specs.Reads.{Reads, IsInt, original, added};

use crate::value_ref::{ValueRef, is_allowed_text};
use rss_base::{FieldForm, FieldKind};
use std::marker::Model;

/// Bytes whose values are read one after another.
#[derive(Drop)]
pub struct Cursor<'a> {
    rest: &'a [u8],
}

impl<'a> Model for Cursor<'a> {
    ghost use Rattle.std.specs.Prelude.{List, ℕ};

    ghost Value = { List ℕ };

    ghost view = { λ c. c.rest.now };
}

impl<'a> Cursor<'a> {
    pub fn new(bytes: &'a [u8]) -> Self
        ensures { result ≡ bytes.now }
    {
        Cursor { rest: bytes }
    }

    /// Whether all bytes were read.
    pub fn is_at_end(&self) -> bool
        ensures { IsTrue result ↔ (self.now ≡ []) }
    {
        self.rest.is_empty()
    }

    /// The value of a field of this form that the bytes begin with. If there is none, the cursor
    /// may stand anywhere.
    pub fn read(&mut self, form: FieldForm) -> Option<ValueRef<'a>>
        ensures { Reads form self.old result self.new }
    {
        if form.added {
            self.read_marked(form.kind)
        } else {
            self.read_kind(form.kind)
        }
    }

    /// The value of an added field. At the end of the bytes it is undefined. A 0 there is none: it
    /// stands only before a field that has a value.
    fn read_marked(&mut self, kind: FieldKind) -> Option<ValueRef<'a>>
        ensures { Reads (added kind) self.old result self.new }
    {
        let Some((mark, rest)) = self.rest.split_first() else {
            return Some(ValueRef::Undefined);
        };
        self.rest = rest;
        match *mark {
            0 if !rest.is_empty() => Some(ValueRef::Undefined),
            1 => self.read_kind(kind),
            _ => None,
        }
    }

    fn read_kind(&mut self, kind: FieldKind) -> Option<ValueRef<'a>>
        ensures { Reads (original kind) self.old result self.new }
    {
        match kind {
            FieldKind::Int => self.read_int(),
            FieldKind::Text(most) => self.read_text(most),
        }
    }

    fn read_int(&mut self) -> Option<ValueRef<'a>>
        ensures { Reads (original IntField) self.old result self.new }
    {
        let (bytes, rest) = self.rest.split_first_chunk()?;
        self.rest = rest;
        Some(ValueRef::Int(to_number(*bytes)))
    }

    fn read_text(&mut self, most: u8) -> Option<ValueRef<'a>>
        ensures { Reads (original (TextField most)) self.old result self.new }
    {
        let (length, rest) = self.rest.split_first()?;
        let (bytes, rest) = rest.split_at_checked(usize::from(*length))?;
        if *length > most || !is_allowed_text(bytes) {
            return None;
        }
        self.rest = rest;
        Some(ValueRef::Text(bytes))
    }
}

/// The number whose bytes these are.
fn to_number(bytes: [u8; 8]) -> i64
    ensures { IsInt bytes result }
{
    i64::from_be_bytes(bytes)
}
