// Values that are borrowed: whether they fit a field, and how they are written.
ghost use Rattle.std.specs.Prelude.{◌≡◌, ◌+◌, ◌-◌, ◌≤◌, ◌++◌, true, length, replicate, IfOk};
ghost use Rattle.std.specs.List.{list_all};
ghost use Rattle.rss_base.specs.TupleTypes.{is_allowed_byte, is_allowed_text, fits, IsStorable, mark_width, marked_bytes, with_sign_inverted, marked_part, key_part_width};
ghost use Rattle.rss_value.specs.ValueRefs.{value_of, mark_of, mark_bytes};

use crate::widths::key_kind_width;
use rss_base::{BODY_BYTES, Body, BoundedBytes, FieldForm, FieldKind, KEY_BYTES, Key, Text, Value};
use std::alloc::{AllocError, Global};
use std::str;

/// The bit of a number's first byte that says that the number is negative.
const SIGN_BIT: u8 = 0x80;

/// A value whose text is borrowed.
#[derive(Clone, Copy)]
pub enum ValueRef<'a> {
    Int(i64),
    Text(&'a [u8]),
    Undefined,
}

impl<'a> ValueRef<'a> {
    pub fn new(value: &'a Value) -> Self
        ensures { value_of result ≡ value.now }
    {
        match value {
            Value::Int(number) => ValueRef::Int(*number),
            Value::Text(text) => ValueRef::Text(text.as_slice()),
            Value::Undefined => ValueRef::Undefined,
        }
    }

    /// The value, with a text of its own, which is made in one allocation.
    pub fn to_value(&self, alloc: Global) -> Result<Value, AllocError>
        ensures { IfOk result (λ value. value ≡ value_of self.now) }
    {
        match self {
            ValueRef::Int(number) => Ok(Value::Int(*number)),
            ValueRef::Text(bytes) => Ok(Value::Text(Text::from_slice(alloc, bytes)?)),
            ValueRef::Undefined => Ok(Value::Undefined),
        }
    }

    /// Whether a field of this form may hold the value.
    pub fn fits(&self, form: FieldForm) -> bool
        ensures { result ≡ fits form (value_of self.now) }
    {
        match (self, form.kind) {
            (ValueRef::Undefined, _) => form.added,
            (ValueRef::Int(_), FieldKind::Int) => true,
            (ValueRef::Text(bytes), FieldKind::Text(most)) => {
                bytes.len() <= usize::from(most) && is_allowed_text(bytes)
            }
            _ => false,
        }
    }

    /// Puts the bytes that the value has in a field of this form after those that are there.
    pub fn write(&self, form: FieldForm, into: &mut Body)
        requires fit { fits form (value_of self.now) ≡ true }
        requires room { length into.old + length (marked_bytes form.added (value_of self.now))
            ≤ BODY_BYTES }
        ensures written { into.new ≡ into.old ++ marked_bytes form.added (value_of self.now) }
        ensures storable { IsStorable (value_of self.now) }
    {
        self.push_mark(form.added, into);
        match self {
            ValueRef::Int(number) => into.extend_from_slice(&number.to_be_bytes()),
            ValueRef::Text(bytes) => {
                into.push(bytes.len() as u8);
                into.extend_from_slice(bytes);
            }
            ValueRef::Undefined => {}
        }
    }

    /// Puts the part of a key that a field of this form has after what is there.
    pub fn write_key_part(&self, form: FieldForm, into: &mut Key)
        requires fit { fits form (value_of self.now) ≡ true }
        requires room { length into.old + key_part_width form ≤ KEY_BYTES }
        ensures written { into.new
            ≡ into.old ++ marked_part form.added form.kind (value_of self.now) }
        ensures storable { IsStorable (value_of self.now) }
    {
        self.push_mark(form.added, into);
        match (self, form.kind) {
            (ValueRef::Undefined, kind) => push_zeros(into, key_kind_width(kind)),
            (ValueRef::Int(number), _) => {
                into.extend_from_slice(&invert_sign(number.to_be_bytes()));
            }
            (ValueRef::Text(bytes), FieldKind::Text(most)) => {
                into.extend_from_slice(bytes);
                push_zeros(into, usize::from(most) - bytes.len());
            }
            (ValueRef::Text(_), FieldKind::Int) => unreachable!(),
        }
    }

    /// Puts the byte that stands before the value of an added field after what is there.
    fn push_mark<const N: usize>(&self, added: bool, into: &mut BoundedBytes<N>)
        requires { length into.old + mark_width added ≤ N }
        ensures { into.new ≡ into.old ++ mark_bytes added (value_of self.now) }
    {
        if added {
            into.push(self.mark());
        }
    }

    fn mark(&self) -> u8
        ensures { result ≡ mark_of (value_of self.now) }
    {
        match self {
            ValueRef::Int(_) | ValueRef::Text(_) => 1,
            ValueRef::Undefined => 0,
        }
    }
}

/// Whether the bytes are UTF-8 text of characters from U+0020 on, without U+007F.
pub fn is_allowed_text(bytes: &[u8]) -> bool
    ensures { result ≡ is_allowed_text bytes.now }
{
    str::from_utf8(bytes).is_ok() && has_no_control(bytes)
}

fn has_no_control(bytes: &[u8]) -> bool
    ensures { result ≡ list_all is_allowed_byte bytes.now }
{
    bytes.iter().all(|byte| *byte >= 32 && *byte != 127)
}

fn invert_sign(number: [u8; 8]) -> [u8; 8]
    ensures { result ≡ with_sign_inverted number }
{
    let mut inverted = number;
    inverted[0] ^= SIGN_BIT;
    inverted
}

pub(crate) fn push_zeros(into: &mut Key, count: usize)
    requires { length into.old + count ≤ KEY_BYTES }
    ensures { into.new ≡ into.old ++ replicate count 0 }
{
    for _ in 0..count {
        into.push(0);
    }
}
