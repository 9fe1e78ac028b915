// Tuples: whether they fit, and their bytes.
ghost use Rattle.std.specs.Prelude.{◌≡◌, ◌↔◌, ℕ, ◌+◌, ◌<◌, ◌≤◌, ◌++◌, true, false, List, length, drop, Some, None, IsTrue, IfOk, IfErr, IfSome, OnOk};
ghost use Rattle.std.specs.List.{list_all};
ghost use Rattle.rss_base.specs.TupleTypes.{kinds, is_undefined, misfit, most_fields, width, tuple_bytes, Spells, SpellsSome};
ghost use Rattle.rss_value.specs.Spelled.{is_spelled};
ghost use Rattle.rss_base.specs.declared.value.Value.{Value};

use crate::cursor::Cursor;
use crate::value_ref::ValueRef;
use rss_base::{BODY_BYTES, Body, FieldDef, Tuple, Value};
use std::alloc::{AllocError, Global};

/// Whether a tuple fits the fields. If not, the first field, counted from 1, whose value has the
/// wrong kind, is too long, has a character that isn't allowed, is missing, or is one too many.
pub fn fits(fields: &[FieldDef], tuple: &Tuple) -> Result<(), u8>
    requires { length fields.now ≤ most_fields }
    ensures ok { OnOk result (misfit (kinds fields.now) tuple.now ≡ None) }
    ensures first { IfErr result (λ number. misfit (kinds fields.now) tuple.now ≡ Some number) }
{
    let values = tuple.as_slice();
    let mut number = 1;
    for (field, value) in fields.iter().zip(values) {
        if !ValueRef::new(value).fits(field.form()) {
            return Err(number);
        }
        number += 1;
    }
    if fields.len() == values.len() {
        Ok(())
    } else {
        Err(number)
    }
}

/// Puts the bytes of a tuple's values after those that are there. The form is that of
/// `docs/VALUES.md`.
pub fn encode(fields: &[FieldDef], tuple: &Tuple, into: &mut Body)
    requires fit { misfit (kinds fields.now) tuple.now ≡ None }
    requires room { length into.old + width (kinds fields.now) ≤ BODY_BYTES }
    ensures appended { into.new ≡ into.old ++ tuple_bytes (kinds fields.now) tuple.now }
    ensures spelled { Spells (kinds fields.now) (tuple_bytes (kinds fields.now) tuple.now) tuple.now }
{
    let values = tuple.as_slice();
    let standing = &values[..standing(values)];
    for (field, value) in fields.iter().zip(standing) {
        ValueRef::new(value).write(field.form(), into);
    }
}

/// How many values there are up to the last one that is defined.
fn standing(values: &[Value]) -> usize
    ensures within { result ≤ length values.now }
    ensures rest { list_all is_undefined (drop result values.now) ≡ true }
    ensures least { (count : ℕ) → count < result
        → list_all is_undefined (drop count values.now) ≡ false }
{
    let mut count = values.len();
    while count > 0 && is_undefined(&values[count - 1]) {
        count -= 1;
    }
    count
}

fn is_undefined(value: &Value) -> bool
    ensures { result ≡ is_undefined value.now }
{
    matches!(value, Value::Undefined)
}

/// Whether the bytes are those of the values of a tuple that fits the fields. It takes no memory.
pub fn spells(fields: &[FieldDef], bytes: &[u8]) -> bool
    ensures exact { IsTrue result ↔ SpellsSome (kinds fields.now) bytes.now }
    ensures read { result ≡ is_spelled (kinds fields.now) bytes.now }
{
    let mut cursor = Cursor::new(bytes);
    for field in fields {
        if cursor.read(field.form()).is_none() {
            return false;
        }
    }
    cursor.is_at_end()
}

/// The tuple whose values' bytes these are, or `None` if they spell no tuple that fits the fields.
/// It takes one allocation, and one more for each text.
pub fn decode(alloc: Global, fields: &[FieldDef], bytes: &[u8]) -> Result<Option<Tuple>, AllocError>
    ensures some { IfOk result (λ tuple. IfSome tuple (Spells (kinds fields.now) bytes.now)) }
    ensures exact { IfOk result (λ tuple. (values : List Value)
        → Spells (kinds fields.now) bytes.now values → tuple ≡ Some values) }
{
    let mut tuple = Tuple::with_capacity(alloc, fields.len())?;
    if decode_into(alloc, fields, bytes, &mut tuple)? {
        Ok(Some(tuple))
    } else {
        Ok(None)
    }
}

/// Fills a tuple with the values whose bytes these are, in place of those that it has, and tells
/// whether there are such: not if the bytes spell no tuple that fits the fields. What the tuple
/// holds then, or if memory lacks, isn't said. It takes one allocation for each text, and room for
/// the values if the tuple has too little.
pub fn decode_into(
    alloc: Global,
    fields: &[FieldDef],
    bytes: &[u8],
    into: &mut Tuple,
) -> Result<bool, AllocError>
    ensures some { IfOk result (λ spelled. IsTrue spelled
        → Spells (kinds fields.now) bytes.now into.new) }
    ensures exact { IfOk result (λ spelled. (values : List Value)
        → Spells (kinds fields.now) bytes.now values → IsTrue spelled × (into.new ≡ values)) }
{
    into.clear();
    let mut cursor = Cursor::new(bytes);
    for field in fields {
        let Some(value) = cursor.read(field.form()) else {
            return Ok(false);
        };
        into.push(value.to_value(alloc)?)?;
    }
    Ok(cursor.is_at_end())
}
