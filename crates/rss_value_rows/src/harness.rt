// Tuples, and calls that are made only where they may be.
ghost use Rattle.std.specs.Prelude.{◌↔◌, All, IsTrue, IfSome};
ghost use Rattle.rss_base.specs.TupleTypes.{kinds, Spells};
ghost use Rattle.rss_value.specs.Numbers.{IsNumberOf};

use rss_base::{
    BODY_BYTES, Body, FieldDef, FieldKind, KEY_BYTES, Key, MOST_FIELDS, Name, Text, Tuple, Value,
};
use rss_value::{encode, fits, key, key_width, width};
use std::alloc::{AllocError, Global};

/// A value written out.
#[derive(Clone, Copy, Debug)]
pub(crate) enum Written {
    Int(i64),
    Text(&'static [u8]),
    Undefined,
}

const FIELD: Name = Name {
    bytes: *b"a\0\0\0\0\0\0\0\0\0\0\0\0\0\0\0",
};

/// An original field of this kind; its name plays no part.
pub(crate) fn field(kind: FieldKind) -> FieldDef {
    FieldDef {
        name: FIELD,
        kind,
        added: false,
    }
}

/// An added field of this kind.
pub(crate) fn added(kind: FieldKind) -> FieldDef {
    FieldDef {
        name: FIELD,
        kind,
        added: true,
    }
}

pub(crate) fn tuple_of(alloc: Global, values: &[Written]) -> Result<Tuple, AllocError> {
    let mut tuple = Tuple::with_capacity(alloc, values.len())?;
    for value in values {
        tuple.push(value_of(alloc, *value)?)?;
    }
    Ok(tuple)
}

fn value_of(alloc: Global, value: Written) -> Result<Value, AllocError> {
    match value {
        Written::Int(number) => Ok(Value::Int(number)),
        Written::Text(bytes) => Ok(Value::Text(Text::from_slice(alloc, bytes)?)),
        Written::Undefined => Ok(Value::Undefined),
    }
}

/// The bytes of a tuple's values, if it fits.
pub(crate) fn body_of(fields: &[FieldDef], tuple: &Tuple) -> Option<Body>
    ensures { IfSome result (λ body. Spells (kinds fields.now) body tuple.now) }
{
    if fields.len() > MOST_FIELDS || fits(fields, tuple).is_err() || width(fields) > BODY_BYTES {
        return None;
    }
    let mut body = Body::new();
    encode(fields, tuple, &mut body);
    Some(body)
}

fn are_numbers(fields: &[FieldDef], which: &[u8]) -> bool
    ensures { IsTrue result ↔ All (IsNumberOf fields.now) which.now }
{
    let last = fields.len();
    which
        .iter()
        .all(|number| *number >= 1 && usize::from(*number) <= last)
}

/// The key of a tuple, if it fits and there is one.
pub(crate) fn key_of(fields: &[FieldDef], which: &[u8], tuple: &Tuple) -> Option<Key> {
    let body = body_of(fields, tuple)?;
    if which.len() > MOST_FIELDS || !are_numbers(fields, which) {
        return None;
    }
    if key_width(fields, which) > KEY_BYTES {
        return None;
    }
    let mut bytes = Key::new();
    key(fields, which, body.as_slice(), &mut bytes);
    Some(bytes)
}
