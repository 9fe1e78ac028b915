// Tuples as bytes, by bytes written out.
use crate::harness::{Written, added, body_of, field, tuple_of};
use rss_base::{FieldDef, FieldKind};
use rss_images::{assert_same, assert_same_slices, assert_some};
use rss_value::decode;
use std::alloc::Global;
use std::test::Fail;

/// A text of 255 bytes.
const LONG: [u8; 255] = [b'x'; 255];

/// Values of an INT and a TEXT 5, and their bytes.
const SPELLED: [(&str, [Written; 2], &[u8]); 3] = [
    (
        "two letters",
        [Written::Int(7), Written::Text(b"ab")],
        b"\0\0\0\0\0\0\0\x07\x02ab",
    ),
    (
        "one character of three bytes",
        [Written::Int(-1), Written::Text(b"\xe2\x82\xac")],
        b"\xff\xff\xff\xff\xff\xff\xff\xff\x03\xe2\x82\xac",
    ),
    (
        "the least number and no text",
        [Written::Int(i64::MIN), Written::Text(b"")],
        b"\x80\0\0\0\0\0\0\0\0",
    ),
];

/// A tuple has these bytes, and they give a tuple that has them again.
fn assert_spelled(
    alloc: Global,
    fields: &[FieldDef],
    (name, values, want): (&str, &[Written], &[u8]),
) -> Result<(), Fail> {
    let body = assert_some(body_of(fields, &tuple_of(alloc, values)?), name)?;
    assert_same_slices(body.as_slice(), want, name)?;
    let again = assert_some(decode(alloc, fields, want)?, (name, "as a tuple"))?;
    let bytes = assert_some(body_of(fields, &again), (name, "again"))?;
    assert_same_slices(bytes.as_slice(), want, (name, "again"))?;
    Ok(())
}

#[test]
fn tuples_have_these_bytes(rt: HostRuntime) -> Result<(), Fail> {
    let fields = [field(FieldKind::Int), field(FieldKind::Text(5))];
    for (name, values, want) in &SPELLED {
        assert_spelled(rt.alloc(), &fields, (name, values, want))?;
    }
    assert_spelled(rt.alloc(), &[], ("no fields", &[], b""))
}

/// Values of an INT, an added INT and an added TEXT 3, and their bytes. Nothing stands for the values
/// that are undefined at the right end.
const ADDED: [(&str, [Written; 3], &[u8]); 6] = [
    (
        "none is given",
        [Written::Int(7), Written::Undefined, Written::Undefined],
        b"\0\0\0\0\0\0\0\x07",
    ),
    (
        "the number is given",
        [Written::Int(8), Written::Int(-5), Written::Undefined],
        b"\0\0\0\0\0\0\0\x08\x01\xff\xff\xff\xff\xff\xff\xff\xfb",
    ),
    (
        "the number is 0",
        [Written::Int(8), Written::Int(0), Written::Undefined],
        b"\0\0\0\0\0\0\0\x08\x01\0\0\0\0\0\0\0\0",
    ),
    (
        "the text is given",
        [Written::Int(9), Written::Undefined, Written::Text(b"ab")],
        b"\0\0\0\0\0\0\0\x09\0\x01\x02ab",
    ),
    (
        "the text is empty",
        [Written::Int(9), Written::Undefined, Written::Text(b"")],
        b"\0\0\0\0\0\0\0\x09\0\x01\0",
    ),
    (
        "both are given",
        [Written::Int(7), Written::Int(1), Written::Text(b"x")],
        b"\0\0\0\0\0\0\0\x07\x01\0\0\0\0\0\0\0\x01\x01\x01x",
    ),
];

#[test]
fn values_of_added_fields_have_a_byte_before_them(rt: HostRuntime) -> Result<(), Fail> {
    let fields = [
        field(FieldKind::Int),
        added(FieldKind::Int),
        added(FieldKind::Text(3)),
    ];
    for (name, values, want) in &ADDED {
        assert_spelled(rt.alloc(), &fields, (name, values, want))?;
    }
    Ok(())
}

/// How many of eight texts have 255 bytes while the others are empty, and how many bytes they are.
const SIZES: [(usize, usize); 3] = [(8, 2048), (0, 8), (5, 1283)];

/// So many texts of 255 bytes, and empty ones after them.
fn texts(full: usize) -> [Written; 8] {
    let mut values = [Written::Text(b""); 8];
    for (at, value) in values.iter_mut().enumerate() {
        if at < full {
            *value = Written::Text(&LONG);
        }
    }
    values
}

#[test]
fn texts_take_their_bytes_and_one_more(rt: HostRuntime) -> Result<(), Fail> {
    let fields = [field(FieldKind::Text(255)); 8];
    for (full, want) in SIZES {
        let tuple = tuple_of(rt.alloc(), &texts(full))?;
        let body = assert_some(body_of(&fields, &tuple), full)?;
        assert_same(&body.as_slice().len(), &want, full)?;
    }
    Ok(())
}

/// Bytes that spell no tuple of an INT and a TEXT 2.
const NO_TUPLES: [&[u8]; 9] = [
    b"",
    b"\0\0\0\0\0\0\0",
    b"\0\0\0\0\0\0\0\x07",
    b"\0\0\0\0\0\0\0\x07\x02a",
    b"\0\0\0\0\0\0\0\x07\x03abc",
    b"\0\0\0\0\0\0\0\x07\x02abc",
    b"\0\0\0\0\0\0\0\x07\x01\x7f",
    b"\0\0\0\0\0\0\0\x07\x01\x1f",
    b"\0\0\0\0\0\0\0\x07\x02\xe2\x82",
];

#[test]
fn other_bytes_spell_no_tuple(rt: HostRuntime) -> Result<(), Fail> {
    let fields = [field(FieldKind::Int), field(FieldKind::Text(2))];
    for (case, bytes) in NO_TUPLES.iter().enumerate() {
        let found = decode(rt.alloc(), &fields, bytes)?.is_some();
        assert_same(&found, &false, case)?;
    }
    Ok(())
}

/// Bytes that spell no tuple of an INT, an added INT and an added TEXT 2.
const NO_ADDED: [(&str, &[u8]); 8] = [
    ("a 0 at the end", b"\0\0\0\0\0\0\0\x07\0"),
    ("two of them", b"\0\0\0\0\0\0\0\x07\0\0"),
    (
        "a 0 behind the number",
        b"\0\0\0\0\0\0\0\x07\x01\0\0\0\0\0\0\0\x08\0",
    ),
    ("a 1 at the end", b"\0\0\0\0\0\0\0\x07\x01"),
    (
        "a 2 before the number",
        b"\0\0\0\0\0\0\0\x07\x02\0\0\0\0\0\0\0\x08",
    ),
    (
        "no byte before the number",
        b"\0\0\0\0\0\0\0\x07\xff\xff\xff\xff\xff\xff\xff\xfb",
    ),
    ("a text too long", b"\0\0\0\0\0\0\0\x07\0\x01\x03abc"),
    ("a 0 behind the last", b"\0\0\0\0\0\0\0\x07\0\x01\x01a\0"),
];

#[test]
fn other_bytes_spell_no_tuple_of_added_fields(rt: HostRuntime) -> Result<(), Fail> {
    let fields = [
        field(FieldKind::Int),
        added(FieldKind::Int),
        added(FieldKind::Text(2)),
    ];
    for (name, bytes) in &NO_ADDED {
        let found = decode(rt.alloc(), &fields, bytes)?.is_some();
        assert_same(&found, &false, *name)?;
    }
    Ok(())
}
