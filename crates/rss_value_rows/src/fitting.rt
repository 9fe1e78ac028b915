// Which tuples fit, by values written out.
use crate::harness::{Written, added, field, tuple_of};
use rss_base::{FieldDef, FieldKind};
use rss_images::assert_same;
use rss_value::fits;
use std::alloc::Global;
use std::test::Fail;

fn assert_fits(
    alloc: Global,
    fields: &[FieldDef],
    values: &[Written],
    want: Result<(), u8>,
) -> Result<(), Fail> {
    let tuple = tuple_of(alloc, values)?;
    if fields.len() > 16 {
        Err("too many fields")?;
    }
    assert_same(&fits(fields, &tuple), &want, (fields.len(), values))?;
    Ok(())
}

/// Texts of a TEXT 4 field, and what `fits` says.
const TEXTS: [(&[u8], Result<(), u8>); 14] = [
    (b"", Ok(())),
    (b"a", Ok(())),
    (b"say\"", Ok(())),
    (b"\xc3\xa9", Ok(())),
    (b"\xe2\x82\xac", Ok(())),
    (b"\xf0\x9f\x98\x80", Ok(())),
    (b"\xc2\x80", Ok(())),
    (b"abcd", Ok(())),
    (b"abcde", Err(1)),
    (b"\xe2\x82", Err(1)),
    (b"\x1f", Err(1)),
    (b"\x7f", Err(1)),
    (b"a\x7fb", Err(1)),
    (b"\xff", Err(1)),
];

#[test]
fn a_text_fits_by_its_bytes_and_characters(rt: HostRuntime) -> Result<(), Fail> {
    for (text, want) in TEXTS {
        assert_fits(
            rt.alloc(),
            &[field(FieldKind::Text(4))],
            &[Written::Text(text)],
            want,
        )?;
    }
    Ok(())
}

const INT: Written = Written::Int(-1);

const TEXT: Written = Written::Text(b"ab");

const LONG: Written = Written::Text(b"abc");

/// How many of the fields INT, TEXT 2 and INT a relation has, values of a tuple, and what `fits`
/// says.
const MISFITS: [(usize, &[Written], Result<(), u8>); 10] = [
    (3, &[INT, TEXT, INT], Ok(())),
    (3, &[TEXT, TEXT, INT], Err(1)),
    (3, &[INT, INT, INT], Err(2)),
    (3, &[INT, LONG, TEXT], Err(2)),
    (3, &[INT, TEXT, TEXT], Err(3)),
    (3, &[INT, TEXT], Err(3)),
    (3, &[], Err(1)),
    (3, &[INT, TEXT, INT, INT], Err(4)),
    (0, &[], Ok(())),
    (0, &[INT], Err(1)),
];

#[test]
fn the_first_misfit_is_named(rt: HostRuntime) -> Result<(), Fail> {
    let fields = [
        field(FieldKind::Int),
        field(FieldKind::Text(2)),
        field(FieldKind::Int),
    ];
    for (count, values, want) in &MISFITS {
        let fields = fields.get(..*count).ok_or("too many fields")?;
        assert_fits(rt.alloc(), fields, values, *want)?;
    }
    Ok(())
}

const NONE: Written = Written::Undefined;

/// Values of an INT and an added TEXT 2, and what `fits` says.
const UNDEFINED: [(&[Written], Result<(), u8>); 8] = [
    (&[INT, NONE], Ok(())),
    (&[INT, TEXT], Ok(())),
    (&[NONE, TEXT], Err(1)),
    (&[NONE, NONE], Err(1)),
    (&[INT, INT], Err(2)),
    (&[INT, LONG], Err(2)),
    (&[INT], Err(2)),
    (&[INT, NONE, NONE], Err(3)),
];

#[test]
fn only_an_added_field_may_be_undefined(rt: HostRuntime) -> Result<(), Fail> {
    let fields = [field(FieldKind::Int), added(FieldKind::Text(2))];
    for (values, want) in &UNDEFINED {
        assert_fits(rt.alloc(), &fields, values, *want)?;
    }
    Ok(())
}
