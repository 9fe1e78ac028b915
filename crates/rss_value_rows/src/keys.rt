// Keys, by bytes written out and by the order of the values.
use crate::harness::{Written, added, field, key_of, tuple_of};
use rss_base::{FieldKind, Key};
use rss_images::{assert_same, assert_same_slices, assert_some};
use rss_value::compare_keys;
use std::alloc::Global;
use std::cmp::Ordering;
use std::test::Fail;

/// Numbers and the bytes of their keys.
const NUMBERS: [(i64, &[u8]); 6] = [
    (i64::MIN, b"\0\0\0\0\0\0\0\0"),
    (-1, b"\x7f\xff\xff\xff\xff\xff\xff\xff"),
    (0, b"\x80\0\0\0\0\0\0\0"),
    (7, b"\x80\0\0\0\0\0\0\x07"),
    (256, b"\x80\0\0\0\0\0\x01\0"),
    (i64::MAX, b"\xff\xff\xff\xff\xff\xff\xff\xff"),
];

#[test]
fn a_number_has_its_sign_inverted(rt: HostRuntime) -> Result<(), Fail> {
    for (number, want) in NUMBERS {
        let tuple = tuple_of(rt.alloc(), &[Written::Int(number)])?;
        let key = assert_some(key_of(&[field(FieldKind::Int)], &[1], &tuple), number)?;
        assert_same_slices(key.as_slice(), want, number)?;
    }
    Ok(())
}

/// Keys of a TEXT 4 "ab", an INT -2 and a TEXT 3 "xyz": the numbers of their fields, and their
/// bytes.
const KEYS: [(&[u8], &[u8]); 2] = [
    (&[3, 1], b"xyzab\0\0"),
    (&[2], b"\x7f\xff\xff\xff\xff\xff\xff\xfe"),
];

#[test]
fn a_key_has_the_fields_in_the_order_of_the_image(rt: HostRuntime) -> Result<(), Fail> {
    let fields = [
        field(FieldKind::Text(4)),
        field(FieldKind::Int),
        field(FieldKind::Text(3)),
    ];
    let values = [
        Written::Text(b"ab"),
        Written::Int(-2),
        Written::Text(b"xyz"),
    ];
    let tuple = tuple_of(rt.alloc(), &values)?;
    for (which, want) in &KEYS {
        let key = assert_some(key_of(&fields, which, &tuple), *which)?;
        assert_same_slices(key.as_slice(), want, *which)?;
    }
    Ok(())
}

/// Texts in the order of their bytes.
const TEXTS: [&[u8]; 8] = [
    b"",
    b" ",
    b"a",
    b"a ",
    b"ab",
    b"b",
    b"\xc3\xa9",
    b"\xf0\x9f\x98\x80",
];

/// The key of a number and a text, in this order of the two.
fn key_of_both(alloc: Global, which: &[u8], number: i64, text: &'static [u8]) -> Result<Key, Fail> {
    let fields = [field(FieldKind::Int), field(FieldKind::Text(4))];
    let tuple = tuple_of(alloc, &[Written::Int(number), Written::Text(text)])?;
    assert_some(key_of(&fields, which, &tuple), (which, number, text))
}

#[test]
fn keys_are_in_the_order_of_the_values(rt: HostRuntime) -> Result<(), Fail> {
    for (a, _) in NUMBERS {
        for (b, _) in NUMBERS {
            for (at, first) in TEXTS.iter().enumerate() {
                for (place, second) in TEXTS.iter().enumerate() {
                    let one = key_of_both(rt.alloc(), &[1, 2], a, first)?;
                    let other = key_of_both(rt.alloc(), &[1, 2], b, second)?;
                    let want = a.cmp(&b).then(at.cmp(&place));
                    assert_same(&compare_keys(&one, &other), &want, (a, b, at, place))?;
                }
            }
        }
    }
    Ok(())
}

#[test]
fn texts_before_numbers(rt: HostRuntime) -> Result<(), Fail> {
    let one = key_of_both(rt.alloc(), &[2, 1], 7, b"a")?;
    let other = key_of_both(rt.alloc(), &[2, 1], -1, b"ab")?;
    assert_same(&compare_keys(&one, &other), &Ordering::Less, "a and ab")?;
    Ok(())
}

/// Values of an added INT in their order, and the bytes of their keys.
const ADDED_NUMBERS: [(Written, &[u8]); 5] = [
    (Written::Undefined, b"\0\0\0\0\0\0\0\0\0"),
    (Written::Int(i64::MIN), b"\x01\0\0\0\0\0\0\0\0"),
    (Written::Int(-5), b"\x01\x7f\xff\xff\xff\xff\xff\xff\xfb"),
    (Written::Int(0), b"\x01\x80\0\0\0\0\0\0\0"),
    (
        Written::Int(i64::MAX),
        b"\x01\xff\xff\xff\xff\xff\xff\xff\xff",
    ),
];

/// Values of an added TEXT 2 in their order, and the bytes of their keys.
const ADDED_TEXTS: [(Written, &[u8]); 4] = [
    (Written::Undefined, b"\0\0\0"),
    (Written::Text(b""), b"\x01\0\0"),
    (Written::Text(b"a"), b"\x01a\0"),
    (Written::Text(b"ab"), b"\x01ab"),
];

/// The key of an added number and an added text, in this order of the two.
fn key_of_added(alloc: Global, which: &[u8], values: &[Written; 2]) -> Result<Key, Fail> {
    let fields = [added(FieldKind::Int), added(FieldKind::Text(2))];
    let tuple = tuple_of(alloc, values)?;
    assert_some(key_of(&fields, which, &tuple), (which, values))
}

#[test]
fn a_part_of_an_added_field_has_a_byte_before_it(rt: HostRuntime) -> Result<(), Fail> {
    for (number, want) in &ADDED_NUMBERS {
        let key = key_of_added(rt.alloc(), &[1], &[*number, Written::Undefined])?;
        assert_same_slices(key.as_slice(), want, number)?;
    }
    for (text, want) in &ADDED_TEXTS {
        let key = key_of_added(rt.alloc(), &[2], &[Written::Undefined, *text])?;
        assert_same_slices(key.as_slice(), want, text)?;
    }
    Ok(())
}

#[test]
fn what_is_undefined_comes_first(rt: HostRuntime) -> Result<(), Fail> {
    for (a, (one, _)) in ADDED_NUMBERS.iter().enumerate() {
        for (b, (other, _)) in ADDED_NUMBERS.iter().enumerate() {
            for (at, (first, _)) in ADDED_TEXTS.iter().enumerate() {
                for (place, (second, _)) in ADDED_TEXTS.iter().enumerate() {
                    let left = key_of_added(rt.alloc(), &[1, 2], &[*one, *first])?;
                    let right = key_of_added(rt.alloc(), &[1, 2], &[*other, *second])?;
                    let want = a.cmp(&b).then(at.cmp(&place));
                    assert_same(&compare_keys(&left, &right), &want, (a, b, at, place))?;
                }
            }
        }
    }
    Ok(())
}
