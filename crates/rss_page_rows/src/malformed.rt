// Pages that are not as they should be, each of one kind.
use rss_base::{PAGE_BYTES, Page, PageKey, Space};
use rss_images::assert_same;
use rss_page::survey;
use std::test::Fail;

const HOME: PageKey = PageKey {
    segment: 1,
    space: Space::Home,
    number: 5,
};

const OVERFLOW: PageKey = PageKey {
    segment: 1,
    space: Space::Overflow,
    number: 5,
};

const IMAGE: PageKey = PageKey {
    segment: 1,
    space: Space::Image,
    number: 5,
};

/// A home page: a body of 9 bytes at slot 0, one of 3,047 bytes at slot 1, and a forward at slot
/// 127.
fn sound() -> Page {
    let mut page = [0u8; PAGE_BYTES];
    page[..8].copy_from_slice(&[1, 1, 0, 0, 0, 0, 0, 5]);
    page[16..24].copy_from_slice(&[1, 0, 0x04, 0x10, 0, 9, 0, 0]);
    page[24..32].copy_from_slice(&[1, 0, 0x04, 0x19, 0x0b, 0xe7, 0, 0]);
    page[1032..1040].copy_from_slice(&[2, 127, 0, 0, 0xff, 0xff, 0xff, 0xff]);
    page[2000] = 77;
    page
}

/// Puts these bytes in the place of others.
fn patch(page: &mut Page, at: usize, bytes: &[u8]) -> Result<(), Fail> {
    for (place, byte) in bytes.iter().enumerate() {
        let there = page.get_mut(at.wrapping_add(place)).ok_or("no such byte")?;
        *there = *byte;
    }
    Ok(())
}

/// The entry of a body with this place and this length.
fn entry_of(body: [u16; 2]) -> [u8; 8] {
    let [place, length] = body;
    let [a, b] = place.to_be_bytes();
    let [c, d] = length.to_be_bytes();
    [1, 0, a, b, c, d, 0, 0]
}

/// Bytes that are put in the place of others, and whether the page is well-formed then.
const CASES: [(usize, [u8; 4], bool); 23] = [
    // As it was, and with other bytes in a body.
    (2, [0, 0, 0, 0], true),
    (3000, [1, 2, 3, 4], true),
    // The header: another space, segment or number, and bytes that are no zeros.
    (0, [2, 1, 0, 0], false),
    (0, [0, 1, 0, 0], false),
    (0, [1, 2, 0, 0], false),
    (4, [0, 0, 0, 6], false),
    (0, [1, 1, 1, 0], false),
    (8, [1, 0, 0, 0], false),
    (12, [0, 0, 0, 1], false),
    // An entry of a third kind, and an empty one that is no zeros.
    (32, [3, 0, 0, 0], false),
    (32, [0, 1, 0, 0], false),
    (36, [0, 0, 0, 1], false),
    // A body whose entry has other bytes than zeros, one in front of the bodies, and one behind the
    // page's end.
    (16, [1, 1, 0x04, 0x10], false),
    (20, [0, 9, 0, 1], false),
    (16, [1, 0, 0x04, 0x0f], false),
    (28, [0x0b, 0xe8, 0, 0], false),
    // A body of no bytes, and one that has a byte of another.
    (20, [0, 0, 0, 0], false),
    (20, [0, 10, 0, 0], false),
    (20, [0, 8, 0, 0], true),
    // A forward to slot 128, one to slot 0, and one whose entry has other bytes than zeros.
    (1032, [2, 128, 0, 0], false),
    (1032, [2, 0, 0, 0], true),
    (1032, [2, 127, 1, 0], false),
    (1032, [2, 127, 0, 1], false),
];

#[test]
fn each_kind_of_malformed_page_is_told(rt: HostRuntime) -> Result<(), Fail> {
    for (at, bytes, want) in CASES {
        let mut page = sound();
        patch(&mut page, at, &bytes)?;
        assert_same(&survey(&page, HOME).is_some(), &want, (at, bytes))?;
    }
    Ok(())
}

/// Bytes that are put in the place of others, and whether the page is well-formed under a key then.
struct Row {
    name: &'static str,
    at: usize,
    bytes: &'static [u8],
    key: PageKey,
    want: bool,
}

/// Of two bodies one begins in the midst of the other.
const BODIES: [Row; 2] = [
    Row {
        name: "two bodies",
        at: 32,
        bytes: &[1, 0, 8, 0, 0, 5, 0, 0],
        key: HOME,
        want: false,
    },
    Row {
        name: "one of them",
        at: 24,
        bytes: &[0; 8],
        key: HOME,
        want: true,
    },
];

/// The page is that of another space.
const SPACES: [Row; 4] = [
    Row {
        name: "an overflow page with a forward",
        at: 0,
        bytes: &[2],
        key: OVERFLOW,
        want: false,
    },
    Row {
        name: "an overflow page with no forward",
        at: 1032,
        bytes: &[0; 8],
        key: OVERFLOW,
        want: true,
    },
    Row {
        name: "an overflow page as a home page",
        at: 0,
        bytes: &[2],
        key: HOME,
        want: false,
    },
    Row {
        name: "an image page",
        at: 0,
        bytes: &[3],
        key: IMAGE,
        want: false,
    },
];

/// Does so to a sound page, one after another.
fn assert_patched(patches: &[Row]) -> Result<(), Fail> {
    let mut page = sound();
    for row in patches {
        patch(&mut page, row.at, row.bytes)?;
        assert_same(&survey(&page, row.key).is_some(), &row.want, row.name)?;
    }
    Ok(())
}

/// Two bodies, each with its place and its length, that of the lesser slot after the other, and
/// whether they are apart: within one word of 64 bytes, at its ends, and over many.
const PAIRS: [([u16; 2], [u16; 2], bool); 9] = [
    ([1100, 9], [1091, 9], true),
    ([1100, 9], [1091, 10], false),
    ([1088, 64], [1040, 48], true),
    ([1088, 64], [1040, 49], false),
    ([1151, 2], [1087, 64], true),
    ([1151, 2], [1087, 65], false),
    ([4095, 1], [1040, 3055], true),
    ([4095, 1], [1040, 3056], false),
    ([2000, 5], [1040, 3056], false),
];

#[test]
fn bodies_in_another_order_than_their_slots_are_told_apart(rt: HostRuntime) -> Result<(), Fail> {
    for (first, second, want) in PAIRS {
        let mut page = sound();
        patch(&mut page, 16, &entry_of(first))?;
        patch(&mut page, 24, &entry_of(second))?;
        assert_same(&survey(&page, HOME).is_some(), &want, (first, second))?;
    }
    Ok(())
}

#[test]
fn a_body_in_the_midst_of_another_is_told() -> Result<(), Fail> {
    assert_patched(&BODIES)
}

#[test]
fn an_overflow_page_has_no_forward() -> Result<(), Fail> {
    assert_patched(&SPACES)
}
