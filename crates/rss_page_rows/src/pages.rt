// Pages that are filled, emptied and filled again, against a plain list.
use crate::plain::{Held, Plain, assert_holds, byte_at, bytes_of, has_room};
use crate::slotted::{ENTRIES, Slotted};
use rss_images::{Draws, assert_same};
use std::test::Fail;

/// The bytes of the longest body.
type Buffer = [u8; 3056];

fn fill(buffer: &mut Buffer, first: u8) {
    for (place, byte) in buffer.iter_mut().enumerate() {
        *byte = byte_at(first, place);
    }
}

/// Puts a body into the page and into the list, exactly if it fits.
fn put(
    page: &mut Slotted,
    plain: &mut Plain,
    slot: u8,
    length: u16,
    first: u8,
) -> Result<(), Fail> {
    let mut buffer = [0u8; 3056];
    fill(&mut buffer, first);
    if slot >= ENTRIES || length == 0 || length > 3056 {
        return Ok(());
    }
    let fits = has_room(plain, slot, usize::from(length));
    assert_same(&page.fits(slot, length), &fits, (slot, length))?;
    let is_put = page.put(slot, &buffer[..usize::from(length)]);
    assert_same(&is_put, &fits, (slot, length, "put"))?;
    if fits {
        plain[usize::from(slot)] = Held::Here { length, first };
    }
    Ok(())
}

/// One change: a body at five of eight, otherwise a forward, an empty entry, or bodies moved
/// together.
fn step(
    draws: &mut Draws,
    page: &mut Slotted,
    plain: &mut Plain,
    longest: u16,
) -> Result<(), Fail> {
    let slot = draws.below(u32::from(ENTRIES)) as u8;
    let first = draws.below(256) as u8;
    let length = draws.below(u32::from(longest)) as u16;
    let kind = draws.below(8);
    if slot >= ENTRIES {
        return Ok(());
    }
    match kind {
        0 => {
            page.forward(slot, 4_000_000_000, first / 2);
            plain[usize::from(slot)] = Held::Forward {
                page: 4_000_000_000,
                slot: first / 2,
            };
        }
        1 => {
            page.remove(slot);
            plain[usize::from(slot)] = Held::Empty;
        }
        2 => page.compact(),
        _ => put(page, plain, slot, length, first)?,
    }
    Ok(())
}

#[test]
fn a_page_holds_what_a_plain_list_holds(rt: HostRuntime) -> Result<(), Fail> {
    let mut draws = Draws::new(2);
    for longest in [10, 60, 400, 3058] {
        let mut page = Slotted::new();
        let mut plain: Plain = [Held::Empty; ENTRIES as usize];
        assert_holds(&page, &plain, 0)?;
        for case in 0..250u32 {
            step(&mut draws, &mut page, &mut plain, longest)?;
            assert_holds(&page, &plain, case)?;
        }
    }
    Ok(())
}

/// By slot and length, whether a body fits where the longest one stands at slot 5.
const BESIDE_LONGEST: [(u8, u16, bool); 4] = [
    (6, 0, true),
    (6, 1, false),
    (5, 3056, true),
    (5, 3057, false),
];

#[test]
fn a_body_of_each_length_fits_alone(rt: HostRuntime) -> Result<(), Fail> {
    let mut page = Slotted::new();
    let mut plain: Plain = [Held::Empty; ENTRIES as usize];
    for length in 1..3057u16 {
        put(&mut page, &mut plain, 5, length, (length % 256) as u8)?;
        assert_same(&bytes_of(&plain), &u32::from(length), length)?;
    }
    assert_holds(&page, &plain, 3056)?;
    for (slot, length, want) in BESIDE_LONGEST {
        assert_same(&page.fits(slot, length), &want, (slot, length))?;
    }
    Ok(())
}

#[test]
fn holes_are_closed_where_a_body_needs_them(rt: HostRuntime) -> Result<(), Fail> {
    let mut page = Slotted::new();
    let mut plain: Plain = [Held::Empty; ENTRIES as usize];
    for slot in 0..ENTRIES {
        put(&mut page, &mut plain, slot, 23, slot)?;
    }
    assert_same(&bytes_of(&plain), &2944, 0)?;
    for slot in 0..ENTRIES {
        if slot % 2 == 0 {
            page.remove(slot);
            plain[usize::from(slot)] = Held::Empty;
        }
    }
    put(&mut page, &mut plain, 64, 1584, 200)?;
    assert_same(&bytes_of(&plain), &3056, 1)?;
    assert_holds(&page, &plain, 2)?;
    Ok(())
}
