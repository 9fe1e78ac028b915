// What a page holds, as a plain list.
use crate::slotted::{ENTRIES, KEY, Slotted};
use rss_images::assert_same;
use rss_page::{Entry, survey};
use std::test::Fail;

/// What an entry holds. The bytes of a body count up from the first one.
#[derive(Clone, Copy, Debug, PartialEq)]
pub(crate) enum Held {
    Empty,
    Here { length: u16, first: u8 },
    Forward { page: u32, slot: u8 },
}

pub(crate) type Plain = [Held; ENTRIES as usize];

/// The byte at a place of a body.
pub(crate) fn byte_at(first: u8, place: usize) -> u8 {
    first.wrapping_add((place % 256) as u8)
}

fn is_body(bytes: &[u8], length: u16, first: u8) -> bool {
    for (place, byte) in bytes.iter().enumerate() {
        if *byte != byte_at(first, place) {
            return false;
        }
    }
    bytes.len() == usize::from(length)
}

fn holds(page: &Slotted, slot: u8, held: Held) -> bool {
    if slot >= ENTRIES {
        return false;
    }
    match held {
        Held::Empty => page.entry(slot) == Entry::Empty && page.body(slot).is_none(),
        Held::Forward {
            page: to_page,
            slot: to_slot,
        } => {
            let forward = Entry::Forward {
                page: to_page,
                slot: to_slot,
            };
            page.entry(slot) == forward && page.body(slot).is_none()
        }
        Held::Here { length, first } => match page.body(slot) {
            None => false,
            Some(bytes) => is_body(bytes, length, first),
        },
    }
}

fn length_of(held: Held) -> u32 {
    match held {
        Held::Here { length, .. } => u32::from(length),
        Held::Empty | Held::Forward { .. } => 0,
    }
}

/// How many bytes all bodies have.
pub(crate) fn bytes_of(plain: &Plain) -> u32 {
    let mut bytes = 0u32;
    for held in plain {
        bytes = bytes.saturating_add(length_of(*held));
    }
    bytes
}

fn first_empty(plain: &Plain) -> Option<u8> {
    for slot in 0..ENTRIES {
        if plain[usize::from(slot)] == Held::Empty {
            return Some(slot);
        }
    }
    None
}

fn is_vacant(plain: &Plain) -> bool {
    plain.iter().all(|held| *held == Held::Empty)
}

/// The page holds this, is well-formed, and tells how much room it has.
pub(crate) fn assert_holds(page: &Slotted, plain: &Plain, case: u32) -> Result<(), Fail> {
    for slot in 0..ENTRIES {
        let held = plain[usize::from(slot)];
        assert_same(&holds(page, slot, held), &true, (case, slot))?;
    }
    let found = page.survey();
    assert_same(&survey(page.page(), KEY), &Some(found), case)?;
    let free = 3056u32.saturating_sub(bytes_of(plain));
    assert_same(&u32::from(found.free), &free, case)?;
    assert_same(&found.first_empty, &first_empty(plain), case)?;
    assert_same(&found.is_vacant, &is_vacant(plain), case)?;
    Ok(())
}

/// Whether a body of this length fits at a slot beside the others.
pub(crate) fn has_room(plain: &Plain, slot: u8, length: usize) -> bool {
    let mut others = *plain;
    if slot >= ENTRIES {
        return false;
    }
    others[usize::from(slot)] = Held::Empty;
    (bytes_of(&others) as usize).saturating_add(length) <= 3056
}
