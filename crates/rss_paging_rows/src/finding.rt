// Pages that are found by their numbers and by their notes, and pages that are lent.
use crate::buffers::{
    FIRST_SAVE, OPENING, SLOTS, Undone, device_after, do_steps, empty, give, open, open_first,
    page_of, write,
};
use crate::harness::{home, key_of};
use rss_base::{Page, PageKey, Pages, Space};
use rss_buffer::Saving;
use rss_device::{MemDevice, MemPages};
use rss_images::assert_same;
use std::alloc::Global;
use std::test::Fail;

/// What is done to a page of segment 1.
#[derive(Clone, Copy, Debug)]
enum Act {
    Take,
    Write(u32),
    Give(u32),
    Note(u32, u16),
}

/// What is done, one after another, and the first page that has no note or one of at least 100
/// then.
const ACTS: [(Act, Option<u32>); 15] = [
    (Act::Take, Some(0)),
    (Act::Note(0, 99), None),
    (Act::Take, Some(1)),
    (Act::Note(1, 100), Some(1)),
    (Act::Note(0, 65_533), Some(0)),
    (Act::Note(0, 0), Some(1)),
    (Act::Note(1, 99), None),
    (Act::Write(0), Some(0)),
    (Act::Note(0, 7), None),
    (Act::Give(0), None),
    (Act::Take, Some(0)),
    (Act::Note(0, 1), None),
    (Act::Write(1), Some(1)),
    (Act::Give(1), None),
    (Act::Give(0), None),
];

/// The first mapped and the first unmapped page from a number on, of 128, of which pages 1, 2 and 4
/// are mapped.
const FIRSTS: [(u32, Option<u32>, Option<u32>); 8] = [
    (0, Some(1), Some(0)),
    (1, Some(1), Some(3)),
    (2, Some(2), Some(3)),
    (3, Some(4), Some(3)),
    (4, Some(4), Some(5)),
    (5, None, Some(5)),
    (127, None, Some(127)),
    (128, None, None),
];

/// Takes a page of segment 1, if one can be taken.
fn take<P: Pages>(pages: &mut P, space: Space) -> Result<u32, Undone> {
    if pages.spare() == 0 || space == Space::System {
        return Err(Undone::Refused("no page can be taken"));
    }
    Ok(pages.take(1, space)?)
}

/// Notes a number on a page, if it may be noted.
fn note<P: Pages>(pages: &mut P, key: PageKey, number: u16) -> Result<(), Undone> {
    let is_noted = key.space == Space::Home || key.space == Space::Overflow;
    if !pages.has(key) || !is_noted || number > 65_533 {
        return Err(Undone::Refused("no such note"));
    }
    pages.note(key, number);
    Ok(())
}

/// The first page from a number on that may do for so much.
fn first_noted<P: Pages>(
    pages: &P,
    space: Space,
    from: u32,
    least: u16,
) -> Result<Option<u32>, Undone> {
    if space != Space::Home && space != Space::Overflow {
        return Err(Undone::Refused("pages that are not noted"));
    }
    Ok(pages.first_noted(1, space, from, least))
}

/// Brings a page into memory, if it is mapped, and copies what is lent of it.
fn lent<P: Pages>(pages: &mut P, key: PageKey) -> Result<Page, Undone> {
    if !pages.has(key) {
        return Err(Undone::Refused("a page that isn't mapped"));
    }
    pages.load(key)?;
    Ok(*pages.loaded(key))
}

/// Does something to a page, if it may be done.
fn do_act<P: Pages>(pages: &mut P, space: Space, act: Act) -> Result<(), Undone> {
    match act {
        Act::Take => {
            take(pages, space)?;
            Ok(())
        }
        Act::Write(number) => write(pages, key_of(1, space, number), &page_of(number, 1)),
        Act::Give(number) => give(pages, key_of(1, space, number)),
        Act::Note(number, noted) => note(pages, key_of(1, space, number), noted),
    }
}

/// After each act the first page that may do is the one that is wanted.
fn assert_noted<P: Pages>(pages: &mut P, space: Space) -> Result<(), Fail> {
    for (act, want) in &ACTS {
        do_act(pages, space, *act)?;
        let found = first_noted(pages, space, 0, 100)?;
        assert_same(&found, want, (space, *act))?;
    }
    Ok(())
}

/// The same in both spaces that are noted.
fn assert_all_noted<P: Pages>(pages: &mut P) -> Result<(), Fail> {
    assert_noted(pages, Space::Home)?;
    assert_noted(pages, Space::Overflow)
}

/// Takes five pages, and gives the first and the fourth back.
fn take_some<P: Pages>(pages: &mut P) -> Result<(), Undone> {
    for _ in 0..5 {
        take(pages, Space::Image)?;
    }
    give(pages, key_of(1, Space::Image, 0))?;
    give(pages, key_of(1, Space::Image, 3))
}

/// Each number is answered that is wanted.
fn assert_firsts<P: Pages>(pages: &mut P) -> Result<(), Fail> {
    take_some(pages)?;
    for (from, mapped, unmapped) in &FIRSTS {
        let found = pages.first_mapped(1, Space::Image, *from);
        assert_same(&found, mapped, ("mapped from", *from))?;
        let found = pages.first_unmapped(1, Space::Image, *from);
        assert_same(&found, unmapped, ("unmapped from", *from))?;
    }
    Ok(())
}

/// Takes two pages, and notes 5 on the first and 6 on the second.
fn note_two<P: Pages>(pages: &mut P) -> Result<(), Undone> {
    take(pages, Space::Home)?;
    take(pages, Space::Home)?;
    note(pages, home(1, 0), 5)?;
    note(pages, home(1, 1), 6)
}

/// Notes them so, and saves the pages.
fn assert_saved_notes<S: Saving>(pages: &mut S) -> Result<(), Fail> {
    note_two(pages)?;
    do_steps(pages, &FIRST_SAVE)?;
    let found = first_noted(pages, Space::Home, 0, 6)?;
    assert_same(&found, &Some(1), "after a save")?;
    Ok(())
}

/// The device on which they are saved.
fn saved_device(alloc: Global) -> Result<MemDevice, Fail> {
    let mut pages = empty(alloc)?;
    let done = assert_saved_notes(&mut pages);
    device_after(pages, done)
}

/// The page is lent as it was written.
fn assert_lent<P: Pages>(pages: &mut P, number: u32, round: u8, when: &str) -> Result<(), Fail> {
    let page = lent(pages, home(1, number));
    assert_same(&page, &Ok(page_of(number, round)), when)?;
    Ok(())
}

/// A page is lent as it was saved and then as it is written; the device reads once.
fn assert_lent_twice<P: Pages>(pages: &mut P) -> Result<(), Fail> {
    assert_lent(pages, 0, 1, "as it was saved")?;
    assert_lent(pages, 0, 1, "again")?;
    write(pages, home(1, 0), &page_of(0, 2))?;
    assert_lent(pages, 0, 2, "as it is written")?;
    Ok(())
}

/// A page in memory is lent as it was written.
fn assert_lent_in_memory<P: Pages>(pages: &mut P) -> Result<(), Fail> {
    take(pages, Space::Home)?;
    write(pages, home(1, 0), &page_of(0, 1))?;
    assert_lent_twice(pages)
}

#[test]
fn the_first_page_that_may_do_is_found_by_the_notes(rt: HostRuntime) -> Result<(), Fail> {
    let mut on_device = empty(rt.alloc())?;
    assert_all_noted(&mut on_device)?;
    let mut in_memory = MemPages::new(rt.alloc(), SLOTS)?;
    assert_all_noted(&mut in_memory)?;
    Ok(())
}

#[test]
fn pages_are_found_by_their_numbers(rt: HostRuntime) -> Result<(), Fail> {
    let mut on_device = empty(rt.alloc())?;
    assert_firsts(&mut on_device)?;
    let mut in_memory = MemPages::new(rt.alloc(), SLOTS)?;
    assert_firsts(&mut in_memory)?;
    Ok(())
}

#[test]
fn a_note_outlives_a_save_and_no_opening(rt: HostRuntime) -> Result<(), Fail> {
    let pages = open(rt.alloc(), saved_device(rt.alloc())?)?;
    let found = first_noted(&pages, Space::Home, 0, 6)?;
    assert_same(&found, &Some(0), "after an opening")?;
    Ok(())
}

#[test]
fn a_page_is_lent_as_it_was_written_and_read_once(rt: HostRuntime) -> Result<(), Fail> {
    let mut on_device = open_first(rt.alloc(), OPENING + 1)?;
    assert_lent_twice(&mut on_device)?;
    let mut in_memory = MemPages::new(rt.alloc(), SLOTS)?;
    assert_lent_in_memory(&mut in_memory)?;
    Ok(())
}
