// The current map and the shadow map, as they run.
use crate::harness::{
    Counts, Firsts, Maps, home, key_of, load_table, no_pages, put_entry, shadow_of, small_store,
};
use rss_base::{Device, Page, Space};
use rss_device::MemDevice;
use rss_images::{assert_other, assert_same};
use rss_shadow::Shadow;
use std::alloc::Global;
use std::test::Fail;

/// How many slots the largest maps have, and how many pages are taken there.
const MOST: u32 = 65_536;

const MANY: u32 = 30_000;

const NONE_TAKEN: Counts = Counts {
    spare: 65_536,
    mapped: 0,
    heap: 0,
};

const MANY_TAKEN: Counts = Counts {
    spare: 35_536,
    mapped: 30_000,
    heap: 30_000,
};

/// The shadow map has them too.
const MANY_SAVED: Counts = Counts {
    spare: 5536,
    mapped: 30_000,
    heap: 30_000,
};

/// Pages of 64 slots: home page 0 of segment 1, a system page, an image page and an overflow page.
const FOUR_PAGES: [(usize, [u8; 8]); 4] = [
    (0, [1, 1, 0, 0, 0, 0, 0, 0]),
    (5, [4, 0, 0, 0, 0, 0, 0, 9]),
    (6, [3, 8, 0, 0, 0, 0, 0, 63]),
    (63, [2, 2, 0, 0, 0, 0, 0, 7]),
];

const FOUR_SAVED: Counts = Counts {
    spare: 56,
    mapped: 4,
    heap: 2,
};

/// Pages by segment, space and number, and the slots that those of the four have.
const SLOTS_OF_FOUR: [(u8, Space, u32, Option<u32>); 7] = [
    (1, Space::Home, 0, Some(0)),
    (0, Space::System, 9, Some(5)),
    (8, Space::Image, 63, Some(6)),
    (2, Space::Overflow, 7, Some(63)),
    // Pages that aren't mapped, and one that can't be.
    (1, Space::Home, 1, None),
    (2, Space::Home, 7, None),
    (1, Space::Home, 64, None),
];

/// By segment, space and number: the first page from there on that is mapped of the four, and the
/// first that isn't.
const FIRSTS_OF_FOUR: [(u8, Space, u32, Option<u32>, Option<u32>); 8] = [
    (1, Space::Home, 0, Some(0), Some(1)),
    (1, Space::Home, 1, None, Some(1)),
    (1, Space::Overflow, 0, None, Some(0)),
    (2, Space::Overflow, 0, Some(7), Some(0)),
    (2, Space::Overflow, 7, Some(7), Some(8)),
    (8, Space::Image, 0, Some(63), Some(0)),
    (8, Space::Image, 63, Some(63), None),
    (8, Space::Image, 64, None, None),
];

/// The same of 30,000 home pages of one segment.
const FIRSTS_OF_MANY: [(u8, Space, u32, Option<u32>, Option<u32>); 5] = [
    (1, Space::Home, 0, Some(0), Some(30_000)),
    (1, Space::Home, 29_999, Some(29_999), Some(30_000)),
    (1, Space::Home, 30_000, None, Some(30_000)),
    (1, Space::Home, 65_535, None, Some(65_535)),
    (2, Space::Home, 0, None, Some(0)),
];

/// Pages that are taken one after another, as home pages of segment 1 have holes: their segments,
/// their spaces, and the numbers that they get.
const IN_HOLES: [(u8, Space, u32); 5] = [
    (1, Space::Home, 0),
    (1, Space::Home, 64),
    (1, Space::Home, 127),
    (1, Space::Home, 130),
    (1, Space::Home, 132),
];

/// The same of another segment, and of another space.
const ELSEWHERE: [(u8, Space, u32); 3] = [
    (8, Space::Home, 0),
    (1, Space::Image, 0),
    (1, Space::Image, 1),
];

/// Takes home pages of segment 1. Answers the first turn whose number isn't its own.
fn take_pages<M: Maps>(maps: &mut M, pages: u32) -> Result<Option<u32>, Fail> {
    for turn in 0..pages {
        if maps.try_take(1, Space::Home)? != turn {
            return Ok(Some(turn));
        }
    }
    Ok(None)
}

/// Takes home pages of segment 2.
fn take_others<M: Maps>(maps: &mut M, pages: u32) -> Result<(), Fail> {
    for _ in 0..pages {
        maps.try_take(2, Space::Home)?;
    }
    Ok(())
}

/// Gives the first home pages of a segment back.
fn give_pages<M: Maps>(maps: &mut M, segment: u8, pages: u32) -> Result<(), Fail> {
    for number in 0..pages {
        maps.try_give(home(segment, number))?;
    }
    Ok(())
}

/// Marks a slot, and answers whether it was there and not marked.
fn mark(marked: &mut [bool], slot: u32) -> bool {
    match marked.get_mut(slot as usize) {
        None => false,
        Some(it) => {
            let was = *it;
            *it = true;
            !was
        }
    }
}

/// Marks the slots that the home pages of segment 1 have, each its own.
fn mark_slots<M: Maps>(maps: &M, marked: &mut [bool]) -> Result<(), Fail> {
    for number in 0..MANY {
        let slot = maps.slot_of(home(1, number)).ok_or("no slot")?;
        if !mark(marked, slot) {
            return Err("two pages have one slot".into());
        }
    }
    Ok(())
}

/// Moves each of these pages to the slot to which it is to be written, and marks that. Answers the
/// first page whose slot was marked before, or isn't the one that the page has then.
fn write_pages<M: Maps>(maps: &mut M, marked: &mut [bool]) -> Result<Option<u32>, Fail> {
    for number in 0..MANY {
        let slot = maps.try_first_write(home(1, number))?;
        if !mark(marked, slot) || maps.slot_of(home(1, number)) != Some(slot) {
            return Ok(Some(number));
        }
    }
    Ok(None)
}

/// The same, after the slots that the pages have were marked.
fn mark_and_write<M: Maps>(maps: &mut M, marked: &mut [bool]) -> Result<Option<u32>, Fail> {
    mark_slots(maps, marked)?;
    write_pages(maps, marked)
}

fn first_in_saved_slot<M: Maps>(alloc: Global, maps: &mut M) -> Result<Option<u32>, Fail> {
    let mut marked = vec![in alloc; false; MOST as usize]?;
    mark_and_write(maps, marked.as_mut_slice())
}

/// Takes and saves one page of maps that have none, and answers its slot.
fn save_one_page<M: Maps>(maps: &mut M) -> Result<u32, Fail> {
    let number = maps.try_take(1, Space::Home)?;
    let slot = maps.slot_of(home(1, number)).ok_or("no slot")?;
    maps.try_adopt()?;
    Ok(slot)
}

/// Takes home pages of segment 2 until none can be taken, and answers whether this slot has a page
/// then. Gives them back.
fn fills<M: Maps>(maps: &mut M, slot: u32) -> Result<bool, Fail> {
    let pages = maps.counts().spare;
    take_others(maps, pages)?;
    let owned = maps.is_owned(slot)?;
    give_pages(maps, 2, pages)?;
    Ok(owned)
}

/// Takes home pages of segment 1: those below 130 but for three, and 131.
fn take_with_holes<M: Maps>(maps: &mut M) -> Result<(), Fail> {
    take_pages(maps, 130)?;
    for number in [127, 0, 64] {
        maps.try_give(home(1, number))?;
    }
    maps.try_take_at(home(1, 131))
}

/// Puts the entries of the four pages into the first page of the map.
fn put_four_pages(pages: &mut [Page]) -> Result<(), Fail> {
    for (slot, entry) in &FOUR_PAGES {
        put_entry(pages, 3, *slot, *entry)?;
    }
    Ok(())
}

/// The maps of the store on a device.
fn maps_on<D: Device>(alloc: Global, device: &mut D) -> Result<Shadow, Fail> {
    shadow_of(alloc, load_table(alloc, device)?)
}

/// The maps of a store of 64 slots with four pages.
fn four_pages(alloc: Global) -> Result<Shadow, Fail> {
    let mut pages = small_store(alloc)?;
    put_four_pages(pages.as_mut_slice())?;
    let mut device = MemDevice::new(alloc, pages)?;
    maps_on(alloc, &mut device)
}

fn assert_four_pages<M: Maps>(maps: &M) -> Result<(), Fail> {
    assert_same(&maps.counts(), &FOUR_SAVED, "the counts")?;
    for (segment, space, number, want) in &SLOTS_OF_FOUR {
        let key = key_of(*segment, *space, *number);
        assert_same(&maps.slot_of(key), want, key)?;
    }
    Ok(())
}

fn assert_firsts<M: Maps>(
    maps: &M,
    rows: &[(u8, Space, u32, Option<u32>, Option<u32>)],
) -> Result<(), Fail> {
    for (segment, space, from, mapped, unmapped) in rows {
        let want = Firsts {
            mapped: *mapped,
            unmapped: *unmapped,
        };
        let found = maps.try_firsts(*segment, *space, *from)?;
        assert_same(&found, &want, (*segment, *space, *from))?;
    }
    Ok(())
}

/// Takes many pages of maps that have none.
fn assert_many_taken<M: Maps>(maps: &mut M) -> Result<(), Fail> {
    assert_same(&take_pages(maps, MANY)?, &None, "a turn")?;
    assert_same(&maps.counts(), &MANY_TAKEN, "taken")?;
    Ok(())
}

fn assert_taken_again<M: Maps>(maps: &mut M) -> Result<(), Fail> {
    assert_same(&maps.counts(), &NONE_TAKEN, "as they were made")?;
    assert_many_taken(maps)?;
    give_pages(maps, 1, MANY)?;
    assert_same(&maps.counts(), &NONE_TAKEN, "given back")?;
    assert_many_taken(maps)
}

/// Writes each of many pages once, after they were saved.
fn assert_first_writes<M: Maps>(alloc: Global, maps: &mut M, round: &str) -> Result<(), Fail> {
    assert_same(&maps.counts(), &MANY_SAVED, round)?;
    assert_same(&first_in_saved_slot(alloc, maps)?, &None, round)?;
    assert_same(&maps.counts(), &MANY_SAVED, (round, "written"))?;
    Ok(())
}

fn assert_many_written<M: Maps>(alloc: Global, maps: &mut M) -> Result<(), Fail> {
    assert_many_taken(maps)?;
    // The second time around, the slots of the first are free again.
    for round in ["the first save", "the second save", "the third save"] {
        maps.try_adopt()?;
        assert_first_writes(alloc, maps, round)?;
    }
    Ok(())
}

/// Takes these pages, each with the least number that its segment and its space have free.
fn assert_taken<M: Maps>(maps: &mut M, rows: &[(u8, Space, u32)]) -> Result<(), Fail> {
    take_with_holes(maps)?;
    for (segment, space, want) in rows {
        let number = maps.try_take(*segment, *space)?;
        assert_same(&number, want, (*segment, *space, *want))?;
    }
    Ok(())
}

fn assert_write_leaves<M: Maps>(maps: &mut M) -> Result<(), Fail> {
    let saved = save_one_page(maps)?;
    assert_other(&maps.try_first_write(home(1, 0))?, &saved, "the slot")?;
    assert_same(&fills(maps, saved)?, &false, "the shadow map uses it")?;
    maps.try_adopt()?;
    // The page moves once more, so that the two maps together need all slots.
    maps.try_first_write(home(1, 0))?;
    assert_same(&fills(maps, saved)?, &true, "it is free again")?;
    Ok(())
}

fn assert_giving_leaves<M: Maps>(maps: &mut M) -> Result<(), Fail> {
    let saved = save_one_page(maps)?;
    maps.try_give(home(1, 0))?;
    assert_same(&fills(maps, saved)?, &false, "the shadow map uses it")?;
    maps.try_adopt()?;
    assert_same(&fills(maps, saved)?, &true, "it is free again")?;
    Ok(())
}

/// A page that was saved moves once.
fn assert_moves_once<M: Maps>(maps: &mut M) -> Result<(), Fail> {
    let moved = maps.try_first_write(home(1, 0))?;
    assert_same(&maps.try_first_write(home(1, 0))?, &moved, "once more")?;
    Ok(())
}

/// A new page stays until it is saved. Its slot isn't this one.
fn assert_new_page_stays<M: Maps>(maps: &mut M, saved: u32) -> Result<(), Fail> {
    assert_same(&maps.try_take(1, Space::Home)?, &1, "the new page's number")?;
    let new = maps.slot_of(home(1, 1)).ok_or("no slot")?;
    assert_other(&new, &saved, "the new page's slot")?;
    assert_same(&maps.try_first_write(home(1, 1))?, &new, "a new page")?;
    maps.try_adopt()?;
    assert_other(
        &maps.try_first_write(home(1, 1))?,
        &new,
        "a page that was saved",
    )?;
    Ok(())
}

fn assert_moves_and_stays<M: Maps>(maps: &mut M) -> Result<(), Fail> {
    let saved = save_one_page(maps)?;
    assert_moves_once(maps)?;
    assert_new_page_stays(maps, saved)
}

#[test]
fn the_maps_of_a_table_have_its_pages(rt: HostRuntime) -> Result<(), Fail> {
    let maps = four_pages(rt.alloc())?;
    assert_four_pages(&maps)?;
    Ok(())
}

#[test]
fn the_first_page_of_either_kind_is_found_from_each_number_on(rt: HostRuntime) -> Result<(), Fail> {
    assert_firsts(&four_pages(rt.alloc())?, &FIRSTS_OF_FOUR)?;
    let mut maps = no_pages(rt.alloc(), MOST)?;
    assert_many_taken(&mut maps)?;
    assert_firsts(&maps, &FIRSTS_OF_MANY)
}

#[test]
fn thirty_thousand_pages_are_taken_given_and_taken_again(rt: HostRuntime) -> Result<(), Fail> {
    let mut maps = no_pages(rt.alloc(), MOST)?;
    assert_taken_again(&mut maps)
}

#[test]
fn a_first_write_of_each_page_finds_a_slot_that_no_map_uses(rt: HostRuntime) -> Result<(), Fail> {
    let mut maps = no_pages(rt.alloc(), MOST)?;
    assert_many_written(rt.alloc(), &mut maps)
}

#[test]
fn take_finds_the_least_number(rt: HostRuntime) -> Result<(), Fail> {
    let mut maps = no_pages(rt.alloc(), 256)?;
    assert_taken(&mut maps, &IN_HOLES)
}

#[test]
fn each_segment_and_each_space_has_numbers_of_its_own(rt: HostRuntime) -> Result<(), Fail> {
    let mut maps = no_pages(rt.alloc(), 256)?;
    assert_taken(&mut maps, &ELSEWHERE)
}

#[test]
fn a_first_write_leaves_the_saved_slot(rt: HostRuntime) -> Result<(), Fail> {
    let mut maps = no_pages(rt.alloc(), 64)?;
    assert_write_leaves(&mut maps)
}

#[test]
fn a_page_given_back_leaves_the_saved_slot(rt: HostRuntime) -> Result<(), Fail> {
    let mut maps = no_pages(rt.alloc(), 64)?;
    assert_giving_leaves(&mut maps)
}

#[test]
fn first_write_of_a_new_page_stays(rt: HostRuntime) -> Result<(), Fail> {
    let mut maps = no_pages(rt.alloc(), 64)?;
    assert_moves_and_stays(&mut maps)
}
