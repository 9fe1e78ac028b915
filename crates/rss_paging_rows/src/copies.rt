// Bytes that are copied from one page into another.
use crate::buffers::{Undone, empty, read, write};
use rss_base::{PAGE_BYTES, Page, PageKey, Pages, Space};
use rss_device::MemPages;
use rss_images::{Draws, assert_same};
use std::fmt::Debug;
use std::test::Fail;

/// How many pages there are, in eight frames.
const PAGES: u32 = 12;

/// How many random copies are made.
const COPIES: usize = 300;

/// So many bytes from a place of one page to a place of another one, by their numbers.
#[derive(Clone, Copy, Debug)]
struct Copying {
    from: u32,
    from_at: usize,
    to: u32,
    to_at: usize,
    count: usize,
}

/// Copies at the ends of pages: of all bytes, of none and of one; of pages that have left memory, and
/// of ones that are there. Each row has a page and a place there, another page and a place there, and
/// how many bytes.
const ENDS: [(u32, usize, u32, usize, usize); 8] = [
    (0, 0, 1, 0, 4096),
    (2, 0, 3, 0, 0),
    (4, 4096, 5, 4096, 0),
    (11, 4095, 0, 0, 1),
    (0, 0, 11, 4095, 1),
    (6, 1, 7, 0, 4095),
    (7, 0, 6, 1, 4095),
    (8, 100, 9, 300, 1_000),
];

/// The bytes that each page has.
type Plain = [Page; 12];

/// A random copy, of two pages that differ.
fn draw(draws: &mut Draws) -> Copying {
    let count = draws.below(PAGE_BYTES as u32 + 1) as usize;
    let from = draws.below(PAGES);
    let further = 1 + draws.below(PAGES - 1);
    Copying {
        from,
        from_at: draws.below((PAGE_BYTES - count) as u32 + 1) as usize,
        to: (from + further) % PAGES,
        to_at: draws.below((PAGE_BYTES - count) as u32 + 1) as usize,
        count,
    }
}

fn key_of(number: u32) -> PageKey {
    PageKey {
        segment: 1,
        space: Space::Home,
        number,
    }
}

/// Takes a page, and fills it with bytes that no other one has.
fn take<P: Pages>(pages: &mut P, number: u32) -> Result<Page, Undone> {
    if pages.spare() == 0 {
        return Err(Undone::Refused("no page can be taken"));
    }
    let taken = pages.take(1, Space::Home)?;
    if taken != number {
        return Err(Undone::Refused("another page was taken"));
    }
    let mut page = [0; PAGE_BYTES];
    for at in 0..PAGE_BYTES {
        page[at] = ((at + number as usize) % 251) as u8;
    }
    write(pages, key_of(number), &page)?;
    Ok(page)
}

fn take_all<P: Pages>(pages: &mut P) -> Result<Plain, Undone> {
    let mut plain = [[0; PAGE_BYTES]; 12];
    for number in 0..PAGES {
        plain[number as usize] = take(pages, number)?;
    }
    Ok(plain)
}

/// Copies, if both pages are mapped and differ, and both ranges are within them.
fn copy<P: Pages>(pages: &mut P, it: Copying) -> Result<(), Undone> {
    let from = key_of(it.from);
    let to = key_of(it.to);
    let is_within = it.count <= PAGE_BYTES
        && it.from_at <= PAGE_BYTES - it.count
        && it.to_at <= PAGE_BYTES - it.count;
    if !pages.has(from) || !pages.has(to) || from == to || !is_within {
        return Err(Undone::Refused("no such copy"));
    }
    Ok(pages.copy(from, it.from_at, to, it.to_at, it.count)?)
}

/// The bytes of a page into which those of another one are copied.
fn copied(source: &Page, into: &Page, it: Copying) -> Result<Page, Fail> {
    let mut page = *into;
    for at in 0..PAGE_BYTES {
        if it.to_at <= at && at - it.to_at < it.count {
            let from = it.from_at.wrapping_add(at - it.to_at);
            page[at] = *source.get(from).ok_or("no such byte")?;
        }
    }
    Ok(page)
}

/// The same copy of plain bytes.
fn copy_plain(plain: &mut Plain, it: Copying) -> Result<(), Fail> {
    let source = *plain.get(it.from as usize).ok_or("no such page")?;
    let into = *plain.get(it.to as usize).ok_or("no such page")?;
    let page = copied(&source, &into, it)?;
    *plain.get_mut(it.to as usize).ok_or("no such page")? = page;
    Ok(())
}

fn assert_page<P: Pages, C: Debug + Drop>(
    pages: &mut P,
    plain: &Plain,
    number: u32,
    case: C,
) -> Result<(), Fail> {
    let found = read(pages, key_of(number))?;
    let want = plain.get(number as usize).ok_or("no such page")?;
    assert_same(&found, want, (number, case))
}

fn assert_copy<P: Pages>(pages: &mut P, plain: &mut Plain, it: Copying) -> Result<(), Fail> {
    copy(pages, it)?;
    copy_plain(plain, it)?;
    assert_page(pages, plain, it.to, it)?;
    assert_page(pages, plain, it.from, it)
}

/// Copies at the ends of pages and random ones, and finds each page as plain bytes are.
fn assert_copies<P: Pages>(pages: &mut P) -> Result<(), Fail> {
    let mut plain = take_all(pages)?;
    for (from, from_at, to, to_at, count) in ENDS {
        let it = Copying {
            from,
            from_at,
            to,
            to_at,
            count,
        };
        assert_copy(pages, &mut plain, it)?;
    }
    let mut draws = Draws::new(8);
    for _ in 0..COPIES {
        assert_copy(pages, &mut plain, draw(&mut draws))?;
    }
    for number in 0..PAGES {
        assert_page(pages, &plain, number, "at last")?;
    }
    Ok(())
}

#[test]
fn copies_are_as_of_plain_bytes_in_eight_frames(rt: HostRuntime) -> Result<(), Fail> {
    let mut pages = empty(rt.alloc())?;
    assert_copies(&mut pages)
}

#[test]
fn copies_are_as_of_plain_bytes_in_memory(rt: HostRuntime) -> Result<(), Fail> {
    let mut pages = MemPages::new(rt.alloc(), 64)?;
    assert_copies(&mut pages)
}
