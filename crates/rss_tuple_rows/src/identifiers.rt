// Where tuples stand, and which identifiers they get, by examples.
use crate::calls::{Tried, choose, empty, entry_at, fetch, insert_at, replace, tid};
use rss_base::{Body, Pages, Space, Tid};
use rss_images::assert_same;
use rss_page::Entry;
use std::test::Fail;

const BYTES: [u8; 2400] = [7; 2400];

/// Puts a tuple with so many bytes at the identifier that it gets.
fn insert(store: &mut Tried, length: u16) -> Result<Tid, Fail> {
    let at = choose(store, length, &[])?.ok_or("no identifier")?;
    let body = BYTES.get(..usize::from(length)).ok_or("too long a body")?;
    insert_at(store, at, body)?;
    Ok(at)
}

fn lengthen(store: &mut Tried, at: Tid, length: usize) -> Result<(), Fail> {
    let body = BYTES.get(..length).ok_or("too long a body")?;
    replace(store, at, body)?;
    Ok(())
}

/// How many pages a fetch asks for, if it finds a body of this length.
fn asks_of_fetch(store: &mut Tried, at: Tid, length: usize) -> Result<u32, Fail> {
    let before = store.pages.asks();
    let mut body = Body::new();
    assert_same(&fetch(store, at, &mut body)?, &true, at)?;
    assert_same(&body.as_slice().len(), &length, at)?;
    Ok(store.pages.asks().saturating_sub(before))
}

fn forward(page: u32, slot: u8) -> Entry {
    Entry::Forward { page, slot }
}

#[test]
fn a_body_that_grows_moves_and_is_still_found_in_two_pages(rt: HostRuntime) -> Result<(), Fail> {
    let mut store = empty(rt.alloc())?;
    let (first, second) = (tid(0, 0), tid(0, 1));
    for (length, at) in [(9, first), (9, second), (2049, tid(0, 2))] {
        assert_same(&insert(&mut store, length)?, &at, length)?;
    }
    assert_same(&asks_of_fetch(&mut store, first, 9)?, &1, "at home")?;
    let steps = [
        (first, 1284, forward(0, 0)),
        (second, 1284, forward(0, 1)),
        (first, 2049, forward(1, 0)),
    ];
    for (at, length, want) in steps {
        lengthen(&mut store, at, length)?;
        assert_same(&entry_at(&mut store, Space::Home, at)?, &want, (at, length))?;
        assert_same(&asks_of_fetch(&mut store, at, length)?, &2, (at, length))?;
    }
    assert_same(&asks_of_fetch(&mut store, second, 1284)?, &2, "the other")?;
    let left = entry_at(&mut store, Space::Overflow, tid(0, 0))?;
    assert_same(&left, &Entry::Empty, "where it stood")?;
    Ok(())
}

#[test]
fn a_body_that_shrinks_comes_home(rt: HostRuntime) -> Result<(), Fail> {
    let mut store = empty(rt.alloc())?;
    for length in [2000, 1000] {
        insert(&mut store, length)?;
    }
    lengthen(&mut store, tid(0, 1), 1100)?;
    let there = entry_at(&mut store, Space::Home, tid(0, 1))?;
    assert_same(&there, &forward(0, 0), "moved")?;
    lengthen(&mut store, tid(0, 1), 1056)?;
    assert_same(
        &asks_of_fetch(&mut store, tid(0, 1), 1056)?,
        &1,
        "home again",
    )?;
    assert_same(
        &store.pages.spare(),
        &63,
        "its overflow page was given back",
    )?;
    Ok(())
}

#[test]
fn the_129th_short_tuple_stands_in_the_second_page(rt: HostRuntime) -> Result<(), Fail> {
    let mut store = empty(rt.alloc())?;
    for number in 0..128u16 {
        assert_same(&insert(&mut store, 9)?, &tid(0, number), number)?;
    }
    assert_same(&insert(&mut store, 9)?, &tid(1, 0), 128)?;
    Ok(())
}

#[test]
fn barred_identifiers_are_passed_over(rt: HostRuntime) -> Result<(), Fail> {
    let mut store = empty(rt.alloc())?;
    let mut barred = Vec::new(rt.alloc());
    for slot in 0..128u16 {
        barred.push(tid(0, slot))?;
    }
    let found = choose(&mut store, 9, barred.as_slice())?;
    assert_same(&found, &Some(tid(1, 0)), "128 of them")?;
    insert(&mut store, 9)?;
    let found = choose(&mut store, 9, barred.as_slice())?;
    assert_same(&found, &Some(tid(1, 0)), "in a page that is mapped")?;
    for page in 1..64u32 {
        for slot in 0..128u16 {
            barred.push(tid(page, slot))?;
        }
    }
    let found = choose(&mut store, 9, barred.as_slice())?;
    assert_same(&found, &None, "all of them")?;
    let last = barred.pop();
    assert_same(
        &choose(&mut store, 9, barred.as_slice())?,
        &last,
        "all but one",
    )?;
    Ok(())
}

#[test]
fn there_is_no_identifier_where_all_are_live(rt: HostRuntime) -> Result<(), Fail> {
    let mut store = empty(rt.alloc())?;
    let mut barred = Vec::new(rt.alloc());
    for page in 0..64u32 {
        for slot in 0..128u16 {
            if page < 62 {
                insert_at(&mut store, tid(page, slot), &[7])?;
            } else {
                barred.push(tid(page, slot))?;
            }
        }
    }
    let found = choose(&mut store, 9, barred.as_slice())?;
    assert_same(&found, &None, "live or barred")?;
    assert_same(&choose(&mut store, 9, &[])?, &Some(tid(62, 0)), "live")?;
    Ok(())
}
