// Pages that aren't what they should be, where the device doesn't tell: each call answers with the
// place.
use crate::calls::{
    Tried, Undone, choose, empty, fetch, insert_at, key_of, next_live, put_home, put_overflow,
    remove, replace, tid,
};
use rss_base::{Body, Page, PageFault, Pages, Place, Space, Tid};
use rss_images::assert_same;
use std::alloc::Global;
use std::test::Fail;

/// The tuple whose pages are damaged.
const AT: Tid = Tid { page: 3, slot: 1 };

/// A home page whose slots 0 and 1 have these entries. Of a body at byte 1,040 the page has the bytes.
pub(crate) fn home_with(first: [u8; 8], second: [u8; 8]) -> Page {
    let mut page = [0u8; 4096];
    page[..8].copy_from_slice(&[1, 1, 0, 0, 0, 0, 0, 3]);
    page[16..24].copy_from_slice(&first);
    page[24..32].copy_from_slice(&second);
    page
}

/// Overflow page 7, of which slot 0 has a body.
pub(crate) fn overflow_page() -> Page {
    let mut page = [0u8; 4096];
    page[..8].copy_from_slice(&[2, 1, 0, 0, 0, 0, 0, 7]);
    page[16..24].copy_from_slice(&BODY);
    page
}

/// Entries: none, a body of nine bytes, one of 1,024 behind it, a forward to slot 5 of overflow page 7,
/// and one of a kind that there isn't.
pub(crate) const NOTHING: [u8; 8] = [0; 8];

pub(crate) const BODY: [u8; 8] = [1, 0, 4, 16, 0, 9, 0, 0];

const LONG_BODY: [u8; 8] = [1, 0, 4, 25, 4, 0, 0, 0];

const FORWARD: [u8; 8] = [2, 5, 0, 0, 0, 0, 0, 7];

pub(crate) const MALFORMED: [u8; 8] = [3, 0, 0, 0, 0, 0, 0, 0];

fn damaged(space: Space, number: u32) -> Undone {
    Undone::Fault(PageFault::Damaged(Place::Page(key_of(space, number))))
}

fn fetched(store: &mut Tried) -> Result<bool, Undone> {
    fetch(store, AT, &mut Body::new())
}

/// A store whose home page 3 is this one.
pub(crate) fn store_with(alloc: Global, home: &Page) -> Result<Tried, Fail> {
    let mut store = empty(alloc)?;
    put_home(&mut store, 3, home)?;
    Ok(store)
}

/// The same with a forward to slot 5 of overflow page 7, which isn't mapped, or has nothing there.
fn store_with_forward(alloc: Global, first: [u8; 8], is_mapped: bool) -> Result<Tried, Fail> {
    let mut store = store_with(alloc, &home_with(first, FORWARD))?;
    if is_mapped {
        put_overflow(&mut store, 7, &overflow_page())?;
    }
    Ok(store)
}

#[test]
fn a_forward_that_leads_to_no_body_is_told(rt: HostRuntime) -> Result<(), Fail> {
    let want = damaged(Space::Overflow, 7);
    for is_mapped in [false, true] {
        let mut store = store_with_forward(rt.alloc(), BODY, is_mapped)?;
        assert_same(&fetched(&mut store), &Err(want), is_mapped)?;
        assert_same(&remove(&mut store, AT), &Err(want), is_mapped)?;
        let mut store = store_with_forward(rt.alloc(), BODY, is_mapped)?;
        assert_same(&replace(&mut store, AT, &[7]), &Err(want), is_mapped)?;
        // It fits in its home page beside 1,024 bytes no more.
        let mut store = store_with_forward(rt.alloc(), LONG_BODY, is_mapped)?;
        assert_same(&replace(&mut store, AT, &[7; 2033]), &Err(want), is_mapped)?;
    }
    Ok(())
}

#[test]
fn a_page_that_isnt_well_formed_is_told(rt: HostRuntime) -> Result<(), Fail> {
    let want = damaged(Space::Home, 3);
    let home = home_with(BODY, MALFORMED);
    let mut store = store_with(rt.alloc(), &home)?;
    assert_same(&fetched(&mut store), &Err(want), "fetch")?;
    assert_same(&choose(&mut store, 9, &[]), &Err(want), "choose")?;
    assert_same(
        &insert_at(&mut store, tid(3, 2), &[7]),
        &Err(want),
        "insert_at",
    )?;
    assert_same(&replace(&mut store, AT, &[7]), &Err(want), "replace")?;
    assert_same(&remove(&mut store, AT), &Err(want), "remove")?;
    Ok(())
}

#[test]
fn a_page_of_another_number_or_of_zeros_is_told(rt: HostRuntime) -> Result<(), Fail> {
    let want = damaged(Space::Home, 3);
    let mut home = home_with(NOTHING, BODY);
    home[7] = 4;
    for page in [home, [0; 4096]] {
        let mut store = store_with(rt.alloc(), &page)?;
        assert_same(&fetched(&mut store), &Err(want), "fetch")?;
        assert_same(&next_live(&mut store, None), &Err(want), "next_live")?;
        assert_same(&replace(&mut store, AT, &[7]), &Err(want), "replace")?;
        assert_same(&remove(&mut store, AT), &Err(want), "remove")?;
    }
    Ok(())
}

#[test]
fn what_stands_beside_a_body_is_left_as_it_is(rt: HostRuntime) -> Result<(), Fail> {
    let mut store = store_with(rt.alloc(), &home_with(MALFORMED, BODY))?;
    assert_same(&replace(&mut store, AT, &[7; 9]), &Ok(()), "as long")?;
    assert_same(&replace(&mut store, AT, &[7]), &Ok(()), "shorter")?;
    let want = damaged(Space::Home, 3);
    assert_same(&replace(&mut store, AT, &[7; 2]), &Err(want), "longer")?;
    assert_same(&fetched(&mut store), &Ok(true), "it stands there")?;
    assert_same(&remove(&mut store, AT), &Ok(()), "remove")?;
    let beside = fetch(&mut store, tid(3, 0), &mut Body::new());
    assert_same(&beside, &Err(want), "and it was left")?;
    Ok(())
}

#[test]
fn an_overflow_page_that_isnt_well_formed_is_told(rt: HostRuntime) -> Result<(), Fail> {
    let want = damaged(Space::Overflow, 7);
    let home = home_with(BODY, FORWARD);
    let mut page = overflow_page();
    page[16 + 5 * 8] = 3;
    for number in 0..2u8 {
        let mut store = store_with(rt.alloc(), &home)?;
        put_overflow(&mut store, 7, &page)?;
        assert_same(&fetched(&mut store), &Err(want), "fetch")?;
        let done = if number == 0 {
            remove(&mut store, AT)
        } else {
            replace(&mut store, AT, &[7])
        };
        assert_same(&done, &Err(want), number)?;
    }
    Ok(())
}

#[test]
fn no_tuple_where_one_should_be_is_told(rt: HostRuntime) -> Result<(), Fail> {
    let want = damaged(Space::Home, 3);
    let mut store = store_with(rt.alloc(), &home_with(BODY, NOTHING))?;
    assert_same(&fetched(&mut store), &Ok(false), "fetch")?;
    assert_same(&replace(&mut store, AT, &[7]), &Err(want), "replace")?;
    assert_same(&remove(&mut store, AT), &Err(want), "remove")?;
    assert_same(&remove(&mut store, tid(3, 128)), &Err(want), "no slot")?;
    Ok(())
}

#[test]
fn a_body_that_wants_a_page_where_none_is_spare_is_told(rt: HostRuntime) -> Result<(), Fail> {
    let mut store = store_with(rt.alloc(), &home_with(LONG_BODY, BODY))?;
    for number in 0..64u32 {
        if number != 3 && store.pages.spare() > 0 {
            put_home(&mut store, number, &home_with(BODY, NOTHING))?;
        }
    }
    assert_same(&store.pages.spare(), &0, "spare")?;
    assert_same(&replace(&mut store, AT, &[7; 2032]), &Ok(()), "it fits")?;
    let want = Err(damaged(Space::Home, 3));
    assert_same(&replace(&mut store, AT, &[7; 2033]), &want, "it doesn't")?;
    Ok(())
}
