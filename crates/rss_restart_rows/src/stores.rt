// Stores with one relation of one INT and a link of its tuples, and what restart makes of them.
ghost use Rattle.std.specs.Prelude.{◌≡◌, ℕ, ◌<◌, length};
ghost use Rattle.rss_base.specs.PageMap.{IsKey};

use crate::logs::{RELATION, TUPLES, Values, Written, tid_of};
use rss_base::{Body, PAGE_BYTES, Page, PageKey, Pages, SYSTEM_PAGES, Space};
use rss_catalog::Catalog;
use rss_device::MemPages;
use rss_images::Untold;
use rss_restart::restart;
use rss_tuple::{Store, Tuples};
use std::alloc::Global;
use std::test::Fail;

/// How many pages a store has room for.
const SLOTS: u32 = 64;

/// The segment of the relation.
const SEGMENT: u8 = 1;

/// How many bytes of the catalog a segment's or a field's name has.
const NAME_BYTES: usize = 16;

/// The page of the catalog that lists the link, and how many bytes of a tuple say where it stands in
/// the link's one chain.
const LINK_PAGE: u32 = 9;

const BLOCK_BYTES: usize = 13;

pub(crate) type Tried = Store<Untold<MemPages>>;

/// The tables after a restart over a store with those of the last checkpoint; the chain is empty.
pub(crate) fn restarted(alloc: Global, written: &Written) -> Result<Values, Fail> {
    let mut tuples = restarted_store(alloc, written, None)?;
    values_in(&mut tuples)
}

/// The same store. This tuple, if any, is the only one in the chain.
#[tactic(auto, using(rss_images::specs::Silent::never_told))]
pub(crate) fn restarted_store(
    alloc: Global,
    written: &Written,
    member: Option<usize>,
) -> Result<Tried, Fail> {
    let pages = MemPages::new(alloc, SLOTS)?;
    let mut tuples = Store::new(Untold::new(pages));
    put_catalog(&mut tuples, &written.saved, member)?;
    let mut catalog = Catalog::load(alloc, &mut tuples.pages)?.catalog;
    put_tuples(&mut tuples, &written.saved, member)?;
    let checkpoint = written.checkpoint;
    if checkpoint < written.log.head() || checkpoint > written.log.end() {
        return Err("no position of the log".into());
    }
    restart(alloc, &mut tuples, &mut catalog, &written.log, checkpoint)?;
    Ok(tuples)
}

/// Writes the pages of a catalog with the relation and its count, and the link with its ends.
fn put_catalog(tuples: &mut Tried, values: &Values, member: Option<usize>) -> Result<(), Fail> {
    for number in 0..SYSTEM_PAGES {
        let key = PageKey {
            segment: 0,
            space: Space::System,
            number,
        };
        put_page(tuples, key, &catalog_page(number, values, member))?;
    }
    Ok(())
}

fn put_page(tuples: &mut Tried, key: PageKey, page: &Page) -> Result<(), Fail>
    requires { (slots : ℕ) → IsKey slots key }
{
    if tuples.pages.has(key) || tuples.pages.spare() == 0 {
        return Err("no page can be taken".into());
    }
    tuples.pages.take_at(key)?;
    if tuples.pages.has(key) {
        tuples.pages.write(key, page)?;
    }
    Ok(())
}

/// A page of the catalog: the first has the segment, the second the relation, and the last the link.
fn catalog_page(number: u32, values: &Values, member: Option<usize>) -> Page {
    let mut page = [0u8; PAGE_BYTES];
    if number == 0 {
        page[0] = b's';
    }
    if number == 1 {
        page[0] = b'r';
        page[NAME_BYTES] = SEGMENT;
        page[NAME_BYTES + 1] = 1;
        page[NAME_BYTES + 7] = count(values);
        page[2 * NAME_BYTES] = b'f';
        page[3 * NAME_BYTES] = 1;
    }
    if number == LINK_PAGE {
        page[0] = b'l';
        page[NAME_BYTES] = 1;
        page[NAME_BYTES + 2] = RELATION;
        page[NAME_BYTES + 4..NAME_BYTES + 10].copy_from_slice(&place(member));
        page[NAME_BYTES + 10..NAME_BYTES + 16].copy_from_slice(&place(member));
    }
    page
}

/// The bytes of an identifier, if there is one.
fn place(tuple: Option<usize>) -> [u8; 6] {
    match tuple {
        Some(tuple) => [0, 0, 0, 0, 0, (tuple % TUPLES) as u8],
        None => [255; 6],
    }
}

/// The bytes of a tuple that say where it stands in the chain: before it and after it stand these;
/// or that it stands there not at all.
pub(crate) fn block(
    stands: bool,
    previous: Option<usize>,
    next: Option<usize>,
) -> [u8; BLOCK_BYTES] {
    let mut block = [255u8; BLOCK_BYTES];
    block[0] = u8::from(stands);
    block[1..7].copy_from_slice(&place(previous));
    block[7..13].copy_from_slice(&place(next));
    block
}

/// How many tuples there are.
fn count(values: &Values) -> u8 {
    let mut live = 0u8;
    for value in values {
        if value.is_some() {
            live = live.saturating_add(1);
        }
    }
    live
}

#[tactic(auto, using(rss_images::specs::Silent::never_told))]
fn put_tuples(tuples: &mut Tried, values: &Values, member: Option<usize>) -> Result<(), Fail> {
    for tuple in 0..TUPLES {
        if let Some(value) = values[tuple] {
            put_tuple(tuples, tuple, value, member == Some(tuple))?;
        }
    }
    Ok(())
}

#[tactic(auto, using(rss_images::specs::Silent::never_told))]
fn put_tuple(tuples: &mut Tried, tuple: usize, value: u8, stands: bool) -> Result<(), Fail> {
    let tid = tid_of(tuple);
    if tid.page >= tuples.pages.slots() || tuples.pages.spare() == 0 {
        return Err("no page is spare".into());
    }
    let body = body_of(value, block(stands, None, None));
    Ok(tuples.insert_at(SEGMENT, tid, body.as_slice())?)
}

/// The body of a tuple that stands so in the chain.
fn body_of(value: u8, block: [u8; BLOCK_BYTES]) -> Body
    ensures { length result ≡ 22 }
{
    let mut body = Body::new();
    body.push(RELATION);
    body.extend_from_slice(&block);
    body.extend_from_slice(&[0, 0, 0, 0, 0, 0, 0, value]);
    body
}

/// Whether a tuple has this value and stands so in the chain.
#[tactic(auto, using(rss_images::specs::Silent::never_told))]
pub(crate) fn is_body(
    tuples: &mut Tried,
    tuple: usize,
    value: u8,
    block: [u8; BLOCK_BYTES],
) -> Result<bool, Fail> {
    let mut body = Body::new();
    let live = tuples.fetch(SEGMENT, tid_of(tuple), &mut body)?;
    Ok(live && body.as_slice() == body_of(value, block).as_slice())
}

/// What each tuple holds.
#[tactic(auto, using(rss_images::specs::Silent::never_told))]
fn values_in(tuples: &mut Tried) -> Result<Values, Fail> {
    let mut values = [None; TUPLES];
    for tuple in 0..TUPLES {
        let mut body = Body::new();
        if tuples.fetch(SEGMENT, tid_of(tuple), &mut body)? {
            values[tuple] = body.as_slice().last().copied();
        }
    }
    Ok(values)
}
