// Pages of a catalog, by bytes written out: fields that were added, and links that are late.
ghost use Rattle.std.specs.Prelude.{◌≡◌, Some};
ghost use Rattle.rss_base.specs.Listings.{padded, relation_bytes, link_bytes};
ghost use Rattle.rss_base.specs.Listings.{relation_spelled, link_spelled};
ghost use Rattle.rss_catalog.specs.Reading.{relation_of, link_of};
ghost use Rattle.rss_value_rows.specs.Listed.{two_added, late_link};

use rss_base::{PAGE_BYTES, Page, PageFault, PageKey, Pages, Place, SYSTEM_PAGES, Space};
use rss_catalog::Catalog;
use rss_device::MemPages;
use rss_images::assert_same;
use std::alloc::Global;
use std::test::Fail;

/// How many slots the pages have.
const SLOTS: u32 = 64;

/// The bytes of a relation with an INT, and an INT and a TEXT 3 that were added.
fn two_added() -> [u8; 86]
    ensures spelled { padded relation_bytes result ≡ relation_spelled (Some two_added) }
    ensures read { relation_of (padded relation_bytes result) ≡ Some two_added }
{
    *b"r\0\0\0\0\0\0\0\0\0\0\0\0\0\0\0\x01\x03\x02\0\0\0\0\0\0\0\0\0\0\0\0\0a\0\0\0\0\0\0\0\0\0\0\0\0\0\0\0\x01\0b\0\0\0\0\0\0\0\0\0\0\0\0\0\0\0\x01\0c\0\0\0\0\0\0\0\0\0\0\0\0\0\0\0\x02\x03"
}

/// The bytes of a late link of its tuples, none of which stands in the chain.
fn late_link() -> [u8; 32]
    ensures spelled { padded link_bytes result ≡ link_spelled (Some late_link) }
    ensures read { link_of (padded link_bytes result) ≡ Some late_link }
{
    *b"l\0\0\0\0\0\0\0\0\0\0\0\0\0\0\0\x01\0\x01\x01\xff\xff\xff\xff\xff\xff\xff\xff\xff\xff\xff\xff"
}

/// A byte of the catalog: the page, the place in it, and what stands there.
type Turned = (u32, usize, u8);

/// No field was added, and the link isn't late.
const ORIGINAL: Turned = (1, 18, 0);

const EARLY: Turned = (9, 19, 0);

/// What a catalog of that relation and that link has with some bytes turned, these bytes, and the page
/// at which it is refused, if it is. As yet added fields and late links are refused in form too.
static CATALOGS: [(&str, &[Turned], Option<u8>); 12] = [
    ("two added fields and a late link", &[], Some(1)),
    ("two added fields", &[EARLY], Some(1)),
    ("one added field", &[(1, 18, 1), EARLY], Some(1)),
    ("three added fields", &[(1, 18, 3), EARLY], Some(1)),
    ("a late link", &[ORIGINAL], Some(9)),
    ("none of these", &[ORIGINAL, EARLY], None),
    (
        "more added fields than fields",
        &[(1, 18, 4), EARLY],
        Some(1),
    ),
    ("255 added fields", &[(1, 18, 255), EARLY], Some(1)),
    (
        "an added field of no relation",
        &[ORIGINAL, EARLY, (1, 530, 1)],
        Some(1),
    ),
    ("late by 2", &[ORIGINAL, (9, 19, 2)], Some(9)),
    ("late by 255", &[ORIGINAL, (9, 19, 255)], Some(9)),
    ("late and no link", &[ORIGINAL, EARLY, (9, 83, 1)], Some(9)),
];

/// A page of that catalog, if the segment has a name of this letter.
fn page_of(number: u32, letter: u8, turned: &[Turned]) -> Page {
    let mut page = [0u8; PAGE_BYTES];
    match number {
        0 => page[0] = letter,
        1 => page[..86].copy_from_slice(&two_added()),
        9 => page[..32].copy_from_slice(&late_link()),
        _ => {}
    }
    for (of, at, byte) in turned {
        if *of == number && *at < PAGE_BYTES {
            page[*at] = *byte;
        }
    }
    page
}

/// The pages of that catalog.
fn pages_of(alloc: Global, letter: u8, turned: &[Turned]) -> Result<MemPages, Fail> {
    let mut pages = MemPages::new(alloc, SLOTS)?;
    for number in 0..SYSTEM_PAGES {
        put_page(&mut pages, number, &page_of(number, letter, turned))?;
    }
    Ok(pages)
}

/// Why that catalog is refused, if it is.
fn refused(alloc: Global, letter: u8, turned: &[Turned]) -> Result<Option<PageFault>, Fail> {
    let mut pages = pages_of(alloc, letter, turned)?;
    Ok(Catalog::load(alloc, &mut pages).err())
}

fn put_page(pages: &mut MemPages, number: u32, page: &Page) -> Result<(), Fail> {
    let key = PageKey {
        segment: 0,
        space: Space::System,
        number,
    };
    if pages.has(key) || pages.spare() == 0 || number >= SYSTEM_PAGES {
        return Err("no page can be taken".into());
    }
    pages.take_at(key)?;
    if pages.has(key) {
        pages.write(key, page)?;
    }
    Ok(())
}

/// A catalog is refused at this page, or isn't.
fn assert_refused(
    alloc: Global,
    letter: u8,
    (case, turned): (&str, &[Turned]),
    page: Option<u8>,
) -> Result<(), Fail> {
    let want = page.map(|page| PageFault::Damaged(Place::Catalog(page)));
    assert_same(&refused(alloc, letter, turned)?, &want, case)
}

#[test]
fn added_fields_and_late_links_are_refused_at_their_pages(rt: HostRuntime) -> Result<(), Fail> {
    for (case, turned, page) in &CATALOGS {
        assert_refused(rt.alloc(), b's', (case, turned), *page)?;
    }
    Ok(())
}

/// No name begins with a digit, and the page of the segment comes before the others.
#[test]
fn the_first_page_is_named(rt: HostRuntime) -> Result<(), Fail> {
    for (case, turned, _) in &CATALOGS {
        assert_refused(rt.alloc(), b'7', (case, turned), Some(0))?;
    }
    Ok(())
}

/// The name of an image of the first field, its relation, how many fields it has, and the field.
const IMAGE: [Turned; 4] = [(7, 0, b'i'), (7, 16, 1), (7, 18, 1), (7, 24, 1)];

/// An image with some levels, bytes of the link's ends, and the first image and the first link of which
/// it is said that it can't be so.
static PLACED: [(&str, u8, &[Turned], Option<u8>, Option<u8>); 5] = [
    ("a level and no ends", 1, &[], None, None),
    ("no level", 0, &[], Some(1), None),
    ("slot 127", 1, &[(9, 24, 0), (9, 25, 127)], None, None),
    (
        "no level, and slot 128",
        0,
        &[(9, 24, 0), (9, 25, 128)],
        Some(1),
        Some(1),
    ),
    (
        "six bytes that are not all 255",
        1,
        &[(9, 26, 0)],
        None,
        Some(1),
    ),
];

#[test]
fn levels_and_ends_are_no_flaws_of_their_pages(rt: HostRuntime) -> Result<(), Fail> {
    for (case, levels, ends, image, link) in &PLACED {
        let mut pages = pages_of(rt.alloc(), b's', &[ORIGINAL, EARLY])?;
        let mut page = page_of(7, b's', &IMAGE);
        page[19] = *levels;
        rewrite(&mut pages, 7, &page)?;
        let mut page = page_of(9, b's', ends);
        page[19] = 0;
        rewrite(&mut pages, 9, &page)?;
        let loaded = Catalog::load(rt.alloc(), &mut pages)?;
        assert_same(&loaded.image, image, case)?;
        assert_same(&loaded.link, link, case)?;
    }
    Ok(())
}

/// Writes a page that is there.
fn rewrite(pages: &mut MemPages, number: u32, page: &Page) -> Result<(), Fail> {
    let key = PageKey {
        segment: 0,
        space: Space::System,
        number,
    };
    if !pages.has(key) {
        return Err("no page can be written".into());
    }
    pages.write(key, page)?;
    Ok(())
}
