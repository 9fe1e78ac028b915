// What the bytes of the catalog's pages read as, whether or not they are in form.
ghost use Rattle.std.specs.Prelude.{◌≡◌, ◌+◌, ◌*◌, ◌<◌, ◌≤◌, ◌++◌, length, map, take, IfOk, OnOk, All};
ghost use Rattle.rss_base.specs.Sizes.{page_bytes, segments, links_most};
ghost use Rattle.rss_base.specs.Names.{name_bytes};
ghost use Rattle.rss_base.specs.TupleTypes.{most_fields};
ghost use Rattle.rss_base.specs.Listings.{field_bytes, relation_bytes, relations_of_page, image_bytes, images_of_page, link_bytes};
ghost use Rattle.std.specs.Int.{w32, from_be_bytes};
ghost use Rattle.rss_catalog.specs.Reading.{pieces, segment_of, kind_of, field_of, fields_of};
ghost use Rattle.rss_catalog.specs.Reading.{relation_of, image_of, link_of, parent_of, place_of};

use crate::encoding::{
    FIELD_BYTES, IMAGE_BYTES, IMAGES_OF_PAGE, LINK_BYTES, LINKS_OF_PAGE, PLACE_BYTES,
    RELATION_BYTES, RELATIONS_OF_PAGE,
};
use byteorder::{BigEndian, ByteOrder};
use rss_base::{
    FieldDef, FieldKind, Fields, ImageEntry, LinkEntry, MOST_FIELDS, NAME_BYTES, Name, Page,
    RelationEntry, SEGMENTS, Tid,
};
use std::alloc::{AllocError, Global};

/// The segments of their page.
pub(crate) fn read_segments(alloc: Global, page: &Page) -> Result<Vec<Option<Name>>, AllocError>
    ensures { IfOk result (λ read. read.items ≡ map segment_of (pieces name_bytes segments page.now)) }
{
    let mut segments = Vec::with_capacity(alloc, usize::from(SEGMENTS))?;
    for place in 0..usize::from(SEGMENTS) {
        let at = NAME_BYTES * place;
        segments.push(read_segment(&page[at..at + NAME_BYTES]))?;
    }
    Ok(segments)
}

/// Puts the relations of a page after those that are there.
pub(crate) fn read_relations(
    alloc: Global,
    page: &Page,
    relations: &mut Vec<Option<RelationEntry>>,
) -> Result<(), AllocError>
    ensures read { OnOk result (relations.new.items ≡ relations.old.items
        ++ map relation_of (pieces relation_bytes relations_of_page page.now)) }
{
    for place in 0..usize::from(RELATIONS_OF_PAGE) {
        let at = RELATION_BYTES * place;
        relations.push(read_relation(alloc, &page[at..at + RELATION_BYTES])?)?;
    }
    Ok(())
}

/// Puts the images of a page after those that are there.
pub(crate) fn read_images(
    page: &Page,
    images: &mut Vec<Option<ImageEntry>>,
) -> Result<(), AllocError>
    ensures read { OnOk result (images.new.items ≡ images.old.items
        ++ map image_of (pieces image_bytes images_of_page page.now)) }
{
    for place in 0..usize::from(IMAGES_OF_PAGE) {
        let at = IMAGE_BYTES * place;
        images.push(read_image(&page[at..at + IMAGE_BYTES]))?;
    }
    Ok(())
}

/// Puts the links of a page after those that are there.
pub(crate) fn read_links(page: &Page, links: &mut Vec<Option<LinkEntry>>) -> Result<(), AllocError>
    ensures read { OnOk result (links.new.items ≡ links.old.items
        ++ map link_of (pieces link_bytes links_most page.now)) }
{
    for place in 0..usize::from(LINKS_OF_PAGE) {
        let at = LINK_BYTES * place;
        links.push(read_link(&page[at..at + LINK_BYTES]))?;
    }
    Ok(())
}

fn read_segment(bytes: &[u8]) -> Option<Name>
    requires { length bytes.now ≡ name_bytes }
    ensures { result ≡ segment_of bytes.now }
{
    if bytes[0] == 0 {
        return None;
    }
    Some(read_name(bytes))
}

fn read_relation(alloc: Global, bytes: &[u8]) -> Result<Option<RelationEntry>, AllocError>
    requires { length bytes.now ≡ relation_bytes }
    ensures { IfOk result (λ read. read ≡ relation_of bytes.now) }
{
    if bytes[0] == 0 {
        return Ok(None);
    }
    let count = usize::from(bytes[17]).min(MOST_FIELDS);
    let originals = count.saturating_sub(usize::from(bytes[18]));
    Ok(Some(RelationEntry {
        name: read_name(&bytes[..NAME_BYTES]),
        segment: bytes[16],
        fields: read_fields(alloc, originals, count, &bytes[32..])?,
        live: read_number(&bytes[20..24]),
    }))
}

/// So many fields, of which those after the original ones were added.
fn read_fields(
    alloc: Global,
    originals: usize,
    count: usize,
    bytes: &[u8],
) -> Result<Fields, AllocError>
    requires few { count ≤ most_fields }
    requires room { field_bytes * count ≤ length bytes.now }
    ensures { IfOk result (λ fields. fields ≡ fields_of originals count bytes.now) }
{
    let mut fields = Fields::with_capacity(alloc, count)?;
    for place in 0..count {
        let at = FIELD_BYTES * place;
        fields.push(read_field(&bytes[at..at + FIELD_BYTES], place >= originals))?;
    }
    Ok(fields)
}

fn read_field(bytes: &[u8], added: bool) -> FieldDef
    requires { length bytes.now ≡ field_bytes }
    ensures { result ≡ field_of added bytes.now }
{
    FieldDef {
        name: read_name(&bytes[..NAME_BYTES]),
        kind: read_kind(bytes[16], bytes[17]),
        added,
    }
}

fn read_kind(code: u8, most: u8) -> FieldKind
    ensures { result ≡ kind_of code most }
{
    if code == 1 {
        FieldKind::Int
    } else {
        FieldKind::Text(most)
    }
}

fn read_name(bytes: &[u8]) -> Name
    requires { length bytes.now ≡ name_bytes }
    ensures { result.bytes ≡ bytes.now }
{
    let mut name = [0; NAME_BYTES];
    name.copy_from_slice(bytes);
    Name { bytes: name }
}

fn read_image(bytes: &[u8]) -> Option<ImageEntry>
    requires { length bytes.now ≡ image_bytes }
    ensures { result ≡ image_of bytes.now }
{
    if bytes[0] == 0 {
        return None;
    }
    let mut fields = [0; MOST_FIELDS];
    fields.copy_from_slice(&bytes[24..24 + MOST_FIELDS]);
    Some(ImageEntry {
        name: read_name(&bytes[..NAME_BYTES]),
        relation: bytes[16],
        is_unique: bytes[17] == 1,
        count: bytes[18],
        fields,
        levels: bytes[19],
        root: read_number(&bytes[20..24]),
    })
}

fn read_link(bytes: &[u8]) -> Option<LinkEntry>
    requires { length bytes.now ≡ link_bytes }
    ensures { result ≡ link_of bytes.now }
{
    if bytes[0] == 0 {
        return None;
    }
    Some(LinkEntry {
        name: read_name(&bytes[..NAME_BYTES]),
        parent: read_parent(bytes[16], bytes[17]),
        child: bytes[18],
        late: bytes[19] == 1,
        first: read_place(&bytes[20..26]),
        last: read_place(&bytes[26..32]),
    })
}

fn read_parent(code: u8, parent: u8) -> Option<u8>
    ensures { result ≡ parent_of code parent }
{
    if code == 2 { Some(parent) } else { None }
}

fn read_place(bytes: &[u8]) -> Option<Tid>
    requires { length bytes.now ≡ PLACE_BYTES }
    ensures { result ≡ place_of bytes.now }
{
    let page = read_number(&bytes[..4]);
    let slot = BigEndian::read_u16(&bytes[4..]);
    if page == u32::MAX && slot == u16::MAX {
        None
    } else {
        Some(Tid { page, slot })
    }
}

fn read_number(bytes: &[u8]) -> u32
    requires { length bytes.now ≡ 4 }
    ensures { result ≡ from_be_bytes w32 bytes.now }
{
    BigEndian::read_u32(bytes)
}
