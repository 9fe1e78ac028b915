// The bytes of the catalog's pages.
ghost use Rattle.std.specs.Prelude.{◌≡◌, ◌+◌, ◌*◌, ◌<◌, ◌≤◌, ◌++◌, length, flat_map, IfSome, Some, All};
ghost use Rattle.rss_base.specs.Sizes.{page_bytes, links_most};
ghost use Rattle.rss_base.specs.LogRecords.{place_bytes};
ghost use Rattle.rss_base.specs.TupleTypes.{most_fields};
ghost use Rattle.rss_base.specs.Listings.{padded, relation_bytes, relations_of_page, field_bytes};
ghost use Rattle.rss_base.specs.Listings.{segment_spelled, kind_spelled, field_spelled, added_count};
ghost use Rattle.rss_base.specs.Listings.{relation_spelled, image_bytes, images_of_page, image_spelled};
ghost use Rattle.rss_base.specs.Listings.{link_bytes, link_spelled, parent_spelled};
ghost use Rattle.rss_base.specs.Sizes.{segments};
ghost use Rattle.rss_catalog.specs.Reading.{definition_bytes, definition_spelled, HasFewFields};

use byteorder::{BigEndian, ByteOrder};
use rss_base::{
    BoundedBytes, FieldDef, FieldKind, ImageEntry, LINKS_MOST, LinkEntry, NAME_BYTES, Name,
    PAGE_BYTES, Page, RelationEntry, Tid, put_bytes,
};

/// How many bytes a field and a relation have.
pub(crate) const FIELD_BYTES: usize = 18;

pub(crate) const RELATION_BYTES: usize = 512;

/// How many relations a page has.
pub(crate) const RELATIONS_OF_PAGE: u8 = 8;

/// How many bytes an image has.
pub(crate) const IMAGE_BYTES: usize = 64;

/// How many images a page has.
pub(crate) const IMAGES_OF_PAGE: u8 = 64;

/// How many bytes a link and a place have.
pub(crate) const LINK_BYTES: usize = 64;

pub(crate) const PLACE_BYTES: usize = 6;

/// How many links a page has: there is one page of them.
pub(crate) const LINKS_OF_PAGE: u8 = LINKS_MOST;

/// The bytes of a page, as far as they are written.
type PageBytes = BoundedBytes<PAGE_BYTES>;

/// The page of the segments.
pub(crate) fn segments_page(items: &[Option<Name>]) -> Page
    requires { length items.now ≤ segments }
    ensures { result ≡ padded page_bytes (flat_map segment_spelled items.now) }
{
    let mut bytes = PageBytes::new();
    for item in items {
        put_segment(&mut bytes, item);
    }
    page_of(&bytes)
}

/// A page of relations.
pub(crate) fn relations_page(items: &[Option<RelationEntry>]) -> Page
    requires many { length items.now ≤ relations_of_page }
    requires few { All HasFewFields items.now }
    ensures { result ≡ padded page_bytes (flat_map relation_spelled items.now) }
{
    let mut bytes = PageBytes::new();
    for item in items {
        put_relation(&mut bytes, item);
    }
    page_of(&bytes)
}

/// A page of images.
pub(crate) fn images_page(items: &[Option<ImageEntry>]) -> Page
    requires { length items.now ≤ images_of_page }
    ensures { result ≡ padded page_bytes (flat_map image_spelled items.now) }
{
    let mut bytes = PageBytes::new();
    for item in items {
        put_image(&mut bytes, item);
    }
    page_of(&bytes)
}

/// The page of the links.
pub(crate) fn links_page(items: &[Option<LinkEntry>]) -> Page
    requires { length items.now ≤ links_most }
    ensures { result ≡ padded page_bytes (flat_map link_spelled items.now) }
{
    let mut bytes = PageBytes::new();
    for item in items {
        put_link(&mut bytes, item);
    }
    page_of(&bytes)
}

/// The page that begins with these bytes; zeros stand after them.
fn page_of(bytes: &PageBytes) -> Page
    ensures { result ≡ padded page_bytes bytes.now }
{
    let mut page = [0u8; PAGE_BYTES];
    put_bytes(&mut page, 0, bytes.as_slice());
    page
}

fn put_segment(bytes: &mut PageBytes, segment: &Option<Name>)
    requires { length bytes.old + NAME_BYTES ≤ page_bytes }
    ensures put { bytes.new ≡ bytes.old ++ segment_spelled segment.now }
    ensures long { length bytes.new ≡ length bytes.old + NAME_BYTES }
{
    match segment {
        Some(name) => bytes.extend_from_slice(&name.bytes),
        None => bytes.extend_from_slice(&[0; NAME_BYTES]),
    }
}

fn put_relation(bytes: &mut PageBytes, relation: &Option<RelationEntry>)
    requires room { length bytes.old + relation_bytes ≤ page_bytes }
    requires few { HasFewFields relation.now }
    ensures put { bytes.new ≡ bytes.old ++ relation_spelled relation.now }
    ensures long { length bytes.new ≡ length bytes.old + relation_bytes }
{
    let zeros = [0; RELATION_BYTES];
    match relation {
        Some(relation) => {
            put_definition(bytes, relation);
            let long = RELATION_BYTES - definition_bytes(relation);
            bytes.extend_from_slice(&zeros[..long]);
        }
        None => bytes.extend_from_slice(&zeros),
    }
}

/// How many bytes of a relation's aren't the zeros after it.
fn definition_bytes(relation: &RelationEntry) -> usize
    requires { length relation.now.fields ≤ most_fields }
    ensures { result ≡ definition_bytes relation.now }
{
    32 + FIELD_BYTES * relation.fields.as_slice().len()
}

fn put_definition(bytes: &mut PageBytes, relation: &RelationEntry)
    requires room { length bytes.old + relation_bytes ≤ page_bytes }
    requires few { length relation.now.fields ≤ most_fields }
    ensures put { bytes.new ≡ bytes.old ++ definition_spelled relation.now }
    ensures long { length bytes.new ≡ length bytes.old + definition_bytes relation.now }
{
    let fields = relation.fields.as_slice();
    bytes.extend_from_slice(&relation.name.bytes);
    bytes.extend_from_slice(&[relation.segment, fields.len() as u8, added_count(fields), 0]);
    bytes.extend_from_slice(&relation.live.to_be_bytes());
    bytes.extend_from_slice(&[0; 8]);
    put_fields(bytes, fields);
}

/// How many of these fields were added.
fn added_count(fields: &[FieldDef]) -> u8
    requires { length fields.now ≤ most_fields }
    ensures { result ≡ added_count fields.now }
{
    let mut added = 0;
    for field in fields {
        if field.added {
            added += 1;
        }
    }
    added
}

fn put_fields(bytes: &mut PageBytes, fields: &[FieldDef])
    requires { length bytes.old + field_bytes * length fields.now ≤ page_bytes }
    ensures put { bytes.new ≡ bytes.old ++ flat_map field_spelled fields.now }
    ensures long { length bytes.new ≡ length bytes.old + field_bytes * length fields.now }
{
    for field in fields {
        put_field(bytes, field);
    }
}

fn put_field(bytes: &mut PageBytes, field: &FieldDef)
    requires { length bytes.old + field_bytes ≤ page_bytes }
    ensures put { bytes.new ≡ bytes.old ++ field_spelled field.now }
    ensures long { length bytes.new ≡ length bytes.old + field_bytes }
{
    bytes.extend_from_slice(&field.name.bytes);
    bytes.extend_from_slice(&kind_bytes(field.kind));
}

fn kind_bytes(kind: FieldKind) -> [u8; 2]
    ensures { result ≡ kind_spelled kind }
{
    match kind {
        FieldKind::Int => [1, 0],
        FieldKind::Text(most) => [2, most],
    }
}

fn put_image(bytes: &mut PageBytes, image: &Option<ImageEntry>)
    requires { length bytes.old + image_bytes ≤ page_bytes }
    ensures put { bytes.new ≡ bytes.old ++ image_spelled image.now }
    ensures long { length bytes.new ≡ length bytes.old + image_bytes }
{
    match image {
        Some(image) => put_image_entry(bytes, image),
        None => bytes.extend_from_slice(&[0; IMAGE_BYTES]),
    }
}

fn put_image_entry(bytes: &mut PageBytes, image: &ImageEntry)
    requires { length bytes.old + image_bytes ≤ page_bytes }
    ensures put { bytes.new ≡ bytes.old ++ image_spelled (Some image.now) }
    ensures long { length bytes.new ≡ length bytes.old + image_bytes }
{
    bytes.extend_from_slice(&image.name.bytes);
    bytes.extend_from_slice(&[
        image.relation,
        u8::from(image.is_unique),
        image.count,
        image.levels,
    ]);
    bytes.extend_from_slice(&image.root.to_be_bytes());
    bytes.extend_from_slice(&image.fields);
    bytes.extend_from_slice(&[0; 24]);
}

fn put_link(bytes: &mut PageBytes, link: &Option<LinkEntry>)
    requires { length bytes.old + link_bytes ≤ page_bytes }
    ensures put { bytes.new ≡ bytes.old ++ link_spelled link.now }
    ensures long { length bytes.new ≡ length bytes.old + link_bytes }
{
    match link {
        Some(link) => put_link_entry(bytes, link),
        None => bytes.extend_from_slice(&[0; LINK_BYTES]),
    }
}

fn put_link_entry(bytes: &mut PageBytes, link: &LinkEntry)
    requires { length bytes.old + link_bytes ≤ page_bytes }
    ensures put { bytes.new ≡ bytes.old ++ link_spelled (Some link.now) }
    ensures long { length bytes.new ≡ length bytes.old + link_bytes }
{
    bytes.extend_from_slice(&link.name.bytes);
    bytes.extend_from_slice(&parent_bytes(link.parent));
    bytes.extend_from_slice(&[link.child, u8::from(link.late)]);
    bytes.extend_from_slice(&place_bytes(link.first));
    bytes.extend_from_slice(&place_bytes(link.last));
    bytes.extend_from_slice(&[0; 32]);
}

fn parent_bytes(parent: Option<u8>) -> [u8; 2]
    ensures { result ≡ parent_spelled parent }
{
    match parent {
        Some(parent) => [2, parent],
        None => [1, 0],
    }
}

fn place_bytes(tid: Option<Tid>) -> [u8; PLACE_BYTES]
    ensures { result ≡ place_bytes tid }
{
    match tid {
        Some(tid) => {
            let mut bytes = [0; PLACE_BYTES];
            BigEndian::write_u32(&mut bytes[..4], tid.page);
            BigEndian::write_u16(&mut bytes[4..], tid.slot);
            bytes
        }
        None => [u8::MAX; PLACE_BYTES],
    }
}
