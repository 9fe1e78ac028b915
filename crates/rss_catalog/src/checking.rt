// Whether a listing may stand in a store.
ghost use Rattle.std.specs.Prelude.{◌≡◌, ◌≢◌, ◌↔◌, ◌<◌, ◌≤◌, ℕ, true, false, length, slice_index, is_some, All, Contains, Some, map, option_map, IsTrue};
ghost use Rattle.std.specs.Prelude.{IfSome, IfNone};
ghost use Rattle.rss_base.specs.Names.{IsName, AreApart};
ghost use Rattle.rss_base.specs.Sizes.{segments, relations_most, images_most, links_most, system_pages};
ghost use Rattle.rss_catalog.specs.Defined.{AreDefinitions, up_to, IsInBytes};
ghost use Rattle.rss_base.specs.TupleTypes.{AreFields, field_names, is_kind, most_fields};
ghost use Rattle.rss_base.specs.Listings.{numbered, IsFieldNumber, AreDifferent};
ghost use Rattle.rss_catalog.specs.Checking.{listing_of, AreNames, AreOnce, IsTaken, IsRelationIn, MayStand, TablesFitTo};
ghost use Rattle.rss_catalog.specs.Checking.{IsImageIn, MayIndex, HasKeyOf, IsKeyOf, ImagesFitTo, IsFirstBad};
ghost use Rattle.rss_catalog.specs.Checking.{IsLinkIn, MayLink, AreLinksIn, HaveFewRoles, LinksFit};
ghost use Rattle.rss_catalog.specs.Checking.{AreAllOriginal, AreAllEarly};

use crate::catalog::{at, image_page_of, page_of};
use crate::entries::{Entry, roles_in};
use crate::loading::{IMAGE_PAGE, LINK_PAGE, PAGE_COUNT};
use rss_base::{
    FieldDef, IMAGES_MOST, ImageEntry, KEY_BYTES, LINKS_MOST, LinkEntry, MOST_FIELDS, MOST_WIDTH,
    Name, RELATIONS_MOST, RelationEntry, Tid, is_name_text,
};
use rss_value::{key_width, width};

/// How many tuples a relation may have.
const TUPLES_MOST: u32 = 1 << 20;

/// How many relations there may be.
const RELATIONS: usize = RELATIONS_MOST as usize;

/// How many images there may be.
const IMAGES: usize = IMAGES_MOST as usize;

/// How many links there may be.
const LINKS: usize = LINKS_MOST as usize;

/// In how many links a relation may be.
const ROLES_MOST: u8 = 16;

/// The first page up to which a listing may not stand in a store, whatever the levels of its images and
/// the ends of its links, or the number of pages.
pub(crate) fn first_bad(
    segment_names: &[Option<Name>],
    relations: &[Option<RelationEntry>],
    images: &[Option<ImageEntry>],
    links: &[Option<LinkEntry>],
) -> u8
    requires segment_places { length segment_names.now ≡ segments }
    requires relation_places { length relations.now ≡ relations_most }
    requires image_places { length images.now ≡ images_most }
    requires link_places { length links.now ≡ links_most }
    ensures { IsFirstBad (λ page. AreDefinitions (up_to page
        (listing_of segment_names.now relations.now images.now links.now))) system_pages result }
{
    let page = first_bad_table(segment_names, relations);
    if page < IMAGE_PAGE {
        return page;
    }
    let page = first_bad_image(relations, images);
    if page < LINK_PAGE {
        return page;
    }
    if !are_links(relations, links) {
        return LINK_PAGE;
    }
    PAGE_COUNT
}

/// The first page up to which a store may not have these segments and relations, or that after theirs.
fn first_bad_table(segment_names: &[Option<Name>], relations: &[Option<RelationEntry>]) -> u8
    requires { length relations.now ≡ relations_most }
    ensures { IsFirstBad (TablesFitTo segment_names.now relations.now) 7 result }
{
    if !are_names(segment_names) {
        return 0;
    }
    if !are_once(segment_names) {
        return 0;
    }
    let names = names_of::<RelationEntry, RELATIONS>(relations);
    for (place, relation) in relations.iter().enumerate() {
        if is_taken(&names[..place], &names[place]) {
            return page_of(place as u8 + 1);
        }
        if !may_stand(segment_names, relation) {
            return page_of(place as u8 + 1);
        }
    }
    IMAGE_PAGE
}

/// The first page up to which a store with these relations may not have these images, or that after
/// theirs.
fn first_bad_image(relations: &[Option<RelationEntry>], images: &[Option<ImageEntry>]) -> u8
    requires { length images.now ≡ images_most }
    ensures first { IsFirstBad (ImagesFitTo relations.now images.now) 9 result }
    ensures behind { 7 ≤ result }
{
    let names = names_of::<ImageEntry, IMAGES>(images);
    for (place, image) in images.iter().enumerate() {
        if is_taken(&names[..place], &names[place]) {
            return image_page_of(place as u8 + 1);
        }
        if !may_index(relations, image) {
            return image_page_of(place as u8 + 1);
        }
    }
    LINK_PAGE
}

// ---- names

/// Whether each name has the bytes of one.
fn are_names(items: &[Option<Name>]) -> bool
    ensures { IsTrue result ↔ AreNames items.now }
{
    for item in items {
        if let Some(name) = item
            && !is_name(name)
        {
            return false;
        }
    }
    true
}

/// Whether no name stands twice.
fn are_once(items: &[Option<Name>]) -> bool
    ensures { IsTrue result ↔ AreOnce items.now }
{
    for (place, item) in items.iter().enumerate() {
        if is_taken(&items[..place], item) {
            return false;
        }
    }
    true
}

/// Whether this is a name, and one of these.
fn is_taken(items: &[Option<Name>], item: &Option<Name>) -> bool
    ensures { IsTrue result ↔ IsTaken items.now item.now }
{
    match item {
        Some(name) => stands_in(items, name),
        None => false,
    }
}

fn stands_in(items: &[Option<Name>], name: &Name) -> bool
    ensures { IsTrue result ↔ Contains items.now (Some name.now) }
{
    for item in items {
        if *item == Some(*name) {
            return true;
        }
    }
    false
}

/// The names of the entries, at their places.
fn names_of<E: Entry, const N: usize>(entries: &[Option<E>]) -> [Option<Name>; N]
    requires { length entries.now ≡ N }
    ensures { result ≡ map (option_map E.named) entries.now }
{
    let mut names = [None; N];
    for (place, entry) in entries.iter().enumerate() {
        names[place] = name_of(entry);
    }
    names
}

fn name_of<E: Entry>(entry: &Option<E>) -> Option<Name>
    ensures { result ≡ option_map E.named entry.now }
{
    match entry {
        Some(entry) => Some(entry.name()),
        None => None,
    }
}

/// Whether these are a letter, bytes of a name, and zeros.
fn is_name(name: &Name) -> bool
    ensures { IsTrue result ↔ IsName name.now }
{
    let bytes = name.bytes.as_slice();
    let long = text_bytes(bytes);
    is_name_text(&bytes[..long]) && are_zeros(&bytes[long..])
}

/// How many bytes stand before the first zero.
fn text_bytes(bytes: &[u8]) -> usize
    ensures within { result ≤ length bytes.now }
    ensures text { (k : ℕ) → k < result → slice_index bytes.now k ≢ 0 }
    ensures ends { result < length bytes.now → slice_index bytes.now result ≡ 0 }
{
    for (place, byte) in bytes.iter().enumerate() {
        if *byte == 0 {
            return place;
        }
    }
    bytes.len()
}

fn are_zeros(bytes: &[u8]) -> bool
    ensures { IsTrue result ↔ All (λ byte. byte ≡ 0) bytes.now }
{
    bytes.iter().all(|byte| *byte == 0)
}

// ---- relations

/// Whether the relation at a place, if there is one, may stand beside these segments.
fn may_stand(segment_names: &[Option<Name>], relation: &Option<RelationEntry>) -> bool
    ensures { IsTrue result ↔ MayStand segment_names.now relation.now }
{
    match relation {
        Some(relation) => is_entry(segment_names, relation),
        None => true,
    }
}

/// Whether a relation may stand beside these segments.
fn is_entry(segment_names: &[Option<Name>], relation: &RelationEntry) -> bool
    ensures { IsTrue result ↔ IsRelationIn segment_names.now relation.now }
{
    if relation.live > TUPLES_MOST {
        return false;
    }
    if !is_name(&relation.name) {
        return false;
    }
    if at(segment_names, relation.segment).is_none() {
        return false;
    }
    are_fields(relation.fields.as_slice())
}

/// Whether a relation may have these fields.
fn are_fields(fields: &[FieldDef]) -> bool
    ensures { IsTrue result ↔ AreFields fields.now }
{
    if fields.is_empty() {
        return false;
    }
    if fields.len() > MOST_FIELDS {
        return false;
    }
    if !are_kinds(fields) {
        return false;
    }
    if width(fields) > MOST_WIDTH {
        return false;
    }
    if !are_field_names(fields) {
        return false;
    }
    if !are_original(fields) {
        return false;
    }
    are_apart(fields)
}

fn are_kinds(fields: &[FieldDef]) -> bool
    ensures { IsTrue result ↔ All (λ field. is_kind field.kind ≡ true) fields.now }
{
    fields.iter().all(|field| field.kind.is_allowed())
}

/// Whether none of these fields was added.
fn are_original(fields: &[FieldDef]) -> bool
    ensures { IsTrue result ↔ All (λ field. field.added ≡ false) fields.now }
{
    fields.iter().all(|field| !field.added)
}

fn are_field_names(fields: &[FieldDef]) -> bool
    ensures { IsTrue result ↔ All (λ field. IsName field.name) fields.now }
{
    for field in fields {
        if !is_name(&field.name) {
            return false;
        }
    }
    true
}

/// Whether no two fields have one name.
fn are_apart(fields: &[FieldDef]) -> bool
    requires { length fields.now ≤ most_fields }
    ensures { IsTrue result ↔ AreApart (field_names fields.now) }
{
    let mut names = [None; MOST_FIELDS];
    for (place, field) in fields.iter().enumerate() {
        names[place] = Some(field.name);
    }
    are_once(&names[..fields.len()])
}

// ---- images

/// Whether the image at a place, if there is one, may stand beside these relations.
fn may_index(relations: &[Option<RelationEntry>], image: &Option<ImageEntry>) -> bool
    ensures { IsTrue result ↔ MayIndex relations.now image.now }
{
    match image {
        Some(image) => is_image(relations, image),
        None => true,
    }
}

/// Whether an image may stand beside these relations, whatever its root and its levels.
fn is_image(relations: &[Option<RelationEntry>], image: &ImageEntry) -> bool
    ensures { IsTrue result ↔ IsImageIn relations.now image.now }
{
    let _root = image.root;
    let _levels = image.levels;
    if !is_name(&image.name) {
        return false;
    }
    match at(relations, image.relation) {
        Some(relation) => has_key_of(relation.fields.as_slice(), image),
        None => false,
    }
}

/// Whether an image has a key of some of these fields.
fn has_key_of(fields: &[FieldDef], image: &ImageEntry) -> bool
    ensures { IsTrue result ↔ HasKeyOf fields.now image.now }
{
    let count = usize::from(image.count);
    if count == 0 || count > MOST_FIELDS {
        return false;
    }
    if !are_zeros(&image.fields[count..]) {
        return false;
    }
    is_key(fields, &image.fields[..count])
}

/// Whether these are numbers of some of these fields, none of them twice, and their key isn't too wide.
fn is_key(fields: &[FieldDef], numbers: &[u8]) -> bool
    requires { length numbers.now ≤ most_fields }
    ensures { IsTrue result ↔ IsKeyOf fields.now numbers.now }
{
    if !are_numbers(fields, numbers) {
        return false;
    }
    if !are_different(numbers) {
        return false;
    }
    key_width(fields, numbers) <= KEY_BYTES
}

/// Whether each of these is the number of a field, counted from 1.
fn are_numbers(fields: &[FieldDef], numbers: &[u8]) -> bool
    ensures { IsTrue result ↔ All (IsFieldNumber (length fields.now)) numbers.now }
{
    for number in numbers {
        if !is_number(fields, *number) {
            return false;
        }
    }
    true
}

fn is_number(fields: &[FieldDef], number: u8) -> bool
    ensures { IsTrue result ↔ IsFieldNumber (length fields.now) number }
{
    number >= 1 && usize::from(number) <= fields.len()
}

/// Whether no number stands twice.
fn are_different(numbers: &[u8]) -> bool
    ensures { IsTrue result ↔ AreDifferent numbers.now }
{
    for (place, number) in numbers.iter().enumerate() {
        if numbers[..place].contains(number) {
            return false;
        }
    }
    true
}

// ---- links

/// Whether a store with these relations may have these links.
fn are_links(relations: &[Option<RelationEntry>], links: &[Option<LinkEntry>]) -> bool
    requires relation_places { length relations.now ≡ relations_most }
    requires link_places { length links.now ≡ links_most }
    ensures { IsTrue result ↔ LinksFit relations.now links.now }
{
    if !are_once(&names_of::<LinkEntry, LINKS>(links)) {
        return false;
    }
    if !may_all_link(relations, links) {
        return false;
    }
    have_few_roles(relations, links)
}

/// Whether each of these links may stand beside these relations.
fn may_all_link(relations: &[Option<RelationEntry>], links: &[Option<LinkEntry>]) -> bool
    ensures { IsTrue result ↔ AreLinksIn relations.now links.now }
{
    for link in links {
        if !may_link(relations, link) {
            return false;
        }
    }
    true
}

/// Whether no relation is in too many of these links.
fn have_few_roles(relations: &[Option<RelationEntry>], links: &[Option<LinkEntry>]) -> bool
    requires relation_places { length relations.now ≡ relations_most }
    requires link_places { length links.now ≡ links_most }
    requires fit { AreLinksIn relations.now links.now }
    ensures { IsTrue result ↔ HaveFewRoles links.now }
{
    for place in 0..relations.len() {
        if roles_in(links, place as u8 + 1) > ROLES_MOST {
            return false;
        }
    }
    true
}

/// Whether the link at a place, if there is one, may stand beside these relations.
fn may_link(relations: &[Option<RelationEntry>], link: &Option<LinkEntry>) -> bool
    ensures { IsTrue result ↔ MayLink relations.now link.now }
{
    match link {
        Some(link) => is_link(relations, link),
        None => true,
    }
}

/// Whether a link may stand beside these relations, whatever its ends.
fn is_link(relations: &[Option<RelationEntry>], link: &LinkEntry) -> bool
    ensures { IsTrue result ↔ IsLinkIn relations.now link.now }
{
    if !is_name(&link.name) {
        return false;
    }
    if at(relations, link.child).is_none() {
        return false;
    }
    if !may_have_parent(relations, link) {
        return false;
    }
    if link.late {
        return false;
    }
    is_in_bytes(link.first) && is_in_bytes(link.last)
}

/// Whether a link's parents, if it has any, are of another of these relations than its children.
fn may_have_parent(relations: &[Option<RelationEntry>], link: &LinkEntry) -> bool
    ensures { IsTrue result ↔ IfSome link.now.parent (λ parent.
        (is_some (numbered relations.now parent) ≡ true) × (parent ≢ link.now.child)) }
{
    match link.parent {
        Some(parent) => parent != link.child && at(relations, parent).is_some(),
        None => true,
    }
}

/// Whether an end of a chain, if there is one, has other bytes than none.
fn is_in_bytes(end: Option<Tid>) -> bool
    ensures { IsTrue result ↔ IfSome end IsInBytes }
{
    match end {
        Some(tid) => tid.page != u32::MAX || tid.slot != u16::MAX,
        None => true,
    }
}

// ---- versions of the format

/// Whether no field of these relations was added.
pub(crate) fn are_all_original(relations: &[Option<RelationEntry>]) -> bool
    ensures { IsTrue result ↔ AreAllOriginal relations.now }
{
    for relation in relations {
        if let Some(relation) = relation
            && !are_original(relation.fields.as_slice())
        {
            return false;
        }
    }
    true
}

/// Whether none of these links is late.
pub(crate) fn are_all_early(links: &[Option<LinkEntry>]) -> bool
    ensures { IsTrue result ↔ AreAllEarly links.now }
{
    for link in links {
        if let Some(link) = link
            && link.late
        {
            return false;
        }
    }
    true
}
