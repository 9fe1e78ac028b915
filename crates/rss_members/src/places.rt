// Where the blocks of links stand.
ghost use Rattle.std.specs.Prelude.{◌≡◌, ◌+◌, ◌*◌, ◌≤◌, ◌++◌, true, is_some, take, length, Some};
ghost use Rattle.rss_base.specs.Listings.{link_at};
ghost use Rattle.rss_base.specs.Prefixes.{early_part, prefix_size};
ghost use Rattle.rss_base.specs.declared.link.LinkEntry.{LinkEntry as ALink};
ghost use Rattle.rss_link.specs.Blocks.{kept_ends};
ghost use Rattle.rss_link.specs.Calls.{IsLink};
ghost use Rattle.rss_members.specs.Members.{chains_of, block_at, listed_ends, blank_block, blank_prefix, front_most};

use rss_base::{BoundedBytes, Kind, LinkEntry};
use rss_catalog::Catalog;
use rss_link::{Chains, Ends};

/// The block of a tuple that is in no chain of a unary link, of one that is in none of a binary link,
/// and of one that has no children.
const OUTSIDE_MEMBER: [u8; 13] = [
    0, 255, 255, 255, 255, 255, 255, 255, 255, 255, 255, 255, 255,
];

const OUTSIDE_CHILD: [u8; 18] = [255; 18];

const CHILDLESS: [u8; 12] = [255; 12];

/// The block that a prefix has of a tuple which stands in no chain of a link and has none, by the number
/// of its relation. A late link has none there.
fn blank_block(link: &LinkEntry, relation: u8) -> &'static [u8]
    ensures { result.now ≡ blank_block (early_part link.now relation) }
{
    if link.late {
        &[]
    } else if link.child == relation {
        match link.parent {
            None => &OUTSIDE_MEMBER,
            Some(_) => &OUTSIDE_CHILD,
        }
    } else if link.parent == Some(relation) {
        &CHILDLESS
    } else {
        &[]
    }
}

/// How many bytes the blocks of so many links have in the body of a tuple, by the number of its
/// relation.
fn blocks_len(catalog: &Catalog, relation: u8, links: u8) -> usize
    ensures is { result ≡ prefix_size (take links catalog.now.listing.links) relation }
    ensures small { result ≤ links * 18 }
{
    let mut bytes = 0;
    for place in 0..links {
        if catalog.used(Kind::Link, place + 1) {
            bytes += blank_block(catalog.link(place + 1), relation).len();
        }
    }
    bytes
}

/// How many bytes the prefix of a tuple has, by the number of its relation.
pub fn prefix_len(catalog: &Catalog, relation: u8) -> usize
    ensures is { result ≡ prefix_size catalog.now.listing.links relation }
{
    blocks_len(catalog, relation, catalog.last_link())
}

/// How many bytes stand before the values in a body at most: the number of the relation, and a block
/// for each of 16 links.
pub const FRONT_BYTES: usize = 1 + 16 * 18;

/// What stands before the values in a body.
pub type Front = BoundedBytes<FRONT_BYTES>;

/// Puts the prefix of a tuple that stands in no chain and has none after these bytes, by the number
/// of its relation.
pub fn push_blank_prefix(catalog: &Catalog, relation: u8, front: &mut Front)
    requires { length front.old + prefix_size catalog.now.listing.links relation ≤ front_most }
    ensures { front.new ≡ front.old ++ blank_prefix catalog.now.listing relation }
{
    for place in 0..catalog.last_link() {
        if catalog.used(Kind::Link, place + 1) {
            front.extend_from_slice(blank_block(catalog.link(place + 1), relation));
        }
    }
}

/// Where the block of a link begins in the body of a tuple, by the number of its relation.
fn block_at(catalog: &Catalog, number: u8, relation: u8) -> u16
    requires { is_some (link_at catalog.now.listing number) ≡ true }
    ensures { result ≡ block_at catalog.now.listing number relation }
{
    1 + blocks_len(catalog, relation, number - 1) as u16
}

/// The link of a number, with the places of its blocks.
pub fn chains_of(catalog: &Catalog, number: u8) -> Chains
    requires { is_some (link_at catalog.now.listing number) ≡ true }
    ensures is { (link : ALink) → link_at catalog.now.listing number ≡ Some link
        → result ≡ chains_of catalog.now.listing number link }
    ensures segments { IsLink result }
{
    let link = catalog.link(number);
    let child_segment = catalog.relation(link.child).segment;
    let child_at = block_at(catalog, number, link.child);
    match link.parent {
        None => Chains {
            link: number,
            unary: true,
            parent_segment: 0,
            child_segment,
            parent_at: 0,
            child_at,
        },
        Some(parent) => Chains {
            link: number,
            unary: false,
            parent_segment: catalog.relation(parent).segment,
            child_segment,
            parent_at: block_at(catalog, number, parent),
            child_at,
        },
    }
}

/// The ends of the chain of a link that has one.
pub(crate) fn ends_of(link: &LinkEntry) -> Ends
    ensures { kept_ends result ≡ listed_ends link.now }
{
    Ends {
        first: link.first,
        last: link.last,
    }
}
