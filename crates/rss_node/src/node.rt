// Nodes.
ghost use Rattle.std.specs.Prelude.{◌≡◌, ◌↔◌, IsTrue, ◌+◌, ◌*◌, ◌-◌, ◌<◌, ◌≤◌, [], ◌∷◌, List, ℕ, length, take, drop, slice_index, IfSome, IfNone, OnSome, true, false};
ghost use Rattle.std.specs.Ordering.{nat_cmp};
ghost use Rattle.std.specs.Cmp.Lexicographic.{slice_cmp};
ghost use Rattle.rss_base.specs.Entries.{Entry};
ghost use Rattle.rss_base.specs.Nodes.{node_most};
ghost use Rattle.rss_node.specs.Nodes.{NodeView, IsBytes, entries_from, spliced, with_entries, with_next, entry_at, Spells, IsPassed, AreNodes, IsNodeOf, blank_node, header_bytes, HasForm};

use crate::bytes::{is_part, part_of, put_and_move};
use crate::order::compare_bytes;
use crate::pair::{Nodes, Pair};
use rss_base::{
    BoundedBytes, NODE_ENTRY_BYTES, NODE_HEADER, PAGE_BYTES, Page, node_most, put_bytes, put_u16,
    put_u32, u16_at, u32_at,
};
use std::cmp::Ordering;
use std::marker::Model;

/// A node, in a page of its own.
#[derive(Drop)]
pub struct Node {
    page: Page,
    width: u8,
}

impl Model for Node {
    ghost use Rattle.rss_node.specs.Nodes.{NodeView, node_from, IsOwnPage};

    ghost Value = { NodeView };

    ghost view = { λ a. node_from a.width a.page };

    ghost invariant = { λ a. IsOwnPage a.width a.page };
}

/// A node, in a page that is lent.
#[derive(Drop)]
pub struct LentNode<'a> {
    page: &'a Page,
    width: u8,
}

impl<'a> Model for LentNode<'a> {
    ghost use Rattle.rss_node.specs.Nodes.{NodeView, node_from, IsOwnPage};

    ghost Value = { NodeView };

    ghost view = { λ a. node_from a.width a.page.now };

    ghost invariant = { λ a. IsOwnPage a.width a.page.now };
}

/// The header of a node without entries.
fn header(segment: u8, image: u8, level: u8, number: u32) -> [u8; NODE_HEADER]
    ensures spelled { result
        ≡ header_bytes (record { segment = segment; image = image; width = 0 }) level number }
    ensures bytes { IsBytes
        (header_bytes (record { segment = segment; image = image; width = 0 }) level number) }
{
    let [a, b, c, d] = number.to_be_bytes();
    [
        3, segment, image, level, a, b, c, d, 0, 0, 0, 0, 255, 255, 255, 255, 0, 0, 0, 0, 0, 0, 0,
        0, 0, 0, 0, 0, 0, 0, 0, 0,
    ]
}

/// Whether the bytes are a node's of a level and a number.
fn has_form(page: &Page, of: Nodes, level: u8, number: u32) -> bool
    ensures { IsTrue result ↔ HasForm of level number page.now }
{
    let [a, b, c, d] = number.to_be_bytes();
    let front = [3, of.segment, of.image, level, a, b, c, d];
    usize::from(u16_at(page, 8)) <= node_most(of.width)
        && is_part(page, 0, &front)
        && is_part(page, 10, &[0, 0])
        && is_part(page, 16, &[0; 16])
}

impl Node {
    /// A node without entries, that has no next leaf.
    pub fn blank(of: Nodes, level: u8, number: u32) -> Node
        requires { AreNodes of }
        ensures { result ≡ blank_node of level number }
    {
        let mut page = [0u8; PAGE_BYTES];
        let header = header(of.segment, of.image, level, number);
        put_bytes(&mut page, 0, &header);
        Node {
            page,
            width: of.width,
        }
    }

    /// The same node, as it stands in its page.
    pub fn lent(&self) -> LentNode<'_>
        ensures { result ≡ self.now }
    {
        LentNode {
            page: &self.page,
            width: self.width,
        }
    }

    /// The page that spells the node.
    pub fn page(&self) -> &Page
        ensures { Spells result.now self.now }
    {
        &self.page
    }

    /// Becomes a copy of a node that is lent.
    pub fn fill_from(&mut self, lent: &LentNode<'_>)
        ensures { self.new ≡ lent.now }
    {
        self.page = *lent.page;
        self.width = lent.width;
    }

    pub fn set_next(&mut self, next: u32)
        ensures { self.new ≡ with_next self.old next }
    {
        put_u32(&mut self.page, 12, next);
    }

    /// Puts an entry from a place on, in place of so many that are there. In place of none it takes room.
    pub fn put(&mut self, at: usize, removed: usize, pair: &Pair, child: u32)
        requires within { at + removed ≤ length self.old.entries }
        requires room { removed ≡ 0 → length self.old.entries + 1 ≤ node_most self.old.width }
        requires long { length pair.now ≡ self.old.width + 6 }
        ensures { self.new ≡ with_entries self.old (spliced self.old.entries at removed
            (record { pair = pair.now; child = child } ∷ [])) }
    {
        let mut bytes: BoundedBytes<136> = BoundedBytes::new();
        bytes.extend_from_slice(pair.as_slice());
        bytes.extend_from_slice(&child.to_be_bytes());
        self.splice(at, removed, bytes.as_slice(), 1);
    }

    /// Takes so many entries away.
    pub fn cut(&mut self, at: usize, removed: usize)
        requires { at + removed ≤ length self.old.entries }
        ensures { self.new ≡ with_entries self.old (spliced self.old.entries at removed []) }
    {
        self.splice(at, removed, &[], 0);
    }

    /// Puts entries of another node from a place on.
    pub fn copy(&mut self, at: usize, from: &Node, start: usize, count: usize)
        requires within { at ≤ length self.old.entries }
        requires there { start + count ≤ length from.now.entries }
        requires width { from.now.width ≡ self.old.width }
        requires room { length self.old.entries + count ≤ node_most self.old.width }
        ensures { self.new ≡ with_entries self.old (spliced self.old.entries at 0
            (take count (drop start from.now.entries))) }
    {
        let size = from.width as usize + NODE_ENTRY_BYTES;
        let first = NODE_HEADER + start * size;
        let bytes = part_of(&from.page, first, count * size);
        self.splice(at, 0, bytes, count);
    }

    /// Puts entries, as bytes, from a place on, in place of so many that are there.
    fn splice(&mut self, at: usize, removed: usize, bytes: &[u8], count: usize)
        requires within { at + removed ≤ length self.old.entries }
        requires bytes { length bytes.now ≡ count * (self.old.width + 10) }
        requires room { removed < count → length self.old.entries + (count - removed)
            ≤ node_most self.old.width }
        ensures { self.new ≡ with_entries self.old (spliced self.old.entries at removed
            (entries_from self.old.width count bytes.now)) }
    {
        let size = self.width as usize + NODE_ENTRY_BYTES;
        let old = self.lent().count();
        let from = NODE_HEADER + (at + removed) * size;
        put_and_move(
            &mut self.page,
            NODE_HEADER + at * size,
            bytes,
            from,
            NODE_HEADER + old * size,
        );
        let now = (old + count - removed) as u16;
        put_u16(&mut self.page, 8, now);
    }
}

impl<'a> LentNode<'a> {
    /// The node of a level in the page of a number, if the bytes are one's.
    pub fn read(page: &'a Page, of: Nodes, level: u8, number: u32) -> Option<LentNode<'a>>
        requires { AreNodes of }
        ensures spelled { IfSome result (Spells page.now) }
        ensures is { IfSome result (IsNodeOf of level number) }
        ensures none { IfNone result ((node : NodeView) → IsNodeOf of level number node
            → Spells page.now node → ⊥) }
    {
        if has_form(page, of, level, number) {
            Some(LentNode {
                page,
                width: of.width,
            })
        } else {
            None
        }
    }

    /// How many entries there are.
    pub fn count(&self) -> usize
        ensures count { result ≡ length self.now.entries }
        ensures few { length self.now.entries ≤ node_most self.now.width }
    {
        usize::from(u16_at(self.page, 8))
    }

    /// The width of its keys.
    pub fn width(&self) -> u8
        ensures { result ≡ self.now.width }
    {
        self.width
    }

    /// The next leaf's page.
    pub fn next(&self) -> u32
        ensures { result ≡ self.now.next }
    {
        u32_at(self.page, 12)
    }

    /// The bytes of an entry's pair.
    pub fn pair(&self, at: usize) -> &[u8]
        requires { at < length self.now.entries }
        ensures pair { result.now ≡ (entry_at self.now.entries at).pair }
        ensures long { length result.now ≡ self.now.width + 6 }
        ensures short { length result.now ≤ 126 }
    {
        let size = self.width as usize + NODE_ENTRY_BYTES;
        let start = NODE_HEADER + at * size;
        part_of(self.page, start, size - 4)
    }

    /// An entry's pair, as one of its own.
    pub fn own_pair(&self, at: usize) -> Pair
        requires { at < length self.now.entries }
        ensures pair { result ≡ (entry_at self.now.entries at).pair }
        ensures long { length result ≡ self.now.width + 6 }
    {
        let mut pair = Pair::new();
        pair.extend_from_slice(self.pair(at));
        pair
    }

    /// The child of an entry.
    pub fn child(&self, at: usize) -> u32
        requires { at < length self.now.entries }
        ensures { result ≡ (entry_at self.now.entries at).child }
    {
        let size = self.width as usize + NODE_ENTRY_BYTES;
        u32_at(self.page, NODE_HEADER + at * size + (size - 4))
    }

    /// The first entry that isn't passed by a search for a pair, if entries are sorted.
    pub fn place(&self, target: &Pair, beyond: bool) -> usize
        ensures within { result ≤ length self.now.entries }
        ensures before { 0 < result
            → IsPassed beyond (entry_at self.now.entries (result - 1)).pair target.now }
        ensures here { result < length self.now.entries
            → IsPassed beyond (entry_at self.now.entries result).pair target.now → ⊥ }
    {
        let mut low = 0;
        let mut high = self.count();
        while low < high {
            let middle = low + (high - low) / 2;
            if passes(self.pair(middle), target.as_slice(), beyond) {
                low = middle + 1;
            } else {
                high = middle;
            }
        }
        low
    }
}

/// Whether a search for a pair passes another one, both as bytes.
fn passes(pair: &[u8], target: &[u8], beyond: bool) -> bool
    ensures yes { result ≡ true → IsPassed beyond pair.now target.now }
    ensures no { result ≡ false → IsPassed beyond pair.now target.now → ⊥ }
{
    match compare_bytes(pair, target) {
        Ordering::Less => true,
        Ordering::Equal => beyond,
        Ordering::Greater => false,
    }
}
