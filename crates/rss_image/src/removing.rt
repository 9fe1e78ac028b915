// A pair that is taken from under a node.
ghost use Rattle.std.specs.Prelude.{◌≡◌, ◌↔◌, IsTrue, ◌+◌, ◌*◌, ◌<◌, ◌≤◌, true, IfOk, OnOk, length};
ghost use Rattle.rss_base.specs.DiskRule.{IsTold};
ghost use Rattle.rss_base.specs.Steps.{PagesCall, pages_in};
ghost use Rattle.rss_base.specs.declared.key.Space.TheVariants.{Image};
ghost use Rattle.rss_node.specs.Nodes.{AreNodes, IsNodeOf};
ghost use Rattle.rss_image.specs.Trees.{cells_of, HoldsNode};
ghost use Rattle.rss_image.specs.Removed.{MayRemove, Removed, MayMend, Mended};

use crate::evening::even;
use crate::store::{damaged, read_node, write_node};
use rss_base::{PageFault, Pages, node_most};
use rss_node::{Node, Nodes, Pair};

/// Whether two pairs are the same, as bytes.
pub(crate) fn is_same(a: &[u8], b: &[u8]) -> bool
    ensures { IsTrue result ↔ (a.now ≡ b.now) }
{
    a == b
}

/// Takes a pair out of a leaf that was read, and answers how many it has left.
fn take_out<P: Pages>(
    pages: &mut P,
    of: Nodes,
    number: u32,
    node: &mut Node,
    pair: &Pair,
) -> Result<usize, PageFault>
    requires is { IsNodeOf of 0 number node.old }
    requires node { IsTold (P.view pages.old).disk
        → HoldsNode of (P.view pages.old).held 0 number node.old.next node.old.entries }
    requires there { IsTold (P.view pages.old).disk
        → ∥ MayRemove of (P.view pages.old).held 0 number pair.now ∥₁ }
    ensures removed { IfOk result (λ count. IsTold (P.view pages.old).disk
        → Removed of 0 number pair.now (P.view pages.old) (P.view pages.new) count) }
    ensures did { PagesCall (pages_in of.segment Image) 0 1
        (P.view pages.old) (P.view pages.new) result }
{
    let at = node.lent().place(pair, false);
    if at >= node.lent().count() {
        return Err(damaged(of, number));
    }
    if !is_same(node.lent().pair(at), pair.as_slice()) {
        return Err(damaged(of, number));
    }
    node.cut(at, 1);
    write_node(pages, of, 0, number, node)?;
    Ok(node.lent().count())
}

/// Evens out a child of a node, that lacks entries, and a neighbour of it.
fn mend<P: Pages>(
    pages: &mut P,
    of: Nodes,
    level: u8,
    number: u32,
    node: &mut Node,
    place: usize,
) -> Result<(), PageFault>
    requires of { AreNodes of }
    requires inner { 0 < level }
    requires is { IsNodeOf of level number node.old }
    requires within { place < length node.old.entries }
    requires there { IsTold (P.view pages.old).disk
        → ∥ MayMend of (cells_of of (P.view pages.old).held) level number place
        node.old.entries ∥₁ }
    ensures mended { OnOk result (IsTold (P.view pages.old).disk
        → Mended of level number node.old.next place node.old.entries
        (cells_of of (P.view pages.old).held) (cells_of of (P.view pages.new).held)
        (length node.new.entries)) }
    ensures did { PagesCall (pages_in of.segment Image) 2 5
        (P.view pages.old) (P.view pages.new) result }
{
    let count = node.lent().count();
    if count < 2 {
        return Err(damaged(of, number));
    }
    let at = if place + 1 < count { place } else { count - 2 };
    let left = node.lent().child(at);
    let right = node.lent().child(at + 1);
    let pair = node.lent().own_pair(at + 1);
    match even(pages, of, level - 1, left, right, &pair)? {
        None => node.cut(at + 1, 1),
        Some(first) => node.put(at + 1, 1, &first, right),
    }
    write_node(pages, of, level, number, node)
}

/// Takes a pair from under a node of a level, and answers how many entries the node has left.
pub(crate) fn remove_in<P: Pages>(
    pages: &mut P,
    of: Nodes,
    level: u8,
    number: u32,
    pair: &Pair,
) -> Result<usize, PageFault>
    requires of { AreNodes of }
    requires long { length pair.now ≡ of.width + 6 }
    requires there { IsTold (P.view pages.old).disk
        → ∥ MayRemove of (P.view pages.old).held level number pair.now ∥₁ }
    ensures removed { IfOk result (λ count. IsTold (P.view pages.old).disk
        → Removed of level number pair.now (P.view pages.old) (P.view pages.new) count) }
    ensures did { PagesCall (pages_in of.segment Image) (3 * level + 1) (6 * level + 2)
        (P.view pages.old) (P.view pages.new) result }
{
    let mut node = Node::blank(of, level, number);
    read_node(pages, of, level, number, &mut node)?;
    if level == 0 {
        return take_out(pages, of, number, &mut node, pair);
    }
    let at = node.lent().place(pair, true);
    if at == 0 {
        return Err(damaged(of, number));
    }
    let child = node.lent().child(at - 1);
    let left = remove_in(pages, of, level - 1, child, pair)?;
    if left < node_most(of.width) / 2 {
        mend(pages, of, level, number, &mut node, at - 1)?;
    }
    Ok(node.lent().count())
}
