// An entry that is put into a node.
ghost use Rattle.std.specs.Prelude.{◌≡◌, ◌+◌, ◌<◌, ◌≤◌, ◌∷◌, [], true, IfOk, OnOk, IfSome, length};
ghost use Rattle.rss_base.specs.DiskRule.{IsTold};
ghost use Rattle.rss_base.specs.Paged.{page_key};
ghost use Rattle.rss_base.specs.Steps.{PagesCall, pages_in};
ghost use Rattle.rss_base.specs.declared.key.Space.TheVariants.{Image};
ghost use Rattle.rss_base.specs.Nodes.{node_most};
ghost use Rattle.rss_node.specs.Nodes.{AreNodes, IsNodeOf};
ghost use Rattle.rss_image.specs.Trees.{cells_of};
ghost use Rattle.rss_image.specs.Grown.{put_at, Grown, Halved};

use crate::halving::{Split, halve, settle};
use crate::store::{take_page, write_node};
use rss_base::{PageFault, Pages, node_most};
use rss_node::{Node, Nodes, Pair};

/// Puts an entry into a node that was read. If it has no room, it is split, and the new node is
/// answered.
pub(crate) fn grow<P: Pages>(
    pages: &mut P,
    of: Nodes,
    level: u8,
    number: u32,
    node: &mut Node,
    at: usize,
    pair: &Pair,
    child: u32,
) -> Result<Option<Split>, PageFault>
    requires of { AreNodes of }
    requires is { IsNodeOf of level number node.old }
    requires at { at ≤ length node.old.entries }
    requires long { length pair.now ≡ of.width + 6 }
    requires mapped { IsTold (P.view pages.old).disk
        → (P.view pages.old).mapped (page_key of.segment Image number) ≡ true }
    requires room { IsTold (P.view pages.old).disk
        → node_most of.width ≤ length node.old.entries → 0 < (P.view pages.old).spare }
    ensures grown { IfOk result (λ split. IsTold (P.view pages.old).disk
        → Grown of level number node.old.next
        (put_at node.old.entries at (record { pair = pair.now; child = child }))
        (cells_of of (P.view pages.old).held) (cells_of of (P.view pages.new).held) split) }
    ensures long { IfOk result (λ split. IfSome split (λ s. length s.pair ≡ of.width + 6)) }
    ensures spare { OnOk result ((P.view pages.old).spare ≤ (P.view pages.new).spare + 1) }
    ensures did { PagesCall (pages_in of.segment Image) 0 3
        (P.view pages.old) (P.view pages.new) result }
{
    if node.lent().count() < node_most(of.width) {
        node.put(at, 0, pair, child);
        write_node(pages, of, level, number, node)?;
        return Ok(None);
    }
    let split = divide(pages, of, level, number, node, at, pair, child)?;
    Ok(Some(split))
}

/// The same, if the node has no room.
fn divide<P: Pages>(
    pages: &mut P,
    of: Nodes,
    level: u8,
    number: u32,
    node: &mut Node,
    at: usize,
    pair: &Pair,
    child: u32,
) -> Result<Split, PageFault>
    requires of { AreNodes of }
    requires is { IsNodeOf of level number node.old }
    requires full { length node.old.entries ≡ node_most of.width }
    requires at { at ≤ length node.old.entries }
    requires long { length pair.now ≡ of.width + 6 }
    requires mapped { IsTold (P.view pages.old).disk
        → (P.view pages.old).mapped (page_key of.segment Image number) ≡ true }
    requires room { IsTold (P.view pages.old).disk → 0 < (P.view pages.old).spare }
    ensures halved { IfOk result (λ split. IsTold (P.view pages.old).disk
        → Halved of level number node.old.next
        (put_at node.old.entries at (record { pair = pair.now; child = child }))
        split.pair split.number
        (cells_of of (P.view pages.old).held) (cells_of of (P.view pages.new).held)) }
    ensures long { IfOk result (λ split. length split.pair ≡ of.width + 6) }
    ensures spare { OnOk result ((P.view pages.old).spare ≤ (P.view pages.new).spare + 1) }
    ensures did { PagesCall (pages_in of.segment Image) 0 3
        (P.view pages.old) (P.view pages.new) result }
{
    let other = take_page(pages, of, number)?;
    let mut right = Node::blank(of, level, other);
    halve(node, &mut right, at, pair, child);
    let middle = right.lent().own_pair(0);
    settle(node, &mut right, level, other);
    write_node(pages, of, level, other, &right)?;
    write_node(pages, of, level, number, node)?;
    Ok(Split {
        pair: middle,
        number: other,
    })
}
