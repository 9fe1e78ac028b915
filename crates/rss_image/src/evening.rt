// Two neighbours that are evened out.
ghost use Rattle.std.specs.Prelude.{◌≡◌, ◌≢◌, ◌+◌, ◌/◌, ◌<◌, ◌≤◌, ◌++◌, [], ◌∷◌, true, false, IfOk, OnOk, IfSome, length, take, drop};
ghost use Rattle.rss_base.specs.DiskRule.{IsTold};
ghost use Rattle.rss_base.specs.Paged.{page_key};
ghost use Rattle.rss_base.specs.Steps.{PagesCall, pages_in};
ghost use Rattle.rss_base.specs.declared.key.Space.TheVariants.{Image};
ghost use Rattle.rss_base.specs.Nodes.{node_most};
ghost use Rattle.rss_node.specs.Nodes.{AreNodes, IsNodeOf, with_entries, with_next, entry_at};
ghost use Rattle.rss_image.specs.Trees.{cells_of};
ghost use Rattle.rss_image.specs.Removed.{first_named, HasNeighbours, Evened, Joined, Shared};

use crate::halving::zeros;
use crate::store::{damaged, give_page, read_node, write_node};
use rss_base::{PageFault, Pages, node_most};
use rss_node::{Node, Nodes, Pair};

/// Gives the first entry of an inner node a pair.
fn name_first(node: &mut Node, level: u8, pair: &Pair)
    requires some { 0 < length node.old.entries }
    requires long { length pair.now ≡ node.old.width + 6 }
    ensures { node.new ≡ with_entries node.old (first_named level pair.now node.old.entries) }
{
    if level > 0 {
        let child = node.lent().child(0);
        node.put(0, 1, pair, child);
    }
}

/// Moves all entries of a node to the one before it.
fn merge(left: &mut Node, right: &Node)
    requires width { right.now.width ≡ left.old.width }
    requires room { length left.old.entries + length right.now.entries ≤ node_most left.old.width }
    ensures { left.new ≡ with_next (with_entries left.old
        (left.old.entries ++ right.now.entries)) right.now.next }
{
    let count = left.lent().count();
    left.copy(count, right, 0, right.lent().count());
    left.set_next(right.lent().next());
}

/// Moves entries between two nodes, so that each has a half.
fn share(left: &mut Node, right: &mut Node)
    requires width { right.old.width ≡ left.old.width }
    ensures left { left.new ≡ with_entries left.old
        (take (length (left.old.entries ++ right.old.entries) / 2)
        (left.old.entries ++ right.old.entries)) }
    ensures right { right.new ≡ with_entries right.old
        (drop (length (left.old.entries ++ right.old.entries) / 2)
        (left.old.entries ++ right.old.entries)) }
{
    let count = left.lent().count();
    let more = right.lent().count();
    let half = (count + more) / 2;
    if count < half {
        left.copy(count, right, 0, half - count);
        right.cut(0, half - count);
    } else {
        right.copy(0, left, half, count - half);
        left.cut(half, count - half);
    }
}

/// Makes one node of two that were read, the second one with its true first pair.
fn join_nodes<P: Pages>(
    pages: &mut P,
    of: Nodes,
    level: u8,
    number: u32,
    other: u32,
    left: &mut Node,
    right: &Node,
) -> Result<(), PageFault>
    requires left { IsNodeOf of level number left.old }
    requires right { IsNodeOf of level other right.now }
    requires room { length left.old.entries + length right.now.entries ≤ node_most of.width }
    requires left_mapped { IsTold (P.view pages.old).disk
        → (P.view pages.old).mapped (page_key of.segment Image number) ≡ true }
    requires right_mapped { IsTold (P.view pages.old).disk
        → (P.view pages.old).mapped (page_key of.segment Image other) ≡ true }
    requires apart { IsTold (P.view pages.old).disk → number ≢ other }
    ensures joined { OnOk result (IsTold (P.view pages.old).disk
        → Joined of level number other right.now.next (left.old.entries ++ right.now.entries)
        (cells_of of (P.view pages.old).held) (cells_of of (P.view pages.new).held)) }
    ensures given { OnOk result ((P.view pages.new).mapped
        (page_key of.segment Image other) ≡ false) }
    ensures spare { OnOk result ((P.view pages.new).spare ≡ (P.view pages.old).spare + 1) }
    ensures did { PagesCall (pages_in of.segment Image) 0 1
        (P.view pages.old) (P.view pages.new) result }
{
    merge(left, right);
    write_node(pages, of, level, number, left)?;
    give_page(pages, of, other)?;
    Ok(())
}

/// Shares the entries of two nodes that were read, and answers the pair at which the second one
/// begins.
fn share_nodes<P: Pages>(
    pages: &mut P,
    of: Nodes,
    level: u8,
    number: u32,
    other: u32,
    left: &mut Node,
    right: &mut Node,
) -> Result<Pair, PageFault>
    requires of { AreNodes of }
    requires left { IsNodeOf of level number left.old }
    requires right { IsNodeOf of level other right.old }
    requires many { 2 ≤ length (left.old.entries ++ right.old.entries) }
    requires left_mapped { IsTold (P.view pages.old).disk
        → (P.view pages.old).mapped (page_key of.segment Image number) ≡ true }
    requires right_mapped { IsTold (P.view pages.old).disk
        → (P.view pages.old).mapped (page_key of.segment Image other) ≡ true }
    requires apart { IsTold (P.view pages.old).disk → number ≢ other }
    ensures shared { IfOk result (λ pair. IsTold (P.view pages.old).disk
        → Shared of level number other left.old.next right.old.next
        (left.old.entries ++ right.old.entries)
        (cells_of of (P.view pages.old).held) (cells_of of (P.view pages.new).held)) }
    ensures pair { IfOk result (λ pair. pair
        ≡ (entry_at (drop (length (left.old.entries ++ right.old.entries) / 2)
        (left.old.entries ++ right.old.entries)) 0).pair) }
    ensures long { IfOk result (λ pair. length pair ≡ of.width + 6) }
    ensures did { PagesCall (pages_in of.segment Image) 0 2
        (P.view pages.old) (P.view pages.new) result }
{
    share(left, right);
    let first = right.lent().own_pair(0);
    let none = zeros(of.width);
    name_first(right, level, &none);
    write_node(pages, of, level, number, left)?;
    write_node(pages, of, level, other, right)?;
    Ok(first)
}

/// Evens out two neighbours, of which the second begins at a pair. If both stay, the pair at which
/// the second begins now is answered; otherwise its page was given.
pub(crate) fn even<P: Pages>(
    pages: &mut P,
    of: Nodes,
    level: u8,
    number: u32,
    other: u32,
    pair: &Pair,
) -> Result<Option<Pair>, PageFault>
    requires of { AreNodes of }
    requires long { length pair.now ≡ of.width + 6 }
    requires there { IsTold (P.view pages.old).disk
        → ∥ HasNeighbours of (cells_of of (P.view pages.old).held) level number other pair.now ∥₁ }
    ensures evened { IfOk result (λ second. IsTold (P.view pages.old).disk
        → Evened of level number other pair.now (cells_of of (P.view pages.old).held)
        (cells_of of (P.view pages.new).held) second) }
    ensures long { IfOk result (λ second. IfSome second (λ s. length s ≡ of.width + 6)) }
    ensures did { PagesCall (pages_in of.segment Image) 2 4
        (P.view pages.old) (P.view pages.new) result }
{
    let mut left = Node::blank(of, level, number);
    read_node(pages, of, level, number, &mut left)?;
    let mut right = Node::blank(of, level, other);
    read_node(pages, of, level, other, &mut right)?;
    let count = left.lent().count();
    let more = right.lent().count();
    if count == 0 {
        return Err(damaged(of, number));
    }
    if more == 0 {
        return Err(damaged(of, other));
    }
    name_first(&mut right, level, pair);
    if count + more <= node_most(of.width) {
        join_nodes(pages, of, level, number, other, &mut left, &right)?;
        return Ok(None);
    }
    let first = share_nodes(pages, of, level, number, other, &mut left, &mut right)?;
    Ok(Some(first))
}
