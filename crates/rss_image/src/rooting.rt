// A new root.
ghost use Rattle.std.specs.Prelude.{◌≡◌, ◌+◌, ◌<◌, ◌≤◌, false, IfOk, OnOk, length};
ghost use Rattle.rss_base.specs.DiskRule.{IsTold};
ghost use Rattle.rss_base.specs.Paged.{page_key};
ghost use Rattle.rss_base.specs.Steps.{PagesCall, pages_in};
ghost use Rattle.rss_base.specs.declared.key.Space.TheVariants.{Image};
ghost use Rattle.rss_node.specs.Nodes.{AreNodes};
ghost use Rattle.rss_image.specs.Images.{Rooted};
ghost use Rattle.rss_image.specs.Removed.{HasRoot, Dropped};

use crate::halving::{Split, zeros};
use crate::store::{damaged, give_page, read_node, take_page, write_node};
use rss_base::{PageFault, Pages};
use rss_node::{Node, Nodes};

/// Makes a root above one that was split, and answers its page.
pub(crate) fn add_root<P: Pages>(
    pages: &mut P,
    of: Nodes,
    level: u8,
    root: u32,
    split: &Split,
) -> Result<u32, PageFault>
    requires of { AreNodes of }
    requires long { length split.now.pair ≡ of.width + 6 }
    requires room { IsTold (P.view pages.old).disk → 0 < (P.view pages.old).spare }
    ensures rooted { IfOk result (λ number. IsTold (P.view pages.old).disk
        → Rooted of level root (record { pair = split.now.pair; child = split.now.number }) number
        (P.view pages.old) (P.view pages.new)) }
    ensures did { PagesCall (pages_in of.segment Image) 0 2
        (P.view pages.old) (P.view pages.new) result }
{
    let number = take_page(pages, of, root)?;
    let mut node = Node::blank(of, level, number);
    let none = zeros(of.width);
    node.put(0, 0, &none, root);
    node.put(1, 0, &split.pair, split.number);
    write_node(pages, of, level, number, &node)?;
    Ok(number)
}

/// Drops a root that names one node, and answers that node's page.
pub(crate) fn drop_root<P: Pages>(
    pages: &mut P,
    of: Nodes,
    level: u8,
    root: u32,
) -> Result<u32, PageFault>
    requires of { AreNodes of }
    requires there { IsTold (P.view pages.old).disk
        → ∥ HasRoot of (P.view pages.old).held level root ∥₁ }
    ensures dropped { IfOk result (λ child. IsTold (P.view pages.old).disk
        → Dropped of level root child (P.view pages.old) (P.view pages.new)) }
    ensures given { IfOk result (λ child. (P.view pages.new).mapped
        (page_key of.segment Image root) ≡ false) }
    ensures spare { IfOk result (λ child. (P.view pages.new).spare
        ≡ (P.view pages.old).spare + 1) }
    ensures did { PagesCall (pages_in of.segment Image) 1 1
        (P.view pages.old) (P.view pages.new) result }
{
    let mut node = Node::blank(of, level, root);
    read_node(pages, of, level, root, &mut node)?;
    if node.lent().count() == 0 {
        return Err(damaged(of, root));
    }
    let child = node.lent().child(0);
    give_page(pages, of, root)?;
    Ok(child)
}
