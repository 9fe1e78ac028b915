// The pages of an image, given back.
ghost use Rattle.std.specs.Prelude.{◌≡◌, OnOk};
ghost use Rattle.rss_base.specs.DiskRule.{IsTold};
ghost use Rattle.rss_base.specs.Steps.{PagesCall, pages_in};
ghost use Rattle.rss_base.specs.declared.key.Space.TheVariants.{Image};
ghost use Rattle.rss_node.specs.Nodes.{AreNodes};
ghost use Rattle.rss_image.specs.Emptied.{inner_most, HasUnder, GivesUnder};

use crate::store::{give_page, read_node};
use rss_base::{PageFault, Pages};
use rss_node::{Node, Nodes};

/// Gives the page of a node of a level, and all pages under it.
pub(crate) fn give_under<P: Pages>(
    pages: &mut P,
    of: Nodes,
    level: u8,
    number: u32,
) -> Result<(), PageFault>
    requires of { AreNodes of }
    requires there { IsTold (P.view pages.old).disk
        → ∥ HasUnder of (P.view pages.old).held level number ∥₁ }
    ensures gives { OnOk result (IsTold (P.view pages.old).disk
        → GivesUnder of level number (P.view pages.old) (P.view pages.new)) }
    ensures did { PagesCall (pages_in of.segment Image) (inner_most of.width level)
        (inner_most of.width level) (P.view pages.old) (P.view pages.new) result }
{
    if level == 0 {
        return give_page(pages, of, number);
    }
    let mut node = Node::blank(of, level, number);
    read_node(pages, of, level, number, &mut node)?;
    for at in 0..node.lent().count() {
        give_under(pages, of, level - 1, node.lent().child(at))?;
    }
    give_page(pages, of, number)
}
