// A pair that is put under a node.
ghost use Rattle.std.specs.Prelude.{◌≡◌, ◌+◌, ◌*◌, ◌<◌, ◌≤◌, IfOk, OnOk, IfSome, length};
ghost use Rattle.rss_base.specs.DiskRule.{IsTold};
ghost use Rattle.rss_base.specs.Steps.{PagesCall, pages_in};
ghost use Rattle.rss_base.specs.declared.key.Space.TheVariants.{Image};
ghost use Rattle.rss_node.specs.Nodes.{AreNodes};
ghost use Rattle.rss_image.specs.Inserted.{MayInsert, Inserted};

use crate::growing::grow;
use crate::halving::Split;
use crate::store::{damaged, read_node};
use rss_base::{PageFault, Pages};
use rss_node::{Node, Nodes, Pair};

/// Puts a pair under a node of a level. A node that was split off is answered, for the row above.
pub(crate) fn insert_in<P: Pages>(
    pages: &mut P,
    of: Nodes,
    level: u8,
    number: u32,
    pair: &Pair,
) -> Result<Option<Split>, PageFault>
    requires of { AreNodes of }
    requires long { length pair.now ≡ of.width + 6 }
    requires there { IsTold (P.view pages.old).disk
        → ∥ MayInsert of (P.view pages.old).held (P.view pages.old).spare level number pair.now ∥₁ }
    ensures inserted { IfOk result (λ split. IsTold (P.view pages.old).disk
        → Inserted of level number pair.now (P.view pages.old) (P.view pages.new) split) }
    ensures long { IfOk result (λ split. IfSome split (λ s. length s.pair ≡ of.width + 6)) }
    ensures spare { OnOk result ((P.view pages.old).spare
        ≤ (P.view pages.new).spare + (level + 1)) }
    ensures did { PagesCall (pages_in of.segment Image) (level + 1) (4 * (level + 1))
        (P.view pages.old) (P.view pages.new) result }
{
    let mut node = Node::blank(of, level, number);
    read_node(pages, of, level, number, &mut node)?;
    let at = node.lent().place(pair, true);
    if level == 0 {
        return grow(pages, of, level, number, &mut node, at, pair, 0);
    }
    if at == 0 {
        return Err(damaged(of, number));
    }
    let child = node.lent().child(at - 1);
    let below = insert_in(pages, of, level - 1, child, pair)?;
    match below {
        None => Ok(None),
        Some(split) => grow(
            pages,
            of,
            level,
            number,
            &mut node,
            at,
            &split.pair,
            split.number,
        ),
    }
}
