// A node that becomes two.
ghost use Rattle.std.specs.Prelude.{◌≡◌, ◌+◌, ◌<◌, ◌≤◌, [], ◌∷◌, length, take, drop};
ghost use Rattle.rss_base.specs.Nodes.{node_most, node_least};
ghost use Rattle.rss_levels.specs.Entries.{zeros};
ghost use Rattle.rss_base.specs.Entries.{no_page};
ghost use Rattle.rss_levels.specs.Rows.{stored};
ghost use Rattle.rss_node.specs.Nodes.{with_entries, with_next};
ghost use Rattle.rss_image.specs.Grown.{put_at, left_next, right_next};

use rss_node::{Node, PAIR_BYTES, Pair};

/// A node that was split: the pair at which the new one begins, and its page.
#[derive(Drop)]
pub(crate) struct Split {
    pub pair: Pair,
    pub number: u32,
}

/// The pair of the first entry of an inner node.
pub(crate) fn zeros(width: u8) -> Pair
    requires { width ≤ 120 }
    ensures { result ≡ zeros width }
{
    let none = [0u8; PAIR_BYTES];
    let mut pair = Pair::new();
    pair.extend_from_slice(front(&none, width as usize + 6));
    pair
}

/// The first bytes.
fn front(bytes: &[u8], count: usize) -> &[u8]
    requires { count ≤ length bytes.now }
    ensures { result.now ≡ take count bytes.now }
{
    &bytes[..count]
}

/// Puts an entry into a node that has no room for it, and moves the upper half to another node.
pub(crate) fn halve(node: &mut Node, right: &mut Node, at: usize, pair: &Pair, child: u32)
    requires full { length node.old.entries ≡ node_most node.old.width }
    requires many { 2 ≤ node_most node.old.width }
    requires at { at ≤ length node.old.entries }
    requires empty { right.old.entries ≡ [] }
    requires width { right.old.width ≡ node.old.width }
    requires long { length pair.now ≡ node.old.width + 6 }
    ensures left { node.new ≡ with_entries node.old (take (node_least node.old.width + 1)
        (put_at node.old.entries at (record { pair = pair.now; child = child }))) }
    ensures right { right.new ≡ with_entries right.old (drop (node_least node.old.width + 1)
        (put_at node.old.entries at (record { pair = pair.now; child = child }))) }
{
    let count = node.lent().count();
    let half = count / 2;
    if at <= half {
        right.copy(0, node, half, count - half);
        node.cut(half, count - half);
        node.put(at, 0, pair, child);
    } else {
        right.copy(0, node, half + 1, count - half - 1);
        node.cut(half + 1, count - half - 1);
        right.put(at - half - 1, 0, pair, child);
    }
}

/// Links the halves of a leaf, and gives the upper half of an inner node its first pair.
pub(crate) fn settle(node: &mut Node, right: &mut Node, level: u8, other: u32)
    requires some { 0 < length right.old.entries }
    requires last { right.old.next ≡ no_page }
    requires narrow { right.old.width ≤ 120 }
    ensures left { node.new ≡ with_next node.old (left_next level node.old.next other) }
    ensures right { right.new ≡ with_entries (with_next right.old (right_next level node.old.next))
        (stored right.old.width level right.old.entries) }
{
    if level == 0 {
        right.set_next(node.lent().next());
        node.set_next(other);
    } else {
        let first = right.lent().child(0);
        let none = zeros(right.lent().width());
        right.put(0, 1, &none, first);
    }
}
