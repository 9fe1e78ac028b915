// The laws of pairs.
ghost use Rattle.std.specs.Prelude.{◌≡◌, ℕ, ◌^◌, ◌<◌, ◌≤◌, List, length};
ghost use Rattle.std.specs.Ordering.{nat_cmp};
ghost use Rattle.std.specs.Cmp.Lexicographic.{slice_cmp};
ghost use Rattle.rss_base.specs.Trees.{Pair, pair_cmp};
ghost use Rattle.rss_base.specs.Nodes.{Node, NodesOf, IsNodePage};
ghost use Rattle.std.specs.List.{AllByRecursion};
ghost use Rattle.rss_node.specs.Nodes.{NodeView, Spells};
ghost use Rattle.rss_base.specs.Tids.{IsSpelledTid};
ghost use Rattle.rss_node.specs.Pairs.{IsWhole, pair_bytes, pair_from, key_from, tid_from};
ghost use Rattle.rss_node.specs.Pairs.{HasSlot, base_node, nodes_of_node, view_of};

/// Pairs are ordered by their bytes as by their keys, and then by their identifiers.
pub fn pairs_are_ordered()
    ensures { (a b : Pair) → length a.key ≡ length b.key → IsSpelledTid a.tid → IsSpelledTid b.tid
        → slice_cmp nat_cmp (pair_bytes a.key a.tid) (pair_bytes b.key b.tid) ≡ pair_cmp a b }
{}

/// What the bytes of a pair say is the pair, and bytes that can be a pair's are those of the pair that
/// they say.
pub fn pairs_are_their_bytes()
    ensures said { (width : ℕ) (pair : Pair) → length pair.key ≡ width → IsSpelledTid pair.tid
        → pair_from width (pair_bytes pair.key pair.tid) ≡ pair }
    ensures back { (width : ℕ) (bytes : List ℕ) → IsWhole width bytes
        → pair_bytes (key_from width bytes) (tid_from width bytes) ≡ bytes }
{}

/// A page that spells a node is a node's page by the definition of the base, if the identifiers of
/// its entries name entries that a page may have.
pub fn pages_are_node_pages()
    ensures { (page : List ℕ) (node : NodeView) → Spells page node
        → AllByRecursion (HasSlot node.width) node.entries
        → IsNodePage (nodes_of_node node) node.number page (base_node node) }
{}

/// A node's page by the definition of the base spells a node.
pub fn node_pages_spell()
    ensures { (of : NodesOf) (number : ℕ) (page : List ℕ) (node : Node)
        → 1 ≤ of.width → of.width ≤ 120 → number < 2 ^ 32
        → IsNodePage of number page node → Spells page (view_of of number node) }
{}
