// The nodes of an image.
ghost use Rattle.std.specs.Prelude.{◌≡◌};
ghost use Rattle.rss_base.specs.Nodes.{node_most};

use crate::PAGE_BYTES;

/// How many bytes the header of a node has.
pub const NODE_HEADER: usize = 32;

/// How many bytes an entry of a node has beside its key.
pub const NODE_ENTRY_BYTES: usize = 10;

/// How many entries a node has at most, for keys of this width.
pub fn node_most(width: u8) -> usize
    ensures { result ≡ node_most width }
{
    (PAGE_BYTES - NODE_HEADER) / (usize::from(width) + NODE_ENTRY_BYTES)
}
