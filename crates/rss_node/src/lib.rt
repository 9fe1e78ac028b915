//! Nodes as pages: their entries, read and edited in place.
#![tactic(auto)]

mod bytes;
mod keyed;
mod laws;
mod node;
mod order;
mod pair;

pub use keyed::{pair_of, split_pair};
pub use laws::{pages_are_node_pages, pairs_are_ordered};
pub use node::{LentNode, Node};
pub use order::compare_bytes;
pub use pair::{NO_PAGE, Nodes, PAIR_BYTES, Pair};
