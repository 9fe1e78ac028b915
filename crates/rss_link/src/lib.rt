//! Links: chains of tuples whose pointers stand in the bodies of the tuples.
#![tactic(auto)]

mod blocks;
mod bodies;
mod checking;
mod laws;
mod link;
mod linking;
mod reading;

pub use laws::{
    blocks_matter_alone, comes_outside, goes_outside, other_links_stay, pointers_are_spelled,
    spelled_by_blocks, spelled_once,
};
pub use link::{Chains, Ends, Relations};
