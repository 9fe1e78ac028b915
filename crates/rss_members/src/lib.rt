//! Tuples in the links that a catalog lists.
#![tactic(auto)]

mod changing;
mod finding;
mod laws;
mod membership;
mod places;
mod reading;
mod testing;

pub use changing::{connect, disconnect};
pub use finding::connected;
pub use laws::{blank_prefixes, blocks_lie_apart, links_are_spelled, spelled_again};
pub use membership::Membership;
pub use places::{FRONT_BYTES, Front, chains_of, prefix_len, push_blank_prefix};
pub use reading::{
    first_of, has_chain, is_there, last_of, next_member, parent_of, place_of, stands, stands_under,
};
