//! The entries of tuples in the images of their relations.
#![tactic(auto)]

mod building;
mod moving;
mod seeking;

pub use building::build;
pub use moving::{KeyFields, move_entry};
pub use seeking::{find_owner, next_pair};
