//! A store of segments and relations, whose tuples stand in the pages of a device: how it is made,
//! opened and called.
#![tactic(auto)]

mod accessors;
mod changing;
mod choosing;
mod definitions;
mod deleting;
mod engine;
mod fetching;
mod images;
mod inserting;
mod keys;
mod link_locks;
mod linked;
mod linking;
mod locking;
mod looking;
mod opening;
mod scanning;
mod transactions;
mod updating;
mod values;

pub use engine::Rss;
pub use opening::open;
pub use rss_buffer::{LEAST_FRAMES, MOST_FRAMES};
pub use rss_store::format;
