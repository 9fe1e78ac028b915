//! Restart: the pages of a store, which have the tables of its last checkpoint, brought to the
//! tables that its log recovers.
#![tactic(auto)]

mod laws;
mod restarting;
mod survey;

pub use laws::stores_can_restart;
pub use restarting::{change_at, restart};
