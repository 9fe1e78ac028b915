//! The log: a list of records by position, kept in memory in a ring of the pieces that a store's
//! log pages and its root can hold.
#![tactic(auto)]

mod laws;
mod log;
mod ring;

pub use laws::{listed_records_stand, next_log_follows, old_log_stays, pieces_grow, spelled_once};
pub use log::Log;
