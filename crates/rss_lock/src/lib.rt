//! The locks of transactions: who holds which item in which mode, and who bars whom.
#![tactic(auto)]

mod locks;
mod modes;
mod places;

pub use locks::Locks;
pub use places::HOLDERS_MOST;
