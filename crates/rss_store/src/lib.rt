//! A durable store: pages with tuples, a catalog, a log and a root together, and what a stop leaves
//! of them.
#![tactic(auto)]

mod appending;
mod changing;
mod committing;
mod counting;
mod formatting;
mod opening;
mod rooms;
mod store;
mod writing;

pub use formatting::format;
pub use opening::open;
pub use store::DurableStore;
