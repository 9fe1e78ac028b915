//! The relation machine as a slow, plain program over lists: which calls are refused, and what
//! the others do.
#![tactic(auto)]

mod changes;
mod contents;
mod defining;
mod definitions;
mod freeing;
mod images;
mod items;
mod judging;
mod keys;
mod links;
mod locking;
mod places;
mod plain;
mod refusals;
mod scans;
mod sorted;
mod transactions;

pub use plain::Plain;
