//! A durable store with the transactions that are open in it: changes by the rules on room and on the
//! log, ways back, ends and checkpoints.
#![tactic(auto)]

mod admitting;
mod bounding;
mod changing;
mod counting;
mod defining;
mod defining_links;
mod ending;
mod filling;
mod going_back;
mod imaging;
mod linking;
mod looking;
mod opening;
mod planning;
mod saving;
mod session;
mod starting;
mod taking;
mod uniques;
mod weighing;

pub use defining::{has_twice, test_fields};
pub use session::Session;
