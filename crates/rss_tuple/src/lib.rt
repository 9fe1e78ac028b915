//! A tuple store over pages: a finite map from the identifiers of a segment to bodies.
#![tactic(auto)]

mod body_at;
mod checking;
mod choosing;
mod entries;
mod finding;
mod flaw;
mod keys;
mod placing;
mod reading;
mod store;
mod tuples;
mod walking;

pub use body_at::BodyAt;
pub use checking::{Visitor, check};
pub use flaw::Flaw;
pub use store::Store;
pub use tuples::Tuples;
