//! What tests have in common: assertions, each of which says of a case what was found in place of
//! what was wanted, and numbers that look random. Also devices and pages in memory, with calls that
//! fail, with bytes turned, stopped at any moment, and with contents of which proofs know nothing.
#![tactic(auto)]

mod asserts;
mod draws;
mod images;
mod pages;
mod untold;

pub use asserts::{assert_other, assert_same, assert_same_slices, assert_some};
pub use draws::Draws;
pub use images::{UNSYNCED, copy_of_pages, failing_at, image_at};
pub use pages::{filled_pages, turn};
pub use untold::Untold;
