//! The roots of a store: their pages, the one that is selected, and the change from one to the
//! other.
#![tactic(auto)]

mod loading;
mod root_page;
mod switching;

pub use loading::load;
pub use root_page::{decode, encode};
pub use switching::switch;
