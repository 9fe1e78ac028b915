//! The lines of a source, each as soon as its end is read.
#![tactic(auto)]

mod lines;
mod piece;
mod unread;

pub use lines::{Lines, SCRIPT_BYTES};
pub use piece::end_of_line;
pub use unread::Unread;
