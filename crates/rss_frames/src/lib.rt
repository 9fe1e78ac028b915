//! Pages in memory, by the recency of their use. All memory is taken by `Frames::new`.
#![tactic(auto)]

mod block;
mod frames;
mod key_table;
mod pairs;
mod parts;
mod recency;
mod rows;

pub use frames::Frames;
pub use pairs::TwoPages;
