//! The pages of a store over a device: kept in memory by the recency of their use, written to slots
//! that no saved page has, and saved all together.
#![tactic(auto)]

mod buffer;
mod pages;
mod run;
mod saving;
mod stage;

pub use buffer::{Buffer, LEAST_FRAMES, MOST_FRAMES};
pub use saving::Saving;
pub use stage::Stage;
