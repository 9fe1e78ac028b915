//! What waits: which transaction waits for which, the cycles that waits close, and the lines that have no answer yet.
#![tactic(auto)]

mod cycle;
mod held;
mod held_lines;
mod queue;
mod wait;
mod waits;
mod walking;

pub use cycle::{CYCLE_MOST, Cycle};
pub use held::Held;
pub use held_lines::HeldLines;
pub use wait::Wait;
pub use waits::{OPEN_MOST, Waits};
