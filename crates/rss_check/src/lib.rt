//! A look through the layout and the pages of a store, and the first place at which pages are no
//! store.
#![tactic(auto)]

mod checking;
mod laws;
mod marking;
mod reading;

pub use checking::look_through;
pub use laws::faults_are_first;
pub use reading::{Layout, read_layout};
