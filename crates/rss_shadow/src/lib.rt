//! The two maps of a store, the current one and its shadow, and the slots that neither uses.
#![tactic(auto)]

mod column;
mod index;
mod numbers;
mod shadow;

pub use shadow::Shadow;
