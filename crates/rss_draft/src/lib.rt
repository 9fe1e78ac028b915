//! What the items of changes hold, kept beside the tables that pages spell. `specs/` has the
//! definitions.
#![tactic(auto)]

mod chains;
mod draft;
mod finding;
mod fit;
mod free;
mod keys;
mod laws;
mod linked;
mod lists;
mod lone;
mod places;
mod reading;
mod tuples;

pub use draft::{Draft, ImageKey, Standing};
pub use finding::{finds, turned};
pub use fit::fits;
pub use laws::{changes_keep_fit, drafts_follow, lookups_follow};
