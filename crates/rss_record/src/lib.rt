//! The records of the log as bytes, both ways.
//!
//! The bytes of a record are one function of it, `record_bytes`, which both directions cite.
#![tactic(auto)]

mod fields;
mod kinds;
mod laws;
mod reading;
mod writing;

pub use laws::prefix_free;
pub use reading::read_record;
pub use writing::{RECORD_BYTES, RecordBytes, write_record};
