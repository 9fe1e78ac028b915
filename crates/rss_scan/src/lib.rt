//! Open scans: whose each of them is, what it goes over, and what it gave last.
#![tactic(auto)]

mod cursor;
mod laws;
mod scans;

pub use cursor::{Cursor, Path, Scan};
pub use laws::scans_stay_spelled;
pub use scans::{SCANS_MOST, Scans};
