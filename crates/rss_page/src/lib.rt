//! Slotted pages: a directory of 128 entries and the bodies that it names, in one page.
#![tactic(auto)]

mod checked;
mod directory;
mod editing;
mod entry_form;
mod form;
mod marks;
mod surveying;

pub use checked::{bytes_at, checked_entry};
pub use directory::{body, entry};
pub use editing::{compact, forward_at, overwrite, own_place, put_at, put_found, remove};
pub use entry_form::{ENTRIES, Entry};
pub use form::{blank, has_header, survey};
pub use surveying::Survey;
