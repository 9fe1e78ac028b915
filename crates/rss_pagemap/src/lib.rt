//! The map of a store's slots: a table of their owners, and the two map areas of a device that hold
//! it.
#![tactic(auto)]

mod entry;
mod reading;
mod table;
mod writing;

pub use reading::read_table;
pub use table::SlotTable;
