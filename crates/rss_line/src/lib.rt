//! The lines of a script: reads the call that a line spells, and writes the line of an answer.
#![tactic(auto)]

mod calls;
mod decimal;
mod definitions;
mod drawing;
mod fault;
mod field;
mod generating;
mod items;
mod laws;
mod links;
mod name;
mod names;
mod number;
mod owning;
mod reader;
mod reading;
mod saying;
mod scans;
mod transactions;
mod tuples;
mod value_text;
mod values;
mod word;

pub use fault::LineFault;
pub use generating::{MOST_EMPLOYEES, count_generated, generate};
pub use laws::lines_spell_once;
pub use name::read_name;
pub use names::Names;
pub use number::read_number;
pub use owning::owner;
pub use reading::{LINE_LIMIT, Line, read_line};
pub use saying::{say, say_damaged, say_not_a_store};
