//! The words of the command line, and what they ask for.
#![tactic(auto)]

mod command;
mod good;
mod naming;
mod parsing;
mod task;

pub use command::{Command, read_command};
pub use naming::{file_word, format_sizes};
pub use task::Task;
