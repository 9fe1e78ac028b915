//! The top call: a script run over the store of a device, a device made a store, a script generated,
//! or one generated, run and its replies counted.
#![tactic(auto)]

mod counting;
mod driving;
mod ending;
mod generated;
mod generating;
mod heard;
mod hearing;
mod line;
mod making;
mod running;
mod script;
mod scripted;
mod status;
mod telling;
mod trial;
mod unread;
mod writing;

pub use ending::exit_code;
pub use line::line as run_line;
pub use running::run;
pub use status::Status;
