//! What a store is: the pages that spell the tables of the relation machine, with their log, and the
//! engine over them. `specs/` has the definitions.
#![tactic(auto)]

mod engine;
mod laws;

pub use engine::{CALLS_MOST, Engine};
pub use laws::{
    disk_has_log, logs_tie, openings_tie, restart_of_a_store, stores_have_room, stores_open_once,
    tables_fit,
};
