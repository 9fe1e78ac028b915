//! The relation machine: what a store is to do, with no pages, maps or log. `specs/` has the
//! definitions.
#![tactic(auto)]

mod laws;

pub use laws::{
    exact_rule, free_identifiers, joined_locks, kept_tables, pages_are_spare, records_fit,
    restart_recovers, room_is_kept, room_rule, rooms_are_kept, runs_are_serial, sessions_have_room,
    steps_keep, tables_of_now, ties_are_kept, ties_recover, undo_turns_back, ways_back_succeed,
    what_commits,
};
