//! Tuples of relations in pages: what a change of one of them does there.
#![tactic(auto)]

mod applying;
mod bodies;
mod chains;
mod checking;
mod edit;
mod filling;
mod imaging;
mod moving;
mod rooms;
mod trees;
mod tuples;

pub use applying::{apply, undo};
pub use bodies::{made_into, made_of, spelled_in};
pub use checking::{check_image, check_rows};
pub use edit::TUPLES_MOST;
pub use filling::{entries_of, repeated};
pub use imaging::{find_owner, next_entry};
pub use rooms::image_bound;
pub use trees::{fill_image, take_image};
pub use tuples::{delete, find, find_next, update};
