//! Open transactions: where their changes stand in the log, their save points, and the sums that
//! the rules on room and on the log read.
#![tactic(auto)]

mod laws;
mod noted;
mod open;
mod record;
mod sums;
mod tally;

pub use laws::{
    answers_are_told, lists_stay, names_are_told, sums_are_told, transactions_stay_told,
};
pub use noted::Noted;
pub use open::Open;
pub use sums::Sums;
