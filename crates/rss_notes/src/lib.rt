//! Notes on pages: numbers that a caller puts on mapped pages, so that it finds the next page that
//! may do without looking at each of them. And numbers, of which it finds the first that is great
//! enough.
#![tactic(auto)]

mod marks;
mod maxima;
mod notes;

pub use maxima::{Maxima, NUMBERS_MOST};
pub use notes::Notes;
