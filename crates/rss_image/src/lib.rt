//! Ordered images: trees of nodes over pages.
#![tactic(auto)]

mod checking;
mod emptying;
mod evening;
mod fitting;
mod growing;
mod halving;
mod image;
mod inserting;
mod laws;
mod marks;
mod removing;
mod rooting;
mod seeking;
mod store;

pub use checking::Census;
pub use image::Image;
pub use marks::is_marked;
