//! The catalog of a store: what is defined, by numbers, in the pages of the system space.
#![tactic(auto)]

mod catalog;
mod checking;
mod decoding;
mod encoding;
mod entries;
mod loading;

pub use catalog::{Catalog, Loaded, image_page_of};
