//! Tests over the values of tuples as bytes, the keys of images and the pages of the catalog: what no
//! clause says.
#![tactic(auto)]

#[cfg(test)]
mod bytes;
#[cfg(test)]
mod catalogs;
#[cfg(test)]
mod fitting;
#[cfg(test)]
mod harness;
#[cfg(test)]
mod keys;
