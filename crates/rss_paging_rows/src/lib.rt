//! Tests over the crates of a store's pages, its roots, its map and its shadow map: what no clause
//! says.
#![tactic(auto)]

#[cfg(test)]
mod buffers;
#[cfg(test)]
mod caches;
#[cfg(test)]
mod caller;
#[cfg(test)]
mod copies;
#[cfg(test)]
mod finding;
#[cfg(test)]
mod harness;
#[cfg(test)]
mod maps;
#[cfg(test)]
mod roots;
#[cfg(test)]
mod shadows;
