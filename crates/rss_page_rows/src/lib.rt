//! Tests over slotted pages, and over numbers that are found by their size: what no clause says.
#![tactic(auto)]

#[cfg(test)]
mod malformed;
#[cfg(test)]
mod maxima;
#[cfg(test)]
mod pages;
#[cfg(test)]
mod plain;
#[cfg(test)]
mod slotted;
