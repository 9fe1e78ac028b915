//! Tests over the crates of the log: the bytes of its records, and its ring over a device.
#![tactic(auto)]

#[cfg(test)]
mod harness;
#[cfg(test)]
mod logs;
#[cfg(test)]
mod records;
