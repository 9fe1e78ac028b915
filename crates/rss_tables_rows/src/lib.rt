//! Tests over the three tables in memory: locks, open transactions and scans.
#![tactic(auto)]

#[cfg(test)]
mod harness;
#[cfg(test)]
mod locking;
#[cfg(test)]
mod opening;
#[cfg(test)]
mod scanning;
