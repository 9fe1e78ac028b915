//! Tests over the crates of the store: what no clause says.
#![tactic(auto)]

#[cfg(test)]
mod adapters;
#[cfg(test)]
mod call_faults;
#[cfg(test)]
mod changes;
#[cfg(test)]
mod defining;
#[cfg(test)]
mod engines;
#[cfg(test)]
mod far_log;
#[cfg(test)]
mod file_faults;
#[cfg(test)]
mod formats;
#[cfg(test)]
mod generating;
#[cfg(test)]
mod harness;
#[cfg(test)]
mod holders;
#[cfg(test)]
mod lines;
#[cfg(test)]
mod long_chain;
#[cfg(test)]
mod many;
#[cfg(test)]
mod owners;
#[cfg(test)]
mod paged_replies;
#[cfg(test)]
mod ring;
#[cfg(test)]
mod statuses;
#[cfg(test)]
mod stops;
#[cfg(test)]
mod talking;
#[cfg(test)]
mod texts;
#[cfg(test)]
mod trials;
#[cfg(test)]
mod variables;
