//! Tests over images: what no clause says.
#![tactic(auto)]

#[cfg(test)]
mod against;
#[cfg(test)]
mod calls;
#[cfg(test)]
mod pairs;
#[cfg(test)]
mod tested;
#[cfg(test)]
mod watched;
#[cfg(test)]
mod widths;
