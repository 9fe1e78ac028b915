//! Tests over tuples by their identifiers: what no clause says.
#![tactic(auto)]

#[cfg(test)]
mod calls;
#[cfg(test)]
mod changes;
#[cfg(test)]
mod checking;
#[cfg(test)]
mod damaged;
#[cfg(test)]
mod identifiers;
#[cfg(test)]
mod plain;
