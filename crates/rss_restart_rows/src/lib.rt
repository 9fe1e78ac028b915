//! Tests over restart: the tables that it leaves, beside those that a log recovers by the definition.
#![tactic(auto)]

#[cfg(test)]
mod chains;
#[cfg(test)]
mod drawn;
#[cfg(test)]
mod logs;
#[cfg(test)]
mod rows;
#[cfg(test)]
mod stores;
