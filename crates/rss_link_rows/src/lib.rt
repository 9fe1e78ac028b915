//! Tests over links: what no clause says.
#![tactic(auto)]

#[cfg(test)]
mod calls;
#[cfg(test)]
mod chains;
#[cfg(test)]
mod checked;
#[cfg(test)]
mod damaged;
#[cfg(test)]
mod links;
#[cfg(test)]
mod shown;
#[cfg(test)]
mod untold;
