//! Tests of what no script can reach of the crates that a run is made of: copies, slots, names that are spent, views in code, and parts
//! below the containers. What a script can make is a row of `ac_suite`.
//! They stand here so that no crate of many functions is proved a second time with its tests.
#![tactic(auto)]

#[cfg(test)]
mod chains;
#[cfg(test)]
mod forms;
pub mod laws;
#[cfg(test)]
mod lists;
#[cfg(test)]
mod parses;
#[cfg(test)]
mod pools;
#[cfg(test)]
mod prints;
#[cfg(test)]
mod trees;
#[cfg(test)]
mod values;
#[cfg(test)]
mod vectors;
