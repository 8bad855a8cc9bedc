//! Tests of what no script can reach of maps and sets: copies, slots, views in code, updates begun in code, and the ordered index below
//! them. What a script can make is a row of `ac_suite`.
#![tactic(auto)]

#[cfg(test)]
mod balance;
#[cfg(test)]
mod hashed;
#[cfg(test)]
mod keyed_sets;
pub mod laws;
#[cfg(test)]
mod ordered;
#[cfg(test)]
mod views;
