//! Tests of whole runs: worked scripts, refused ones, and how a run ends.
//! They stand here so that no crate of many functions is proved a second time with its tests.
#![tactic(auto)]

#[cfg(test)]
mod devices;
#[cfg(test)]
mod handlers;
#[cfg(test)]
mod holders;
#[cfg(test)]
mod key_updates;
#[cfg(test)]
mod keyed;
#[cfg(test)]
mod keyed_sets;
#[cfg(test)]
mod long;
#[cfg(test)]
mod maps;
#[cfg(test)]
mod outcome;
#[cfg(test)]
mod prefixes;
#[cfg(test)]
mod questions;
#[cfg(test)]
mod queues;
#[cfg(test)]
mod refusals;
#[cfg(test)]
mod rows;
#[cfg(test)]
mod runs;
#[cfg(test)]
mod sets;
#[cfg(test)]
mod states;
#[cfg(test)]
mod tasks;
#[cfg(test)]
mod trees;
#[cfg(test)]
mod two_sets;
#[cfg(test)]
mod vectors;
#[cfg(test)]
mod words;
