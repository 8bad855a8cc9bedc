//! Buckets that grow: pairs of a hash and a name, found by the hash.
#![tactic(auto)]

mod buckets;
mod linked;
mod placing;
mod size;
mod walk;

pub use buckets::Buckets;
pub use walk::Place;

#[cfg(test)]
mod tests;
