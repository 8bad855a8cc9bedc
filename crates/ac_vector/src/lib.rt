//! Vectors (A.18.2): elements in order, each under a name that follows it, with tampering checks.
#![tactic(auto)]

mod array;
mod growth;
mod moving;
mod places;
mod put;
mod refilling;
mod turning;
mod vector;
mod weaving;

pub use vector::Vector;
