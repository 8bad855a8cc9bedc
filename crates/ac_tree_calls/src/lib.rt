//! The calls of multiway trees in scripts, over any tree.
#![tactic(auto)]

mod tree_calls;
mod tree_rows;

pub use tree_rows::{TreeRow, TreeRows};
