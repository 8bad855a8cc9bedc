//! Ordered maps (A.18.6) and sets (A.18.9): the calls of maps and sets over rows that ascend by their keys, as a balanced tree.
#![tactic(auto)]

mod ascending;
mod changes;
mod map;
mod ranked;
mod set;
mod sorted;

pub use ascending::Ascending;
pub use map::OrderedMap;
pub use set::OrderedSet;
