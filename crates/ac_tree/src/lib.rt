//! Multiway trees (A.18.10): elements in nodes that have any number of children, each under a name that it keeps, with tampering checks.
#![tactic(auto)]

mod backward;
mod clearing;
mod comparing;
mod copying;
mod counts;
mod finding;
mod grafting;
mod growing;
mod links;
mod preorder;
mod reparenting;
mod tree;

#[doc(hidden)]
pub use links::{Links, NodeLinks, TreeNode};
pub use tree::Tree;
