//! A chain: values in a row under names, each linked with the one before and the one after it, in the slots of a pool.
//! Beside its calls stand those that put, take out, move, sort, merge and look for many values, and what is asked of a tree.
#![tactic(auto)]

pub mod calls;
mod chain;
mod cut;
mod links;
mod list_like;
mod merge;
mod put;
mod refilling;
mod search;
mod sequence_like;
mod sort;
mod transfer;
mod tree_like;
mod vector_like;
mod walked;

pub use chain::Chain;
pub use cut::{remove_from, remove_last};
#[doc(hidden)]
pub use links::{Links, Node};
pub use list_like::ListLike;
pub use merge::merge_all;
pub use put::{copies, put_copies, put_each};
pub use refilling::refill;
pub use search::{are_equal, end_of, found_back, found_from, is_ascending, start_of};
pub use sequence_like::SequenceLike;
pub use sort::sorted_names;
pub use transfer::{move_all, move_before, move_one};
pub use tree_like::{EditedTree, TreeLike};
pub use vector_like::VectorLike;
pub use walked::Walked;
