//! The calls of lists and vectors in scripts, over any type of either.
#![tactic(auto)]

mod fields;
mod list_calls;
mod sequence;
mod sequence_calls;
mod sequence_operations;
mod sequence_rows;
mod vector_calls;

pub use fields::{answer_by_fields, by_fields};
pub use sequence::Sequence;
pub use sequence_operations::{
    operate_list, operate_list_with, operate_vector, operate_vector_with,
};
pub use sequence_rows::SequenceRows;
