//! What every container call means: definitions in `specs/`, and as code the reasons that are tests of numbers.
//! Functions with empty bodies are laws of the definitions and worked examples, which the check proves.
#![tactic(auto)]

pub mod call_laws;
pub mod common_examples;
pub mod cursor_laws;
mod cursors;
pub mod guards_apart;
pub mod holder_examples;
pub mod keyed_set_examples;
pub mod keyed_validity;
pub mod list_examples;
pub mod map_examples;
pub mod order_examples;
pub mod plain_validity;
pub mod queue_examples;
mod refusals;
pub mod row_laws;
pub mod sequence_examples;
pub mod set_examples;
pub mod tree_examples;
pub mod tree_validity;
pub mod validity;
pub mod vector_examples;

pub use cursors::{cursor_at, cursor_of_first, name_in, place_in};
pub use refusals::{
    allowed, as_fault, count_of, cursor_of, in_range, index_in, judge, limit_of_copy, reason_if,
    room, too_many, too_small,
};
