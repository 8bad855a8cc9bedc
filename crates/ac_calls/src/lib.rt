//! The calls of a script, whatever they are made on: their arguments, their replies, the elements that values become, and the calls that all
//! kinds of objects with rows have.
#![tactic(auto)]

mod argument;
mod calling;
mod capacity_calls;
mod commas;
mod common_calls;
mod element;
mod frame;
mod listing;
mod literal;
mod operated_rows;
mod plain_copies;
mod plains;
mod reply;
pub mod row_cursors;
mod row_object;
pub mod values;

pub use argument::{Argument, Arguments};
pub use calling::{call_own, call_two, element_in, write_in};
pub use capacity_calls::{WithCapacity, capacity_call};
pub use commas::comma;
pub use common_calls::{CommonRows, common_call, common_call_with};
pub use element::ScriptElement;
pub use frame::Frame;
pub use listing::write_rows;
pub use operated_rows::OperatedRows;
pub use plain_copies::{element_row, entry_row, plain_rows, tree_row};
pub use plains::{Plain, PlainRow, PlainRows, Plains};
pub use reply::{Placed, Reply, Said, say};
pub use row_object::{ListedRows, RowObject};
