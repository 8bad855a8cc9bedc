//! Saved states: plain values of the outermost variables and objects as text.
#![tactic(auto)]

mod entry_reader;
mod entry_test;
mod fault;
mod fill_law;
mod fill_tree_law;
mod key_set;
mod kinds;
mod law;
mod memory;
mod row_reader;
mod row_test;
mod state_reader;
mod value_reader;
mod value_test;
mod writing;

pub use fault::StateFault;
pub use fill_law::objects_fill;
pub use fill_tree_law::trees_fill;
pub use law::{
    behind_in_parts, keys_decided, lists_as_printed, one_reading, reading_examples, rows_stand,
    states_read, tests_decide, text_examples, validity_examples, values_read,
};
pub use memory::values_in_memory;
pub use state_reader::read_state;
pub use writing::{append_entry, write_state};
