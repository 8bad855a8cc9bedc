//! What scripts mean when they run: definitions, in `specs/`. The functions here have empty bodies, and their contracts are
//! worked rows and laws.
#![tactic(auto)]

mod examples;
mod law;
mod limits;

pub use examples::{
    holder_calls, holder_scripts, keyed_calls, keyed_set_scripts, list_calls, list_scripts,
    listings, map_and_set_scripts, meanings, plain_values, propagation, scope_scripts,
    task_scripts, tree_calls, tree_scripts, vector_calls, vector_scripts,
};
pub use law::{
    blocks_have_orders, counts_stay, entries_have_lines, guarded_names_stay, loops_meet_each_name,
    names_fit, numbers_differ, objects_as_declared, objects_stay, refusals_leave,
    replies_read_by_letter, resolved_statements, statements_end, statements_suit, types_hold,
    types_told, values_hold, values_suit,
};
pub use limits::INPUT_LIMIT;
