//! The checks that a script passes before it runs, by the rules of `ac_rules`: its names and its types.
#![tactic(auto)]

mod block;
mod call;
mod checked;
mod entry;
mod faults;
mod given;
mod having;
mod kinds;
mod meaning;
mod resolve;
mod rules;
mod scope;
mod table;
mod walk;

pub use checked::{Checked, check};
pub use table::{Row, rows_of};
