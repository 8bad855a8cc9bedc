//! The calls of holders in scripts, and what a name that stands for a holder's element reads and writes.
#![tactic(auto)]

mod holder_calls;
mod holder_elements;

pub use holder_calls::{operate_holder, operate_holders};
pub use holder_elements::{plain_element, refused, value, write, write_listing};
