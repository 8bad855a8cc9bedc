//! Doubly linked lists (A.18.3): elements in an order that the program makes, each under a name that it keeps, with tampering checks.
#![tactic(auto)]

mod list;

pub use list::List;
