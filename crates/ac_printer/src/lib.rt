//! Scripts as their canonical texts, which `ac_syntax` defines, are written here, and the words of scripts are told.
#![tactic(auto)]

mod block;
mod command;
mod declaration;
mod literal;
mod mark;
mod page;
mod reserved;
mod script;
mod words;

pub use literal::{append_literal, append_quoted};
pub use reserved::{is_among, is_reserved};
pub use script::print;
pub use words::{elem_word, kind_word};
