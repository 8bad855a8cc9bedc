//! The top call: a script comes in as bytes, and its lines go out as bytes.
#![tactic(auto)]

mod answering;
mod asking;
mod entry;
mod generating;
mod generator;
mod law;
mod line;
mod line_cut;
mod mode;
mod running;
mod saving;
mod start;
mod status;
mod summary;
mod words;

pub use ac_tasks::{FreeGate, Gate};
pub use entry::run;
pub use law::{asked_words, lines_found, one_meaning};
pub use status::Status;
