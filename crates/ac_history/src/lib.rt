//! What the tasks of a block do, step by step, and which histories of it are legal: types, definitions and their laws.
//! Functions with empty bodies are laws of the definitions and worked examples, which the check proves.
#![tactic(auto)]

mod code;
mod entry;
pub mod examples;
mod law;

pub use code::{Steplist, TaskArg, TaskCode, TaskStep};
pub use entry::{Entry, Reply, Turn};
pub use law::{begun_alike, every_list_of_turns, in_parts, orders_and_histories, start_stays};
