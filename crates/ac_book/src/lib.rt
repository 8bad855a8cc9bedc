//! The core of a task block, as one value: what its tasks share, how far each is, and the history of the
//! steps that were done, which explains both.
#![tactic(auto)]

mod book;
mod copies;
mod one_queue;
mod prepare;
mod same;
mod step;
mod sum;
mod task;

pub use ac_history::{
    Entry, Reply, Steplist, TaskArg, TaskCode, TaskStep, Turn, begun_alike, every_list_of_turns,
    in_parts, start_stays,
};
pub use book::Book;

#[cfg(test)]
mod tests;
