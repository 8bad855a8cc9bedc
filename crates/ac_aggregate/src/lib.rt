//! Questions about the outermost variables and objects: container aggregates (4.3.5) and reductions (4.5.10).
#![tactic(auto)]

mod answering;
mod fault;
mod law;
mod limits;
mod making;
mod names;
mod oper;
mod part;
mod part_reader;
mod question;
mod reserved;
mod scope;
mod settling;
mod sort;
mod sorting;
#[cfg(test)]
mod tests;
mod token_reader;
mod tools;
mod values;
mod valuing;

pub use answering::AskAnswer;
pub use fault::AskFault;
pub use law::{examples, one_question, question_examples, readings, refusal_examples};
pub use question::Question;
pub use values::{Given, Values};
