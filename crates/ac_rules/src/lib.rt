//! The rules that a script keeps: names in scope, types, the table of calls, and what a script is resolved to. These are definitions, in
//! `specs/`, with the types that they speak of; the other functions have empty bodies, and their contracts are worked rows and laws.
#![tactic(auto)]

mod examples;
mod law;
mod limits;
mod resolved;
mod rows;

pub use examples::{
    block_examples, command_examples, declaration_examples, handler_examples, operation_examples,
    resolved_examples, task_examples,
};
pub use law::{each_script, one_fault, one_row, places, rules_kept};
pub use limits::{MOST_NAMES, MOST_ROOM};
pub use resolved::{
    ResolvedArg, ResolvedArgs, ResolvedDecl, ResolvedDecls, ResolvedHandler, ResolvedHandlers,
    ResolvedStmt, ResolvedStmts, ResolvedTask, ResolvedTasks,
};
pub use rows::{Answer, Letter};
