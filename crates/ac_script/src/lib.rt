//! Scripts from their texts, and back: what `ac_syntax` defines is read and written here.
#![tactic(auto)]

mod argument;
mod build;
mod command;
mod cut_text;
mod declaration;
mod handler;
mod head;
mod item;
mod item_reader;
mod keyword;
mod law;
mod limits;
mod names;
mod parser;
mod piece;
mod reader;
mod reading;
mod stage;
mod stop;

pub use ac_printer::{append_literal, append_quoted, print};
pub use ac_syntax::{
    Arg, Args, Decl, Decls, ElemKind, Handler, Handlers, Ident, Idents, Kind, RefusalKind, Script,
    ScriptFault, Stmt, Stmts, TaskText, TaskTexts, TypeDef, ViewKind,
};
pub use cut_text::{CutText, cut};
pub use law::{each_text, items_read, one_script, refused_handlers, refused_tasks, refused_texts};
pub use parser::parse;
pub use reader::{find_mark, find_number, find_word};
