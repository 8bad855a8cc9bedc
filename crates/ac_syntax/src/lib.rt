//! A script as a value: its types, and what its texts, its tokens and its canonical text are.
#![tactic(auto)]

mod arg;
mod closing;
mod decl;
mod fault;
mod ident;
mod kind;
mod law;
mod operation;
mod piece;
mod refusal;
mod script;
mod stmt;
mod string_bytes;
mod token;
mod type_def;
mod view_kind;

pub use arg::{Arg, Args};
pub use closing::Closing;
pub use decl::{Decl, Decls};
pub use fault::ScriptFault;
pub use ident::{Ident, Idents};
pub use kind::{ElemKind, Kind};
pub use law::{
    blanks, examples, forms, further_marks, handler_limits, handlers, items_alone, items_order,
    marks, one_refusal, pragma_words, refusals, round_trip, task_limits, tasks, well_formed, words,
};
pub use operation::{
    CapacityCall, CommonCall, HolderCall, KeyedCall, ListCall, MapCall, Operation, OrderedCall,
    OrderedMapCall, OrderedSetCall, QueueCall, SequenceCall, SetCall, SetPairCall, TreeCall,
    TreeChangeCall, VectorCall, WalkCall,
};
pub use piece::Piece;
pub use refusal::RefusalKind;
pub use script::Script;
pub use stmt::{Handler, Handlers, Stmt, Stmts, TaskText, TaskTexts};
pub use string_bytes::StringBytes;
pub use token::{Keyword, Mark, Placed, Token};
pub use type_def::TypeDef;
pub use view_kind::ViewKind;
