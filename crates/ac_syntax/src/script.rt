use crate::decl::Decls;
use crate::stmt::Stmts;

/// A script: its outermost declarations, and then its statements.
#[derive(Drop)]
pub struct Script {
    /// The line of `pragma Propagate;`, where the script begins with it: its exceptions propagate.
    pub pragma: Option<u64>,
    pub decls: Decls,
    pub stmts: Stmts,
}
