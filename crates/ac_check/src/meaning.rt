//! What names stand for.

use ac_syntax::{ElemKind, Ident, TypeDef};

/// What a name in scope stands for.
#[derive(Drop)]
pub enum Meaning {
    Type(TypeDef),
    /// An object of the type with this name.
    Object { of: Ident, def: TypeDef },
    /// A cursor of the type with this name: a variable, or what a loop gives.
    Cursor { of: Ident, is_variable: bool },
    /// A variable, or a view of an element.
    Value { elem: ElemKind, is_written: bool },
    /// A task of a block.
    Task,
}
