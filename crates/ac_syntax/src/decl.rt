ghost use Rattle.std.specs.Prelude.{◌≡◌};

use crate::ident::Ident;
use crate::type_def::TypeDef;
use std::marker::Model;

/// A declaration, with the line of its first token.
#[derive(Drop)]
pub enum Decl {
    TypeDecl {
        line: u64,
        name: Ident,
        def: TypeDef,
    },
    Object {
        line: u64,
        name: Ident,
        of: Ident,
        capacity: Option<u64>,
    },
    CursorVar {
        line: u64,
        name: Ident,
        of: Ident,
    },
    IntVar {
        line: u64,
        name: Ident,
    },
    TextVar {
        line: u64,
        name: Ident,
    },
}

/// Declarations in order.
#[derive(Drop)]
pub struct Decls {
    items: Vec<Decl>,
}

impl Model for Decls {
    ghost use Rattle.std.specs.Prelude.{List};
    ghost use Rattle.ac_syntax.specs.declared.decl.Decl.{Decl};

    ghost Value = { List Decl };

    ghost view = { λ decls. decls.items.items };
}

impl Decls {
    pub fn from_vec(items: Vec<Decl>) -> Decls
        ensures { result ≡ items.items }
    {
        Decls { items }
    }

    pub fn items(&self) -> &[Decl]
        ensures { result.now ≡ self.now }
    {
        &self.items
    }
}
