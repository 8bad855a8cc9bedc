//! What a declared name stands for.
ghost use Rattle.std.specs.Prelude.{◌≡◌, IfOk};
ghost use Rattle.std.specs.Option.{option_map};
ghost use Rattle.ac_rules.specs.Scopes as scopes;
ghost use Rattle.ac_rules.specs.Scopes.{an_object, entry, decl_entry, loop_on, view_on};
ghost use Rattle.ac_rules.specs.Faults.{decl_name};
ghost use Rattle.ac_check.specs.Meanings.{meaning_view};

use crate::kinds::{element_of, is_set};
use crate::meaning::Meaning;
use crate::scope::Scope;
use ac_base::NoMemory;
use ac_syntax::{Decl, ElemKind, Ident, TypeDef, ViewKind};
use std::alloc::Global;

fn is_written_in(view: ViewKind) -> bool
    ensures { result ≡ scopes.is_written_in view }
{
    !matches!(view, ViewKind::Query)
}

fn object_meaning(scope: &Scope, of: &Ident) -> Result<Option<Meaning>, NoMemory>
    ensures { IfOk result (λ m. option_map meaning_view m ≡ option_map (an_object of.now) (scopes.type_of scope.now of.now)) }
{
    match scope.meaning(of.bytes()) {
        Some(Meaning::Type(def)) => Ok(Some(Meaning::Object {
            of: of.copy(scope.alloc())?,
            def: *def,
        })),
        _ => Ok(None),
    }
}

/// What a declaration's name stands for, unless it is of a type that isn't in scope.
pub fn decl_meaning(scope: &Scope, decl: &Decl) -> Result<Option<Meaning>, NoMemory>
    ensures { IfOk result (λ m. option_map (entry (decl_name decl.now)) (option_map meaning_view m) ≡ decl_entry scope.now decl.now) }
{
    match decl {
        Decl::TypeDecl { def, .. } => Ok(Some(Meaning::Type(*def))),
        Decl::Object { of, .. } => object_meaning(scope, of),
        Decl::CursorVar { of, .. } => Ok(Some(Meaning::Cursor {
            of: of.copy(scope.alloc())?,
            is_variable: true,
        })),
        Decl::IntVar { .. } => Ok(Some(Meaning::Value {
            elem: ElemKind::Integer,
            is_written: true,
        })),
        Decl::TextVar { .. } => Ok(Some(Meaning::Value {
            elem: ElemKind::Str,
            is_written: true,
        })),
    }
}

fn turn_meaning(
    alloc: Global,
    elements: bool,
    of: &Ident,
    def: TypeDef,
) -> Result<Meaning, NoMemory>
    ensures { IfOk result (λ m. meaning_view m ≡ scopes.loop_meaning elements (record { type = of.now; def = def })) }
{
    if elements {
        Ok(Meaning::Value {
            elem: element_of(def),
            is_written: !is_set(def.kind),
        })
    } else {
        Ok(Meaning::Cursor {
            of: of.copy(alloc)?,
            is_variable: false,
        })
    }
}

/// What the name of a loop over an object stands for, if there is such an object.
pub fn loop_meaning(
    scope: &Scope,
    elements: bool,
    object: &Ident,
) -> Result<Option<Meaning>, NoMemory>
    ensures { IfOk result (λ m. option_map meaning_view m ≡ loop_on scope.now elements object.now) }
{
    match scope.meaning(object.bytes()) {
        Some(Meaning::Object { of, def }) => {
            Ok(Some(turn_meaning(scope.alloc(), elements, of, *def)?))
        }
        _ => Ok(None),
    }
}

/// What the name of a view of an object's element stands for, if there is such an object.
pub fn view_meaning(scope: &Scope, view: ViewKind, object: &Ident) -> Option<Meaning>
    ensures { option_map meaning_view result ≡ view_on scope.now view object.now }
{
    match scope.meaning(object.bytes()) {
        Some(Meaning::Object { def, .. }) => Some(Meaning::Value {
            elem: element_of(*def),
            is_written: is_written_in(view),
        }),
        _ => None,
    }
}
