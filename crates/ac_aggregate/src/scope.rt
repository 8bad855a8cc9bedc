//! The outermost names of a script.
ghost use Rattle.std.specs.Prelude.{◌≡◌, ◌++◌, [], IfOk, OnOk};
ghost use Rattle.std.specs.Option.{option_map};
ghost use Rattle.ac_syntax.specs.Kinds as kinds;
ghost use Rattle.ac_rules.specs.Faults as faults;
ghost use Rattle.ac_rules.specs.Scopes as scopes;
ghost use Rattle.ac_rules.specs.Scopes.{meaning_in, decl_entry, with_entry, with_decls};
ghost use Rattle.ac_aggregate.specs.Names as sorts;
ghost use Rattle.ac_aggregate.specs.Entries.{meaning_view, entry_view, entries_view};

use ac_base::NoMemory;
use ac_syntax::{Decl, ElemKind, Ident, Kind, TypeDef};
use std::alloc::Global;

/// What an outermost name stands for.
#[derive(Clone, Copy)]
pub enum Meaning<'a> {
    Type(TypeDef),
    /// An object of the type with this name.
    Object(&'a Ident, TypeDef),
    /// A cursor variable of the type with this name.
    Cursor(&'a Ident),
    /// An integer or a string variable.
    Variable(ElemKind),
}

/// An outermost name.
#[derive(Clone, Copy)]
pub struct Entry<'a> {
    pub name: &'a Ident,
    pub meaning: Meaning<'a>,
}

/// What the first entry of the name stands for, if there is one.
pub fn look_up<'a>(names: &[Entry<'a>], name: &[u8]) -> Option<Meaning<'a>>
    ensures { option_map meaning_view result ≡ meaning_in (entries_view names.now) name.now }
{
    for entry in names {
        if entry.name.bytes() == name {
            return Some(entry.meaning);
        }
    }
    None
}

fn type_of(names: &[Entry<'_>], name: &[u8]) -> Option<TypeDef>
    ensures { result ≡ scopes.type_of (entries_view names.now) name.now }
{
    match look_up(names, name) {
        Some(Meaning::Type(def)) => Some(def),
        _ => None,
    }
}

/// An object where its type is declared.
fn object_entry<'a>(names: &[Entry<'a>], name: &'a Ident, of: &'a Ident) -> Option<Entry<'a>>
    ensures { option_map entry_view result
        ≡ option_map (scopes.entry name.now) (option_map (scopes.an_object of.now) (scopes.type_of (entries_view names.now) of.now)) }
{
    match type_of(names, of.bytes()) {
        Some(def) => Some(Entry {
            name,
            meaning: Meaning::Object(of, def),
        }),
        None => None,
    }
}

/// What a declaration's name stands for behind these names.
fn decl_meaning<'a>(names: &[Entry<'a>], decl: &'a Decl) -> Option<Entry<'a>>
    ensures { option_map entry_view result ≡ decl_entry (entries_view names.now) decl.now }
{
    match decl {
        Decl::TypeDecl { name, def, .. } => Some(Entry {
            name,
            meaning: Meaning::Type(*def),
        }),
        Decl::Object { name, of, .. } => object_entry(names, name, of),
        Decl::CursorVar { name, of, .. } => Some(Entry {
            name,
            meaning: Meaning::Cursor(of),
        }),
        Decl::IntVar { name, .. } => Some(Entry {
            name,
            meaning: Meaning::Variable(ElemKind::Integer),
        }),
        Decl::TextVar { name, .. } => Some(Entry {
            name,
            meaning: Meaning::Variable(ElemKind::Str),
        }),
    }
}

/// Takes in one name more, where there is one.
fn note<'a>(names: &mut Vec<Entry<'a>>, entry: Option<Entry<'a>>) -> Result<(), NoMemory>
    ensures { OnOk result (entries_view names.new.items ≡ with_entry (entries_view names.old.items) (option_map entry_view entry.entry)) }
{
    match entry {
        None => Ok(()),
        Some(entry) => Ok(names.push(entry)?),
    }
}

/// The outermost names of these declarations.
pub fn outermost<'a>(alloc: Global, decls: &'a [Decl]) -> Result<Vec<Entry<'a>>, NoMemory>
    ensures { IfOk result (λ made. entries_view made.items ≡ with_decls [] decls.now) }
{
    let mut names = Vec::new(alloc);
    for decl in decls {
        let entry = decl_meaning(&names, decl);
        note(&mut names, entry)?;
    }
    Ok(names)
}

/// Whether a name is an outermost one.
pub fn is_in_scope(names: &[Entry<'_>], name: &[u8]) -> bool
    ensures { result ≡ faults.is_in_scope (entries_view names.now) name.now }
{
    look_up(names, name).is_some()
}

fn has_cursors(kind: Kind) -> bool
    ensures { result ≡ kinds.has_cursors kind }
{
    !matches!(kind, Kind::Holder | Kind::Queue | Kind::PriorityQueue)
}

fn element_of(def: TypeDef) -> ElemKind
    ensures { result ≡ scopes.element_of def }
{
    match def.second {
        Some(second) => second,
        None => def.first,
    }
}

/// The type of an integer or a string variable.
pub fn variable_kind(names: &[Entry<'_>], name: &[u8]) -> Option<ElemKind>
    ensures { result ≡ sorts.variable_in (entries_view names.now) name.now }
{
    match look_up(names, name) {
        Some(Meaning::Variable(kind)) => Some(kind),
        _ => None,
    }
}

/// The type of the elements of a vector, list, map, set or tree.
pub fn elements_kind(names: &[Entry<'_>], name: &[u8]) -> Option<ElemKind>
    ensures { result ≡ sorts.elements_in (entries_view names.now) name.now }
{
    match look_up(names, name) {
        Some(Meaning::Object(_, def)) if has_cursors(def.kind) => Some(element_of(def)),
        _ => None,
    }
}
