//! What names and arguments give, and what takes it.
ghost use Rattle.std.specs.Prelude.{◌≡◌};
ghost use Rattle.std.specs.Option.{option_map};
ghost use Rattle.ac_check.specs.Meanings.{meaning_view};
ghost use Rattle.ac_rules.specs.Rules as rules;
ghost use Rattle.ac_rules.specs.Scopes as scopes;
ghost use Rattle.ac_check.specs.Views.{given_view, typed_view, found};

use crate::meaning::Meaning;
use crate::scope::Scope;
use ac_base::Value;
use ac_syntax::{Arg, ElemKind, TypeDef};

/// What an argument or an answer gives.
#[derive(Clone, Copy)]
pub enum Given<'a> {
    Value(ElemKind),
    /// A cursor of the type with this name.
    Cursor(&'a [u8]),
    NoElement,
    /// Nothing that can be assigned.
    Nothing,
}

/// An object's type: its name and what it is.
#[derive(Clone, Copy)]
pub struct Typed<'a> {
    pub of: &'a [u8],
    pub def: TypeDef,
}

fn type_in(meaning: &Meaning) -> Option<TypeDef>
    ensures { result ≡ scopes.type_in (meaning_view meaning.now) }
{
    match meaning {
        Meaning::Type(def) => Some(*def),
        _ => None,
    }
}

fn object_in(meaning: &Meaning) -> Option<Typed<'_>>
    ensures { option_map typed_view result ≡ scopes.object_in (meaning_view meaning.now) }
{
    match meaning {
        Meaning::Object { of, def } => Some(Typed {
            of: of.bytes(),
            def: *def,
        }),
        _ => None,
    }
}

/// The type that a name stands for.
pub fn type_of(scope: &Scope, name: &[u8]) -> Option<TypeDef>
    ensures { result ≡ scopes.type_of scope.now name.now }
{
    type_in(scope.meaning(name)?)
}

/// The type of the object that a name stands for.
pub fn object_of<'a>(scope: &'a Scope, name: &[u8]) -> Option<Typed<'a>>
    ensures { option_map typed_view result ≡ scopes.object_of scope.now name.now }
{
    object_in(scope.meaning(name)?)
}

fn kind_of(value: &Value) -> ElemKind
    ensures { result ≡ rules.kind_of value.now }
{
    match value {
        Value::Int(_) => ElemKind::Integer,
        Value::Text(_) => ElemKind::Str,
    }
}

pub fn given_in(meaning: Option<&Meaning>) -> Given<'_>
    ensures { given_view result ≡ rules.given_in (found meaning.entry) }
{
    match meaning {
        Some(Meaning::Cursor { of, .. }) => Given::Cursor(of.bytes()),
        Some(Meaning::Value { elem, .. }) => Given::Value(*elem),
        _ => Given::Nothing,
    }
}

pub fn given_by<'a>(scope: &'a Scope, arg: &Arg) -> Given<'a>
    ensures { given_view result ≡ rules.given scope.now arg.now }
{
    match arg {
        Arg::Lit(value) => Given::Value(kind_of(value)),
        Arg::NoElement => Given::NoElement,
        Arg::Var(name) => given_in(scope.meaning(name.bytes())),
    }
}

pub fn is_value(wanted: ElemKind, given: Given<'_>) -> bool
    ensures { result ≡ rules.is_value wanted (given_view given.entry) }
{
    match given {
        Given::Value(elem) => elem == wanted,
        _ => false,
    }
}

pub fn is_cursor(of: &[u8], given: Given<'_>) -> bool
    ensures { result ≡ rules.is_cursor of.now (given_view given.entry) }
{
    match given {
        Given::Cursor(name) => name == of,
        Given::NoElement => true,
        _ => false,
    }
}

/// Whether what is given can be assigned to a name: to a variable, or a view that can be written.
pub fn takes(meaning: Option<&Meaning>, given: Given<'_>) -> bool
    ensures { result ≡ rules.takes (found meaning.entry) (given_view given.entry) }
{
    match meaning {
        Some(Meaning::Cursor { of, is_variable }) => *is_variable && is_cursor(of.bytes(), given),
        Some(Meaning::Value { elem, is_written }) => *is_written && is_value(*elem, given),
        _ => false,
    }
}

/// Whether a name stands for a cursor variable of the type.
fn is_variable_of(of: &[u8], meaning: Option<&Meaning>) -> bool
    ensures { result ≡ rules.is_variable_of of.now (found meaning.entry) }
{
    match meaning {
        Some(
            Meaning::Cursor {
                of: name,
                is_variable,
            },
        ) => *is_variable && name.bytes() == of,
        _ => false,
    }
}

pub fn is_variable(scope: &Scope, of: &[u8], arg: &Arg) -> bool
    ensures { result ≡ rules.is_variable scope.now of.now arg.now }
{
    match arg {
        Arg::Var(name) => is_variable_of(of, scope.meaning(name.bytes())),
        _ => false,
    }
}

fn is_typed(of: &[u8], typed: Option<Typed<'_>>) -> bool
    ensures { result ≡ rules.is_typed of.now (option_map typed_view typed.entry) }
{
    match typed {
        Some(typed) => typed.of == of,
        None => false,
    }
}

pub fn is_object(scope: &Scope, of: &[u8], arg: &Arg) -> bool
    ensures { result ≡ rules.is_object scope.now of.now arg.now }
{
    match arg {
        Arg::Var(name) => is_typed(of, object_of(scope, name.bytes())),
        _ => false,
    }
}
