//! The rules of types.
ghost use Rattle.std.specs.Prelude.{◌≡◌, ◌++◌, codes};
ghost use Rattle.std.specs.Str.{bytes_eq};
ghost use Rattle.ac_rules.specs.Operations.{meant};
ghost use Rattle.ac_rules.specs.Rules as rules;
ghost use Rattle.ac_check.specs.Views.{typed_view};
ghost use Rattle.std.specs.Option.{option_map};
ghost use Rattle.ac_rules.specs.Scopes as scopes;
ghost use Rattle.ac_rules.specs.UsedNames.{arg_names, args_names, optional_name};

use crate::block::{is_looped, is_view};
use crate::given::{Given, Typed, given_by, given_in, is_value, object_of, takes, type_of};
use crate::kinds::{has_cursors, is_queue, is_type};
use crate::scope::Scope;
use ac_syntax::{Arg, Decl, ElemKind, Ident, Operation, Stmt, TypeDef};

const PRINT: &[u8] = b"print";

/// Whether an object has a capacity just where its type is bounded.
fn is_object_of(def: Option<TypeDef>, capacity: Option<u64>) -> bool
    ensures { result ≡ rules.is_object_of def capacity }
{
    match def {
        Some(def) => capacity.is_some() == def.bounded,
        None => false,
    }
}

fn has_cursors_of(def: Option<TypeDef>) -> bool
    ensures { result ≡ rules.has_cursors_of def }
{
    match def {
        Some(def) => has_cursors(def.kind),
        None => false,
    }
}

/// Whether a declaration keeps the rules.
pub fn is_well_typed_decl(scope: &Scope, decl: &Decl) -> bool
    ensures { result ≡ rules.is_decl scope.now decl.now }
{
    match decl {
        Decl::TypeDecl { def, .. } => is_type(*def),
        Decl::Object { of, capacity, .. } => is_object_of(type_of(scope, of.bytes()), *capacity),
        Decl::CursorVar { of, .. } => has_cursors_of(type_of(scope, of.bytes())),
        Decl::IntVar { .. } | Decl::TextVar { .. } => true,
    }
}

/// Whether an assignment keeps the rules.
fn is_set_right(scope: &Scope, target: &Ident, from: &Arg) -> bool
    ensures { result ≡ rules.takes (scopes.meaning_in scope.now target.now) (rules.given scope.now from.now) }
{
    takes(scope.meaning(target.bytes()), given_by(scope, from))
}

/// Whether a sum keeps the rules: of integers alone.
fn is_sum_right(scope: &Scope, target: &Ident, from: &Ident) -> bool
    ensures { result ≡ rules.is_sum scope.now target.now from.now }
{
    takes(
        scope.meaning(target.bytes()),
        Given::Value(ElemKind::Integer),
    ) && is_value(ElemKind::Integer, given_in(scope.meaning(from.bytes())))
}

/// Whether a command that means this operation keeps the rules, or a block by its head alone.
#[tactic(auto, using(ac_rules::proofs::Found::means_one))]
pub fn is_well_typed_stmt(scope: &Scope, stmt: &Stmt, operation: Option<Operation>) -> bool
    requires { operation ≡ meant scope.now stmt.now }
    ensures { result ≡ rules.is_stmt scope.now stmt.now }
{
    match stmt {
        Stmt::Call { .. } => operation.is_some(),
        Stmt::Set { target, from, .. } => is_set_right(scope, target, from),
        Stmt::Sum { target, from, .. } => is_sum_right(scope, target, from),
        Stmt::Loop {
            backward,
            object,
            ..
        } => is_looped(*backward, object_of(scope, object.bytes())),
        Stmt::View {
            kind,
            object,
            at,
            ..
        } => is_view(scope, *kind, object_of(scope, object.bytes()), at),
        Stmt::Stable { object, .. } => is_looped(false, object_of(scope, object.bytes())),
        Stmt::Declare { .. } | Stmt::Tasks { .. } | Stmt::Handled { .. } => true,
    }
}

/// Whether a declaration may stand where it does: in a task, where the first one's name has this place, integers alone.
pub fn suits_decl(task: Option<usize>, decl: &Decl) -> bool
    ensures { result ≡ rules.suits task (λ _. rules.is_task_decl decl.now) }
{
    match task {
        None => true,
        Some(_) => matches!(decl, Decl::IntVar { .. }),
    }
}

/// Whether a name is a local of the task that is open.
fn is_local(scope: &Scope, first: usize, name: &Ident) -> bool
    ensures { result ≡ rules.is_local scope.now first name.now }
{
    scope.place(name.bytes()) > first
}

fn is_local_arg(scope: &Scope, first: usize, arg: &Arg) -> bool
    ensures { result ≡ rules.are_local scope.now first (arg_names arg.now) }
{
    match arg {
        Arg::Lit(_) | Arg::NoElement => true,
        Arg::Var(name) => is_local(scope, first, name),
    }
}

fn are_local_args(scope: &Scope, first: usize, args: &[Arg]) -> bool
    ensures { result ≡ rules.are_local scope.now first (args_names args.now) }
{
    for arg in args {
        if !is_local_arg(scope, first, arg) {
            return false;
        }
    }
    true
}

/// Whether what a call uses beside its object are locals.
fn uses_locals(scope: &Scope, first: usize, target: &Option<Ident>, args: &[Arg]) -> bool
    ensures { result ≡ rules.are_local scope.now first (optional_name target.now ++ args_names args.now) }
{
    match target {
        None => are_local_args(scope, first, args),
        Some(target) => is_local(scope, first, target) && are_local_args(scope, first, args),
    }
}

fn is_on_queue(typed: Option<Typed<'_>>) -> bool
    ensures { result ≡ rules.is_on_queue (option_map typed_view typed.entry) }
{
    match typed {
        Some(typed) => is_queue(typed.def.kind),
        None => false,
    }
}

fn is_print(word: &Ident) -> bool
    ensures { result ≡ bytes_eq word.now (codes "print") }
{
    word.bytes() == PRINT
}

/// Whether a statement is a command that a task may have, where the first task's name has this place.
fn is_task_stmt(scope: &Scope, first: usize, stmt: &Stmt) -> bool
    ensures { result ≡ rules.is_task_stmt scope.now first stmt.now }
{
    match stmt {
        Stmt::Call {
            target,
            object,
            op,
            args,
            ..
        } => {
            is_on_queue(object_of(scope, object.bytes()))
                && (!is_print(op) && uses_locals(scope, first, target, args.items()))
        }
        Stmt::Set { target, from, .. } => {
            is_local(scope, first, target) && is_local_arg(scope, first, from)
        }
        Stmt::Sum { target, from, .. } => {
            is_local(scope, first, target) && is_local(scope, first, from)
        }
        _ => false,
    }
}

/// Whether a statement may stand where it does.
pub fn suits_stmt(scope: &Scope, task: Option<usize>, stmt: &Stmt) -> bool
    requires { task ≡ scopes.first_task scope.now }
    ensures { result ≡ rules.suits_stmt scope.now stmt.now }
{
    match task {
        None => true,
        Some(first) => is_task_stmt(scope, first, stmt),
    }
}
