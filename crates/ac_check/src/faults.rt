//! What is faulty in an item: the first of the faults that it has.
ghost use Rattle.std.specs.Prelude.{◌≡◌, ◌+◌, ℕ, [], ◌∷◌, not, nat_lt, Option, Some, None};
ghost use Rattle.std.specs.Option.{option_copied};
ghost use Rattle.ac_syntax.specs.Items as items;
ghost use Rattle.ac_syntax.specs.Items.{declares, opens, item_line};
ghost use Rattle.ac_syntax.specs.Code.{task_at};
ghost use Rattle.ac_rules.specs.Scopes.{first_task, standing, standing_handler};
ghost use Rattle.ac_rules.specs.Faults as faults;
ghost use Rattle.ac_rules.specs.Faults.{used, capacity, declared};
ghost use Rattle.ac_rules.specs.UsedNames.{arg_names, args_names, optional_name};
ghost use Rattle.ac_rules.specs.Operations.{meant};
ghost use Rattle.ac_rules.specs.Walks as walks;
ghost use Rattle.ac_rules.specs.Walks.{has_unknown, fault_with, stmt_item};
ghost use Rattle.ac_check.specs.NamedHandlers.{named_by};

use crate::rules::{is_well_typed_decl, is_well_typed_stmt, suits_decl, suits_stmt};
use crate::scope::Scope;
use ac_base::Exception;
use ac_rules::{MOST_NAMES, MOST_ROOM, ResolvedHandler};
use ac_syntax::{Arg, Decl, Ident, Operation, RefusalKind, Stmt};

fn is_in_scope(scope: &Scope, name: &Ident) -> bool
    ensures { result ≡ faults.is_in_scope scope.now name.now }
{
    scope.meaning(name.bytes()).is_some()
}

fn has_unknown_optional(scope: &Scope, name: &Option<Ident>) -> bool
    ensures { result ≡ has_unknown scope.now (optional_name name.now) }
{
    match name {
        None => false,
        Some(name) => !is_in_scope(scope, name),
    }
}

fn has_unknown_arg(scope: &Scope, arg: &Arg) -> bool
    ensures { result ≡ has_unknown scope.now (arg_names arg.now) }
{
    match arg {
        Arg::Lit(_) | Arg::NoElement => false,
        Arg::Var(name) => !is_in_scope(scope, name),
    }
}

fn has_unknown_args(scope: &Scope, args: &[Arg]) -> bool
    ensures { result ≡ has_unknown scope.now (args_names args.now) }
{
    for arg in args {
        if has_unknown_arg(scope, arg) {
            return true;
        }
    }
    false
}

fn has_unknown_decl(scope: &Scope, decl: &Decl) -> bool
    ensures { result ≡ has_unknown scope.now (used (declares decl.now)) }
{
    match decl {
        Decl::Object { of, .. } | Decl::CursorVar { of, .. } => !is_in_scope(scope, of),
        Decl::TypeDecl { .. } | Decl::IntVar { .. } | Decl::TextVar { .. } => false,
    }
}

fn has_unknown_stmt(scope: &Scope, stmt: &Stmt) -> bool
    ensures { result ≡ has_unknown scope.now (used (stmt_item stmt.now)) }
{
    match stmt {
        Stmt::Call {
            target,
            object,
            args,
            ..
        } => {
            has_unknown_optional(scope, target)
                || !is_in_scope(scope, object)
                || has_unknown_args(scope, args.items())
        }
        Stmt::Set { target, from, .. } => {
            !is_in_scope(scope, target) || has_unknown_arg(scope, from)
        }
        Stmt::Sum { target, from, .. } => !is_in_scope(scope, target) || !is_in_scope(scope, from),
        Stmt::View { object, at, .. } => {
            !is_in_scope(scope, object) || has_unknown_optional(scope, at)
        }
        Stmt::Loop { object, .. } | Stmt::Stable { object, .. } => !is_in_scope(scope, object),
        Stmt::Declare { .. } | Stmt::Tasks { .. } | Stmt::Handled { .. } => false,
    }
}

pub fn decl_name(decl: &Decl) -> &Ident
    ensures { result.now ≡ faults.decl_name decl.now }
{
    match decl {
        Decl::TypeDecl { name, .. }
        | Decl::Object { name, .. }
        | Decl::CursorVar { name, .. }
        | Decl::IntVar { name, .. }
        | Decl::TextVar { name, .. } => name,
    }
}

pub fn decl_line(decl: &Decl) -> u64
    ensures { result ≡ items.decl_line decl.now }
{
    match decl {
        Decl::TypeDecl { line, .. }
        | Decl::Object { line, .. }
        | Decl::CursorVar { line, .. }
        | Decl::IntVar { line, .. }
        | Decl::TextVar { line, .. } => *line,
    }
}

pub fn decl_capacity(decl: &Decl) -> u64
    ensures { result ≡ capacity (declares decl.now) }
{
    match decl {
        Decl::Object { capacity, .. } => capacity.unwrap_or(0),
        Decl::TypeDecl { .. }
        | Decl::CursorVar { .. }
        | Decl::IntVar { .. }
        | Decl::TextVar { .. } => 0,
    }
}

/// The name that is in scope in the body of a block alone.
fn stmt_name(stmt: &Stmt) -> Option<&Ident>
    ensures { option_copied result ≡ declared (stmt_item stmt.now) }
{
    match stmt {
        Stmt::Loop { name, .. } | Stmt::View { name, .. } => Some(name),
        Stmt::Call { .. }
        | Stmt::Set { .. }
        | Stmt::Sum { .. }
        | Stmt::Stable { .. }
        | Stmt::Declare { .. }
        | Stmt::Tasks { .. }
        | Stmt::Handled { .. } => None,
    }
}

pub fn stmt_line(stmt: &Stmt) -> u64
    ensures { item_line (stmt_item stmt.now) ≡ Some result }
{
    match stmt {
        Stmt::Call { line, .. }
        | Stmt::Set { line, .. }
        | Stmt::Sum { line, .. }
        | Stmt::Loop { line, .. }
        | Stmt::View { line, .. }
        | Stmt::Stable { line, .. }
        | Stmt::Declare { line, .. }
        | Stmt::Tasks { line, .. }
        | Stmt::Handled { line, .. } => *line,
    }
}

/// The objects would have too much room with so much more.
fn is_roomy(room: u64, capacity: u64) -> bool
    ensures { result ≡ nat_lt MOST_ROOM (room + capacity) }
{
    room.saturating_add(capacity) > MOST_ROOM
}

/// What is faulty in what is declared, behind objects with so much room.
fn declared_fault(
    scope: &Scope,
    room: u64,
    name: Option<&Ident>,
    capacity: u64,
) -> Option<RefusalKind>
    ensures { result ≡ walks.declared_fault room scope.now (option_copied name.entry) capacity }
{
    match name {
        Some(name) if is_in_scope(scope, name) => Some(RefusalKind::Twice),
        Some(_) if scope.len() >= MOST_NAMES => Some(RefusalKind::Limit),
        _ if is_roomy(room, capacity) => Some(RefusalKind::Limit),
        _ => None,
    }
}

/// What is faulty in a declaration behind objects with so much room.
pub fn decl_fault(scope: &Scope, task: Option<usize>, room: u64, decl: &Decl) -> Option<RefusalKind>
    requires { task ≡ first_task scope.now }
    ensures { result ≡ fault_with room (standing (declares decl.now) scope.now) }
{
    if has_unknown_decl(scope, decl) {
        Some(RefusalKind::UnknownName)
    } else if !(is_well_typed_decl(scope, decl) && suits_decl(task, decl)) {
        Some(RefusalKind::WrongType)
    } else {
        declared_fault(scope, room, Some(decl_name(decl)), decl_capacity(decl))
    }
}

/// What is faulty in a command that means this operation, or in what begins a block, behind objects with so much room.
#[tactic(auto, using(crate::proofs::TaskScopes::judged_by))]
pub fn stmt_fault(
    scope: &Scope,
    task: Option<usize>,
    room: u64,
    stmt: &Stmt,
    operation: Option<Operation>,
) -> Option<RefusalKind>
    requires task { task ≡ first_task scope.now }
    requires operation { operation ≡ meant scope.now stmt.now }
    ensures { result ≡ fault_with room (standing (stmt_item stmt.now) scope.now) }
{
    if has_unknown_stmt(scope, stmt) {
        Some(RefusalKind::UnknownName)
    } else if !(is_well_typed_stmt(scope, stmt, operation) && suits_stmt(scope, task, stmt)) {
        Some(RefusalKind::WrongType)
    } else {
        declared_fault(scope, room, stmt_name(stmt), 0)
    }
}

/// What is faulty in the head of a task, behind objects with so much room.
pub fn task_fault(scope: &Scope, room: u64, name: &Ident) -> Option<RefusalKind>
    ensures { (line : ℕ) → result ≡ fault_with room (standing (opens (task_at line name.now [])) scope.now) }
{
    declared_fault(scope, room, Some(name), 0)
}

/// Whether a handler names the exception.
fn names(handler: &ResolvedHandler, own: Option<Exception>) -> bool
    ensures { result ≡ faults.is_named (named_by (handler.now ∷ [])) own }
{
    match (own, handler.catches) {
        (Some(own), Some(before)) => own == before,
        _ => false,
    }
}

/// Whether one of these handlers names the exception.
fn is_named(handlers: &[ResolvedHandler], own: Option<Exception>) -> bool
    ensures { result ≡ faults.is_named (named_by handlers.now) own }
{
    for handler in handlers {
        if names(handler, own) {
            return true;
        }
    }
    false
}

/// What is faulty in the head of a handler behind others of its block, and behind objects with so much room.
pub fn handler_fault(
    scope: &Scope,
    room: u64,
    before: &[ResolvedHandler],
    own: Option<Exception>,
) -> Option<RefusalKind>
    ensures { (line : ℕ) → result ≡ fault_with room (standing_handler line own scope.now (named_by before.now)) }
{
    if is_named(before, own) {
        Some(RefusalKind::Twice)
    } else {
        declared_fault(scope, room, None, 0)
    }
}
