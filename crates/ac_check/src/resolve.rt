//! What items are resolved to in the scope where they stand.
ghost use Rattle.std.specs.Prelude.{◌≡◌, ◌++◌, ◌∷◌, [], map, length, true, unwrap_or, option_map, IfOk, OnOk};
ghost use Rattle.ac_syntax.specs.Code.{stop};
ghost use Rattle.ac_syntax.specs.Statements.{before};
ghost use Rattle.ac_rules.specs.Resolved as resolved;
ghost use Rattle.ac_rules.specs.Resolved.{no_statement, a_block, works_at};
ghost use Rattle.ac_rules.specs.ResolvedStatements.{resolved_before, resolved_task_before};
ghost use Rattle.ac_check.specs.BlockHeads.{head_view, is_command};
ghost use Rattle.ac_rules.specs.Scopes as scopes;
ghost use Rattle.ac_rules.specs.Operations.{meant};

use crate::given::type_of;
use crate::scope::Scope;
use ac_base::{Elem, NoMemory, Value};
use ac_rules::{
    ResolvedArg, ResolvedArgs, ResolvedDecl, ResolvedDecls, ResolvedStmt, ResolvedStmts,
    ResolvedTask,
};
use ac_syntax::{
    Arg, CommonCall, Decl, ElemKind, Ident, Kind, Operation, Stmt, TaskText, TypeDef, ViewKind,
};
use std::alloc::Global;

/// What begins a block, with the line of its first token.
#[derive(Drop)]
pub enum BlockHead {
    Loop {
        line: u64,
        elements: bool,
        backward: bool,
        object: usize,
    },
    View {
        line: u64,
        kind: ViewKind,
        object: usize,
        at: Option<usize>,
    },
    Stable {
        line: u64,
        object: usize,
    },
    Declare {
        line: u64,
        decls: ResolvedDecls,
    },
}

impl BlockHead {
    pub fn with_body(self, body: ResolvedStmts) -> ResolvedStmt
        ensures { resolved_before result no_statement ≡ a_block (head_view self) body no_statement }
    {
        match self {
            BlockHead::Loop {
                line,
                elements,
                backward,
                object,
            } => ResolvedStmt::Loop {
                line,
                elements,
                backward,
                object,
                body,
            },
            BlockHead::View {
                line,
                kind,
                object,
                at,
            } => ResolvedStmt::View {
                line,
                kind,
                object,
                at,
                body,
            },
            BlockHead::Stable { line, object } => ResolvedStmt::Stable { line, object, body },
            BlockHead::Declare { line, decls } => ResolvedStmt::Declare { line, decls, body },
        }
    }
}

/// Takes in one more at the end.
pub fn keep<T: Drop>(items: &mut Vec<T>, item: T) -> Result<(), NoMemory>
    ensures { OnOk result (items.new.items ≡ items.old.items ++ item ∷ []) }
{
    items.push(item)?;
    Ok(())
}

fn copy_value(alloc: Global, value: &Value) -> Result<Value, NoMemory>
    ensures { IfOk result (λ copy. copy ≡ value.now) }
{
    match value {
        Value::Int(number) => Ok(Value::Int(*number)),
        Value::Text(text) => Ok(Value::Text(text.copy(alloc)?)),
    }
}

fn resolve_arg(scope: &Scope, arg: &Arg) -> Result<ResolvedArg, NoMemory>
    ensures { IfOk result (λ made. made ≡ resolved.resolve_arg scope.now arg.now) }
{
    match arg {
        Arg::Lit(value) => Ok(ResolvedArg::Lit(copy_value(scope.alloc(), value)?)),
        Arg::NoElement => Ok(ResolvedArg::NoElement),
        Arg::Var(name) => Ok(ResolvedArg::At(scope.place(name.bytes()))),
    }
}

fn resolve_args(scope: &Scope, args: &[Arg]) -> Result<ResolvedArgs, NoMemory>
    ensures { IfOk result (λ made. made ≡ map (resolved.resolve_arg scope.now) args.now) }
{
    let mut made = Vec::new(scope.alloc());
    for arg in args {
        keep(&mut made, resolve_arg(scope, arg)?)?;
    }
    Ok(ResolvedArgs::from_vec(made))
}

/// The place of a name that may be left out.
pub fn place_of(scope: &Scope, name: &Option<Ident>) -> Option<usize>
    ensures { result ≡ option_map (resolved.place_of scope.now) name.now }
{
    match name {
        Some(name) => Some(scope.place(name.bytes())),
        None => None,
    }
}

/// The type that a name stands for, which it does in a declaration that keeps the rules.
fn resolve_type(scope: &Scope, of: &Ident) -> TypeDef
    ensures { result ≡ unwrap_or (scopes.type_of scope.now of.now) resolved.no_type }
{
    type_of(scope, of.bytes()).unwrap_or(TypeDef {
        bounded: false,
        kind: Kind::List,
        first: ElemKind::Integer,
        second: None,
        keyed: false,
    })
}

pub fn resolve_decl(scope: &Scope, decl: &Decl) -> ResolvedDecl
    ensures { result ≡ resolved.resolve_decl scope.now decl.now }
{
    match decl {
        Decl::TypeDecl { .. } => ResolvedDecl::TypeDecl,
        Decl::Object {
            line,
            of,
            capacity,
            ..
        } => ResolvedDecl::Object {
            line: *line,
            def: resolve_type(scope, of),
            capacity: *capacity,
        },
        Decl::CursorVar { .. } => ResolvedDecl::Cursor,
        Decl::IntVar { .. } => ResolvedDecl::Integer,
        Decl::TextVar { .. } => ResolvedDecl::Text,
    }
}

/// A command that means this operation, which a call does that keeps the rules.
#[tactic(auto, unfolding(ac_rules::specs::Resolved::resolve_simple))]
pub fn resolve_command(
    scope: &Scope,
    stmt: &Stmt,
    operation: Option<Operation>,
) -> Result<ResolvedStmt, NoMemory>
    requires command { is_command stmt.now ≡ true }
    requires operation { operation ≡ meant scope.now stmt.now }
    ensures { IfOk result (λ made. resolved_before made no_statement ≡ resolved.resolve scope.now (before stmt.now stop)) }
{
    match stmt {
        Stmt::Call {
            line,
            target,
            object,
            args,
            ..
        } => Ok(ResolvedStmt::Call {
            line: *line,
            target: place_of(scope, target),
            object: scope.place(object.bytes()),
            operation: operation.unwrap_or(Operation::Common(CommonCall::IsEmpty)),
            args: resolve_args(scope, args.items())?,
        }),
        Stmt::Set { line, target, from } => Ok(ResolvedStmt::Set {
            line: *line,
            target: scope.place(target.bytes()),
            from: resolve_arg(scope, from)?,
        }),
        Stmt::Sum {
            line,
            target,
            from,
            minus,
            number,
        } => Ok(ResolvedStmt::Sum {
            line: *line,
            target: scope.place(target.bytes()),
            from: scope.place(from.bytes()),
            minus: *minus,
            number: *number,
        }),
        _ => unreachable!(),
    }
}

/// A task with its commands.
pub fn resolve_task(
    scope: &Scope,
    task: &TaskText,
    steps: ResolvedStmts,
) -> Result<ResolvedTask, NoMemory>
    ensures { IfOk result (λ made. resolved_task_before made no_statement
        ≡ a_block (works_at task.now.line task.now.name (length task.now.locals)) steps no_statement) }
{
    Ok(ResolvedTask {
        line: task.line,
        name: task.name.copy(scope.alloc())?,
        locals: task.locals.items().len(),
        steps,
    })
}
