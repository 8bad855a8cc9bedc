//! Statements with nothing left to look up: each name is its place among those in scope where the item stands, and each call the operation
//! that it means.
ghost use Rattle.std.specs.Prelude.{◌≡◌};
ghost use Rattle.ac_rules.specs.ResolvedStatements.{resolved_of, resolved_tasks_of, resolved_handlers_of};

use ac_base::{Exception, Value};
use ac_syntax::{Ident, Operation, TypeDef, ViewKind};
use std::marker::Model;

/// An argument of a call, or what is assigned.
#[derive(Drop)]
pub enum ResolvedArg {
    Lit(Value),
    NoElement,
    /// The variable, view or object whose name has this place.
    At(usize),
}

/// The arguments of a call in order.
#[derive(Drop)]
pub struct ResolvedArgs {
    items: Vec<ResolvedArg>,
}

impl Model for ResolvedArgs {
    ghost use Rattle.std.specs.Prelude.{List};
    ghost use Rattle.ac_rules.specs.declared.resolved.ResolvedArg.{ResolvedArg};

    ghost Value = { List ResolvedArg };

    ghost view = { λ args. args.items.items };
}

impl ResolvedArgs {
    pub fn from_vec(items: Vec<ResolvedArg>) -> ResolvedArgs
        ensures { result ≡ items.items }
    {
        ResolvedArgs { items }
    }

    pub fn items(&self) -> &[ResolvedArg]
        ensures { result.now ≡ self.now }
    {
        &self.items
    }
}

/// What a declaration makes. Its name has the place behind those before it.
#[derive(Drop)]
pub enum ResolvedDecl {
    TypeDecl,
    Object {
        line: u64,
        def: TypeDef,
        capacity: Option<u64>,
    },
    Cursor,
    Integer,
    Text,
}

/// Declarations in order.
#[derive(Drop)]
pub struct ResolvedDecls {
    items: Vec<ResolvedDecl>,
}

impl Model for ResolvedDecls {
    ghost use Rattle.std.specs.Prelude.{List};
    ghost use Rattle.ac_rules.specs.declared.resolved.ResolvedDecl.{ResolvedDecl};

    ghost Value = { List ResolvedDecl };

    ghost view = { λ decls. decls.items.items };
}

impl ResolvedDecls {
    pub fn from_vec(items: Vec<ResolvedDecl>) -> ResolvedDecls
        ensures { result ≡ items.items }
    {
        ResolvedDecls { items }
    }

    pub fn items(&self) -> &[ResolvedDecl]
        ensures { result.now ≡ self.now }
    {
        &self.items
    }
}

/// A statement, with the line of its first token.
#[derive(Drop)]
#[cycle(resolved)]
pub enum ResolvedStmt {
    /// A call, whose answer the target takes where there is one.
    Call {
        line: u64,
        target: Option<usize>,
        object: usize,
        operation: Operation,
        args: ResolvedArgs,
    },
    Set {
        line: u64,
        target: usize,
        from: ResolvedArg,
    },
    /// A variable with a number added, or with `minus` taken away.
    Sum {
        line: u64,
        target: usize,
        from: usize,
        minus: bool,
        number: u64,
    },
    /// A loop over the cursors of an object, or with `elements` over its elements.
    Loop {
        line: u64,
        elements: bool,
        backward: bool,
        object: usize,
        body: ResolvedStmts,
    },
    View {
        line: u64,
        kind: ViewKind,
        object: usize,
        at: Option<usize>,
        body: ResolvedStmts,
    },
    Stable {
        line: u64,
        object: usize,
        body: ResolvedStmts,
    },
    Declare {
        line: u64,
        decls: ResolvedDecls,
        body: ResolvedStmts,
    },
    /// Tasks that run beside each other.
    Tasks {
        line: u64,
        tasks: ResolvedTasks,
    },
    /// What is tried, and the handlers of the exceptions that leave it.
    Handled {
        body: ResolvedStmts,
        handlers: ResolvedHandlers,
    },
}

/// Statements in order.
#[derive(Drop)]
#[cycle(resolved)]
pub struct ResolvedStmts {
    items: Vec<ResolvedStmt>,
}

impl Model for ResolvedStmts {
    ghost use Rattle.ac_rules.specs.Resolved.{ResolvedCode, resolved_size};
    ghost use Rattle.ac_rules.specs.ResolvedCoded.{coded_resolved};

    ghost Value = { ResolvedCode };

    ghost coded = { coded_resolved };

    ghost use Rattle.ac_rules.specs.ResolvedStatements.{resolved_of};

    ghost view = { λ stmts. resolved_of stmts.items.items };

    ghost size = { resolved_size };

    ghost use Rattle.ac_rules.specs.ResolvedFall.{resolved_bodies_fall};

    ghost size_decreases = { λ a h. resolved_bodies_fall a.items.items };
}

impl ResolvedStmts {
    pub fn from_vec(items: Vec<ResolvedStmt>) -> ResolvedStmts
        ensures { result ≡ resolved_of items.items }
    {
        ResolvedStmts { items }
    }

    pub fn items(&self) -> &[ResolvedStmt]
        ensures { resolved_of result.now ≡ self.now }
    {
        &self.items
    }
}

/// A task, with the line of its first token: its name, how many locals it has, and its commands.
#[derive(Drop)]
#[cycle(resolved)]
pub struct ResolvedTask {
    pub line: u64,
    pub name: Ident,
    pub locals: usize,
    pub steps: ResolvedStmts,
}

/// Tasks in order.
#[derive(Drop)]
#[cycle(resolved)]
pub struct ResolvedTasks {
    items: Vec<ResolvedTask>,
}

impl Model for ResolvedTasks {
    ghost use Rattle.ac_rules.specs.Resolved.{ResolvedCode, resolved_size};
    ghost use Rattle.ac_rules.specs.ResolvedCoded.{coded_resolved};

    ghost Value = { ResolvedCode };

    ghost coded = { coded_resolved };

    ghost use Rattle.ac_rules.specs.ResolvedStatements.{resolved_tasks_of};

    ghost view = { λ tasks. resolved_tasks_of tasks.items.items };

    ghost size = { resolved_size };

    ghost use Rattle.ac_rules.specs.ResolvedFall.{resolved_tasks_fall};

    ghost size_decreases = { λ a h. resolved_tasks_fall a.items.items };
}

impl ResolvedTasks {
    pub fn from_vec(items: Vec<ResolvedTask>) -> ResolvedTasks
        ensures { result ≡ resolved_tasks_of items.items }
    {
        ResolvedTasks { items }
    }

    pub fn items(&self) -> &[ResolvedTask]
        ensures { resolved_tasks_of result.now ≡ self.now }
    {
        &self.items
    }
}

/// A handler of an exception, or with none named of all others, and its statements.
#[derive(Drop)]
#[cycle(resolved)]
pub struct ResolvedHandler {
    pub catches: Option<Exception>,
    pub body: ResolvedStmts,
}

/// Handlers in order.
#[derive(Drop)]
#[cycle(resolved)]
pub struct ResolvedHandlers {
    items: Vec<ResolvedHandler>,
}

impl Model for ResolvedHandlers {
    ghost use Rattle.ac_rules.specs.Resolved.{ResolvedCode, resolved_size};
    ghost use Rattle.ac_rules.specs.ResolvedCoded.{coded_resolved};

    ghost Value = { ResolvedCode };

    ghost coded = { coded_resolved };

    ghost use Rattle.ac_rules.specs.ResolvedStatements.{resolved_handlers_of};

    ghost view = { λ handlers. resolved_handlers_of handlers.items.items };

    ghost size = { resolved_size };

    ghost use Rattle.ac_rules.specs.ResolvedFall.{resolved_handlers_fall};

    ghost size_decreases = { λ a h. resolved_handlers_fall a.items.items };
}

impl ResolvedHandlers {
    pub fn from_vec(items: Vec<ResolvedHandler>) -> ResolvedHandlers
        ensures { result ≡ resolved_handlers_of items.items }
    {
        ResolvedHandlers { items }
    }

    pub fn items(&self) -> &[ResolvedHandler]
        ensures { resolved_handlers_of result.now ≡ self.now }
    {
        &self.items
    }
}
