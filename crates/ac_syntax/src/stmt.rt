ghost use Rattle.std.specs.Prelude.{◌≡◌};
ghost use Rattle.ac_syntax.specs.Statements.{code_of, tasks_of, handlers_of};

use crate::arg::{Arg, Args};
use crate::decl::Decls;
use crate::ident::Ident;
use crate::view_kind::ViewKind;
use ac_base::Exception;
use std::marker::Model;

/// A statement, with the line of its first token.
#[derive(Drop)]
#[cycle(statements)]
pub enum Stmt {
    /// A call, whose answer the target takes where there is one.
    Call {
        line: u64,
        target: Option<Ident>,
        object: Ident,
        op: Ident,
        args: Args,
    },
    Set {
        line: u64,
        target: Ident,
        from: Arg,
    },
    /// A variable with a number added, or with `minus` taken away.
    Sum {
        line: u64,
        target: Ident,
        from: Ident,
        minus: bool,
        number: u64,
    },
    /// A loop over the cursors of an object, or with `elements` over its elements.
    Loop {
        line: u64,
        name: Ident,
        elements: bool,
        backward: bool,
        object: Ident,
        body: Stmts,
    },
    View {
        line: u64,
        kind: ViewKind,
        object: Ident,
        at: Option<Ident>,
        name: Ident,
        body: Stmts,
    },
    Stable {
        line: u64,
        object: Ident,
        body: Stmts,
    },
    Declare {
        line: u64,
        decls: Decls,
        body: Stmts,
    },
    /// Tasks that run beside each other.
    Tasks {
        line: u64,
        tasks: TaskTexts,
    },
    /// What is tried, and the handlers of the exceptions that leave it.
    Handled {
        line: u64,
        body: Stmts,
        handlers: Handlers,
    },
}

/// Statements in order.
#[derive(Drop)]
#[cycle(statements)]
pub struct Stmts {
    items: Vec<Stmt>,
}

impl Model for Stmts {
    ghost use Rattle.ac_syntax.specs.Code.{Code, code_size};
    ghost use Rattle.ac_syntax.specs.Coded.{coded_code};

    ghost Value = { Code };

    ghost coded = { coded_code };

    ghost use Rattle.ac_syntax.specs.Statements.{code_of};

    ghost view = { λ stmts. code_of stmts.items.items };

    ghost size = { code_size };

    ghost use Rattle.ac_syntax.specs.StatementsFall.{bodies_fall};

    ghost size_decreases = { λ a h. bodies_fall a.items.items };
}

impl Stmts {
    pub fn from_vec(items: Vec<Stmt>) -> Stmts
        ensures { result ≡ code_of items.items }
    {
        Stmts { items }
    }

    pub fn items(&self) -> &[Stmt]
        ensures { code_of result.now ≡ self.now }
    {
        &self.items
    }
}

/// A task, with the line of its first token: its locals, and its commands.
#[derive(Drop)]
#[cycle(statements)]
pub struct TaskText {
    pub line: u64,
    pub name: Ident,
    pub locals: Decls,
    pub steps: Stmts,
}

/// Tasks in order.
#[derive(Drop)]
#[cycle(statements)]
pub struct TaskTexts {
    items: Vec<TaskText>,
}

impl Model for TaskTexts {
    ghost use Rattle.ac_syntax.specs.Code.{Code, code_size};
    ghost use Rattle.ac_syntax.specs.Coded.{coded_code};

    ghost Value = { Code };

    ghost coded = { coded_code };

    ghost use Rattle.ac_syntax.specs.Statements.{tasks_of};

    ghost view = { λ tasks. tasks_of tasks.items.items };

    ghost size = { code_size };

    ghost use Rattle.ac_syntax.specs.StatementsFall.{tasks_fall};

    ghost size_decreases = { λ a h. tasks_fall a.items.items };
}

impl TaskTexts {
    pub fn from_vec(items: Vec<TaskText>) -> TaskTexts
        ensures { result ≡ tasks_of items.items }
    {
        TaskTexts { items }
    }

    pub fn items(&self) -> &[TaskText]
        ensures { tasks_of result.now ≡ self.now }
    {
        &self.items
    }
}

/// A handler, with the line of its `when`: the exception that it takes, or None where it takes all others, and its statements.
#[derive(Drop)]
#[cycle(statements)]
pub struct Handler {
    pub line: u64,
    pub catches: Option<Exception>,
    pub body: Stmts,
}

/// Handlers in order.
#[derive(Drop)]
#[cycle(statements)]
pub struct Handlers {
    items: Vec<Handler>,
}

impl Model for Handlers {
    ghost use Rattle.ac_syntax.specs.Code.{HandlerCode, handlers_size};
    ghost use Rattle.ac_syntax.specs.Coded.{coded_handlers};

    ghost Value = { HandlerCode };

    ghost coded = { coded_handlers };

    ghost use Rattle.ac_syntax.specs.Statements.{handlers_of};

    ghost view = { λ handlers. handlers_of handlers.items.items };

    ghost size = { handlers_size };

    ghost use Rattle.ac_syntax.specs.StatementsFall.{handlers_fall};

    ghost size_decreases = { λ a h. handlers_fall a.items.items };
}

impl Handlers {
    pub fn from_vec(items: Vec<Handler>) -> Handlers
        ensures { result ≡ handlers_of items.items }
    {
        Handlers { items }
    }

    pub fn items(&self) -> &[Handler]
        ensures { handlers_of result.now ≡ self.now }
    {
        &self.items
    }
}
