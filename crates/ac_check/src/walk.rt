//! A walk over the items of a script in the order of the text, up to the first faulty one.
ghost use Rattle.std.specs.Prelude.{◌≡◌, ◌∷◌, ◌++◌, [], ℕ, List, take, length, unwrap_or, false, Some, None, Err, IfOk, OnOk};
ghost use Rattle.std.specs.Option.{option_map};
ghost use Rattle.ac_syntax.specs.Code.{stop, loop_at, view_at, no_handler};
ghost use Rattle.ac_syntax.specs.Items.{declares};
ghost use Rattle.ac_syntax.specs.Statements.{before, task_before, handler_before};
ghost use Rattle.ac_syntax.specs.declared.refusal.RefusalKind.{RefusalKind};
ghost use Rattle.ac_syntax.specs.declared.fault.ScriptFault.TheVariants.{Refused};
ghost use Rattle.ac_rules.specs.Scopes.{entry, a_task, first_task, with_entry, with_name, with_decls, decl_entry, loop_on, view_on};
ghost use Rattle.ac_rules.specs.Scopes.{standing, standing_decls, standings_from, handler_standings, standings};
ghost use Rattle.ac_rules.specs.Faults.{is_in_scope, AreFaultless, IsFirstFault, IsChecked};
ghost use Rattle.ac_check.specs.Meanings.{meaning_view};
ghost use Rattle.ac_rules.specs.Operations.{meant};
ghost use Rattle.ac_rules.specs.Resolved as resolved;
ghost use Rattle.ac_rules.specs.Resolved.{begins_at, tries_at, no_statement, a_block, IsResolved};
ghost use Rattle.ac_rules.specs.ResolvedStatements.{resolved_before, resolved_task_before, resolved_handler_before};
ghost use Rattle.ac_check.specs.BlockHeads.{head_view};
ghost use Rattle.ac_check.specs.NamedHandlers.{named_by};
ghost use Rattle.ac_rules.specs.Walks.{fault_with, outcome, goes_on, refused, stmt_item, StopsAs, StopsAt};

use crate::call::meant;
use crate::entry::{decl_meaning, loop_meaning, view_meaning};
use crate::faults::{
    decl_capacity, decl_fault, decl_line, decl_name, handler_fault, stmt_fault, stmt_line,
    task_fault,
};
use crate::meaning::Meaning;
use crate::resolve::{BlockHead, keep, place_of, resolve_command, resolve_decl, resolve_task};
use crate::scope::Scope;
use ac_base::NoMemory;
use ac_rules::{
    ResolvedDecl, ResolvedDecls, ResolvedHandler, ResolvedHandlers, ResolvedStmt, ResolvedStmts,
    ResolvedTask, ResolvedTasks,
};
use ac_syntax::{
    Decl, Handler, Handlers, Ident, Operation, RefusalKind, Script, ScriptFault, Stmt, Stmts,
    TaskText, TaskTexts, ViewKind,
};
use std::alloc::Global;

/// Takes a name in, if it is known what it stands for.
fn declare(scope: &mut Scope, name: &Ident, meaning: Option<Meaning>) -> Result<(), NoMemory>
    requires { is_in_scope scope.old name.now ≡ false }
    ensures { OnOk result (scope.new ≡ with_name scope.old name.now (option_map meaning_view meaning)) }
{
    if let Some(meaning) = meaning {
        scope.declare(name.bytes(), meaning)?;
    }
    Ok(())
}

/// Refuses an item on the line if it is faulty.
fn refuse(line: u64, fault: Option<RefusalKind>) -> Result<(), ScriptFault>
    ensures ok { OnOk result (fault ≡ None) }
    ensures refused { (at : ℕ) (kind : RefusalKind) → result ≡ Err (Refused at kind) → (line ≡ at) × (fault ≡ Some kind) }
{
    match fault {
        None => Ok(()),
        Some(kind) => Err(ScriptFault::Refused { line, kind }),
    }
}

/// The names in scope, and the room of all objects so far.
#[derive(Drop)]
struct Walk {
    scope: Scope,
    room: u64,
}

impl Walk {
    fn new(alloc: Global) -> Walk
        ensures scope { result.scope ≡ [] }
        ensures room { result.room ≡ 0 }
    {
        Walk {
            scope: Scope::new(alloc),
            room: 0,
        }
    }

    fn walk_decl(&mut self, task: Option<usize>, decl: &Decl) -> Result<ResolvedDecl, ScriptFault>
        requires { task ≡ first_task self.old.scope }
        ensures ok { OnOk result (outcome self.old.room (standing (declares decl.now) self.old.scope ∷ []) ≡ goes_on self.new.room) }
        ensures refused { StopsAt result self.old.room (standing (declares decl.now) self.old.scope) }
        ensures scope { OnOk result (self.new.scope ≡ with_entry self.old.scope (decl_entry self.old.scope decl.now)) }
        ensures resolved { IfOk result (λ made. made ≡ resolved.resolve_decl self.old.scope decl.now) }
    {
        refuse(
            decl_line(decl),
            decl_fault(&self.scope, task, self.room, decl),
        )?;
        let resolved = resolve_decl(&self.scope, decl);
        let meaning = decl_meaning(&self.scope, decl)?;
        declare(&mut self.scope, decl_name(decl), meaning)?;
        self.room += decl_capacity(decl);
        Ok(resolved)
    }

    fn walk_decls(
        &mut self,
        task: Option<usize>,
        decls: &[Decl],
    ) -> Result<ResolvedDecls, ScriptFault>
        requires { task ≡ first_task self.old.scope }
        ensures ok { OnOk result (outcome self.old.room (standing_decls self.old.scope decls.now) ≡ goes_on self.new.room) }
        ensures refused { StopsAs result (outcome self.old.room (standing_decls self.old.scope decls.now)) }
        ensures scope { OnOk result (self.new.scope ≡ with_decls self.old.scope decls.now) }
        ensures resolved { IfOk result (λ made. made ≡ resolved.resolve_decls self.old.scope decls.now) }
    {
        let mut made = Vec::new(self.scope.alloc());
        for decl in decls {
            let resolved = self.walk_decl(task, decl)?;
            keep(&mut made, resolved)?;
        }
        Ok(ResolvedDecls::from_vec(made))
    }

    /// Judges a command, or what begins a block, and says what a call means.
    fn judge(&self, task: Option<usize>, stmt: &Stmt) -> Result<Option<Operation>, ScriptFault>
        requires { task ≡ first_task self.now.scope }
        ensures ok { OnOk result (fault_with self.now.room (standing (stmt_item stmt.now) self.now.scope) ≡ None) }
        ensures refused { StopsAt result self.now.room (standing (stmt_item stmt.now) self.now.scope) }
        ensures operation { IfOk result (λ operation. operation ≡ meant self.now.scope stmt.now) }
    {
        let operation = meant(&self.scope, stmt);
        refuse(
            stmt_line(stmt),
            stmt_fault(&self.scope, task, self.room, stmt, operation),
        )?;
        Ok(operation)
    }

    /// Takes in the name of a loop over an object.
    fn enter_loop(
        &mut self,
        line: u64,
        name: &Ident,
        elements: bool,
        backward: bool,
        object: &Ident,
    ) -> Result<BlockHead, NoMemory>
        requires { is_in_scope self.old.scope name.now ≡ false }
        ensures scope { OnOk result (self.new.scope ≡ with_name self.old.scope name.now (loop_on self.old.scope elements object.now)) }
        ensures room { self.new.room ≡ self.old.room }
        ensures resolved { IfOk result (λ head. head_view head
            ≡ resolved.resolve_head self.old.scope (loop_at line name.now elements backward object.now)) }
    {
        let place = self.scope.place(object.bytes());
        let meaning = loop_meaning(&self.scope, elements, object)?;
        declare(&mut self.scope, name, meaning)?;
        Ok(BlockHead::Loop {
            line,
            elements,
            backward,
            object: place,
        })
    }

    /// Takes in the name of a view of an object's element.
    fn enter_view(
        &mut self,
        line: u64,
        kind: ViewKind,
        object: &Ident,
        at: &Option<Ident>,
        name: &Ident,
    ) -> Result<BlockHead, NoMemory>
        requires { is_in_scope self.old.scope name.now ≡ false }
        ensures scope { OnOk result (self.new.scope ≡ with_name self.old.scope name.now (view_on self.old.scope kind object.now)) }
        ensures room { self.new.room ≡ self.old.room }
        ensures resolved { IfOk result (λ head. head_view head
            ≡ resolved.resolve_head self.old.scope (view_at line kind object.now at.now name.now)) }
    {
        let head = BlockHead::View {
            line,
            kind,
            object: self.scope.place(object.bytes()),
            at: place_of(&self.scope, at),
        };
        let meaning = view_meaning(&self.scope, kind, object);
        declare(&mut self.scope, name, meaning)?;
        Ok(head)
    }

    /// Walks the statements in a block, behind which the first so many names are in scope.
    #[cycle(statements)]
    fn walk_body(
        &mut self,
        task: Option<usize>,
        head: BlockHead,
        body: &Stmts,
        outside: usize,
    ) -> Result<ResolvedStmt, ScriptFault>
        requires { task ≡ first_task self.old.scope }
        ensures ok { OnOk result (outcome self.old.room (standings_from self.old.scope body.now) ≡ goes_on self.new.room) }
        ensures refused { StopsAs result (outcome self.old.room (standings_from self.old.scope body.now)) }
        ensures scope { OnOk result (self.new.scope ≡ take outside self.old.scope) }
        ensures resolved { IfOk result (λ made. resolved_before made no_statement
            ≡ a_block (head_view head) (resolved.resolve self.old.scope body.now) no_statement) }
    {
        let made = self.walk_statements(task, body)?;
        self.scope.leave(outside);
        Ok(head.with_body(made))
    }

    #[cycle(statements)]
    #[tactic(auto, using(crate::proofs::TaskScopes::loop_first, crate::proofs::TaskScopes::view_first, crate::proofs::TaskScopes::decls_first))]
    fn walk_statement(
        &mut self,
        task: Option<usize>,
        stmt: &Stmt,
    ) -> Result<ResolvedStmt, ScriptFault>
        requires { task ≡ first_task self.old.scope }
        ensures ok { OnOk result (outcome self.old.room (standings_from self.old.scope (before stmt.now stop)) ≡ goes_on self.new.room) }
        ensures refused { StopsAs result (outcome self.old.room (standings_from self.old.scope (before stmt.now stop))) }
        ensures scope { OnOk result (self.new.scope ≡ self.old.scope) }
        ensures resolved { IfOk result (λ made. resolved_before made no_statement
            ≡ resolved.resolve self.old.scope (before stmt.now stop)) }
    {
        let operation = self.judge(task, stmt)?;
        let outside = self.scope.len();
        match stmt {
            Stmt::Call { .. } | Stmt::Set { .. } | Stmt::Sum { .. } => {
                Ok(resolve_command(&self.scope, stmt, operation)?)
            }
            Stmt::Loop {
                line,
                name,
                elements,
                backward,
                object,
                body,
            } => {
                let head = self.enter_loop(*line, name, *elements, *backward, object)?;
                self.walk_body(task, head, body, outside)
            }
            Stmt::View {
                line,
                kind,
                object,
                at,
                name,
                body,
            } => {
                let head = self.enter_view(*line, *kind, object, at, name)?;
                self.walk_body(task, head, body, outside)
            }
            Stmt::Stable { line, object, body } => {
                let object = self.scope.place(object.bytes());
                self.walk_body(
                    task,
                    BlockHead::Stable {
                        line: *line,
                        object,
                    },
                    body,
                    outside,
                )
            }
            Stmt::Declare { line, decls, body } => {
                let decls = self.walk_decls(task, decls.items())?;
                self.walk_body(
                    task,
                    BlockHead::Declare { line: *line, decls },
                    body,
                    outside,
                )
            }
            Stmt::Tasks { line, tasks } => {
                let tasks = self.walk_tasks(task, tasks)?;
                Ok(ResolvedStmt::Tasks { line: *line, tasks })
            }
            Stmt::Handled { body, handlers, .. } => self.walk_handled(task, body, handlers),
        }
    }

    /// Walks a task, whose name stays in scope.
    #[cycle(statements)]
    fn walk_task(&mut self, first: usize, task: &TaskText) -> Result<ResolvedTask, ScriptFault>
        requires { first ≡ unwrap_or (first_task self.old.scope) (length self.old.scope) }
        ensures ok { OnOk result
            (outcome self.old.room (standings_from self.old.scope (task_before task.now stop)) ≡ goes_on self.new.room) }
        ensures refused { StopsAs result (outcome self.old.room (standings_from self.old.scope (task_before task.now stop))) }
        ensures scope { OnOk result (self.new.scope ≡ self.old.scope ++ entry task.now.name a_task ∷ []) }
        ensures resolved { IfOk result (λ made. resolved_task_before made no_statement
            ≡ resolved.resolve self.old.scope (task_before task.now stop)) }
    {
        refuse(task.line, task_fault(&self.scope, self.room, &task.name))?;
        declare(&mut self.scope, &task.name, Some(Meaning::Task))?;
        let named = self.scope.len();
        self.walk_decls(Some(first), task.locals.items())?;
        let steps = self.walk_statements(Some(first), &task.steps)?;
        self.scope.leave(named);
        Ok(resolve_task(&self.scope, task, steps)?)
    }

    /// Walks the tasks of a block, whose names go out of scope behind the last.
    #[cycle(statements)]
    fn walk_tasks(
        &mut self,
        task: Option<usize>,
        tasks: &TaskTexts,
    ) -> Result<ResolvedTasks, ScriptFault>
        requires { task ≡ first_task self.old.scope }
        ensures ok { OnOk result (outcome self.old.room (standings_from self.old.scope tasks.now) ≡ goes_on self.new.room) }
        ensures refused { StopsAs result (outcome self.old.room (standings_from self.old.scope tasks.now)) }
        ensures scope { OnOk result (self.new.scope ≡ self.old.scope) }
        ensures resolved { IfOk result (λ made. made ≡ resolved.resolve self.old.scope tasks.now) }
    {
        let mut made = Vec::new(self.scope.alloc());
        let before = self.scope.len();
        let first = task.unwrap_or(before);
        for task in tasks.items() {
            let resolved = self.walk_task(first, task)?;
            keep(&mut made, resolved)?;
        }
        self.scope.leave(before);
        Ok(ResolvedTasks::from_vec(made))
    }

    /// Walks what a block tries, and its handlers.
    #[cycle(statements)]
    fn walk_handled(
        &mut self,
        task: Option<usize>,
        body: &Stmts,
        handlers: &Handlers,
    ) -> Result<ResolvedStmt, ScriptFault>
        requires { task ≡ first_task self.old.scope }
        ensures ok { OnOk result
            (outcome self.old.room (standings_from self.old.scope body.now ++ handler_standings self.old.scope [] handlers.now) ≡ goes_on self.new.room) }
        ensures refused { StopsAs result
            (outcome self.old.room (standings_from self.old.scope body.now ++ handler_standings self.old.scope [] handlers.now)) }
        ensures scope { OnOk result (self.new.scope ≡ self.old.scope) }
        ensures resolved { IfOk result (λ made. resolved_before made no_statement
            ≡ a_block begins_at
            (a_block tries_at (resolved.resolve self.old.scope body.now) (resolved.resolve_handlers self.old.scope handlers.now)) no_statement) }
    {
        let body = self.walk_statements(task, body)?;
        let handlers = self.walk_handlers(task, handlers)?;
        Ok(ResolvedStmt::Handled { body, handlers })
    }

    /// Walks a handler behind others of its block.
    #[cycle(statements)]
    fn walk_handler(
        &mut self,
        task: Option<usize>,
        before: &[ResolvedHandler],
        handler: &Handler,
    ) -> Result<ResolvedHandler, ScriptFault>
        requires { task ≡ first_task self.old.scope }
        ensures ok { OnOk result
            (outcome self.old.room (handler_standings self.old.scope (named_by before.now) (handler_before handler.now no_handler)) ≡ goes_on self.new.room) }
        ensures refused { StopsAs result
            (outcome self.old.room (handler_standings self.old.scope (named_by before.now) (handler_before handler.now no_handler))) }
        ensures scope { OnOk result (self.new.scope ≡ self.old.scope) }
        ensures catches { IfOk result (λ made. made.catches ≡ handler.now.catches) }
        ensures resolved { IfOk result (λ made. resolved_handler_before made no_statement
            ≡ resolved.resolve_handlers self.old.scope (handler_before handler.now no_handler)) }
    {
        refuse(
            handler.line,
            handler_fault(&self.scope, self.room, before, handler.catches),
        )?;
        let body = self.walk_statements(task, &handler.body)?;
        Ok(ResolvedHandler {
            catches: handler.catches,
            body,
        })
    }

    /// Walks the handlers of a block, of which each names an exception that none before it names.
    #[cycle(statements)]
    fn walk_handlers(
        &mut self,
        task: Option<usize>,
        handlers: &Handlers,
    ) -> Result<ResolvedHandlers, ScriptFault>
        requires { task ≡ first_task self.old.scope }
        ensures ok { OnOk result (outcome self.old.room (handler_standings self.old.scope [] handlers.now) ≡ goes_on self.new.room) }
        ensures refused { StopsAs result (outcome self.old.room (handler_standings self.old.scope [] handlers.now)) }
        ensures scope { OnOk result (self.new.scope ≡ self.old.scope) }
        ensures resolved { IfOk result (λ made. made ≡ resolved.resolve_handlers self.old.scope handlers.now) }
    {
        let mut made = Vec::new(self.scope.alloc());
        for handler in handlers.items() {
            let resolved = self.walk_handler(task, &made, handler)?;
            keep(&mut made, resolved)?;
        }
        Ok(ResolvedHandlers::from_vec(made))
    }

    #[cycle(statements)]
    fn walk_statements(
        &mut self,
        task: Option<usize>,
        stmts: &Stmts,
    ) -> Result<ResolvedStmts, ScriptFault>
        requires { task ≡ first_task self.old.scope }
        ensures ok { OnOk result (outcome self.old.room (standings_from self.old.scope stmts.now) ≡ goes_on self.new.room) }
        ensures refused { StopsAs result (outcome self.old.room (standings_from self.old.scope stmts.now)) }
        ensures scope { OnOk result (self.new.scope ≡ self.old.scope) }
        ensures resolved { IfOk result (λ made. made ≡ resolved.resolve self.old.scope stmts.now) }
    {
        let mut made = Vec::new(self.scope.alloc());
        for stmt in stmts.items() {
            let resolved = self.walk_statement(task, stmt)?;
            keep(&mut made, resolved)?;
        }
        Ok(ResolvedStmts::from_vec(made))
    }
}

/// What a script is resolved to, and its outermost names.
#[derive(Drop)]
pub struct Resolved {
    pub decls: ResolvedDecls,
    pub stmts: ResolvedStmts,
    pub scope: Scope,
}

/// Resolves a script up to its first faulty item.
pub fn walk_script(alloc: Global, script: &Script) -> Result<Resolved, ScriptFault>
    ensures ok { OnOk result (IsChecked script.now) }
    ensures refused { (line : ℕ) (kind : RefusalKind) → result ≡ Err (Refused line kind) → IsFirstFault script.now line kind }
    ensures resolved { IfOk result (λ made. IsResolved script.now made.decls made.stmts) }
    ensures scope { IfOk result (λ made. made.scope ≡ with_decls [] script.now.decls) }
{
    let mut walk = Walk::new(alloc);
    let decls = walk.walk_decls(None, script.decls.items())?;
    let stmts = walk.walk_statements(None, &script.stmts)?;
    Ok(Resolved {
        decls,
        stmts,
        scope: walk.scope,
    })
}
