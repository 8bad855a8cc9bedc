//! Whether statements have a block of tasks.
ghost use Rattle.std.specs.Prelude.{◌≡◌};
ghost use Rattle.ac_rules.specs.HasTasks.{has_tasks};
ghost use Rattle.ac_rules.specs.Resolved.{no_statement};
ghost use Rattle.ac_rules.specs.ResolvedStatements.{resolved_before};

use ac_rules::{ResolvedHandlers, ResolvedStmt, ResolvedStmts};

#[cycle(having)]
pub(crate) fn has_tasks(stmts: &ResolvedStmts) -> bool
    ensures { result ≡ has_tasks stmts.now }
{
    for stmt in stmts.items() {
        if one_has_tasks(stmt) {
            return true;
        }
    }
    false
}

#[cycle(having)]
fn one_has_tasks(stmt: &ResolvedStmt) -> bool
    ensures { result ≡ has_tasks (resolved_before stmt.now no_statement) }
{
    match stmt {
        ResolvedStmt::Loop { body, .. } => has_tasks(body),
        ResolvedStmt::View { body, .. } => has_tasks(body),
        ResolvedStmt::Stable { body, .. } => has_tasks(body),
        ResolvedStmt::Declare { body, .. } => has_tasks(body),
        ResolvedStmt::Tasks { .. } => true,
        ResolvedStmt::Handled { body, handlers } => has_tasks(body) || some_has_tasks(handlers),
        _ => false,
    }
}

#[cycle(having)]
fn some_has_tasks(handlers: &ResolvedHandlers) -> bool
    ensures { result ≡ has_tasks handlers.now }
{
    for handler in handlers.items() {
        if has_tasks(&handler.body) {
            return true;
        }
    }
    false
}
