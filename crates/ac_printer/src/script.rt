//! A script is put on a page, statement by statement.
ghost use Rattle.std.specs.Prelude.{◌≡◌, IfOk, OnOk};
ghost use Rattle.ac_syntax.specs.Code.{tasks_at, stop, block, handled, no_handler};
ghost use Rattle.ac_syntax.specs.Items.{items, handler_items, closes};
ghost use Rattle.ac_syntax.specs.Statements.{before, task_before, handler_before};
ghost use Rattle.ac_syntax.specs.Canonical.{canonical_text};
ghost use Rattle.ac_printer.specs.Page.{put_item, put_items};

use crate::block::{
    put_declare, put_end, put_handler_head, put_handlers_end, put_loop, put_pragma, put_stable,
    put_task_head, put_tasks_word, put_try, put_view,
};
use crate::command::{put_call, put_set, put_sum};
use crate::declaration::put_declarations;
use crate::page::Page;
use ac_base::NoMemory;
use ac_syntax::{Closing, Handler, Handlers, Script, Stmt, Stmts, TaskText, TaskTexts};
use std::alloc::Global;

/// Writes the statements in a block, and what ends it.
#[cycle(statements)]
fn put_body(page: &mut Page, body: &Stmts, closing: Closing) -> Result<(), NoMemory>
    ensures { OnOk result (page.new ≡ put_item (put_items page.old (items body.now)) (closes closing)) }
{
    put_statements(page, body)?;
    put_end(page, closing)
}

#[cycle(statements)]
fn put_statement(page: &mut Page, stmt: &Stmt) -> Result<(), NoMemory>
    ensures { OnOk result (page.new ≡ put_items page.old (items (before stmt.now stop))) }
{
    match stmt {
        Stmt::Call {
            line,
            target,
            object,
            op,
            args,
        } => put_call(page, *line, target, object, op, args),
        Stmt::Set { line, target, from } => put_set(page, *line, target, from),
        Stmt::Sum {
            line,
            target,
            from,
            minus,
            number,
        } => put_sum(page, *line, target, from, *minus, *number),
        Stmt::Loop {
            line,
            name,
            elements,
            backward,
            object,
            body,
        } => {
            put_loop(page, *line, name, *elements, *backward, object)?;
            put_body(page, body, Closing::EndLoop)
        }
        Stmt::View {
            line,
            kind,
            object,
            at,
            name,
            body,
        } => {
            put_view(page, *line, *kind, object, at, name)?;
            put_body(page, body, Closing::End)
        }
        Stmt::Stable { line, object, body } => {
            put_stable(page, *line, object)?;
            put_body(page, body, Closing::End)
        }
        Stmt::Declare { line, decls, body } => {
            put_declare(page, *line, decls)?;
            put_body(page, body, Closing::End)
        }
        Stmt::Tasks { line, tasks } => put_task_block(page, *line, tasks),
        Stmt::Handled {
            line,
            body,
            handlers,
        } => put_handled(page, *line, body, handlers),
    }
}

#[cycle(statements)]
fn put_task_block(page: &mut Page, line: u64, tasks: &TaskTexts) -> Result<(), NoMemory>
    ensures { OnOk result (page.new ≡ put_items page.old (items (block (tasks_at line) tasks.now stop))) }
{
    put_tasks_word(page, line)?;
    put_tasks(page, tasks)?;
    put_end(page, Closing::EndTasks)
}

#[cycle(statements)]
fn put_handled(
    page: &mut Page,
    line: u64,
    body: &Stmts,
    handlers: &Handlers,
) -> Result<(), NoMemory>
    ensures { OnOk result (page.new ≡ put_items page.old (items (handled line body.now handlers.now stop))) }
{
    put_try(page, line)?;
    put_body(page, body, Closing::EndTried)?;
    put_handlers(page, handlers)?;
    put_handlers_end(page)
}

#[cycle(statements)]
fn put_task(page: &mut Page, task: &TaskText) -> Result<(), NoMemory>
    ensures { OnOk result (page.new ≡ put_items page.old (items (task_before task.now stop))) }
{
    put_task_head(page, task.line, &task.name, &task.locals)?;
    put_body(page, &task.steps, Closing::EndTask)
}

#[cycle(statements)]
fn put_tasks(page: &mut Page, tasks: &TaskTexts) -> Result<(), NoMemory>
    ensures { OnOk result (page.new ≡ put_items page.old (items tasks.now)) }
{
    for task in tasks.items() {
        put_task(page, task)?;
    }
    Ok(())
}

#[cycle(statements)]
fn put_handler(page: &mut Page, handler: &Handler) -> Result<(), NoMemory>
    ensures { OnOk result (page.new ≡ put_items page.old (handler_items (handler_before handler.now no_handler))) }
{
    put_handler_head(page, handler.line, handler.catches)?;
    put_statements(page, &handler.body)
}

#[cycle(statements)]
fn put_handlers(page: &mut Page, handlers: &Handlers) -> Result<(), NoMemory>
    ensures { OnOk result (page.new ≡ put_items page.old (handler_items handlers.now)) }
{
    for handler in handlers.items() {
        put_handler(page, handler)?;
    }
    Ok(())
}

#[cycle(statements)]
fn put_statements(page: &mut Page, stmts: &Stmts) -> Result<(), NoMemory>
    ensures { OnOk result (page.new ≡ put_items page.old (items stmts.now)) }
{
    for stmt in stmts.items() {
        put_statement(page, stmt)?;
    }
    Ok(())
}

/// The canonical text of a script.
pub fn print(alloc: Global, script: &Script) -> Result<Vec<u8>, NoMemory>
    ensures { IfOk result (λ text. text.items ≡ canonical_text script.now) }
{
    let mut page = Page::new(alloc);
    put_pragma(&mut page, script.pragma)?;
    put_declarations(&mut page, &script.decls)?;
    put_statements(&mut page, &script.stmts)?;
    page.finish()
}
