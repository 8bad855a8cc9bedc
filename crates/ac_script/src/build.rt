//! Scripts from their items.
ghost use Rattle.std.specs.Prelude.{◌≡◌, [], map, All, false, IfOk, OnOk};
ghost use Rattle.ac_syntax.specs.Code.{Code, Simple, block};
ghost use Rattle.ac_syntax.specs.declared.closing.Closing.{Closing};
ghost use Rattle.ac_syntax.specs.declared.stmt.Stmt.TheVariants.{Handled};
ghost use Rattle.ac_script.specs.declared.build.Ended.TheVariants.{Statement};
ghost use Rattle.ac_syntax.specs.Items.{script_items, declares, commands, opens, begins, closes, propagates, tries, catches};
ghost use Rattle.ac_syntax.specs.Order.{at_front, AreInOrder};
ghost use Rattle.ac_syntax.specs.Statements.{code_of, tasks_of, handlers_of};
ghost use Rattle.ac_script.specs.Arguments.{argument_view};
ghost use Rattle.ac_script.specs.Views.{item_view, command_view, head_view};
ghost use Rattle.ac_script.specs.Fits.{Fits, FitsSimple, FitsArg, FitArgs, IsInteger};
ghost use Rattle.ac_script.specs.Arguments.{integer_of};
ghost use Rattle.ac_script.specs.Building.{items_so_far, IsBuilding, IsEmpty, Runs, Takes, Enters, Adds, full_head, body_by, content_in, all_handlers, ended_before, ended_content};

use crate::argument::{Argument, Arguments};
use crate::item::{Command, Head, Item};
use crate::limits::LEAST;
use ac_base::{Exception, NoMemory, Text, Value};
use ac_syntax::{
    Arg, Args, Decl, Decls, Handler, Handlers, Script, Stmt, Stmts, TaskText, TaskTexts,
};
use std::alloc::Global;
use std::mem;

/// What stands in a block, or outside of all.
#[derive(Drop)]
struct Level {
    decls: Vec<Decl>,
    /// The word `begin` stands behind the declarations.
    begun: bool,
    stmts: Vec<Stmt>,
    /// In a block of tasks.
    tasks: Vec<TaskText>,
}

/// A statement that has ended, or a task of a block.
#[derive(Drop)]
enum Ended {
    Statement(Stmt),
    OfBlock(TaskText),
}

/// The handlers of a block, of which the last one is open.
#[derive(Drop)]
struct Catching {
    before: Vec<Handler>,
    /// The line of the open one's head.
    line: u64,
    /// The exception that it takes, or None where it takes all others.
    catches: Option<Exception>,
}

/// What is open around a level.
#[derive(Drop)]
enum Opening {
    Block(Head),
    /// What is tried in a block with handlers.
    Tried {
        line: u64,
    },
    /// Such a block behind `exception`, before its first handler.
    Awaiting {
        line: u64,
        tried: Stmts,
    },
    /// Such a block in one of its handlers.
    Handling {
        line: u64,
        tried: Stmts,
        last: Catching,
    },
}

/// A level in which something is open, and what that is.
#[derive(Drop)]
struct Enclosing {
    level: Level,
    opening: Opening,
}

/// A script as far as its items came.
#[derive(Drop)]
struct Building {
    /// The line of the pragma.
    pragma: Option<u64>,
    /// The levels around the innermost one, from the outermost on.
    around: Vec<Enclosing>,
    level: Level,
}

fn integer(minus: bool, magnitude: u64) -> i64
    requires { IsInteger (integer_of minus magnitude) }
    ensures { result ≡ integer_of minus magnitude }
{
    if !minus {
        magnitude as i64
    } else if magnitude == LEAST {
        i64::MIN
    } else {
        -(magnitude as i64)
    }
}

fn arg(alloc: Global, argument: Argument) -> Result<Arg, NoMemory>
    requires { FitsArg (argument_view argument) }
    ensures { IfOk result (λ made. made ≡ argument_view argument) }
{
    match argument {
        Argument::Integer { minus, magnitude } => Ok(Arg::Lit(Value::Int(integer(
            minus, magnitude,
        )))),
        Argument::Text(bytes) => match Text::new(alloc, bytes.bytes()) {
            Ok(text) => Ok(Arg::Lit(Value::Text(text))),
            Err(_) => Err(NoMemory),
        },
        Argument::NoElement => Ok(Arg::NoElement),
        Argument::Var(name) => Ok(Arg::Var(name)),
    }
}

fn args(alloc: Global, arguments: Arguments) -> Result<Args, NoMemory>
    requires { FitArgs arguments }
    ensures { IfOk result (λ made. made ≡ arguments) }
{
    let mut items = Vec::new(alloc);
    for argument in arguments.into_vec() {
        items.push(arg(alloc, argument)?)?;
    }
    Ok(Args::from_vec(items))
}

fn command(alloc: Global, command: Command) -> Result<Stmt, NoMemory>
    requires { FitsSimple (command_view command) }
    ensures { IfOk result (λ stmt. Runs stmt (command_view command)) }
{
    Ok(match command {
        Command::Call {
            line,
            target,
            object,
            op,
            args: arguments,
        } => Stmt::Call {
            line,
            target,
            object,
            op,
            args: args(alloc, arguments)?,
        },
        Command::Set { line, target, from } => Stmt::Set {
            line,
            target,
            from: arg(alloc, from)?,
        },
        Command::Sum {
            line,
            target,
            from,
            minus,
            number,
        } => Stmt::Sum {
            line,
            target,
            from,
            minus,
            number,
        },
    })
}

/// A block with its declarations and its body, or a task with its locals and its commands.
fn end_block(head: Head, decls: Decls, body: Stmts, tasks: TaskTexts) -> Ended
    ensures block { (rest : Code) → ended_before result rest ≡ block (full_head head decls) (body_by head body tasks) rest }
    ensures content { ended_content result ≡ content_in head }
{
    match head {
        Head::Loop {
            line,
            name,
            elements,
            backward,
            object,
        } => Ended::Statement(Stmt::Loop {
            line,
            name,
            elements,
            backward,
            object,
            body,
        }),
        Head::View {
            line,
            kind,
            object,
            at,
            name,
        } => Ended::Statement(Stmt::View {
            line,
            kind,
            object,
            at,
            name,
            body,
        }),
        Head::Stable { line, object } => Ended::Statement(Stmt::Stable { line, object, body }),
        Head::Declare { line } => Ended::Statement(Stmt::Declare { line, decls, body }),
        Head::Tasks { line } => Ended::Statement(Stmt::Tasks { line, tasks }),
        Head::Task { line, name } => Ended::OfBlock(TaskText {
            line,
            name,
            locals: decls,
            steps: body,
        }),
    }
}

/// A block with this head that has ended, of which this was inside.
fn end_inside(head: Head, inside: Level) -> Ended
    ensures block { (rest : Code) → ended_before result rest ≡ block (full_head head inside.decls.items) (body_by head (code_of inside.stmts.items) (tasks_of inside.tasks.items)) rest }
    ensures content { ended_content result ≡ content_in head }
{
    let decls = Decls::from_vec(inside.decls);
    let body = Stmts::from_vec(inside.stmts);
    let tasks = TaskTexts::from_vec(inside.tasks);
    end_block(head, decls, body, tasks)
}

/// The handlers, of which the open one has these statements.
fn ended_handlers(last: Catching, stmts: Vec<Stmt>) -> Result<Vec<Handler>, NoMemory>
    ensures { IfOk result (λ made. made.items ≡ all_handlers last stmts.items) }
{
    let mut handlers = last.before;
    handlers.push(Handler {
        line: last.line,
        catches: last.catches,
        body: Stmts::from_vec(stmts),
    })?;
    Ok(handlers)
}

/// A block with handlers that has ended, where the open one has these statements.
fn end_handlers(
    line: u64,
    tried: Stmts,
    last: Catching,
    stmts: Vec<Stmt>,
) -> Result<Ended, NoMemory>
    ensures { IfOk result (λ ended. ended ≡ Statement (Handled line tried (handlers_of (all_handlers last stmts.items)))) }
{
    let handlers = Handlers::from_vec(ended_handlers(last, stmts)?);
    Ok(Ended::Statement(Stmt::Handled {
        line,
        body: tried,
        handlers,
    }))
}

/// The handler behind the open one, which has these statements.
fn next_handler(
    last: Catching,
    stmts: Vec<Stmt>,
    line: u64,
    catches: Option<Exception>,
) -> Result<Catching, NoMemory>
    ensures { IfOk result (λ next. (next.before.items ≡ all_handlers last stmts.items) × (next.line ≡ line) × (next.catches ≡ catches)) }
{
    let before = ended_handlers(last, stmts)?;
    Ok(Catching {
        before,
        line,
        catches,
    })
}

impl Level {
    fn new(alloc: Global) -> Level
        ensures { IsEmpty result }
    {
        Level {
            decls: Vec::new(alloc),
            begun: false,
            stmts: Vec::new(alloc),
            tasks: Vec::new(alloc),
        }
    }

    /// Takes what has ended in it.
    fn take(&mut self, ended: Ended) -> Result<(), NoMemory>
        ensures { OnOk result (Takes ended self.old self.new) }
    {
        match ended {
            Ended::Statement(stmt) => self.stmts.push(stmt)?,
            Ended::OfBlock(task) => self.tasks.push(task)?,
        }
        Ok(())
    }
}

impl Building {
    fn new(alloc: Global) -> Building
        ensures items { items_so_far result ≡ [] }
        ensures built { IsBuilding result at_front }
    {
        Building {
            pragma: None,
            around: Vec::new(alloc),
            level: Level::new(alloc),
        }
    }

    /// Adds the item that comes next.
    fn add(&mut self, alloc: Global, item: Item) -> Result<(), NoMemory>
        requires { Fits (item_view item) }
        ensures { OnOk result (Adds (item_view item) self.old self.new) }
    {
        match item {
            Item::Declares(decl) => self.declare(decl),
            Item::Commands(simple) => self.run(command(alloc, simple)?),
            Item::Opens(head) => self.open(alloc, head),
            Item::Begins => self.begin(),
            Item::Closes(_) => self.leave(alloc),
            Item::Propagates { line } => self.propagate(line),
            Item::Tries { line } => self.attempt(alloc, line),
            Item::Catches { line, exception } => self.catch(alloc, line, exception),
        }
    }

    fn declare(&mut self, decl: Decl) -> Result<(), NoMemory>
        ensures { OnOk result (Adds (declares decl) self.old self.new) }
    {
        self.level.decls.push(decl)?;
        Ok(())
    }

    fn run(&mut self, stmt: Stmt) -> Result<(), NoMemory>
        ensures { (simple : Simple) → Runs stmt simple → OnOk result (Adds (commands simple) self.old self.new) }
    {
        self.level.stmts.push(stmt)?;
        Ok(())
    }

    /// Goes into what is opened.
    fn enter(&mut self, alloc: Global, opening: Opening) -> Result<(), NoMemory>
        ensures { OnOk result (Enters opening self.old self.new) }
    {
        let level = mem::replace(&mut self.level, Level::new(alloc));
        self.around.push(Enclosing { level, opening })?;
        Ok(())
    }

    /// Goes into a block.
    fn open(&mut self, alloc: Global, head: Head) -> Result<(), NoMemory>
        ensures { OnOk result (Adds (opens (head_view head)) self.old self.new) }
    {
        self.enter(alloc, Opening::Block(head))?;
        Ok(())
    }

    /// Goes into what is tried in a block with handlers.
    fn attempt(&mut self, alloc: Global, line: u64) -> Result<(), NoMemory>
        ensures { OnOk result (Adds (tries line) self.old self.new) }
    {
        self.enter(alloc, Opening::Tried { line })?;
        Ok(())
    }

    fn begin(&mut self) -> Result<(), NoMemory>
        ensures { OnOk result (Adds begins self.old self.new) }
    {
        self.level.begun = true;
        Ok(())
    }

    fn propagate(&mut self, line: u64) -> Result<(), NoMemory>
        ensures { OnOk result (Adds (propagates line) self.old self.new) }
    {
        self.pragma = Some(line);
        Ok(())
    }

    /// Goes out of the innermost block, or of what is tried in it.
    fn leave(&mut self, alloc: Global) -> Result<(), NoMemory>
        ensures { (closing : Closing) → OnOk result (Adds (closes closing) self.old self.new) }
    {
        let Some(Enclosing { level, opening }) = self.around.pop() else {
            return Ok(());
        };
        let inside = mem::replace(&mut self.level, level);
        match opening {
            Opening::Block(head) => {
                self.level.take(end_inside(head, inside))?;
                Ok(())
            }
            Opening::Tried { line } => {
                let tried = Stmts::from_vec(inside.stmts);
                self.enter(alloc, Opening::Awaiting { line, tried })?;
                Ok(())
            }
            Opening::Awaiting { .. } => Ok(()),
            Opening::Handling { line, tried, last } => {
                self.level
                    .take(end_handlers(line, tried, last, inside.stmts)?)?;
                Ok(())
            }
        }
    }

    /// Goes into a handler of the innermost block, out of the one before it, if there is one.
    fn catch(
        &mut self,
        alloc: Global,
        own: u64,
        exception: Option<Exception>,
    ) -> Result<(), NoMemory>
        ensures { OnOk result (Adds (catches own exception) self.old self.new) }
    {
        let Some(Enclosing { level, opening }) = self.around.pop() else {
            return Ok(());
        };
        let inside = mem::replace(&mut self.level, level);
        match opening {
            Opening::Block(_) => Ok(()),
            Opening::Tried { .. } => Ok(()),
            Opening::Awaiting { line, tried } => {
                let last = Catching {
                    before: Vec::new(alloc),
                    line: own,
                    catches: exception,
                };
                self.enter(alloc, Opening::Handling { line, tried, last })?;
                Ok(())
            }
            Opening::Handling { line, tried, last } => {
                let last = next_handler(last, inside.stmts, own, exception)?;
                self.enter(alloc, Opening::Handling { line, tried, last })?;
                Ok(())
            }
        }
    }
}

fn built(alloc: Global, items: Vec<Item>) -> Result<Building, NoMemory>
    requires order { AreInOrder (map item_view items.items) }
    requires fits { All Fits (map item_view items.items) }
    ensures items { IfOk result (λ made. items_so_far made ≡ map item_view items.items) }
    ensures ended { IfOk result (λ made. made.around.items ≡ []) }
    ensures unbegun { IfOk result (λ made. made.level.begun ≡ false) }
    ensures taskless { IfOk result (λ made. made.level.tasks.items ≡ []) }
{
    let mut made = Building::new(alloc);
    for item in items {
        made.add(alloc, item)?;
    }
    Ok(made)
}

/// The script of these items, whose order is a script's.
pub fn build(alloc: Global, items: Vec<Item>) -> Result<Script, NoMemory>
    requires order { AreInOrder (map item_view items.items) }
    requires fits { All Fits (map item_view items.items) }
    ensures { IfOk result (λ script. script_items script ≡ map item_view items.items) }
{
    let Building {
        pragma,
        around: _,
        level,
    } = built(alloc, items)?;
    Ok(Script {
        pragma,
        decls: Decls::from_vec(level.decls),
        stmts: Stmts::from_vec(level.stmts),
    })
}
