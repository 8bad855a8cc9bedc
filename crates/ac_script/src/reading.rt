//! The items of a script, read one after another.
ghost use Rattle.std.specs.Prelude.{◌≡◌, Bool, true, reverse, IfOk};
ghost use Rattle.ac_syntax.specs.Items as items;
ghost use Rattle.ac_syntax.specs.Order.{IsEnd, entered, task_entered, tried, caught, stage_behind};
ghost use Rattle.ac_script.specs.ItemReader.{innermost_of};
ghost use Rattle.ac_script.specs.Views.{item_view, head_view, stage_view};
ghost use Rattle.ac_script.specs.Readings as readings;
ghost use Rattle.ac_script.specs.Readings.{IsReading, Enters, Leads, Leaves, GoesOn, context_of, reading_at};

use crate::item::{Head, Item};
use crate::item_reader::read_item;
use crate::stage::Stage;
use crate::stop::Stop;
use ac_base::{Exception, NoMemory};
use ac_syntax::{Closing, Placed};
use std::alloc::Global;

/// What the tokens of a text come to.
#[derive(Drop)]
pub enum Reading {
    /// The items of a script.
    Whole(Vec<Item>),
    /// They end too early.
    Early,
    /// On this line stands the first one with which no script begins.
    Bad { line: u64 },
}

/// The words that end the innermost open block, where one is open.
fn innermost(open_blocks: &[Closing]) -> Option<Closing>
    ensures { result ≡ innermost_of (reverse open_blocks.now) }
{
    match open_blocks {
        [.., last] => Some(*last),
        [] => None,
    }
}

/// The words that end a block with this head.
fn ending(head: &Head) -> Closing
    ensures { result ≡ items.ending (head_view head.now) }
{
    match head {
        Head::Loop { .. } => Closing::EndLoop,
        Head::View { .. } | Head::Stable { .. } | Head::Declare { .. } => Closing::End,
        Head::Tasks { .. } => Closing::EndTasks,
        Head::Task { .. } => Closing::EndTask,
    }
}

/// Opens a block.
fn enter(open_blocks: &mut Vec<Closing>, head: &Head) -> Result<Stage, NoMemory>
    ensures block { IfOk result (Enters entered open_blocks.old.items open_blocks.new.items (head_view head.now)) }
    ensures task { IfOk result (Enters task_entered open_blocks.old.items open_blocks.new.items (head_view head.now)) }
{
    open_blocks.push(ending(head))?;
    Ok(match head {
        Head::Declare { .. } => Stage::Heading,
        Head::Tasks { .. } => Stage::Tasking,
        Head::Task { .. } => Stage::Preparing,
        Head::Loop { .. } | Head::View { .. } | Head::Stable { .. } => Stage::Running,
    })
}

/// Opens a block with handlers, and what is tried in it.
fn enter_tried(open_blocks: &mut Vec<Closing>) -> Result<Stage, NoMemory>
    ensures { IfOk result (Leads tried open_blocks.old.items open_blocks.new.items) }
{
    open_blocks.push(Closing::EndHandlers)?;
    open_blocks.push(Closing::EndTried)?;
    Ok(Stage::Running)
}

/// The words that end a block whose last handler takes this.
fn handler_end(exception: Option<Exception>) -> Closing
    ensures { result ≡ items.handler_end exception }
{
    match exception {
        None => Closing::EndOthers,
        Some(_) => Closing::EndHandlers,
    }
}

/// Begins a handler in the innermost block.
fn enter_handler(
    open_blocks: &mut Vec<Closing>,
    exception: Option<Exception>,
) -> Result<Stage, NoMemory>
    ensures { IfOk result (Leads (λ propagating blocks. caught propagating exception blocks) open_blocks.old.items open_blocks.new.items) }
{
    open_blocks.pop();
    open_blocks.push(handler_end(exception))?;
    Ok(Stage::Running)
}

/// Closes the innermost block, or what is tried in it.
fn leave(open_blocks: &mut Vec<Closing>) -> Stage
    ensures { Leaves open_blocks.old.items open_blocks.new.items result }
{
    match open_blocks.pop() {
        Some(closing) => behind(closing),
        None => Stage::Running,
    }
}

/// How far the script has come behind a block that ends so.
fn behind(closing: Closing) -> Stage
    ensures { stage_view result ≡ stage_behind closing }
{
    match closing {
        Closing::EndLoop
        | Closing::End
        | Closing::EndTasks
        | Closing::EndHandlers
        | Closing::EndOthers => Stage::Running,
        Closing::EndTask => Stage::Tasked,
        Closing::EndTried => Stage::Catching,
    }
}

/// How far the script has come behind a declaration.
fn declared(stage: Stage) -> Stage
    ensures { result ≡ readings.declared stage }
{
    match stage {
        Stage::Fronting => Stage::Listing,
        _ => stage,
    }
}

/// How far the script has come behind a command.
fn ran(stage: Stage) -> Stage
    ensures { result ≡ readings.ran stage }
{
    match stage {
        Stage::Stepping => Stage::Stepping,
        _ => Stage::Running,
    }
}

/// How far the script has come behind the word `begin`.
fn begun(stage: Stage) -> Stage
    ensures { result ≡ readings.begun stage }
{
    match stage {
        Stage::Preparing => Stage::Stepping,
        _ => Stage::Running,
    }
}

/// Whether exceptions propagate behind an item.
fn propagates_after(propagating: bool, item: &Item) -> bool
    ensures { result ≡ readings.propagates_after propagating (item_view item.now) }
{
    propagating || matches!(item, Item::Propagates { .. })
}

/// How far the script has come behind an item that may come.
fn after(open_blocks: &mut Vec<Closing>, stage: Stage, item: &Item) -> Result<Stage, NoMemory>
    ensures { IfOk result (GoesOn open_blocks.old.items open_blocks.new.items stage (item_view item.now)) }
{
    match item {
        Item::Declares(_) => Ok(declared(stage)),
        Item::Commands(_) => Ok(ran(stage)),
        Item::Begins => Ok(begun(stage)),
        Item::Opens(head) => enter(open_blocks, head),
        Item::Closes(_) => Ok(leave(open_blocks)),
        Item::Propagates { .. } => Ok(Stage::Listing),
        Item::Tries { .. } => enter_tried(open_blocks),
        Item::Catches { exception, .. } => enter_handler(open_blocks, *exception),
    }
}

/// Why reading stopped at these tokens.
fn stopped(at: &[Placed]) -> Reading
    ensures { result ≡ reading_at at.now }
{
    match at {
        [bad, ..] => Reading::Bad { line: bad.line },
        [] => Reading::Early,
    }
}

/// A script may end where these blocks are open.
fn may_end(open_blocks: &[Closing], stage: Stage) -> bool
    ensures ends { (propagating : Bool) → result ≡ true → IsEnd (context_of propagating open_blocks.now stage) }
    ensures only { (propagating : Bool) → IsEnd (context_of propagating open_blocks.now stage) → result ≡ true }
{
    open_blocks.is_empty() && !matches!(stage, Stage::Heading | Stage::Preparing | Stage::Catching)
}

/// Reads the items that the tokens are, up to the first bad token.
pub fn read(alloc: Global, tokens: &[Placed]) -> Result<Reading, NoMemory>
    ensures { IfOk result (λ reading. IsReading reading tokens.now) }
{
    let mut items = Vec::new(alloc);
    let mut open_blocks = Vec::new(alloc);
    let mut propagating = false;
    let mut stage = Stage::Fronting;
    let mut rest = tokens;
    while !rest.is_empty() {
        match read_item(alloc, propagating, stage, innermost(&open_blocks), rest) {
            Ok((item, behind)) => {
                propagating = propagates_after(propagating, &item);
                stage = after(&mut open_blocks, stage, &item)?;
                items.push(item)?;
                rest = behind;
            }
            Err(Stop::At(at)) => return Ok(stopped(at)),
            Err(Stop::NoMemory) => return Err(NoMemory),
        }
    }
    if !may_end(&open_blocks, stage) {
        return Ok(Reading::Early);
    }
    Ok(Reading::Whole(items))
}
