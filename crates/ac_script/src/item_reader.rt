//! The reader of one item, where it may come.
ghost use Rattle.std.specs.Prelude.{◌≡◌};
ghost use Rattle.ac_script.specs.Outcomes.{Reads, Sees, Finds};
ghost use Rattle.ac_script.specs.Views.{item_view, stage_view};
ghost use Rattle.ac_script.specs.ItemReader as readers;

use crate::command::command;
use crate::declaration::{declared, integer_end, type_declaration};
use crate::handler::{handler_item, in_catching, pragma_item};
use crate::head::{Lead, find_lead, head, task_head};
use crate::item::Item;
use crate::reader::{find_keyword, find_mark, find_word, mark, name, word};
use crate::stage::Stage;
use crate::stop::Stop;
use ac_syntax::{Closing, Ident, Keyword, Mark, Placed};
use std::alloc::Global;

/// The first word of what ends a block.
fn find_end(words: Closing, tokens: &[Placed]) -> Option<&[Placed]>
    ensures { Finds (λ rest. (tt, rest.now)) result tokens.now (readers.end words tokens.now) }
{
    match words {
        Closing::EndTried => find_keyword(tokens, Keyword::Exception),
        Closing::EndLoop
        | Closing::End
        | Closing::EndTasks
        | Closing::EndTask
        | Closing::EndHandlers
        | Closing::EndOthers => find_word(tokens, b"end"),
    }
}

fn end(words: Closing, tokens: &[Placed]) -> Result<&[Placed], Stop<'_>>
    ensures { Sees (λ rest. (tt, rest.now)) result (readers.end words tokens.now) }
{
    find_end(words, tokens).ok_or(Stop::At(tokens))
}

/// What follows that word.
#[tactic(auto, unfolding(crate::specs::ItemReader::closing))]
fn closing(words: Closing, tokens: &[Placed]) -> Result<(Item, &[Placed]), Stop<'_>>
    ensures { Reads item_view result (readers.closing words tokens.now) }
{
    match words {
        Closing::EndLoop => {
            let rest = word(tokens, b"loop")?;
            let rest = mark(rest, Mark::Semicolon)?;
            Ok((Item::Closes(Closing::EndLoop), rest))
        }
        Closing::End => {
            let rest = mark(tokens, Mark::Semicolon)?;
            Ok((Item::Closes(Closing::End), rest))
        }
        Closing::EndTasks => {
            let rest = word(tokens, b"tasks")?;
            let rest = mark(rest, Mark::Semicolon)?;
            Ok((Item::Closes(Closing::EndTasks), rest))
        }
        Closing::EndTask => {
            let rest = mark(tokens, Mark::Semicolon)?;
            Ok((Item::Closes(Closing::EndTask), rest))
        }
        Closing::EndTried => Ok((Item::Closes(Closing::EndTried), tokens)),
        Closing::EndHandlers => {
            let rest = mark(tokens, Mark::Semicolon)?;
            Ok((Item::Closes(Closing::EndHandlers), rest))
        }
        Closing::EndOthers => {
            let rest = mark(tokens, Mark::Semicolon)?;
            Ok((Item::Closes(Closing::EndOthers), rest))
        }
    }
}

#[tactic(auto, unfolding(crate::specs::ItemReader::type_item))]
fn type_item(alloc: Global, line: u64, tokens: &[Placed]) -> Result<(Item, &[Placed]), Stop<'_>>
    ensures { Reads item_view result (readers.type_item line tokens.now) }
{
    let (decl, rest) = type_declaration(alloc, line, tokens)?;
    Ok((Item::Declares(decl), rest))
}

#[tactic(auto, unfolding(crate::specs::ItemReader::declared_item))]
fn declared_item<'a>(
    alloc: Global,
    line: u64,
    name: &Ident,
    tokens: &'a [Placed],
) -> Result<(Item, &'a [Placed]), Stop<'a>>
    ensures { Reads item_view result (readers.declared_item line name.now tokens.now) }
{
    let (decl, rest) = declared(alloc, line, name, tokens)?;
    Ok((Item::Declares(decl), rest))
}

#[tactic(auto, unfolding(crate::specs::ItemReader::command_item))]
fn command_item<'a>(
    alloc: Global,
    line: u64,
    name: &Ident,
    tokens: &'a [Placed],
) -> Result<(Item, &'a [Placed]), Stop<'a>>
    ensures { Reads item_view result (readers.command_item line name.now tokens.now) }
{
    let (command, rest) = command(alloc, line, name, tokens)?;
    Ok((Item::Commands(command), rest))
}

#[tactic(auto, unfolding(crate::specs::ItemReader::head_item))]
fn head_item(
    alloc: Global,
    lead: Lead,
    line: u64,
    tokens: &[Placed],
) -> Result<(Item, &[Placed]), Stop<'_>>
    ensures { Reads item_view result (readers.head_item lead line tokens.now) }
{
    let (head, rest) = head(alloc, lead, line, tokens)?;
    Ok((Item::Opens(head), rest))
}

#[tactic(auto, unfolding(crate::specs::ItemReader::behind_name))]
fn behind_name<'a>(
    alloc: Global,
    stage: Stage,
    line: u64,
    name: &Ident,
    tokens: &'a [Placed],
) -> Result<(Item, &'a [Placed]), Stop<'a>>
    ensures { Reads item_view result (readers.behind_name (stage_view stage) line name.now tokens.now) }
{
    match stage {
        Stage::Listing => match find_mark(tokens, Mark::Colon) {
            Some(rest) => declared_item(alloc, line, name, rest),
            None => command_item(alloc, line, name, tokens),
        },
        Stage::Heading => {
            let rest = mark(tokens, Mark::Colon)?;
            declared_item(alloc, line, name, rest)
        }
        _ => command_item(alloc, line, name, tokens),
    }
}

#[tactic(auto, unfolding(crate::specs::ItemReader::named))]
fn named(
    alloc: Global,
    stage: Stage,
    line: u64,
    tokens: &[Placed],
) -> Result<(Item, &[Placed]), Stop<'_>>
    ensures { Reads item_view result (readers.named (stage_view stage) line tokens.now) }
{
    let (name, rest) = name(tokens)?;
    behind_name(alloc, stage, line, name, rest)
}

/// The end of the innermost block, where one is open, or what begins with a name.
#[tactic(auto, unfolding(crate::specs::ItemReader::ended))]
fn ended(
    alloc: Global,
    stage: Stage,
    innermost: Option<Closing>,
    line: u64,
    tokens: &[Placed],
) -> Result<(Item, &[Placed]), Stop<'_>>
    ensures { Reads item_view result (readers.ended (stage_view stage) innermost line tokens.now) }
{
    match innermost {
        Some(words) => match find_end(words, tokens) {
            Some(rest) => closing(words, rest),
            None => named(alloc, stage, line, tokens),
        },
        None => named(alloc, stage, line, tokens),
    }
}

#[tactic(auto, unfolding(crate::specs::ItemReader::statement))]
fn statement(
    alloc: Global,
    stage: Stage,
    innermost: Option<Closing>,
    line: u64,
    tokens: &[Placed],
) -> Result<(Item, &[Placed]), Stop<'_>>
    ensures { Reads item_view result (readers.statement (stage_view stage) innermost line tokens.now) }
{
    match find_lead(tokens) {
        Some((lead, rest)) => head_item(alloc, lead, line, rest),
        None => ended(alloc, stage, innermost, line, tokens),
    }
}

/// A statement, or `begin` of a block with handlers where exceptions propagate.
#[tactic(auto, unfolding(crate::specs::ItemReader::tried))]
fn tried(
    alloc: Global,
    propagating: bool,
    stage: Stage,
    innermost: Option<Closing>,
    line: u64,
    tokens: &[Placed],
) -> Result<(Item, &[Placed]), Stop<'_>>
    ensures { Reads item_view result (readers.tried propagating (stage_view stage) innermost line tokens.now) }
{
    if !propagating {
        return statement(alloc, stage, innermost, line, tokens);
    }
    match find_word(tokens, b"begin") {
        Some(rest) => Ok((Item::Tries { line }, rest)),
        None => statement(alloc, stage, innermost, line, tokens),
    }
}

#[tactic(auto, unfolding(crate::specs::ItemReader::in_listing))]
fn in_listing(
    alloc: Global,
    propagating: bool,
    innermost: Option<Closing>,
    line: u64,
    tokens: &[Placed],
) -> Result<(Item, &[Placed]), Stop<'_>>
    ensures { Reads item_view result (readers.in_listing propagating innermost line tokens.now) }
{
    match find_word(tokens, b"type") {
        Some(rest) => type_item(alloc, line, rest),
        None => tried(alloc, propagating, Stage::Listing, innermost, line, tokens),
    }
}

#[tactic(auto, unfolding(crate::specs::ItemReader::in_fronting))]
fn in_fronting(
    alloc: Global,
    propagating: bool,
    innermost: Option<Closing>,
    line: u64,
    tokens: &[Placed],
) -> Result<(Item, &[Placed]), Stop<'_>>
    ensures { Reads item_view result (readers.in_fronting propagating innermost line tokens.now) }
{
    match find_keyword(tokens, Keyword::Pragma) {
        Some(rest) => pragma_item(line, rest),
        None => in_listing(alloc, propagating, innermost, line, tokens),
    }
}

/// A handler may stand in the innermost block.
fn may_catch(innermost: Option<Closing>) -> bool
    ensures { result ≡ readers.may_catch innermost }
{
    matches!(innermost, Some(Closing::EndHandlers))
}

/// A statement, or another handler where one may come.
#[tactic(auto, unfolding(crate::specs::ItemReader::handled))]
fn handled(
    alloc: Global,
    another: bool,
    propagating: bool,
    innermost: Option<Closing>,
    line: u64,
    tokens: &[Placed],
) -> Result<(Item, &[Placed]), Stop<'_>>
    ensures { Reads item_view result (readers.handled another propagating innermost line tokens.now) }
{
    if !another {
        return tried(alloc, propagating, Stage::Running, innermost, line, tokens);
    }
    match find_keyword(tokens, Keyword::When) {
        Some(rest) => handler_item(line, rest),
        None => tried(alloc, propagating, Stage::Running, innermost, line, tokens),
    }
}

fn in_running(
    alloc: Global,
    propagating: bool,
    innermost: Option<Closing>,
    line: u64,
    tokens: &[Placed],
) -> Result<(Item, &[Placed]), Stop<'_>>
    ensures { Reads item_view result (readers.in_running propagating innermost line tokens.now) }
{
    let another = may_catch(innermost);
    handled(alloc, another, propagating, innermost, line, tokens)
}

#[tactic(auto, unfolding(crate::specs::ItemReader::type_or_named))]
fn type_or_named(alloc: Global, line: u64, tokens: &[Placed]) -> Result<(Item, &[Placed]), Stop<'_>>
    ensures { Reads item_view result (readers.type_or_named line tokens.now) }
{
    match find_word(tokens, b"type") {
        Some(rest) => type_item(alloc, line, rest),
        None => named(alloc, Stage::Heading, line, tokens),
    }
}

#[tactic(auto, unfolding(crate::specs::ItemReader::in_heading))]
fn in_heading(alloc: Global, line: u64, tokens: &[Placed]) -> Result<(Item, &[Placed]), Stop<'_>>
    ensures { Reads item_view result (readers.in_heading line tokens.now) }
{
    match find_word(tokens, b"begin") {
        Some(rest) => Ok((Item::Begins, rest)),
        None => type_or_named(alloc, line, tokens),
    }
}

#[tactic(auto, unfolding(crate::specs::ItemReader::task_item))]
fn task_item(alloc: Global, line: u64, tokens: &[Placed]) -> Result<(Item, &[Placed]), Stop<'_>>
    ensures { Reads item_view result (readers.task_item line tokens.now) }
{
    let (head, rest) = task_head(alloc, line, tokens)?;
    Ok((Item::Opens(head), rest))
}

#[tactic(auto, unfolding(crate::specs::ItemReader::in_tasking))]
fn in_tasking(alloc: Global, line: u64, tokens: &[Placed]) -> Result<(Item, &[Placed]), Stop<'_>>
    ensures { Reads item_view result (readers.in_tasking line tokens.now) }
{
    let rest = word(tokens, b"task")?;
    task_item(alloc, line, rest)
}

/// The end of a block with these words.
fn end_of(words: Closing, tokens: &[Placed]) -> Result<(Item, &[Placed]), Stop<'_>>
    ensures { Reads item_view result (readers.end_of words tokens.now) }
{
    let rest = end(words, tokens)?;
    closing(words, rest)
}

#[tactic(auto, unfolding(crate::specs::ItemReader::in_tasked))]
fn in_tasked(
    alloc: Global,
    innermost: Option<Closing>,
    line: u64,
    tokens: &[Placed],
) -> Result<(Item, &[Placed]), Stop<'_>>
    ensures { Reads item_view result (readers.in_tasked innermost line tokens.now) }
{
    match innermost {
        None => in_tasking(alloc, line, tokens),
        Some(words) => match find_word(tokens, b"task") {
            Some(rest) => task_item(alloc, line, rest),
            None => end_of(words, tokens),
        },
    }
}

#[tactic(auto, unfolding(crate::specs::ItemReader::local_item))]
fn local_item<'a>(
    alloc: Global,
    line: u64,
    name: &Ident,
    tokens: &'a [Placed],
) -> Result<(Item, &'a [Placed]), Stop<'a>>
    ensures { Reads item_view result (readers.local_item line name.now tokens.now) }
{
    let (decl, rest) = integer_end(alloc, line, name, tokens)?;
    Ok((Item::Declares(decl), rest))
}

/// A local of a task.
#[tactic(auto, unfolding(crate::specs::ItemReader::local))]
fn local(alloc: Global, line: u64, tokens: &[Placed]) -> Result<(Item, &[Placed]), Stop<'_>>
    ensures { Reads item_view result (readers.local line tokens.now) }
{
    let (name, rest) = name(tokens)?;
    let rest = mark(rest, Mark::Colon)?;
    let rest = word(rest, b"integer")?;
    local_item(alloc, line, name, rest)
}

#[tactic(auto, unfolding(crate::specs::ItemReader::in_preparing))]
fn in_preparing(alloc: Global, line: u64, tokens: &[Placed]) -> Result<(Item, &[Placed]), Stop<'_>>
    ensures { Reads item_view result (readers.in_preparing line tokens.now) }
{
    match find_word(tokens, b"begin") {
        Some(rest) => Ok((Item::Begins, rest)),
        None => local(alloc, line, tokens),
    }
}

fn item_on(
    alloc: Global,
    propagating: bool,
    stage: Stage,
    innermost: Option<Closing>,
    line: u64,
    tokens: &[Placed],
) -> Result<(Item, &[Placed]), Stop<'_>>
    ensures { Reads item_view result (readers.item_on propagating (stage_view stage) innermost line tokens.now) }
{
    match stage {
        Stage::Fronting => in_fronting(alloc, propagating, innermost, line, tokens),
        Stage::Listing => in_listing(alloc, propagating, innermost, line, tokens),
        Stage::Heading => in_heading(alloc, line, tokens),
        Stage::Running => in_running(alloc, propagating, innermost, line, tokens),
        Stage::Tasking => in_tasking(alloc, line, tokens),
        Stage::Tasked => in_tasked(alloc, innermost, line, tokens),
        Stage::Preparing => in_preparing(alloc, line, tokens),
        Stage::Stepping => ended(alloc, Stage::Running, innermost, line, tokens),
        Stage::Catching => in_catching(line, tokens),
    }
}

/// The item at the front of the tokens, where it may come: `innermost` are the words that end the innermost
/// open block, where one is open.
pub fn read_item(
    alloc: Global,
    propagating: bool,
    stage: Stage,
    innermost: Option<Closing>,
    tokens: &[Placed],
) -> Result<(Item, &[Placed]), Stop<'_>>
    ensures { Reads item_view result (readers.item propagating (stage_view stage) innermost tokens.now) }
{
    match tokens {
        [first, ..] => item_on(alloc, propagating, stage, innermost, first.line, tokens),
        [] => Err(Stop::At(tokens)),
    }
}
