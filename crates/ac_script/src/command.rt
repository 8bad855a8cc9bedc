//! Commands, from behind their first name on.
ghost use Rattle.std.specs.Option.{option_copied};
ghost use Rattle.ac_script.specs.Outcomes.{Reads, Finds};
ghost use Rattle.ac_script.specs.Arguments.{argument_view};
ghost use Rattle.ac_script.specs.Views.{command_view};
ghost use Rattle.ac_script.specs.Commands as commands;

use crate::argument::{Argument, arguments_end, constant};
use crate::item::Command;
use crate::names::copy_any;
use crate::reader::{find_mark, mark, name, number};
use crate::stop::Stop;
use ac_syntax::{Ident, Mark, Placed, Token};
use std::alloc::Global;

#[tactic(auto, unfolding(crate::specs::Commands::call))]
fn call<'a>(
    alloc: Global,
    line: u64,
    target: Option<&Ident>,
    object: &Ident,
    tokens: &'a [Placed],
) -> Result<(Command, &'a [Placed]), Stop<'a>>
    ensures { Reads command_view result (commands.call line (option_copied target.entry) object.now tokens.now) }
{
    let (op, rest) = name(tokens)?;
    let (args, rest) = arguments_end(alloc, rest)?;
    let command = Command::Call {
        line,
        target: copy_any(alloc, target)?,
        object: object.copy(alloc)?,
        op: op.copy(alloc)?,
        args,
    };
    Ok((command, rest))
}

#[tactic(auto, unfolding(crate::specs::Commands::set_end))]
fn set_end<'a>(
    alloc: Global,
    line: u64,
    target: &Ident,
    from: Argument,
    tokens: &'a [Placed],
) -> Result<(Command, &'a [Placed]), Stop<'a>>
    ensures { Reads command_view result (commands.set_end line target.now (argument_view from) tokens.now) }
{
    let rest = mark(tokens, Mark::Semicolon)?;
    let target = target.copy(alloc)?;
    Ok((Command::Set { line, target, from }, rest))
}

/// Whether the number is taken away.
fn find_sign(tokens: &[Placed]) -> Option<(bool, &[Placed])>
    ensures { Finds (λ read. (read.0, read.1.now)) result tokens.now (commands.sign tokens.now) }
{
    match tokens {
        [
            Placed {
                token: Token::Mark(Mark::Plus),
                ..
            },
            rest @ ..,
        ] => Some((false, rest)),
        [
            Placed {
                token: Token::Mark(Mark::Minus),
                ..
            },
            rest @ ..,
        ] => Some((true, rest)),
        _ => None,
    }
}

#[tactic(auto, unfolding(crate::specs::Commands::sum))]
fn sum<'a>(
    alloc: Global,
    line: u64,
    target: &Ident,
    from: &Ident,
    minus: bool,
    tokens: &'a [Placed],
) -> Result<(Command, &'a [Placed]), Stop<'a>>
    ensures { Reads command_view result (commands.sum line target.now from.now minus tokens.now) }
{
    let (number, rest) = number(tokens)?;
    let rest = mark(rest, Mark::Semicolon)?;
    let command = Command::Sum {
        line,
        target: target.copy(alloc)?,
        from: from.copy(alloc)?,
        minus,
        number,
    };
    Ok((command, rest))
}

#[tactic(auto, unfolding(crate::specs::Commands::sum_or_set))]
fn sum_or_set<'a>(
    alloc: Global,
    line: u64,
    target: &Ident,
    from: &Ident,
    tokens: &'a [Placed],
) -> Result<(Command, &'a [Placed]), Stop<'a>>
    ensures { Reads command_view result (commands.sum_or_set line target.now from.now tokens.now) }
{
    match find_sign(tokens) {
        Some((minus, rest)) => sum(alloc, line, target, from, minus, rest),
        None => {
            let from = Argument::Var(from.copy(alloc)?);
            set_end(alloc, line, target, from, tokens)
        }
    }
}

#[tactic(auto, unfolding(crate::specs::Commands::behind_source))]
fn behind_source<'a>(
    alloc: Global,
    line: u64,
    target: &Ident,
    from: &Ident,
    tokens: &'a [Placed],
) -> Result<(Command, &'a [Placed]), Stop<'a>>
    ensures { Reads command_view result (commands.behind_source line target.now from.now tokens.now) }
{
    match find_mark(tokens, Mark::Dot) {
        Some(rest) => call(alloc, line, Some(target), from, rest),
        None => sum_or_set(alloc, line, target, from, tokens),
    }
}

#[tactic(auto, unfolding(crate::specs::Commands::from_name))]
fn from_name<'a>(
    alloc: Global,
    line: u64,
    target: &Ident,
    tokens: &'a [Placed],
) -> Result<(Command, &'a [Placed]), Stop<'a>>
    ensures { Reads command_view result (commands.from_name line target.now tokens.now) }
{
    let (from, rest) = name(tokens)?;
    behind_source(alloc, line, target, from, rest)
}

#[tactic(auto, unfolding(crate::specs::Commands::from_negative))]
fn from_negative<'a>(
    alloc: Global,
    line: u64,
    target: &Ident,
    tokens: &'a [Placed],
) -> Result<(Command, &'a [Placed]), Stop<'a>>
    ensures { Reads command_view result (commands.from_negative line target.now tokens.now) }
{
    let (magnitude, rest) = number(tokens)?;
    let from = Argument::Integer {
        minus: true,
        magnitude,
    };
    set_end(alloc, line, target, from, rest)
}

#[tactic(auto, unfolding(crate::specs::Commands::from_other))]
fn from_other<'a>(
    alloc: Global,
    line: u64,
    target: &Ident,
    tokens: &'a [Placed],
) -> Result<(Command, &'a [Placed]), Stop<'a>>
    ensures { Reads command_view result (commands.from_other line target.now tokens.now) }
{
    match find_mark(tokens, Mark::Minus) {
        Some(rest) => from_negative(alloc, line, target, rest),
        None => from_name(alloc, line, target, tokens),
    }
}

#[tactic(auto, unfolding(crate::specs::Commands::assigned))]
fn assigned<'a>(
    alloc: Global,
    line: u64,
    target: &Ident,
    tokens: &'a [Placed],
) -> Result<(Command, &'a [Placed]), Stop<'a>>
    ensures { Reads command_view result (commands.assigned line target.now tokens.now) }
{
    match constant(alloc, tokens)? {
        Some((from, rest)) => set_end(alloc, line, target, from, rest),
        None => from_other(alloc, line, target, tokens),
    }
}

#[tactic(auto, unfolding(crate::specs::Commands::assignment))]
fn assignment<'a>(
    alloc: Global,
    line: u64,
    target: &Ident,
    tokens: &'a [Placed],
) -> Result<(Command, &'a [Placed]), Stop<'a>>
    ensures { Reads command_view result (commands.assignment line target.now tokens.now) }
{
    let rest = mark(tokens, Mark::Assign)?;
    assigned(alloc, line, target, rest)
}

/// What follows the name with which a command begins.
#[tactic(auto, unfolding(crate::specs::Commands::command))]
pub fn command<'a>(
    alloc: Global,
    line: u64,
    first: &Ident,
    tokens: &'a [Placed],
) -> Result<(Command, &'a [Placed]), Stop<'a>>
    ensures { Reads command_view result (commands.command line first.now tokens.now) }
{
    match find_mark(tokens, Mark::Dot) {
        Some(rest) => call(alloc, line, None, first, rest),
        None => assignment(alloc, line, first, tokens),
    }
}
