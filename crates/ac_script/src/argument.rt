//! Arguments of calls, and what is assigned.
ghost use Rattle.std.specs.Prelude.{◌≡◌, map, IfOk};
ghost use Rattle.ac_script.specs.Outcomes.{Reads, Finds};
ghost use Rattle.ac_script.specs.Arguments.{argument_view};
ghost use Rattle.ac_script.specs.Commands as commands;

use crate::reader::{find_mark, is, mark, name, number};
use crate::stop::Stop;
use ac_syntax::{Ident, Mark, Placed, StringBytes, Token};
use std::alloc::{AllocError, Global};
use std::marker::Model;

/// An argument as it is spelled, whatever its size.
#[derive(Drop)]
pub enum Argument {
    Integer { minus: bool, magnitude: u64 },
    Text(StringBytes),
    NoElement,
    Var(Ident),
}

/// The arguments of a call in order.
#[derive(Drop)]
pub struct Arguments {
    items: Vec<Argument>,
}

impl Model for Arguments {
    ghost use Rattle.std.specs.Prelude.{List, map};
    ghost use Rattle.ac_syntax.specs.declared.arg.Arg.{Arg};
    ghost use Rattle.ac_script.specs.Arguments.{argument_view};

    ghost Value = { List Arg };

    ghost view = { λ arguments. map argument_view arguments.items.items };
}

impl Arguments {
    pub fn from_vec(items: Vec<Argument>) -> Arguments
        ensures { result ≡ map argument_view items.items }
    {
        Arguments { items }
    }

    pub fn into_vec(self) -> Vec<Argument>
        ensures { map argument_view result.items ≡ self }
    {
        self.items
    }
}

/// An argument of one token that isn't a name.
pub fn constant(
    alloc: Global,
    tokens: &[Placed],
) -> Result<Option<(Argument, &[Placed])>, AllocError>
    ensures { IfOk result (λ found. Finds (λ read. (argument_view read.0, read.1.now)) found tokens.now (commands.constant tokens.now)) }
{
    match tokens {
        [
            Placed {
                token: Token::Number(number),
                ..
            },
            rest @ ..,
        ] => {
            let integer = Argument::Integer {
                minus: false,
                magnitude: *number,
            };
            Ok(Some((integer, rest)))
        }
        [
            Placed {
                token: Token::Text(text),
                ..
            },
            rest @ ..,
        ] => {
            let text = text.copy(alloc)?;
            Ok(Some((Argument::Text(text), rest)))
        }
        [
            Placed {
                token: Token::Word(word),
                ..
            },
            rest @ ..,
        ] if is(word.bytes(), b"no_element") => Ok(Some((Argument::NoElement, rest))),
        _ => Ok(None),
    }
}

#[tactic(auto, unfolding(crate::specs::Commands::other_argument))]
fn other_argument(alloc: Global, tokens: &[Placed]) -> Result<(Argument, &[Placed]), Stop<'_>>
    ensures { Reads argument_view result (commands.other_argument tokens.now) }
{
    match find_mark(tokens, Mark::Minus) {
        Some(rest) => {
            let (magnitude, rest) = number(rest)?;
            let integer = Argument::Integer {
                minus: true,
                magnitude,
            };
            Ok((integer, rest))
        }
        None => {
            let (name, rest) = name(tokens)?;
            Ok((Argument::Var(name.copy(alloc)?), rest))
        }
    }
}

#[tactic(auto, unfolding(crate::specs::Commands::argument))]
fn any_argument(alloc: Global, tokens: &[Placed]) -> Result<(Argument, &[Placed]), Stop<'_>>
    ensures { Reads argument_view result (commands.argument tokens.now) }
{
    match constant(alloc, tokens)? {
        Some((constant, rest)) => Ok((constant, rest)),
        None => other_argument(alloc, tokens),
    }
}

/// The first argument, those behind it and the parenthesis behind them.
fn listed<'a>(
    alloc: Global,
    first: Argument,
    tokens: &'a [Placed],
) -> Result<(Vec<Argument>, &'a [Placed]), Stop<'a>>
    ensures { Reads (λ value. map argument_view value.items) result (commands.listed (argument_view first) tokens.now) }
{
    let mut items = Vec::new(alloc);
    items.push(first)?;
    let mut rest = tokens;
    while let Some(after) = find_mark(rest, Mark::Comma) {
        let (next, after) = any_argument(alloc, after)?;
        items.push(next)?;
        rest = after;
    }
    Ok((items, mark(rest, Mark::Close)?))
}

#[tactic(auto, unfolding(crate::specs::Commands::arguments))]
fn all_arguments(alloc: Global, tokens: &[Placed]) -> Result<(Arguments, &[Placed]), Stop<'_>>
    ensures { Reads (λ value. value) result (commands.arguments tokens.now) }
{
    let (first, rest) = any_argument(alloc, tokens)?;
    let (items, rest) = listed(alloc, first, rest)?;
    let rest = mark(rest, Mark::Semicolon)?;
    Ok((Arguments::from_vec(items), rest))
}

/// Arguments in parentheses, where there are any, and the semicolon.
#[tactic(auto, unfolding(crate::specs::Commands::arguments_end))]
pub fn arguments_end(alloc: Global, tokens: &[Placed]) -> Result<(Arguments, &[Placed]), Stop<'_>>
    ensures { Reads (λ value. value) result (commands.arguments_end tokens.now) }
{
    match find_mark(tokens, Mark::Open) {
        Some(rest) => all_arguments(alloc, rest),
        None => {
            let rest = mark(tokens, Mark::Semicolon)?;
            Ok((Arguments::from_vec(Vec::new(alloc)), rest))
        }
    }
}
