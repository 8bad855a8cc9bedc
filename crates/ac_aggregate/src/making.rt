//! Parts made of smaller ones, each in a box of its own and with the tokens behind it. Readers that lead back to each other call them, so none is taken into its caller: that keeps the callers' frames small.
ghost use Rattle.std.specs.Prelude.{◌≡◌, IfOk};
ghost use Rattle.ac_syntax.specs.declared.token.Mark.TheVariants as mark;
ghost use Rattle.ac_aggregate.specs.Asked as what;
ghost use Rattle.ac_aggregate.specs.Outcomes.{Finds, gives};
ghost use Rattle.ac_aggregate.specs.Readers as readers;
ghost use Rattle.ac_aggregate.specs.Views.{asked_in};

use crate::oper::Comparison;
use crate::part::{Found, Part};
use crate::token_reader::{Head, mark, name, number, reducing};
use ac_base::NoMemory;
use ac_syntax::{Mark, Token};
use std::alloc::Global;

#[inline(never)]
pub fn product(alloc: Global, l: Box<Part>, r: Box<Part>) -> Result<Box<Part>, NoMemory>
    ensures { IfOk result (λ made. asked_in made ≡ what.product (asked_in l) (asked_in r)) }
{
    Ok(Box::new(alloc, Part::Product(l, r))?)
}

#[inline(never)]
pub fn sum(alloc: Global, l: Box<Part>, minus: bool, r: Box<Part>) -> Result<Box<Part>, NoMemory>
    ensures { IfOk result (λ made. asked_in made ≡ what.sum (asked_in l) minus (asked_in r)) }
{
    Ok(Box::new(alloc, Part::Sum(l, minus, r))?)
}

#[inline(never)]
pub fn compares(
    alloc: Global,
    l: Box<Part>,
    by: Comparison,
    r: Box<Part>,
) -> Result<Box<Part>, NoMemory>
    ensures { IfOk result (λ made. asked_in made ≡ what.compares (asked_in l) by (asked_in r)) }
{
    Ok(Box::new(alloc, Part::Compares(l, by, r))?)
}

#[inline(never)]
pub fn both(alloc: Global, l: Box<Part>, r: Box<Part>) -> Result<Box<Part>, NoMemory>
    ensures { IfOk result (λ made. asked_in made ≡ what.both (asked_in l) (asked_in r)) }
{
    Ok(Box::new(alloc, Part::Both(l, r))?)
}

/// An expression and its closing parenthesis.
#[inline(never)]
pub fn group(alloc: Global, e: Box<Part>, tokens: &[Token]) -> Result<Found<'_>, NoMemory>
    ensures { IfOk result (λ read. Finds asked_in read (readers.closed mark.Close what.group (asked_in e) tokens.now)) }
{
    match mark(tokens, Mark::Close) {
        Some(rest) => Ok(Some((Box::new(alloc, Part::Group(e))?, rest))),
        None => Ok(None),
    }
}

/// A condition that is negated, and its closing parenthesis.
#[inline(never)]
pub fn negated(alloc: Global, c: Box<Part>, tokens: &[Token]) -> Result<Found<'_>, NoMemory>
    ensures { IfOk result (λ read. Finds asked_in read (readers.closed mark.Close what.negated (asked_in c) tokens.now)) }
{
    match mark(tokens, Mark::Close) {
        Some(rest) => Ok(Some((Box::new(alloc, Part::Negated(c))?, rest))),
        None => Ok(None),
    }
}

/// The condition of an aggregate that has none.
#[inline(never)]
pub fn always(alloc: Global, tokens: &[Token]) -> Result<Found<'_>, NoMemory>
    ensures { IfOk result (λ read. Finds asked_in read (gives what.always tokens.now)) }
{
    Ok(Some((Box::new(alloc, Part::Always)?, tokens)))
}

/// The aggregate of this heading.
fn aggregate(
    alloc: Global,
    heading: &Head<'_>,
    condition: Box<Part>,
    gives: Box<Part>,
) -> Result<Box<Part>, NoMemory>
    ensures { IfOk result (λ made. asked_in made ≡ what.each heading.now.generator.now heading.now.object.now (asked_in condition) (asked_in gives)) }
{
    let generator = heading.generator.copy(alloc)?;
    let object = heading.object.copy(alloc)?;
    Ok(Box::new(alloc, Part::Each(generator, object, condition, gives))?)
}

/// What an aggregate gives, and its closing bracket.
#[inline(never)]
pub fn each<'a>(
    alloc: Global,
    heading: &Head<'_>,
    condition: Box<Part>,
    gives: Box<Part>,
    tokens: &'a [Token],
) -> Result<Found<'a>, NoMemory>
    ensures { IfOk result (λ read. Finds asked_in read
        (readers.closed mark.BracketClose (what.each heading.now.generator.now heading.now.object.now (asked_in condition)) (asked_in gives) tokens.now)) }
{
    match mark(tokens, Mark::BracketClose) {
        Some(rest) => Ok(Some((aggregate(alloc, heading, condition, gives)?, rest))),
        None => Ok(None),
    }
}

/// A number or a string without a minus.
fn constant(alloc: Global, tokens: &[Token]) -> Result<Found<'_>, NoMemory>
    ensures { IfOk result (λ read. Finds asked_in read (readers.constant tokens.now)) }
{
    match tokens {
        [Token::Number(n), rest @ ..] => {
            let made = Box::new(alloc, Part::Literal(false, *n))?;
            Ok(Some((made, rest)))
        }
        [Token::Text(bytes), rest @ ..] => {
            let made = Box::new(alloc, Part::Text(bytes.copy(alloc)?))?;
            Ok(Some((made, rest)))
        }
        _ => Ok(None),
    }
}

/// A number behind its minus.
fn negative(alloc: Global, tokens: &[Token]) -> Result<Found<'_>, NoMemory>
    ensures { IfOk result (λ read. Finds asked_in read (readers.negative tokens.now)) }
{
    match number(tokens) {
        Some((n, rest)) => Ok(Some((Box::new(alloc, Part::Literal(true, n))?, rest))),
        None => Ok(None),
    }
}

/// A number or a string.
#[inline(never)]
#[tactic(auto, unfolding(crate::specs::Readers::spelled))]
pub fn spelled(alloc: Global, tokens: &[Token]) -> Result<Found<'_>, NoMemory>
    ensures { IfOk result (λ read. Finds asked_in read (readers.spelled tokens.now)) }
{
    match mark(tokens, Mark::Minus) {
        Some(rest) => negative(alloc, rest),
        None => constant(alloc, tokens),
    }
}

/// An object's name.
#[inline(never)]
pub fn object(alloc: Global, tokens: &[Token]) -> Result<Found<'_>, NoMemory>
    ensures { IfOk result (λ read. Finds asked_in read (readers.object tokens.now)) }
{
    match name(tokens) {
        Some((word, rest)) => {
            let made = Box::new(alloc, Part::All(word.copy(alloc)?))?;
            Ok(Some((made, rest)))
        }
        None => Ok(None),
    }
}

/// A reduction, behind its tick.
fn reduction(alloc: Global, source: Box<Part>, tokens: &[Token]) -> Result<Found<'_>, NoMemory>
    ensures { IfOk result (λ read. Finds asked_in read (readers.reduction (asked_in source) tokens.now)) }
{
    match reducing(tokens) {
        Some((how, rest)) => {
            let made = Part::Reduced(source, how.by, how.minus, how.number);
            Ok(Some((Box::new(alloc, made)?, rest)))
        }
        None => Ok(None),
    }
}

/// What a source is in an expression where no reduction follows.
fn as_factor(alloc: Global, source: Box<Part>, tokens: &[Token]) -> Result<Found<'_>, NoMemory>
    ensures { IfOk result (λ read. Finds asked_in read (readers.as_factor (asked_in source) tokens.now)) }
{
    match Box::into_inner(source) {
        Part::All(word) => Ok(Some((Box::new(alloc, Part::Name(word))?, tokens))),
        _ => Ok(None),
    }
}

/// What a source is as a whole question where no reduction follows.
fn as_question(source: Box<Part>, tokens: &[Token]) -> Found<'_>
    ensures { Finds asked_in result (readers.as_question (asked_in source) tokens.now) }
{
    match &*source {
        Part::Each(_, _, _, _) => Some((source, tokens)),
        _ => None,
    }
}

/// A source in an expression, with the reduction behind it where there is one.
#[inline(never)]
pub fn factor_of(alloc: Global, source: Box<Part>, tokens: &[Token]) -> Result<Found<'_>, NoMemory>
    ensures { IfOk result (λ read. Finds asked_in read (readers.reduced_or readers.as_factor (asked_in source) tokens.now)) }
{
    match mark(tokens, Mark::Tick) {
        Some(rest) => reduction(alloc, source, rest),
        None => as_factor(alloc, source, tokens),
    }
}

/// The same of a source as a whole question.
pub fn question_of(
    alloc: Global,
    source: Box<Part>,
    tokens: &[Token],
) -> Result<Found<'_>, NoMemory>
    ensures { IfOk result (λ read. Finds asked_in read (readers.reduced_or readers.as_question (asked_in source) tokens.now)) }
{
    match mark(tokens, Mark::Tick) {
        Some(rest) => reduction(alloc, source, rest),
        None => Ok(as_question(source, tokens)),
    }
}
