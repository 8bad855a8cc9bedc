//! Readers of the parts of a question, which lead back to each other: each answers no part where its tokens begin with none.
ghost use Rattle.std.specs.Prelude.{IfOk};
ghost use Rattle.ac_aggregate.specs.Outcomes.{Finds, fork, gives, onward};
ghost use Rattle.ac_aggregate.specs.Readers as readers;
ghost use Rattle.ac_aggregate.specs.Reading as reading;
ghost use Rattle.ac_aggregate.specs.Reading.{read_by};
ghost use Rattle.ac_aggregate.specs.Views.{asked_in};

use crate::making::{
    always, both, compares, each, factor_of, group, negated, object, product, question_of, spelled,
    sum,
};
use crate::part::{Found, Part};
use crate::token_reader::{Head, comparison, heading, mark, negation, sign, word};
use ac_base::NoMemory;
use ac_syntax::{Mark, Token};
use std::alloc::Global;

#[cycle(parts)]
#[tactic(auto, unfolding(crate::specs::Reading::read_by))]
fn factor(alloc: Global, tokens: &[Token], steps: u32) -> Result<Found<'_>, NoMemory>
    ensures { IfOk result (λ read. Finds asked_in read (read_by steps reading.factor tokens.now)) }
{
    if steps == 0 {
        return Ok(None);
    }
    if let Some(rest) = mark(tokens, Mark::Open) {
        return match expr(alloc, rest, steps - 1)? {
            Some((e, rest)) => group(alloc, e, rest),
            None => Ok(None),
        };
    }
    bare(alloc, tokens, steps - 1)
}

/// A factor without parentheses round it. It is a function of its own, so that parentheses in each other call for little stack.
#[cycle(parts)]
#[inline(never)]
fn bare(alloc: Global, tokens: &[Token], steps: u32) -> Result<Found<'_>, NoMemory>
    ensures { IfOk result (λ read. Finds asked_in read
        (fork readers.spelled (λ e. gives e) (λ ts. onward (read_by steps reading.source ts) (readers.reduced_or readers.as_factor)) tokens.now)) }
{
    if let Some((e, rest)) = spelled(alloc, tokens)? {
        return Ok(Some((e, rest)));
    }
    match source(alloc, tokens, steps)? {
        Some((s, rest)) => factor_of(alloc, s, rest),
        None => Ok(None),
    }
}

/// What goes on behind a term.
#[cycle(parts)]
#[tactic(auto, unfolding(crate::specs::Reading::read_by))]
fn factors(alloc: Global, l: Box<Part>, tokens: &[Token], steps: u32) -> Result<Found<'_>, NoMemory>
    ensures { IfOk result (λ read. Finds asked_in read (read_by steps (reading.factors (asked_in l)) tokens.now)) }
{
    if steps == 0 {
        return Ok(None);
    }
    match mark(tokens, Mark::Star) {
        Some(rest) => match factor(alloc, rest, steps - 1)? {
            Some((r, rest)) => {
                let l = product(alloc, l, r)?;
                factors(alloc, l, rest, steps - 1)
            }
            None => Ok(None),
        },
        None => Ok(Some((l, tokens))),
    }
}

#[cycle(parts)]
#[tactic(auto, unfolding(crate::specs::Reading::read_by))]
fn term(alloc: Global, tokens: &[Token], steps: u32) -> Result<Found<'_>, NoMemory>
    ensures { IfOk result (λ read. Finds asked_in read (read_by steps reading.term tokens.now)) }
{
    if steps == 0 {
        return Ok(None);
    }
    match factor(alloc, tokens, steps - 1)? {
        Some((e, rest)) => factors(alloc, e, rest, steps - 1),
        None => Ok(None),
    }
}

/// What goes on behind an expression.
#[cycle(parts)]
#[tactic(auto, unfolding(crate::specs::Reading::read_by))]
fn terms(alloc: Global, l: Box<Part>, tokens: &[Token], steps: u32) -> Result<Found<'_>, NoMemory>
    ensures { IfOk result (λ read. Finds asked_in read (read_by steps (reading.terms (asked_in l)) tokens.now)) }
{
    if steps == 0 {
        return Ok(None);
    }
    match sign(tokens) {
        Some((minus, rest)) => match term(alloc, rest, steps - 1)? {
            Some((r, rest)) => {
                let l = sum(alloc, l, minus, r)?;
                terms(alloc, l, rest, steps - 1)
            }
            None => Ok(None),
        },
        None => Ok(Some((l, tokens))),
    }
}

#[cycle(parts)]
#[tactic(auto, unfolding(crate::specs::Reading::read_by))]
fn expr(alloc: Global, tokens: &[Token], steps: u32) -> Result<Found<'_>, NoMemory>
    ensures { IfOk result (λ read. Finds asked_in read (read_by steps reading.expr tokens.now)) }
{
    if steps == 0 {
        return Ok(None);
    }
    match term(alloc, tokens, steps - 1)? {
        Some((e, rest)) => terms(alloc, e, rest, steps - 1),
        None => Ok(None),
    }
}

/// What follows the left side of a comparison.
#[cycle(parts)]
#[tactic(auto, unfolding(crate::specs::Reading::read_by))]
fn compared(
    alloc: Global,
    l: Box<Part>,
    tokens: &[Token],
    steps: u32,
) -> Result<Found<'_>, NoMemory>
    ensures { IfOk result (λ read. Finds asked_in read (read_by steps (reading.compared (asked_in l)) tokens.now)) }
{
    if steps == 0 {
        return Ok(None);
    }
    match comparison(tokens) {
        Some((by, rest)) => match expr(alloc, rest, steps - 1)? {
            Some((r, rest)) => Ok(Some((compares(alloc, l, by, r)?, rest))),
            None => Ok(None),
        },
        None => Ok(None),
    }
}

#[cycle(parts)]
#[tactic(auto, unfolding(crate::specs::Reading::read_by))]
fn atom(alloc: Global, tokens: &[Token], steps: u32) -> Result<Found<'_>, NoMemory>
    ensures { IfOk result (λ read. Finds asked_in read (read_by steps reading.atom tokens.now)) }
{
    if steps == 0 {
        return Ok(None);
    }
    if let Some(rest) = negation(tokens) {
        return match condition(alloc, rest, steps - 1)? {
            Some((c, rest)) => negated(alloc, c, rest),
            None => Ok(None),
        };
    }
    match expr(alloc, tokens, steps - 1)? {
        Some((l, rest)) => compared(alloc, l, rest, steps - 1),
        None => Ok(None),
    }
}

/// What goes on behind a condition.
#[cycle(parts)]
#[tactic(auto, unfolding(crate::specs::Reading::read_by))]
fn conditions(
    alloc: Global,
    l: Box<Part>,
    tokens: &[Token],
    steps: u32,
) -> Result<Found<'_>, NoMemory>
    ensures { IfOk result (λ read. Finds asked_in read (read_by steps (reading.conditions (asked_in l)) tokens.now)) }
{
    if steps == 0 {
        return Ok(None);
    }
    match word(tokens, b"and") {
        Some(rest) => match atom(alloc, rest, steps - 1)? {
            Some((r, rest)) => {
                let l = both(alloc, l, r)?;
                conditions(alloc, l, rest, steps - 1)
            }
            None => Ok(None),
        },
        None => Ok(Some((l, tokens))),
    }
}

#[cycle(parts)]
#[tactic(auto, unfolding(crate::specs::Reading::read_by))]
fn condition(alloc: Global, tokens: &[Token], steps: u32) -> Result<Found<'_>, NoMemory>
    ensures { IfOk result (λ read. Finds asked_in read (read_by steps reading.condition tokens.now)) }
{
    if steps == 0 {
        return Ok(None);
    }
    match atom(alloc, tokens, steps - 1)? {
        Some((c, rest)) => conditions(alloc, c, rest, steps - 1),
        None => Ok(None),
    }
}

/// The condition of an aggregate, where it has one.
#[cycle(parts)]
#[tactic(auto, unfolding(crate::specs::Reading::read_by))]
fn filter(alloc: Global, tokens: &[Token], steps: u32) -> Result<Found<'_>, NoMemory>
    ensures { IfOk result (λ read. Finds asked_in read (read_by steps reading.filter tokens.now)) }
{
    if steps == 0 {
        return Ok(None);
    }
    match word(tokens, b"when") {
        Some(rest) => condition(alloc, rest, steps - 1),
        None => always(alloc, tokens),
    }
}

/// What an aggregate gives.
#[cycle(parts)]
#[tactic(auto, unfolding(crate::specs::Reading::read_by))]
fn given<'a>(
    alloc: Global,
    heading: &Head<'_>,
    condition: Box<Part>,
    tokens: &'a [Token],
    steps: u32,
) -> Result<Found<'a>, NoMemory>
    ensures { IfOk result (λ read. Finds asked_in read
        (read_by steps (reading.given heading.now.generator.now heading.now.object.now (asked_in condition)) tokens.now)) }
{
    if steps == 0 {
        return Ok(None);
    }
    match mark(tokens, Mark::Arrow) {
        Some(rest) => match expr(alloc, rest, steps - 1)? {
            Some((e, rest)) => each(alloc, heading, condition, e, rest),
            None => Ok(None),
        },
        None => Ok(None),
    }
}

/// An aggregate, behind its bracket.
#[cycle(parts)]
#[tactic(auto, unfolding(crate::specs::Reading::read_by))]
fn aggregate(alloc: Global, tokens: &[Token], steps: u32) -> Result<Found<'_>, NoMemory>
    ensures { IfOk result (λ read. Finds asked_in read (read_by steps reading.aggregate tokens.now)) }
{
    if steps == 0 {
        return Ok(None);
    }
    match heading(tokens) {
        Some((heading, rest)) => match filter(alloc, rest, steps - 1)? {
            Some((c, rest)) => given(alloc, &heading, c, rest, steps - 1),
            None => Ok(None),
        },
        None => Ok(None),
    }
}

/// What a reduction goes over, or an aggregate alone.
#[cycle(parts)]
#[tactic(auto, unfolding(crate::specs::Reading::read_by))]
fn source(alloc: Global, tokens: &[Token], steps: u32) -> Result<Found<'_>, NoMemory>
    ensures { IfOk result (λ read. Finds asked_in read (read_by steps reading.source tokens.now)) }
{
    if steps == 0 {
        return Ok(None);
    }
    match mark(tokens, Mark::BracketOpen) {
        Some(rest) => aggregate(alloc, rest, steps - 1),
        None => object(alloc, tokens),
    }
}

/// A question at the front of its tokens.
#[tactic(auto, unfolding(crate::specs::Reading::read_by))]
pub fn whole(alloc: Global, tokens: &[Token], steps: u32) -> Result<Found<'_>, NoMemory>
    ensures { IfOk result (λ read. Finds asked_in read (read_by steps reading.question tokens.now)) }
{
    if steps == 0 {
        return Ok(None);
    }
    match source(alloc, tokens, steps - 1)? {
        Some((s, rest)) => question_of(alloc, s, rest),
        None => Ok(None),
    }
}
