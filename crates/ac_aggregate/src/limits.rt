//! The limits of questions.
ghost use Rattle.std.specs.Prelude.{◌≡◌, ◌<◌, ◌-◌, ◌^◌, nat_lt};
ghost use Rattle.ac_syntax.specs.Limits as scripts;
ghost use Rattle.ac_aggregate.specs.Limits as limits;
ghost use Rattle.ac_aggregate.specs.Views.{asked};

use crate::part::Part;
use ac_syntax::{Mark, Token};

fn is_mark(token: &Token, wanted: Mark) -> bool
    ensures { result ≡ scripts.is_mark wanted token.now }
{
    match token {
        Token::Mark(found) => *found == wanted,
        _ => false,
    }
}

fn opens(token: &Token) -> bool
    ensures { result ≡ limits.opens token.now }
{
    is_mark(token, Mark::Open) || is_mark(token, Mark::BracketOpen)
}

fn closes(token: &Token) -> bool
    ensures { result ≡ limits.closes token.now }
{
    is_mark(token, Mark::Close) || is_mark(token, Mark::BracketClose)
}

fn open_after(count: u64, token: &Token) -> u64
    requires { count < 2 ^ 64 - 1 }
    ensures { result ≡ limits.open_after count token.now }
{
    if opens(token) {
        count + 1
    } else if closes(token) {
        count.saturating_sub(1)
    } else {
        count
    }
}

/// Whether more than 16 brackets and parentheses are open at once.
#[tactic(auto, using(crate::proofs::Depths::goes_on, crate::proofs::Depths::deep))]
pub fn is_deep(tokens: &[Token]) -> bool
    ensures { result ≡ nat_lt 16 (limits.nesting 0 tokens.now) }
{
    let mut count = 0;
    for token in tokens {
        count = open_after(count, token);
        if count > 16 {
            return true;
        }
    }
    false
}

fn is_past_integer(minus: bool, number: u64) -> bool
    ensures { result ≡ limits.is_past_integer minus number }
{
    if minus {
        number > 9_223_372_036_854_775_808
    } else {
        number > 9_223_372_036_854_775_807
    }
}

/// Whether there is a number outside the integers, or a string of more than 1,000 bytes.
pub fn has_long(part: &Part) -> bool
    ensures { result ≡ limits.has_long (asked part.now) }
{
    match part {
        Part::Literal(minus, number) => is_past_integer(*minus, *number),
        Part::Text(bytes) => bytes.bytes().len() > 1_000,
        Part::Name(_) | Part::All(_) | Part::Always => false,
        Part::Group(e) => has_long(e),
        Part::Negated(c) => has_long(c),
        Part::Product(l, r) => has_long(l) || has_long(r),
        Part::Sum(l, _, r) => has_long(l) || has_long(r),
        Part::Compares(l, _, r) => has_long(l) || has_long(r),
        Part::Both(l, r) => has_long(l) || has_long(r),
        Part::Each(_, _, c, e) => has_long(c) || has_long(e),
        Part::Reduced(source, _, minus, number) => {
            is_past_integer(*minus, *number) || has_long(source)
        }
    }
}
